ghost use Rattle.std.specs.Prelude.{◌≡◌, ◌≤◌, length};
ghost use Rattle.std.specs.Option.{ForSome};
ghost use Rattle.fixed.specs.Values.{values};
ghost use Rattle.graph.specs.Edges.{edges_in, EachInGraph, NoOther};
ghost use Rattle.graph.specs.Graphs.{sets_of};

use crate::edge::Edge;
use crate::graph::Graph;
use fixed::FixedList;

// Each of 64 steps can have an edge from every lower one.
pub(crate) const MOST_EDGES: usize = 2016;

// A plan that is being built. Its edges are kept in the order in which they were added.
#[derive(Clone, Copy)]
pub struct Draft {
    pub(crate) graph: Graph,
    pub(crate) deadline: Option<u16>,
    pub(crate) edges: FixedList<Edge, MOST_EDGES>,
    ghost ranged: { ForSome deadline (λ ticks. (1 ≤ ticks) × (ticks ≤ 20000)) },
    ghost counted: { length (values edges) ≡ edges_in (sets_of (values graph.steps)) },
    ghost listed: { EachInGraph (sets_of (values graph.steps)) (values edges) },
    ghost complete: { NoOther (sets_of (values graph.steps)) (values edges) },
}
