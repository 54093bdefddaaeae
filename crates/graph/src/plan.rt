ghost use Rattle.std.specs.Prelude.{length};
ghost use Rattle.fixed.specs.Values.{values};
ghost use Rattle.graph.specs.Graphs.{sets_of};
ghost use Rattle.graph.specs.Plans.{Due, Direct};

use crate::graph::Graph;

// A job's steps and its deadline: either empty, with nothing in it, or whole.
#[derive(Clone, Copy)]
pub struct Plan {
    pub(crate) graph: Graph,
    pub(crate) deadline: u16,
    ghost due: { Due (length (values graph.steps)) deadline },
    ghost direct: { Direct (sets_of (values graph.steps)) },
}
