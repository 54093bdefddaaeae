ghost use Rattle.graph.specs.Edges.{no_edge};

use fixed::Blank;

// An edge makes its first step a predecessor of its second.
#[derive(Clone, Copy, PartialEq, Eq, Debug)]
pub struct Edge {
    pub from: u8,
    pub to: u8,
}

impl Blank for Edge {
    ghost blank = { no_edge };

    fn blank() -> Edge {
        Edge { from: 0, to: 0 }
    }
}
