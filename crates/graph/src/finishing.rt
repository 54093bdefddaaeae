// Finishing a draft.
ghost use Rattle.std.specs.Prelude.{◌≡◌, IfOk};
ghost use Rattle.graph.specs.Drafts.{content, FinishedBy, FinishLaw};
ghost use Rattle.graph.specs.Implied.{first_implied};

use crate::ancestors::Ancestors;
use crate::draft::Draft;
use crate::plan::Plan;
use crate::refusal::Refusal;

impl Draft {
    // The first edge, in the order of adding, that is implied: its first step is on a path to another predecessor of its second.
    fn first_implied(&self) -> Option<u16>
        ensures { result ≡ first_implied (content self.now).edges }
    {
        let on_paths = self.graph.walk(&Ancestors);
        let mut found = None;
        'edges: for (place, edge) in self.edges.as_slice().iter().enumerate() {
            let mut others = self.graph.predecessors(edge.to);
            others.remove(edge.from);
            for other in others {
                if on_paths[usize::from(other)].contains(edge.from) {
                    found = Some(place as u16);
                    break 'edges;
                }
            }
        }
        found
    }

    // The plan of the draft: refused where the deadline or the steps are missing, and where an edge is implied.
    pub fn finish(&self) -> Result<Plan, Refusal>
        ensures answer { FinishedBy (content self.now) result }
        ensures law { FinishLaw (content self.now) }
        ensures graph { IfOk result (λ plan. plan.graph ≡ self.now.graph) }
    {
        let Some(deadline) = self.deadline else {
            return Err(Refusal::Incomplete);
        };
        if self.graph.count() == 0 {
            return Err(Refusal::Incomplete);
        }
        match self.first_implied() {
            Some(edge) => Err(Refusal::ImpliedEdge(edge)),
            None => Ok(Plan {
                graph: self.graph,
                deadline,
            }),
        }
    }
}
