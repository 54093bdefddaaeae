// What can be asked of a plan.
ghost use Rattle.std.specs.Prelude.{◌≡◌, [], if◌then◌else◌, Some, None, ◌==◌, nat_lt};
ghost use Rattle.fixed.specs.Values.{values};
ghost use Rattle.graph.specs.Asked.{steps_of, deadline_of, time_in};
ghost use Rattle.graph.specs.Graphs.{sets_of, set_before};

use crate::graph::Graph;
use crate::plan::Plan;
use crate::step_set::StepSet;

impl Plan {
    // The empty plan: no steps and no deadline.
    pub fn empty() -> Plan
        ensures count { steps_of result ≡ 0 }
        ensures deadline { deadline_of result ≡ 0 }
        ensures steps { values result.graph.steps ≡ [] }
    {
        Plan {
            graph: Graph::empty(),
            deadline: 0,
        }
    }

    pub fn is_empty(&self) -> bool
        ensures { result ≡ (steps_of self.now == 0) }
    {
        self.count() == 0
    }

    pub fn count(&self) -> u8
        ensures { result ≡ steps_of self.now }
    {
        self.graph.count()
    }

    // The deadline: 0 for the empty plan, as the project's rules say.
    pub fn deadline(&self) -> u16
        ensures { result ≡ deadline_of self.now }
    {
        self.deadline
    }

    // The worst-case time of a step, if the plan has it.
    pub fn time(&self, step: u8) -> Option<u16>
        ensures { result ≡ (if nat_lt step (steps_of self.now) then Some (time_in self.now step) else None) }
    {
        self.graph.get(step).map(|step| step.time)
    }

    // The predecessors of a step, if the plan has it.
    pub fn predecessors(&self, step: u8) -> Option<StepSet>
        ensures { result ≡ (if nat_lt step (steps_of self.now) then Some (set_before (sets_of (values self.now.graph.steps)) step) else None) }
    {
        self.graph.get(step).map(|step| step.predecessors)
    }
}
