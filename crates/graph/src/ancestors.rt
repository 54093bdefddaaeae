ghost use Rattle.graph.specs.Measures.{visited};
ghost use Rattle.graph.specs.Sets.{none, both};
ghost use Rattle.graph.specs.SetLaws.{both_comm, both_assoc, with_both};

use crate::measure::Measure;
use crate::step_set::StepSet;

// The steps on the paths to each step, with that step itself.
#[derive(Clone, Copy)]
pub struct Ancestors;

impl Measure for Ancestors {
    type Value = StepSet;

    ghost start = { λ _. none };

    ghost join = { λ _. both };

    ghost carry = { λ _. visited };

    ghost commutes = { λ measure a b. both_comm a b };

    ghost groups = { λ measure a b c. both_assoc a b c };

    ghost spreads = { λ measure a b step time. with_both step a b };

    fn start(&self) -> StepSet {
        StepSet::new()
    }

    fn join(&self, a: StepSet, b: StepSet) -> StepSet {
        a.union(b)
    }

    fn carry(&self, value: StepSet, step: u8, _time: u16) -> StepSet {
        let mut steps = value;
        steps.insert(step);
        steps
    }
}
