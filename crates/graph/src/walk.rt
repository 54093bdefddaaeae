ghost use Rattle.std.specs.Prelude.{◌≡◌, map, length, slice_index_or};
ghost use Rattle.fixed.specs.Values.{values};
ghost use Rattle.graph.specs.Graphs.{times_of, sets_of, time_of, before};
ghost use Rattle.graph.specs.Sets.{members};
ghost use Rattle.graph.specs.Walks.{join_all, Walked};

use crate::graph::{Graph, MOST_STEPS};
use crate::measure::Measure;
use crate::step_set::StepSet;

// The join of the values at some steps, absent where there is no step.
fn gathered<M: Measure>(
    measure: &M,
    values: &[M::Value; MOST_STEPS],
    steps: StepSet,
) -> Option<M::Value>
    ensures { result ≡ join_all (M.Measure.join measure.now) (map (λ step. slice_index_or values.now step (M.Measure.start measure.now)) (members steps)) }
{
    let mut sum = None;
    for step in steps {
        let value = values[usize::from(step)];
        sum = match sum {
            None => Some(value),
            Some(others) => Some(measure.join(others, value)),
        };
    }
    sum
}

impl Graph {
    // The value of a measure at each step; where there is no step, the start.
    pub(crate) fn walk<M: Measure>(&self, measure: &M) -> [M::Value; MOST_STEPS]
        ensures { Walked (M.Measure.start measure.now) (M.Measure.join measure.now) (M.Measure.carry measure.now) (time_of (times_of (values self.now.steps))) (before (sets_of (values self.now.steps))) (length (values self.now.steps)) result }
    {
        let mut values = [measure.start(); MOST_STEPS];
        // Each value is written to its place, since later ones are gathered from it.
        for (at, step) in self.steps.as_slice().iter().enumerate() {
            let arriving = gathered(measure, &values, step.predecessors).unwrap_or(measure.start());
            values[at] = measure.carry(arriving, at as u8, step.time);
        }
        values
    }
}
