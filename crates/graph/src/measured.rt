// What is measured of a plan's steps and along its paths.
ghost use Rattle.std.specs.Prelude.{◌≡◌, ℕ, ◌≤◌, if◌then◌else◌, None, IsTrue, ◌↔◌, MatchOption, nat_lt, max};
ghost use Rattle.std.specs.List.{reduce};
ghost use Rattle.graph.specs.Asked.{steps_of, time_in, before_in, volume_of, length_of};
ghost use Rattle.graph.specs.Lengths.{Greatest, Longest};
ghost use Rattle.graph.specs.Measures.{length_at, ancestors_at};
ghost use Rattle.graph.specs.Paths.{Ancestor};
ghost use Rattle.graph.specs.Sets.{has};
ghost use Rattle.graph.specs.Walks.{Walked};

use crate::ancestors::Ancestors;
use crate::graph::MOST_STEPS;
use crate::length::Length;
use crate::measure::Measure;
use crate::plan::Plan;
use crate::step_set::StepSet;

// The greatest of some lengths.
fn greatest(lengths: &[u32]) -> Option<u32>
    ensures { result ≡ reduce max lengths.now }
{
    lengths.iter().copied().max()
}

impl Plan {
    // The worst-case time of all steps together.
    pub fn volume(&self) -> u32
        ensures { result ≡ volume_of self.now }
    {
        self.graph
            .steps
            .as_slice()
            .iter()
            .map(|step| u32::from(step.time))
            .sum()
    }

    // The value of a measure at each step; where there is no step, the start.
    pub fn walk<M: Measure>(&self, measure: &M) -> [M::Value; MOST_STEPS]
        ensures { Walked (M.Measure.start measure.now) (M.Measure.join measure.now) (M.Measure.carry measure.now) (time_in self.now) (before_in self.now) (steps_of self.now) result }
    {
        self.graph.walk(measure)
    }

    // The greatest time of a path that ends at a step, if the plan has the step. No path comes near the stop of the
    // measure: it has at most 64 steps of 20,000 ticks.
    pub fn length_at(&self, step: u8) -> Option<u32>
        ensures value { result ≡ (if nat_lt step (steps_of self.now) then length_at (time_in self.now) (before_in self.now) step else None) }
        ensures greatest { MatchOption result (steps_of self.now ≤ step) (λ most. Greatest (before_in self.now) (time_in self.now) step most × (most ≤ 1280000)) }
    {
        self.graph.get(step)?;
        Some(self.walk(&Length)[usize::from(step)])
    }

    // The greatest time of a path: 0 for the empty plan.
    pub fn length(&self) -> u32
        ensures value { result ≡ length_of self.now }
        ensures greatest { Longest (before_in self.now) (time_in self.now) (steps_of self.now) result }
    {
        greatest(&self.walk(&Length)[..usize::from(self.count())]).unwrap_or(0)
    }

    // The other steps on the paths that end at a step, if the plan has the step.
    pub fn ancestors(&self, step: u8) -> Option<StepSet>
        ensures value { result ≡ (if nat_lt step (steps_of self.now) then ancestors_at (time_in self.now) (before_in self.now) step else None) }
        ensures steps { MatchOption result (steps_of self.now ≤ step) (λ found. (n : ℕ) → (IsTrue (has found n) ↔ Ancestor (before_in self.now) n step)) }
    {
        self.graph.get(step)?;
        let mut steps = self.walk(&Ancestors)[usize::from(step)];
        steps.remove(step);
        Some(steps)
    }
}
