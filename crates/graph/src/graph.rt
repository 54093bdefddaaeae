ghost use Rattle.std.specs.Prelude.{◌≡◌, ◌<◌, ◌≤◌, [], ◌∷◌, ◌++◌, length, slice_set, slice_index_or, if◌then◌else◌, Some, None, nat_lt};
ghost use Rattle.fixed.specs.Values.{values};
ghost use Rattle.graph.specs.Graphs.{times_of, sets_of, no_step, set_before, Timed, Rising};
ghost use Rattle.graph.specs.Sets.{none, with_step};

use crate::step_set::StepSet;
use fixed::{Blank, FixedList};

// The most steps of a plan.
pub const MOST_STEPS: usize = 64;

// The longest time of a step, and the latest deadline, in ticks.
pub const LONGEST: u16 = 20_000;

// What a graph has of a step: its worst-case time and its predecessors.
#[derive(Clone, Copy, PartialEq, Eq, Debug)]
pub struct Step {
    pub time: u16,
    pub predecessors: StepSet,
}

impl Blank for Step {
    ghost blank = { no_step };

    fn blank() -> Step {
        Step {
            time: 0,
            predecessors: StepSet::new(),
        }
    }
}

// Steps by number, each with its worst-case time and its predecessors.
#[derive(Clone, Copy)]
pub(crate) struct Graph {
    pub(crate) steps: FixedList<Step, MOST_STEPS>,
    ghost few: { length (values steps) ≤ 64 },
    ghost timed: { Timed (length (values steps)) (times_of (values steps)) },
    ghost rising: { Rising (sets_of (values steps)) },
}

impl Graph {
    // No steps.
    pub(crate) fn empty() -> Graph
        ensures { values result.steps ≡ [] }
    {
        Graph {
            steps: FixedList::new(),
        }
    }

    pub(crate) fn count(&self) -> u8
        ensures { result ≡ length (values self.now.steps) }
    {
        self.steps.len() as u8
    }

    // A step by its number, if there is one.
    pub(crate) fn get(&self, step: u8) -> Option<Step>
        ensures { result ≡ (if nat_lt step (length (values self.now.steps)) then Some (slice_index_or (values self.now.steps) step no_step) else None) }
    {
        self.steps.as_slice().get(usize::from(step)).copied()
    }

    // The predecessors of a step: none where there is no step.
    pub(crate) fn predecessors(&self, step: u8) -> StepSet
        ensures { result ≡ set_before (sets_of (values self.now.steps)) step }
    {
        self.get(step).unwrap_or(Step::blank()).predecessors
    }

    // One step more, with this worst-case time.
    pub(crate) fn add_step(&mut self, time: u16)
        requires room { length (values self.old.steps) < 64 }
        requires range { (1 ≤ time) × (time ≤ 20000) }
        ensures times { times_of (values self.new.steps) ≡ times_of (values self.old.steps) ++ time ∷ [] }
        ensures predecessors { sets_of (values self.new.steps) ≡ sets_of (values self.old.steps) ++ none ∷ [] }
    {
        // There is room, as is required.
        let _ = self.steps.push(Step {
            time,
            predecessors: StepSet::new(),
        });
    }

    // One predecessor more of a step.
    pub(crate) fn add_edge(&mut self, from: u8, to: u8)
        requires rises { from < to }
        requires there { to < length (values self.old.steps) }
        ensures times { times_of (values self.new.steps) ≡ times_of (values self.old.steps) }
        ensures predecessors { sets_of (values self.new.steps) ≡ slice_set (sets_of (values self.old.steps)) to (with_step from (set_before (sets_of (values self.old.steps)) to)) }
    {
        let mut step = self.steps.as_slice()[usize::from(to)];
        step.predecessors.insert(from);
        self.steps.set(usize::from(to), step);
    }
}
