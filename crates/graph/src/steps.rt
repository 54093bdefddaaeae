// The steps of a set, one after the other.
ghost use Rattle.std.specs.Prelude.{◌≡◌};
ghost use Rattle.std.specs.Iterator.{YieldsFirst, item_count};
ghost use Rattle.graph.specs.Sets.{members, steps_left};

use crate::step_set::StepSet;

// Gives the steps of a set in rising order.
#[derive(Clone, Drop, Debug)]
pub struct Steps {
    rest: StepSet,
}

impl Iterator for Steps {
    type Item = u8;

    ghost next_gives = { YieldsFirst steps_left };

    ghost remaining = { item_count steps_left };

    fn next(&mut self) -> Option<u8> {
        let step = self.rest.first()?;
        self.rest.remove(step);
        Some(step)
    }
}

impl IntoIterator for StepSet {
    type Item = u8;

    type IntoIter = Steps;

    ghost into_iter_gives = { λ set steps. steps_left steps ≡ members set };

    fn into_iter(self) -> Steps {
        Steps { rest: self }
    }
}
