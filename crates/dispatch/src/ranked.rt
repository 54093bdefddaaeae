ghost use Rattle.std.specs.Prelude.{◌≡◌, if◌then◌else◌, Some, None, nat_lt, refl};
ghost use Rattle.std.specs.List.{reduce};
ghost use Rattle.graph.specs.Sets.{members};
ghost use Rattle.dispatch.specs.Picks.{rank_of, better, highest, Highest, Picks};
ghost use Rattle.dispatch.specs.Right.{highest_inside, highest_empty};

use crate::policy::{NO_STEP, Policy};
use graph::{MOST_STEPS, StepSet};

// The greatest rank first, and the lower number on a tie. It has one state for ever.
#[derive(Clone, Copy, PartialEq, Eq, Debug)]
pub struct Ranked {
    ranks: [u8; MOST_STEPS],
}

impl Ranked {
    pub fn new(ranks: [u8; MOST_STEPS]) -> Ranked
        ensures { result.ranks ≡ ranks }
    {
        Ranked { ranks }
    }

    // The rank of a step: none from 64 on.
    pub fn rank(&self, step: u8) -> Option<u8>
        ensures { result ≡ (if nat_lt step 64 then Some (rank_of self.now.ranks step) else None) }
    {
        self.ranks.get(usize::from(step)).copied()
    }

    // The first of the steps that have the greatest rank.
    fn best(&self, ready: StepSet) -> Option<u8>
        ensures { result ≡ reduce (better self.now.ranks) (members ready) }
    {
        ready.into_iter().reduce(|best, step| if self.rank(step) > self.rank(best) {
            step
        } else {
            best
        })
    }
}

impl Policy for Ranked {
    ghost picked = { λ policy ready. highest policy.ranks ready };

    ghost moved = { λ policy ready. policy };

    ghost inside = { λ policy ready n within inside. highest_inside ready n within inside policy.ranks };

    ghost empty = { λ policy ready none. (highest_empty ready none policy.ranks, refl) };

    fn pick(&mut self, ready: StepSet) -> u8
        ensures step { result ≡ highest self.old.ranks ready }
        ensures state { self.new ≡ self.old }
        ensures meaning { Picks ready (Highest self.old.ranks ready) (λ _. self.old) self.old result self.new }
    {
        self.best(ready).unwrap_or(NO_STEP)
    }
}
