ghost use Rattle.std.specs.Prelude.{◌≡◌, ◌<◌, MatchOption, find, nat_lt};
ghost use Rattle.graph.specs.Sets.{members};
ghost use Rattle.dispatch.specs.Picks.{next_after, last_after, LeastAbove, NoneAbove, NextAfter, Picks};
ghost use Rattle.dispatch.specs.Right.{next_inside, next_empty, round_stays};

use crate::policy::{NO_STEP, Policy};
use graph::StepSet;

// The set's next number after the last pick, going back to the start.
#[derive(Clone, Copy, PartialEq, Eq, Debug)]
pub struct Round {
    last: u8,
}

impl Round {
    // As if the last pick were 63.
    pub fn new() -> Round
        ensures { result.last ≡ 63 }
    {
        Round { last: NO_STEP - 1 }
    }

    pub fn last(&self) -> u8
        ensures { result ≡ self.now.last }
    {
        self.last
    }
}

// The least step of the set above `last`.
fn first_above(ready: StepSet, last: u8) -> Option<u8>
    ensures { result ≡ find (λ step. nat_lt last step) (members ready) }
{
    ready.into_iter().find(|&step| step > last)
}

impl Policy for Round {
    ghost picked = { λ policy ready. next_after policy.last ready };

    ghost moved = { λ policy ready. record { last = last_after policy.last ready } };

    ghost inside = { λ policy ready n within inside. next_inside ready n within inside policy.last };

    ghost empty = { λ policy ready none. (next_empty ready none policy.last, round_stays ready none policy) };

    fn pick(&mut self, ready: StepSet) -> u8
        ensures step { result ≡ next_after self.old.last ready }
        ensures state { self.new ≡ record { last = last_after self.old.last ready } }
        ensures meaning { Picks ready (NextAfter self.old.last ready) (λ step. step) self.old.last result self.new.last }
    {
        match first_above(ready, self.last).or(ready.first()) {
            Some(step) => {
                *self = Round { last: step };
                step
            }
            None => NO_STEP,
        }
    }
}
