// The marking test, for every supply and every number.
ghost use Rattle.std.specs.Prelude.{◌≡◌, MatchBool, nat_le};
ghost use Rattle.certificate.specs.Marking.{least_yield, LeastYield, Passes, Fails, least_ceiling, LeastCeiling};

use crate::levels::least_yields;
use cores::{Supply, WIDEST};

// A test of a job: the ticks in which it has to be done, from `first` up to the one before `deadline`, and
// the `length` of its longest path, the greatest sum of worst-case times along it.
#[derive(Clone, Copy, PartialEq, Eq, Debug)]
pub struct MarkingTest {
    pub first: u32,
    pub deadline: u32,
    pub length: u32,
}

impl MarkingTest {
    // The least that any marking of these ticks yields under the ceiling.
    pub fn least_yield<S: Supply>(&self, supply: &S, ceiling: u8) -> u64
        ensures value { result ≡ least_yield (S.Supply.width supply.now) self.now ceiling }
        ensures smallest { LeastYield (S.Supply.width supply.now) self.now ceiling result }
    {
        least_yields(supply, self)[usize::from(ceiling.min(WIDEST))]
    }

    // Whether every marking of these ticks yields at least the work under the ceiling.
    pub fn passes<S: Supply>(&self, supply: &S, ceiling: u8, work: u64) -> bool
        ensures value { result ≡ nat_le work (least_yield (S.Supply.width supply.now) self.now ceiling) }
        ensures verdict { MatchBool result (Passes (S.Supply.width supply.now) self.now ceiling work) (Fails (S.Supply.width supply.now) self.now ceiling work) }
    {
        self.least_yield(supply, ceiling) >= work
    }

    // The least ceiling from 1 to 64 under which the test passes.
    pub fn least_ceiling<S: Supply>(&self, supply: &S, work: u64) -> Option<u8>
        ensures value { result ≡ least_ceiling (S.Supply.width supply.now) self.now work }
        ensures smallest { LeastCeiling (S.Supply.width supply.now) self.now work result }
    {
        let yields = least_yields(supply, self);
        (1..WIDEST + 1).find(|&ceiling| yields[usize::from(ceiling)] >= work)
    }
}
