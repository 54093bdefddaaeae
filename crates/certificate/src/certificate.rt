// Whether a plan is certified on a supply.
ghost use Rattle.std.specs.Prelude.{◌≡◌, MatchBool};
ghost use Rattle.graph.specs.Asked.{deadline_of, volume_of, length_of};
ghost use Rattle.certificate.specs.Refusals.{number_of, refusal_of};
ghost use Rattle.certificate.specs.Certified.{whole_test, Certified, Uncertified};
ghost use Rattle.certificate.specs.Marking.{least_yield, LeastYield};

use crate::marking_test::MarkingTest;
use cores::{Supply, WIDEST};
use graph::Plan;

// What the marking test says of a plan on a supply.
#[derive(Clone, Copy, PartialEq, Eq, Debug)]
pub struct Certificate {
    pub volume: u32,
    pub length: u32,
    pub deadline: u16,
    pub least: u64,
    pub certified: bool,
}

// The plan is not certified.
#[derive(Clone, Copy, PartialEq, Eq, Debug)]
pub struct NotCertified;

impl NotCertified {
    // The number of this refusal.
    pub fn number(self) -> u8
        ensures { result ≡ number_of self }
    {
        11
    }
}

impl Certificate {
    // The refusal, where the plan is not certified.
    pub fn refusal(&self) -> Option<NotCertified>
        ensures { result ≡ refusal_of self.now.certified }
    {
        (!self.certified).then_some(NotCertified)
    }
}

// Tests the plan under the widest ceiling, from tick 0 to its deadline.
pub fn certify<S: Supply>(plan: &Plan, supply: &S) -> Certificate
    ensures volume { result.volume ≡ volume_of plan.now }
    ensures length { result.length ≡ length_of plan.now }
    ensures deadline { result.deadline ≡ deadline_of plan.now }
    ensures smallest { LeastYield (S.Supply.width supply.now) (whole_test plan.now) 64 result.least }
    ensures least { result.least ≡ least_yield (S.Supply.width supply.now) (whole_test plan.now) 64 }
    ensures certified { MatchBool result.certified (Certified (S.Supply.width supply.now) plan.now) (Uncertified (S.Supply.width supply.now) plan.now) }
{
    let volume = plan.volume();
    let test = MarkingTest {
        first: 0,
        deadline: u32::from(plan.deadline()),
        length: plan.length(),
    };
    let least = test.least_yield(supply, WIDEST);
    Certificate {
        volume,
        length: test.length,
        deadline: plan.deadline(),
        least,
        certified: !plan.is_empty() && least >= u64::from(volume),
    }
}
