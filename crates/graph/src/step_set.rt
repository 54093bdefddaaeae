// A set of step numbers below 64.
ghost use Rattle.std.specs.Prelude.{◌≡◌, ℕ, ◌^◌, ◌<◌, ◌≤◌, ◌↔◌, true, false, not, ◌&&◌, ◌||◌, length, if◌then◌else◌, IsTrue, MatchOption, ◌==◌, nat_lt};
ghost use Rattle.graph.specs.Paths.{Among, Distinct};
ghost use Rattle.graph.specs.Sets.{has, none, with_step, without_step, both, members, Least};

use crate::graph::MOST_STEPS;

// A bit for each step.
#[derive(Clone, Copy, PartialEq, Eq, Debug)]
pub struct StepSet {
    bits: u64,
}

// As many steps as the number has bits.
const STEPS: u8 = MOST_STEPS as u8;

// The bit of a step: none from 64 on, so that such a number is never in a set.
fn bit(step: u8) -> u64
    ensures { result ≡ (if nat_lt step 64 then 2 ^ step else 0) }
{
    if step < STEPS { 1 << step } else { 0 }
}

impl StepSet {
    pub fn new() -> StepSet
        ensures value { result ≡ none }
        ensures empty { (n : ℕ) → has result n ≡ false }
    {
        StepSet { bits: 0 }
    }

    pub fn contains(self, step: u8) -> bool
        ensures value { result ≡ has self step }
        ensures none { 64 ≤ step → result ≡ false }
    {
        self.bits & bit(step) != 0
    }

    pub fn insert(&mut self, step: u8)
        ensures value { self.new ≡ with_step step self.old }
        ensures steps { (n : ℕ) → has self.new n ≡ (has self.old n || (n == step && nat_lt step 64)) }
    {
        self.bits |= bit(step);
    }

    pub fn remove(&mut self, step: u8)
        ensures value { self.new ≡ without_step step self.old }
        ensures steps { (n : ℕ) → has self.new n ≡ (has self.old n && not (n == step)) }
    {
        self.bits &= !bit(step);
    }

    pub fn union(self, other: StepSet) -> StepSet
        ensures value { result ≡ both self other }
        ensures steps { (n : ℕ) → has result n ≡ (has self n || has other n) }
    {
        StepSet {
            bits: self.bits | other.bits,
        }
    }

    // The least step of the set.
    pub fn first(self) -> Option<u8>
        ensures { MatchOption result ((n : ℕ) → has self n ≡ false) (λ step. Least self step × (step < 64)) }
    {
        if self.is_empty() {
            None
        } else {
            Some(self.bits.trailing_zeros() as u8)
        }
    }

    pub fn len(self) -> u8
        ensures value { result ≡ length (members self) }
        ensures once { Distinct (members self) }
        ensures all { (n : ℕ) → (IsTrue (has self n) ↔ Among n (members self)) }
    {
        self.bits.count_ones() as u8
    }

    pub fn is_empty(self) -> bool
        ensures value { result ≡ (length (members self) == 0) }
        ensures empty { IsTrue result ↔ ((n : ℕ) → has self n ≡ false) }
    {
        self.bits == 0
    }
}

// The numbers of an array that are below 64.
impl<const N: usize> From<[u8; N]> for StepSet {
    ghost from_gives = { λ numbers set. (n : ℕ) → (IsTrue (has set n) ↔ ((n < 64) × Among n numbers)) };

    fn from(numbers: [u8; N]) -> StepSet {
        let mut set = StepSet::new();
        for number in numbers {
            set.insert(number);
        }
        set
    }
}
