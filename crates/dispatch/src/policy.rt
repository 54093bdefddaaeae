ghost use Rattle.std.specs.Prelude.{◌≡◌, ℕ, ◌<◌, true, false};
ghost use Rattle.graph.specs.Sets.{has};
ghost use Rattle.graph.specs.declared.step_set.StepSet.{StepSet};

use graph::{MOST_STEPS, StepSet};

// What a pick of the empty set answers: the number after the last step's, since the project's rule is that 64 is answered and not an `Option`.
pub const NO_STEP: u8 = MOST_STEPS as u8;

// A dispatch policy: for its present state and any set of steps that is not empty, one step of the set and a next state.
pub trait Policy {
    // The step picked.
    ghost picked: { Self → StepSet → ℕ };

    // The state after the pick.
    ghost moved: { Self → StepSet → Self };

    fn pick(&mut self, ready: StepSet) -> u8
        ensures step { result ≡ picked self.old ready }
        ensures state { self.new ≡ moved self.old ready };

    // Of a set with a step, a step of the set is picked.
    ghost inside: { (policy : Self) (ready : StepSet) (n : ℕ) → n < 64 → has ready n ≡ true → (has ready (picked policy ready) ≡ true) × (picked policy ready < 64) };

    // Of a set with no step, 64 is answered, and the state stays.
    ghost empty: { (policy : Self) (ready : StepSet) → ((n : ℕ) → n < 64 → has ready n ≡ false) → (picked policy ready ≡ 64) × (moved policy ready ≡ policy) };
}
