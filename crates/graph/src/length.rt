ghost use Rattle.std.specs.Prelude.{max};
ghost use Rattle.std.proofs.Math.Nat.{max_comm};
ghost use Rattle.graph.specs.LengthLaws.{lengthened_spreads, max_groups};
ghost use Rattle.graph.specs.Measures.{lengthened};

use crate::measure::Measure;

// The greatest time of a path to each step.
#[derive(Clone, Copy)]
pub struct Length;

impl Measure for Length {
    type Value = u32;

    ghost start = { λ _. 0 };

    ghost join = { λ _. max };

    ghost carry = { λ _. lengthened };

    ghost commutes = { λ _ a b. max_comm a b };

    ghost groups = { λ _ a b c. max_groups a b c };

    ghost spreads = { λ _ a b step time. lengthened_spreads a b step time };

    fn start(&self) -> u32 {
        0
    }

    fn join(&self, a: u32, b: u32) -> u32 {
        a.max(b)
    }

    fn carry(&self, value: u32, _step: u8, time: u16) -> u32 {
        value.saturating_add(u32::from(time))
    }
}
