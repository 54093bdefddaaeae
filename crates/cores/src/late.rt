ghost use Rattle.std.specs.Prelude.{◌≡◌};
ghost use Rattle.cores.specs.Narrow.{delayed_narrow};
ghost use Rattle.cores.specs.Widths.{delayed};

use crate::supply::Supply;

// The supply below, begun `by` ticks into it; no cores once its tick numbers run out.
#[derive(Drop)]
pub struct Late<S> {
    below: S,
    by: u32,
}

impl<S> Late<S> {
    pub fn new(below: S, by: u32) -> Late<S>
        ensures below { result.below ≡ below }
        ensures by { result.by ≡ by }
    {
        Late { below, by }
    }

    pub fn below(&self) -> &S
        ensures { result.now ≡ self.now.below }
    {
        &self.below
    }

    pub fn by(&self) -> u32
        ensures { result ≡ self.now.by }
    {
        self.by
    }
}

impl<S: Supply> Supply for Late<S> {
    ghost width = { λ layer tick. delayed (S.Supply.width layer.below) layer.by tick };

    ghost narrow = { λ layer tick. delayed_narrow (S.Supply.width layer.below) (S.Supply.narrow layer.below) layer.by tick };

    fn width_at(&self, tick: u32) -> u8 {
        match tick.checked_add(self.by) {
            Some(later) => self.below.width_at(later),
            None => 0,
        }
    }
}
