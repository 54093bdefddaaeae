ghost use Rattle.std.specs.Prelude.{◌≡◌};
ghost use Rattle.cores.specs.Narrow.{capped_narrow};
ghost use Rattle.cores.specs.Widths.{capped};

use crate::supply::{Supply, WIDEST};

// The same width at every tick: `cores`, or 64 where that is more.
#[derive(Clone, Copy, PartialEq, Eq, Debug)]
pub struct Flat {
    cores: u8,
}

impl Flat {
    pub fn new(cores: u8) -> Flat
        ensures { result.cores ≡ cores }
    {
        Flat { cores }
    }

    pub fn cores(&self) -> u8
        ensures { result ≡ self.now.cores }
    {
        self.cores
    }
}

impl Supply for Flat {
    ghost width = { λ flat tick. capped flat.cores };

    ghost narrow = { λ flat tick. capped_narrow flat.cores };

    fn width_at(&self, _tick: u32) -> u8 {
        WIDEST.min(self.cores)
    }
}
