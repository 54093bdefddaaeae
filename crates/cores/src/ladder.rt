ghost use Rattle.std.specs.Prelude.{◌≡◌};
ghost use Rattle.cores.specs.Ladders.{ladder};
ghost use Rattle.cores.specs.Narrow.{ladder_narrow};

use crate::supply::{Supply, WIDEST};

// So many cores for so many ticks.
#[derive(Clone, Copy, PartialEq, Eq, Debug, Default)]
pub struct Block {
    pub cores: u8,
    pub ticks: u16,
}

// The caller's blocks, one after another from tick 0; after the last one no cores. Cores above 64 count as 64.
#[derive(Clone, Copy)]
pub struct Ladder<'a> {
    blocks: &'a [Block],
}

impl<'a> Ladder<'a> {
    pub fn new(blocks: &'a [Block]) -> Ladder<'a>
        ensures { result.blocks ≡ blocks.entry }
    {
        Ladder { blocks }
    }

    pub fn blocks(&self) -> &'a [Block]
        ensures { result.now ≡ self.now.blocks.now }
    {
        self.blocks
    }
}

impl<'a> Supply for Ladder<'a> {
    ghost width = { λ supply tick. ladder supply.blocks.now tick };

    ghost narrow = { λ supply tick. ladder_narrow supply.blocks.now tick };

    fn width_at(&self, tick: u32) -> u8 {
        let mut left = tick;
        for block in self.blocks {
            let ticks = u32::from(block.ticks);
            if left < ticks {
                return block.cores.min(WIDEST);
            }
            left -= ticks;
        }
        0
    }
}
