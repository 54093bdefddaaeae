ghost use Rattle.std.specs.Prelude.{◌≡◌, ℕ};
ghost use Rattle.firmware.specs.Cores.{granted, width_of, width_narrow};

use cores::{Block, HoldBack, Ladder, Late, Supply};
use planfile::Layers;

// The cores that a file grants: hold-back over late over the ladder of its blocks.
#[derive(Drop)]
pub struct FileCores<'a> {
    stack: HoldBack<Late<Ladder<'a>>>,
}

impl<'a> FileCores<'a> {
    // A layer that the file does not have changes nothing.
    pub fn new(blocks: &'a [Block], layers: Layers) -> FileCores<'a>
        ensures { (tick : ℕ) → width_of result tick ≡ granted blocks.now layers tick }
    {
        let late = u32::from(layers.late.unwrap_or_default());
        let window = layers.hold_back.unwrap_or_default();
        FileCores {
            stack: HoldBack::new(Late::new(Ladder::new(blocks), late), window),
        }
    }
}

impl<'a> Supply for FileCores<'a> {
    ghost width = { λ cores tick. width_of cores tick };

    ghost narrow = { λ cores tick. width_narrow cores tick };

    fn width_at(&self, tick: u32) -> u8 {
        self.stack.width_at(tick)
    }
}
