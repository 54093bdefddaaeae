ghost use Rattle.std.specs.Prelude.{◌≡◌};
ghost use Rattle.cores.specs.Narrow.{held_narrow};
ghost use Rattle.cores.specs.Widths.{held};

use crate::supply::Supply;
use crate::window::Window;

// The supply below, less the cores of a window in each of its ticks.
#[derive(Drop)]
pub struct HoldBack<S> {
    below: S,
    window: Window,
}

impl<S> HoldBack<S> {
    pub fn new(below: S, window: Window) -> HoldBack<S>
        ensures below { result.below ≡ below }
        ensures window { result.window ≡ window }
    {
        HoldBack { below, window }
    }

    pub fn below(&self) -> &S
        ensures { result.now ≡ self.now.below }
    {
        &self.below
    }

    pub fn window(&self) -> Window
        ensures { result ≡ self.now.window }
    {
        self.window
    }
}

impl<S: Supply> Supply for HoldBack<S> {
    ghost width = { λ layer tick. held (S.Supply.width layer.below) layer.window tick };

    ghost narrow = { λ layer tick. held_narrow (S.Supply.width layer.below) (S.Supply.narrow layer.below) layer.window tick };

    fn width_at(&self, tick: u32) -> u8 {
        let width = self.below.width_at(tick);
        if self.window.contains(tick) {
            width.saturating_sub(self.window.cores)
        } else {
            width
        }
    }
}
