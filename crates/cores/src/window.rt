ghost use Rattle.std.specs.Prelude.{◌≡◌};

// So many cores, from tick `from` until before tick `until`.
#[derive(Clone, Copy, PartialEq, Eq, Debug, Default)]
pub struct Window {
    pub cores: u8,
    pub from: u32,
    pub until: u32,
}

impl Window {
    ghost use Rattle.cores.specs.Windows.{within};

    // Whether a tick is one of the window's.
    pub fn contains(self, tick: u32) -> bool
        ensures { result ≡ within self tick }
    {
        (self.from..self.until).contains(&tick)
    }
}
