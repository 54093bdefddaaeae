ghost use Rattle.std.specs.Prelude.{◌≡◌, ℕ, ◌≤◌};

// The most cores that a job may use in a tick.
pub const WIDEST: u8 = 64;

// A core supply: one width, from 0 to 64 cores, for each tick.
pub trait Supply {
    // The width at each tick.
    ghost width: { Self → ℕ → ℕ };

    // The law of every supply, with its proof: no tick has more than 64 cores.
    ghost narrow: { (supply : Self) (tick : ℕ) → width supply tick ≤ 64 };

    fn width_at(&self, tick: u32) -> u8
        ensures { result ≡ width self.now tick };
}
