ghost use Rattle.std.specs.Prelude.{◌≡◌, ℕ};

// What can be worked out along the paths of a plan.
pub trait Measure {
    type Value: Copy;

    // The value that a path begins with.
    ghost start: { Self → Self.Value };

    // The join of two values.
    ghost join: { Self → Self.Value → Self.Value → Self.Value };

    // A value carried over a step, by its number and time.
    ghost carry: { Self → Self.Value → ℕ → ℕ → Self.Value };

    fn start(&self) -> Self::Value
        ensures { result ≡ start self.now };

    fn join(&self, a: Self::Value, b: Self::Value) -> Self::Value
        ensures { result ≡ join self.now a b };

    fn carry(&self, value: Self::Value, step: u8, time: u16) -> Self::Value
        ensures { result ≡ carry self.now value step time };

    // Joining does not depend on order or grouping.
    ghost commutes: { (measure : Self) (a b : Self.Value) → join measure a b ≡ join measure b a };

    ghost groups: { (measure : Self) (a b c : Self.Value) → join measure (join measure a b) c ≡ join measure a (join measure b c) };

    // Carrying a join is joining what was carried.
    ghost spreads: { (measure : Self) (a b : Self.Value) (step time : ℕ) → carry measure (join measure a b) step time ≡ join measure (carry measure a step time) (carry measure b step time) };
}
