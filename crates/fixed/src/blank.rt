ghost use Rattle.std.specs.Prelude.{◌≡◌};

// A type with one value for the places that nothing fills.
pub trait Blank: Copy {
    ghost blank: { Self };

    fn blank() -> Self
        ensures { result ≡ blank };
}

impl Blank for u8 {
    ghost blank = { 0 };

    fn blank() -> u8 {
        0
    }
}
