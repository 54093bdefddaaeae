ghost use Rattle.std.specs.Prelude.{◌≡◌};
ghost use Rattle.graph.specs.Refusals.{number_of, place_of};

// Why a draft refuses.
#[derive(Clone, Copy, PartialEq, Eq, Debug)]
pub enum Refusal {
    // a deadline or a time that is not from 1 to 20,000
    OutOfRange,
    // a 65th step
    TooManySteps,
    // an edge that does not rise, or a step of it that is missing
    NotRising,
    EdgeTwice,
    // no deadline or no step
    Incomplete,
    // by its place in the order of adding, from 0
    ImpliedEdge(u16),
}

impl Refusal {
    // The number by which the refusal is known; by cases, since one of them holds a value and so has no discriminant.
    pub fn number(self) -> u8
        ensures { result ≡ number_of self }
    {
        match self {
            Refusal::OutOfRange => 5,
            Refusal::TooManySteps => 6,
            Refusal::NotRising => 7,
            Refusal::EdgeTwice => 8,
            Refusal::Incomplete => 9,
            Refusal::ImpliedEdge(_) => 10,
        }
    }

    // What goes with the number: the place of an implied edge.
    pub fn place(self) -> Option<u16>
        ensures { result ≡ place_of self }
    {
        match self {
            Refusal::ImpliedEdge(place) => Some(place),
            _ => None,
        }
    }
}
