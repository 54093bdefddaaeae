ghost use Rattle.std.specs.Prelude.{◌≡◌};
ghost use Rattle.planfile.specs.Causes.{cause_number};
ghost use Rattle.planfile.specs.Cutting.{cause_of};
ghost use Rattle.planfile.specs.Files.{fault};

use graph::Refusal;

// Why a file is refused, by number.
#[derive(Clone, Copy, PartialEq, Eq, Debug)]
pub enum Cause {
    // the file ends within a record's header or body
    CutShort = 1,
    UnknownKind = 2,
    // the body is too short or too long for its kind
    BodyLength = 3,
    // a kind below that of the record before, or again where it may not repeat
    OutOfOrder = 4,
    // a 65th step, or no place left for a block
    NoRoom = 6,
    // a value out of its range
    OutOfRange = 5,
    // an edge that does not rise, or a step of it that is missing
    NotRising = 7,
    EdgeTwice = 8,
    // no deadline, no step or no block
    Incomplete = 9,
    ImpliedEdge = 10,
}

impl Cause {
    // The number by which the cause is known.
    pub fn number(self) -> u8
        ensures { result ≡ cause_number self }
    {
        self as u8
    }

    // The cause at the byte at which the bad record begins.
    pub(crate) fn at(self, place: usize) -> Fault
        ensures { result ≡ fault self place }
    {
        Fault { cause: self, place }
    }
}

// What a draft refuses is refused in the file that it is read from.
impl From<Refusal> for Cause {
    ghost from_gives = { λ refusal cause. cause ≡ cause_of refusal };

    fn from(refusal: Refusal) -> Cause {
        match refusal {
            Refusal::OutOfRange => Cause::OutOfRange,
            Refusal::TooManySteps => Cause::NoRoom,
            Refusal::NotRising => Cause::NotRising,
            Refusal::EdgeTwice => Cause::EdgeTwice,
            Refusal::Incomplete => Cause::Incomplete,
            Refusal::ImpliedEdge(_) => Cause::ImpliedEdge,
        }
    }
}

// A cause and the byte of the file at which the bad record begins; with `Incomplete` the file's length.
#[derive(Clone, Copy, PartialEq, Eq, Debug)]
pub struct Fault {
    pub cause: Cause,
    pub place: usize,
}
