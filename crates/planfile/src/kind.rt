ghost use Rattle.std.specs.Prelude.{◌≡◌};
ghost use Rattle.planfile.specs.Kinds.{kind_number, Numbered};
ghost use Rattle.planfile.specs.Rules.{rule_of};

use crate::cause::Cause;

// What a record is about, by the number in its header. A file has its kinds in this order.
#[derive(Clone, Copy, Debug, PartialEq, Eq, PartialOrd, Ord)]
pub(crate) enum Kind {
    Deadline = 1,
    Step,
    Edge,
    Block,
    HoldBack,
    Late,
}

// What a kind asks of its records: the bytes of the body, and whether another may follow.
#[derive(Clone, Copy)]
pub(crate) struct KindRule {
    pub(crate) shortest: usize,
    pub(crate) longest: usize,
    pub(crate) repeats: bool,
}

// By kind, from 1: deadline, step, edge, block, hold-back, late.
const KIND_RULES: [KindRule; 6] = [
    KindRule {
        shortest: 2,
        longest: 2,
        repeats: false,
    },
    KindRule {
        shortest: 2,
        longest: 18,
        repeats: true,
    },
    KindRule {
        shortest: 2,
        longest: 2,
        repeats: true,
    },
    KindRule {
        shortest: 3,
        longest: 3,
        repeats: true,
    },
    KindRule {
        shortest: 5,
        longest: 5,
        repeats: false,
    },
    KindRule {
        shortest: 2,
        longest: 2,
        repeats: false,
    },
];

impl TryFrom<u16> for Kind {
    type Error = Cause;

    ghost try_from_gives = { Numbered };

    fn try_from(number: u16) -> Result<Kind, Cause> {
        match number {
            1 => Ok(Kind::Deadline),
            2 => Ok(Kind::Step),
            3 => Ok(Kind::Edge),
            4 => Ok(Kind::Block),
            5 => Ok(Kind::HoldBack),
            6 => Ok(Kind::Late),
            _ => Err(Cause::UnknownKind),
        }
    }
}

impl Kind {
    pub(crate) fn rule(self) -> KindRule
        ensures { result ≡ rule_of (kind_number self) }
    {
        KIND_RULES[self as usize - 1]
    }
}
