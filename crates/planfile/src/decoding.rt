// From the bytes of a body to what its record says.
ghost use Rattle.planfile.specs.Cutting.{Decoded};
ghost use Rattle.planfile.specs.Kinds.{kind_number};

use crate::cause::Cause;
use crate::entry::Entry;
use crate::kind::Kind;
use cores::{Block, Window};

// What a body of a kind says. Its length is the kind's: a body of another length is refused, though the table of kinds has seen to it.
pub(crate) fn decode(kind: Kind, body: &[u8]) -> Result<Entry<'_>, Cause>
    ensures { Decoded (kind_number kind) body.now result }
{
    match (kind, body) {
        (Kind::Deadline, [t0, t1]) => Ok(Entry::Deadline(u16::from_le_bytes([*t0, *t1]))),
        (Kind::Step, [t0, t1, label @ ..]) => Ok(Entry::Step(
            u16::from_le_bytes([*t0, *t1]),
            label,
        )),
        (Kind::Edge, [from, to]) => Ok(Entry::Edge(*from, *to)),
        (Kind::Block, [cores, t0, t1]) => Ok(Entry::Block(Block {
            cores: *cores,
            ticks: u16::from_le_bytes([*t0, *t1]),
        })),
        (Kind::HoldBack, [cores, f0, f1, u0, u1]) => Ok(Entry::HoldBack(Window {
            cores: *cores,
            from: u32::from(u16::from_le_bytes([*f0, *f1])),
            until: u32::from(u16::from_le_bytes([*u0, *u1])),
        })),
        (Kind::Late, [t0, t1]) => Ok(Entry::Late(u16::from_le_bytes([*t0, *t1]))),
        _ => Err(Cause::BodyLength),
    }
}
