// One record of a file: a two-byte length of the body, a two-byte kind, the body. Numbers are little-endian.
ghost use Rattle.planfile.specs.Cutting.{Cut};

use crate::cause::{Cause, Fault};
use crate::kind::Kind;

#[derive(Clone, Copy)]
pub(crate) struct Record<'a> {
    // the byte of the file at which it begins
    pub(crate) place: usize,
    pub(crate) kind: Kind,
    pub(crate) body: &'a [u8],
}

// The record at the front of some bytes of a file, which begin at `place`, and the bytes after it.
pub(crate) fn cut(bytes: &[u8], place: usize) -> Result<(Record<'_>, &[u8]), Fault>
    ensures { Cut bytes.now place result }
{
    let [l0, l1, k0, k1, rest @ ..] = bytes else {
        return Err(Cause::CutShort.at(place));
    };
    let length = usize::from(u16::from_le_bytes([*l0, *l1]));
    let Some((body, after)) = rest.split_at_checked(length) else {
        return Err(Cause::CutShort.at(place));
    };
    let kind = Kind::try_from(u16::from_le_bytes([*k0, *k1])).map_err(|cause| cause.at(place))?;
    Ok((Record { place, kind, body }, after))
}
