// The labels of a file's steps.
ghost use Rattle.std.specs.Prelude.{◌≡◌, Some, None, MatchOption};
ghost use Rattle.planfile.specs.Labels.{LabelLaw, label_of};
ghost use Rattle.planfile.specs.Rules.{printable};

use crate::finding::find;
use crate::kind::Kind;
use crate::reading::{NO_BLOCK, read};
use graph::Plan;

// How many blocks a file may have where its reader holds them itself.
pub const MOST_BLOCKS: usize = 64;

// A label stands behind its record's header and the step's time.
const LABEL_AT: usize = 6;

// The label of a step, as that part of the file's bytes, and the byte at which it begins.
pub fn label(file: &[u8], step: u8) -> Option<(usize, &[u8])>
    ensures label { MatchOption result (label_of file.now step ≡ None) (λ found. label_of file.now step ≡ Some (found.0, found.1.now)) }
    ensures law { LabelLaw file.now step }
{
    let mut plan = Plan::empty();
    let mut blocks = [NO_BLOCK; MOST_BLOCKS];
    read(file, &mut plan, &mut blocks).ok()?;
    let record = find(file, Kind::Step, usize::from(step))?;
    let [_, _, label @ ..] = record.body else {
        return None;
    };
    Some((record.place + LABEL_AT, label))
}

// Whether each byte of a label is a printed character and no blank.
pub(crate) fn is_printable(label: &[u8]) -> bool
    ensures { result ≡ printable label.now }
{
    label.iter().all(u8::is_ascii_graphic)
}
