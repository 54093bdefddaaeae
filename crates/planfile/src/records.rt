ghost use Rattle.std.specs.Prelude.{◌≤◌, length};

use crate::cause::Fault;
use crate::record::{Record, cut};

// The records of a file one after another, up to the file's end or the first fault.
#[derive(Drop)]
pub(crate) struct Records<'a> {
    file: &'a [u8],
    rest: &'a [u8],
    ghost within: { length rest.now ≤ length file.now },
}

impl<'a> Records<'a> {
    ghost use Rattle.std.specs.Prelude.{◌≡◌};

    pub(crate) fn new(file: &'a [u8]) -> Records<'a>
        ensures file { result.file.now ≡ file.now }
        ensures rest { result.rest.now ≡ file.now }
    {
        Records { file, rest: file }
    }
}

impl<'a> Iterator for Records<'a> {
    ghost use Rattle.std.specs.Iterator.{at_most};
    ghost use Rattle.planfile.specs.Cutting.{NextRecord};

    type Item = Result<Record<'a>, Fault>;

    ghost next_gives = { NextRecord };

    ghost remaining = { λ records. at_most (length records.rest.now) };

    fn next(&mut self) -> Option<Result<Record<'a>, Fault>> {
        if self.rest.is_empty() {
            return None;
        }
        let place = self.file.len() - self.rest.len();
        match cut(self.rest, place) {
            Ok((record, after)) => {
                self.rest = after;
                Some(Ok(record))
            }
            Err(fault) => {
                self.rest = &[];
                Some(Err(fault))
            }
        }
    }
}
