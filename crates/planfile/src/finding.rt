// Finding a record again.
ghost use Rattle.std.specs.Prelude.{◌≡◌, List};
ghost use Rattle.std.specs.List.{slice_get};
ghost use Rattle.planfile.specs.Cutting.{Found, Within};
ghost use Rattle.planfile.specs.Files.{of_kind};
ghost use Rattle.planfile.specs.Kinds.{kind_number};
ghost use Rattle.planfile.specs.Records.{Entry, file_of};

use crate::kind::Kind;
use crate::record::Record;
use crate::records::Records;

// The record of a kind that has so many of its kind before it.
pub(crate) fn find(file: &[u8], kind: Kind, before: usize) -> Option<Record<'_>>
    ensures found { (entries : List Entry) → file.now ≡ file_of entries → Found (slice_get (of_kind (kind_number kind) entries) before) result }
    ensures within { Within file.now result }
{
    Records::new(file)
        .map_while(Result::ok)
        .filter(|record| record.kind == kind)
        .nth(before)
}
