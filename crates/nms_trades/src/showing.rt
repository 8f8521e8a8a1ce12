//! Objects that are safe to show if the program's own texts in them are printable ASCII, which is tested.
ghost use Rattle.std.specs.Prelude.{◌≡◌, true};
ghost use Rattle.std.specs.List.{list_all};
ghost use Rattle.nms_show.specs.Plain.{is_plain_member};
ghost use Rattle.nms_show.specs.Safe.{IsSafe};
ghost use Rattle.nms_show.specs.Written.{Writes};

use nms_show::{Item, ShowFault, write_object};
use std::alloc::Global;
use std::io::Write;

/// Writes a JSON object with these members.
pub(crate) fn show_object<W: Write>(
    alloc: Global,
    answers: &mut W,
    members: &[(&str, Item<'_>)],
) -> Result<(), ShowFault>
    ensures { list_all is_plain_member members.now
        ≡ true → Writes IsSafe (W.contents answers.old) (W.contents answers.new) result }
{
    write_object(alloc, answers, members)
}
