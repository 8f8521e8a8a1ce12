//! Reading participants named in one field: `specs/Named`.
ghost use Rattle.std.specs.Prelude.{◌≡◌, ◌<◌, IfOk, IfSome, length};
ghost use Rattle.csv.specs.Records.{fields_of};
ghost use Rattle.nms_lines.specs.Fields.{self_help_in};
ghost use Rattle.nms_lines.specs.Named.{AreBelow, named_at, named_in};

use crate::field::field;
use crate::line_fault::{LineFault, PlacedFault};
use csv::ByteRecord;
use nms_quote::{PartSet, Roster};

/// The participants that a text names: names of the roster joined by `+`, in any order; a repeated one counts once. `None` if
/// one of them is empty or not on the roster.
///
/// It takes no memory. In this text an order names the participants that have no protected quotation for it (17 CFR
/// 242.611(b)(1)).
pub fn read_names(text: &[u8], roster: &Roster) -> Option<PartSet>
    ensures set { result ≡ named_in roster.now text.now }
    ensures there { IfSome result (AreBelow (length roster.now.parts)) }
{
    let mut set = PartSet::none();
    for name in text.split(|byte| *byte == b'+') {
        let part = roster.find_part(name)?;
        set = set.with(part);
    }
    Some(set)
}

/// The participants that a record's last field names, if it is at that place. A shorter record names no participant.
pub(crate) fn named_at(row: &ByteRecord, place: usize, roster: &Roster) -> Option<PartSet>
    requires { place < 16 }
    ensures set { result ≡ named_at place roster.now (fields_of row.now) }
    ensures there { IfSome result (AreBelow (length roster.now.parts)) }
{
    if row.len() != place + 1 {
        return Some(PartSet::none());
    }
    read_names(field(row, place), roster)
}

/// The participants that an order's record names in its eighth field, if it has one, or `UnknownParticipant`.
pub(crate) fn self_help_in(row: &ByteRecord, roster: &Roster) -> Result<PartSet, PlacedFault>
    ensures set { result ≡ self_help_in roster.now (fields_of row.now) }
    ensures there { IfOk result (AreBelow (length roster.now.parts)) }
{
    named_at(row, 7, roster).ok_or(PlacedFault::at(LineFault::UnknownParticipant, 7))
}
