//! Reading a record: `specs/Lines`.
ghost use Rattle.std.specs.Prelude.{◌≡◌, IfOk, true};
ghost use Rattle.csv.specs.Records.{fields_of};
ghost use Rattle.nms_lines.specs.LineOf.{IsLineOf};
ghost use Rattle.nms_lines.specs.Lines.{kind_reading, placed_reading, reading};
ghost use Rattle.nms_lines.specs.Sources.{brings};

use crate::change_line::{lot_line, quote_line, state_line, withdraw_line};
use crate::desk_line::{best_line, sweep_line, tell_line, through_line};
use crate::kind::{is_count, kind_in};
use crate::line::{Kind, Line, Reading};
use crate::line_fault::{FaultPlace, LineFault, PlacedFault};
use csv::ByteRecord;
use nms_quote::Roster;

/// The line that a record gives, or its fault of the least number (the law `the_least_fault_is_read`). A record of a kind that
/// its source may not have is `UnknownKind`, even if the rest is wrong too.
///
/// It takes no memory. Each field of a record that quotes both sides in cents is read once.
pub fn read_line(row: &ByteRecord, roster: &Roster, from: Reading) -> Result<Line, LineFault>
    ensures line { result ≡ reading roster.now from (fields_of row.now) }
    ensures of { IfOk result (IsLineOf roster.now from) }
{
    match read_line_at(row, roster, from) {
        Ok(line) => Ok(line),
        Err(refused) => Err(refused.fault),
    }
}

/// The line that a record gives, or its fault of the least number with the place of the fault. The place is the first field
/// that has the fault, or the record as such.
pub fn read_line_at(row: &ByteRecord, roster: &Roster, from: Reading) -> Result<Line, PlacedFault>
    ensures line { result ≡ placed_reading roster.now from (fields_of row.now) }
    ensures of { IfOk result (IsLineOf roster.now from) }
{
    let Some(kind) = kind_in(row, from) else {
        return Err(PlacedFault::at(LineFault::UnknownKind, 0));
    };
    if !is_count(kind, row.len()) {
        return Err(PlacedFault {
            fault: LineFault::FieldCount,
            place: FaultPlace::Record,
        });
    }
    line_of_kind(row, roster, from, kind)
}

/// The line that the fields of a record give, if its source may have the kind.
fn line_of_kind(
    row: &ByteRecord,
    roster: &Roster,
    from: Reading,
    kind: Kind,
) -> Result<Line, PlacedFault>
    requires { brings from kind ≡ true }
    ensures line { result ≡ kind_reading roster.now from (fields_of row.now) kind }
    ensures of { IfOk result (IsLineOf roster.now from) }
{
    match kind {
        Kind::Quote => quote_line(row, roster, from),
        Kind::State => state_line(row, roster, from),
        Kind::Withdraw => withdraw_line(row, roster, from),
        Kind::Lot => lot_line(row, roster, from),
        Kind::TakeOne => Ok(Line::TakeOne),
        Kind::TakeAll => Ok(Line::TakeAll),
        Kind::Publish => Ok(Line::Publish),
        Kind::Tell => tell_line(row, from),
        Kind::Best => best_line(row, roster, from),
        Kind::Through => through_line(row, roster, from),
        Kind::Sweep => sweep_line(row, roster, from),
    }
}
