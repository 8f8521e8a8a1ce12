//! Reading the fields that are names of the roster: `specs/Fields`.
ghost use Rattle.std.specs.Prelude.{◌≡◌, ◌<◌, length, IfOk};
ghost use Rattle.csv.specs.Records.{fields_of};
ghost use Rattle.nms_lines.specs.Fields.{part_at, symbol_at};

use crate::field::field;
use crate::line_fault::{LineFault, PlacedFault};
use csv::ByteRecord;
use nms_quote::{Part, Roster, Sym};

/// The participant that a field names, or `UnknownParticipant`.
pub(crate) fn part_at(roster: &Roster, row: &ByteRecord, place: u8) -> Result<Part, PlacedFault>
    ensures part { result ≡ part_at roster.now (fields_of row.now) place }
    ensures there { IfOk result (λ part. part < length roster.now.parts) }
{
    let part = roster.find_part(field(row, place as usize));
    part.ok_or(PlacedFault::at(LineFault::UnknownParticipant, place))
}

/// The symbol that a field names, or `UnknownSymbol`.
pub(crate) fn symbol_at(roster: &Roster, row: &ByteRecord, place: u8) -> Result<Sym, PlacedFault>
    ensures symbol { result ≡ symbol_at roster.now (fields_of row.now) place }
    ensures there { IfOk result (λ sym. sym < length roster.now.syms) }
{
    let sym = roster.find_sym(field(row, place as usize));
    sym.ok_or(PlacedFault::at(LineFault::UnknownSymbol, place))
}
