//! Reading the fields that are one letter: `specs/Fields`.
ghost use Rattle.std.specs.Prelude.{◌≡◌};
ghost use Rattle.csv.specs.Records.{fields_of};
ghost use Rattle.nms_lines.specs.Fields.{flag_in, flag_named, flag_of, side_at, side_named, state_at, state_named};

use crate::field::field;
use crate::line_fault::{LineFault, PlacedFault};
use csv::ByteRecord;
use nms_quote::{OrderSide, QState};

/// The state of a quotation that a field names, or `BadState`.
pub(crate) fn state_at(row: &ByteRecord, place: u8) -> Result<QState, PlacedFault>
    ensures { result ≡ state_at (fields_of row.now) place }
{
    state_named(field(row, place as usize)).ok_or(PlacedFault::at(LineFault::BadState, place))
}

fn state_named(text: &[u8]) -> Option<QState>
    ensures { result ≡ state_named text.now }
{
    match text {
        b"A" => Some(QState::Automated),
        b"M" => Some(QState::Manual),
        b"H" => Some(QState::Halted),
        _ => None,
    }
}

/// The side of an order that a field names, or `BadState`.
pub(crate) fn side_at(row: &ByteRecord, place: u8) -> Result<OrderSide, PlacedFault>
    ensures { result ≡ side_at (fields_of row.now) place }
{
    side_of(field(row, place as usize)).ok_or(PlacedFault::at(LineFault::BadState, place))
}

/// The side of an order that a letter names: `B` or `S`.
pub fn side_of(text: &[u8]) -> Option<OrderSide>
    ensures { result ≡ side_named text.now }
{
    match text {
        b"B" => Some(OrderSide::Buy),
        b"S" => Some(OrderSide::Sell),
        _ => None,
    }
}

/// Whether an order's record has the flag that allows manual quotations; `BadState` if its seventh field is something else. If
/// the flag is the last field, it is not empty.
pub(crate) fn flag_in(row: &ByteRecord) -> Result<bool, PlacedFault>
    ensures { result ≡ flag_in (fields_of row.now) }
{
    flag_of(row).ok_or(PlacedFault::at(LineFault::BadState, 6))
}

fn flag_of(row: &ByteRecord) -> Option<bool>
    ensures { result ≡ flag_of (fields_of row.now) }
{
    let flag = field(row, 6);
    if row.len() != 7 {
        return flag_named(flag);
    }
    match flag {
        b"M" => Some(true),
        _ => None,
    }
}

/// Whether a flag lets an order trade with manual quotations: `M` does, and an empty flag does not. `None` for any other flag.
pub(crate) fn flag_named(text: &[u8]) -> Option<bool>
    ensures { result ≡ flag_named text.now }
{
    match text {
        b"M" => Some(true),
        b"" => Some(false),
        _ => None,
    }
}
