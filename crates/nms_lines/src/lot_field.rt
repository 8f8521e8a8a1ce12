//! Reading the fields of a round lot: `specs/Fields`.
ghost use Rattle.std.specs.Prelude.{◌≡◌};
ghost use Rattle.csv.specs.Records.{fields_of};
ghost use Rattle.nms_lines.specs.Fields.{average_in, lot_in};
ghost use Rattle.nms_lines.specs.Layout.{has_average};
ghost use Rattle.nms_lines.specs.Numbers.{lot_number};

use crate::field::{field, is_word};
use crate::line_fault::{LineFault, PlacedFault};
use crate::number::price_at;
use csv::ByteRecord;
use nms_units::{Lot, Price, parse_digits};

/// The average closing price of a round lot, if there are four fields. `BadState` if the third is not `AVG`, `BadPrice`
/// if the fourth is not a price.
pub(crate) fn average_in(row: &ByteRecord) -> Result<Option<Price>, PlacedFault>
    ensures { result ≡ average_in (fields_of row.now) }
{
    if !has_average(row) {
        return Ok(None);
    }
    if !is_word(field(row, 2), b"AVG") {
        return Err(PlacedFault::at(LineFault::BadState, 2));
    }
    Ok(Some(price_at(row, 3)?))
}

/// The round lot that an average closing price gives (17 CFR 242.600, "round lot"). Without an average it is the number in the
/// third field, or the fault `BadLot`.
pub(crate) fn lot_in(row: &ByteRecord, average: Option<Price>) -> Result<Lot, PlacedFault>
    ensures { result ≡ lot_in (fields_of row.now) average }
{
    match average {
        Some(price) => Ok(Lot::by_average(price)),
        None => lot_of(field(row, 2)).ok_or(PlacedFault::at(LineFault::BadLot, 2)),
    }
}

/// Whether a round lot is given by an average closing price.
fn has_average(row: &ByteRecord) -> bool
    ensures { result ≡ has_average (fields_of row.now) }
{
    row.len() == 4
}

/// The round lot that 1 to 4 digits write, from 1 to 1,000 shares.
fn lot_of(text: &[u8]) -> Option<Lot>
    ensures { result ≡ lot_number text.now }
{
    let number = parse_digits(text, 4)?;
    Lot::new(number as u16)
}
