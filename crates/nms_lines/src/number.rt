//! Reading the fields that are numbers: `specs/Fields`.
ghost use Rattle.std.specs.Prelude.{◌≡◌, ◌<◌, ◌≤◌, IfOk, IfSome};
ghost use Rattle.csv.specs.Records.{fields_of};
ghost use Rattle.nms_lines.specs.Fields.{desk_at, price_at, shares_at};
ghost use Rattle.nms_lines.specs.Numbers.{above_zero, shares_number};
ghost use Rattle.nms_units.specs.Price.{price_number};

use crate::field::field;
use crate::line_fault::{LineFault, PlacedFault};
use csv::ByteRecord;
use nms_units::{Price, Shares, parse_digits};

/// The price that a text gives, in 1/10,000 dollar. `None` if the text is not a price, or is zero.
pub fn price_of(text: &[u8]) -> Option<Price>
    ensures { result ≡ above_zero (price_number text.now) }
{
    Price::parse(text).ok()
}

/// The number of shares that a text gives. `None` if the text is not a number of shares, or is zero.
pub fn some_shares_of(text: &[u8]) -> Option<Shares>
    ensures shares { result ≡ above_zero (shares_number text.now) }
    ensures some { IfSome result (λ shares. 1 ≤ shares) }
{
    match Shares::parse(text) {
        Ok(shares) if shares.get() > 0 => Some(shares),
        _ => None,
    }
}

/// The price that an order, a trade-through test or a round lot needs, or `BadPrice`.
pub(crate) fn price_at(row: &ByteRecord, place: u8) -> Result<Price, PlacedFault>
    ensures { result ≡ price_at (fields_of row.now) place }
{
    price_of(field(row, place as usize)).ok_or(PlacedFault::at(LineFault::BadPrice, place))
}

/// The shares of an order, at least one, or `BadShares`.
pub(crate) fn shares_at(row: &ByteRecord, place: u8) -> Result<Shares, PlacedFault>
    ensures shares { result ≡ shares_at (fields_of row.now) place }
    ensures some { IfOk result (λ shares. 1 ≤ shares) }
{
    some_shares_of(field(row, place as usize)).ok_or(PlacedFault::at(LineFault::BadShares, place))
}

/// The desk that 1 or 2 digits name, if there is one with that number, or `BadDesk`.
pub(crate) fn desk_at(desks: u8, row: &ByteRecord, place: u8) -> Result<u8, PlacedFault>
    ensures desk { result ≡ desk_at desks (fields_of row.now) place }
    ensures there { IfOk result (λ desk. desk < desks) }
{
    match parse_digits(field(row, place as usize), 2) {
        Some(desk) if desk < u64::from(desks) => Ok(desk as u8),
        _ => Err(PlacedFault::at(LineFault::BadDesk, place)),
    }
}
