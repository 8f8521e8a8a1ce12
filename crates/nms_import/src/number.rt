//! Reading prices and sizes: `specs/Mapping`.
ghost use Rattle.std.specs.Prelude.{◌≡◌, ◌<◌, ◌≤◌, ◌+◌, ◌^◌, length, true, IfSome, Some};
ghost use Rattle.std.specs.List.{list_all};
ghost use Rattle.nms_units.specs.Price.{price_number};
ghost use Rattle.nms_import.specs.Mapping.{has_more_zeros, is_lacking, is_zero, number_of, price_of, shares_of, shares_within, side_of, without_zeros};

use crate::cause::Cause;
use crate::meanings::{Meanings, PriceUnit};
use crate::time::point_in;
use crate::words::is_listed;
use nms_quote::{Side, SideQuote};
use nms_units::{MOST_SHARES, Price, Shares, UnitFault, parse_digits};

/// The quotation of a side; `None` if it has no shares. A size counts units of `unit` shares.
pub(crate) fn side_in(
    meanings: &Meanings,
    unit: u32,
    side: Side,
    price: &[u8],
    size: &[u8],
) -> Result<Option<SideQuote>, Cause>
    ensures { result ≡ side_of meanings.now unit side price.now size.now }
{
    let price = price_in(meanings, side, price)?;
    let shares = shares_in(unit, side, size)?;
    if shares.get() == 0 {
        return Ok(None);
    }
    match price {
        Some(price) => Ok(SideQuote::new(price, shares)),
        None => Err(Cause::HalfSide(side)),
    }
}

/// A price; `None` for an empty field, `nan`, a word for none, or zero.
fn price_in(meanings: &Meanings, side: Side, text: &[u8]) -> Result<Option<Price>, Cause>
    ensures { result ≡ price_of meanings.now side text.now }
{
    if is_lacking(text) || is_listed(&meanings.no_price, text) {
        return Ok(None);
    }
    match number_of(meanings.price_unit, text) {
        Some(0) => Ok(None),
        Some(number) => match Price::new(number) {
            Some(price) => Ok(Some(price)),
            None => Err(Cause::BadPrice(side)),
        },
        None => Err(Cause::BadPrice(side)),
    }
}

/// The price that a text gives in a unit, in 1/10,000 dollar. It may be zero.
fn number_of(unit: PriceUnit, text: &[u8]) -> Option<u64>
    ensures { result ≡ number_of unit text.now }
{
    match unit {
        PriceUnit::Dollars => dollars_in(text),
        PriceUnit::TenThousandths => parse_digits(text, 11),
        PriceUnit::Nanodollars => match parse_digits(text, 19) {
            Some(number) if number % 100_000 == 0 => Some(number / 100_000),
            Some(_) | None => None,
        },
    }
}

/// The dollars that a text gives, in 1/10,000 dollar. The text has at most 4 decimals, and zeros after them.
fn dollars_in(text: &[u8]) -> Option<u64>
    ensures { result ≡ price_number (without_zeros 4 text.now) }
{
    match Price::parse(without_zeros(4, text)) {
        Ok(price) => Some(price.get()),
        Err(UnitFault::ZeroPrice) => Some(0),
        Err(UnitFault::BadPrice | UnitFault::BadShares | UnitFault::BadMoney) => None,
    }
}

/// Whether a number is lacking: an empty field, or `nan`.
fn is_lacking(text: &[u8]) -> bool
    ensures { result ≡ is_lacking text.now }
{
    text.is_empty() || text == b"nan".as_slice() || text == b"NaN".as_slice()
}

/// A number without the zeros after its first n decimals. If n is 0, its point goes too.
pub fn without_zeros(decimals: usize, text: &[u8]) -> &[u8]
    ensures { result.now ≡ without_zeros decimals text.now }
{
    let Some(point) = point_in(text) else {
        return text;
    };
    if !has_more_zeros(decimals, text, point) {
        return text;
    }
    if decimals == 0 {
        &text[..point]
    } else {
        &text[..point + 1 + decimals]
    }
}

/// Whether a number has more than n decimals, of which all after the first n are zeros.
fn has_more_zeros(decimals: usize, text: &[u8], point: usize) -> bool
    requires { point < length text.now }
    ensures zeros { result ≡ has_more_zeros decimals text.now point }
    ensures long { result ≡ true → point + 1 + decimals < length text.now }
{
    decimals < text.len() - point - 1 && are_zeros(&text[point + 1 + decimals..])
}

/// Whether a text has only zeros.
fn are_zeros(text: &[u8]) -> bool
    ensures { result ≡ list_all is_zero text.now }
{
    text.iter().all(|c| *c == b'0')
}

/// The shares of a size, which counts units of `unit` shares; 0 for an empty field and `nan`.
fn shares_in(unit: u32, side: Side, text: &[u8]) -> Result<Shares, Cause>
    ensures { result ≡ shares_of unit side text.now }
{
    if is_lacking(text) {
        return shares_within(side, 0);
    }
    let Some(number) = parse_digits(without_zeros(0, text), 9) else {
        return Err(Cause::BadSize(side));
    };
    shares_within(side, number * u64::from(unit))
}

/// A number of shares, if it is at most the 999,999,999 that a side may have.
fn shares_within(side: Side, count: u64) -> Result<Shares, Cause>
    ensures { result ≡ shares_within side (Some count) }
{
    if count > u64::from(MOST_SHARES) {
        return Err(Cause::BadSize(side));
    }
    match Shares::new(count as u32) {
        Some(shares) => Ok(shares),
        None => Err(Cause::BadSize(side)),
    }
}
