//! Reading prices of trades: `specs/TradeRow`.
ghost use Rattle.std.specs.Prelude.{◌≡◌, ◌<◌, ◌≤◌, IfSome, Some};
ghost use Rattle.nms_import_trades.specs.TradeRow.{in_range, millionths_of};

use nms_import::{PriceUnit, without_zeros};
use nms_trades::{MOST_MILLIONTHS, millionths_in};
use nms_units::parse_digits;

/// The price that a text gives in a unit, in 1/1,000,000 dollar. It is above zero.
pub(crate) fn millionths_of(unit: PriceUnit, text: &[u8]) -> Option<u64>
    ensures { result ≡ millionths_of unit text.now }
{
    match unit {
        PriceUnit::Dollars => millionths_in(without_zeros(6, text)),
        PriceUnit::TenThousandths => match parse_digits(text, 11) {
            Some(0) | None => None,
            Some(number) => Some(number * 100),
        },
        PriceUnit::Nanodollars => match parse_digits(text, 19) {
            Some(number) if number % 1000 == 0 => in_range(number / 1000),
            Some(_) | None => None,
        },
    }
}

/// A price in 1/1,000,000 dollar, if an execution may have it: above zero, and at most 9,999,999.999999 dollars.
fn in_range(number: u64) -> Option<u64>
    ensures { result ≡ in_range (Some number) }
{
    if number > MOST_MILLIONTHS || number == 0 {
        None
    } else {
        Some(number)
    }
}
