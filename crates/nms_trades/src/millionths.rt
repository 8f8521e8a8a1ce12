//! Reading prices of up to six decimals: `specs/FinePrice`.
ghost use Rattle.std.specs.Prelude.{◌≡◌, ◌<◌, ◌≤◌, ◌++◌, ◌∷◌, IfSome, OnOk, length};
ghost use Rattle.nms_lines.specs.Numbers.{above_zero};
ghost use Rattle.nms_units.specs.Digits.{point_in};
ghost use Rattle.nms_units.specs.Price.{digit_at};
ghost use Rattle.nms_trades.specs.FinePrice.{fine_decimals, fine_dollars, fine_number, fine_text};

use nms_lines::push_number;
use nms_units::parse_digits;
use std::alloc::AllocError;

/// The highest price in 1/1,000,000 dollar: 9,999,999.999999 dollars.
pub const MOST_MILLIONTHS: u64 = 9_999_999_999_999;

/// The price above zero that a text writes, in 1/1,000,000 dollar: 1 to 7 digits, and at most a point with 1 to 6 digits.
pub fn millionths_in(text: &[u8]) -> Option<u64>
    ensures price { result ≡ above_zero (fine_number text.now) }
    ensures high { IfSome result (λ n. n ≤ MOST_MILLIONTHS) }
{
    match number_in(text) {
        Some(0) | None => None,
        Some(number) => Some(number),
    }
}

/// The price that a text writes, in 1/1,000,000 dollar. It may be zero. The text has 1 to 7 digits, and at most a point with 1
/// to 6 digits.
fn number_in(text: &[u8]) -> Option<u64>
    ensures number { result ≡ fine_number text.now }
    ensures high { IfSome result (λ n. n ≤ MOST_MILLIONTHS) }
{
    match point_in(text) {
        None => dollars_in(text),
        Some(point) => {
            let whole = dollars_in(&text[..point])?;
            let behind = decimals_in(&text[point + 1..])?;
            Some(whole + behind)
        }
    }
}

/// The place of the first decimal point in a text, counted from 0.
fn point_in(text: &[u8]) -> Option<usize>
    ensures place { result ≡ point_in text.now }
    ensures within { IfSome result (λ point. point < length text.now) }
{
    text.iter().position(|c| *c == b'.')
}

/// The price that 1 to 7 digits give as dollars, in 1/1,000,000 dollar.
fn dollars_in(text: &[u8]) -> Option<u64>
    ensures number { result ≡ fine_dollars text.now }
    ensures high { IfSome result (λ n. n ≤ 9999999000000) }
{
    let number = parse_digits(text, 7)?;
    Some(number * 1_000_000)
}

/// The part of a price that 1 to 6 digits after the point give, in 1/1,000,000 dollar.
fn decimals_in(text: &[u8]) -> Option<u64>
    ensures number { result ≡ fine_decimals text.now }
    ensures high { IfSome result (λ n. n ≤ 999999) }
{
    let number = parse_digits(text, 6)?;
    Some(number * 10u64.pow(6 - text.len() as u32))
}

/// Appends a comma and a number of millionths of a dollar, with six decimals.
pub fn push_millionths(out: &mut Vec<u8>, number: u64) -> Result<(), AllocError>
    ensures { OnOk result (out.new.items ≡ out.old.items ++ 44 ∷ fine_text number) }
{
    push_number(out, number / 1_000_000)?;
    out.extend_from_slice(&[
        b'.',
        digit(number, 100_000),
        digit(number, 10_000),
        digit(number, 1000),
        digit(number, 100),
        digit(number, 10),
        digit(number, 1),
    ])
}

/// The decimal digit of a number for a unit, as an ASCII byte. The unit is a power of ten.
fn digit(number: u64, unit: u64) -> u8
    requires { 0 < unit }
    ensures { result ≡ digit_at unit number }
{
    b'0' + (number / unit % 10) as u8
}
