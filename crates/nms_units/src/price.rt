//! Prices in 1/10,000 dollar: `specs/Price`.
ghost use Rattle.std.specs.Prelude.{◌≡◌, ℕ, ◌-◌, ◌^◌, ◌<◌, ◌≤◌, Some, IfSome, OnSome, length};
ghost use Rattle.std.specs.Option.{SomeIff};
ghost use Rattle.nms_units.specs.Price.{dollars, decimals, price_number, price_reading, price_text};

use crate::MOST_PRICE;
use crate::digits::{parse_digits, point_in};
use crate::unit_fault::UnitFault;
use std::fmt;
use std::marker::Model;

/// A price in 1/10,000 dollar, 1 to `MOST_PRICE` (0.0001 to 9,999,999.9999 dollars).
///
/// The minimum increments of 17 CFR 242.612 are left out: any price in range is one (this product's own
/// rule).
#[derive(Clone, Copy, Debug, PartialEq, Eq, PartialOrd, Ord)]
pub struct Price {
    ten_thousandths: u64,
}

impl Model for Price {
    ghost use Rattle.std.specs.Prelude.{ℕ, ◌≤◌};
    ghost use Rattle.nms_units.specs.declared.TheConstants.{MOST_PRICE};

    ghost Value = { ℕ };

    ghost view = { λ p. p.ten_thousandths };

    ghost invariant = { λ p. (1 ≤ p.ten_thousandths) × (p.ten_thousandths ≤ MOST_PRICE) };

    ghost inverse = { λ n. record { ten_thousandths = n } };
}

impl Price {
    /// The price of a number of 1/10,000 dollar; `None` if it is 0 or above `MOST_PRICE`.
    pub fn new(ten_thousandths: u64) -> Option<Self>
        ensures { SomeIff result ((1 ≤ ten_thousandths) × (ten_thousandths ≤ MOST_PRICE)) ten_thousandths }
    {
        if 1 <= ten_thousandths && ten_thousandths <= MOST_PRICE {
            Some(Price { ten_thousandths })
        } else {
            None
        }
    }

    /// The number of 1/10,000 dollar, 1 to `MOST_PRICE`.
    pub fn get(self) -> u64
        ensures number { result ≡ self }
        ensures low { 1 ≤ result }
        ensures high { result ≤ MOST_PRICE }
    {
        self.ten_thousandths
    }

    /// Reads 1 to 7 digits, and at most a point with 1 to 4 digits after it, as dollars.
    ///
    /// Leading zeros are accepted. Any other text is `BadPrice`. A zero price is `ZeroPrice`.
    pub fn parse(text: &[u8]) -> Result<Self, UnitFault>
        ensures { result ≡ price_reading text.now }
    {
        let number = ten_thousandths_in(text).ok_or(UnitFault::BadPrice)?;
        Price::new(number).ok_or(UnitFault::ZeroPrice)
    }

    /// A law: a price, as `Display` prints it, is read by `parse` as the same price.
    pub fn reads_what_it_prints()
        ensures { (price : ℕ) → 1 ≤ price → price ≤ MOST_PRICE → price_reading (price_text price) ≡ Ok price }
    {}
}

/// The number of 1/10,000 dollar that a text in a price's form gives; it may be zero. Most prices are in cents.
fn ten_thousandths_in(text: &[u8]) -> Option<u64>
    ensures number { result ≡ price_number text.now }
    ensures high { IfSome result (λ n. n ≤ MOST_PRICE) }
{
    match cents_in(text) {
        Some(number) => Some(number),
        None => any_decimals_in(text),
    }
}

/// The number of 1/10,000 dollar that digits, a point and two digits give.
fn cents_in(text: &[u8]) -> Option<u64>
    ensures number { OnSome result (result ≡ price_number text.now) }
    ensures high { IfSome result (λ n. n ≤ MOST_PRICE) }
{
    match text {
        [whole @ .., b'.', tens, ones] if tens.is_ascii_digit() && ones.is_ascii_digit() => {
            let whole = dollars_in(whole)?;
            let cents = u64::from(*tens - b'0') * 10 + u64::from(*ones - b'0');
            Some(whole + cents * 100)
        }
        _ => None,
    }
}

/// The number of 1/10,000 dollar that a text in a price's form gives, with any number of decimals that the form allows.
#[cold]
#[inline(never)]
fn any_decimals_in(text: &[u8]) -> Option<u64>
    ensures number { result ≡ price_number text.now }
    ensures high { IfSome result (λ n. n ≤ MOST_PRICE) }
{
    match point_in(text) {
        None => dollars_in(text),
        Some(point) => {
            let whole = dollars_in(&text[..point])?;
            let behind = decimals_in(&text[point + 1..])?;
            Some(whole + behind)
        }
    }
}

/// The number of 1/10,000 dollar that 1 to 7 digits give as dollars.
fn dollars_in(text: &[u8]) -> Option<u64>
    ensures number { result ≡ dollars text.now }
    ensures high { IfSome result (λ n. n ≤ 99999990000) }
{
    let number = parse_digits(text, 7)?;
    Some(number * 10_000)
}

/// The number of 1/10,000 dollar that 1 to 4 digits give after the point.
fn decimals_in(text: &[u8]) -> Option<u64>
    ensures number { result ≡ decimals text.now }
    ensures high { IfSome result (λ n. n ≤ 9999) }
{
    let number = parse_digits(text, 4)?;
    Some(number * 10u64.pow(4 - text.len() as u32))
}

impl fmt::Display for Price {
    ghost output = { λ p. Some (price_text p) };

    /// Writes dollars with four decimals. There are no leading zeros except one before the point.
    #[tactic(auto, using(std::proofs::lemmas::Fmt::decimal_digit))]
    fn fmt<W: fmt::Write>(&self, f: &mut fmt::Formatter<W>) -> fmt::Result {
        let number = self.ten_thousandths;
        let dollars = number / 10_000;
        let (a, b) = (number / 1000 % 10, number / 100 % 10);
        let (c, d) = (number / 10 % 10, number % 10);
        write!(f, "{dollars}.{a}{b}{c}{d}")
    }
}
