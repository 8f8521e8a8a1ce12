//! Money in nanodollars: `specs/Money`.
ghost use Rattle.std.specs.Prelude.{◌≡◌, ℤ, ◌<ℤ◌, ◌≤ℤ◌, ◌+ℤ◌, ◌*ℤ◌, pos, neg_ℤ, ◌^◌, ◌<◌, ◌≤◌, Some, IfSome};
ghost use Rattle.nms_units.specs.Digits.{number_in};
ghost use Rattle.nms_units.specs.Money.{whole_dollars, nine_decimals, nanodollars, amount_number, money_number, money_reading, three_digits, money_text};

use crate::digits::{parse_digits, point_in};
use crate::unit_fault::UnitFault;
use std::fmt;
use std::marker::Model;

/// An amount of money in whole nanodollars (10^-9 dollar); negative money is received.
#[derive(Clone, Copy, Debug, PartialEq, Eq, PartialOrd, Ord)]
pub struct Money {
    nanodollars: i128,
}

impl Model for Money {
    ghost Value = { ℤ };

    ghost view = { λ m. m.nanodollars };

    ghost inverse = { λ z. record { nanodollars = z } };
}

impl Money {
    /// An amount of `nanodollars`.
    pub fn new(nanodollars: i128) -> Self
        ensures { result ≡ nanodollars }
    {
        Self { nanodollars }
    }

    /// The number of nanodollars.
    pub fn get(self) -> i128
        ensures { result ≡ self }
    {
        self.nanodollars
    }

    /// The sum of two amounts of at most 2^110 nanodollars either way.
    pub fn plus(self, other: Self) -> Self
        requires low { (neg_ℤ (pos (2 ^ 110)) ≤ℤ self) × (neg_ℤ (pos (2 ^ 110)) ≤ℤ other) }
        requires high { (self ≤ℤ pos (2 ^ 110)) × (other ≤ℤ pos (2 ^ 110)) }
        ensures { result ≡ self +ℤ other }
    {
        Self::new(self.nanodollars + other.nanodollars)
    }

    /// This amount, of at most 2^62 nanodollars either way, for each of at most 2^37 shares.
    pub fn times(self, shares: u64) -> Self
        requires low { neg_ℤ (pos (2 ^ 62)) ≤ℤ self }
        requires high { self ≤ℤ pos (2 ^ 62) }
        requires shares { shares ≤ 2 ^ 37 }
        ensures product { result ≡ self *ℤ pos shares }
        ensures low { neg_ℤ (pos (2 ^ 100)) ≤ℤ result }
        ensures high { result ≤ℤ pos (2 ^ 100) }
    {
        Self::new(self.nanodollars * i128::from(shares))
    }

    /// Reads an optional minus, 1 to 20 digits, a point and nine digits, as dollars.
    ///
    /// Leading zeros are accepted, and so is a negative zero. Any other text is `BadMoney`.
    pub fn parse(text: &[u8]) -> Result<Self, UnitFault>
        ensures { result ≡ money_reading text.now }
    {
        let nanodollars = signed_amount_in(text).ok_or(UnitFault::BadMoney)?;
        Ok(Money::new(nanodollars))
    }

    /// A law: money strictly between -10^20 and 10^20 dollars, as `Display` prints it, is read by `parse` as the same money.
    pub fn reads_what_it_prints()
        ensures { (money : ℤ) → neg_ℤ (pos (10 ^ 29)) <ℤ money → money <ℤ pos (10 ^ 29)
            → money_reading (money_text money) ≡ Ok money }
    {}
}

/// The nanodollars that a text in money's form gives.
fn signed_amount_in(text: &[u8]) -> Option<i128>
    ensures { result ≡ money_number text.now }
{
    match text {
        [b'-', amount @ ..] => {
            let number = amount_in(amount)?;
            Some(-(number as i128))
        }
        amount => {
            let number = amount_in(amount)?;
            Some(number as i128)
        }
    }
}

/// The nanodollars that 1 to 20 digits, a point and nine digits give.
fn amount_in(text: &[u8]) -> Option<u128>
    ensures number { result ≡ amount_number text.now }
    ensures high { IfSome result (λ n. n < 10 ^ 29) }
{
    let point = point_in(text)?;
    nanodollars_in(&text[..point], &text[point + 1..])
}

/// The nanodollars that the digits on both sides of the point give.
fn nanodollars_in(whole: &[u8], behind: &[u8]) -> Option<u128>
    ensures number { result ≡ nanodollars whole.now behind.now }
    ensures high { IfSome result (λ n. n < 10 ^ 29) }
{
    let whole = whole_dollars_in(whole)?;
    let behind = nine_decimals_in(behind)?;
    Some(whole + u128::from(behind))
}

/// The nanodollars that 1 to 20 digits give as dollars.
fn whole_dollars_in(text: &[u8]) -> Option<u128>
    ensures number { result ≡ whole_dollars text.now }
    ensures high { IfSome result (λ n. n ≤ 99999999999999999999000000000) }
{
    let number = twenty_digits_in(text)?;
    Some(number * 1_000_000_000)
}

/// The number that nine digits give.
fn nine_decimals_in(text: &[u8]) -> Option<u64>
    ensures number { result ≡ nine_decimals text.now }
    ensures high { IfSome result (λ n. n ≤ 999999999) }
{
    if text.len() == 9 {
        parse_digits(text, 9)
    } else {
        None
    }
}

/// The number that 1 to 20 digits give. A twentieth digit is read separately, because the number may not fit 64 bits.
fn twenty_digits_in(text: &[u8]) -> Option<u128>
    ensures number { result ≡ number_in 20 text.now }
    ensures high { IfSome result (λ n. n < 10 ^ 20) }
{
    if text.len() != 20 {
        let number = parse_digits(text, 19)?;
        return Some(u128::from(number));
    }
    let (front, last) = text.split_at(19);
    let front = parse_digits(front, 19)?;
    let last = parse_digits(last, 1)?;
    Some(u128::from(front) * 10 + u128::from(last))
}

/// The last three digits of a number.
#[derive(Drop)]
struct ThreeDigits(u128);

impl fmt::Display for ThreeDigits {
    ghost output = { λ d. Some (three_digits d.0) };

    #[tactic(auto, using(std::proofs::lemmas::Fmt::decimal_digit))]
    fn fmt<W: fmt::Write>(&self, f: &mut fmt::Formatter<W>) -> fmt::Result {
        let (a, b, c) = (self.0 / 100 % 10, self.0 / 10 % 10, self.0 % 10);
        write!(f, "{a}{b}{c}")
    }
}

impl fmt::Display for Money {
    ghost output = { λ m. Some (money_text m) };

    /// Writes a minus if negative, and dollars with nine decimals. There are no leading zeros except one before the point.
    fn fmt<W: fmt::Write>(&self, f: &mut fmt::Formatter<W>) -> fmt::Result {
        let sign = if self.get() < 0 { "-" } else { "" };
        let amount = self.get().unsigned_abs();
        let dollars = amount / 1_000_000_000;
        let (milli, micro, nano) = (
            ThreeDigits(amount / 1_000_000),
            ThreeDigits(amount / 1000),
            ThreeDigits(amount),
        );
        write!(f, "{sign}{dollars}.{milli}{micro}{nano}")
    }
}
