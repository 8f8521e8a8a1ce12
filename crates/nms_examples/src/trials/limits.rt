//! The least and greatest numbers, tried with values just inside and outside; and the faults of texts that give no number.
use super::{same, there};
use nms_fees::Setup;
use nms_quote::{OrderSide, Part};
use nms_units::{Lot, Money, Price, Shares, UnitFault};
use std::test::Fail;

pub(super) fn try_all(setup: &Setup) -> Result<(), Fail> {
    numbers_have_their_limits()?;
    whole_lots_are_displayed()?;
    each_wrong_text_has_its_fault()?;
    who_is_no_participant_has_no_fee(setup)?;
    // These calls do nothing. They show that a program may call a law: a price or an amount that is printed is read back
    // unchanged.
    Price::reads_what_it_prints();
    Money::reads_what_it_prints();
    Ok(())
}

/// The least and the greatest price and lot can be made, and none beyond them. No number of shares exceeds 999,999,999.
fn numbers_have_their_limits() -> Result<(), Fail> {
    for (number, is_price) in [
        (0, false),
        (1, true),
        (99_999_999_999, true),
        (100_000_000_000, false),
    ] {
        same(Price::new(number).is_some(), is_price)?;
    }
    for (number, is_lot) in [(0, false), (1, true), (1000, true), (1001, false)] {
        same(Lot::new(number).is_some(), is_lot)?;
    }
    same(Shares::new(1_000_000_000), None)
}

fn displayed(lot: u16, shares: u32) -> Option<u32> {
    Some(Lot::new(lot)?.displayed(Shares::new(shares)?))
}

fn whole_lots_are_displayed() -> Result<(), Fail> {
    for (lot, shares, size) in [(100, 250, 200), (100, 99, 0), (1, 7, 7), (1000, 1999, 1000)] {
        same(displayed(lot, shares), Some(size))?;
    }
    Ok(())
}

/// Each wrong text of a price or of shares has its fault. A record or a plan with such a text reports one code for all these
/// faults.
fn each_wrong_text_has_its_fault() -> Result<(), Fail> {
    for text in [b"0".as_slice(), b"0000000.0000"] {
        same(Price::parse(text), Err(UnitFault::ZeroPrice))?;
    }
    for text in [
        b"".as_slice(),
        b"1.",
        b".5",
        b"1.00000",
        b"10000000",
        b"1.2.3",
        b"-1",
        b"1 ",
    ] {
        same(Price::parse(text), Err(UnitFault::BadPrice))?;
    }
    for text in [b"".as_slice(), b"1000000000", b"+1", b"1.0"] {
        same(Shares::parse(text), Err(UnitFault::BadShares))?;
    }
    for text in [b"".as_slice(), b"1.7", b"+1.000000000", b"1.-00000000"] {
        same(Money::parse(text), Err(UnitFault::BadMoney))?;
    }
    Ok(())
}

fn who_is_no_participant_has_no_fee(setup: &Setup) -> Result<(), Fail> {
    let price = there(Price::new(100_000))?;
    for place in [4, 31] {
        let part = there(Part::new(place))?;
        let cost = setup.fees().unit_cost(part, OrderSide::Buy, price);
        same(cost, Money::new(10_000_000_000))?;
    }
    Ok(())
}
