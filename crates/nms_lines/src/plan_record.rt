//! Reading the records of a plan's text, one by one: `specs/PlanRecords`.
ghost use Rattle.std.specs.Prelude.{◌≡◌, ◌<◌, IfOk, is_ok, length};
ghost use Rattle.csv.specs.Records.{fields_of};
ghost use Rattle.nms_lines.specs.Named.{AreBelow};
ghost use Rattle.nms_lines.specs.Numbers.{shares_number};
ghost use Rattle.nms_lines.specs.PlanRecords.{begun, cut_reading, end_reading, head_reading, kind_said, leg_reading, without_value, wrong_as};
ghost use Rattle.nms_units.specs.Money.{money_number};

use crate::field::{field, is_word};
use crate::letter::{flag_named, side_of};
use crate::line_fault::FaultPlace;
use crate::named::named_at;
use crate::number::{price_of, some_shares_of};
use csv::ByteRecord;
use nms_quote::{Cut, CutKind, Leg, Order, Roster};
use nms_units::{Money, Shares, parse_digits};
use std::marker::Model;

/// The records of a plan's text.
#[derive(Clone, Copy)]
pub enum PlanRecord {
    /// `PLAN`: the plan, without its legs.
    Plan,
    /// `LEG`: a leg of the plan.
    Leg,
    /// `CUT`: a cut of the plan's certificate.
    Cut,
    /// `END`: the end of the text.
    End,
}

/// The fields of the record of a plan.
#[derive(Drop)]
pub(crate) struct PlanHead {
    pub(crate) version: u64,
    pub(crate) order: Order,
    pub(crate) filled: u32,
    pub(crate) cost: Money,
}

impl Model for PlanHead {
    ghost use Rattle.nms_lines.specs.PlanRecords.{Head};

    ghost Value = { Head };

    ghost view = { λ h. record { version = h.version; order = h.order; filled = h.filled; cost = h.cost } };
}

/// The place at which a record is wrong for the given kind. It is the first word, the number of fields, or the first field that
/// a plan can't have. `None` if the record can be read.
pub fn wrong_place(sort: PlanRecord, row: &ByteRecord, roster: &Roster) -> Option<FaultPlace>
    ensures { result ≡ wrong_as sort roster.now (fields_of row.now) }
{
    match sort {
        PlanRecord::Plan => head_in(row, roster).err(),
        PlanRecord::Leg => leg_in(row, roster).err(),
        PlanRecord::Cut => match cut_in(row) {
            Ok(_) => None,
            Err(place) => Some(place),
        },
        PlanRecord::End => end_in(row).err(),
    }
}

/// The fields of the record of a plan, or the place at which the record is wrong.
pub(crate) fn head_in(row: &ByteRecord, roster: &Roster) -> Result<PlanHead, FaultPlace>
    ensures head { result ≡ head_reading roster.now (fields_of row.now) }
    ensures there { IfOk result (λ head. head.order.sym < length roster.now.syms) }
    ensures named { IfOk result (λ head. AreBelow (length roster.now.parts) head.order.self_help) }
{
    begin(row, b"PLAN", row.len() == 9 || row.len() == 10)?;
    let version = parse_digits(field(row, 1), 8).ok_or(FaultPlace::Field(1))?;
    let side = side_of(field(row, 2)).ok_or(FaultPlace::Field(2))?;
    let sym = roster.find_sym(field(row, 3)).ok_or(FaultPlace::Field(3))?;
    let shares = some_shares_of(field(row, 4)).ok_or(FaultPlace::Field(4))?;
    let limit = price_of(field(row, 5)).ok_or(FaultPlace::Field(5))?;
    let manual = flag_named(field(row, 6)).ok_or(FaultPlace::Field(6))?;
    let filled = shares_in(field(row, 7)).ok_or(FaultPlace::Field(7))?;
    let cost = money_in(field(row, 8)).ok_or(FaultPlace::Field(8))?;
    let self_help = named_at(row, 9, roster).ok_or(FaultPlace::Field(9))?;
    Ok(PlanHead {
        version,
        order: Order::new(side, sym, shares, limit, manual, self_help).unwrap(),
        filled: filled.get(),
        cost,
    })
}

/// The leg that a record gives, or the place at which the record is wrong.
pub(crate) fn leg_in(row: &ByteRecord, roster: &Roster) -> Result<Leg, FaultPlace>
    ensures leg { result ≡ leg_reading roster.now (fields_of row.now) }
    ensures there { IfOk result (λ leg. leg.part < length roster.now.parts) }
{
    begin(row, b"LEG", row.len() == 4)?;
    let part = roster.find_part(field(row, 1)).ok_or(FaultPlace::Field(1))?;
    let price = price_of(field(row, 2)).ok_or(FaultPlace::Field(2))?;
    let shares = shares_in(field(row, 3)).ok_or(FaultPlace::Field(3))?;
    Ok(Leg {
        part,
        price,
        shares,
    })
}

/// The cut that a record gives, or the place at which the record is wrong.
pub(crate) fn cut_in(row: &ByteRecord) -> Result<Cut, FaultPlace>
    ensures { result ≡ cut_reading (fields_of row.now) }
{
    begin(row, b"CUT", row.len() == 4)?;
    let price = price_of(field(row, 1)).ok_or(FaultPlace::Field(1))?;
    let kind = kind_in(field(row, 2), field(row, 3))?;
    Ok(Cut { price, kind })
}

/// Whether a record is the one that ends a plan's text.
pub(crate) fn is_end(row: &ByteRecord) -> bool
    ensures { result ≡ is_ok (end_reading (fields_of row.now)) }
{
    end_in(row).is_ok()
}

/// Checks that a record is the one that ends a plan's text.
fn end_in(row: &ByteRecord) -> Result<(), FaultPlace>
    ensures { result ≡ end_reading (fields_of row.now) }
{
    begin(row, b"END", row.len() == 1)
}

/// Tests the first word of a record, and then whether the record has the right number of fields.
fn begin(row: &ByteRecord, word: &[u8], is_counted: bool) -> Result<(), FaultPlace>
    ensures { result ≡ begun word.now is_counted (fields_of row.now) }
{
    if !is_word(field(row, 0), word) {
        return Err(FaultPlace::Field(0));
    }
    if !is_counted {
        return Err(FaultPlace::Record);
    }
    Ok(())
}

/// The kind of a cut, by its word and its value.
fn kind_in(word: &[u8], value: &[u8]) -> Result<CutKind, FaultPlace>
    ensures { result ≡ kind_said word.now value.now }
{
    if is_word(word, b"TOOMUCH") {
        return without_value(value, CutKind::TooMuch).ok_or(FaultPlace::Field(3));
    }
    if is_word(word, b"TOOLITTLE") {
        return without_value(value, CutKind::TooLittle).ok_or(FaultPlace::Field(3));
    }
    if !is_word(word, b"MARGINAL") {
        return Err(FaultPlace::Field(2));
    }
    let money = money_in(value).ok_or(FaultPlace::Field(3))?;
    Ok(CutKind::Marginal(money))
}

/// The given kind of cut, which has no value, if the field for the value is empty.
fn without_value(value: &[u8], kind: CutKind) -> Option<CutKind>
    ensures { result ≡ without_value value.now kind }
{
    match value {
        b"" => Some(kind),
        _ => None,
    }
}

/// The number of shares that a text gives, 0 or more. `None` if the text is not a number of shares.
fn shares_in(text: &[u8]) -> Option<Shares>
    ensures { result ≡ shares_number text.now }
{
    Shares::parse(text).ok()
}

/// The amount of money that a text gives. `None` if the text is not an amount of money.
fn money_in(text: &[u8]) -> Option<Money>
    ensures { result ≡ money_number text.now }
{
    Money::parse(text).ok()
}
