//! The keys of a setup that may be absent: `specs/Places`.
ghost use Rattle.std.specs.Prelude.{◌≡◌};
ghost use Rattle.toml.specs.View.{view, table_view};
ghost use Rattle.nms_fees.specs.Places.{caps_of, year_fault, caps_fault, caps_in, feeds_of, feeds_fault, feeds_in, choices_in};

use crate::USUAL_FEEDS;
use crate::check::range_fault;
use crate::setup_fault::SetupFault;
use crate::toml_table::value_at;
use nms_fee_book::Caps;
use nms_quote::MOST_FEEDS;
use toml::{Table, Value};

/// What a document chooses by its optional keys, which set the bounds of other keys.
#[derive(Clone, Copy)]
pub struct Choices {
    /// The caps that fees may not exceed: those of 2005 if the document names none.
    pub caps: Caps,
    /// The number of feeds, 1 to `MOST_FEEDS` (8): two if the document does not say.
    pub feeds: u8,
}

/// The fault of the key `caps`: none if it is absent.
pub(crate) fn caps_fault(document: &Table) -> Option<SetupFault>
    ensures { result ≡ caps_fault (table_view document.now) }
{
    match value_at(document, "caps") {
        Some(value) => year_fault(value),
        None => None,
    }
}

/// The fault of a year of caps: 2005 or 2024.
pub fn year_fault(value: &Value) -> Option<SetupFault>
    ensures { result ≡ year_fault (view value.now) }
{
    let Some(year) = value.as_integer() else {
        return Some(SetupFault::WrongType);
    };
    match caps_of(year) {
        Some(_) => None,
        None => Some(SetupFault::OutOfRange),
    }
}

/// The fault of the key `feeds`: none if it is absent.
pub(crate) fn feeds_fault(document: &Table) -> Option<SetupFault>
    ensures { result ≡ feeds_fault (table_view document.now) }
{
    match value_at(document, "feeds") {
        Some(value) => range_fault(value, 1, i64::from(MOST_FEEDS)),
        None => None,
    }
}

/// The caps and the number of feeds that a document chooses.
pub fn choices_in(document: &Table) -> Choices
    ensures { result ≡ choices_in (table_view document.now) }
{
    Choices {
        caps: caps_in(document),
        feeds: feeds_in(document),
    }
}

/// The caps that a document asks for: those of 2005 if it names none.
fn caps_in(document: &Table) -> Caps
    ensures { result ≡ caps_in (table_view document.now) }
{
    let Some(value) = value_at(document, "caps") else {
        return Caps::Of2005;
    };
    let Some(year) = value.as_integer() else {
        return Caps::Of2005;
    };
    match caps_of(year) {
        Some(caps) => caps,
        None => Caps::Of2005,
    }
}

fn caps_of(year: i64) -> Option<Caps>
    ensures { result ≡ caps_of year }
{
    if year == 2005 {
        Some(Caps::Of2005)
    } else if year == 2024 {
        Some(Caps::Of2024)
    } else {
        None
    }
}

/// The number of feeds of a document: two if it does not say.
fn feeds_in(document: &Table) -> u8
    ensures { result ≡ feeds_in (table_view document.now) }
{
    let Some(value) = value_at(document, "feeds") else {
        return USUAL_FEEDS;
    };
    let Some(number) = value.as_integer() else {
        return USUAL_FEEDS;
    };
    match feeds_of(number) {
        Some(feeds) => feeds,
        None => USUAL_FEEDS,
    }
}

fn feeds_of(number: i64) -> Option<u8>
    ensures { result ≡ feeds_of number }
{
    if 1 <= number && number <= i64::from(MOST_FEEDS) {
        Some(number as u8)
    } else {
        None
    }
}
