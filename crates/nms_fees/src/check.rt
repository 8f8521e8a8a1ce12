//! Finding the faults of a setup's document, the fault of each place and the least one: `specs/Places`.
ghost use Rattle.std.specs.Prelude.{codes, ◌≡◌, map, IfOk, IfErr};
ghost use Rattle.toml.specs.View.{view, table_view};
ghost use Rattle.nms_fees.specs.Faults.{least, lesser};
ghost use Rattle.nms_fees.specs.Places.{key_fault, range_fault, cap_fault, is_name_in, name_fault, feed_fault, other_key_fault, table_findings, row_fault, most_of, count_fault, rows_fault, array_fault, document_fault};

use crate::choices::{Choices, caps_fault, choices_in, feeds_fault};
use crate::feed_name::feed_fault;
use crate::level::Level;
use crate::repeat::has_repeat;
use crate::section::Section;
use crate::setup_fault::SetupFault;
use crate::toml_table::{has_other_key, rows_in, value_at};
use crate::{LEAST_QUEUE, MOST_DESKS, MOST_FEE, MOST_QUEUE, MOST_RATE};
use nms_quote::{MOST_CHANGES, MOST_PARTICIPANTS, MOST_SYMBOLS, is_part_name, is_symbol_name};
use nms_units::MOST_LOT;
use std::alloc::Global;
use toml::{Table, Value};

/// The fault with the smaller number, if two faults of a setup are found. If only one is found, it is that one.
fn lesser(first: Option<SetupFault>, second: Option<SetupFault>) -> Option<SetupFault>
    ensures { result ≡ lesser first second }
{
    match (first, second) {
        (None, found) | (found, None) => found,
        (Some(first), Some(second)) => {
            if first.number() <= second.number() {
                Some(first)
            } else {
                Some(second)
            }
        }
    }
}

/// The fault with the smallest number among all faults that are found.
fn least(found: &[Option<SetupFault>]) -> Option<SetupFault>
    ensures { result ≡ least found.now }
{
    let mut least = None;
    for finding in found {
        least = lesser(least, *finding);
    }
    least
}

/// The fault of a table that has a key that a setup does not know.
fn other_key_fault(table: &Table, level: Level) -> Option<SetupFault>
    ensures { result ≡ other_key_fault level (table_view table.now) }
{
    if has_other_key(table, level) {
        Some(SetupFault::UnknownKey)
    } else {
        None
    }
}

/// The fault of a required number, which has to be from `low` to `high`. `None` if it has no fault.
fn number_fault(table: &Table, key: &str, low: i64, high: i64) -> Option<SetupFault>
    ensures { result ≡ key_fault (range_fault low high) key.now (table_view table.now) }
{
    match value_at(table, key) {
        Some(value) => range_fault(value, low, high),
        None => Some(SetupFault::Missing),
    }
}

/// The fault of a value that has to be a number from `low` to `high`. `None` if it has no fault.
pub fn range_fault(value: &Value, low: i64, high: i64) -> Option<SetupFault>
    ensures { result ≡ range_fault low high (view value.now) }
{
    let Some(number) = value.as_integer() else {
        return Some(SetupFault::WrongType);
    };
    if low <= number && number <= high {
        None
    } else {
        Some(SetupFault::OutOfRange)
    }
}

/// The fault of a required fee or rate. It may be at most `most`, as a charge or a rebate, and may not exceed its cap.
fn charge_fault(table: &Table, key: &str, most: u32, cap: u32) -> Option<SetupFault>
    ensures { result ≡ key_fault (cap_fault most cap) key.now (table_view table.now) }
{
    match value_at(table, key) {
        Some(value) => cap_fault(value, most, cap),
        None => Some(SetupFault::Missing),
    }
}

/// The fault of a fee or rate. It may be at most `most`, as a charge or a rebate, and may not exceed its cap (17 CFR 242.610(c)).
pub fn cap_fault(value: &Value, most: u32, cap: u32) -> Option<SetupFault>
    ensures { result ≡ cap_fault most cap (view value.now) }
{
    let Some(number) = value.as_integer() else {
        return Some(SetupFault::WrongType);
    };
    let is_within = -i64::from(most) <= number && number <= i64::from(most);
    if !is_within {
        Some(SetupFault::OutOfRange)
    } else if number <= i64::from(cap) {
        None
    } else {
        Some(SetupFault::OverCap)
    }
}

/// The fault of a required feed, which has to be the letter of one of the first `count` feeds.
fn letter_fault(table: &Table, key: &str, count: u8) -> Option<SetupFault>
    ensures { result ≡ key_fault (feed_fault count) key.now (table_view table.now) }
{
    match value_at(table, key) {
        Some(value) => feed_fault(value, count),
        None => Some(SetupFault::Missing),
    }
}

/// The fault of the required name of a participant or a symbol.
fn name_fault(table: &Table, section: Section) -> Option<SetupFault>
    ensures { result ≡ key_fault (name_fault (is_name_in section)) (codes "name") (table_view table.now) }
{
    let Some(value) = value_at(table, "name") else {
        return Some(SetupFault::Missing);
    };
    let Some(name) = value.as_str() else {
        return Some(SetupFault::WrongType);
    };
    if is_name_in(section, name.as_bytes()) {
        None
    } else {
        Some(SetupFault::BadName)
    }
}

fn is_name_in(section: Section, name: &[u8]) -> bool
    ensures { result ≡ is_name_in section name.now }
{
    match section {
        Section::Participant => is_part_name(name),
        Section::Symbol => is_symbol_name(name),
    }
}

/// The fault of one participant or one symbol of a setup. It has to be a table.
fn row_fault(row: &Value, chosen: Choices, section: Section) -> Option<SetupFault>
    ensures { result ≡ row_fault chosen section (view row.now) }
{
    match row.as_table() {
        Some(table) => table_fault(table, chosen, section),
        None => Some(SetupFault::WrongType),
    }
}

/// The fault of the table of one participant or one symbol, by the caps and the number of feeds that the document chooses.
fn table_fault(table: &Table, chosen: Choices, section: Section) -> Option<SetupFault>
    ensures { result ≡ least (table_findings chosen section (table_view table.now)) }
{
    match section {
        Section::Participant => least(&[
            other_key_fault(table, Level::Participant),
            name_fault(table, section),
            letter_fault(table, "feed", chosen.feeds),
            charge_fault(table, "fee", MOST_FEE, chosen.caps.fee()),
            charge_fault(table, "rate", MOST_RATE, chosen.caps.rate()),
        ]),
        Section::Symbol => least(&[
            other_key_fault(table, Level::Symbol),
            name_fault(table, section),
            number_fault(table, "lot", 1, i64::from(MOST_LOT)),
        ]),
    }
}

/// The fault with the smallest number among all participants or all symbols, each looked at by itself.
fn each_row_fault(rows: &[Value], chosen: Choices, section: Section) -> Option<SetupFault>
    ensures { result ≡ least (map (row_fault chosen section) (map view rows.now)) }
{
    let mut least = None;
    for row in rows {
        least = lesser(least, row_fault(row, chosen, section));
    }
    least
}

/// The fault of the number of participants or symbols: there is none, or there are too many.
fn count_fault(section: Section, count: usize) -> Option<SetupFault>
    ensures { result ≡ count_fault (most_of section) count }
{
    let most = match section {
        Section::Participant => usize::from(MOST_PARTICIPANTS),
        Section::Symbol => usize::from(MOST_SYMBOLS),
    };
    if count == 0 {
        Some(SetupFault::OutOfRange)
    } else if count <= most {
        None
    } else {
        Some(SetupFault::TooMany)
    }
}

/// The fault of the list of participants or symbols: its length, a repeated name, or a fault of one of its elements.
fn rows_fault(
    alloc: Global,
    rows: &[Value],
    chosen: Choices,
    section: Section,
) -> Result<Option<SetupFault>, SetupFault>
    ensures found { IfOk result (λ found. found ≡ rows_fault chosen section (map view rows.now)) }
    ensures memory { IfErr result (λ fault. fault ≡ SetupFault.NoMemory) }
{
    let repeat_fault = if has_repeat(alloc, rows)? {
        Some(SetupFault::BadName)
    } else {
        None
    };
    Ok(least(&[
        count_fault(section, rows.len()),
        repeat_fault,
        each_row_fault(rows, chosen, section),
    ]))
}

/// The fault of the array of participants or symbols, which is required.
fn array_fault(
    alloc: Global,
    document: &Table,
    key: &str,
    chosen: Choices,
    section: Section,
) -> Result<Option<SetupFault>, SetupFault>
    ensures found { IfOk result (λ found. found ≡ key_fault (array_fault chosen section) key.now (table_view document.now)) }
    ensures memory { IfErr result (λ fault. fault ≡ SetupFault.NoMemory) }
{
    match value_at(document, key) {
        Some(value) => match rows_in(value) {
            Some(rows) => rows_fault(alloc, rows, chosen, section),
            None => Ok(Some(SetupFault::WrongType)),
        },
        None => Ok(Some(SetupFault::Missing)),
    }
}

/// The fault with the smallest number anywhere in a setup's document.
pub(crate) fn document_fault(
    alloc: Global,
    document: &Table,
) -> Result<Option<SetupFault>, SetupFault>
    ensures found { IfOk result (λ found. found ≡ document_fault (table_view document.now)) }
    ensures memory { IfErr result (λ fault. fault ≡ SetupFault.NoMemory) }
{
    let chosen = choices_in(document);
    Ok(least(&[
        other_key_fault(document, Level::Top),
        number_fault(document, "tape_limit", 1, MOST_CHANGES as i64),
        number_fault(document, "queue", LEAST_QUEUE as i64, MOST_QUEUE as i64),
        number_fault(document, "desks", 1, MOST_DESKS as i64),
        caps_fault(document),
        feeds_fault(document),
        array_fault(alloc, document, "participant", chosen, Section::Participant)?,
        array_fault(alloc, document, "symbol", chosen, Section::Symbol)?,
    ]))
}
