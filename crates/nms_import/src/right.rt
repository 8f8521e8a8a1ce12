//! Whether the value at a key is of the form that it must have: `specs/Forms`.
ghost use Rattle.std.specs.Prelude.{◌≡◌, ◌&&◌, map, option_map, Some, IfSome, ◌<◌};
ghost use Rattle.std.specs.List.{list_any};
ghost use Rattle.std.specs.Str.{bytes_eq};
ghost use Rattle.toml.specs.View.{table_view, view};
ghost use Rattle.nms_import.specs.Keys.{see};
ghost use Rattle.nms_import.specs.Drafts.{doc_of};
ghost use Rattle.nms_import.specs.Forms.{are_bits, are_bits_in, is_place, column_expected, has_dates, has_header, has_named, has_offset, fixed_in, fixed_text, is_among, is_byte_between, is_column, is_count, is_delimiter, is_lot, is_number, is_right, is_size_unit, is_zone, zone_in};

use crate::draft::{Draft, value_in};
use crate::keys::{A_NAME, A_NUMBER, Form, Row};
use nms_units::{MOST_LOT, parse_digits};
use toml::{Table, Value};

/// The most columns of a file.
pub(crate) const MOST_COLUMNS: u16 = 1000;

/// The greatest number that selects bits of a column: all of the lowest 16 bits.
pub(crate) const MOST_BITS: u16 = 65_535;

/// Whether a value that is no list has the form that its key requires.
pub(crate) fn is_right(draft: Draft<'_>, row: &Row, value: &Value) -> bool
    ensures { result ≡ is_right (doc_of draft.entry) (see row.now) (view value.now) }
{
    match row.3.0 {
        Form::Table => value.as_table().is_some(),
        Form::Choice => is_among(row.3.2, value),
        Form::Delimiter => is_byte_between(value),
        Form::Flag => value.as_bool().is_some(),
        Form::Text => value.as_str().is_some(),
        Form::Count => is_count(draft, value),
        Form::Column | Form::Columns => is_column(has_header(draft), value),
        Form::Instead => is_column(has_header(draft), value) && !has_named(draft, row),
        Form::SizeUnit => is_size_unit(draft, value),
        Form::Lot => is_lot(value),
        Form::Zone => has_dates(draft) && is_zone(value),
        Form::ZoneName => has_dates(draft) && is_among(row.3.2, value) && !has_offset(draft),
        Form::Name | Form::Words | Form::Pairs | Form::Conditions | Form::Letters | Form::Others =>
            false,
    }
}

/// Whether a value is one of the words.
fn is_among(words: &[&'static str], value: &Value) -> bool
    ensures { result ≡ is_among (map (λ word. word.now) words.now) (view value.now) }
{
    match value.as_str() {
        Some(text) => has_word(words, text),
        None => false,
    }
}

fn has_word(words: &[&'static str], text: &str) -> bool
    ensures { result ≡ list_any (λ word. bytes_eq word text.now) (map (λ word. word.now) words.now) }
{
    for word in words {
        if *word == text {
            return true;
        }
    }
    false
}

/// Whether a value is a text of one byte that can be between fields.
fn is_byte_between(value: &Value) -> bool
    ensures { result ≡ is_byte_between (view value.now) }
{
    match value.as_str() {
        Some(text) => match text.as_bytes() {
            [byte] => is_delimiter(*byte),
            _ => false,
        },
        None => false,
    }
}

/// Whether a byte can be between fields: not a quote, and not the end of a line.
pub(crate) fn is_delimiter(byte: u8) -> bool
    ensures { result ≡ is_delimiter byte }
{
    byte != b'"' && byte != b'\r' && byte != b'\n'
}

/// Whether a value is a number from 1 to `most`.
pub(crate) fn is_number(most: u16, value: &Value) -> bool
    ensures { result ≡ is_number most (view value.now) }
{
    match value.as_integer() {
        Some(number) => 1 <= number && number <= i64::from(most),
        None => false,
    }
}

/// Whether a value is the number of a field of the last line, which the key `end` names.
fn is_count(draft: Draft<'_>, value: &Value) -> bool
    ensures { result ≡ is_count (doc_of draft.entry) (view value.now) }
{
    is_number(MOST_COLUMNS, value) && draft.value("file", "end").is_some()
}

/// Whether the first line names the columns. If the key `header` is neither `true` nor `false`, faults of the columns are still
/// found.
pub(crate) fn has_header(draft: Draft<'_>) -> bool
    ensures { result ≡ has_header (doc_of draft.entry) }
{
    match draft.value("file", "header") {
        Some(value) => match value.as_bool() {
            Some(flag) => flag,
            None => true,
        },
        None => false,
    }
}

/// What is expected of a column.
pub(crate) fn column_expected(draft: Draft<'_>) -> &'static str
    ensures { result.now ≡ column_expected (doc_of draft.entry) }
{
    if has_header(draft) { A_NAME } else { A_NUMBER }
}

/// Whether a value is a column: its place, or a table with the text for it, or with the bits that are read.
fn is_column(header: bool, value: &Value) -> bool
    ensures { result ≡ is_column header (view value.now) }
{
    is_place(header, value) || fixed_text(value).is_some() || are_bits(header, value)
}

/// Whether a value says where a column is: its number, or its name if there is a header.
fn is_place(header: bool, value: &Value) -> bool
    ensures { result ≡ is_place header (view value.now) }
{
    if value.as_str().is_some() {
        header
    } else {
        is_number(MOST_COLUMNS, value)
    }
}

/// Whether a value is a table `{ column = COLUMN, bits = NUMBER }`.
fn are_bits(header: bool, value: &Value) -> bool
    ensures { result ≡ are_bits header (view value.now) }
{
    match value.as_table() {
        Some(members) => are_bits_in(header, members),
        None => false,
    }
}

#[tactic(auto, using(crate::proofs::NameFacts::names_length))]
fn are_bits_in(header: bool, members: &Table) -> bool
    ensures { result ≡ are_bits_in header (table_view members.now) }
{
    if members.len() != 2 {
        return false;
    }
    match (value_in(members, "column"), value_in(members, "bits")) {
        (Some(column), Some(bits)) => is_place(header, column) && is_number(MOST_BITS, bits),
        (Some(_) | None, _) => false,
    }
}

/// Whether the document has one of the keys that may be in place of a key, or in whose place the key may be.
pub(crate) fn has_named(draft: Draft<'_>, row: &Row) -> bool
    ensures { result ≡ has_named (doc_of draft.entry) (see row.now) }
{
    for word in row.3.2 {
        if draft.value(row.0, word).is_some() {
            return true;
        }
    }
    false
}

/// The text of a table `{ fixed = "TEXT" }`.
pub(crate) fn fixed_text(value: &Value) -> Option<&str>
    ensures { option_map (λ it. it.now) result ≡ fixed_text (view value.now) }
{
    match value.as_table() {
        Some(members) => fixed_in(members),
        None => None,
    }
}

#[tactic(auto, using(crate::proofs::NameFacts::names_length))]
fn fixed_in(members: &Table) -> Option<&str>
    ensures { option_map (λ it. it.now) result ≡ fixed_in (table_view members.now) }
{
    if members.len() != 1 {
        return None;
    }
    match value_in(members, "fixed") {
        Some(text) => text.as_str(),
        None => None,
    }
}

/// Whether a value is a number of shares for a lot, or `setup`, which means the setup's lot of each symbol.
fn is_lot(value: &Value) -> bool
    ensures { result ≡ is_lot (view value.now) }
{
    is_number(MOST_LOT, value) || value.as_str() == Some("setup")
}

/// Whether a value is a right unit of sizes: `shares` without the key `lot`, or `lots` with it. A lot with a wrong value is a
/// separate fault.
fn is_size_unit(draft: Draft<'_>, value: &Value) -> bool
    ensures { result ≡ is_size_unit (doc_of draft.entry) (view value.now) }
{
    let lot = draft.value("size", "lot");
    match (value.as_str(), lot) {
        (Some("shares"), Some(lot)) => !is_lot(lot),
        (Some("shares"), None) => true,
        (Some("lots"), _) => lot.is_some(),
        (Some(_) | None, _) => false,
    }
}

/// Whether times have a date, and so a zone. If the form is wrong, a fault of the zone is still found.
fn has_dates(draft: Draft<'_>) -> bool
    ensures { result ≡ has_dates (doc_of draft.entry) }
{
    match draft.value("time", "form") {
        Some(value) => match value.as_str() {
            Some(form) => form != "HHMMSSn" && form != "HH:MM:SS" && form != "seconds",
            None => true,
        },
        None => false,
    }
}

/// Whether a document names an offset from UTC by which times are moved.
fn has_offset(draft: Draft<'_>) -> bool
    ensures { result ≡ has_offset (doc_of draft.entry) }
{
    draft.value("time", "zone_offset").is_some()
}

/// Whether a value is an offset from UTC: a sign and HHMM.
fn is_zone(value: &Value) -> bool
    ensures { result ≡ is_zone (view value.now) }
{
    match value.as_str() {
        Some(text) => zone_in(text.as_bytes()).is_some(),
        None => false,
    }
}

/// The seconds by which a sign and HHMM move a time on, across midnight: 68,400 for `-0500`.
pub(crate) fn zone_in(text: &[u8]) -> Option<u32>
    ensures zone { result ≡ zone_in text.now }
    ensures day { IfSome result (λ zone. zone < 86400) }
{
    let [sign, digits @ ..] = text else {
        return None;
    };
    if digits.len() != 4 {
        return None;
    }
    let number = parse_digits(digits, 4)? as u32;
    let (hours, minutes) = (number / 100, number % 100);
    if hours > 23 || minutes > 59 {
        return None;
    }
    let seconds = hours * 3600 + minutes * 60;
    match *sign {
        b'+' => Some(seconds),
        b'-' => Some((86_400 - seconds) % 86_400),
        _ => None,
    }
}
