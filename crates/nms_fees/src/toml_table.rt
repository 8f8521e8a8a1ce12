//! Look-ups in the tables of a TOML document: `specs/Places` and `specs/Setup`.
ghost use Rattle.std.specs.Prelude.{◌≡◌, not, map, option_map};
ghost use Rattle.std.specs.List.{list_any};
ghost use Rattle.toml.specs.Data.{get_member};
ghost use Rattle.toml.specs.View.{view, table_view};
ghost use Rattle.nms_fees.specs.Places.{keys_in, rows_in, is_known, is_top_key, is_participant_key, is_symbol_key};
ghost use Rattle.nms_fees.specs.Setup.{text_at, number_at, count_at, rows_at};

use crate::level::Level;
use toml::{Table, Value};

/// The value that a table has at a key. `None` if it does not have the key.
pub fn value_at<'a>(table: &'a Table, key: &str) -> Option<&'a Value>
    ensures { option_map (λ value. view value.now) result ≡ get_member key.now (table_view table.now) }
{
    table.get(key)
}

/// The text that a table has at a key; an empty one if there is no text.
pub(crate) fn text_at<'a>(table: &'a Table, key: &str) -> &'a str
    ensures { result.now ≡ text_at key.now (table_view table.now) }
{
    let Some(value) = value_at(table, key) else {
        return "";
    };
    match value.as_str() {
        Some(text) => text,
        None => "",
    }
}

/// The number that a table has at a key; 0 if there is no number.
pub(crate) fn number_at(table: &Table, key: &str) -> i64
    ensures { result ≡ number_at key.now (table_view table.now) }
{
    let Some(value) = value_at(table, key) else {
        return 0;
    };
    match value.as_integer() {
        Some(number) => number,
        None => 0,
    }
}

/// The number that a table has at a key, without its sign; 0 if there is no number.
pub(crate) fn count_at(table: &Table, key: &str) -> u64
    ensures { result ≡ count_at key.now (table_view table.now) }
{
    number_at(table, key).unsigned_abs()
}

/// The elements of a value that is an array.
pub fn rows_in(value: &Value) -> Option<&[Value]>
    ensures { option_map (λ rows. map view rows.now) result ≡ rows_in (view value.now) }
{
    match value.as_array() {
        Some(rows) => Some(rows.as_slice()),
        None => None,
    }
}

/// The elements of the array at a key; none if there is no array.
pub fn rows_at<'a>(table: &'a Table, key: &str) -> &'a [Value]
    ensures { map view result.now ≡ rows_at key.now (table_view table.now) }
{
    let Some(value) = value_at(table, key) else {
        return &[];
    };
    match rows_in(value) {
        Some(rows) => rows,
        None => &[],
    }
}

/// Whether a table has a key that a setup does not know at that level.
pub(crate) fn has_other_key(table: &Table, level: Level) -> bool
    ensures { result ≡ list_any (λ key. not (is_known level key)) (keys_in (table_view table.now)) }
{
    for key in table.keys() {
        if !is_known(level, key.as_str()) {
            return true;
        }
    }
    false
}

fn is_known(level: Level, key: &str) -> bool
    ensures { result ≡ is_known level key.now }
{
    match level {
        Level::Top => is_top_key(key),
        Level::Participant => is_participant_key(key),
        Level::Symbol => is_symbol_key(key),
    }
}

/// Whether a key may be at the top of a document.
pub fn is_top_key(key: &str) -> bool
    ensures { result ≡ is_top_key key.now }
{
    key == "tape_limit"
        || key == "queue"
        || key == "desks"
        || key == "caps"
        || key == "feeds"
        || key == "participant"
        || key == "symbol"
}

/// Whether a key may be in the table of a participant.
pub fn is_participant_key(key: &str) -> bool
    ensures { result ≡ is_participant_key key.now }
{
    key == "name" || key == "feed" || key == "fee" || key == "rate"
}

/// Whether a key may be in the table of a symbol.
pub fn is_symbol_key(key: &str) -> bool
    ensures { result ≡ is_symbol_key key.now }
{
    key == "name" || key == "lot"
}
