//! The form and the bounds that a value must have at each key: `specs/Forms`.
ghost use Rattle.std.specs.Prelude.{◌≡◌};
ghost use Rattle.toml.specs.View.{view};
ghost use Rattle.nms_fees.specs.Places.{name_fault};
ghost use Rattle.nms_setup_places.specs.Tables.{array_of, is_name_of, most_in};
ghost use Rattle.nms_setup_places.specs.Forms.{form_fault, form_of, rows_form_fault};

use crate::known_key::KnownKey;
use crate::setup_table::{SetupArray, SetupTable};
use nms_fees::{
    Choices, LEAST_QUEUE, MOST_DESKS, MOST_FEE, MOST_QUEUE, MOST_RATE, SetupFault, cap_fault,
    feed_fault, range_fault, rows_in, year_fault,
};
use nms_quote::{
    MOST_CHANGES, MOST_FEEDS, MOST_PARTICIPANTS, MOST_SYMBOLS, is_part_name, is_symbol_name,
};
use nms_units::MOST_LOT;
use toml::Value;

/// The form that a value must have, with its bounds.
#[derive(Clone, Copy)]
pub enum Form {
    /// An integer from the first number to the second.
    Number(i64, i64),
    /// The year of caps: 2005 or 2024.
    Year,
    /// An integer whose size is at most the first number. It may not exceed the second, which is its cap.
    Charge(u32, u32),
    /// The letter of one of the first n feeds.
    Letter(u8),
    /// The name of an element of the given array.
    Name(SetupArray),
    /// The elements of the given array. There must be at least one, and not too many.
    Rows(SetupArray),
}

/// The form that the value at a key of a table must have, by the document's choices.
pub fn form_of(choices: Choices, table: SetupTable, key: KnownKey) -> Form
    ensures { result ≡ form_of choices table key }
{
    match key {
        KnownKey::TapeLimit => Form::Number(1, MOST_CHANGES as i64),
        KnownKey::Queue => Form::Number(LEAST_QUEUE as i64, MOST_QUEUE as i64),
        KnownKey::Desks => Form::Number(1, MOST_DESKS as i64),
        KnownKey::Caps => Form::Year,
        KnownKey::Feeds => Form::Number(1, i64::from(MOST_FEEDS)),
        KnownKey::Participant => Form::Rows(SetupArray::Participant),
        KnownKey::Symbol => Form::Rows(SetupArray::Symbol),
        KnownKey::Name => Form::Name(array_of(table)),
        KnownKey::Feed => Form::Letter(choices.feeds),
        KnownKey::Fee => Form::Charge(MOST_FEE, choices.caps.fee()),
        KnownKey::Rate => Form::Charge(MOST_RATE, choices.caps.rate()),
        KnownKey::Lot => Form::Number(1, i64::from(MOST_LOT)),
    }
}

/// The array of a table that has a name: the participants or the symbols.
fn array_of(table: SetupTable) -> SetupArray
    ensures { result ≡ array_of table }
{
    match table {
        SetupTable::Symbol(_) => SetupArray::Symbol,
        SetupTable::Top | SetupTable::Participant(_) => SetupArray::Participant,
    }
}

impl Form {
    /// The fault of a value that must have this form.
    pub fn fault_of(self, value: &Value) -> Option<SetupFault>
        ensures { result ≡ form_fault self (view value.now) }
    {
        match self {
            Form::Number(low, high) => range_fault(value, low, high),
            Form::Year => year_fault(value),
            Form::Charge(most, cap) => cap_fault(value, most, cap),
            Form::Letter(feeds) => feed_fault(value, feeds),
            Form::Name(array) => name_fault(value, array),
            Form::Rows(array) => rows_form_fault(value, array),
        }
    }
}

fn name_fault(value: &Value, array: SetupArray) -> Option<SetupFault>
    ensures { result ≡ name_fault (is_name_of array) (view value.now) }
{
    let Some(name) = value.as_str() else {
        return Some(SetupFault::WrongType);
    };
    if is_name_of(array, name.as_bytes()) {
        None
    } else {
        Some(SetupFault::BadName)
    }
}

fn is_name_of(array: SetupArray, name: &[u8]) -> bool
    ensures { result ≡ is_name_of array name.now }
{
    match array {
        SetupArray::Participant => is_part_name(name),
        SetupArray::Symbol => is_symbol_name(name),
    }
}

/// The fault of an array by itself: it is no array, is empty, or has too many elements. The faults of its elements do not count
/// here.
fn rows_form_fault(value: &Value, array: SetupArray) -> Option<SetupFault>
    ensures { result ≡ rows_form_fault array (view value.now) }
{
    let Some(rows) = rows_in(value) else {
        return Some(SetupFault::WrongType);
    };
    if rows.is_empty() {
        Some(SetupFault::OutOfRange)
    } else if rows.len() <= array.most() {
        None
    } else {
        Some(SetupFault::TooMany)
    }
}

impl SetupArray {
    /// The most elements that the array may have.
    pub fn most(self) -> usize
        ensures { result ≡ most_in self }
    {
        match self {
            SetupArray::Participant => usize::from(MOST_PARTICIPANTS),
            SetupArray::Symbol => usize::from(MOST_SYMBOLS),
        }
    }
}
