//! What is expected at a place of a setup, in words.
use nms_fees::Caps;
use nms_setup_places::{Choices, Form, KnownKey, SetupArray, SetupTable, form_of};
use std::alloc::{AllocError, Global};

/// The value that is expected at a key.
pub(crate) fn expected_at(
    alloc: Global,
    choices: Choices,
    table: SetupTable,
    key: KnownKey,
) -> Result<String, AllocError> {
    match form_of(choices, table, key) {
        Form::Number(low, high) => {
            let unit = unit_of(key);
            format!(in alloc; "{unit}a whole number from {low} to {high}")
        }
        Form::Year => String::from_str(alloc, "2005 or 2024, the year of the caps, without quotes"),
        Form::Charge(most, cap) => charge_expected(alloc, choices.caps, key, most, cap),
        Form::Letter(feeds) => {
            let last = letter_of(feeds);
            format!(in alloc; "the letter of a feed in quotes, \"A\" to \"{last}\"")
        }
        Form::Name(array) => String::from_str(alloc, name_expected(array)),
        Form::Rows(array) => {
            let (most, name) = (array.most(), array.key().text());
            format!(in alloc; "1 to {most} tables, each after a line [[{name}]]")
        }
    }
}

/// The unit of a number, if its key does not say it.
fn unit_of(key: KnownKey) -> &'static str {
    if key == KnownKey::Lot {
        "shares of a round lot, "
    } else {
        ""
    }
}

/// The unit and the range that are expected of a fee or a rate, in words.
fn charge_expected(
    alloc: Global,
    caps: Caps,
    key: KnownKey,
    most: u32,
    cap: u32,
) -> Result<String, AllocError> {
    let unit = if key == KnownKey::Rate {
        "hundred-thousandths of the price"
    } else {
        "nanodollars a share"
    };
    let adopted = match caps {
        Caps::Of2005 => "as adopted in 2005",
        Caps::Of2024 => "as amended in 2024",
    };
    format!(in alloc;
        "{unit}, a whole number from -{most} to {cap}, the cap of 17 CFR 242.610(c) {adopted}"
    )
}

/// The form that is expected of the name of a participant or a symbol, in words.
fn name_expected(array: SetupArray) -> &'static str {
    match array {
        SetupArray::Participant => "a text in quotes, 1 to 4 of A to Z and 0 to 9",
        SetupArray::Symbol => "a text in quotes, 1 to 8 of A to Z, 0 to 9 and the point",
    }
}

/// The letter of the last of n feeds.
fn letter_of(feeds: u8) -> &'static str {
    match feeds {
        0 | 1 => "A",
        2 => "B",
        3 => "C",
        4 => "D",
        5 => "E",
        6 => "F",
        7 => "G",
        _ => "H",
    }
}

/// The keys that are expected in a table, one of which is missing or wrong.
pub(crate) fn keys_expected(table: SetupTable) -> &'static str {
    match table {
        SetupTable::Top => "one of tape_limit, queue, desks, caps, feeds, participant, symbol",
        SetupTable::Participant(_) => "one of name, feed, fee, rate",
        SetupTable::Symbol(_) => "one of name, lot",
    }
}
