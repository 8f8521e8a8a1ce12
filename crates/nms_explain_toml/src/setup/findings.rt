//! The faults of a document, in the form of a report.
ghost use Rattle.std.specs.Prelude.{◌≡◌, true};
ghost use Rattle.nms_show.specs.Plain.{is_own_plain};

use super::expected::{expected_at, keys_expected};
use super::hints::value_hint;
use super::locating::{locate_key, locate_table, row_of};
use super::nearest::{nearest_known, nearest_other};
use super::report::Report;
use super::sentences::sentence_of;
use super::telling::{Refusal, tell_refusal};
use crate::marked::{Marked, mark_at};
use nms_fees::SetupFault;
use nms_setup_places::{
    Choices, Finding, KnownKey, SetupArray, SetupTable, Spot, name_in, rows_at,
};
use nms_show::{Item, SafeText};
use std::alloc::{AllocError, Global};
use toml::{Table, Value};

/// How many faults a finding has: each key that is not allowed in a table is one.
pub(crate) fn faults_at(document: &Table, finding: &Finding) -> usize {
    match (finding.spot, members_of(document, finding.table)) {
        (Spot::OtherKeys, Some(members)) => members
            .keys()
            .filter(|key| !finding.table.has_key(key.as_str()))
            .count(),
        _ => 1,
    }
}

/// Reports a finding, up to n of its faults.
pub(crate) fn tell_finding(
    told: Report<'_>,
    choices: Choices,
    document: &Table,
    finding: &Finding,
    room: usize,
    out: &mut SafeText,
) -> Result<(), AllocError> {
    if room == 0 {
        return Ok(());
    }
    match finding.spot {
        Spot::OtherKeys => tell_others(told, document, finding.table, room, out),
        Spot::Key(key) => tell_key(told, choices, document, finding, key, out),
        Spot::Element => tell_element(told, finding, out),
        Spot::NameOf(first) => tell_again(told, document, finding, first, out),
    }
}

/// Reports the fault of a key that is allowed in a table.
fn tell_key(
    told: Report<'_>,
    choices: Choices,
    document: &Table,
    finding: &Finding,
    key: KnownKey,
    out: &mut SafeText,
) -> Result<(), AllocError> {
    let expected = expected_at(out.alloc(), choices, finding.table, key)?;
    let text = expected.as_str();
    match members_of(document, finding.table) {
        Some(members) if finding.fault == SetupFault::Missing => {
            tell_absent(told, document, finding.table, members, key, text, out)
        }
        Some(members) => tell_value(told, document, finding, members, key, text, out),
        None => Ok(()),
    }
}

/// Reports that a key is absent, and which similar key the table has.
fn tell_absent<'a>(
    told: Report<'a>,
    document: &'a Table,
    table: SetupTable,
    members: &'a Table,
    key: KnownKey,
    expected: &'a str,
    out: &mut SafeText,
) -> Result<(), AllocError> {
    let hint = absent_hint(out.alloc(), table, members, key)?;
    let fault = SetupFault::Missing;
    let refusal = Refusal {
        file: told.file,
        marked: marked_table(told, table),
        fault,
        sentence: sentence_of(fault),
        table: Some(table),
        name: row_name(document, table),
        key: Some(key.text()),
        found: Item::Absent,
        expected,
        hint: hint.as_str(),
    };
    tell_refusal(&refusal, out)
}

/// The key that a table probably has instead of an absent one.
fn absent_hint(
    alloc: Global,
    table: SetupTable,
    members: &Table,
    key: KnownKey,
) -> Result<String, AllocError> {
    match nearest_other(alloc, table, members, key)? {
        Some(other) => format!(in alloc; "`{other}` stands there: is it misspelt?"),
        None => Ok(String::new(alloc)),
    }
}

/// Reports the fault of a key's value.
fn tell_value<'a>(
    told: Report<'a>,
    document: &'a Table,
    finding: &Finding,
    members: &'a Table,
    key: KnownKey,
    expected: &'a str,
    out: &mut SafeText,
) -> Result<(), AllocError> {
    let table = finding.table;
    let Some(value) = members.get(key.text()) else {
        return Ok(());
    };
    let at_key = locate_key(told.lines, told.text, table, key.text().as_bytes());
    let refusal = Refusal {
        file: told.file,
        marked: at_key.unwrap_or(marked_table(told, table)),
        fault: finding.fault,
        sentence: sentence_of(finding.fault),
        table: Some(table),
        name: row_name(document, table),
        key: Some(key.text()),
        found: found_at(at_key, finding.fault, value),
        expected,
        hint: value_hint(finding, value),
    };
    tell_refusal(&refusal, out)
}

/// What is found at a key: how many tables, if their number is refused; else the value as it is written. If its line was not
/// found, the kind of the value.
fn found_at<'a>(at_key: Option<Marked<'a>>, fault: SetupFault, value: &'a Value) -> Item<'a>
    ensures { is_own_plain result ≡ true }
{
    if let Some(rows) = counted_at(fault, value) {
        return Item::Number(rows as u64);
    }
    let written = match at_key {
        Some(marked) => marked.value(),
        None => value.type_str().as_bytes(),
    };
    Item::Bytes(written)
}

/// How many tables there are, if their number is refused.
fn counted_at(fault: SetupFault, value: &Value) -> Option<usize> {
    match fault {
        SetupFault::OutOfRange | SetupFault::TooMany => Some(value.as_array()?.len()),
        SetupFault::NotToml
        | SetupFault::Missing
        | SetupFault::UnknownKey
        | SetupFault::BadName
        | SetupFault::WrongType
        | SetupFault::OverCap
        | SetupFault::NoMemory => None,
    }
}

/// Reports each key that is not allowed in a table, up to n.
fn tell_others(
    told: Report<'_>,
    document: &Table,
    table: SetupTable,
    room: usize,
    out: &mut SafeText,
) -> Result<(), AllocError> {
    let Some(members) = members_of(document, table) else {
        return Ok(());
    };
    let mut left = room;
    for key in members.keys() {
        if left == 0 {
            break;
        }
        if !table.has_key(key.as_str()) {
            tell_other(told, document, table, members, key.as_str(), out)?;
            left -= 1;
        }
    }
    Ok(())
}

/// Reports one key that is not allowed in a table, with the nearest known key.
fn tell_other<'a>(
    told: Report<'a>,
    document: &'a Table,
    table: SetupTable,
    members: &'a Table,
    key: &'a str,
    out: &mut SafeText,
) -> Result<(), AllocError> {
    let hint = other_hint(out.alloc(), table, members, key)?;
    let marked = match locate_key(told.lines, told.text, table, key.as_bytes()) {
        Some(marked) => marked.at_key(),
        None => marked_table(told, table),
    };
    let fault = SetupFault::UnknownKey;
    let refusal = Refusal {
        file: told.file,
        marked,
        fault,
        sentence: sentence_of(fault),
        table: Some(table),
        name: row_name(document, table),
        key: Some(key),
        found: Item::Bytes(key.as_bytes()),
        expected: keys_expected(table),
        hint: hint.as_str(),
    };
    tell_refusal(&refusal, out)
}

/// The known key that another key probably means.
fn other_hint(
    alloc: Global,
    table: SetupTable,
    members: &Table,
    key: &str,
) -> Result<String, AllocError> {
    match nearest_known(alloc, table, members, key)? {
        Some(known) => {
            let known = known.text();
            format!(in alloc; "did you mean `{known}`?")
        }
        None => Ok(String::new(alloc)),
    }
}

/// Reports an element of an array that is no table.
fn tell_element<'a>(
    told: Report<'a>,
    finding: &Finding,
    out: &mut SafeText,
) -> Result<(), AllocError> {
    let marked = marked_table(told, finding.table);
    let refusal = Refusal {
        file: told.file,
        marked,
        fault: finding.fault,
        sentence: sentence_of(finding.fault),
        table: Some(finding.table),
        name: None,
        key: None,
        found: Item::Bytes(marked.value()),
        expected: "a table, as after a line [[participant]] or [[symbol]]",
        hint: "",
    };
    tell_refusal(&refusal, out)
}

/// Reports a name that an earlier element of the array has.
fn tell_again<'a>(
    told: Report<'a>,
    document: &'a Table,
    finding: &Finding,
    first: usize,
    out: &mut SafeText,
) -> Result<(), AllocError> {
    // The sum is never too great, because no memory has room for more elements.
    let Some(place) = first.checked_add(1) else {
        return Err(AllocError);
    };
    let alloc = out.alloc();
    let expected = format!(in alloc; "a name of its own: number {place} has it too")?;
    let at_key = locate_key(told.lines, told.text, finding.table, b"name");
    let name = row_name(document, finding.table);
    let refusal = Refusal {
        file: told.file,
        marked: at_key.unwrap_or(marked_table(told, finding.table)),
        fault: finding.fault,
        sentence: "a name that stands twice",
        table: Some(finding.table),
        name,
        key: Some("name"),
        found: match name {
            Some(name) => Item::Bytes(name.as_bytes()),
            None => Item::Absent,
        },
        expected: expected.as_str(),
        hint: "",
    };
    tell_refusal(&refusal, out)
}

/// The line to report for a table: its first line, or that of its array's key, or the first line of the text.
fn marked_table<'a>(told: Report<'a>, table: SetupTable) -> Marked<'a> {
    let first = mark_at(told.text, 0, 0);
    let Some((array, _)) = row_of(table) else {
        return first;
    };
    if let Some(marked) = locate_table(told.lines, told.text, table) {
        return marked;
    }
    let key = array.key().text().as_bytes();
    locate_key(told.lines, told.text, SetupTable::Top, key).unwrap_or(first)
}

/// The keys at a place of a document, if that is a table.
fn members_of(document: &Table, table: SetupTable) -> Option<&Table> {
    match table {
        SetupTable::Top => Some(document),
        SetupTable::Participant(_) | SetupTable::Symbol(_) => {
            element_of(document, table)?.as_table()
        }
    }
}

/// The value of a participant or a symbol in a document, by its place in its array.
fn element_of(document: &Table, table: SetupTable) -> Option<&Value> {
    let (array, place) = row_of(table)?;
    rows_at(document, array.key().text()).get(place)
}

/// The name of a participant or a symbol in a document, by its place in its array, if it has a name.
fn row_name(document: &Table, table: SetupTable) -> Option<&str> {
    name_in(element_of(document, table)?)
}
