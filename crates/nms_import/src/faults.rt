//! All faults of a mapping's document: `specs/Findings`.
ghost use Rattle.std.specs.Prelude.{codes, ◌≡◌, ◌++◌, ◌∷◌, [], map, option_map, IfErr, IfOk, OnOk};
ghost use Rattle.std.specs.List.{list_any};
ghost use Rattle.toml.specs.View.{table_view, view};
ghost use Rattle.nms_import.specs.Findings.{Adds, IsFirst, absent_expected, absent_faults, fault, fault_of, faults_of, form_expected, is_earlier, is_replaced, column_wrong, is_text, is_wrong, key_faults, keys_faults, list_in, name_expected, names_faults, refused_at, table_faults, tables_faults, text_expected, unknown_faults, unknown_in, value_expected, value_faults, word_expected, words_faults};
ghost use Rattle.nms_import.specs.Drafts.{doc_of, members_at, names_in};
ghost use Rattle.nms_import.specs.Keys.{see};

use crate::draft::{Draft, items_in, value_in};
use crate::keys::{A_LIST, Form, IN_NO_OTHER, ONE_OR_TWO, Row, SAME, is_key, is_of};
use crate::map_fault::{Finding, MapFault, Wrong};
use crate::right::{column_expected, has_named, is_right};
use std::alloc::{AllocError, Global};
use toml::{Table, Value};

/// The faults that were found so far.
type Found<'a> = Vec<Finding<'a>>;

/// Whether there was memory to note one more fault.
type Noted = Result<(), AllocError>;

/// Refuses a document for its first fault.
pub fn check(alloc: Global, draft: Draft<'_>) -> Result<(), MapFault<'_>>
    ensures faultless { OnOk result (faults_of (doc_of draft.entry) ≡ []) }
    ensures refused { IfErr result (IsFirst (faults_of (doc_of draft.entry))) }
{
    let found = find_faults(alloc, draft)?;
    match found.first() {
        Some(finding) => Err(MapFault::Refused(*finding)),
        None => Ok(()),
    }
}

/// Every fault of a document, table by table. In each table the unknown keys come first, and then the other faults in the order
/// of the keys.
pub fn find_faults<'a>(alloc: Global, draft: Draft<'a>) -> Result<Vec<Finding<'a>>, AllocError>
    ensures { IfOk result (λ found. map fault_of found.items ≡ faults_of (doc_of draft.entry)) }
{
    let mut found = Vec::new(alloc);
    note_table(&mut found, draft, "")?;
    note_tables(&mut found, draft)?;
    Ok(found)
}

/// Notes a fault.
fn note<'a>(
    found: &mut Found<'a>,
    table: &'static str,
    key: &'a str,
    word: Option<usize>,
    wrong: Wrong,
    expected: &'static str,
) -> Noted
    ensures { OnOk result (Adds found.old.items found.new.items (fault table.now key.now word wrong expected.now ∷ [])) }
{
    found.push(Finding {
        table,
        key,
        word,
        wrong,
        expected,
    })?;
    Ok(())
}

/// Notes a wrong value, or a wrong word of a list, with what is expected in its place. `None` means that it is right.
fn note_refused<'a>(
    found: &mut Found<'a>,
    table: &'static str,
    key: &'a str,
    word: Option<usize>,
    expected: Option<&'static str>,
) -> Noted
    ensures { OnOk result (Adds found.old.items found.new.items (refused_at table.now key.now word (option_map (λ it. it.now) expected.entry))) }
{
    match expected {
        Some(expected) => note(found, table, key, word, Wrong::BadValue, expected),
        None => Ok(()),
    }
}

/// Notes the faults of each table.
fn note_tables<'a>(found: &mut Found<'a>, draft: Draft<'a>) -> Noted
    ensures { OnOk result (Adds found.old.items found.new.items (tables_faults (doc_of draft.entry) (doc_of draft.entry).keys)) }
{
    for row in draft.keys {
        if is_of(row, draft.kind, "") {
            note_table(found, draft, row.1)?;
        }
    }
    Ok(())
}

/// Notes the faults of a table.
fn note_table<'a>(found: &mut Found<'a>, draft: Draft<'a>, table: &'static str) -> Noted
    ensures { OnOk result (Adds found.old.items found.new.items (table_faults (doc_of draft.entry) table.now)) }
{
    note_unknown(found, draft, table)?;
    note_keys(found, draft, table)
}

/// Notes the keys of a table that are not known.
fn note_unknown<'a>(found: &mut Found<'a>, draft: Draft<'a>, table: &'static str) -> Noted
    ensures { OnOk result (Adds found.old.items found.new.items (unknown_in (doc_of draft.entry) table.now (members_at (doc_of draft.entry) table.now))) }
{
    match draft.members(table) {
        Some(members) => note_others(found, draft, table, members),
        None => Ok(()),
    }
}

/// Notes the names of a table's members that are no keys.
fn note_others<'a>(
    found: &mut Found<'a>,
    draft: Draft<'a>,
    table: &'static str,
    members: &'a Table,
) -> Noted
    ensures { OnOk result (Adds found.old.items found.new.items (unknown_faults (doc_of draft.entry) table.now (names_in (table_view members.now)))) }
{
    for name in members.keys() {
        let key = name.as_str();
        if !is_key(draft.keys, draft.kind, table, key) {
            note(found, table, key, None, Wrong::Unknown, "")?;
        }
    }
    Ok(())
}

/// Notes the faults of a table's keys.
fn note_keys<'a>(found: &mut Found<'a>, draft: Draft<'a>, table: &'static str) -> Noted
    ensures { OnOk result (Adds found.old.items found.new.items (keys_faults (doc_of draft.entry) table.now (doc_of draft.entry).keys)) }
{
    for row in draft.keys {
        if is_of(row, draft.kind, table) {
            note_key(found, draft, row)?;
        }
    }
    Ok(())
}

/// Notes the faults of a key.
fn note_key<'a>(found: &mut Found<'a>, draft: Draft<'a>, row: &Row) -> Noted
    ensures { OnOk result (Adds found.old.items found.new.items (key_faults (doc_of draft.entry) (see row.now))) }
{
    if row.3.0.is_name() {
        return match draft.members(row.0) {
            Some(members) => note_names(found, row, members),
            None => Ok(()),
        };
    }
    match draft.value(row.0, row.1) {
        Some(value) => note_value(found, draft, row, value),
        None => note_absent(found, draft, row),
    }
}

/// Notes a key that is needed but absent, unless the document has another key in its place.
fn note_absent<'a>(found: &mut Found<'a>, draft: Draft<'a>, row: &Row) -> Noted
    ensures { OnOk result (Adds found.old.items found.new.items (absent_faults (doc_of draft.entry) (see row.now))) }
{
    if !row.3.1 || is_replaced(draft, row) {
        return Ok(());
    }
    let expected = absent_expected(draft, row);
    note(found, row.0, row.1, None, Wrong::Missing, expected)
}

/// Whether the document has another key in place of a column's key.
fn is_replaced(draft: Draft<'_>, row: &Row) -> bool
    ensures { result ≡ is_replaced (doc_of draft.entry) (see row.now) }
{
    row.3.0.is_column() && has_named(draft, row)
}

/// What is expected at a key that is needed but absent.
fn absent_expected(draft: Draft<'_>, row: &Row) -> &'static str
    ensures { result.now ≡ absent_expected (doc_of draft.entry) (see row.now) }
{
    if row.3.3.is_empty() {
        column_expected(draft)
    } else {
        row.3.3
    }
}

/// Notes the values in the table of participants that are no participants' names.
fn note_names<'a>(found: &mut Found<'a>, row: &Row, members: &'a Table) -> Noted
    ensures { OnOk result (Adds found.old.items found.new.items (names_faults (see row.now) (table_view members.now) (names_in (table_view members.now)))) }
{
    for name in members.keys() {
        let key = name.as_str();
        let expected = name_expected(row, key, value_in(members, key));
        note_refused(found, row.0, key, None, expected)?;
    }
    Ok(())
}

/// What is expected instead of a value that is no name of a participant.
fn name_expected(row: &Row, key: &str, value: Option<&Value>) -> Option<&'static str>
    ensures { option_map (λ it. it.now) result ≡ name_expected (see row.now) key.now (option_map (λ it. view it.now) value.entry) }
{
    let Some(value) = value else {
        return None;
    };
    match value.as_str() {
        Some(text) if text != "same" && key == "*" => Some(SAME),
        Some(_) => None,
        None => Some(row.3.3),
    }
}

/// Notes the faults of a value at a key, or of the words of its list.
fn note_value<'a>(found: &mut Found<'a>, draft: Draft<'a>, row: &Row, value: &Value) -> Noted
    ensures { OnOk result (Adds found.old.items found.new.items (value_faults (doc_of draft.entry) (see row.now) (view value.now))) }
{
    match list_in(row.3.0, value) {
        Some(words) => note_words(found, draft, row, words),
        None => note_refused(found, row.0, row.1, None, value_expected(draft, row, value)),
    }
}

/// The words of a list, if a list is allowed there and the value is one.
fn list_in(form: Form, value: &Value) -> Option<&[Value]>
    ensures { option_map (λ words. map view words.now) result ≡ list_in form (view value.now) }
{
    match items_in(value) {
        Some(words) if form.is_list() => Some(words),
        Some(words) if form.is_columns() && (words.len() == 1 || words.len() == 2) => Some(words),
        Some(_) | None => None,
    }
}

/// What is expected instead of a value that is no list; `None` if the value is right.
fn value_expected(draft: Draft<'_>, row: &Row, value: &Value) -> Option<&'static str>
    ensures { option_map (λ it. it.now) result ≡ value_expected (doc_of draft.entry) (see row.now) (view value.now) }
{
    if is_right(draft, row, value) {
        None
    } else {
        Some(form_expected(draft, row, value))
    }
}

/// What is expected at a key that has a wrong value.
fn form_expected(draft: Draft<'_>, row: &Row, value: &Value) -> &'static str
    ensures { result.now ≡ form_expected (doc_of draft.entry) (see row.now) (view value.now) }
{
    if row.3.0.is_columns() && value.as_array().is_some() {
        ONE_OR_TWO
    } else if row.3.0.is_columns() || row.3.0.is_column() {
        column_expected(draft)
    } else if row.3.0.is_list() {
        A_LIST
    } else {
        row.3.3
    }
}

/// Notes the wrong words of a list.
fn note_words<'a>(found: &mut Found<'a>, draft: Draft<'a>, row: &Row, words: &[Value]) -> Noted
    ensures { OnOk result (Adds found.old.items found.new.items (words_faults (doc_of draft.entry) (see row.now) [] (map view words.now))) }
{
    for place in 0..words.len() {
        let (before, after) = (&words[..place], &words[place + 1..]);
        let expected = word_expected(draft, row, before, &words[place], after);
        note_refused(found, row.0, row.1, Some(place), expected)?;
    }
    Ok(())
}

/// What is expected instead of a word of a list, if the word is wrong.
fn word_expected(
    draft: Draft<'_>,
    row: &Row,
    before: &[Value],
    word: &Value,
    after: &[Value],
) -> Option<&'static str>
    ensures { option_map (λ it. it.now) result ≡ word_expected (doc_of draft.entry) (see row.now) (map view before.now) (view word.now) (map view after.now) }
{
    if row.3.0.is_columns() {
        return column_wrong(draft, row, word);
    }
    match word.as_str() {
        Some(text) => text_expected(draft, row, before, text, after),
        None => Some(A_LIST),
    }
}

/// What is expected instead of one of two columns, if it is no column.
fn column_wrong(draft: Draft<'_>, row: &Row, word: &Value) -> Option<&'static str>
    ensures { option_map (λ it. it.now) result ≡ column_wrong (doc_of draft.entry) (see row.now) (view word.now) }
{
    if is_right(draft, row, word) {
        None
    } else {
        Some(column_expected(draft))
    }
}

/// What is expected instead of a text of a list, if the text is wrong.
fn text_expected(
    draft: Draft<'_>,
    row: &Row,
    before: &[Value],
    text: &str,
    after: &[Value],
) -> Option<&'static str>
    ensures { option_map (λ it. it.now) result ≡ text_expected (doc_of draft.entry) (see row.now) (map view before.now) text.now (map view after.now) }
{
    if is_wrong(draft, row, before, text, after) {
        Some(row.3.3)
    } else if row.3.0.is_others() && is_earlier(draft, row, text) {
        Some(IN_NO_OTHER)
    } else {
        None
    }
}

/// Whether a text of a list is wrong.
fn is_wrong(draft: Draft<'_>, row: &Row, before: &[Value], text: &str, after: &[Value]) -> bool
    ensures { result ≡ is_wrong (see row.now).form (doc_of draft.entry) (see row.now) (map view before.now) text.now (map view after.now) }
{
    match row.3.0 {
        Form::Pairs => text.len() != 1 || after.is_empty() && before.len() % 2 == 0,
        Form::Conditions => has_text(before, text) || is_earlier(draft, row, text),
        Form::Letters | Form::Others => text.len() != 1,
        Form::Table
        | Form::Choice
        | Form::Delimiter
        | Form::Flag
        | Form::Text
        | Form::Count
        | Form::Column
        | Form::Columns
        | Form::Instead
        | Form::SizeUnit
        | Form::Lot
        | Form::Zone
        | Form::ZoneName
        | Form::Name
        | Form::Words => false,
    }
}

/// Whether an earlier list of a key's table has a text.
fn is_earlier(draft: Draft<'_>, row: &Row, text: &str) -> bool
    ensures { result ≡ is_earlier (doc_of draft.entry) (see row.now) text.now }
{
    for other in draft.keys {
        if other.0 == row.0 {
            if other.1 == row.1 {
                return false;
            }
            if has_text(draft.items(other.0, other.1), text) {
                return true;
            }
        }
    }
    false
}

/// Whether a text is one of the words.
fn has_text(words: &[Value], text: &str) -> bool
    ensures { result ≡ list_any (is_text text.now) (map view words.now) }
{
    for word in words {
        if word.as_str() == Some(text) {
            return true;
        }
    }
    false
}
