//! Printing one fault of a mapping.
ghost use Rattle.std.specs.Prelude.{◌≡◌, ◌&&◌, IfOk, true};
ghost use Rattle.std.specs.List.{list_all};
ghost use Rattle.nms_show.specs.Plain.{is_own_plain, is_plain};
ghost use Rattle.nms_show.specs.Safe.{IsSafe};
ghost use Rattle.nms_show.specs.Written.{Writes};

use super::nearest::meant_by;
use crate::marked::{Marked, mark_at};
use crate::marking::{write_finding, write_marked};
use crate::named::locate_named;
use crate::setup::element_in;
use crate::told::Told;
use crate::toml_line::value_in;
use nms_import::{Draft, Finding, Wrong, keys_text, written_as};
use nms_show::{
    Ending, Form, Item, ShowFault, item_of, words_before, write_plain_line, write_plain_object,
};
use std::alloc::{AllocError, Global};
use std::io::Write;

/// A fault, with the facts that are printed.
#[derive(Clone, Copy)]
struct Refusal<'a> {
    /// The file, as the call named it.
    file: &'a str,
    marked: Marked<'a>,
    code: &'static str,
    sentence: &'static str,
    /// The table and the key; none if the text is no document.
    table: Option<&'static str>,
    key: Option<&'a str>,
    /// What is found in the text at the key.
    found: Item<'a>,
    /// What is expected at the key; or the parser's message, if the text is no document.
    expected: &'a str,
    /// The key that was meant, or a similar one if the key is absent.
    meant: Option<&'a str>,
}

/// Prints where and why a text is no TOML document.
pub(crate) fn tell_no_toml<'a, W: Write>(
    told: Told<'a>,
    start: usize,
    end: usize,
    expected: &'a str,
    answers: &mut W,
) -> Result<Ending, ShowFault>
    ensures ending { IfOk result (λ ending. ending ≡ Ending.SetupRefused) }
    ensures safe { Writes IsSafe (W.contents answers.old) (W.contents answers.new) result }
{
    let refusal = Refusal {
        file: told.file,
        marked: mark_at(told.text, start, end),
        code: "M1",
        sentence: "the text is no TOML document",
        table: None,
        key: None,
        found: Item::Absent,
        expected,
        meant: None,
    };
    tell_refusal(told.alloc, told.form, &refusal, answers)?;
    tell_summary(told, 1, false, answers)?;
    Ok(Ending::SetupRefused)
}

/// Prints a fault of a document.
pub(crate) fn tell_finding<'a, W: Write>(
    told: Told<'a>,
    draft: Draft<'a>,
    finding: &Finding<'a>,
    answers: &mut W,
) -> Result<(), ShowFault>
    ensures safe { Writes IsSafe (W.contents answers.old) (W.contents answers.new) result }
{
    let Ok(others) = others_text(told.alloc, draft, finding) else {
        return Err(ShowFault::NoMemory);
    };
    let table = written_as(draft.meant, "", finding.table);
    let key = written_as(draft.meant, finding.table, finding.key);
    let at_key = located(told.text, table, key, finding.word);
    let refusal = Refusal {
        file: told.file,
        marked: part_at(finding.wrong, at_key, marked_table(told.text, table)),
        code: finding.wrong.code(),
        sentence: sentence_of(finding.wrong),
        table: Some(finding.table),
        key: Some(finding.key),
        found: found_at(finding, at_key),
        expected: match finding.wrong {
            Wrong::Unknown => others.as_str(),
            Wrong::Missing | Wrong::BadValue => finding.expected,
        },
        meant: match finding.wrong {
            Wrong::Unknown => meant_by(draft.meant, finding.table, finding.key),
            Wrong::Missing | Wrong::BadValue => None,
        },
    };
    tell_refusal(told.alloc, told.form, &refusal, answers)
}

/// The keys that are allowed instead of an unknown one.
fn others_text(
    alloc: Global,
    draft: Draft<'_>,
    finding: &Finding<'_>,
) -> Result<String, AllocError> {
    match finding.wrong {
        Wrong::Unknown => keys_text(alloc, draft.kind, finding.table, finding.key),
        Wrong::Missing | Wrong::BadValue => Ok(String::new(alloc)),
    }
}

/// The place of a key with its value, or of a word of its list.
fn located<'a>(text: &'a [u8], table: &str, key: &str, word: Option<usize>) -> Option<Marked<'a>> {
    let at_key = locate_named(text, table.as_bytes(), key.as_bytes())?;
    let at_word = match word {
        Some(word) => word_in(text, at_key, word),
        None => None,
    };
    Some(at_word.unwrap_or(at_key))
}

/// The place of a word of a list that begins at the marked value.
fn word_in<'a>(text: &'a [u8], at_key: Marked<'a>, word: usize) -> Option<Marked<'a>> {
    let begins = at_key.before.checked_add(at_key.pair.start)?;
    let at = begins.checked_add(element_in(text.get(begins..)?, word)?)?;
    let marked = mark_at(text, at, text.len());
    let start = marked.pair.start;
    let end = start.checked_add(value_in(marked.value()).len())?;
    Some(marked.at(start, end))
}

/// The part of the text that is reported. It is the key or its value if its line was found, else its table.
fn part_at<'a>(wrong: Wrong, at_key: Option<Marked<'a>>, at_table: Marked<'a>) -> Marked<'a> {
    match (wrong, at_key) {
        (Wrong::Unknown, Some(marked)) => marked.at_key(),
        (Wrong::BadValue, Some(marked)) => marked,
        (Wrong::Unknown | Wrong::BadValue | Wrong::Missing, _) => at_table,
    }
}

/// What is found at a place: the unknown key, or the value that is not allowed, if its line was found.
fn found_at<'a>(finding: &Finding<'a>, at_key: Option<Marked<'a>>) -> Item<'a>
    ensures { is_own_plain result ≡ true }
{
    match (finding.wrong, at_key) {
        (Wrong::Unknown, _) => Item::Bytes(finding.key.as_bytes()),
        (Wrong::BadValue, Some(marked)) => Item::Bytes(marked.value()),
        (Wrong::BadValue | Wrong::Missing, _) => Item::Absent,
    }
}

/// A fault of a document, in words.
fn sentence_of(wrong: Wrong) -> &'static str
    ensures { is_plain result.now ≡ true }
{
    match wrong {
        Wrong::Missing => "a key is absent",
        Wrong::Unknown => "a key that is not known",
        Wrong::BadValue => "a value that is not allowed",
    }
}

/// The line to report for a table: its header, or the first line of the text.
fn marked_table<'a>(text: &'a [u8], table: &str) -> Marked<'a> {
    let header = if table.is_empty() {
        None
    } else {
        locate_named(text, b"", table.as_bytes())
    };
    header.unwrap_or(mark_at(text, 0, 0))
}

/// Writes a fault: its place in the file, the line with carets under what is wrong, what was found and what is expected.
fn tell_refusal<W: Write>(
    alloc: Global,
    form: Form,
    refusal: &Refusal<'_>,
    answers: &mut W,
) -> Result<(), ShowFault>
    requires code { is_plain refusal.now.code.now ≡ true }
    requires sentence { is_plain refusal.now.sentence.now ≡ true }
    requires found { is_own_plain refusal.now.found ≡ true }
    ensures safe { Writes IsSafe (W.contents answers.old) (W.contents answers.new) result }
{
    if form.is_json() {
        return tell_object(alloc, refusal, answers);
    }
    tell_place(form, refusal, answers)?;
    let (found, expected) = (refusal.found, refusal.expected);
    write_finding(answers, form, refusal.table.is_some(), found, expected)?;
    tell_meant(form, refusal.meant, answers)
}

/// Writes the line of a fault's place, and the mapping's line with carets under what is wrong.
fn tell_place<W: Write>(form: Form, refusal: &Refusal<'_>, answers: &mut W) -> Result<(), ShowFault>
    requires code { is_plain refusal.now.code.now ≡ true }
    requires sentence { is_plain refusal.now.sentence.now ≡ true }
    ensures safe { Writes IsSafe (W.contents answers.old) (W.contents answers.new) result }
{
    let items = [
        words_before(refusal.table, ": "),
        table_item(refusal.table),
        words_before(refusal.key, ", key "),
        item_of(refusal.key),
        Item::Text(": "),
        Item::Text(refusal.sentence),
    ];
    let (file, marked) = (refusal.file, refusal.marked);
    write_marked(answers, form, file, marked, refusal.code, &items)
}

/// The name of a table, if there is one.
fn table_item(table: Option<&'static str>) -> Item<'static>
    ensures { is_own_plain result ≡ true }
{
    match table {
        Some("") => Item::Text("top"),
        Some(table) => Item::Bytes(table.as_bytes()),
        None => Item::Absent,
    }
}

/// Writes the key that was meant, if there is one.
fn tell_meant<W: Write>(form: Form, meant: Option<&str>, answers: &mut W) -> Result<(), ShowFault>
    ensures safe { Writes IsSafe (W.contents answers.old) (W.contents answers.new) result }
{
    let Some(meant) = meant else {
        return Ok(());
    };
    let items = [
        Item::Text("    did you mean `"),
        Item::Bytes(meant.as_bytes()),
        Item::Text("`?"),
    ];
    write_plain_line(answers, form, &items)
}

/// Writes a fault as a JSON object.
fn tell_object<W: Write>(
    alloc: Global,
    refusal: &Refusal<'_>,
    answers: &mut W,
) -> Result<(), ShowFault>
    requires code { is_plain refusal.now.code.now ≡ true }
    requires found { is_own_plain refusal.now.found ≡ true }
    ensures safe { Writes IsSafe (W.contents answers.old) (W.contents answers.new) result }
{
    let members = [
        ("what", Item::Text("refusal")),
        ("file", Item::Bytes(refusal.file.as_bytes())),
        ("line", Item::Number(refusal.marked.number)),
        ("column", Item::Number(refusal.marked.column())),
        ("code", Item::Text(refusal.code)),
        ("table", table_item(refusal.table)),
        ("key", item_of(refusal.key)),
        ("text", Item::Bytes(refusal.marked.line)),
        ("found", refusal.found),
        ("expected", Item::Bytes(refusal.expected.as_bytes())),
        ("meant", item_of(refusal.meant)),
    ];
    write_plain_object(alloc, answers, &members)
}

/// Writes how many faults of a mapping were reported, and whether there are more.
pub(crate) fn tell_summary<W: Write>(
    told: Told<'_>,
    faults: u64,
    more: bool,
    answers: &mut W,
) -> Result<(), ShowFault>
    ensures safe { Writes IsSafe (W.contents answers.old) (W.contents answers.new) result }
{
    if told.form.is_json() {
        let members = [
            ("what", Item::Text("summary")),
            ("file", Item::Bytes(told.file.as_bytes())),
            ("faults", Item::Number(faults)),
            ("more", Item::Flag(more)),
        ];
        return write_plain_object(told.alloc, answers, &members);
    }
    let items = [
        Item::Bytes(told.file.as_bytes()),
        Item::Text(": faults: "),
        Item::Number(faults),
        more_item(more),
    ];
    write_plain_line(answers, told.form, &items)
}

/// The words that say that more faults were found than were printed, if that is so.
fn more_item(more: bool) -> Item<'static>
    ensures { is_own_plain result ≡ true }
{
    if more {
        Item::Text(", and there are more")
    } else {
        Item::Absent
    }
}
