//! The lines of a report on a refusal: its place in a file, what was found, and what to do (`specs/Plain`).
ghost use Rattle.std.specs.Prelude.{◌≡◌, true};
ghost use Rattle.std.specs.List.{list_all};
ghost use Rattle.nms_show.specs.Plain.{IsItemOf, if_any, is_own_plain, is_plain, is_plain_member, words_if};
ghost use Rattle.nms_show.specs.Safe.{IsSafe};
ghost use Rattle.nms_show.specs.Written.{Writes};

use crate::form::Form;
use crate::item::{Column, Item};
use crate::lines::{write_items, write_line, write_row};
use crate::object::write_object;
use crate::show_fault::ShowFault;
use crate::under::write_under;
use std::alloc::Global;
use std::io::Write;

/// The indent of each line of a report after the first.
const INDENT: &str = "    ";

/// A place in a file.
#[derive(Clone, Copy)]
pub struct Location<'a> {
    /// The file, as the call named it.
    pub file: &'a str,
    /// The line, counted from 1.
    pub line: u64,
    /// The column, counted from 1.
    pub column: u64,
}

/// A text of a file, and the part of it that is wrong.
#[derive(Clone, Copy)]
pub struct WrongPart<'a> {
    /// The record or the line.
    pub text: &'a [u8],
    /// The first byte of the part that is wrong, and the first byte after it.
    pub start: usize,
    pub end: usize,
}

/// Writes a line whose words from the program are printable ASCII, so the added text is safe to show. After a fault, the first
/// part of the line may have been written.
#[tactic(auto, using(crate::proofs::PlainFacts::plain_items))]
pub fn write_plain_line<W: Write>(
    answers: &mut W,
    form: Form,
    items: &[Item<'_>],
) -> Result<(), ShowFault>
    requires plain { list_all is_own_plain items.now ≡ true }
    ensures safe { Writes IsSafe (W.contents answers.old) (W.contents answers.new) result }
{
    write_line(answers, form, items)
}

/// Writes a row of a table. Its words from the program are printable ASCII, so the added text is safe to show.
#[tactic(auto, using(crate::proofs::PlainFacts::plain_columns))]
pub(crate) fn write_plain_row<W: Write>(
    answers: &mut W,
    form: Form,
    columns: &[Column<'_>],
) -> Result<(), ShowFault>
    requires { list_all (λ column. is_own_plain column.item) columns.now ≡ true }
    ensures safe { Writes IsSafe (W.contents answers.old) (W.contents answers.new) result }
{
    write_row(answers, form, columns)
}

/// Writes a JSON object as one line. Its keys and the program's words are printable ASCII, so the added text is safe to
/// show. It fails if memory runs out or the writer fails.
pub fn write_plain_object<W: Write>(
    alloc: Global,
    answers: &mut W,
    members: &[(&'static str, Item<'_>)],
) -> Result<(), ShowFault>
    requires plain { list_all is_plain_member members.now ≡ true }
    ensures safe { Writes IsSafe (W.contents answers.old) (W.contents answers.new) result }
{
    write_object(alloc, answers, members)
}

/// Writes a line with the place of a refusal: file, line, column and code, and then the given items. The writer is not flushed.
///
/// What is added is safe to show. After `WriteFault` a prefix of the line was written.
pub(crate) fn write_place<W: Write>(
    answers: &mut W,
    form: Form,
    at: Location<'_>,
    code: &'static str,
    items: &[Item<'_>],
) -> Result<(), ShowFault>
    requires code { is_plain code.now ≡ true }
    requires items { list_all is_own_plain items.now ≡ true }
    ensures safe { Writes IsSafe (W.contents answers.old) (W.contents answers.new) result }
{
    write_location(answers, form, at, code)?;
    write_plain_line(answers, form, items)
}

/// Writes a line with the place of a refusal, then the refused text, and carets under the part that is wrong. The writer is not
/// flushed.
///
/// What is added is safe to show. After `WriteFault` a prefix of the lines was written.
pub fn write_refused<W: Write>(
    answers: &mut W,
    form: Form,
    at: Location<'_>,
    code: &'static str,
    items: &[Item<'_>],
    wrong: WrongPart<'_>,
) -> Result<(), ShowFault>
    requires code { is_plain code.now ≡ true }
    requires items { list_all is_own_plain items.now ≡ true }
    ensures safe { Writes IsSafe (W.contents answers.old) (W.contents answers.new) result }
{
    write_place(answers, form, at, code, items)?;
    write_under(answers, form, wrong.text, wrong.start, wrong.end)
}

/// Writes file, line, column and code, without the end of the line.
fn write_location<W: Write>(
    answers: &mut W,
    form: Form,
    at: Location<'_>,
    code: &'static str,
) -> Result<(), ShowFault>
    requires code { is_plain code.now ≡ true }
    ensures safe { Writes IsSafe (W.contents answers.old) (W.contents answers.new) result }
{
    let items = [
        Item::Bytes(at.file.as_bytes()),
        Item::Text(":"),
        Item::Number(at.line),
        Item::Text(":"),
        Item::Number(at.column),
        Item::Text(": "),
        Item::Alarm(code),
    ];
    write_plain_items(answers, form, &items)
}

/// Writes items one after the other. The program's words in them are printable ASCII.
#[tactic(auto, using(crate::proofs::PlainFacts::plain_items))]
fn write_plain_items<W: Write>(
    answers: &mut W,
    form: Form,
    items: &[Item<'_>],
) -> Result<(), ShowFault>
    requires { list_all is_own_plain items.now ≡ true }
    ensures safe { Writes IsSafe (W.contents answers.old) (W.contents answers.new) result }
{
    write_items(answers, form, items)
}

/// Writes a line that says what was found and what is expected. The found item is between two given words. The writer is not
/// flushed.
///
/// What is added is safe to show. After `WriteFault` a prefix of the line was written.
pub fn write_found<'x, W: Write>(
    answers: &mut W,
    form: Form,
    words: (&'static str, &'static str),
    found: Item<'x>,
    expected: &'x str,
) -> Result<(), ShowFault>
    requires before { is_plain words.0.now ≡ true }
    requires after { is_plain words.1.now ≡ true }
    requires found { is_own_plain found ≡ true }
    ensures safe { Writes IsSafe (W.contents answers.old) (W.contents answers.new) result }
{
    let items = [
        Item::Text(INDENT),
        Item::Text(words.0),
        found,
        Item::Text(words.1),
        Item::Bytes(expected.as_bytes()),
    ];
    write_plain_line(answers, form, &items)
}

/// The words around a found value in a line that says what is expected. If no value was found, the line has only the expected
/// value.
pub fn words_round(found: Item<'_>) -> (&'static str, &'static str)
    ensures before { is_plain result.0.now ≡ true }
    ensures after { is_plain result.1.now ≡ true }
{
    if let Item::Absent = found {
        ("expected ", "")
    } else {
        ("found `", "`; expected ")
    }
}

/// Writes a line of advice, or nothing if there is no advice. The writer is not flushed.
///
/// What is added is safe to show, even if the advice quotes a file. After `WriteFault` a prefix of the line was written.
#[tactic(auto, using(crate::proofs::PlainFacts::nothing_added))]
pub fn write_advice<W: Write>(answers: &mut W, form: Form, advice: &str) -> Result<(), ShowFault>
    ensures safe { Writes IsSafe (W.contents answers.old) (W.contents answers.new) result }
{
    if advice.is_empty() {
        return Ok(());
    }
    let items = [Item::Text(INDENT), Item::Bytes(advice.as_bytes())];
    write_plain_line(answers, form, &items)
}

/// A text of a file or of the call; absent if there is none.
pub fn item_of(text: Option<&str>) -> Item<'_>
    ensures item { IsItemOf text.entry result }
    ensures plain { is_own_plain result ≡ true }
{
    match text {
        Some(text) => Item::Bytes(text.as_bytes()),
        None => Item::Absent,
    }
}

/// A text of a file or of the call; absent if it is empty.
pub fn item_if_any(text: &str) -> Item<'_>
    ensures item { IsItemOf (if_any text.entry) result }
    ensures plain { is_own_plain result ≡ true }
{
    if text.is_empty() {
        Item::Absent
    } else {
        Item::Bytes(text.as_bytes())
    }
}

/// Words before a text; absent if there is no text.
pub fn words_before(text: Option<&str>, words: &'static str) -> Item<'static>
    ensures item { result ≡ words_if text.entry words.entry }
    ensures plain { is_plain words.now ≡ true → is_own_plain result ≡ true }
{
    match text {
        Some(_) => Item::Text(words),
        None => Item::Absent,
    }
}
