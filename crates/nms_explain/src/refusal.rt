//! One refusal, and how it is reported.
ghost use Rattle.std.specs.Prelude.{◌≡◌, true};
ghost use Rattle.nms_show.specs.Plain.{is_own_plain, is_plain};

use crate::line_count::LineCount;
use crate::places::{FieldName, FieldPlace};
use crate::refusal_code::RefusalCode;
use crate::span::{Point, Span, point_at};
use nms_codes::Code;
use nms_show::{Item, Location, SafeText, WrongPart, item_if_any};
use std::alloc::AllocError;

/// A refused record, with the report about it.
#[derive(Clone, Copy)]
pub(crate) struct Refusal<'a> {
    /// The file, as the call named it.
    pub(crate) file: &'a str,
    /// The record's number, counted from 1.
    pub(crate) number: u64,
    /// The line of the file on which the record begins, counted from 1.
    pub(crate) line: u64,
    /// The record's text.
    pub(crate) text: &'a [u8],
    /// The part of the text that is wrong.
    pub(crate) span: Span,
    /// The code of the refusal.
    pub(crate) code: RefusalCode,
    /// The field that is wrong, if one is.
    pub(crate) field: Option<FieldPlace>,
    /// What is found in the wrong field, or how many fields the record has.
    pub(crate) found: Item<'a>,
    /// What is expected instead of what was found.
    pub(crate) expected: &'a str,
    /// What the record looks like instead, or an empty text.
    pub(crate) hint: &'a str,
    /// What to do about the refusal.
    pub(crate) remedy: &'a str,
    /// The place of the quote that opens a field which goes on over a line end, or to the end of the file.
    pub(crate) quote: Option<Point>,
}

impl Refusal<'_> {
    /// The place in the file at which the wrong part begins; none if there are more lines than a number counts.
    pub(crate) fn point(&self) -> Option<Point> {
        point_at(self.text, LineCount::at(self.line), self.span.start)
    }
}

/// Writes a refusal: its place in the file, the record with carets under what is wrong, what was found and what is expected. It
/// also writes where a quote opens that goes on, what the record looks like instead, and what to do.
pub(crate) fn tell_refusal(
    refusal: &Refusal<'_>,
    point: Point,
    out: &mut SafeText,
) -> Result<(), AllocError>
    requires found { is_own_plain refusal.now.found ≡ true }
{
    if out.is_json() {
        return tell_object(refusal, point, out);
    }
    tell_place(refusal, point, out)?;
    out.found(words_round(refusal), refusal.found, refusal.expected)?;
    tell_quote(refusal, out)?;
    out.advice(refusal.hint)?;
    out.advice(refusal.remedy)
}

/// Writes the line of a refusal's place, and the record with carets under what is wrong.
fn tell_place(refusal: &Refusal<'_>, point: Point, out: &mut SafeText) -> Result<(), AllocError> {
    let (field, number, comma, name) = words_of(refusal.field);
    let items = [
        Item::Text(": record "),
        Item::Number(refusal.number),
        Item::Text(field),
        number,
        Item::Text(comma),
        name,
    ];
    let wrong = WrongPart {
        text: refusal.text,
        start: refusal.span.start,
        end: refusal.span.end,
    };
    let at = point.of_file(refusal.file);
    out.refused(at, refusal.code.text(), &items, wrong)
}

/// The words that name a field, with its number and its name.
fn words_of<'a>(field: Option<FieldPlace>) -> (&'a str, Item<'a>, &'a str, Item<'a>)
    ensures field { is_plain result.0.now ≡ true }
    ensures number { is_own_plain result.1 ≡ true }
    ensures comma { is_plain result.2.now ≡ true }
    ensures name { is_own_plain result.3 ≡ true }
{
    match field {
        Some(at) => (", field ", number_of(at), ", ", name_strong(at.name)),
        None => (", number of fields", Item::Absent, "", Item::Absent),
    }
}

/// The name of a field, bold if there are colours.
fn name_strong<'a>(name: FieldName) -> Item<'a>
    ensures { is_own_plain result ≡ true }
{
    Item::Strong(name.text())
}

/// The number of a field, counted from 1, if a number counts that far.
fn number_of<'a>(at: FieldPlace) -> Item<'a>
    ensures { is_own_plain result ≡ true }
{
    match (at.place as u64).checked_add(1) {
        Some(number) => Item::Number(number),
        None => Item::Absent,
    }
}

/// The words before what was found, and those after it.
fn words_round(refusal: &Refusal<'_>) -> (&'static str, &'static str)
    ensures before { is_plain result.0.now ≡ true }
    ensures after { is_plain result.1.now ≡ true }
{
    match (refusal.field, refusal.found) {
        (None, _) => ("found ", "; expected "),
        (Some(_), Item::Bytes(b"")) => ("found nothing", "; expected "),
        (Some(_), _) => ("found `", "`; expected "),
    }
}

/// Writes where a quote opens a field that goes on over a line end, if one does.
fn tell_quote(refusal: &Refusal<'_>, out: &mut SafeText) -> Result<(), AllocError> {
    let Some(point) = refusal.quote else {
        return Ok(());
    };
    let items = [
        Item::Text("    the quote at line "),
        Item::Number(point.line),
        Item::Text(", column "),
        Item::Number(point.column),
        Item::Text(
            " opens a field that goes on over commas and line ends, to the next quote or to the end",
        ),
    ];
    out.line(&items)
}

/// Writes a refusal as a JSON object.
fn tell_object(refusal: &Refusal<'_>, point: Point, out: &mut SafeText) -> Result<(), AllocError>
    requires found { is_own_plain refusal.now.found ≡ true }
{
    let (number, name) = field_items(refusal.field);
    let (line, column) = point_items(refusal.quote);
    let members = [
        ("what", Item::Text("refusal")),
        ("file", Item::Bytes(refusal.file.as_bytes())),
        ("line", Item::Number(point.line)),
        ("column", Item::Number(point.column)),
        ("record", Item::Number(refusal.number)),
        ("code", Item::Text(refusal.code.text())),
        ("field", number),
        ("field_name", name),
        ("text", Item::Bytes(refusal.text)),
        ("found", refusal.found),
        ("expected", Item::Bytes(refusal.expected.as_bytes())),
        ("remedy", Item::Bytes(refusal.remedy.as_bytes())),
        ("hint", item_if_any(refusal.hint)),
        ("quote_line", line),
        ("quote_column", column),
    ];
    out.object(&members)
}

/// The number of a field and its name, if there is one.
fn field_items<'a>(field: Option<FieldPlace>) -> (Item<'a>, Item<'a>)
    ensures number { is_own_plain result.0 ≡ true }
    ensures name { is_own_plain result.1 ≡ true }
{
    match field {
        Some(at) => (number_of(at), name_strong(at.name)),
        None => (Item::Absent, Item::Absent),
    }
}

/// The line and the column of a place, if there is one.
fn point_items<'a>(point: Option<Point>) -> (Item<'a>, Item<'a>)
    ensures line { is_own_plain result.0 ≡ true }
    ensures column { is_own_plain result.1 ≡ true }
{
    match point {
        Some(point) => (Item::Number(point.line), Item::Number(point.column)),
        None => (Item::Absent, Item::Absent),
    }
}

/// Writes that a text ends where a record is expected.
pub(crate) fn tell_missing<'a>(
    file: &'a str,
    end: Point,
    code: Code,
    expected: &'a str,
    out: &mut SafeText,
) -> Result<(), AllocError> {
    if out.is_json() {
        let members = [
            ("what", Item::Text("missing")),
            ("file", Item::Bytes(file.as_bytes())),
            ("line", Item::Number(end.line)),
            ("column", Item::Number(end.column)),
            ("code", Item::Text(code.text())),
            ("expected", Item::Bytes(expected.as_bytes())),
            ("remedy", Item::Bytes(code.remedy().as_bytes())),
        ];
        return out.object(&members);
    }
    let items = [
        Item::Text(": the text ends; expected "),
        Item::Bytes(expected.as_bytes()),
    ];
    out.place(end.of_file(file), code.text(), &items)?;
    out.advice(code.remedy())
}
