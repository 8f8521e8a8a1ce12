//! Explaining the records of a script, of a file of changes or of orders, and of a feed.
ghost use Rattle.std.specs.Prelude.{◌≡◌, ◌<◌, ◌+◌, ◌-◌, ◌^◌, ◌++◌, ◌∷◌, IfOk, [], true, ℕ, List, Option};
ghost use Rattle.csv.specs.Records.{fields_of};
ghost use Rattle.nms_lines.specs.ChangeReading.{change_reading, feed_reading};
ghost use Rattle.nms_lines.specs.Layout.{Record};
ghost use Rattle.nms_lines.specs.Lines.{reading};
ghost use Rattle.nms_lines.specs.Records.{ReadsFrom};
ghost use Rattle.nms_lines.specs.declared.line.Reading.TheVariants as read_as;
ghost use Rattle.nms_files.specs.OrderFile.{order_reading};
ghost use Rattle.nms_explain.specs.Counted.{EndsBy, IsFileTally, IsTallyOf, IsWithin, ending_by};
ghost use Rattle.nms_explain.specs.Source.{left_of};
ghost use Rattle.nms_show.specs.Plain.{is_own_plain};
ghost use Rattle.nms_show.specs.Safe.{IsSafe};
ghost use Rattle.nms_show.specs.Written.{Writes};

use crate::expectation::expected_field;
use crate::explain_fault::ExplainFault;
use crate::hints::{hint_of, hint_of_feed, parted_number};
use crate::line_count::LineCount;
use crate::places::{
    FieldName, FieldPlace, field_in, kind_of, layout_of, most_fields, text_at, unknown_name,
};
use crate::record_source::{RecordSource, RecordText, next_record, open_source, record_of};
use crate::refusal::{Refusal, tell_refusal};
use crate::refusal_code::RefusalCode;
use crate::remedies::remedy_in;
use crate::span::{Point, Span, name_span, open_quote, point_at, span_of};
use crate::tally::{Tally, tell_remark};
use nms_codes::Code;
use nms_fees::Setup;
use nms_lines::{
    ByteRecord, FaultPlace, Kind, LineFault, PlacedFault, Reader, Reading, RecordFault,
    read_line_at,
};
use nms_quote::{Feed, Roster};
use nms_show::{Ending, Form, Item, SafeText};
use std::alloc::{AllocError, Global};
use std::io::{Read, Write};

/// The fault of a source with more records, lines or bytes than a number of 64 bits counts. No source has.
pub(crate) const TOO_LONG: ExplainFault = ExplainFault::Record(RecordFault::Failed);

/// What a call explains: the setup's roster and number of feeds, the name of the file, and what sort of file it is.
#[derive(Clone, Copy)]
struct Asked<'a> {
    roster: &'a Roster,
    feeds: u8,
    file: &'a str,
    from: Reading,
}

/// Reports each refused record of a script, and whether it publishes anything. It runs nothing of the script, so it does not
/// report what a full queue or a full tape would refuse.
///
/// The answers are not flushed. After a fault, what was reported before stays. What is written is safe to show on a terminal.
pub fn explain_script<R: Read + Drop, W: Write>(
    alloc: Global,
    setup: &Setup,
    file: &str,
    source: R,
    form: Form,
    answers: &mut W,
) -> Result<Ending, ExplainFault>
    ensures ending { IfOk result (EndsBy (reading setup.now.roster (read_as.Script setup.now.desks)) (R.remaining source)) }
    ensures safe { Writes IsSafe (W.contents answers.old) (W.contents answers.new) result }
{
    let from = Reading::Script {
        desks: setup.desks(),
    };
    explain_file(alloc, setup, file, source, from, form, answers)
}

/// Reports each refused record of a file of changes, and how many were refused. The answers are not flushed.
///
/// What is written is safe to show on a terminal.
pub fn explain_changes<R: Read + Drop, W: Write>(
    alloc: Global,
    setup: &Setup,
    file: &str,
    source: R,
    form: Form,
    answers: &mut W,
) -> Result<Ending, ExplainFault>
    ensures ending { IfOk result (EndsBy (change_reading setup.now.roster) (R.remaining source)) }
    ensures safe { Writes IsSafe (W.contents answers.old) (W.contents answers.new) result }
{
    explain_file(alloc, setup, file, source, Reading::Changes, form, answers)
}

/// Reports each refused record of a file of orders, and how many were refused. The answers are not flushed.
///
/// What is written is safe to show on a terminal.
pub fn explain_orders<R: Read + Drop, W: Write>(
    alloc: Global,
    setup: &Setup,
    file: &str,
    source: R,
    form: Form,
    answers: &mut W,
) -> Result<Ending, ExplainFault>
    ensures ending { IfOk result (EndsBy (order_reading setup.now) (R.remaining source)) }
    ensures safe { Writes IsSafe (W.contents answers.old) (W.contents answers.new) result }
{
    let from = Reading::Orders {
        desks: setup.desks(),
    };
    explain_file(alloc, setup, file, source, from, form, answers)
}

/// Reports each refused record of the file of a feed, and whether all records are of other feeds.
///
/// What is written is safe to show on a terminal.
pub fn explain_feed<R: Read + Drop, W: Write>(
    alloc: Global,
    setup: &Setup,
    feed: Feed,
    file: &str,
    source: R,
    form: Form,
    answers: &mut W,
) -> Result<Ending, ExplainFault>
    ensures ending { IfOk result (EndsBy (feed_reading setup.now.roster feed) (R.remaining source)) }
    ensures safe { Writes IsSafe (W.contents answers.old) (W.contents answers.new) result }
{
    let from = Reading::FromFeed(feed);
    explain_file(alloc, setup, file, source, from, form, answers)
}

/// Reports each refused record of a file, and how many records were refused.
fn explain_file<R: Read + Drop, W: Write>(
    alloc: Global,
    setup: &Setup,
    file: &str,
    source: R,
    from: Reading,
    form: Form,
    answers: &mut W,
) -> Result<Ending, ExplainFault>
    ensures ending { IfOk result (EndsBy (reading setup.now.roster from) (R.remaining source)) }
    ensures safe { Writes IsSafe (W.contents answers.old) (W.contents answers.new) result }
{
    let asked = Asked {
        roster: setup.roster(),
        feeds: setup.feeds(),
        file,
        from,
    };
    let mut reader = open_source(alloc, source);
    let mut row = ByteRecord::new(alloc);
    let mut out = SafeText::new(alloc, form);
    explain_source(&asked, &mut reader, &mut row, &mut out, answers)
}

/// Reports each refused record that a reader gives, and then the counts. It owns neither the reader nor the record, so its
/// exits drop nothing.
fn explain_source<R: Read, W: Write>(
    asked: &Asked<'_>,
    reader: &mut Reader<RecordSource<R>>,
    row: &mut ByteRecord,
    out: &mut SafeText,
    answers: &mut W,
) -> Result<Ending, ExplainFault>
    ensures ending { (bytes : Option (List ℕ)) → ReadsFrom (left_of R.remaining) reader.old bytes []
        → IfOk result (EndsBy (reading asked.now.roster.now asked.now.from) bytes) }
    ensures safe { Writes IsSafe (W.contents answers.old) (W.contents answers.new) result }
{
    let tally = explain_records(asked, reader, row, out, answers)?;
    tell_sum(asked, &tally, out)?;
    out.pass_on(answers)?;
    Ok(ending_of(&tally))
}

/// Writes how many records there were, and a remark about the file.
fn tell_sum(asked: &Asked<'_>, tally: &Tally, out: &mut SafeText) -> Result<(), AllocError> {
    tally.tell(asked.file, out)?;
    match remark_of(asked, tally) {
        Some(remark) => tell_remark(asked.file, remark, out),
        None => Ok(()),
    }
}

/// The remark about a file: that a script publishes nothing, or that all records of a feed's file are of other feeds.
fn remark_of(asked: &Asked<'_>, tally: &Tally) -> Option<&'static str> {
    match asked.from {
        Reading::Script { .. } if !tally.publishes => {
            Some("nothing was published: no record `F` and no record `P` was taken")
        }
        Reading::FromFeed(_) if is_swapped(tally) => Some(if asked.feeds > 2 {
            "each record's participant is on another feed: swapped?"
        } else {
            "each record's participant is on the other feed: swapped?"
        }),
        Reading::Script { .. } | Reading::Changes | Reading::Orders { .. } | Reading::FromFeed(_) =>
            { None }
    }
}

/// Whether there are records, and all are refused as those of other feeds.
fn is_swapped(tally: &Tally) -> bool {
    tally.records > 0 && tally.count(LineFault::WrongFeed) == tally.records
}

/// How the report on a file ends: `Refused` if a record was refused, else `Done`.
fn ending_of(tally: &Tally) -> Ending
    ensures { result ≡ ending_by tally.now.refused }
{
    if tally.refused > 0 {
        Ending::Refused
    } else {
        Ending::Done
    }
}

/// Reports each refused record that a reader gives, one after the other, and counts all records.
fn explain_records<R: Read, W: Write>(
    asked: &Asked<'_>,
    reader: &mut Reader<RecordSource<R>>,
    row: &mut ByteRecord,
    out: &mut SafeText,
    answers: &mut W,
) -> Result<Tally, ExplainFault>
    ensures counts { (bytes : Option (List ℕ)) → ReadsFrom (left_of R.remaining) reader.old bytes []
        → IfOk result (IsFileTally (reading asked.now.roster.now asked.now.from) bytes) }
    ensures safe { Writes IsSafe (W.contents answers.old) (W.contents answers.new) result }
{
    let mut tally = Tally::new();
    for turn in 0..u64::MAX {
        match next_record(reader, row) {
            Ok(true) => {
                explain_record(asked, reader, row, turn + 1, &mut tally, out)?;
                out.pass_on(answers)?;
            }
            Ok(false) => return Ok(tally),
            Err(fault) => return Err(ExplainFault::Record(fault)),
        }
    }
    Err(TOO_LONG)
}

/// Counts a record, and reports it with its number if it is refused.
fn explain_record<R: Read>(
    asked: &Asked<'_>,
    reader: &Reader<RecordSource<R>>,
    row: &ByteRecord,
    number: u64,
    tally: &mut Tally,
    out: &mut SafeText,
) -> Result<(), ExplainFault>
    requires room { tally.old.records < 2 ^ 64 - 1 }
    requires within { IsWithin tally.old }
    ensures within { IsWithin tally.new }
    ensures records { tally.new.records ≡ tally.old.records + 1 }
    ensures counts { (seen : List Record) → IsTallyOf (reading asked.now.roster.now asked.now.from) seen tally.old
        → IsTallyOf (reading asked.now.roster.now asked.now.from) (seen ++ fields_of row.now ∷ []) tally.new }
{
    match read_line_at(row, asked.roster, asked.from) {
        Ok(line) => {
            tally.take(&line);
            Ok(())
        }
        Err(refused) => {
            tally.refuse(refused.fault);
            tell_fault(asked, reader, number, row, refused, out)
        }
    }
}

/// Reports a refused record by its number.
fn tell_fault<R: Read>(
    asked: &Asked<'_>,
    reader: &Reader<RecordSource<R>>,
    number: u64,
    row: &ByteRecord,
    refused: PlacedFault,
    out: &mut SafeText,
) -> Result<(), ExplainFault> {
    let Some(record) = record_of(reader) else {
        return Err(TOO_LONG);
    };
    let refusal = refusal_of(asked, record, number, row, refused);
    let Some(point) = refusal.point() else {
        return Err(TOO_LONG);
    };
    tell_refusal(&refusal, point, out)?;
    Ok(())
}

/// The report on a refused record.
fn refusal_of<'a>(
    asked: &Asked<'a>,
    record: RecordText<'a>,
    number: u64,
    row: &'a ByteRecord,
    refused: PlacedFault,
) -> Refusal<'a>
    ensures found { is_own_plain result.found ≡ true }
{
    let RecordText { text, line } = record;
    let fault = refused.fault;
    let finding = finding_of(asked, text, row, refused);
    let hint = match finding.field {
        Some(at) if fault == LineFault::WrongFeed && at.name == FieldName::Participant => {
            hint_of_feed(text_at(row, at.place), asked.roster)
        }
        Some(_) | None => hint_of(fault, number, text, row),
    };
    Refusal {
        file: asked.file,
        number,
        line,
        text,
        span: finding.span,
        code: RefusalCode::Record(Code::of_line(fault)),
        field: finding.field,
        found: finding.found,
        expected: finding.expected,
        hint,
        remedy: remedy_in(fault, matches!(kind_of(row), Some(Kind::Quote))),
        quote: quote_at(text, line),
    }
}

/// The finding on a refused record.
fn finding_of<'a>(
    asked: &Asked<'a>,
    text: &'a [u8],
    row: &'a ByteRecord,
    refused: PlacedFault,
) -> Finding<'a>
    ensures found { is_own_plain result.found ≡ true }
{
    match refused.place {
        FaultPlace::Record => count_of(row, text),
        FaultPlace::Field(place) => field_of(asked, text, row, refused.fault, field_in(row, place)),
    }
}

/// The place in the file of a quote that opens a field over a line end, in a record that begins on the given line. None if
/// there is no such quote, or more lines than a number counts.
pub(crate) fn quote_at(text: &[u8], line: u64) -> Option<Point> {
    point_at(text, LineCount::at(line), open_quote(text)?)
}

/// What is wrong with a record: the field, its place in the text, what was found there, and what is expected there.
#[derive(Clone, Copy)]
struct Finding<'a> {
    field: Option<FieldPlace>,
    span: Span,
    found: Item<'a>,
    expected: &'a str,
}

/// The finding on a record whose number of fields is not that of its kind.
fn count_of<'a>(row: &'a ByteRecord, text: &'a [u8]) -> Finding<'a>
    ensures found { is_own_plain result.found ≡ true }
{
    Finding {
        field: None,
        span: surplus_span(row, text),
        found: Item::Number(row.len() as u64),
        expected: layout_of(kind_of(row)),
    }
}

/// The place to report for a record with a wrong number of fields. It is the quote that opens a field over a line end, or else
/// the number that a comma parts. Without either, it is the fields past the most allowed, or the last comma if nothing comes
/// after it. For too few fields it is the end of the record.
fn surplus_span(row: &ByteRecord, text: &[u8]) -> Span {
    let (end, count) = (text.len(), row.len());
    if let Some(start) = open_quote(text) {
        return Span {
            start,
            end: start + 1,
        };
    }
    if let Some(place) = parted_number(row) {
        return Span {
            start: span_of(text, place).start,
            end: span_of(text, place + 1).end,
        };
    }
    let most = most_fields(row);
    let start = span_of(text, most).start;
    if start == end && end > 0 && count > most {
        return Span {
            start: end - 1,
            end,
        };
    }
    Span { start, end }
}

/// The finding on a field.
fn field_of<'a>(
    asked: &Asked<'a>,
    text: &'a [u8],
    row: &'a ByteRecord,
    fault: LineFault,
    at: FieldPlace,
) -> Finding<'a>
    ensures found { is_own_plain result.found ≡ true }
{
    let field = span_of(text, at.place);
    let found = text_at(row, at.place);
    let span = if at.name == FieldName::Names {
        unknown_span(text, field, found, asked.roster)
    } else {
        field
    };
    let found = if at.name == FieldName::Names {
        text.get(span.start..span.end).unwrap_or(&[])
    } else {
        found
    };
    Finding {
        field: Some(at),
        span,
        found: Item::Bytes(found),
        expected: expected_field(fault, at.name, asked.from),
    }
}

/// The place of the first name that is not on the roster, among those that a field joins.
pub(crate) fn unknown_span(text: &[u8], field: Span, names: &[u8], roster: &Roster) -> Span {
    match unknown_name(names, roster) {
        Some(nth) => name_span(text, field, nth),
        None => field,
    }
}
