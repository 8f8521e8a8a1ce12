//! Explaining the refused records of a file of executions.
ghost use Rattle.std.specs.Prelude.{◌≡◌, ◌<◌, ◌+◌, ◌-◌, ◌≤◌, ◌^◌, IfOk, length, true};
ghost use Rattle.nms_explain.specs.Counted.{ending_by};
ghost use Rattle.nms_show.specs.Plain.{is_own_plain};
ghost use Rattle.nms_show.specs.Safe.{IsSafe};
ghost use Rattle.nms_show.specs.Written.{Writes};

use crate::changes::{TOO_LONG, quote_at};
use crate::execution_code::ExecutionCode;
use crate::explain_fault::ExplainFault;
use crate::hints::hint_of_kind;
use crate::places::{FieldPlace, text_at};
use crate::record_source::{RecordSource, RecordText, next_record, open_source, record_of};
use crate::refusal::{Refusal, tell_refusal};
use crate::refusal_code::RefusalCode;
use crate::span::{Span, open_quote, span_of};
use crate::tally::{tell_count, tell_counts};
use nms_lines::{ByteRecord, Reader};
use nms_show::{Ending, Form, Item, SafeText};
use std::alloc::{AllocError, Global};
use std::io::{Read, Write};

/// How many fields an execution has.
const FIELDS: usize = 9;

/// An execution that is refused.
#[derive(Clone, Copy)]
pub struct RefusedExecution {
    /// The number of its record, counted from 1. A blank line is no record.
    pub number: u64,
    /// Why the execution is refused.
    pub code: ExecutionCode,
}

/// The name of the file of executions that is explained, and which of its executions are refused.
#[derive(Clone, Copy)]
struct Asked<'a> {
    file: &'a str,
    refused: &'a [RefusedExecution],
}

/// Reports each refused execution of a text, given which are refused, in the order of their records. It shows the line, the
/// column, the field and what is expected there. It ends with `Refused` if there is one.
///
/// The answers are not flushed. After a fault, what was reported before stays. What is written is safe to show on a terminal.
pub fn explain_executions<W: Write>(
    alloc: Global,
    file: &str,
    text: &[u8],
    refused: &[RefusedExecution],
    form: Form,
    answers: &mut W,
) -> Result<Ending, ExplainFault>
    ensures ending { IfOk result (λ ending. ending ≡ ending_by (length refused.now)) }
    ensures safe { Writes IsSafe (W.contents answers.old) (W.contents answers.new) result }
{
    let asked = Asked { file, refused };
    let mut reader = open_source(alloc, text);
    let mut row = ByteRecord::new(alloc);
    let mut out = SafeText::new(alloc, form);
    explain_text(&asked, &mut reader, &mut row, &mut out, answers)
}

/// Reports the refused executions of the text that a reader gives, and then the counts. It owns neither the reader nor the
/// record, so its exits drop nothing.
fn explain_text<R: Read, W: Write>(
    asked: &Asked<'_>,
    reader: &mut Reader<RecordSource<R>>,
    row: &mut ByteRecord,
    out: &mut SafeText,
    answers: &mut W,
) -> Result<Ending, ExplainFault>
    ensures ending { IfOk result (λ ending. ending ≡ ending_by (length asked.now.refused.now)) }
    ensures safe { Writes IsSafe (W.contents answers.old) (W.contents answers.new) result }
{
    let records = explain_records(asked, reader, row, out, answers)?;
    tell_sum(asked, records, out)?;
    out.pass_on(answers)?;
    if asked.refused.is_empty() {
        Ok(Ending::Done)
    } else {
        Ok(Ending::Refused)
    }
}

/// Reports each refused record that a reader gives. Returns how many records there are.
fn explain_records<R: Read, W: Write>(
    asked: &Asked<'_>,
    reader: &mut Reader<RecordSource<R>>,
    row: &mut ByteRecord,
    out: &mut SafeText,
    answers: &mut W,
) -> Result<u64, ExplainFault>
    ensures safe { Writes IsSafe (W.contents answers.old) (W.contents answers.new) result }
{
    let mut told = 0;
    for turn in 0..u64::MAX {
        match next_record(reader, row) {
            Ok(true) => {
                told = explain_record(asked, reader, row, turn + 1, told, out)?;
                out.pass_on(answers)?;
            }
            Ok(false) => return Ok(turn),
            Err(fault) => return Err(ExplainFault::Record(fault)),
        }
    }
    Err(TOO_LONG)
}

/// Reports a record if it is the next refused execution. Returns how many refused executions were reported up to then.
fn explain_record<R: Read>(
    asked: &Asked<'_>,
    reader: &Reader<RecordSource<R>>,
    row: &ByteRecord,
    number: u64,
    told: usize,
    out: &mut SafeText,
) -> Result<usize, ExplainFault> {
    if told >= asked.refused.len() || asked.refused[told].number != number {
        return Ok(told);
    }
    tell_code(asked, reader, row, number, asked.refused[told].code, out)?;
    Ok(told + 1)
}

/// Reports a refused record by its number.
fn tell_code<R: Read>(
    asked: &Asked<'_>,
    reader: &Reader<RecordSource<R>>,
    row: &ByteRecord,
    number: u64,
    code: ExecutionCode,
    out: &mut SafeText,
) -> Result<(), ExplainFault> {
    let Some(record) = record_of(reader) else {
        return Err(TOO_LONG);
    };
    let refusal = refusal_of(asked, record, number, row, code);
    let Some(point) = refusal.point() else {
        return Err(TOO_LONG);
    };
    tell_refusal(&refusal, point, out)?;
    Ok(())
}

/// The report on a refused record.
fn refusal_of<'a>(
    asked: &Asked<'a>,
    record: RecordText<'a>,
    number: u64,
    row: &'a ByteRecord,
    code: ExecutionCode,
) -> Refusal<'a>
    ensures found { is_own_plain result.found ≡ true }
{
    let RecordText { text, line } = record;
    let field = code.field();
    let hint = if code == ExecutionCode::UnknownKind {
        hint_of_kind(number, text)
    } else {
        ""
    };
    Refusal {
        file: asked.file,
        number,
        line,
        text,
        span: span_at(text, row, field),
        code: RefusalCode::Execution(code),
        field,
        found: found_at(row, field),
        expected: code.expected(),
        hint,
        remedy: code.remedy(),
        quote: quote_at(text, line),
    }
}

/// The place of the wrong field. If the number of fields is wrong, it is the quote that opens a field over a line end, if there
/// is one. Else it is the fields past the ninth, or the last comma if nothing comes after it. For too few fields it is the end
/// of the record.
fn span_at(text: &[u8], row: &ByteRecord, field: Option<FieldPlace>) -> Span {
    if let Some(at) = field {
        return span_of(text, at.place);
    }
    if let Some(start) = open_quote(text) {
        return Span {
            start,
            end: start + 1,
        };
    }
    let end = text.len();
    if row.len() <= FIELDS {
        return Span { start: end, end };
    }
    let start = span_of(text, FIELDS).start;
    if start == end && end > 0 {
        return Span {
            start: end - 1,
            end,
        };
    }
    Span { start, end }
}

/// What is found at the wrong field; the number of fields if that number is wrong.
fn found_at<'a>(row: &'a ByteRecord, field: Option<FieldPlace>) -> Item<'a>
    ensures { is_own_plain result ≡ true }
{
    match field {
        Some(at) => Item::Bytes(text_at(row, at.place)),
        None => Item::Number(row.len() as u64),
    }
}

/// Reports how many records there are, and how many are refused by each code.
fn tell_sum(asked: &Asked<'_>, records: u64, out: &mut SafeText) -> Result<(), AllocError> {
    let Asked { file, refused } = *asked;
    tell_counts(file, records, refused.len() as u64, out)?;
    for code in ExecutionCode::ALL {
        let count = count_of(refused, code);
        tell_count(file, RefusalCode::Execution(code), count, out)?;
    }
    Ok(())
}

/// How many executions are refused by a code.
fn count_of(refused: &[RefusedExecution], code: ExecutionCode) -> u64 {
    refused
        .iter()
        .filter(|refusal| refusal.code == code)
        .count() as u64
}
