//! A record with carets under one of its fields.
ghost use Rattle.nms_show.specs.Safe.{IsPrintable, IsSafe};
ghost use Rattle.nms_show.specs.Written.{Writes};

use crate::columns::columns_of_bytes;
use crate::form::Form;
use crate::item::{Item, write_own};
use crate::lines::{write_item, write_many};
use crate::show_fault::ShowFault;
use crate::shown::write_shown;
use crate::written::{end_line, write_printable};
use std::io::Write;

/// The bytes of a long record that are shown: at most 48 before the wrong field, and 72 from the field's start on.
const BEFORE: usize = 48;

const FROM: usize = 72;
/// The indent of a shown record.
const INDENT: &[u8] = b"    ";
/// The mark in place of bytes that are not shown.
const LEFT_OUT: &str = "..";

/// Writes a record, and a line of carets under its bytes from `start` to `end`. An empty field gets one caret. If the record is
/// long, only the part around the field is shown. The writer is not flushed.
pub fn write_under<W: Write>(
    answers: &mut W,
    form: Form,
    record: &[u8],
    start: usize,
    end: usize,
) -> Result<(), ShowFault>
    ensures safe { Writes IsSafe (W.contents answers.old) (W.contents answers.new) result }
{
    let (before, from) = record.split_at(start.min(record.len()));
    let near = last_of(before);
    let shown = first_of(from, FROM);
    let field = first_of(shown, if end < start { 0 } else { end - start });
    let ahead = if near.len() < before.len() {
        LEFT_OUT
    } else {
        ""
    };
    let after = if shown.len() < from.len() {
        LEFT_OUT
    } else {
        ""
    };
    write_record(answers, ahead, near, shown, after)?;
    write_carets(answers, form, ahead, near, field)
}

/// The last 48 bytes before a field, or all if there are fewer.
fn last_of(before: &[u8]) -> &[u8] {
    if before.len() <= BEFORE {
        return before;
    }
    &before[before.len() - BEFORE..]
}

/// The first n bytes, or all if there are fewer.
fn first_of(bytes: &[u8], most: usize) -> &[u8] {
    if bytes.len() <= most {
        return bytes;
    }
    &bytes[..most]
}

/// Writes the line that shows the record.
fn write_record<W: Write>(
    answers: &mut W,
    ahead: &str,
    near: &[u8],
    shown: &[u8],
    after: &str,
) -> Result<(), ShowFault>
    requires ahead { IsPrintable ahead.now }
    requires after { IsPrintable after.now }
    ensures { Writes IsSafe (W.contents answers.old) (W.contents answers.new) result }
{
    write_body(answers, ahead, near, shown, after)?;
    end_line(answers)
}

/// Writes the line that shows the record, without its line end.
fn write_body<W: Write>(
    answers: &mut W,
    ahead: &str,
    near: &[u8],
    shown: &[u8],
    after: &str,
) -> Result<(), ShowFault>
    requires ahead { IsPrintable ahead.now }
    requires after { IsPrintable after.now }
    ensures { Writes IsSafe (W.contents answers.old) (W.contents answers.new) result }
{
    write_parts(answers, ahead, near, shown, after)
}

/// Writes the part before the field, and the part from the field on.
fn write_parts<W: Write>(
    answers: &mut W,
    ahead: &str,
    near: &[u8],
    shown: &[u8],
    after: &str,
) -> Result<(), ShowFault>
    requires ahead { IsPrintable ahead.now }
    requires after { IsPrintable after.now }
    ensures { Writes IsPrintable (W.contents answers.old) (W.contents answers.new) result }
{
    write_lead(answers, ahead, near)?;
    write_rest(answers, shown, after)
}

/// Writes the indent, and the shown part of the record before the field.
fn write_lead<W: Write>(answers: &mut W, ahead: &str, near: &[u8]) -> Result<(), ShowFault>
    requires ahead { IsPrintable ahead.now }
    ensures { Writes IsPrintable (W.contents answers.old) (W.contents answers.new) result }
{
    write_printable(answers, INDENT)?;
    write_own(answers, ahead)?;
    write_shown(answers, near)
}

/// Writes the field and the shown part of the record after it, with a mark if the record continues.
fn write_rest<W: Write>(answers: &mut W, shown: &[u8], after: &str) -> Result<(), ShowFault>
    requires after { IsPrintable after.now }
    ensures { Writes IsPrintable (W.contents answers.old) (W.contents answers.new) result }
{
    write_shown(answers, shown)?;
    write_own(answers, after)
}

/// Writes the line of carets under the field. There is at least one caret.
fn write_carets<W: Write>(
    answers: &mut W,
    form: Form,
    ahead: &str,
    near: &[u8],
    field: &[u8],
) -> Result<(), ShowFault>
    ensures { Writes IsSafe (W.contents answers.old) (W.contents answers.new) result }
{
    write_spaces(answers, ahead, near)?;
    write_marks(answers, form, columns_of_bytes(field).max(1))?;
    end_line(answers)
}

/// Writes a space for each column before the field.
fn write_spaces<W: Write>(answers: &mut W, ahead: &str, near: &[u8]) -> Result<(), ShowFault>
    ensures { Writes IsSafe (W.contents answers.old) (W.contents answers.new) result }
{
    write_many(answers, b" ", INDENT.len())?;
    write_many(answers, b" ", ahead.len())?;
    write_many(answers, b" ", columns_of_bytes(near))
}

/// Writes n carets.
fn write_marks<W: Write>(answers: &mut W, form: Form, count: usize) -> Result<(), ShowFault>
    ensures { Writes IsSafe (W.contents answers.old) (W.contents answers.new) result }
{
    for _ in 0..count {
        write_item(answers, form, &Item::Alarm("^"))?;
    }
    Ok(())
}
