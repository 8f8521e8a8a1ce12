//! Writing lines and tables.
ghost use Rattle.std.specs.Prelude.{All, IfSome};
ghost use Rattle.nms_show.specs.Safe.{IsPrintable, IsSafe, own_text};
ghost use Rattle.nms_show.specs.Written.{Writes};

use crate::columns::columns_of_item;
use crate::form::Form;
use crate::item::{Column, Item, write_plain};
use crate::show_fault::ShowFault;
use crate::written::{end_line, write_printable, write_safe};
use std::io::Write;

/// Writes items and the end of a line. The writer is not flushed.
///
/// If the program's texts in the items are printable, the added text is safe to show. After a failure, the first part of the line
/// was written, and is safe too.
pub fn write_line<W: Write>(
    answers: &mut W,
    form: Form,
    items: &[Item<'_>],
) -> Result<(), ShowFault>
    ensures safe { All (λ item. IsPrintable (own_text item)) items.now → Writes IsSafe (W.contents answers.old) (W.contents answers.new) result }
{
    write_items(answers, form, items)?;
    end_line(answers)
}

/// Writes items, one after the other.
pub(crate) fn write_items<W: Write>(
    answers: &mut W,
    form: Form,
    items: &[Item<'_>],
) -> Result<(), ShowFault>
    ensures { All (λ item. IsPrintable (own_text item)) items.now → Writes IsSafe (W.contents answers.old) (W.contents answers.new) result }
{
    for item in items {
        write_item(answers, form, item)?;
    }
    Ok(())
}

/// Writes a row of a table, with a space between two columns and the end of a line after the last. The writer is not flushed.
///
/// If the program's texts in the items are printable, the added text is safe to show.
pub fn write_row<W: Write>(
    answers: &mut W,
    form: Form,
    columns: &[Column<'_>],
) -> Result<(), ShowFault>
    ensures safe { All (λ column. IsPrintable (own_text column.item)) columns.now → Writes IsSafe (W.contents answers.old) (W.contents answers.new) result }
{
    write_columns(answers, form, columns)?;
    end_line(answers)
}

/// Writes columns with a space between them.
fn write_columns<W: Write>(
    answers: &mut W,
    form: Form,
    columns: &[Column<'_>],
) -> Result<(), ShowFault>
    ensures { All (λ column. IsPrintable (own_text column.item)) columns.now → Writes IsSafe (W.contents answers.old) (W.contents answers.new) result }
{
    let mut owed = 0;
    for place in 0..columns.len() {
        write_many(answers, b" ", if place == 0 { 0 } else { 1 })?;
        owed = write_column(answers, form, &columns[place], owed)?;
    }
    Ok(())
}

/// Writes the spaces that are still owed and then a column. Returns the number of spaces that are owed if another column follows.
fn write_column<W: Write>(
    answers: &mut W,
    form: Form,
    column: &Column<'_>,
    owed: usize,
) -> Result<usize, ShowFault>
    ensures { IsPrintable (own_text column.now.item) → Writes IsSafe (W.contents answers.old) (W.contents answers.new) result }
{
    let (before, after) = spare_of(column);
    write_many(answers, b" ", owed)?;
    write_many(answers, b" ", before)?;
    write_item(answers, form, &column.item)?;
    Ok(after)
}

/// The number of spaces that fill a column before its item, and the number after it.
fn spare_of(column: &Column<'_>) -> (usize, usize) {
    let taken = columns_of_item(&column.item);
    if taken >= column.width {
        return (0, 0);
    }
    let spare = column.width - taken;
    if column.right { (spare, 0) } else { (0, spare) }
}

/// Writes a printable text n times.
pub(crate) fn write_many<W: Write>(
    answers: &mut W,
    text: &[u8],
    times: usize,
) -> Result<(), ShowFault>
    requires printable { IsPrintable text.now }
    ensures { Writes IsSafe (W.contents answers.old) (W.contents answers.new) result }
{
    for _ in 0..times {
        write_safe(answers, text)?;
    }
    Ok(())
}

/// Writes one item, in its colour if it has one.
pub(crate) fn write_item<W: Write>(
    answers: &mut W,
    form: Form,
    item: &Item<'_>,
) -> Result<(), ShowFault>
    ensures { IsPrintable (own_text item.now) → Writes IsSafe (W.contents answers.old) (W.contents answers.new) result }
{
    match item {
        Item::Strong(_) if form.has_colours() => write_coloured(answers, b"\x1b[1m", item),
        Item::Alarm(_) if form.has_colours() => write_coloured(answers, b"\x1b[31m", item),
        Item::Text(_)
        | Item::Strong(_)
        | Item::Alarm(_)
        | Item::Bytes(_)
        | Item::Number(_)
        | Item::Price(_)
        | Item::Money(_)
        | Item::Flag(_)
        | Item::Absent => write_plain(answers, item),
    }
}

/// Writes an item in a colour.
fn write_coloured<W: Write>(
    answers: &mut W,
    colour: &[u8],
    item: &Item<'_>,
) -> Result<(), ShowFault>
    requires colour { IsSafe colour.now }
    ensures { IsPrintable (own_text item.now) → Writes IsSafe (W.contents answers.old) (W.contents answers.new) result }
{
    write_safe(answers, colour)?;
    write_plain(answers, item)?;
    write_safe(answers, b"\x1b[0m")
}
