//! The plain report of a page, for a reader without JavaScript. It has what the page was made from, the remarks about a plan,
//! and the first executions that are flagged. Its HTML is the program's, and all other text in it is escaped.
ghost use Rattle.std.specs.Prelude.{◌<◌};

use crate::page_data::{Lists, Tables};
use crate::spelling::append_decimal;
use std::alloc::AllocError;

/// The greatest number of flagged executions that the report lists.
const MOST_LISTED: usize = 500;

/// The head of the table of executions.
const HEADS: &str =
    "<table><tr><th>id<th>symbol<th>version<th>price<th>shares<th>worse by at most<th>finding<th>exception";

/// Appends the plain report of a page that has the given lists and tables.
pub(crate) fn append_report(
    out: &mut Vec<u8>,
    lists: &Lists<'_, '_>,
    tables: &Tables<'_>,
) -> Result<(), AllocError> {
    append_about(out, lists)?;
    append_counts(out, tables)?;
    append_said(out, lists, tables)?;
    append_flagged(out, lists, tables)
}

/// Appends the symbols, and what the page was made from.
fn append_about(out: &mut Vec<u8>, lists: &Lists<'_, '_>) -> Result<(), AllocError> {
    out.extend_from_slice(b"<p>")?;
    append_joined(out, lists.symbols, 1)?;
    out.extend_from_slice(b". ")?;
    append_joined(out, lists.about, 2)?;
    out.extend_from_slice(b".</p>")
}

/// Appends texts in groups of `each`. A space separates the texts of a group, and a comma separates the groups.
fn append_joined(out: &mut Vec<u8>, texts: &[&[u8]], each: usize) -> Result<(), AllocError> {
    let mut left: usize = 0;
    for place in 0..texts.len() {
        if place > 0 {
            out.extend_from_slice(if left == 0 { b", " } else { b" " })?;
        }
        left = if left == 0 { each.max(1) - 1 } else { left - 1 };
        append_escaped(out, texts[place])?;
    }
    Ok(())
}

/// Appends how many lines and executions there are, and how many executions are flagged.
fn append_counts(out: &mut Vec<u8>, tables: &Tables<'_>) -> Result<(), AllocError> {
    out.extend_from_slice(b"<p>")?;
    append_many(out, tables.lines.len(), b" line")?;
    out.extend_from_slice(b" of the stream. ")?;
    append_many(out, tables.executions.len(), b" execution")?;
    out.extend_from_slice(b", ")?;
    append_decimal(out, flagged_in(tables.executions))?;
    out.extend_from_slice(b" flagged.</p>")
}

/// Appends a number of things, and the word for them. The word gets an `s` unless the number is 1.
fn append_many(out: &mut Vec<u8>, many: usize, word: &[u8]) -> Result<(), AllocError> {
    append_decimal(out, many as u64)?;
    out.extend_from_slice(word)?;
    if many == 1 {
        Ok(())
    } else {
        out.extend_from_slice(b"s")
    }
}

/// How many executions are flagged.
fn flagged_in(executions: &[[u64; 13]]) -> u64 {
    let mut flagged = 0;
    for place in 0..executions.len() {
        if executions[place][3] > 1 && flagged < place as u64 + 1 {
            flagged += 1;
        }
    }
    flagged
}

/// Appends the remarks about a plan, a paragraph each.
fn append_said(
    out: &mut Vec<u8>,
    lists: &Lists<'_, '_>,
    tables: &Tables<'_>,
) -> Result<(), AllocError> {
    for row in tables.said {
        out.extend_from_slice(b"<p>")?;
        append_escaped(out, text_at(lists.words, row[2]))?;
        out.extend_from_slice(b"</p>")?;
    }
    Ok(())
}

/// Appends the table of the executions that are flagged, if there are any.
fn append_flagged(
    out: &mut Vec<u8>,
    lists: &Lists<'_, '_>,
    tables: &Tables<'_>,
) -> Result<(), AllocError> {
    let mut listed = 0;
    for place in 0..tables.executions.len() {
        let row = &tables.executions[place];
        if row[3] > 1 && listed < MOST_LISTED {
            if listed == 0 {
                out.extend_from_slice(HEADS.as_bytes())?;
            }
            append_execution(out, lists, text_at(lists.ids, place as u64), row)?;
            listed += 1;
        }
    }
    if listed > 0 {
        out.extend_from_slice(b"</table>")?;
    }
    Ok(())
}

/// Appends the row of an execution.
fn append_execution(
    out: &mut Vec<u8>,
    lists: &Lists<'_, '_>,
    id: &[u8],
    row: &[u64; 13],
) -> Result<(), AllocError> {
    out.extend_from_slice(b"<tr><td>")?;
    append_escaped(out, id)?;
    out.extend_from_slice(b"<td>")?;
    append_escaped(out, text_at(lists.symbols, row[0]))?;
    out.extend_from_slice(b"<td>")?;
    append_decimal(out, row[2])?;
    out.extend_from_slice(b"<td>")?;
    append_millionths(out, row[4])?;
    out.extend_from_slice(b"<td>")?;
    append_decimal(out, row[5])?;
    out.extend_from_slice(b"<td>")?;
    append_millionths(out, row[10])?;
    out.extend_from_slice(if row[3] == 2 {
        b"<td>perhaps<td>"
    } else {
        b"<td>through<td>"
    })?;
    append_causes(out, lists.causes, row[12])
}

/// Appends the causes of an execution, with a `+` between two, or `NONE`. Each binary digit of the number means one cause.
fn append_causes(out: &mut Vec<u8>, causes: &[&[u8]], number: u64) -> Result<(), AllocError> {
    if number == 0 {
        return out.extend_from_slice(b"NONE");
    }
    let mut left = number;
    let mut is_first = true;
    for place in 0..causes.len() {
        if left % 2 == 1 {
            if !is_first {
                out.push(b'+')?;
            }
            is_first = false;
            append_escaped(out, causes[place])?;
        }
        left /= 2;
    }
    Ok(())
}

/// The text at a place; an empty one if there is none.
fn text_at<'a>(texts: &[&'a [u8]], place: u64) -> &'a [u8] {
    match texts.get(place as usize) {
        Some(text) => *text,
        None => &[],
    }
}

/// Appends a number of dollars with six decimals. It is given in units of 1/1,000,000 dollar.
fn append_millionths(out: &mut Vec<u8>, millionths: u64) -> Result<(), AllocError> {
    append_decimal(out, millionths / 1_000_000)?;
    out.extend_from_slice(&[
        b'.',
        digit(millionths, 100_000),
        digit(millionths, 10_000),
        digit(millionths, 1_000),
        digit(millionths, 100),
        digit(millionths, 10),
        digit(millionths, 1),
    ])
}

/// The decimal digit of a number at a power of ten, for example at 100 for the hundreds.
fn digit(number: u64, unit: u64) -> u8
    requires { 0 < unit }
{
    b'0' + (number / unit % 10) as u8
}

/// Appends a text as HTML. Characters that have a meaning in HTML are escaped.
fn append_escaped(out: &mut Vec<u8>, text: &[u8]) -> Result<(), AllocError> {
    for byte in text {
        match *byte {
            b'&' | b'<' | b'>' | b'"' | b'\'' => {
                out.extend_from_slice(b"&#")?;
                append_decimal(out, u64::from(*byte))?;
                out.push(b';')?;
            }
            byte => out.push(byte)?,
        }
    }
    Ok(())
}
