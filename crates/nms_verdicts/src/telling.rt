//! Reporting one thing: as a JSON object with all that is known about it, or as a row of a table and lines of words.
use nms_show::{Column, Form, Item, ShowFault, write_line, write_object, write_row};
use std::alloc::Global;
use std::io::Write;

/// The most columns that a table has.
const MOST_COLUMNS: usize = 16;

/// The most words and values in one line of a report.
const MOST_ITEMS: usize = 24;

/// A column: its heading, the key of the fact in it, its least number of characters, and whether the fact is at the column's
/// right end.
#[derive(Clone, Copy)]
pub(crate) struct Heading(
    pub(crate) &'static str,
    pub(crate) &'static str,
    pub(crate) usize,
    pub(crate) bool,
);

/// Reports a thing. As JSON it is one object with all facts. Otherwise it is a row under the given headings, if any, and lines of
/// words.
pub(crate) fn tell<'a, W: Write>(
    alloc: Global,
    answers: &mut W,
    form: Form,
    headings: &[Heading],
    lines: &[&'a str],
    facts: &[(&str, Item<'a>)],
) -> Result<(), ShowFault> {
    if form.is_json() {
        return write_object(alloc, answers, facts);
    }
    if !headings.is_empty() {
        tell_row(answers, form, headings, facts)?;
    }
    for words in lines {
        tell_line(answers, form, words, facts)?;
    }
    Ok(())
}

/// Writes the head of a table. Objects have no head.
pub(crate) fn tell_head<W: Write>(
    answers: &mut W,
    form: Form,
    headings: &[Heading],
) -> Result<(), ShowFault> {
    if form.is_json() {
        return Ok(());
    }
    tell_row(answers, form, headings, &[])
}

/// Writes the row of a table: the facts under the headings, or the titles if there are no facts. Empty columns at its end are
/// left out.
fn tell_row<W: Write>(
    answers: &mut W,
    form: Form,
    headings: &[Heading],
    facts: &[(&str, Item<'_>)],
) -> Result<(), ShowFault> {
    let empty = Column {
        item: Item::Absent,
        width: 0,
        right: false,
    };
    let mut columns = [empty; MOST_COLUMNS];
    let mut used: usize = 0;
    for place in 0..MOST_COLUMNS {
        let Some(heading) = headings.get(place) else {
            break;
        };
        let column = column_of(*heading, facts);
        columns[place] = column;
        if !matches!(column.item, Item::Absent) {
            used = place + 1;
        }
    }
    write_row(answers, form, columns.get(..used).unwrap_or(&columns))
}

/// The fact under a heading, or the title if there are no facts.
fn column_of<'a>(heading: Heading, facts: &[(&str, Item<'a>)]) -> Column<'a> {
    let Heading(title, key, width, right) = heading;
    let item = if !facts.is_empty() {
        value_of(facts, key.as_bytes())
    } else if title.is_empty() {
        Item::Absent
    } else {
        Item::Strong(title)
    };
    Column { item, width, right }
}

/// Writes a line of words, in which each key between two bars is replaced by its value. It writes nothing if there are no words,
/// or as JSON.
pub(crate) fn tell_line<'a, W: Write>(
    answers: &mut W,
    form: Form,
    words: &'a str,
    facts: &[(&str, Item<'a>)],
) -> Result<(), ShowFault> {
    if form.is_json() || words.is_empty() {
        return Ok(());
    }
    let mut items = [Item::Absent; MOST_ITEMS];
    let mut pieces = words.as_bytes().split(|byte| *byte == b'|');
    for place in 0..MOST_ITEMS {
        let Some(piece) = pieces.next() else {
            break;
        };
        items[place] = if place % 2 == 0 {
            Item::Bytes(piece)
        } else {
            value_of(facts, piece)
        };
    }
    write_line(answers, form, &items)
}

/// The value of the fact that has a key.
fn value_of<'a>(facts: &[(&str, Item<'a>)], key: &[u8]) -> Item<'a> {
    for (name, item) in facts {
        if name.as_bytes() == key {
            return *item;
        }
    }
    Item::Absent
}
