//! Lines of a stream as JSON objects. The JSON says what the proved stream says, line by line.
use nms_show::{Item, ShowFault, write_object};
use std::alloc::Global;
use std::io::Write;
use std::str;

/// The columns of a line of the stream, and whether each has a number.
const COLUMNS: [(&str, bool); 9] = [
    ("version", true),
    ("symbol", false),
    ("market", false),
    ("bid_participant", false),
    ("bid_price", false),
    ("bid_shares", true),
    ("offer_participant", false),
    ("offer_price", false),
    ("offer_shares", true),
];

/// Writes a line of the stream as a JSON object, with a time if one is given.
pub(crate) fn write_fields<W: Write>(
    alloc: Global,
    answers: &mut W,
    line: &[u8],
    time: Option<&[u8]>,
) -> Result<(), ShowFault> {
    let none: &[u8] = &[];
    let members = members_of(line, time.unwrap_or(none));
    let shown = if time.is_some() { 11 } else { 10 };
    write_object(alloc, answers, &members[..shown])
}

/// The members of the JSON object of a line: each field under the name of its column, and the time at the end.
fn members_of<'a>(line: &'a [u8], time: &'a [u8]) -> [(&'static str, Item<'a>); 11] {
    let mut members = [("", Item::Absent); 11];
    members[0] = ("what", Item::Text("line"));
    members[10] = ("time", text_in(time));
    let mut rest = line;
    for place in 0..9 {
        let (key, is_number) = COLUMNS[place];
        let (field, after) = field_of(rest);
        members[place + 1] = (key, item_in(field, is_number));
        rest = after;
    }
    members
}

/// The first field of a line, and the text after its comma.
pub(crate) fn field_of(line: &[u8]) -> (&[u8], &[u8]) {
    match line.iter().position(|byte| *byte == b',') {
        Some(end) => (&line[..end], &line[end + 1..]),
        None => (line, &[]),
    }
}

/// A field as a number or as a text, whichever its column has; `null` if it is empty.
fn item_in(field: &[u8], is_number: bool) -> Item<'_> {
    if is_number {
        number_in(field)
    } else {
        text_in(field)
    }
}

/// A field as a text; `null` if it is empty.
fn text_in(field: &[u8]) -> Item<'_> {
    if field.is_empty() {
        Item::Absent
    } else {
        Item::Bytes(field)
    }
}

/// A field as a number; `null` if it is empty or is not a number.
fn number_in(field: &[u8]) -> Item<'_> {
    match str::from_utf8(field) {
        Ok(text) => match text.parse::<u64>() {
            Ok(number) => Item::Number(number),
            Err(_) => Item::Absent,
        },
        Err(_) => Item::Absent,
    }
}
