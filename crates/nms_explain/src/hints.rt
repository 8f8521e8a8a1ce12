//! Hints at what a refused record looks like instead.
ghost use Rattle.std.specs.Prelude.{◌+◌, ◌<◌, ◌^◌, IfSome, length};
ghost use Rattle.csv.specs.Records.{fields_of};

use crate::places::{kind_of, most_fields, text_at};
use memchr::memchr;
use nms_lines::{ByteRecord, LineFault};
use nms_quote::{Feed, Roster};

/// The words that the records of a plan begin with.
const PLAN_WORDS: [&str; 4] = ["PLAN", "LEG", "CUT", "END"];
/// The words that answers begin with.
const ANSWER_WORDS: [&str; 8] = [
    "PUB", "TOLD", "BEST", "THRU", "ROW", "ERR", "TAPE", "ANSWER",
];

/// What a refused record looks like, if it looks like something else.
pub(crate) fn hint_of(
    fault: LineFault,
    number: u64,
    text: &[u8],
    row: &ByteRecord,
) -> &'static str {
    match fault {
        LineFault::UnknownKind => hint_of_kind(number, text),
        LineFault::FieldCount => hint_of_count(text, row),
        LineFault::UnknownParticipant
        | LineFault::UnknownSymbol
        | LineFault::BadState
        | LineFault::BadPrice
        | LineFault::BadShares
        | LineFault::HalfSide
        | LineFault::WrongFeed
        | LineFault::BadDesk
        | LineFault::BadLot => "",
    }
}

/// What a record of an unknown kind looks like. More cases are tested for the first record of a file.
pub(crate) fn hint_of_kind(number: u64, text: &[u8]) -> &'static str {
    if memchr(0, text).is_some() || text.starts_with(b"\xFF\xFE") || text.starts_with(b"\xFE\xFF") {
        return "this looks like UTF-16: save the file as ASCII or UTF-8";
    }
    let first = text.split(|byte| *byte == b',').next().unwrap_or(&[]);
    let by_word = hint_of_word(first);
    if !by_word.is_empty() {
        return by_word;
    }
    let by_mark = hint_of_marks(first);
    if by_mark.is_empty() && number == 1 && is_word(first) {
        return "this looks like a header row: there is none; for a vendor's file see import";
    }
    by_mark
}

/// What a record looks like that begins with a word.
fn hint_of_word(first: &[u8]) -> &'static str {
    match first {
        [letter] => hint_of_letter(*letter),
        _ if is_one_of(&PLAN_WORDS, first) =>
            "this looks like the text of a plan: were files swapped?",
        _ if is_one_of(&ANSWER_WORDS, first) => {
            "this looks like the answers of a run: were files swapped?"
        }
        _ => "",
    }
}

/// What a record looks like that begins with a letter.
fn hint_of_letter(first: u8) -> &'static str {
    match first {
        b'Q' | b'S' | b'X' | b'R' => "this looks like a file of changes: were files swapped?",
        b'O' => "this looks like a file of orders: were files swapped?",
        b'L' | b'N' | b'E' | b'T' | b'F' | b'P' =>
            "this looks like a script: only a script has this kind",
        b'a'..=b'z' => "kinds are capital letters",
        _ => "",
    }
}

/// Whether a word is one of the given ones.
fn is_one_of(words: &[&str], first: &[u8]) -> bool {
    words.iter().any(|word| word.as_bytes() == first)
}

/// What a record looks like by the marks before its first comma.
fn hint_of_marks(first: &[u8]) -> &'static str {
    match first {
        [b'#' | b'/' | b'-' | b'*', ..] => "this looks like a comment: there are none",
        [b'{', ..] => "this looks like JSON: records are fields between commas",
        [b'[', ..] => "this looks like a setup: were files swapped?",
        [b' ', ..] => "no space may stand before a kind",
        _ if memchr(b'|', first).is_some() => hint_of_pipes(first),
        _ if memchr(b'\t', first).is_some() => hint_of_tabs(first),
        _ if memchr(b';', first).is_some() =>
            "semicolons stand between the fields: commas are expected",
        _ if memchr(b'=', first).is_some() => "this looks like a setup: were files swapped?",
        _ => "",
    }
}

/// What a record looks like whose fields are separated by pipes.
fn hint_of_pipes(first: &[u8]) -> &'static str {
    match first {
        [b'A'..=b'Z', b'|', ..] => "pipes stand between the fields: commas are expected",
        _ => "this looks like pipe-separated values: see import",
    }
}

/// What a record looks like whose fields are separated by tabs.
fn hint_of_tabs(first: &[u8]) -> &'static str {
    match first {
        [b'A'..=b'Z', b'\t', ..] => "tabs stand between the fields: commas are expected",
        _ => "this looks like tab-separated values: see import",
    }
}

/// Whether a text is a word of two letters or more.
fn is_word(text: &[u8]) -> bool {
    text.len() > 1
        && text
            .iter()
            .all(|byte| byte.is_ascii_alphabetic() || *byte == b'_')
}

/// A hint why a record does not have the number of fields that its kind has.
fn hint_of_count(text: &[u8], row: &ByteRecord) -> &'static str {
    if parted_number(row).is_some() {
        return "a comma within a number parts it in two: write numbers without separators";
    }
    if text.last() == Some(&b',') && has_more(row) {
        return "a comma too many stands at the end";
    }
    if memchr(b';', text).is_some() {
        return "a semicolon stands in this record: commas are expected";
    }
    ""
}

/// Whether a record has more fields than its kind allows.
fn has_more(row: &ByteRecord) -> bool {
    surplus(row) > 0
}

/// How many fields too many a record has for its kind.
fn surplus(row: &ByteRecord) -> usize {
    if kind_of(row).is_none() {
        return 0;
    }
    let (count, most) = (row.len(), most_fields(row));
    if count > most { count - most } else { 0 }
}

/// How many fields come before a number that a comma parts in two, as in `1,000.00`. It is found only if such numbers account
/// for all the surplus fields of the record.
pub(crate) fn parted_number(row: &ByteRecord) -> Option<usize>
    ensures { IfSome result (λ place. place + 1 < length (fields_of row.now)) }
{
    let mut first = None;
    let mut count: usize = 0;
    let mut is_free = true;
    for place in 1..row.len() {
        let begins = is_free && is_head(text_at(row, place - 1)) && is_tail(text_at(row, place));
        if begins {
            first = first.or(Some(place - 1));
            count += 1;
        }
        is_free = !begins;
    }
    if count > 0 && count == surplus(row) {
        first
    } else {
        None
    }
}

/// Whether a text may be the part of a number before a comma: 1 to 3 digits.
fn is_head(text: &[u8]) -> bool {
    !text.is_empty() && text.len() <= 3 && text.iter().all(|byte| byte.is_ascii_digit())
}

/// Whether a text may be the part of a number after a comma: 3 digits, and a point or nothing.
fn is_tail(text: &[u8]) -> bool {
    match text {
        [b'0'..=b'9', b'0'..=b'9', b'0'..=b'9'] => true,
        [b'0'..=b'9', b'0'..=b'9', b'0'..=b'9', b'.', ..] => true,
        _ => false,
    }
}

/// The feed on which a participant sends, as a hint.
pub(crate) fn hint_of_feed(name: &[u8], roster: &Roster) -> &'static str {
    let Some(part) = roster.find_part(name) else {
        return "";
    };
    match roster.feed_of(part) {
        Feed::A => "it sends on feed A",
        Feed::B => "it sends on feed B",
        Feed::C => "it sends on feed C",
        Feed::D => "it sends on feed D",
        Feed::E => "it sends on feed E",
        Feed::F => "it sends on feed F",
        Feed::G => "it sends on feed G",
        Feed::H => "it sends on feed H",
    }
}
