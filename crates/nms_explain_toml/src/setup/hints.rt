//! What a text that is no setup looks like, and what a refused place probably means.
use crate::toml_line::header_in;
use nms_fees::SetupFault;
use nms_setup_places::{Finding, KnownKey, Spot};
use toml::Value;

/// What a text that is not a TOML document looks like, or what its refused line looks like. Empty if it looks like neither.
pub(crate) fn text_hint(text: &[u8], line: &[u8], place: usize) -> &'static str {
    if is_utf16(text) {
        return "the file looks like UTF-16: save it as UTF-8";
    }
    if begins_records(text) {
        return "the file looks like records, as a file of changes has them, and not like a setup: were the files swapped?";
    }
    line_hint(line, place)
}

/// Whether a text begins as UTF-16 does: with its byte order mark, or with a letter next to a zero byte.
fn is_utf16(text: &[u8]) -> bool {
    matches!(
        text,
        [0xFF, 0xFE, ..] | [0xFE, 0xFF, ..] | [0, _, ..] | [_, 0, ..]
    )
}

/// Whether the first line that is not blank is a record: a kind of capital letters, and a comma after it.
fn begins_records(text: &[u8]) -> bool {
    let first = text.trim_ascii_start();
    let kind = first
        .iter()
        .take_while(|byte| byte.is_ascii_uppercase())
        .count();
    kind > 0 && first.get(kind) == Some(&b',')
}

/// What a line probably means at the place at which the parser stopped.
fn line_hint(line: &[u8], place: usize) -> &'static str {
    if let Some((name, false)) = header_in(line) {
        if name == b"participant".as_slice() || name == b"symbol".as_slice() {
            return "each participant and each symbol begins with two brackets: [[participant]], [[symbol]]";
        }
    }
    let before = line.get(..place).unwrap_or(line).trim_ascii_end();
    match line.get(place).copied() {
        Some(b':') => "a key and its value are joined by =",
        Some(b',') => "a number has no separators",
        Some(b'#') | None if before.ends_with(b"=") => "nothing stands after the = of this key",
        Some(byte) if byte.is_ascii_alphabetic() && before.ends_with(b"=") => {
            "a text stands in quotes, as in name = \"N\""
        }
        _ => "",
    }
}

/// What a refused value probably means.
pub(crate) fn value_hint(finding: &Finding, value: &Value) -> &'static str {
    let Spot::Key(key) = finding.spot else {
        return "";
    };
    match finding.fault {
        SetupFault::WrongType => kind_hint(key, value),
        SetupFault::BadName | SetupFault::OutOfRange => letters_hint(value),
        SetupFault::NotToml
        | SetupFault::Missing
        | SetupFault::UnknownKey
        | SetupFault::OverCap
        | SetupFault::TooMany
        | SetupFault::NoMemory => "",
    }
}

/// What a value of another kind probably means.
fn kind_hint(key: KnownKey, value: &Value) -> &'static str {
    match (key, value) {
        (KnownKey::Participant, Value::Table(_)) => "write two brackets: [[participant]]",
        (KnownKey::Symbol, Value::Table(_)) => "write two brackets: [[symbol]]",
        (KnownKey::Name | KnownKey::Feed, _) => "names and feeds stand in quotes",
        (KnownKey::Fee, Value::Float(_)) =>
            "a dollar is 1000000000 nanodollars: 0.0028 dollars are 2800000",
        (_, Value::String(_)) => "numbers have no quotes",
        (_, Value::Float(_)) => "a whole number has no point",
        _ => "",
    }
}

/// What a text in small letters, or with spaces around it, probably means.
fn letters_hint(value: &Value) -> &'static str {
    let Some(text) = value.as_str() else {
        return "";
    };
    if text.bytes().any(|byte| byte.is_ascii_lowercase()) {
        return "capital letters are wanted";
    }
    if text.bytes().any(|byte| byte == b' ') {
        return "no spaces may stand in it";
    }
    ""
}
