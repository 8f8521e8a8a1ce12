//! One line of a setup's text: a header, or a key with its value (`specs/Lines`).
ghost use Rattle.std.specs.Prelude.{◌≡◌, ◌==◌, ◌&&◌, ◌+◌, ◌<◌, ◌≤◌, ◌^◌, IfSome, length, option_map, position, take_while};
ghost use Rattle.nms_explain_toml.specs.Lines.{IsIn, bare_key, ends_value, header_in, is_bare, is_dotted, is_free, key_at, moved, name_in, names_key, pair_in, quoted_key, unquoted, value_after, value_in, value_length};
ghost use Rattle.nms_explain_toml.specs.Nesting.{outer_nest};

use crate::blanks::{trim, trim_end, trim_start};
use crate::nest::Nest;

/// The name in a header, and whether the header has two brackets; none if the line is no header.
pub(crate) fn header_in(line: &[u8]) -> Option<(&[u8], bool)>
    ensures { option_map (λ found. (found.0.now, found.1)) result ≡ header_in line.now }
{
    let line = trim(line);
    if line.starts_with(b"[[") {
        return Some((name_in(&line[2..])?, true));
    }
    if line.starts_with(b"[") {
        return Some((name_in(&line[1..])?, false));
    }
    None
}

/// The name in a header: the text before the closing bracket, without white space and quotes around it.
fn name_in(text: &[u8]) -> Option<&[u8]>
    ensures { option_map (λ name. name.now) result ≡ name_in text.now }
{
    let end = place_of(b']', text)?;
    Some(unquoted(trim(&text[..end])))
}

/// A name, without its quotes if it is a key.
fn unquoted(name: &[u8]) -> &[u8]
    ensures { result.now ≡ unquoted name.now (key_at name.now) }
{
    match key_at(name) {
        Some((key, rest)) => { if rest.is_empty() { key } else { name } }
        None => name,
    }
}

/// A key with its value, by the bytes of their line.
#[derive(Clone, Copy)]
pub struct Pair {
    /// How many bytes come before the key, and before its end.
    pub key: usize,
    pub key_end: usize,
    /// How many bytes come before the value, and before its end.
    pub start: usize,
    pub end: usize,
}

impl Pair {
    /// The same pair, moved by n bytes.
    pub(crate) fn moved(self, bytes: usize) -> Pair
        requires key { self.key + bytes < 2 ^ 64 }
        requires key_end { self.key_end + bytes < 2 ^ 64 }
        requires start { self.start + bytes < 2 ^ 64 }
        requires end { self.end + bytes < 2 ^ 64 }
        ensures { result ≡ moved self bytes }
    {
        Pair {
            key: self.key + bytes,
            key_end: self.key_end + bytes,
            start: self.start + bytes,
            end: self.end + bytes,
        }
    }
}

/// The place of a key with its value in a line that begins with it. If a point follows the key, the value is the text from the
/// key on.
pub(crate) fn pair_in(line: &[u8], key: &[u8]) -> Option<Pair>
    ensures value { result ≡ pair_in line.now key.now }
    ensures within { IfSome result (IsIn (length line.now)) }
{
    let from_key = trim_start(line);
    let (found, rest) = key_at(from_key)?;
    if found != key {
        return None;
    }
    let from_value = value_after(from_key, rest)?;
    let start = line.len() - from_value.len();
    Some(Pair {
        key: line.len() - from_key.len(),
        key_end: line.len() - rest.len(),
        start,
        end: start + value_in(from_value).len(),
    })
}

/// The text after the `=` of a key. If there is a point after the key, it is the text from the key on.
fn value_after<'a>(from_key: &'a [u8], rest: &'a [u8]) -> Option<&'a [u8]>
    requires { length rest.now ≤ length from_key.now }
    ensures value { option_map (λ from. from.now) result ≡ value_after from_key.now rest.now }
    ensures within { IfSome result (λ from. length from.now ≤ length from_key.now) }
{
    let after = trim_start(rest);
    if after.starts_with(b"=") {
        return Some(trim_start(&after[1..]));
    }
    if after.starts_with(b".") {
        return Some(from_key);
    }
    None
}

/// Whether the name in a header is a key, or begins with it and a point.
pub(crate) fn names_key(name: &[u8], key: &[u8]) -> bool
    ensures { result ≡ names_key name.now key.now }
{
    name == key || is_dotted(name, key)
}

/// Whether a name begins with a key and a point.
fn is_dotted(name: &[u8], key: &[u8]) -> bool
    ensures { result ≡ is_dotted key.now (key_at name.now) }
{
    match key_at(name) {
        Some((first, rest)) => first == key && rest.starts_with(b"."),
        None => false,
    }
}

/// The key at the beginning of a text, bare or in quotes, and the text after it.
pub(crate) fn key_at(text: &[u8]) -> Option<(&[u8], &[u8])>
    ensures value { option_map (λ found. (found.0.now, found.1.now)) result ≡ key_at text.now }
    ensures within { IfSome result (λ found. length found.1.now ≤ length text.now) }
{
    if text.starts_with(b"\"") {
        return quoted_key(b'"', &text[1..]);
    }
    if text.starts_with(b"'") {
        return quoted_key(b'\'', &text[1..]);
    }
    bare_key(text)
}

fn quoted_key(quote: u8, text: &[u8]) -> Option<(&[u8], &[u8])>
    ensures value { option_map (λ found. (found.0.now, found.1.now)) result ≡ quoted_key quote text.now }
    ensures within { IfSome result (λ found. length found.1.now ≤ length text.now) }
{
    let end = place_of(quote, text)?;
    Some((&text[..end], &text[end + 1..]))
}

/// How many bytes of a text come before the first byte with the given value, if it has one.
fn place_of(byte: u8, text: &[u8]) -> Option<usize>
    ensures value { result ≡ position (λ each. each == byte) text.now }
    ensures within { IfSome result (λ place. place < length text.now) }
{
    text.iter().position(|each| *each == byte)
}

fn bare_key(text: &[u8]) -> Option<(&[u8], &[u8])>
    ensures value { option_map (λ found. (found.0.now, found.1.now)) result ≡ bare_key text.now }
    ensures within { IfSome result (λ found. length found.1.now ≤ length text.now) }
{
    let end = bare_length(text);
    if end == 0 {
        return None;
    }
    Some((&text[..end], &text[end..]))
}

/// How many bytes at the start of a text are allowed in a key without quotes.
fn bare_length(text: &[u8]) -> usize
    ensures value { result ≡ length (take_while is_bare text.now) }
    ensures within { result ≤ length text.now }
{
    text.iter().take_while(|byte| is_bare(**byte)).count()
}

/// Whether a byte is allowed in a key without quotes.
fn is_bare(byte: u8) -> bool
    ensures { result ≡ is_bare byte }
{
    byte.is_ascii_alphanumeric() || byte == b'_' || byte == b'-'
}

/// The value at the beginning of a text. It ends before a comment, or before the bracket or brace that closes it.
pub(crate) fn value_in(rest: &[u8]) -> &[u8]
    ensures value { result.now ≡ value_in rest.now }
    ensures within { length result.now ≤ length rest.now }
{
    trim_end(&rest[..value_length(rest)])
}

/// How many bytes at the beginning of a text are its value and the white space after it.
fn value_length(rest: &[u8]) -> usize
    ensures value { result ≡ value_length outer_nest rest.now }
    ensures within { result ≤ length rest.now }
{
    let mut nest = Nest::outer();
    for place in 0..rest.len() {
        if ends_here(nest, rest[place]) {
            return place;
        }
        nest = nest.after_byte(&rest[place..]);
    }
    rest.len()
}

/// Whether a value ends before a byte with this nesting.
fn ends_here(nest: Nest, byte: u8) -> bool
    ensures { result ≡ (is_free nest && ends_value byte) }
{
    nest.is_plain_at(0) && ends_value(byte)
}

/// Whether a value ends before a byte of TOML syntax.
fn ends_value(byte: u8) -> bool
    ensures { result ≡ ends_value byte }
{
    byte == b',' || byte == b']' || byte == b'}' || byte == b'#'
}
