//! A part of a text, by its line (`specs/Marking`).
ghost use Rattle.std.specs.Prelude.{◌≡◌, ◌+◌, ◌-◌, ◌≤◌, count_by, length, max, min, not, reverse, slice_range, take, take_while};
ghost use Rattle.nms_explain_toml.specs.Marking.{begins_character, column_at, is_feed, line_begin, line_from, line_number, remarked, span, whole};
ghost use Rattle.nms_explain_toml.specs.Blanks.{trim_end};

use crate::blanks::{trim_end, trim_start};
use crate::toml_line::Pair;

/// A part of a line.
#[derive(Clone, Copy)]
pub struct Marked<'a> {
    /// The line, without its end.
    pub line: &'a [u8],
    /// How many bytes of the text come before the line.
    pub before: usize,
    /// The line's number, counted from 1.
    pub number: u64,
    /// The marked key and value, by the bytes of the line. Both are the same if there is no key with its value.
    pub pair: Pair,
}

impl<'a> Marked<'a> {
    /// The bytes of the value.
    pub fn value(&self) -> &'a [u8]
        ensures { result.now ≡ slice_range self.now.line.now self.now.pair.start self.now.pair.end }
    {
        bytes_between(self.line, self.pair.start, self.pair.end)
    }

    /// The column at which the carets begin, in characters counted from 1.
    pub fn column(&self) -> u64
        ensures { result ≡ column_at self.now.line.now self.now.pair.start }
    {
        let before = first_bytes(self.line, self.pair.start);
        1 + before
            .iter()
            .filter(|byte| begins_character(**byte))
            .count() as u64
    }

    /// The same line, with only the key marked.
    pub fn at_key(self) -> Marked<'a>
        ensures { result ≡ remarked self.entry (span self.entry.pair.key self.entry.pair.key_end) }
    {
        self.at(self.pair.key, self.pair.key_end)
    }

    /// The same line, with another part marked, by the numbers of bytes before its start and before its end.
    pub fn at(self, start: usize, end: usize) -> Marked<'a>
        ensures { result ≡ remarked self.entry (span start end) }
    {
        let pair = Pair {
            key: start,
            key_end: end,
            start,
            end,
        };
        self.with(pair)
    }

    /// The same line, with another key and its value marked.
    pub fn with(self, pair: Pair) -> Marked<'a>
        ensures { result ≡ remarked self.entry pair }
    {
        Marked {
            line: self.line,
            before: self.before,
            number: self.number,
            pair,
        }
    }

    /// The complete line, without white space around it.
    pub fn whole(self) -> Marked<'a>
        ensures { result ≡ whole self.entry }
    {
        let indent = self.line.len() - trim_start(self.line).len();
        self.at(indent, self.line.len())
    }

    /// A line of a text, marked at its start. White space and the line feed at its end are left out.
    pub fn of_line(line: &'a [u8], before: usize, number: u64) -> Marked<'a>
        ensures line { result.line.now ≡ trim_end line.now }
        ensures before { result.before ≡ before }
        ensures number { result.number ≡ number }
        ensures pair { result.pair ≡ span 0 0 }
        ensures within { length result.line.now ≤ length line.now }
    {
        let pair = Pair {
            key: 0,
            key_end: 0,
            start: 0,
            end: 0,
        };
        Marked {
            line: trim_end(line),
            before,
            number,
            pair,
        }
    }
}

/// The bytes of a line from one place to another, as far as the line has them.
fn bytes_between(bytes: &[u8], start: usize, end: usize) -> &[u8]
    ensures { result.now ≡ slice_range bytes.now start end }
{
    if end <= start || bytes.len() <= start {
        return &[];
    }
    first_bytes(&bytes[start..], end - start)
}

/// The first n bytes of a text, or all of them if it has fewer.
fn first_bytes(bytes: &[u8], most: usize) -> &[u8]
    ensures { result.now ≡ take most bytes.now }
{
    if bytes.len() <= most {
        return bytes;
    }
    &bytes[..most]
}

/// Whether a byte begins a character.
fn begins_character(byte: u8) -> bool
    ensures { result ≡ begins_character byte }
{
    byte < 128 || byte >= 192
}

/// How many bytes of a text come before its first line feed; all of them if it has none.
fn line_length(rest: &[u8]) -> usize
    ensures value { result ≡ length (take_while (λ byte. not (is_feed byte)) rest.now) }
    ensures within { result ≤ length rest.now }
{
    rest.iter().take_while(|byte| **byte != b'\n').count()
}

/// How many bytes of a text come after its last line feed; all of them if it has none.
fn bytes_after(before: &[u8]) -> usize
    ensures value { result ≡ length (take_while (λ byte. not (is_feed byte)) (reverse before.now)) }
    ensures within { result ≤ length before.now }
{
    before
        .iter()
        .rev()
        .take_while(|byte| **byte != b'\n')
        .count()
}

/// The line that begins at a place, without its end.
#[tactic(auto, using(crate::proofs::MarkFacts::take_front))]
pub(crate) fn line_from(text: &[u8], begin: usize) -> &[u8]
    requires { begin ≤ length text.now }
    ensures value { result.now ≡ line_from text.now begin }
    ensures within { begin + length result.now ≤ length text.now }
{
    let rest = &text[begin..];
    &rest[..line_length(rest)]
}

/// The place at which the line with a given place begins.
fn line_begin(text: &[u8], place: usize) -> usize
    requires { place ≤ length text.now }
    ensures value { result ≡ line_begin text.now place }
    ensures within { result ≤ place }
{
    place - bytes_after(&text[..place])
}

/// The number of the line with a given place.
fn line_number(text: &[u8], place: usize) -> u64
    ensures { result ≡ line_number text.now place }
{
    let before = first_bytes(text, place);
    1 + before.iter().filter(|byte| **byte == b'\n').count() as u64
}

/// The part of a text from one place to another, or to the end of the line in which it begins. A place past the end of the
/// text is its end.
#[tactic(auto, using(crate::proofs::MarkFacts::column_is))]
pub fn mark_at(text: &[u8], start: usize, end: usize) -> Marked<'_>
    ensures number { result.number ≡ line_number text.now start }
    ensures before { result.before ≡ line_begin text.now (min start (length text.now)) }
    ensures line { result.line.now ≡ trim_end (line_from text.now result.before) }
    ensures start { result.pair.start ≡ min (min start (length text.now) - result.before) (length result.line.now) }
    ensures end { result.pair.end ≡ min (max end (min start (length text.now)) - result.before) (length result.line.now) }
    ensures part { result.pair ≡ span result.pair.start result.pair.end }
    ensures within { result.before + length result.line.now ≤ length text.now }
    ensures place { start ≤ result.before + length result.line.now → result.before + result.pair.start ≡ start }
    ensures column { start ≤ result.before + length result.line.now
        → column_at result.line.now result.pair.start ≡ 1 + count_by begins_character (slice_range text.now result.before start) }
{
    let number = line_number(text, start);
    let place = start.min(text.len());
    let begins = line_begin(text, place);
    let marked = Marked::of_line(line_from(text, begins), begins, number);
    let after = end.max(place) - begins;
    let long = marked.line.len();
    marked.at((place - begins).min(long), after.min(long))
}
