//! Finding a table and a key in a setup's text. It does not find everything that TOML allows: neither a key with escapes, nor
//! one below a header with points. The text is read once for the lines that have a header or a key; then each place is looked
//! for among these.
ghost use Rattle.std.specs.Prelude.{◌≡◌, ◌+◌, ◌-◌, ◌^◌, ◌<◌, ◌≤◌, IfSome, length};
ghost use Rattle.nms_explain_toml.specs.Lines.{IsIn};
ghost use Rattle.nms_explain_toml.specs.Marking.{IsOf};

use super::in_braces::{element_in, key_in};
use crate::blanks::trim_start;
use crate::line_start::LineStart;
use crate::marked::{Marked, line_from, mark_at};
use crate::toml_line::{Pair, header_in, key_at, value_in};
use nms_setup_places::{SetupArray, SetupTable};
use std::alloc::{AllocError, Global};

/// The lines of a setup's text that have a header or a key, in order.
#[derive(Drop)]
pub(crate) struct Lines {
    all: Vec<Entry>,
}

/// A line with a header or a key.
#[derive(Clone, Copy)]
struct Entry {
    at: Reached,
    /// How many bytes the line has, without its end.
    long: usize,
    /// The table that begins with the line, if one does.
    begins: Option<SetupTable>,
}

/// The lines of a text that have a header or a key.
pub(crate) fn lines_of(alloc: Global, text: &[u8]) -> Result<Lines, AllocError> {
    let mut all = Vec::new(alloc);
    match add_lines(text, &mut all) {
        Ok(()) => Ok(Lines { all }),
        Err(fault) => Err(fault),
    }
}

/// Adds the lines that have a header or a key.
fn add_lines(text: &[u8], all: &mut Vec<Entry>) -> Result<(), AllocError> {
    let mut reached = Reached::top();
    'lines: loop {
        let line = line_from(text, reached.start.bytes);
        let entered = reached.entering(line);
        if reached.start.nest.is_outer() && has_words(line) {
            all.push(Entry {
                at: reached,
                long: line.len(),
                begins: if entered.table == reached.table {
                    None
                } else {
                    entered.table
                },
            })?;
        }
        if text.len() - reached.start.bytes == line.len() {
            return Ok(());
        }
        reached = entered.after(line);
    }
}

/// Whether a line has more than white space and a comment.
fn has_words(line: &[u8]) -> bool {
    match trim_start(line).first() {
        Some(first) => *first != b'#',
        None => false,
    }
}

impl Entry {
    /// The bytes of the line; none if the text is too short to have it.
    fn line(self, text: &[u8]) -> Option<&[u8]>
        ensures { IfSome result (λ line. self.at.start.bytes + length line.now ≤ length text.now) }
    {
        let start = self.at.start.bytes;
        if start > text.len() || self.long > text.len() - start {
            return None;
        }
        let rest = &text[start..];
        Some(&rest[..self.long])
    }

    /// The place of a key of a table, if this line has that key.
    fn key_of<'a>(self, text: &'a [u8], table: SetupTable, key: &[u8]) -> Option<Marked<'a>>
        ensures within { IfSome result (λ marked. marked.before + marked.pair.start ≤ length text.now) }
        ensures of_text { IfSome result (IsOf text.now) }
    {
        let line = self.line(text)?;
        self.at.key_of(text, line, table, key)
    }
}

/// The place of a key in a table. For a table at a key of the top, or of an element of an array, it is its header.
pub(crate) fn locate_key<'a>(
    lines: &Lines,
    text: &'a [u8],
    table: SetupTable,
    key: &[u8],
) -> Option<Marked<'a>>
    ensures { IfSome result (IsOf text.now) }
{
    if let Some(marked) = locate_line(lines, text, table, key) {
        return Some(marked);
    }
    let (array, place) = row_of(table)?;
    let begins = locate_element(lines, text, array, place)?;
    let (before, pair) = key_in(&text[begins..], key)?;
    Some(mark_from(text, begins + before, pair))
}

/// A key with its value, marked in its line. The pair counts its bytes from the given place of the text.
fn mark_from(text: &[u8], place: usize, pair: Pair) -> Marked<'_>
    requires within { place ≤ length text.now }
    requires pair { IsIn (length text.now - place) pair }
    ensures { IsOf text.now result }
{
    let at = mark_at(text, place, text.len());
    at.with(pair.moved(at.pair.start))
}

/// The line of a table that has a key.
fn locate_line<'a>(
    lines: &Lines,
    text: &'a [u8],
    table: SetupTable,
    key: &[u8],
) -> Option<Marked<'a>>
    ensures within { IfSome result (λ marked. marked.before + marked.pair.start ≤ length text.now) }
    ensures of_text { IfSome result (IsOf text.now) }
{
    for entry in &lines.all {
        if let Some(marked) = entry.key_of(text, table, key) {
            return Some(marked);
        }
    }
    None
}

/// The beginning of a table: its header, or its element in an array in brackets.
pub(crate) fn locate_table<'a>(
    lines: &Lines,
    text: &'a [u8],
    table: SetupTable,
) -> Option<Marked<'a>>
    ensures { IfSome result (IsOf text.now) }
{
    if let Some(marked) = locate_header(lines, text, table) {
        return Some(marked);
    }
    let (array, place) = row_of(table)?;
    let begins = locate_element(lines, text, array, place)?;
    let at = mark_at(text, begins, text.len());
    let start = at.pair.start;
    Some(at.at(start, start + value_in(at.value()).len()))
}

/// The header of a table.
fn locate_header<'a>(lines: &Lines, text: &'a [u8], table: SetupTable) -> Option<Marked<'a>>
    ensures { IfSome result (IsOf text.now) }
{
    for entry in &lines.all {
        if entry.begins == Some(table) {
            return Some(entry.at.start.mark(text).whole());
        }
    }
    None
}

/// The beginning of an element of an array in brackets: how many bytes of the text come before it.
fn locate_element(lines: &Lines, text: &[u8], array: SetupArray, place: usize) -> Option<usize>
    ensures { IfSome result (λ begins. begins ≤ length text.now) }
{
    let key = array.key().text().as_bytes();
    let marked = locate_line(lines, text, SetupTable::Top, key)?;
    let begins = marked.before + marked.pair.start;
    Some(begins + element_in(&text[begins..], place)?)
}

/// The array of which a table is an element, and how many elements come before it.
pub(crate) fn row_of(table: SetupTable) -> Option<(SetupArray, usize)> {
    match table {
        SetupTable::Top => None,
        SetupTable::Participant(place) => Some((SetupArray::Participant, place)),
        SetupTable::Symbol(place) => Some((SetupArray::Symbol, place)),
    }
}

/// The state at the beginning of a line of a setup's text.
#[derive(Clone, Copy)]
struct Reached {
    /// The beginning of the line.
    start: LineStart,
    /// The table of the line, if it is one of a setup's.
    table: Option<SetupTable>,
    /// How many headers of participants come before the line, and how many headers of symbols.
    participants: usize,
    symbols: usize,
}

impl Reached {
    /// The state before the first line.
    fn top() -> Reached
        ensures start { result.start.bytes ≡ 0 }
        ensures depth { result.start.nest.depth ≡ 0 }
        ensures participants { result.participants ≡ 0 }
        ensures symbols { result.symbols ≡ 0 }
    {
        Reached {
            start: LineStart::first(),
            table: Some(SetupTable::Top),
            participants: 0,
            symbols: 0,
        }
    }

    /// The place of a key of a table, if this line has that key.
    fn key_of<'a>(
        self,
        text: &'a [u8],
        line: &[u8],
        table: SetupTable,
        key: &[u8],
    ) -> Option<Marked<'a>>
        requires within { self.start.bytes + length line.now ≤ length text.now }
        ensures within { IfSome result (λ marked. marked.before + marked.pair.start ≤ length text.now) }
        ensures of_text { IfSome result (IsOf text.now) }
    {
        if !self.start.nest.is_outer() {
            return None;
        }
        if self.is_header_of(line, table, key) {
            return Some(self.start.mark(text).whole());
        }
        let is_in = self.table == Some(table);
        let is_top = table == SetupTable::Top;
        self.start.key_of(text, line, is_in, is_top, key)
    }

    /// Whether this line is the header of a table that is a key of an element of an array, as `[participant.name]`. It belongs
    /// to the last element that began before it.
    fn is_header_of(self, line: &[u8], table: SetupTable, key: &[u8]) -> bool {
        let (array, began) = match table {
            SetupTable::Top => return false,
            SetupTable::Participant(place) => {
                (SetupArray::Participant, is_next(place, self.participants))
            }
            SetupTable::Symbol(place) => (SetupArray::Symbol, is_next(place, self.symbols)),
        };
        match header_in(line) {
            Some((name, _)) => began && is_within(name, array.key().text().as_bytes(), key),
            None => false,
        }
    }

    /// The state after the header in this line; the same state if the line is no header.
    fn entering(self, line: &[u8]) -> Reached
        requires within { self.start.bytes + length line.now < 2 ^ 64 }
        requires participants { self.participants ≤ self.start.bytes }
        requires symbols { self.symbols ≤ self.start.bytes }
        ensures start { result.start ≡ self.start }
        ensures participants { result.participants ≤ self.start.bytes + 1 }
        ensures symbols { result.symbols ≤ self.start.bytes + 1 }
    {
        if line.is_empty() || !self.start.nest.is_outer() {
            return self;
        }
        match header_in(line) {
            Some((name, is_double)) => self.entered(name, is_double),
            None => self,
        }
    }

    /// The state after a line and its end.
    fn after(self, line: &[u8]) -> Reached
        requires within { self.start.bytes + length line.now + 1 < 2 ^ 64 }
        requires depth { self.start.nest.depth ≤ self.start.bytes }
        ensures start { result.start.bytes ≡ self.start.bytes + length line.now + 1 }
        ensures depth { result.start.nest.depth ≤ result.start.bytes }
        ensures participants { result.participants ≡ self.participants }
        ensures symbols { result.symbols ≡ self.symbols }
    {
        Reached {
            start: self.start.after(line),
            table: self.table,
            participants: self.participants,
            symbols: self.symbols,
        }
    }

    /// The state after a header, in the table that begins with it.
    fn entered(self, name: &[u8], is_double: bool) -> Reached
        requires participants { self.participants + 1 < 2 ^ 64 }
        requires symbols { self.symbols + 1 < 2 ^ 64 }
        ensures start { result.start ≡ self.start }
        ensures participants { result.participants ≤ self.participants + 1 }
        ensures symbols { result.symbols ≤ self.symbols + 1 }
    {
        let mut reached = self;
        reached.table = None;
        if is_double && name == b"participant".as_slice() {
            reached.table = Some(SetupTable::Participant(self.participants));
            reached.participants = self.participants + 1;
        }
        if is_double && name == b"symbol".as_slice() {
            reached.table = Some(SetupTable::Symbol(self.symbols));
            reached.symbols = self.symbols + 1;
        }
        reached
    }
}

/// Whether the element at a place, counted from 0, is the last of n elements.
fn is_next(place: usize, count: usize) -> bool {
    count > 0 && count - 1 == place
}

/// Whether the name in a header is that of a table, a point, and a key, or begins with these.
fn is_within(name: &[u8], table: &[u8], key: &[u8]) -> bool {
    let Some((first, rest)) = key_at(name) else {
        return false;
    };
    let after = trim_start(rest);
    first == table && after.starts_with(b".") && begins_with(trim_start(&after[1..]), key)
}

/// Whether a text begins with a key.
fn begins_with(text: &[u8], key: &[u8]) -> bool {
    match key_at(text) {
        Some((first, _)) => first == key,
        None => false,
    }
}
