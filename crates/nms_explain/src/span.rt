//! The place of a field in the text of its record, and in the file.
ghost use Rattle.std.specs.Prelude.{◌≤◌, IfSome, length};

use crate::line_count::LineCount;
use crate::quoting::Quoting;
use memchr::memrchr2;
use nms_show::Location;

/// A part of the text of a record: its first byte, and the one after its last.
#[derive(Clone, Copy)]
pub(crate) struct Span {
    pub(crate) start: usize,
    pub(crate) end: usize,
}

/// A place in a file.
#[derive(Clone, Copy)]
pub(crate) struct Point {
    /// The line, counted from 1.
    pub(crate) line: u64,
    /// The column, which is a byte of the line, counted from 1.
    pub(crate) column: u64,
}

impl Point {
    /// This place, with the name of the file in which it is.
    pub(crate) fn of_file<'a>(self, file: &'a str) -> Location<'a> {
        Location {
            file,
            line: self.line,
            column: self.column,
        }
    }
}

/// The span of the field after n others, with its quotes; the end of the text if the record has fewer fields.
pub(crate) fn span_of(text: &[u8], place: usize) -> Span {
    let mut quoting = Quoting::Start;
    let mut start = 0;
    let mut passed = 0;
    for at in 0..text.len() {
        let within = quoting == Quoting::Within;
        quoting = quoting.after(text[at]);
        if text[at] == b',' && !within {
            if passed == place {
                return Span { start, end: at };
            }
            passed += 1;
            start = at + 1;
        }
    }
    let end = text.len();
    if passed == place {
        Span { start, end }
    } else {
        Span { start: end, end }
    }
}

/// The place of the first quote that opens a field which goes on over a line end, or to the end of the text.
pub(crate) fn open_quote(text: &[u8]) -> Option<usize>
    ensures { IfSome result (λ at. at ≤ length text.now) }
{
    let mut quoting = Quoting::Start;
    let mut opened = 0;
    for at in 0..text.len() {
        let next = quoting.after(text[at]);
        if next == Quoting::Within {
            if quoting == Quoting::Start {
                opened = at;
            }
            if text[at] == b'\n' || text[at] == b'\r' {
                return Some(opened);
            }
        }
        quoting = next;
    }
    if quoting == Quoting::Within {
        Some(opened)
    } else {
        None
    }
}

/// The place in the file of a byte of a text that begins at the start of a line, with the lines before it. None if there are
/// more lines than a number counts.
pub(crate) fn point_at(text: &[u8], lines: LineCount, at: usize) -> Option<Point> {
    let before = text.get(..at).unwrap_or(text);
    let in_line = match memrchr2(b'\n', b'\r', before) {
        Some(last) => before.len() - last,
        None => before.len() + 1,
    };
    Some(Point {
        line: lines.after(before)?.line,
        column: in_line as u64,
    })
}

/// The span of the name after n others, among those that a field joins by `+`.
pub(crate) fn name_span(text: &[u8], field: Span, nth: usize) -> Span {
    let mut start = field.start;
    let mut passed = 0;
    for at in field.start..field.end.min(text.len()) {
        if text[at] == b'+' {
            if passed == nth {
                return Span { start, end: at };
            }
            passed += 1;
            start = at + 1;
        }
    }
    Span {
        start,
        end: field.end,
    }
}
