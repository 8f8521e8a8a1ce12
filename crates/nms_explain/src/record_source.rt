//! A source that passes its bytes on as they come, and keeps those of the present record.
//!
//! It keeps all of a record, however long that is, so that a report shows the same text that the reader of records read. It
//! drops what comes before the present record.
ghost use Rattle.std.specs.Prelude.{◌≡◌, ◌≤◌, ◌++◌, ◌∷◌, [], ℕ, List, Option, Ok, true, false, length};
ghost use Rattle.std.specs.Io.{ReadsAtMost};
ghost use Rattle.std.specs.Io.KnownBytes.{ReadConsumes};
ghost use Rattle.csv.specs.Records.{fields_of};
ghost use Rattle.nms_lines.specs.Layout.{Record};
ghost use Rattle.nms_lines.specs.Records.{AreAllRecords, ReadsFrom};
ghost use Rattle.nms_explain.specs.Source.{left_of};

use crate::line_count::LineCount;
use crate::span::{Point, point_at};
use nms_lines::{ByteRecord, Reader, RecordFault, open_records, read_next};
use std::alloc::Global;
use std::cell::Cell;
use std::io;
use std::io::Read;

/// The byte order mark, which may come before the first record and is no part of it.
const MARK: [u8; 3] = [0xEF, 0xBB, 0xBF];

/// A source, with the bytes of the present record that were passed on.
#[derive(Drop)]
pub(crate) struct RecordSource<R> {
    source: R,
    /// The bytes that were passed on since the start of the record that was present at the last request.
    kept: Vec<u8>,
    /// How many bytes were passed on before the kept ones, and the lines before them.
    passed: u64,
    lines: LineCount,
    /// The place among the kept bytes at which the last ones passed on begin, and the lines before them.
    recent: usize,
    recent_lines: LineCount,
    /// How many bytes were passed on up to the end of the previous record. The owner of the reader sets it.
    ended: Cell<u64>,
    is_out_of_memory: bool,
}

/// The text of a record, without its line end, and the line on which it begins.
#[derive(Clone, Copy)]
pub(crate) struct RecordText<'a> {
    pub(crate) text: &'a [u8],
    pub(crate) line: u64,
}

/// A reader of the records of a source, which keeps the text of the last record that was read.
pub(crate) fn open_source<R: Read>(alloc: Global, source: R) -> Reader<RecordSource<R>>
    ensures { ReadsFrom (left_of R.remaining) result (R.remaining source) [] }
{
    open_records(alloc, RecordSource::new(alloc, source))
}

/// Reads the next record; `false` if there is none. It fails with `NoMemory` also if there is no memory to keep the record's
/// text.
pub(crate) fn next_record<R: Read>(
    reader: &mut Reader<RecordSource<R>>,
    row: &mut ByteRecord,
) -> Result<bool, RecordFault>
    ensures found { (bytes : Option (List ℕ)) (seen : List Record)
        → ReadsFrom (left_of R.remaining) reader.old bytes seen → result ≡ Ok true
        → ReadsFrom (left_of R.remaining) reader.new bytes (seen ++ fields_of row.new ∷ []) }
    ensures end { (bytes : Option (List ℕ)) (seen : List Record)
        → ReadsFrom (left_of R.remaining) reader.old bytes seen → result ≡ Ok false → AreAllRecords bytes seen }
{
    reader.get_ref().ended.set(reader.position().byte);
    let next = read_next(reader, row);
    if reader.get_ref().is_out_of_memory {
        return Err(RecordFault::NoMemory);
    }
    next
}

/// The text of the last record that was read, and its line; none if there are more lines than a number counts.
pub(crate) fn record_of<R: Read>(reader: &Reader<RecordSource<R>>) -> Option<RecordText<'_>> {
    reader.get_ref().record(reader.position().byte)
}

impl<R> RecordSource<R> {
    /// A record source over a source of bytes of which nothing is read yet.
    fn new(alloc: Global, source: R) -> Self
        ensures { result.source ≡ source }
    {
        RecordSource {
            source,
            kept: Vec::new(alloc),
            passed: 0,
            lines: LineCount::at(1),
            recent: 0,
            recent_lines: LineCount::at(1),
            ended: Cell::new(0),
            is_out_of_memory: false,
        }
    }

    /// The text of the last record that was read, given how many bytes were passed on by its end.
    fn record(&self, end: u64) -> Option<RecordText<'_>> {
        let (start, end) = (self.place_of(self.ended.get()), self.place_of(end));
        let text = self.kept.get(start..end).unwrap_or(&[]);
        trimmed(text, self.lines_at(start)?)
    }

    /// The place at which the text ends, once all of it was read; none if there are more lines than a number counts.
    pub(crate) fn end(&self) -> Option<Point> {
        point_at(&self.kept, self.lines, self.kept.len())
    }

    /// The place among the kept bytes of the byte after the first n that were passed on.
    fn place_of(&self, given: u64) -> usize {
        if given <= self.passed {
            0
        } else {
            (given - self.passed) as usize
        }
    }

    /// The lines before a place among the kept bytes; none if there are more than a number counts.
    fn lines_at(&self, place: usize) -> Option<LineCount> {
        if place < self.recent {
            self.lines.after(self.bytes(0, place))
        } else {
            self.recent_lines.after(self.bytes(self.recent, place))
        }
    }

    /// The kept bytes from one place to another.
    fn bytes(&self, from: usize, to: usize) -> &[u8] {
        self.kept.get(from..to).unwrap_or(&[])
    }

    /// Drops what comes before the present record, because more is requested; none if there are more bytes or lines than a
    /// number counts.
    fn forget(&mut self) -> Option<()>
        ensures { self.new.source ≡ self.old.source }
    {
        let start = self.start().min(self.kept.len());
        if start > 0 {
            let lines = self.lines_at(start)?;
            self.passed = self.passed.checked_add(start as u64)?;
            self.kept.copy_within(start.., 0);
            self.kept.truncate(self.kept.len() - start);
            self.lines = lines;
            self.recent = 0;
            self.recent_lines = lines;
        }
        self.recent_lines = self.lines_at(self.kept.len())?;
        self.recent = self.kept.len();
        Some(())
    }

    /// The place among the kept bytes at which the present record begins. It is after the record before it, and after the line
    /// ends and the mark that belong to no record. If the end of the text, and not a line end, ended the record before it, that
    /// record stays. So the kept bytes begin at the start of a line.
    fn start(&self) -> usize {
        let (before, rest) = self
            .kept
            .split_at(self.place_of(self.ended.get()).min(self.kept.len()));
        match before.last() {
            None if self.passed == 0 && rest.starts_with(&MARK) => MARK.len(),
            None | Some(b'\n' | b'\r') => before.len() + blank_length(rest),
            Some(_) => 0,
        }
    }
}

impl<R: Read> Read for RecordSource<R> {
    ghost use Rattle.nms_explain.specs.Source.{left_of};

    ghost remaining = { left_of R.remaining };

    fn read(&mut self, buf: &mut [u8]) -> io::Result<usize>
        ensures bound { ReadsAtMost result buf.new }
        ensures bytes { ReadConsumes (left_of R.remaining self.old) (left_of R.remaining self.new) result buf.new }
    {
        if self.forget().is_none() {
            // This never happens, because no source has that number of bytes.
            return Err(io::Error::from(io::ErrorKind::InvalidData));
        }
        if self.kept.reserve(buf.len()).is_err() {
            self.is_out_of_memory = true;
            return Err(io::Error::from(io::ErrorKind::OutOfMemory));
        }
        let count = self.source.read(buf)?;
        if self.kept.extend_from_slice(&buf[..count]).is_err() {
            self.is_out_of_memory = true;
        }
        Ok(count)
    }
}

/// How many bytes are line ends at the start of a text.
fn blank_length(text: &[u8]) -> usize
    ensures { result ≤ length text.now }
{
    text.iter()
        .position(|byte| *byte != b'\n' && *byte != b'\r')
        .unwrap_or(text.len())
}

/// A record without the line ends before it and the one after it, and its line.
fn trimmed(text: &[u8], lines: LineCount) -> Option<RecordText<'_>> {
    let (blank, text) = text.split_at(blank_length(text));
    let line = lines.after(blank)?.line;
    match text.split_last() {
        Some((b'\n' | b'\r', text)) => Some(RecordText { text, line }),
        _ => Some(RecordText { text, line }),
    }
}
