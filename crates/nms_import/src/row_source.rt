//! A source that passes a file's bytes on as they come, and knows the line on which the present row begins.
//!
//! It keeps the bytes that it passed on last. In a file without carriage returns the reader of rows counts lines well, except
//! if blank lines come before a row. So lines are counted again only if a file has one of the two, and each byte is counted
//! once.
ghost use Rattle.std.specs.Prelude.{◌≡◌};
ghost use Rattle.std.specs.Io.{ReadsAtMost};
ghost use Rattle.std.specs.Io.KnownBytes.{ReadConsumes};

use memchr::{memchr, memchr_iter};
use std::alloc::{AllocError, Global};
use std::cell::Cell;
use std::io;
use std::io::Read;

/// The byte order mark, which may come before the first row and is no part of it.
const MARK: [u8; 3] = [0xEF, 0xBB, 0xBF];

/// How far the lines of a file were counted. A line feed ends a line, and so does a carriage return, with the line feed
/// after it if there is one.
#[derive(Clone, Copy)]
struct LineCount {
    /// The line of the next byte, counted from 1.
    line: u64,
    after_return: bool,
}

impl LineCount {
    /// The count after a text, which may have carriage returns if the file has any. None if there are more lines than a number
    /// counts.
    fn after(self, text: &[u8], has_returns: bool) -> Option<LineCount> {
        if has_returns {
            return self.after_returns(text);
        }
        let feeds = memchr_iter(b'\n', text).count() as u64;
        Some(LineCount {
            line: self.line.checked_add(feeds)?,
            after_return: false,
        })
    }

    /// The count after a text with carriage returns. None if there are more lines than a number counts.
    fn after_returns(self, text: &[u8]) -> Option<LineCount> {
        let mut count = self;
        for byte in text {
            if *byte == b'\r' || *byte == b'\n' && !count.after_return {
                count.line = count.line.checked_add(1)?;
            }
            count.after_return = *byte == b'\r';
        }
        Some(count)
    }
}

/// The bytes that were passed on last, and the lines before them.
#[derive(Drop)]
struct RowLines {
    last: Vec<u8>,
    /// How many bytes were passed on before the kept ones.
    passed: u64,
    /// The place among the kept bytes up to which the lines were counted.
    counted: Cell<usize>,
    lines: Cell<LineCount>,
    /// Whether any carriage return was passed on.
    has_returns: bool,
    /// How many of the three bytes of the byte order mark are at the start of the file.
    marked: usize,
    /// The line of the present row, if it begins before the kept bytes.
    begun: Option<u64>,
    /// How many bytes were passed on up to the end of the row before. The owner of the reader sets it.
    ended: Cell<u64>,
}

impl RowLines {
    /// The lines of a file of which nothing was read yet.
    fn new(alloc: Global) -> RowLines {
        RowLines {
            last: Vec::new(alloc),
            passed: 0,
            counted: Cell::new(0),
            lines: Cell::new(LineCount {
                line: 1,
                after_return: false,
            }),
            has_returns: false,
            marked: 0,
            begun: None,
            ended: Cell::new(0),
        }
    }

    /// The line on which the last row that was read begins. It is found from the line on which the row before it ended, by line
    /// feeds. It is 0 if there are more lines than a number counts.
    fn line(&self, by_feeds: u64) -> u64 {
        if self.follows_at_once() {
            by_feeds
        } else {
            self.line_begun().unwrap_or(0)
        }
    }

    /// Whether the row begins just after the one before it, in a file without carriage returns.
    fn follows_at_once(&self) -> bool {
        let ended = self.ended.get();
        if self.has_returns || ended == 0 || ended < self.passed {
            return false;
        }
        match self.last.get((ended - self.passed) as usize) {
            Some(byte) => *byte != b'\n',
            None => false,
        }
    }

    /// The line of the present row, if one of its bytes was passed on.
    fn line_begun(&self) -> Option<u64> {
        let ended = self.ended.get();
        if ended == 0 && 0 < self.marked && self.marked < MARK.len() {
            // A part of the byte order mark is no mark, but belongs to the first row.
            return Some(1);
        }
        let from = if self.passed <= ended {
            (ended - self.passed) as usize
        } else if self.begun.is_some() {
            return self.begun;
        } else {
            0
        };
        let start = self.start_from(from)?;
        Some(self.count_to(start)?.line)
    }

    /// Counts the lines up to a place among the kept bytes. They are not counted again.
    fn count_to(&self, place: usize) -> Option<LineCount> {
        let more = self.last.get(self.counted.get()..place)?;
        let lines = self.lines.get().after(more, self.has_returns)?;
        self.counted.set(place);
        self.lines.set(lines);
        Some(lines)
    }

    /// The place of the first kept byte that belongs to a row, from a place on. Line ends between rows and the byte order mark
    /// belong to no row.
    fn start_from(&self, from: usize) -> Option<usize> {
        let mark = MARK.len() as u64;
        let from = if self.marked == MARK.len() && self.passed < mark {
            from.max((mark - self.passed) as usize)
        } else {
            from
        };
        for at in from..self.last.len() {
            if self.last[at] != b'\n' && self.last[at] != b'\r' {
                return Some(at);
            }
        }
        None
    }

    /// Counts the kept bytes and drops them, because more are requested. None if there are more bytes or lines than a number
    /// counts.
    fn forget(&mut self) -> Option<()> {
        self.begun = self.line_begun();
        self.count_to(self.last.len())?;
        self.passed = self.passed.checked_add(self.last.len() as u64)?;
        self.counted.set(0);
        self.last.clear();
        Some(())
    }

    /// Keeps bytes that were passed on. Room was made for them before.
    fn keep(&mut self, bytes: &[u8]) -> Result<(), AllocError> {
        self.has_returns = self.has_returns || memchr(b'\r', bytes).is_some();
        self.note_mark(bytes);
        self.last.extend_from_slice(bytes)
    }

    /// Notes how many of the next bytes of the file belong to the byte order mark. The reader of rows asks for these one by
    /// one.
    fn note_mark(&mut self, bytes: &[u8]) {
        if self.marked >= MARK.len() || self.passed != self.marked as u64 {
            return;
        }
        for byte in bytes {
            if self.marked >= MARK.len() || *byte != MARK[self.marked] {
                break;
            }
            self.marked += 1;
        }
        if self.marked == MARK.len() {
            self.begun = None;
        }
    }
}

/// A source of rows, with the line on which the present row begins.
#[derive(Drop)]
pub struct RowSource<R> {
    source: R,
    lines: RowLines,
    is_out_of_memory: bool,
}

impl<R> RowSource<R> {
    /// A source of rows over a source of bytes of which nothing was read yet.
    pub(crate) fn new(alloc: Global, source: R) -> RowSource<R>
        ensures { result.source ≡ source }
    {
        RowSource {
            source,
            lines: RowLines::new(alloc),
            is_out_of_memory: false,
        }
    }

    /// The line on which the last row that was read begins. It is found from the line on which the row before it ended, by line
    /// feeds.
    pub(crate) fn line(&self, by_feeds: u64) -> u64 {
        self.lines.line(by_feeds)
    }

    /// The source of bytes from which the rows came.
    pub fn into_source(self) -> R {
        self.source
    }

    /// Notes that the next row begins after n bytes.
    pub(crate) fn begin_row(&self, ended: u64) {
        self.lines.ended.set(ended);
    }

    /// Whether there was no memory for the bytes that were passed on.
    pub(crate) fn is_out_of_memory(&self) -> bool {
        self.is_out_of_memory
    }
}

impl<R: Read> Read for RowSource<R> {
    ghost use Rattle.nms_import.specs.Rows.{unread};

    ghost remaining = { unread R.remaining };

    fn read(&mut self, buf: &mut [u8]) -> io::Result<usize>
        ensures bound { ReadsAtMost result buf.new }
        ensures bytes { ReadConsumes (unread R.remaining self.old) (unread R.remaining self.new) result buf.new }
    {
        if self.lines.forget().is_none() {
            // This never happens, because no source has that number of bytes.
            return Err(io::Error::from(io::ErrorKind::InvalidData));
        }
        if self.lines.last.reserve(buf.len()).is_err() {
            self.is_out_of_memory = true;
            return Err(io::Error::from(io::ErrorKind::OutOfMemory));
        }
        let count = self.source.read(buf)?;
        if self.lines.keep(&buf[..count]).is_err() {
            self.is_out_of_memory = true;
        }
        Ok(count)
    }
}
