//! Counting lines. A line feed ends a line, and so does a carriage return, with the line feed after it if there is one.
use memchr::{memchr, memchr_iter};

/// How far the lines of a text were counted.
#[derive(Clone, Copy)]
pub(crate) struct LineCount {
    /// The line of the next byte, counted from 1.
    pub(crate) line: u64,
    after_return: bool,
}

impl LineCount {
    /// The count before a byte of a line, with no carriage return just before it.
    pub(crate) fn at(line: u64) -> Self {
        LineCount {
            line,
            after_return: false,
        }
    }

    /// The count after a text; none if there are more lines than a number counts.
    pub(crate) fn after(self, text: &[u8]) -> Option<Self> {
        if self.after_return || memchr(b'\r', text).is_some() {
            return self.after_returns(text);
        }
        let feeds = memchr_iter(b'\n', text).count() as u64;
        Some(LineCount::at(self.line.checked_add(feeds)?))
    }

    /// The count after a text that may have carriage returns; none if there are more lines than a number counts.
    fn after_returns(self, text: &[u8]) -> Option<Self> {
        let mut count = self;
        for byte in text {
            if *byte == b'\r' || *byte == b'\n' && !count.after_return {
                count.line = count.line.checked_add(1)?;
            }
            count.after_return = *byte == b'\r';
        }
        Some(count)
    }
}
