//! A line that a program prints about itself.
use crate::moment::Moment;
use arrayvec::ArrayVec;
use nms_show::write_shown;
use std::fmt::Display;
use std::io::Write;

/// The most bytes of a line. The rest of a longer line is cut off. This product's own rule.
const MOST_TEXT: usize = 640;
/// The most bytes of a line with its time and its line feed.
const MOST_LINE: usize = MOST_TEXT + 32;

/// A line that the program prints about itself on standard error. It has its own room, so it takes no memory.
#[derive(Debug, Drop)]
pub struct Text {
    bytes: ArrayVec<u8, MOST_TEXT>,
    /// When the line was reported, if that is printed.
    at: Option<Moment>,
}

impl Text {
    /// A line with the program's name, a colon and words.
    pub fn of<D: Display + Drop>(words: D) -> Self {
        let mut bytes = ArrayVec::<u8, MOST_TEXT>::new();
        let _whole = bytes.write_all(b"nms_serve: ");
        let _whole = bytes.write_fmt(words);
        Text { bytes, at: None }
    }

    /// The line with a colon and more words.
    pub fn and<D: Display + Drop>(self, words: D) -> Self {
        self.with(": ").with(words)
    }

    /// The line with more words.
    pub fn with<D: Display + Drop>(self, words: D) -> Self {
        let Text { mut bytes, at } = self;
        let _whole = bytes.write_fmt(words);
        Text { bytes, at }
    }

    /// The line with a colon, and bytes of a file or of the call as they are safe to show.
    pub fn and_shown(self, shown: &[u8]) -> Self {
        self.with(": ").with_shown(shown)
    }

    /// The line with more bytes as they are safe to show.
    pub fn with_shown(self, shown: &[u8]) -> Self {
        let Text { mut bytes, at } = self;
        let _whole = write_shown(&mut bytes, shown);
        Text { bytes, at }
    }

    /// The line with the moment that is printed before it.
    pub(crate) fn told_at(self, at: Option<Moment>) -> Self {
        let Text { bytes, at: _ } = self;
        Text { bytes, at }
    }

    /// Writes the line and a line feed, in one write if the writer takes all of it. What a writer does not take is lost.
    pub fn print<W: Write>(&self, to: &mut W) {
        let mut line = ArrayVec::<u8, MOST_LINE>::new();
        if let Some(at) = self.at {
            let _whole = line.write_fmt(at);
            let _whole = line.write_all(b" ");
        }
        let _whole = line.write_all(self.bytes.as_slice());
        let _whole = line.write_all(b"\n");
        let _written = to.write_all(line.as_slice());
    }
}
