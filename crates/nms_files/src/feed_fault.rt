//! Why the file of a feed was not read.
ghost use Rattle.std.specs.Prelude.{◌≡◌};
ghost use Rattle.nms_files.specs.Faults.{code_of_feed, status_of_feed};

use nms_lines::RecordFault;
use std::fmt;
use thiserror::Error;

/// Why the file of a feed was not read. No byte of it is kept.
#[derive(Clone, Copy, Debug, PartialEq, Eq, Error)]
pub enum FeedFault {
    /// E1 or E4: the file could not be read, or out of memory.
    Record(RecordFault),
    /// E3: the file has more bytes than a feed may have.
    TooLong,
}

impl FeedFault {
    /// The code of the fault: `E1`, `E3` or `E4`.
    pub fn code(self) -> &'static str
        ensures { result.now ≡ code_of_feed self }
    {
        match self {
            FeedFault::Record(fault) => fault.code(),
            FeedFault::TooLong => "E3",
        }
    }

    /// The exit status of a program that ends with this fault: the status of the file's fault, or 6 for its length.
    pub fn status(self) -> u8
        ensures { result ≡ status_of_feed self }
    {
        match self {
            FeedFault::Record(fault) => fault.status(),
            FeedFault::TooLong => 6,
        }
    }
}

impl fmt::Display for FeedFault {
    fn fmt<W: fmt::Write>(&self, f: &mut fmt::Formatter<W>) -> fmt::Result {
        match self {
            FeedFault::Record(fault) => fmt::Display::fmt(fault, f),
            FeedFault::TooLong => f.write_str("E3: the input is too long"),
        }
    }
}
