//! Why a feed's stream was not read to its end.
ghost use Rattle.std.specs.Prelude.{◌≡◌};
ghost use Rattle.nms_feeds.specs.Streams.{code_of};

use nms_lines::LineFault;
use std::fmt;
use thiserror::Error;

/// Why a feed's stream was not read to its end. What was sent before stays sent, and the stream gives nothing more.
#[derive(Clone, Copy, Debug, PartialEq, Eq, Error)]
pub enum FeedFault {
    /// E1: the stream could not be read.
    Failed,
    /// E3: the feed has more than 2^40 records.
    TooLong,
    /// E4: out of memory.
    NoMemory,
    /// E5: a record was refused, and the caller asked to stop at the first one.
    Refused {
        /// The record's number in its feed, counted from 1.
        number: u64,
        /// Why the record was refused.
        fault: LineFault,
    },
}

impl FeedFault {
    /// The code of the fault, `E1`, `E3`, `E4` or `E5`.
    pub fn code(self) -> &'static str
        ensures { result.now ≡ code_of self }
    {
        match self {
            FeedFault::Failed => "E1",
            FeedFault::TooLong => "E3",
            FeedFault::NoMemory => "E4",
            FeedFault::Refused { .. } => "E5",
        }
    }
}

impl fmt::Display for FeedFault {
    fn fmt<W: fmt::Write>(&self, f: &mut fmt::Formatter<W>) -> fmt::Result {
        match self {
            FeedFault::Failed => f.write_str("E1: the feed could not be read"),
            FeedFault::TooLong => f.write_str("E3: the feed is too long"),
            FeedFault::NoMemory => f.write_str("E4: out of memory"),
            FeedFault::Refused { fault, .. } => write!(f, "E5: {fault}"),
        }
    }
}
