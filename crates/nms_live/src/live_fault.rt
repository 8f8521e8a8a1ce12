//! Why a live run gave no result (specs/Faults).
ghost use Rattle.std.specs.Prelude.{◌≡◌};
ghost use Rattle.nms_live.specs.Faults.{code_of, rank_of, status_of};

use nms_lines::LineFault;
use nms_quote::Feed;
use std::fmt;
use thiserror::Error;

/// Why a live run gave no result. All threads have ended, and nothing of the run is kept.
#[derive(Clone, Copy, Debug, PartialEq, Eq, Error)]
pub enum LiveFault {
    /// E5: a record of a feed was refused, the first one of that feed.
    Line {
        /// The feed.
        feed: Feed,
        /// The record's number in its feed, counted from 1.
        number: u64,
        /// Why the record was refused.
        fault: LineFault,
    },
    /// E6: no tape or lane was opened, or a thread could not be started.
    Open,
    /// E7: a change could not be appended, because the tape was full or out of memory.
    Append,
    /// E8: a look gave no reading, or a desk could not be settled.
    Desk,
    /// E9: a gate did not open in 1,000,000 turns.
    GateLimit,
    /// E10: out of memory.
    NoMemory,
}

impl LiveFault {
    /// The code of the fault, `E5` to `E10`.
    pub fn code(self) -> &'static str
        ensures { result.now ≡ code_of self }
    {
        match self {
            LiveFault::Line { .. } => "E5",
            LiveFault::Open => "E6",
            LiveFault::Append => "E7",
            LiveFault::Desk => "E8",
            LiveFault::GateLimit => "E9",
            LiveFault::NoMemory => "E10",
        }
    }

    /// The exit status of a program that ends with this fault: 6 for a line of a feed, 7 for the run, 5 for memory.
    pub fn status(self) -> u8
        ensures { result ≡ status_of self }
    {
        match self {
            LiveFault::Line { .. } => 6,
            LiveFault::Open | LiveFault::Append | LiveFault::Desk | LiveFault::GateLimit => 7,
            LiveFault::NoMemory => 5,
        }
    }

    /// The fault's rank. A run answers with the fault of least rank.
    pub(crate) fn rank(self) -> u8
        ensures { result ≡ rank_of self }
    {
        match self {
            LiveFault::Open => 0,
            LiveFault::Line { feed, .. } => 1 + feed.place(),
            LiveFault::Append => 9,
            LiveFault::Desk => 10,
            LiveFault::GateLimit => 11,
            LiveFault::NoMemory => 12,
        }
    }
}

impl fmt::Display for LiveFault {
    fn fmt<W: fmt::Write>(&self, f: &mut fmt::Formatter<W>) -> fmt::Result {
        match self {
            LiveFault::Line { fault, .. } => write!(f, "E5: {fault}"),
            LiveFault::Open => f.write_str("E6: the run could not be opened"),
            LiveFault::Append => f.write_str("E7: a change was not appended"),
            LiveFault::Desk => f.write_str("E8: a desk had no reading"),
            LiveFault::GateLimit => f.write_str("E9: a gate did not open"),
            LiveFault::NoMemory => f.write_str("E10: out of memory"),
        }
    }
}
