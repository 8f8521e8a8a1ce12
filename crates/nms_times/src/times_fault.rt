//! Why times were not read, or no version was found: `specs/Faults`.
ghost use Rattle.std.specs.Prelude.{◌≡◌};
ghost use Rattle.nms_times.specs.Faults.{line_of};

use std::alloc::AllocError;
use std::fmt;
use thiserror::Error;

/// Why times were not read, or no version was found.
#[derive(Clone, Copy, Debug, PartialEq, Eq, Error)]
pub enum TimesFault {
    /// H1: a line is malformed. It is not 15 digits of a time of day and a line feed, nor these with a comma and 15 digits
    /// between. Or its length differs from that of the first line. The number of the first such line is given, counted from 1.
    NotTime { line: u64 },
    /// H2: a time is before the time in the previous line. The number of the first such line is given, counted from 1.
    TimesFall { line: u64 },
    /// H3: the number of times differs from the number of changes.
    OtherLength,
    /// H4: a line of the file of symbols is malformed. A line has a name and two versions, of which the first is not above the
    /// last. The number of the first such line is given, counted from 1.
    NotSymbol { line: u64 },
    /// E4: out of memory.
    NoMemory,
}

impl TimesFault {
    /// The line of the fault, counted from 1, if it has one.
    pub fn line(self) -> Option<u64>
        ensures { result ≡ line_of self }
    {
        match self {
            TimesFault::NotTime { line }
            | TimesFault::TimesFall { line }
            | TimesFault::NotSymbol { line } => Some(line),
            TimesFault::OtherLength | TimesFault::NoMemory => None,
        }
    }
}

impl From<AllocError> for TimesFault {
    ghost use Rattle.std.specs.Prelude.{◌≡◌};
    ghost use Rattle.nms_times.specs.declared.times_fault.TimesFault.TheVariants.{NoMemory};

    ghost from_gives = { λ _ fault. fault ≡ NoMemory };

    fn from(_error: AllocError) -> TimesFault {
        TimesFault::NoMemory
    }
}

impl fmt::Display for TimesFault {
    fn fmt<W: fmt::Write>(&self, f: &mut fmt::Formatter<W>) -> fmt::Result {
        match self {
            TimesFault::NotTime { .. } => f.write_str("H1: a line is not the time of a change"),
            TimesFault::TimesFall { .. } => f.write_str("H2: a time is before the one above it"),
            TimesFault::OtherLength => f.write_str("H3: there are not as many times as changes"),
            TimesFault::NotSymbol { .. } => f.write_str(
                "H4: a line is not a symbol with its first and last version",
            ),
            TimesFault::NoMemory => f.write_str("E4: out of memory"),
        }
    }
}
