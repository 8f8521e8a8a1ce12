//! Why a file of changes is no tape. No change of it is kept.
ghost use Rattle.std.specs.Prelude.{◌≡◌};
ghost use Rattle.nms_files.specs.Faults.{code_of_changes, status_of_changes};

use nms_lines::{LineFault, RecordFault};
use std::fmt;
use thiserror::Error;

/// E1 or E4: the file could not be read, or out of memory.
#[derive(Clone, Copy, Debug, PartialEq, Eq, Error)]
pub enum ChangesFault {
    /// E1 or E4: the file could not be read, or out of memory.
    Record(RecordFault),
    /// L1 to L10, or L14: the first line that is refused; every line before it was taken.
    Line(LineFault),
    /// F4: the file has one more change than the setup's tape holds.
    TapeFull,
}

impl ChangesFault {
    /// The code of the fault: `E1`, `L1` to `L10`, `L14`, `F4` or `E4`.
    pub fn code(self) -> &'static str
        ensures { result.now ≡ code_of_changes self }
    {
        match self {
            ChangesFault::Record(fault) => fault.code(),
            ChangesFault::Line(fault) => fault.code(),
            ChangesFault::TapeFull => "F4",
        }
    }

    /// The exit status of a program that ends with this fault: the status of the file's fault, or 6 for a line or the tape's
    /// length.
    pub fn status(self) -> u8
        ensures { result ≡ status_of_changes self }
    {
        match self {
            ChangesFault::Record(fault) => fault.status(),
            ChangesFault::Line(fault) => fault.status(),
            ChangesFault::TapeFull => 6,
        }
    }
}

impl fmt::Display for ChangesFault {
    fn fmt<W: fmt::Write>(&self, f: &mut fmt::Formatter<W>) -> fmt::Result {
        match self {
            ChangesFault::Record(fault) => fmt::Display::fmt(fault, f),
            ChangesFault::Line(fault) => fmt::Display::fmt(fault, f),
            ChangesFault::TapeFull => f.write_str("F4: the tape is full"),
        }
    }
}
