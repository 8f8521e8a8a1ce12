//! Why no record was read: the part that the faults of all files share.
ghost use Rattle.std.specs.Prelude.{◌≡◌};
ghost use Rattle.nms_lines.specs.RecordFaults.{code_of, status_of};

use std::fmt;
use thiserror::Error;

/// Why a file or a stream was not read. Its reader gives no records after that.
#[derive(Clone, Copy, Debug, PartialEq, Eq, Error)]
pub enum RecordFault {
    /// E1: the source could not be read.
    Failed,
    /// E4: out of memory.
    NoMemory,
}

impl RecordFault {
    /// The code of the fault, `E1` or `E4`.
    pub fn code(self) -> &'static str
        ensures { result.now ≡ code_of self }
    {
        match self {
            RecordFault::Failed => "E1",
            RecordFault::NoMemory => "E4",
        }
    }

    /// The exit status of a program that ends with it: 1 for the source, 5 for memory.
    pub fn status(self) -> u8
        ensures { result ≡ status_of self }
    {
        match self {
            RecordFault::Failed => 1,
            RecordFault::NoMemory => 5,
        }
    }
}

impl fmt::Display for RecordFault {
    fn fmt<W: fmt::Write>(&self, f: &mut fmt::Formatter<W>) -> fmt::Result {
        f.write_str(match self {
            RecordFault::Failed => "E1: the input could not be read",
            RecordFault::NoMemory => "E4: out of memory",
        })
    }
}
