//! Why the report of a file of changes was not written.
ghost use Rattle.std.specs.Prelude.{◌≡◌};
ghost use Rattle.nms_file_answers.specs.Faults.{code_of_report, status_of_report};

use nms_board::BoardFault;
use nms_files::ChangesFault;
use std::fmt;
use thiserror::Error;

/// Why a report was not written.
#[derive(Clone, Copy, Debug, PartialEq, Eq, Error)]
pub enum ReportFault {
    /// The file of changes is no tape. Nothing was written.
    Changes(ChangesFault),
    /// B1: no board was made. Nothing was written.
    Board(BoardFault),
    /// E2: the writer failed. Only a prefix of the report was written.
    WriteFault,
    /// E4: out of memory. Nothing was written.
    NoMemory,
}

impl ReportFault {
    /// The code of the fault: the code of the file's fault, `B1`, `E2` or `E4`.
    pub fn code(self) -> &'static str
        ensures { result.now ≡ code_of_report self }
    {
        match self {
            ReportFault::Changes(fault) => fault.code(),
            ReportFault::Board(fault) => fault.code(),
            ReportFault::WriteFault => "E2",
            ReportFault::NoMemory => "E4",
        }
    }

    /// The exit status of a program that ends with this fault: the status of the file's fault, 1 for the writer, 5 for memory.
    pub fn status(self) -> u8
        ensures { result ≡ status_of_report self }
    {
        match self {
            ReportFault::Changes(fault) => fault.status(),
            ReportFault::Board(BoardFault::NoMemory) | ReportFault::NoMemory => 5,
            ReportFault::WriteFault => 1,
        }
    }
}

impl fmt::Display for ReportFault {
    fn fmt<W: fmt::Write>(&self, f: &mut fmt::Formatter<W>) -> fmt::Result {
        match self {
            ReportFault::Changes(fault) => fmt::Display::fmt(fault, f),
            ReportFault::Board(fault) => fmt::Display::fmt(fault, f),
            ReportFault::WriteFault => f.write_str("E2: the output could not be written"),
            ReportFault::NoMemory => f.write_str("E4: out of memory"),
        }
    }
}
