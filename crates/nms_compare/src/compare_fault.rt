//! Why a comparison ended early: `specs/Faults`.
ghost use Rattle.std.specs.Prelude.{◌≡◌};
ghost use Rattle.nms_compare.specs.Faults.{code_of};

use nms_board::BoardFault;
use nms_codes::Code;
use nms_import::ImportFault;
use nms_show::ShowFault;
use std::alloc::AllocError;
use std::fmt;
use thiserror::Error;

/// Why a comparison ended early.
#[derive(Clone, Copy, Debug, Drop, PartialEq, Eq, Error)]
pub enum CompareFault {
    /// E1: the vendor's file could not be read.
    ReadFault,
    /// E2: the output could not be written.
    WriteFault,
    /// E3: more than 1,000,000,000,000 rows.
    TooLong,
    /// E4: out of memory.
    NoMemory,
    /// B1: out of memory for the board.
    Board,
    /// J1: the file of times does not have one line of 15 digits and a line feed for each change.
    NotTheTimes,
    /// J2: a change is before an earlier one, in the order of the mapping.
    ChangesFall,
    /// J3: a row is before an earlier one, in the order of the mapping.
    RowsFall,
}

impl CompareFault {
    /// The code of the fault: `E1` to `E4`, `B1`, or `J1` to `J3`.
    pub fn code(self) -> Code
        ensures { result ≡ code_of self }
    {
        match self {
            CompareFault::ReadFault => Code::E1,
            CompareFault::WriteFault => Code::E2,
            CompareFault::TooLong => Code::E3Rows,
            CompareFault::NoMemory => Code::E4,
            CompareFault::Board => Code::B1,
            CompareFault::NotTheTimes => Code::J1,
            CompareFault::ChangesFall => Code::J2,
            CompareFault::RowsFall => Code::J3,
        }
    }
}

impl From<AllocError> for CompareFault {
    fn from(_error: AllocError) -> CompareFault {
        CompareFault::NoMemory
    }
}

impl From<BoardFault> for CompareFault {
    fn from(_error: BoardFault) -> CompareFault {
        CompareFault::Board
    }
}

impl From<ImportFault> for CompareFault {
    fn from(fault: ImportFault) -> CompareFault {
        match fault {
            ImportFault::ReadFault => CompareFault::ReadFault,
            ImportFault::WriteFault => CompareFault::WriteFault,
            ImportFault::TooLong => CompareFault::TooLong,
            ImportFault::NoMemory => CompareFault::NoMemory,
        }
    }
}

impl From<ShowFault> for CompareFault {
    fn from(fault: ShowFault) -> CompareFault {
        match fault {
            ShowFault::WriteFault => CompareFault::WriteFault,
            ShowFault::NoMemory => CompareFault::NoMemory,
        }
    }
}

impl fmt::Display for CompareFault {
    fn fmt<W: fmt::Write>(&self, f: &mut fmt::Formatter<W>) -> fmt::Result {
        f.write_str(match self {
            CompareFault::ReadFault => "E1: a file could not be read",
            CompareFault::WriteFault => "E2: the output could not be written",
            CompareFault::TooLong => "E3: there are more than 1,000,000,000,000 rows",
            CompareFault::NoMemory => "E4: out of memory",
            CompareFault::Board => "B1: out of memory for the board",
            CompareFault::NotTheTimes => "J1: the times are not those of the changes",
            CompareFault::ChangesFall => "J2: the changes are not in the order of the mapping",
            CompareFault::RowsFall => "J3: the rows are not in the order of the mapping",
        })
    }
}
