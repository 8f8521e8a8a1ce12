//! Why an order was not planned on a file of changes.
ghost use Rattle.std.specs.Prelude.{◌≡◌};
ghost use Rattle.nms_file_answers.specs.Faults.{code_of_plan, status_of_plan};

use nms_board::BoardFault;
use nms_files::ChangesFault;
use nms_text::TextFault;
use std::fmt;
use thiserror::Error;

/// Why a plan on a file of changes was not written.
#[derive(Clone, Copy, Debug, PartialEq, Eq, Error)]
pub enum PlanFault {
    /// The file of changes is no tape. Nothing was written.
    Changes(ChangesFault),
    /// B1: no board was made. Nothing was written.
    Board(BoardFault),
    /// L12 or L13. Either there was no memory for the text, and nothing was written; or the writer failed, and only a prefix of
    /// the text was written.
    Text(TextFault),
}

impl PlanFault {
    /// The code of the fault: the code of the file's fault, `B1`, `L12` or `L13`.
    pub fn code(self) -> &'static str
        ensures { result.now ≡ code_of_plan self }
    {
        match self {
            PlanFault::Changes(fault) => fault.code(),
            PlanFault::Board(fault) => fault.code(),
            PlanFault::Text(fault) => fault.code(),
        }
    }

    /// The exit status of a program that ends with this fault: the status of the file's or the text's fault, 5 for the board.
    pub fn status(self) -> u8
        ensures { result ≡ status_of_plan self }
    {
        match self {
            PlanFault::Changes(fault) => fault.status(),
            PlanFault::Board(BoardFault::NoMemory) => 5,
            PlanFault::Text(fault) => fault.status(),
        }
    }
}

impl fmt::Display for PlanFault {
    fn fmt<W: fmt::Write>(&self, f: &mut fmt::Formatter<W>) -> fmt::Result {
        match self {
            PlanFault::Changes(fault) => fmt::Display::fmt(fault, f),
            PlanFault::Board(fault) => fmt::Display::fmt(fault, f),
            PlanFault::Text(fault) => fmt::Display::fmt(fault, f),
        }
    }
}
