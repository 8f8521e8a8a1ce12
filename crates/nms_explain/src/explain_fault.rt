//! Why a file was not explained to its end.
ghost use Rattle.nms_codes.specs.Codes.{IsToldAs};
ghost use Rattle.nms_explain.specs.Faults.{code_of, status_of};

use nms_codes::Code;
use nms_lines::RecordFault;
use nms_show::ShowFault;
use std::alloc::AllocError;
use std::fmt;
use thiserror::Error;

/// Why a file was not explained to its end. What was reported before stays.
#[derive(Clone, Copy, Debug, PartialEq, Eq, Error)]
pub enum ExplainFault {
    /// The file could not be read, or out of memory: E1 or E4.
    Record(#[from] RecordFault),
    /// The answer could not be written, or out of memory: E2 or E4.
    Show(#[from] ShowFault),
}

impl ExplainFault {
    /// The code of the fault, `E1`, `E2` or `E4`.
    pub fn code(self) -> Code
        ensures { IsToldAs result (code_of self) (status_of self) }
    {
        match self {
            ExplainFault::Record(fault) => Code::of_record(fault),
            ExplainFault::Show(fault) => Code::of_show(fault),
        }
    }
}

impl From<AllocError> for ExplainFault {
    fn from(_error: AllocError) -> ExplainFault {
        ExplainFault::Show(ShowFault::NoMemory)
    }
}

impl fmt::Display for ExplainFault {
    fn fmt<W: fmt::Write>(&self, f: &mut fmt::Formatter<W>) -> fmt::Result {
        match self {
            ExplainFault::Record(fault) => fmt::Display::fmt(fault, f),
            ExplainFault::Show(fault) => fmt::Display::fmt(fault, f),
        }
    }
}
