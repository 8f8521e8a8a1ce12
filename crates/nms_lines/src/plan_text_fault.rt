//! Why a plan was not read or written: `specs/PlanFaults`.
use std::fmt;
use thiserror::Error;

/// Why a plan was not read from text, or not written as text.
#[derive(Clone, Copy, Debug, PartialEq, Eq, Error)]
pub enum PlanTextFault {
    /// L11: the text is not exactly that of a plan with its certificate.
    BadPlanText,
    /// L12: out of memory.
    NoMemory,
    /// L13: the text could not be written. Some of it may have been written.
    WriteFault,
}

impl PlanTextFault {
    ghost use Rattle.std.specs.Prelude.{◌≡◌};
    ghost use Rattle.nms_lines.specs.PlanFaults.{code_of, status_of};

    /// The code in messages, `L11` to `L13`.
    pub fn code(self) -> &'static str
        ensures { result.now ≡ code_of self }
    {
        match self {
            PlanTextFault::BadPlanText => "L11",
            PlanTextFault::NoMemory => "L12",
            PlanTextFault::WriteFault => "L13",
        }
    }

    /// The exit status of a program that ends with it: 6 for a plan's text, 5 for memory, 1 for the writer.
    pub fn status(self) -> u8
        ensures { result ≡ status_of self }
    {
        match self {
            PlanTextFault::BadPlanText => 6,
            PlanTextFault::NoMemory => 5,
            PlanTextFault::WriteFault => 1,
        }
    }
}

impl fmt::Display for PlanTextFault {
    fn fmt<W: fmt::Write>(&self, f: &mut fmt::Formatter<W>) -> fmt::Result {
        f.write_str(match self {
            PlanTextFault::BadPlanText => "L11: not the text of a plan",
            PlanTextFault::NoMemory => "L12: out of memory",
            PlanTextFault::WriteFault => "L13: a write failed",
        })
    }
}
