//! Why an answer was not printed.
use std::alloc::AllocError;
use std::fmt;
use thiserror::Error;

/// Why an answer was not printed. Earlier output remains.
#[derive(Clone, Copy, Debug, PartialEq, Eq, Error)]
pub enum ShowFault {
    /// E2: the writer failed. A prefix of the answer was written.
    WriteFault,
    /// E4: out of memory. No part of the line was written.
    NoMemory,
}

impl From<AllocError> for ShowFault {
    fn from(_error: AllocError) -> ShowFault {
        ShowFault::NoMemory
    }
}

impl fmt::Display for ShowFault {
    fn fmt<W: fmt::Write>(&self, f: &mut fmt::Formatter<W>) -> fmt::Result {
        f.write_str(match self {
            ShowFault::WriteFault => "E2: the output could not be written",
            ShowFault::NoMemory => "E4: out of memory",
        })
    }
}
