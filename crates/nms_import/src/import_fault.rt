//! Why an import ended early.
use std::alloc::AllocError;
use std::fmt;
use thiserror::Error;

/// Why an import ended early. What was written until then is a prefix of the texts.
#[derive(Clone, Copy, Debug, Drop, Error)]
pub enum ImportFault {
    /// E1: a file could not be read.
    ReadFault,
    /// E2: a file could not be written.
    WriteFault,
    /// E3: more than 1,000,000,000,000 rows.
    TooLong,
    /// E4: out of memory.
    NoMemory,
}

impl From<AllocError> for ImportFault {
    fn from(_error: AllocError) -> ImportFault {
        ImportFault::NoMemory
    }
}

impl fmt::Display for ImportFault {
    fn fmt<W: fmt::Write>(&self, f: &mut fmt::Formatter<W>) -> fmt::Result {
        f.write_str(match self {
            ImportFault::ReadFault => "E1: a file could not be read",
            ImportFault::WriteFault => "E2: a file could not be written",
            ImportFault::TooLong => "E3: there are more than 1,000,000,000,000 rows",
            ImportFault::NoMemory => "E4: out of memory",
        })
    }
}
