//! Why a change was not appended.
use std::fmt;
use thiserror::Error;

/// Why a change was not appended.
#[derive(Clone, Copy, Debug, PartialEq, Eq, Error)]
pub enum AppendFault {
    /// V3: out of memory.
    NoMemory,
    /// V4: the tape already has as many changes as allowed.
    TapeFull,
}

impl fmt::Display for AppendFault {
    fn fmt<W: fmt::Write>(&self, f: &mut fmt::Formatter<W>) -> fmt::Result {
        f.write_str(match self {
            AppendFault::NoMemory => "V3: out of memory",
            AppendFault::TapeFull => "V4: the tape is full",
        })
    }
}
