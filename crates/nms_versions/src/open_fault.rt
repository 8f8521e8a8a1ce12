//! Why no tape was opened.
use std::fmt;
use thiserror::Error;

/// Why no tape was opened.
#[derive(Clone, Copy, Debug, PartialEq, Eq, Error)]
pub enum OpenFault {
    /// V1: out of memory.
    NoMemory,
    /// V2: the pair of boards gave no place for a reader.
    NoPlace,
}

impl fmt::Display for OpenFault {
    fn fmt<W: fmt::Write>(&self, f: &mut fmt::Formatter<W>) -> fmt::Result {
        f.write_str(match self {
            OpenFault::NoMemory => "V1: out of memory",
            OpenFault::NoPlace => "V2: no place for a reader",
        })
    }
}
