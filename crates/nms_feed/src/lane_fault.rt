//! Why no lane was opened.
use std::fmt;
use thiserror::Error;

/// Why no lane was opened.
#[derive(Clone, Copy, Debug, PartialEq, Eq, Error)]
pub enum LaneFault {
    /// N1: out of memory.
    NoMemory,
}

impl fmt::Display for LaneFault {
    fn fmt<W: fmt::Write>(&self, f: &mut fmt::Formatter<W>) -> fmt::Result {
        f.write_str(match self {
            LaneFault::NoMemory => "N1: out of memory",
        })
    }
}
