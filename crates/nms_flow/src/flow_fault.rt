//! Why no machine was made.
use std::fmt;
use thiserror::Error;

/// Why no machine was made.
#[derive(Clone, Copy, Debug, PartialEq, Eq, Error)]
pub enum FlowFault {
    /// F1: out of memory.
    NoMemory,
}

impl fmt::Display for FlowFault {
    fn fmt<W: fmt::Write>(&self, f: &mut fmt::Formatter<W>) -> fmt::Result {
        f.write_str(match self {
            FlowFault::NoMemory => "F1: out of memory",
        })
    }
}
