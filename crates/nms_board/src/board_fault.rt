//! Why no board was made.
ghost use Rattle.std.specs.Prelude.{◌≡◌, codes};

use std::fmt;
use thiserror::Error;

/// Why no board was made.
#[derive(Clone, Copy, Debug, PartialEq, Eq, Error)]
pub enum BoardFault {
    /// B1: out of memory.
    NoMemory,
}

impl BoardFault {
    /// The code of the fault, `B1`.
    pub fn code(self) -> &'static str
        ensures { result.now ≡ codes "B1" }
    {
        match self {
            BoardFault::NoMemory => "B1",
        }
    }
}

impl fmt::Display for BoardFault {
    fn fmt<W: fmt::Write>(&self, f: &mut fmt::Formatter<W>) -> fmt::Result {
        f.write_str(match self {
            BoardFault::NoMemory => "B1: out of memory",
        })
    }
}
