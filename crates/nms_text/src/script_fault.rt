//! Why a script ended early.
ghost use Rattle.std.specs.Prelude.{◌≡◌};
ghost use Rattle.nms_text.specs.Faults.{code_of_script, status_of_script};

use std::fmt;
use thiserror::Error;

/// Why a script ended early. What was written before stays.
#[derive(Clone, Copy, Debug, PartialEq, Eq, Error)]
pub enum ScriptFault {
    /// E1: the reader failed. The answers to the records read so far were written.
    ReadFault,
    /// E2: the writer failed. A script wrote only a prefix of its answers. A report may be written in part.
    WriteFault,
    /// E3: there are more than 10,000,000 records. The answers to the first 10,000,000 were written.
    TooLong,
    /// E4: out of memory. At most the answers to the records read so far were written.
    NoMemory,
}

impl ScriptFault {
    /// The code of the fault, `E1` to `E4`.
    pub fn code(self) -> &'static str
        ensures { result.now ≡ code_of_script self }
    {
        match self {
            ScriptFault::ReadFault => "E1",
            ScriptFault::WriteFault => "E2",
            ScriptFault::TooLong => "E3",
            ScriptFault::NoMemory => "E4",
        }
    }

    /// The exit status of a program that ends with it: 1 for a stream, 6 for the script's length, 5 for memory.
    pub fn status(self) -> u8
        ensures { result ≡ status_of_script self }
    {
        match self {
            ScriptFault::ReadFault | ScriptFault::WriteFault => 1,
            ScriptFault::TooLong => 6,
            ScriptFault::NoMemory => 5,
        }
    }
}

impl fmt::Display for ScriptFault {
    fn fmt<W: fmt::Write>(&self, f: &mut fmt::Formatter<W>) -> fmt::Result {
        f.write_str(match self {
            ScriptFault::ReadFault => "E1: the input could not be read",
            ScriptFault::WriteFault => "E2: the output could not be written",
            ScriptFault::TooLong => "E3: the input is too long",
            ScriptFault::NoMemory => "E4: out of memory",
        })
    }
}
