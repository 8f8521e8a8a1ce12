//! Why a text was not written: that of a plan, or of a live run.
ghost use Rattle.std.specs.Prelude.{◌≡◌};
ghost use Rattle.nms_text.specs.Faults.{code_of_text, status_of_text};

use std::fmt;
use thiserror::Error;

/// Why a text was not written: that of a plan, or of a live run.
#[derive(Clone, Copy, Debug, PartialEq, Eq, Error)]
pub enum TextFault {
    /// L12: there was no memory for the text. Nothing was written.
    NoMemory,
    /// L13: the writer failed. Only a prefix of the text was written.
    WriteFault,
}

impl TextFault {
    /// The code of the fault, `L12` or `L13`.
    pub fn code(self) -> &'static str
        ensures { result.now ≡ code_of_text self }
    {
        match self {
            TextFault::NoMemory => "L12",
            TextFault::WriteFault => "L13",
        }
    }

    /// The exit status of a program that ends with it: 1 for the writer, 5 for memory.
    pub fn status(self) -> u8
        ensures { result ≡ status_of_text self }
    {
        match self {
            TextFault::NoMemory => 5,
            TextFault::WriteFault => 1,
        }
    }
}

impl fmt::Display for TextFault {
    fn fmt<W: fmt::Write>(&self, f: &mut fmt::Formatter<W>) -> fmt::Result {
        f.write_str(match self {
            TextFault::NoMemory => "L12: out of memory",
            TextFault::WriteFault => "L13: a write failed",
        })
    }
}
