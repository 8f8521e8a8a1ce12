//! Why a stream was not written completely.
ghost use Rattle.std.specs.Prelude.{◌≡◌};
ghost use Rattle.nms_stream.specs.Faults.{code_of, status_of};

use nms_board::BoardFault;
use nms_files::ChangesFault;
use std::fmt;
use thiserror::Error;

/// Why a stream was not written completely.
#[derive(Clone, Copy, Debug, PartialEq, Eq, Error)]
pub enum StreamFault {
    /// The file of changes is no tape. Nothing was written.
    Changes(ChangesFault),
    /// B1: no board was made. Nothing was written.
    Board(BoardFault),
    /// E2: the writer failed. Only a prefix of the stream was written.
    WriteFault,
    /// E4: out of memory. Only a prefix of the stream was written, possibly an empty one.
    NoMemory,
}

impl StreamFault {
    /// The code of the fault: that of the file's fault, `B1`, `E2` or `E4`.
    pub fn code(self) -> &'static str
        ensures { result.now ≡ code_of self }
    {
        match self {
            StreamFault::Changes(fault) => fault.code(),
            StreamFault::Board(fault) => fault.code(),
            StreamFault::WriteFault => "E2",
            StreamFault::NoMemory => "E4",
        }
    }

    /// The exit status of a program that ends with this fault: that of the file's fault, 1 for the writer, 5 for memory.
    pub fn status(self) -> u8
        ensures { result ≡ status_of self }
    {
        match self {
            StreamFault::Changes(fault) => fault.status(),
            StreamFault::Board(BoardFault::NoMemory) | StreamFault::NoMemory => 5,
            StreamFault::WriteFault => 1,
        }
    }
}

impl fmt::Display for StreamFault {
    fn fmt<W: fmt::Write>(&self, f: &mut fmt::Formatter<W>) -> fmt::Result {
        match self {
            StreamFault::Changes(fault) => fmt::Display::fmt(fault, f),
            StreamFault::Board(fault) => fmt::Display::fmt(fault, f),
            StreamFault::WriteFault => f.write_str("E2: the output could not be written"),
            StreamFault::NoMemory => f.write_str("E4: out of memory"),
        }
    }
}
