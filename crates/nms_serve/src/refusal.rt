//! A fault of the program with the line that reports it.
use crate::program_fault::ProgramFault;
use nms_serving::{ServeFault, Stream, Text};
use std::io;

/// A fault of the program: its exit status, and the line that reports it.
#[derive(Debug, Drop)]
pub(crate) struct Refusal {
    pub(crate) status: u8,
    pub(crate) line: Text,
}

impl Refusal {
    /// The refusal for a fault.
    pub(crate) fn of(fault: ProgramFault) -> Self {
        Refusal {
            status: fault.status(),
            line: Text::of(fault),
        }
    }

    /// The refusal for a fault at a path.
    pub(crate) fn at(fault: ProgramFault, path: &str) -> Self {
        Refusal::of(fault).with_path(path)
    }

    /// The refusal for a stream that could not be opened.
    pub(crate) fn of_stream(stream: Stream, path: &str, error: &io::Error) -> Self {
        let fault = ProgramFault::Serving(ServeFault::NotOpened(stream));
        Refusal::at(fault, path).and(error)
    }

    /// The refusal for a file that the run should make, but can't.
    pub(crate) fn of_file(path: &str, error: &io::Error) -> Self {
        Refusal::at(ProgramFault::NoFile, path).and(error)
    }

    /// The refusal with a reason added.
    pub(crate) fn and(self, error: &io::Error) -> Self {
        let Refusal { status, line } = self;
        Refusal {
            status,
            line: line.and(error),
        }
    }

    /// The refusal if out of memory.
    pub(crate) fn no_memory() -> Self {
        Refusal::of(ProgramFault::Serving(ServeFault::NoMemory))
    }

    /// The refusal with a path added.
    pub(crate) fn with_path(self, path: &str) -> Self {
        let Refusal { status, line } = self;
        Refusal {
            status,
            line: line.and_shown(path.as_bytes()),
        }
    }
}
