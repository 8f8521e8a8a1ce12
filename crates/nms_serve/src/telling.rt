//! The program's reports about itself.
use crate::program_fault::ProgramFault;
use crate::words::WordsFault;
use nms_serving::Served;
use std::io::Write;
use std::{fmt, io};

/// Reports a fault on standard error, and gives its exit status. If standard error does not take it, the status is the same.
pub(crate) fn tell_fault(host: &HostRuntime, fault: &ProgramFault) -> u8 {
    let _ = if let ProgramFault::Words(WordsFault::Parser { text, .. }) = fault {
        eprint!(host; "{text}")
    } else {
        eprintln!(host; "nms_serve: {fault}")
    };
    fault.status()
}

/// Writes the help, or the version, to standard output.
pub(crate) fn tell_help(host: &HostRuntime, help: &str) -> u8 {
    match io::writer(host).write_all(help.as_bytes()) {
        Ok(()) => 0,
        Err(_) => 1,
    }
}

/// The report of the end of the tape. The first epoch has no number.
#[derive(Clone, Copy)]
pub(crate) struct TapeNotice {
    changes: u64,
    publishings: u64,
    epochs: u64,
}

impl TapeNotice {
    /// The report of a run that is over.
    pub(crate) fn of(served: &Served) -> Self {
        TapeNotice {
            changes: served.changes,
            publishings: served.publishings,
            epochs: served.epochs,
        }
    }
}

impl fmt::Display for TapeNotice {
    fn fmt<W: fmt::Write>(&self, f: &mut fmt::Formatter<W>) -> fmt::Result {
        let (changes, publishings, epochs) = (self.changes, self.publishings, self.epochs);
        write!(f, "{changes} changes, published {publishings} times")?;
        if epochs > 0 {
            write!(f, ", up to epoch {epochs}")?;
        }
        Ok(())
    }
}
