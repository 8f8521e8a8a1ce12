//! The file FILE.setup next to a tape. It has the text of its setup, and the lock by which a run holds the tape.
use crate::program_fault::ProgramFault;
use crate::refusal::Refusal;
use crate::tape_fault::TapeFault;
use nms_serving::{ServeFault, Stream};
use std::alloc::Global;
use std::fs::{File, OpenOptions, TryLockError};
use std::io;
use std::io::{ErrorKind, Read, Write};

/// Makes the file of a new tape's setup and locks it. The lock lasts as long as the file is open.
pub(crate) fn hold_new(host: &HostRuntime, path: &str) -> Result<File, Refusal> {
    match OpenOptions::new()
        .write(true)
        .create_new(true)
        .open(host, path)
    {
        Ok(file) => held(file, path),
        Err(error) if error.kind() == ErrorKind::AlreadyExists => {
            Err(Refusal::at(ProgramFault::TapeThere, path))
        }
        Err(error) => Err(Refusal::of_stream(Stream::Tape, path, &error)),
    }
}

/// Locks the file of an earlier tape's setup. The lock lasts as long as the file is open. `None` if there is no such file.
pub(crate) fn hold_left(host: &HostRuntime, path: &str) -> Result<Option<File>, Refusal> {
    match OpenOptions::new().read(true).write(true).open(host, path) {
        Ok(file) => match file.metadata() {
            Ok(found) if found.is_file() => Ok(Some(held(file, path)?)),
            Ok(_) => Err(Refusal::at(ProgramFault::Tape(TapeFault::NoEpoch), path)),
            Err(error) => Err(Refusal::of_stream(Stream::Tape, path, &error)),
        },
        Err(error) if error.kind() == ErrorKind::NotFound => Ok(None),
        Err(error) => Err(Refusal::of_stream(Stream::Tape, path, &error)),
    }
}

/// Locks a file and returns it. It is refused if another run has locked it.
fn held(file: File, path: &str) -> Result<File, Refusal> {
    match file.try_lock() {
        Ok(()) => Ok(file),
        Err(TryLockError::WouldBlock) => {
            Err(Refusal::at(ProgramFault::Tape(TapeFault::Held), path))
        }
        Err(TryLockError::Error(error)) => Err(Refusal::of_stream(Stream::Tape, path, &error)),
    }
}

/// Writes the text of the setup, and waits for the disk, so that each tape has its setup even if the machine fails.
pub(crate) fn write_setup(file: &mut File, text: &[u8], path: &str) -> Result<(), Refusal> {
    match put(file, text) {
        Ok(()) => Ok(()),
        Err(error) => {
            let fault = ProgramFault::Serving(ServeFault::NotWritten(Stream::Tape));
            Err(Refusal::at(fault, path).and(&error))
        }
    }
}

/// Replaces the content of a file that was just opened by a text.
fn put(file: &mut File, text: &[u8]) -> io::Result<()> {
    file.set_len(0)?;
    file.write_all(text)?;
    file.sync_all()
}

/// Refuses a tape whose setup has another text, byte for byte. The file was just opened.
pub(crate) fn check_setup(
    file: &mut File,
    alloc: Global,
    text: &[u8],
    path: &str,
) -> Result<(), Refusal> {
    let mut own = Vec::new(alloc);
    match file.read_to_end(&mut own) {
        Ok(_) if own.as_slice() == text => Ok(()),
        Ok(_) => Err(Refusal::at(ProgramFault::Tape(TapeFault::OtherSetup), path)),
        Err(error) if error.kind() == ErrorKind::OutOfMemory => Err(Refusal::no_memory()),
        Err(error) => Err(Refusal::of_stream(Stream::Tape, path, &error)),
    }
}
