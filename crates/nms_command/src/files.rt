//! Files, and why one could not be read (specs/Unread).
ghost use Rattle.std.specs.Prelude.{IfErr};
ghost use Rattle.nms_command.specs.Unread.{IsUnread};

use crate::command_fault::CommandFault;
use nms_text::ScriptFault;
use std::io::ErrorKind;
use std::rt::Files;
use std::{fs, io};

/// Opens a file to read it. If it can't be opened, the fault is E4 if there was no memory, else E1.
pub fn open_file<T: Files>(rt: &T, path: &str) -> Result<T::File, CommandFault>
    ensures refused { IfErr result IsUnread }
{
    match fs::open(rt, path) {
        Ok(file) => Ok(file),
        Err(error) => Err(unread(&error)),
    }
}

/// The bytes of a file. If it can't be read, the fault is E4 if there was no memory, else E1.
pub(crate) fn read_file<T: Files + AllocGlobal>(rt: &T, path: &str) -> Result<Vec<u8>, CommandFault>
    ensures refused { IfErr result IsUnread }
{
    match fs::read(rt, path) {
        Ok(bytes) => Ok(bytes),
        Err(error) => Err(unread(&error)),
    }
}

/// Why a file could not be read.
fn unread(error: &io::Error) -> CommandFault
    ensures { IsUnread result }
{
    if error.kind() == ErrorKind::OutOfMemory {
        CommandFault::Script(ScriptFault::NoMemory)
    } else {
        CommandFault::Unreadable
    }
}
