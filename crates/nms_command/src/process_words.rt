//! The arguments with which the process was started.
ghost use Rattle.std.specs.Prelude.{◌≡◌, IfErr, IfOk, map};
ghost use Rattle.std.specs.String.{string_bytes};
ghost use Rattle.nms_command.specs.Unread.{AreUnread};

use crate::command_fault::CommandFault;
use nms_words::WordsFault;
use std::alloc::Global;
use std::env;
use std::io::ErrorKind;
use std::rt::Env;

/// Takes the arguments after the program's name. If they can't be taken, the fault is G2 if there was no memory, else `usage`,
/// because an argument that is not UTF-8 names nothing.
pub fn own_words<T: AllocGlobal + Env>(rt: &T) -> Result<Vec<String>, CommandFault>
    ensures refused { IfErr result AreUnread }
{
    let all = match env::args(rt) {
        Ok(all) => all,
        Err(error) => return Err(no_words(error.kind())),
    };
    let mut words = Vec::new(rt.alloc());
    for word in all.skip(1) {
        match words.push(word) {
            Ok(()) => {}
            Err(_) => return Err(CommandFault::Words(WordsFault::NoMemory)),
        }
    }
    Ok(words)
}

/// Why the arguments could not be taken.
fn no_words(kind: ErrorKind) -> CommandFault
    ensures { AreUnread result }
{
    if kind == ErrorKind::OutOfMemory {
        CommandFault::Words(WordsFault::NoMemory)
    } else {
        CommandFault::Usage
    }
}

/// Borrows the arguments, in order. The fault is G2 if there is no memory for the list of them.
pub fn lend_words<'a>(alloc: Global, own: &'a [String]) -> Result<Vec<&'a str>, CommandFault>
    ensures lent { IfOk result (λ words. map (λ word. word.now) words.items ≡ map string_bytes own.now) }
    ensures refused { IfErr result (λ fault. fault ≡ CommandFault.Words WordsFault.NoMemory) }
{
    let mut words = Vec::new(alloc);
    for word in own {
        match words.push(word.as_str()) {
            Ok(()) => {}
            Err(_) => return Err(CommandFault::Words(WordsFault::NoMemory)),
        }
    }
    Ok(words)
}
