//! The program: the quote board's command line on the arguments, files and streams of the process.
#![tactic(auto)]

mod living;
mod program;
mod tool_fault;

use nms_command::{CommandFault, WordsFault, lend_words, own_words};
pub use program::{run_tool, tell_fault};
use std::io;
use std::io::Write;
use std::process::ExitCode;
use std::rt::{Env, Files};
use std::sync::Wait;
use std::thread::Threads;
pub use tool_fault::ToolFault;

/// How many bytes of the stack the program takes when it starts.
const STACK: usize = 114_688;

fn main(rt: HostRuntime) -> ExitCode {
    let errors = &mut rt.stderr();
    let status = match answer_words(&rt, errors) {
        Ok(status) => status,
        Err(fault) => tell_fault(&fault, errors),
    };
    ExitCode::from(status)
}

/// Takes all the stack that the program will need, while there is memory for it. Later the stack might not grow. The system would
/// then end the program before it could report that it is out of memory. The result is 0 or 1. It is read so that the compiler
/// keeps the array.
#[inline(never)]
fn take_stack(count: usize) -> u8 {
    let mut room = [0u8; STACK];
    room[count % STACK] = 1;
    room[count / 2 % STACK]
}

/// Runs the command line on the arguments and streams of the process.
fn answer_words<T, E: Write>(rt: &T, errors: &mut E) -> Result<u8, ToolFault>
where
    T: AllocGlobal + Env + Files + Input + Print + Threads + Wait + Sync,
{
    let own = own_words(rt)?;
    if take_stack(own.len()) > 1 {
        return Err(ToolFault::Command(CommandFault::Words(WordsFault::NoMemory)));
    }
    let words = lend_words(rt.alloc(), &own)?;
    Ok(answer(rt, &words, errors))
}

/// Runs the command line on the given arguments and the streams of the process.
fn answer<T, E: Write>(rt: &T, words: &[&str], errors: &mut E) -> u8
where
    T: AllocGlobal + Files + Input + Print + Threads + Wait + Sync,
{
    run_tool(rt, words, rt.reader(), &mut io::writer(rt), errors)
}
