//! The serving program: a board that runs next to routers. It uses the arguments, files and streams of the process.
#![tactic(auto)]

mod call_streams;
mod checking;
mod choices;
mod held_tape;
mod left_epoch;
mod left_run;
mod opening;
mod own_files;
mod program_fault;
mod refusal;
mod rights;
mod running;
mod setting_up;
mod tape_fault;
mod tape_folder;
mod tape_paths;
mod tape_setup;
mod telling;
mod words;

use nms_show::open_closed_streams;
use program_fault::ProgramFault;
use running::run_request;
use std::alloc::Global;
use std::env;
use std::io::ErrorKind;
use std::process::ExitCode;
use std::sync::Wait;
use std::thread::Threads;
use telling::{tell_fault, tell_help};
pub use words::{ClientPaths, FeedPath, Request, WordsFault, read_words};

fn main(rt: HostRuntime) -> ExitCode {
    match open_closed_streams(&rt) {
        Ok(()) => ExitCode::from(answer_words(&rt, &rt)),
        Err(_) => ExitCode::from(tell_fault(&rt, &ProgramFault::NoNull)),
    }
}

/// Does what the arguments of the process ask for, and gives the exit status.
fn answer_words<R: Threads + Wait + Sync + Copy + Send + 'static>(
    rt: &R,
    host: &HostRuntime,
) -> u8 {
    let own = match own_words(host) {
        Ok(own) => own,
        Err(fault) => return tell_fault(host, &fault),
    };
    match words_of(host.alloc(), &own) {
        Some(words) => answer(rt, host, &words),
        None => tell_fault(host, &ProgramFault::Words(WordsFault::NoMemory)),
    }
}

/// Does what the given arguments ask for, and gives the exit status.
fn answer<R: Threads + Wait + Sync + Copy + Send + 'static>(
    rt: &R,
    host: &HostRuntime,
    words: &[&str],
) -> u8 {
    match read_words(host.alloc(), words) {
        Ok(request) => match run_request(rt, host, request) {
            Ok(status) => status,
            Err(fault) => tell_fault(host, &fault),
        },
        Err(WordsFault::Parser { text, help: true }) => tell_help(host, text.as_str()),
        Err(fault) => tell_fault(host, &ProgramFault::Words(fault)),
    }
}

/// The arguments after the program's name. An argument that is not UTF-8 names nothing.
fn own_words(host: &HostRuntime) -> Result<Vec<String>, ProgramFault> {
    let all = env::args(host).map_err(|error| match error.kind() {
        ErrorKind::OutOfMemory => ProgramFault::Words(WordsFault::NoMemory),
        _ => ProgramFault::NoText,
    })?;
    let mut words = Vec::new(host.alloc());
    for word in all.skip(1) {
        words
            .push(word)
            .map_err(|_| ProgramFault::Words(WordsFault::NoMemory))?;
    }
    Ok(words)
}

/// The arguments as borrowed texts; `None` if out of memory.
fn words_of<'a>(alloc: Global, own: &'a [String]) -> Option<Vec<&'a str>> {
    let mut words = Vec::new(alloc);
    for word in own {
        words.push(word.as_str()).ok()?;
    }
    Some(words)
}
