//! Makes the run that each line of standard input names, and writes the line with the result. There are loads for benchmarks,
//! the callers of `docs/CALLING.md`, and trials of what no other program shows. A run that fails ends it. `tests/README.md` has
//! the kinds of lines. The gate compares its output for `stdin` with `stdout`, byte for byte.
#![tactic(auto)]

mod callers;
mod faults;
mod lane;
mod lines;
mod looks;
mod offers;
mod setups;
mod steps;
mod trials;

use callers::give_call;
use faults::give_faults;
use lane::give_lane;
use lines::{around, or_failed, text_of};
use looks::give_looks;
use std::io;
use std::io::{Read, Write};
use std::process::ExitCode;
use std::rt::Clock;
use std::sync::Wait;
use std::thread::Threads;
use steps::give_steps;
use trials::give_trials;

/// A line names no run, or a run or a stream failed.
#[derive(Drop)]
struct Failed;

fn main(rt: HostRuntime) -> ExitCode {
    match run_all(&rt) {
        Ok(()) => ExitCode::SUCCESS,
        Err(_) => ExitCode::FAILURE,
    }
}

/// Makes the run of each line of the input.
fn run_all<T>(rt: &T) -> Result<(), Failed>
where
    T: AllocGlobal + Input + Print + Eprint + Threads + Wait + Clock + Sync,
{
    let mut input = Vec::new(rt.alloc());
    or_failed(rt.reader().read_to_end(&mut input))?;
    let mut answers = io::writer(rt);
    for line in text_of(&input)?.lines() {
        run_line(rt, line, &mut answers)?;
    }
    Ok(())
}

/// Makes the run of a line, and writes the line with the result.
fn run_line<T, W>(rt: &T, line: &str, answers: &mut W) -> Result<(), Failed>
where
    T: AllocGlobal + Eprint + Threads + Wait + Clock + Sync,
    W: Write,
{
    let mut given = Vec::new(rt.alloc());
    match give(rt, line, &mut given) {
        Ok(()) => or_failed(writeln!(answers, "{line} {}", text_of(&given)?)),
        Err(fault) => Err(fault),
    }
}

/// Makes the run of a line, and adds the result.
fn give<T>(rt: &T, line: &str, given: &mut Vec<u8>) -> Result<(), Failed>
where
    T: AllocGlobal + Eprint + Threads + Wait + Clock + Sync,
{
    let (kind, rest) = around(line, " ")?;
    match kind {
        "trials" => give_trials(rt, rest, given),
        "faults" => give_faults(rest, given),
        "steps" => give_steps(rt.alloc(), rest, given),
        "lane" => give_lane(rt, rest, given),
        "looks" => give_looks(rt, rest, given),
        _ => give_call(rt, kind, rest, given),
    }
}
