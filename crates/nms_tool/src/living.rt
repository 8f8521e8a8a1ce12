//! The subcommand `live`: the feeds, the tape and the desks run at the same time, each in its own thread.
ghost use Rattle.std.specs.Prelude.{◌≡◌, ◌<◌, All, IfErr, IfOk, length};
ghost use Rattle.nms_command.specs.LiveFiles.{AreOrdersOfSome};
ghost use Rattle.nms_tool.specs.Failed.{StopsRun};
ghost use Rattle.nms_tool.specs.Served.{Runs, WritesRun};

use crate::tool_fault::ToolFault;
use nms_command::{Ending, LiveInput};
use nms_fees::Setup;
use nms_live::{Live, OpenGate, run_live};
use nms_text::write_live;
use std::alloc::Global;
use std::io::Write;
use std::sync::Wait;
use std::thread::Threads;

/// Runs the feeds with the orders, and writes the tape's length and each order's plan on the complete tape, with its certificate.
pub(crate) fn serve_live<T: AllocGlobal + Threads + Wait + Sync, W: Write>(
    rt: &T,
    setup: &Setup,
    input: LiveInput,
    answers: &mut W,
) -> Result<Ending, ToolFault>
    requires feeds { length input.feeds.items ≡ setup.now.feeds }
    requires orders { AreOrdersOfSome setup.now input.orders.items }
    requires desks { All (λ order. order.desk < setup.now.desks) input.orders.items }
    ensures done { IfOk result (λ ends. (ends ≡ Ending.Done) × Runs setup.now (W.contents answers.old) (W.contents answers.new)) }
    ensures left { IfErr result (StopsRun (Runs setup.now (W.contents answers.old)) (W.contents answers.old) (W.contents answers.new)) }
{
    let LiveInput { feeds, orders } = input;
    match run_live(rt, rt.alloc(), setup, feeds, orders, &OpenGate) {
        Ok(live) => tell_run(rt.alloc(), setup, &live, answers),
        Err(fault) => Err(ToolFault::Live(fault)),
    }
}

/// Writes the result of a live run.
fn tell_run<W: Write>(
    alloc: Global,
    setup: &Setup,
    live: &Live,
    answers: &mut W,
) -> Result<Ending, ToolFault>
    ensures done { IfOk result (λ ends. (ends ≡ Ending.Done) × WritesRun setup.now live.now (W.contents answers.old) (W.contents answers.new)) }
    ensures left { IfErr result (StopsRun (WritesRun setup.now live.now (W.contents answers.old)) (W.contents answers.old) (W.contents answers.new)) }
{
    let taken = live.tape.len() as u64;
    match write_live(alloc, setup.roster(), taken, &live.closing, answers) {
        Ok(()) => Ok(Ending::Done),
        Err(fault) => Err(ToolFault::LiveText(fault)),
    }
}
