//! Serving the arguments of the command line, up to a live run (specs/Steps).
ghost use Rattle.std.specs.Prelude.{◌≢◌, IfErr, IfOk, map};
ghost use Rattle.nms_words.specs.CommandLine.{shown};
ghost use Rattle.nms_command.specs.Failed.{AreStopped, IsStopped};
ghost use Rattle.nms_command.specs.Served.{IsSetup};
ghost use Rattle.nms_command.specs.Steps.{AreMet, Meets};

use crate::command_fault::CommandFault;
use crate::live_input::read_live_input;
use crate::serving::{serve, setup_of, show_help};
use crate::step::Step;
use nms_fees::Setup;
use nms_words::{Request, Sub, WordsFault, read_words};
use std::io::{Read, Write};
use std::rt::Files;

/// Does what the arguments ask for, with the script on `input`, or shows the help that they ask for. For a live run it only reads
/// the setup and the files, and returns them.
///
/// If it fails, the first records of a script were answered. For anything else nothing was written, or a prefix if the writer
/// failed.
pub fn serve_words<T: Files + AllocGlobal, R: Read, W: Write>(
    rt: &T,
    words: &[&str],
    input: &mut R,
    answers: &mut W,
) -> Result<Step, CommandFault>
    ensures met { IfOk result (AreMet (map (λ word. word.now) words.entry.now) (R.remaining input.old) (W.contents answers.old) (W.contents answers.new)) }
    ensures left { IfErr result (AreStopped (map (λ word. word.now) words.entry.now) (R.remaining input.old) (W.contents answers.old) (W.contents answers.new)) }
{
    match read_words(rt.alloc(), words) {
        Ok(request) => serve_request(rt, &request, input, answers),
        Err(WordsFault::Parser { text, help: true }) => {
            Ok(Step::Ended(show_help(answers, text.as_str())?))
        }
        Err(fault) => Err(CommandFault::Words(fault)),
    }
}

/// Serves a request under the setup that it names. It only prepares a live run.
fn serve_request<T: Files + AllocGlobal, R: Read, W: Write>(
    rt: &T,
    request: &Request,
    input: &mut R,
    answers: &mut W,
) -> Result<Step, CommandFault>
    ensures met { IfOk result (Meets (shown request.now) (R.remaining input.old) (W.contents answers.old) (W.contents answers.new)) }
    ensures left { IfErr result (IsStopped (shown request.now) (R.remaining input.old) (W.contents answers.old) (W.contents answers.new)) }
{
    let setup = setup_of(rt, request)?;
    serve_under(rt, setup, request, input, answers)
}

/// Serves a request under a given setup. It only prepares a live run.
fn serve_under<T: Files + AllocGlobal, R: Read, W: Write>(
    rt: &T,
    setup: Setup,
    request: &Request,
    input: &mut R,
    answers: &mut W,
) -> Result<Step, CommandFault>
    requires said { IsSetup setup }
    ensures met { IfOk result (Meets (shown request.now) (R.remaining input.old) (W.contents answers.old) (W.contents answers.new)) }
    ensures left { IfErr result (IsStopped (shown request.now) (R.remaining input.old) (W.contents answers.old) (W.contents answers.new)) }
{
    match request.command {
        Sub::Live => match read_live_input(rt, &setup, &request.words) {
            Ok(input) => Ok(Step::Live { setup, input }),
            Err(fault) => Err(fault),
        },
        Sub::Script | Sub::Report | Sub::Plan | Sub::Check => {
            serve_to_end(rt, &setup, request, input, answers)
        }
    }
}

/// Serves a request of any subcommand but `live` under a setup.
fn serve_to_end<T: Files + AllocGlobal, R: Read, W: Write>(
    rt: &T,
    setup: &Setup,
    request: &Request,
    input: &mut R,
    answers: &mut W,
) -> Result<Step, CommandFault>
    requires apart { request.now.command ≢ Sub.Live }
    requires said { IsSetup setup.now }
    ensures met { IfOk result (Meets (shown request.now) (R.remaining input.old) (W.contents answers.old) (W.contents answers.new)) }
    ensures left { IfErr result (IsStopped (shown request.now) (R.remaining input.old) (W.contents answers.old) (W.contents answers.new)) }
{
    match serve(rt, setup, request, input, answers) {
        Ok(ending) => Ok(Step::Ended(ending)),
        Err(fault) => Err(fault),
    }
}
