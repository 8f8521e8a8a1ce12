//! Serving a request of any subcommand but `live` (specs/Served).
ghost use Rattle.std.specs.Prelude.{◌≡◌, ◌≢◌, IfErr, IfOk, Ok, OnOk, map};
ghost use Rattle.std.specs.Io.KnownBytes.{Appends};
ghost use Rattle.std.specs.String.{string_bytes};
ghost use Rattle.nms_words.specs.CommandLine.{shown};
ghost use Rattle.nms_command.specs.Failed.{CutsShort, Stops, StopsScript};
ghost use Rattle.nms_fees.specs.Setup.{IsSetupOf};
ghost use Rattle.nms_command.specs.Served.{IsNoSetup, IsSetup, Refuses, Reports, Scripts, Serves};

use crate::check::serve_check;
use crate::command_fault::CommandFault;
use crate::ending::Ending;
use crate::files::{open_file, read_file};
use crate::line::write_whole;
use crate::planning::serve_plan;
use nms_fees::{SETUP_K, Setup, read_setup_bytes};
use nms_file_answers::report_changes;
use nms_scripts::run_script;
use nms_text::ScriptFault;
use nms_words::{Request, Sub};
use std::alloc::Global;
use std::io::{Read, Write};
use std::rt::Files;

/// Serves a request of any subcommand but `live` under a setup, with the script on `input`.
///
/// If it fails, the first records of a script were answered. For any other request nothing was written, or a prefix of the
/// answer if the writer failed.
pub fn serve<T: Files + AllocGlobal, R: Read, W: Write>(
    rt: &T,
    setup: &Setup,
    request: &Request,
    input: &mut R,
    answers: &mut W,
) -> Result<Ending, CommandFault>
    requires apart { request.now.command ≢ Sub.Live }
    ensures served { IfOk result (Serves request.now.command setup.now (shown request.now) (R.remaining input.old) (W.contents answers.old) (W.contents answers.new)) }
    ensures left { IfErr result (Stops request.now.command setup.now (shown request.now) (R.remaining input.old) (W.contents answers.old) (W.contents answers.new)) }
{
    match request.command {
        Sub::Script => serve_script(rt, setup, input, answers),
        Sub::Report => serve_report(rt, setup, &request.words, answers),
        Sub::Plan => serve_plan(rt, setup, request, answers),
        Sub::Check => serve_check(rt, setup, &request.words, answers),
        Sub::Live => unreachable!(),
    }
}

/// Writes the help or the version. If the writer fails, only the first bytes of it were written.
pub fn show_help<W: Write>(answers: &mut W, help: &str) -> Result<Ending, CommandFault>
    ensures done { IfOk result (λ ends. ends ≡ Ending.Done) }
    ensures written { OnOk result (Appends (W.contents answers.old) (W.contents answers.new) help.now) }
    ensures refused { IfErr result (λ fault. fault ≡ CommandFault.Script ScriptFault.WriteFault) }
    ensures cut { IfErr result (CutsShort (λ whole ends. (ends ≡ Ending.Done) × Appends (W.contents answers.old) whole help.now) (W.contents answers.old) (W.contents answers.new)) }
{
    match write_whole(answers, help) {
        Ok(()) => Ok(Ending::Done),
        Err(_) => Err(CommandFault::Script(ScriptFault::WriteFault)),
    }
}

/// The setup of the file that the request names, or the built-in one if it names none.
///
/// The fault is that of the setup's text, or E1 or E4 if the file can't be read.
pub fn setup_of<T: Files + AllocGlobal>(rt: &T, request: &Request) -> Result<Setup, CommandFault>
    ensures said { IfOk result (λ setup. IsSetup setup) }
    ensures refused { IfErr result IsNoSetup }
{
    let Some(file) = &request.setup else {
        return setup_in(rt.alloc(), SETUP_K.as_bytes());
    };
    let bytes = read_file(rt, file.as_str())?;
    setup_in(rt.alloc(), &bytes)
}

/// The setup that the bytes of a file give.
fn setup_in(alloc: Global, bytes: &[u8]) -> Result<Setup, CommandFault>
    ensures read { IfOk result (λ setup. IsSetupOf bytes.now setup) }
    ensures refused { IfErr result (Refuses bytes.now) }
{
    match read_setup_bytes(alloc, bytes) {
        Ok(setup) => Ok(setup),
        Err(fault) => Err(CommandFault::Setup(fault)),
    }
}

/// Runs the script of an input, and writes its answers.
fn serve_script<T: AllocGlobal, R: Read, W: Write>(
    rt: &T,
    setup: &Setup,
    input: &mut R,
    answers: &mut W,
) -> Result<Ending, CommandFault>
    ensures served { IfOk result (λ ends. (ends ≡ Ending.Done) × Scripts setup.now (R.remaining input.old) (W.contents answers.old) (W.contents answers.new)) }
    ensures left { IfErr result (StopsScript setup.now (R.remaining input.old) (W.contents answers.old) (W.contents answers.new)) }
{
    match run_script(rt.alloc(), setup, input, answers) {
        Ok(_) => Ok(Ending::Done),
        Err(fault) => Err(CommandFault::Script(fault)),
    }
}

/// Writes a report of a symbol after all the changes of a file.
fn serve_report<T: Files + AllocGlobal, W: Write>(
    rt: &T,
    setup: &Setup,
    words: &[String],
    answers: &mut W,
) -> Result<Ending, CommandFault>
    ensures served { IfOk result (λ ends. (ends ≡ Ending.Done) × Reports setup.now (map string_bytes words.now) (W.contents answers.old) (W.contents answers.new)) }
    ensures cut { IfErr result (CutsShort (λ whole ends. (ends ≡ Ending.Done) × Reports setup.now (map string_bytes words.now) (W.contents answers.old) whole) (W.contents answers.old) (W.contents answers.new)) }
{
    let [changes, symbol] = words else {
        return Err(CommandFault::Usage);
    };
    let Some(sym) = setup.roster().find_sym(symbol.as_bytes()) else {
        return Err(CommandFault::Usage);
    };
    let file = match open_file(rt, changes.as_str()) {
        Ok(file) => file,
        Err(fault) => return Err(fault),
    };
    match report_changes(rt.alloc(), setup, file, sym, answers) {
        Ok(()) => Ok(Ending::Done),
        Err(fault) => Err(CommandFault::Report(fault)),
    }
}
