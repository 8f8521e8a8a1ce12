//! How the program uses its arguments, its streams and its files (specs/Served).
ghost use Rattle.std.specs.Prelude.{◌≡◌, ◌≢◌, ◌⊎◌, ◌<◌, IfErr, IfOk, OnErr, OnOk, map};
ghost use Rattle.std.specs.Io.KnownBytes.{Appends};
ghost use Rattle.nms_lines.specs.Written.{AppendsPart};
ghost use Rattle.nms_tool.specs.Failed.{Fails, Stops};
ghost use Rattle.nms_tool.specs.Served.{AreServed};
ghost use Rattle.nms_tool.specs.Statuses.{fault_text, status_of};

use crate::living::serve_live;
use crate::tool_fault::ToolFault;
use nms_command::{CommandFault, Ending, Step, WordsFault, serve_words, write_line, write_whole};
use std::io;
use std::io::{Read, Write};
use std::rt::Files;
use std::sync::Wait;
use std::thread::Threads;

/// Does what the arguments ask for, with the script on `input`, and gives the exit status.
///
/// Answers and help go to `answers`. The text of a parser's fault, or one line `nms_tool: CODE`, goes to `errors`. Status 0
/// means that what the arguments ask for was done; a plan that was asked about is confirmed. Status 4 means that a plan was
/// judged and is not confirmed. Any other status means that it failed. Then `answers` got the answers to a script's first
/// records. For any other request it got nothing, or a prefix if the writer failed.
pub fn run_tool<T, R: Read + Drop, W: Write, E: Write>(
    rt: &T,
    words: &[&str],
    mut input: R,
    answers: &mut W,
    errors: &mut E,
) -> u8
where
    T: Files + AllocGlobal + Threads + Wait + Sync,
    ensures known { result < 8 }
    ensures told { result ≢ 0 → result ≢ 4 → Fails (map (λ word. word.now) words.entry.now) (R.remaining input) (W.contents answers.old) (W.contents answers.new) (E.contents errors.old) (E.contents errors.new) result }
    ensures quiet { (result ≡ 0) ⊎ (result ≡ 4) → E.contents errors.new ≡ E.contents errors.old }
    ensures done { result ≡ 0 → AreServed (map (λ word. word.now) words.entry.now) (R.remaining input) (W.contents answers.old) (W.contents answers.new) Ending.Done }
    ensures not_confirmed { result ≡ 4 → AreServed (map (λ word. word.now) words.entry.now) (R.remaining input) (W.contents answers.old) (W.contents answers.new) Ending.NotConfirmed }
{
    match serve(rt, words, &mut input, answers) {
        Ok(ending) => ending.status(),
        Err(fault) => tell_fault(&fault, errors),
    }
}

/// Reports a fault, and gives its exit status. The status is the same if standard error does not take the report completely. Then
/// only the first bytes of the report are written.
pub fn tell_fault<E: Write>(fault: &ToolFault, errors: &mut E) -> u8
    ensures status { result ≡ status_of fault.now }
    ensures told { AppendsPart (E.contents errors.old) (E.contents errors.new) (fault_text fault.now) }
{
    let _ = write_fault(fault, errors);
    fault.status()
}

/// Writes the report of a fault: the parser's text, or one line with the code.
fn write_fault<E: Write>(fault: &ToolFault, errors: &mut E) -> io::Result<()>
    ensures written { OnOk result (Appends (E.contents errors.old) (E.contents errors.new) (fault_text fault.now)) }
    ensures part { OnErr result (AppendsPart (E.contents errors.old) (E.contents errors.new) (fault_text fault.now)) }
{
    match fault {
        ToolFault::Command(CommandFault::Words(WordsFault::Parser { text, .. })) => {
            write_whole(errors, text.as_str())
        }
        ToolFault::Command(_) | ToolFault::Live(_) | ToolFault::LiveText(_) => {
            write_line(errors, "nms_tool: ", fault.code())
        }
    }
}

/// Does what the arguments ask for, and returns how it ended. A live run is made here, and `nms_command` serves all other
/// requests.
fn serve<T, R: Read, W: Write>(
    rt: &T,
    words: &[&str],
    input: &mut R,
    answers: &mut W,
) -> Result<Ending, ToolFault>
where
    T: Files + AllocGlobal + Threads + Wait + Sync,
    ensures done { IfOk result (AreServed (map (λ word. word.now) words.entry.now) (R.remaining input.old) (W.contents answers.old) (W.contents answers.new)) }
    ensures left { IfErr result (Stops (map (λ word. word.now) words.entry.now) (R.remaining input.old) (W.contents answers.old) (W.contents answers.new)) }
{
    match serve_words(rt, words, input, answers) {
        Ok(Step::Ended(ending)) => Ok(ending),
        Ok(Step::Live { setup, input }) => serve_live(rt, &setup, input, answers),
        Err(fault) => Err(ToolFault::Command(fault)),
    }
}
