//! Writing the stream of a file in the requested form: `specs/Streamed`.
ghost use Rattle.std.specs.Prelude.{◌≡◌, ◌<◌, IfErr, IfSome, None, OnOk, false, length, option_copied, true};
ghost use Rattle.nms_lines.specs.Written.{WritesPart};
ghost use Rattle.nms_show.specs.Safe.{IsSafe};
ghost use Rattle.nms_show.specs.Written.{Writes};
ghost use Rattle.nms_stream.specs.StreamFile.{StreamsFile, is_of_file};
ghost use Rattle.nms_drawing.specs.Faults.{is_begun, is_of_input};
ghost use Rattle.nms_drawing.specs.Streamed.{IsStreamedFault, is_plain};

use crate::boards_lines::{Wanted, write_boards};
use crate::drawing_fault::DrawingFault;
use crate::passed_lines::PassedLines;
use nms_fees::Setup;
use nms_quote::Sym;
use nms_show::{Ending, Form};
use nms_stream::{StreamFault, Tape, stream, stream_file};
use nms_times::Times;
use std::alloc::Global;
use std::io::{Read, Write};

/// Streams the changes of a file as the proved stream writes it, or each of its lines as a JSON object. An object has the names
/// of the columns as keys, numbers as numbers and prices as texts, and `null` if a side has none. If there are times, each line
/// ends with that of its version.
///
/// After `Changes` or `Times` nothing is written. The stream is not flushed.
pub fn stream_changes<R: Read + Drop, W: Write>(
    alloc: Global,
    setup: &Setup,
    source: R,
    times: Option<&Times>,
    sym: Option<Sym>,
    form: Form,
    answers: &mut W,
) -> Result<Ending, DrawingFault>
    requires { IfSome sym (λ sym. sym < length setup.now.roster.syms) }
    ensures written { is_plain (option_copied times.entry) form ≡ true → OnOk result
        (StreamsFile setup.now (R.remaining source) sym (W.contents answers.old) (W.contents answers.new)) }
    ensures cut { is_plain (option_copied times.entry) form ≡ true → IfErr result (λ fault. is_begun fault ≡ true → WritesPart
        (StreamsFile setup.now (R.remaining source) sym (W.contents answers.old)) (W.contents answers.old) (W.contents answers.new)) }
    ensures whole { is_plain (option_copied times.entry) form ≡ true → IfErr result (λ fault. is_begun fault ≡ false
        → W.contents answers.new ≡ W.contents answers.old) }
    ensures refused { IfErr result (IsStreamedFault setup.now (R.remaining source) (option_copied times.entry)) }
    ensures unwritten { IfErr result (λ fault. is_of_input fault ≡ true → W.contents answers.new ≡ W.contents answers.old) }
{
    match times {
        Some(times) => stream_lines(alloc, setup, source, Some(times), sym, form, answers),
        None => match form {
            Form::Json => stream_lines(alloc, setup, source, None, sym, form, answers),
            Form::Text { .. } => stream_plain(alloc, setup, source, sym, answers),
        },
    }
}

/// Streams the changes of a file as text.
fn stream_plain<R: Read + Drop, W: Write>(
    alloc: Global,
    setup: &Setup,
    source: R,
    sym: Option<Sym>,
    answers: &mut W,
) -> Result<Ending, DrawingFault>
    requires { IfSome sym (λ sym. sym < length setup.now.roster.syms) }
    ensures written { OnOk result (StreamsFile setup.now (R.remaining source) sym (W.contents answers.old) (W.contents answers.new)) }
    ensures cut { IfErr result (λ fault. is_begun fault ≡ true → WritesPart
        (StreamsFile setup.now (R.remaining source) sym (W.contents answers.old)) (W.contents answers.old) (W.contents answers.new)) }
    ensures refused { IfErr result (IsStreamedFault setup.now (R.remaining source) None) }
    ensures unwritten { IfErr result (λ fault. is_begun fault ≡ false → W.contents answers.new ≡ W.contents answers.old) }
{
    match stream_file(alloc, setup, source, sym, answers) {
        Ok(()) => Ok(Ending::Done),
        Err(fault) => Err(DrawingFault::from(fault)),
    }
}

/// Streams the changes of a file line by line: as objects, or with the time of each line's version.
fn stream_lines<R: Read + Drop, W: Write>(
    alloc: Global,
    setup: &Setup,
    source: R,
    times: Option<&Times>,
    sym: Option<Sym>,
    form: Form,
    answers: &mut W,
) -> Result<Ending, DrawingFault>
    requires { IfSome sym (λ sym. sym < length setup.now.roster.syms) }
    ensures refused { IfErr result (IsStreamedFault setup.now (R.remaining source) (option_copied times.entry)) }
    ensures unwritten { IfErr result (λ fault. is_of_input fault ≡ true → W.contents answers.new ≡ W.contents answers.old) }
{
    let tape = match Tape::read(alloc, setup, source) {
        Ok(tape) => tape,
        Err(fault) => return Err(DrawingFault::Changes(fault)),
    };
    if let Some(times) = times {
        times.check_len(tape.changes.len())?;
    }
    let mut lines = PassedLines::new(alloc, times, form, answers);
    match stream(alloc, &tape, sym, &mut lines) {
        Ok(()) => Ok(Ending::Done),
        Err(fault) => Err(passed_on(fault, lines.wants_memory())),
    }
}

/// Streams each participant's quotations as JSON objects. After each change it writes those that the change may alter. If there
/// are times, each object ends with that of its version.
///
/// After `Changes` or `Times` nothing is written. The stream is not flushed.
pub fn stream_boards<R: Read + Drop, W: Write>(
    alloc: Global,
    setup: &Setup,
    source: R,
    times: Option<&Times>,
    sym: Option<Sym>,
    answers: &mut W,
) -> Result<Ending, DrawingFault>
    ensures safe { Writes IsSafe (W.contents answers.old) (W.contents answers.new) result }
    ensures refused { IfErr result (IsStreamedFault setup.now (R.remaining source) (option_copied times.entry)) }
    ensures unwritten { IfErr result (λ fault. is_of_input fault ≡ true → W.contents answers.new ≡ W.contents answers.old) }
{
    let tape = match Tape::read(alloc, setup, source) {
        Ok(tape) => tape,
        Err(fault) => return Err(DrawingFault::Changes(fault)),
    };
    if let Some(times) = times {
        times.check_len(tape.changes.len())?;
    }
    let wanted = Wanted {
        alloc,
        tape: &tape,
        times,
        sym,
    };
    match write_boards(&wanted, answers) {
        Ok(()) => Ok(Ending::Done),
        Err(fault) => Err(fault),
    }
}

/// Why a stream that a writer passed on was not written completely. It is out of memory, if that is why the writer failed.
fn passed_on(fault: StreamFault, wants_memory: bool) -> DrawingFault
    ensures { is_of_input result ≡ is_of_file fault }
{
    match fault {
        StreamFault::WriteFault if wants_memory => DrawingFault::NoMemory,
        StreamFault::Changes(_)
        | StreamFault::Board(_)
        | StreamFault::WriteFault
        | StreamFault::NoMemory => DrawingFault::from(fault),
    }
}
