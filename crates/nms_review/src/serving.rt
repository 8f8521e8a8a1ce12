//! The service of each subcommand: it opens the files, and calls a library for the answer.
use crate::call::{Call, Host};
use crate::comparing::serve_compare;
use crate::day::serve_day;
use crate::drawing::{drawing_fault, serve_draw};
use crate::explaining::serve_explain;
use crate::fault::{About, Fault};
use crate::files::setup_of;
use crate::importing::serve_import;
use crate::request::{At, Opening, Path, Plans, Request, Stream, request_of};
use crate::screen::Screen;
use crate::tape::write_tape;
use crate::timing::{number_of, serve_when};
use crate::trading::serve_trades;
use crate::words::Words;
use nms_codes::Code;
use nms_drawing::{show_version, stream_boards, stream_changes, write_opening};
use nms_scripts::ScriptFault;
use nms_show::Ending;
use nms_verdicts::{VerdictFault, check_answers, explain_why};
use std::io::Write;

/// Serves what the arguments ask for. A subcommand without a setup is served under the built-in one.
pub(crate) fn serve<T: Host, W: Write>(
    rt: &T,
    screen: Screen,
    words: &Words<'_>,
    answers: &mut W,
) -> Result<Ending, Fault> {
    let request = match request_of(rt.alloc(), words) {
        Ok(request) => request,
        Err(fault) => return Err(fault),
    };
    match setup_of(rt, words) {
        Ok(setup) => {
            let call = Call {
                rt,
                screen,
                words,
                setup: &setup,
            };
            serve_request(&call, &request, answers)
        }
        Err(fault) => Err(fault),
    }
}

/// Serves a request.
fn serve_request<T: Host, W: Write>(
    call: &Call<'_, T>,
    request: &Request<'_>,
    answers: &mut W,
) -> Result<Ending, Fault> {
    match request {
        Request::Explain(explain) => serve_explain(call, explain, answers),
        Request::Tape(script) => serve_tape(call, *script, answers),
        Request::At(at) => serve_at(call, at, answers),
        Request::Opening(opening) => serve_opening(call, opening, answers),
        Request::Stream(stream) => serve_stream(call, stream, answers),
        Request::Plans(plans) => serve_plans(call, plans, answers),
        Request::Draw(draw) => serve_draw(call, draw, answers),
        Request::Import(import) => serve_import(call, import, answers),
        Request::When(when) => serve_when(call, when, answers),
        Request::Trades(trades) => serve_trades(call, trades, answers),
        Request::Day(day) => serve_day(call, day, answers),
        Request::Compare(compare) => serve_compare(call, compare, answers),
    }
}

/// Writes the changes that a script takes.
fn serve_tape<T: Host, W: Write>(
    call: &Call<'_, T>,
    script: Path<'_>,
    answers: &mut W,
) -> Result<Ending, Fault> {
    let mut source = call.open(script)?;
    let served = match write_tape(call.alloc(), call.setup, &mut source, answers) {
        Ok(()) => Ok(Ending::Done),
        Err(fault) => Err(Fault::of(code_of_script(fault), script.about)),
    };
    source.ended(served)
}

/// The code of a script's fault.
fn code_of_script(fault: ScriptFault) -> Code {
    match fault {
        ScriptFault::ReadFault => Code::E1,
        ScriptFault::WriteFault => Code::E2,
        ScriptFault::TooLong => Code::E3,
        ScriptFault::NoMemory => Code::E4,
    }
}

/// Shows a version.
fn serve_at<T: Host, W: Write>(
    call: &Call<'_, T>,
    at: &At<'_>,
    answers: &mut W,
) -> Result<Ending, Fault> {
    let sym = match call.sym_given(at.symbol) {
        Ok(sym) => sym,
        Err(fault) => return Err(fault),
    };
    let times = call.read_times(at.times)?;
    let version = match &at.version {
        Ok(version) => number_of(call, version, at.within, times.as_ref())?,
        Err(fault) => return Err(*fault),
    };
    let mut source = call.open(at.changes)?;
    let served = show_version(
        call.alloc(),
        call.setup,
        &mut source,
        times.as_ref(),
        version,
        sym,
        call.form(),
        answers,
    )
    .map_err(|fault| drawing_fault(fault, About::Word(0), at.changes.about));
    source.ended(served)
}

/// Writes the opening changes of a version.
fn serve_opening<T: Host, W: Write>(
    call: &Call<'_, T>,
    opening: &Opening<'_>,
    answers: &mut W,
) -> Result<Ending, Fault> {
    let version = opening.version?;
    let mut source = call.open(opening.changes)?;
    let served = write_opening(call.alloc(), call.setup, &mut source, version, answers).map_err(
        |fault| drawing_fault(fault, About::Word(0), opening.changes.about),
    );
    source.ended(served)
}

/// Writes a line when a best bid, a best offer or a market changes; or each participant's quotations after every change.
fn serve_stream<T: Host, W: Write>(
    call: &Call<'_, T>,
    stream: &Stream<'_>,
    answers: &mut W,
) -> Result<Ending, Fault> {
    let sym = match call.sym_given(stream.symbol) {
        Ok(sym) => sym,
        Err(fault) => return Err(fault),
    };
    let times = call.read_times(stream.times)?;
    let mut source = call.open(stream.changes)?;
    let (alloc, setup, times) = (call.alloc(), call.setup, times.as_ref());
    let served = if stream.boards {
        stream_boards(alloc, setup, &mut source, times, sym, answers)
    } else {
        stream_changes(alloc, setup, &mut source, times, sym, call.form(), answers)
    };
    source.ended(served.map_err(|fault| drawing_fault(fault, About::Nothing, stream.changes.about)))
}

/// Judges every plan of a file of answers, or explains why the plan of a file is as it is.
fn serve_plans<T: Host, W: Write>(
    call: &Call<'_, T>,
    plans: &Plans<'_>,
    answers: &mut W,
) -> Result<Ending, Fault> {
    let text = call.read(plans.plans)?;
    let times = call.read_times(plans.times)?;
    let mut source = call.open(plans.changes)?;
    let (alloc, setup, form) = (call.alloc(), call.setup, call.form());
    let (file, times) = (plans.plans.name, times.as_ref());
    let served = if plans.is_why {
        explain_why(alloc, setup, &mut source, times, file, &text, form, answers)
    } else {
        check_answers(alloc, setup, &mut source, times, file, &text, form, answers)
    };
    source.ended(served.map_err(|fault| verdict_fault(fault, plans)))
}

/// Turns a fault of a judgement into a fault of the call, which names the file at fault.
fn verdict_fault(fault: VerdictFault, plans: &Plans<'_>) -> Fault {
    let about = match fault {
        VerdictFault::Times(_) => About::Value("times"),
        VerdictFault::Plan(_) => plans.plans.about,
        VerdictFault::Changes(_) | VerdictFault::Board(_) | VerdictFault::Show(_) => {
            plans.changes.about
        }
    };
    Fault::of(fault.code(), about)
}
