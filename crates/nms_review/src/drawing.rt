//! The subcommand `draw`: which versions a page shows, and with what else.
use crate::call::{Call, Host};
use crate::fault::{About, Fault};
use crate::paging::{made_of, page_fault};
use crate::request::{Draw, Path, Version};
use crate::timing::{number_of, span_of};
use crate::trading::timing_of;
use nms_drawing::{About as Named, DrawingFault, Frame, draw_changes, draw_executions};
use nms_quote::Sym;
use nms_show::Ending;
use nms_times::{TimeOfDay, Times};
use std::io::Write;

/// What a page shows: a symbol at the versions of a frame, and a plan if there is one.
#[derive(Clone, Copy)]
struct Picture<'a> {
    sym: Sym,
    frame: &'a Frame<'a>,
    plan: Option<&'a [u8]>,
    named: &'a Named<'a>,
}

/// Writes the page of a symbol's day, with a plan and with executions if those are given.
pub(crate) fn serve_draw<T: Host, W: Write>(
    call: &Call<'_, T>,
    draw: &Draw<'_>,
    answers: &mut W,
) -> Result<Ending, Fault> {
    let sym = match call.sym(draw.symbol) {
        Ok(sym) => sym,
        Err(fault) => return Err(fault),
    };
    let times = call.read_times(draw.times)?;
    let frame = match frame_of(call, draw, times.as_ref()) {
        Ok(frame) => frame,
        Err(fault) => return Err(fault),
    };
    let plan = call.read_given(draw.plan)?;
    let plan = plan.as_ref().map(Vec::as_slice);
    let pairs = made_of(
        call,
        &[
            ("changes", Some(draw.changes)),
            ("plan", draw.plan),
            ("executions", draw.trades),
            ("times", draw.times),
            ("symbols", draw.within.map(|within| within.symbols)),
        ],
    )?;
    let named = Named {
        pairs: &pairs,
        plan: name_of(draw.plan),
    };
    let picture = Picture {
        sym,
        frame: &frame,
        plan,
        named: &named,
    };
    match draw.trades {
        Some(trades) => draw_trades(call, draw, trades, &picture, answers),
        None => draw_day(call, draw, &picture, answers),
    }
}

/// The name of a file; empty if there is none.
fn name_of<'a>(file: Option<Path<'a>>) -> &'a str {
    match file {
        Some(file) => file.name,
        None => "",
    }
}

/// Writes the page of a day without executions.
fn draw_day<T: Host, W: Write>(
    call: &Call<'_, T>,
    draw: &Draw<'_>,
    picture: &Picture<'_>,
    answers: &mut W,
) -> Result<Ending, Fault> {
    let mut source = call.open(draw.changes)?;
    let served = draw_changes(
        call.alloc(),
        call.setup,
        &mut source,
        picture.frame,
        picture.sym,
        picture.plan,
        picture.named,
        answers,
    )
    .map_err(|fault| drawing_fault(fault, last_of(draw), draw.changes.about));
    source.ended(served)
}

/// Writes the page of a day with the executions of a file. Both files are opened before either is read.
fn draw_trades<T: Host, W: Write>(
    call: &Call<'_, T>,
    draw: &Draw<'_>,
    trades: Path<'_>,
    picture: &Picture<'_>,
    answers: &mut W,
) -> Result<Ending, Fault> {
    let symbols = call.read_given(draw.within.map(|within| within.symbols))?;
    let symbols = symbols.as_ref().map(Vec::as_slice);
    let timing = timing_of(picture.frame.times, symbols, false, None);
    let mut changes = call.open(draw.changes)?;
    let mut executions = call.open(trades)?;
    let served = draw_executions(
        call.alloc(),
        call.setup,
        &mut changes,
        &mut executions,
        timing.as_ref(),
        picture.frame,
        picture.sym,
        picture.plan,
        picture.named,
        answers,
    )
    .map_err(|fault| page_fault(fault, trades.about, last_of(draw)));
    changes.ended(executions.ended(served))
}

/// The option that is blamed if the last version of the page is beyond the tape: `--to`, or `--from` if there is no `--to`.
fn last_of(draw: &Draw<'_>) -> About {
    if matches!(draw.to, Ok(None)) {
        About::Value("from")
    } else {
        About::Value("to")
    }
}

/// Turns a fault of a drawing into a fault of the call, about the argument for its version, the changes, the plan or the times.
pub(crate) fn drawing_fault(fault: DrawingFault, version: About, changes: About) -> Fault {
    let about = match fault {
        DrawingFault::VersionBeyondTape => version,
        DrawingFault::Plan(_) => About::Value("plan"),
        DrawingFault::Times(_) => About::Value("times"),
        DrawingFault::Changes(_)
        | DrawingFault::Board(_)
        | DrawingFault::WriteFault
        | DrawingFault::NoMemory => changes,
    };
    Fault::of(fault.code(), about)
}

/// The versions that the page shows, and whether it counts times or versions. A file of symbols limits them to the symbol's
/// versions.
fn frame_of<'a, T: Host>(
    call: &Call<'_, T>,
    draw: &Draw<'_>,
    times: Option<&'a Times>,
) -> Result<Frame<'a>, Fault> {
    let (first, last) = span_drawn(call, draw, times)?;
    let from = end_of(call, draw, &draw.from, times)?.unwrap_or(0);
    let to = end_of(call, draw, &draw.to, times)?;
    let (since, until) = (time_of(&draw.from), time_of(&draw.to));
    if to.is_some_and(|to| from > to) {
        return Err(Fault::usage(About::Nothing, "--from is a version after that of --to"));
    }
    if let (Some(since), Some(until)) = (since, until) {
        if since > until {
            return Err(Fault::usage(About::Nothing, "--from is a time after that of --to"));
        }
    }
    Ok(Frame {
        from: from.max(first).min(last.unwrap_or(u64::MAX)),
        to: sooner(to, last),
        own: draw.own,
        times,
        opening: first,
        since,
        until,
        bests: draw.bests,
    })
}

/// The first and the last version of the symbol, by the file of symbols. Without such a file, the first is 0 and no last one is
/// set.
fn span_drawn<T: Host>(
    call: &Call<'_, T>,
    draw: &Draw<'_>,
    times: Option<&Times>,
) -> Result<(u64, Option<u64>), Fault> {
    let Some(within) = draw.within else {
        return Ok((0, None));
    };
    let Some(times) = times else {
        return Err(Fault::usage(within.symbols.about, "--symbols needs --times"));
    };
    let span = span_of(call, within, times.len())?;
    Ok((span.before as u64, Some(span.last as u64)))
}

/// The version that `--from` or `--to` gives, by its number or by a time.
fn end_of<T: Host>(
    call: &Call<'_, T>,
    draw: &Draw<'_>,
    given: &Result<Option<Version>, Fault>,
    times: Option<&Times>,
) -> Result<Option<u64>, Fault> {
    match given {
        Ok(Some(version)) => Ok(Some(number_of(call, version, draw.within, times)?)),
        Ok(None) => Ok(None),
        Err(fault) => Err(*fault),
    }
}

/// The time that `--from` or `--to` gives, if it gives a time and not the number of a version.
fn time_of(given: &Result<Option<Version>, Fault>) -> Option<TimeOfDay> {
    match given {
        Ok(Some(Version::At { time, .. })) => Some(*time),
        Ok(Some(Version::Number(_)) | None) | Err(_) => None,
    }
}

/// The earlier of two versions, or the only one.
fn sooner(one: Option<u64>, other: Option<u64>) -> Option<u64> {
    match (one, other) {
        (Some(one), Some(other)) => Some(one.min(other)),
        (Some(version), None) | (None, Some(version)) => Some(version),
        (None, None) => None,
    }
}
