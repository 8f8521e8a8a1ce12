//! The subcommand `trades`.
use crate::call::{Call, Host};
use crate::fault::{About, Fault};
use crate::paging::serve_page;
use crate::request::Trades;
use nms_show::Ending;
use nms_times::Times;
use nms_trades::{Layout, Timing, TradesFault, judge_file};
use std::io::Write;

/// Judges a file of executions. The arguments are tested first, then the times are read. The changes and the executions are
/// opened before either is read.
pub(crate) fn serve_trades<T: Host, W: Write>(
    call: &Call<'_, T>,
    trades: &Trades<'_>,
    answers: &mut W,
) -> Result<Ending, Fault> {
    let window = trades.window?;
    let layout = trades.layout?;
    let times = call.read_times(trades.times)?;
    let symbols = call.read_given(trades.symbols)?;
    let symbols = symbols.as_ref().map(Vec::as_slice);
    let timing = timing_of(times.as_ref(), symbols, trades.before, window);
    match trades.html {
        Some(page) => serve_page(call, trades, timing.as_ref(), layout, page, answers),
        None => serve_answers(call, trades, timing.as_ref(), layout, answers),
    }
}

/// Judges a file of executions. If times are given, versions are found by them.
fn serve_answers<T: Host, W: Write>(
    call: &Call<'_, T>,
    trades: &Trades<'_>,
    timing: Option<&Timing<'_>>,
    layout: Layout,
    answers: &mut W,
) -> Result<Ending, Fault> {
    let mut changes = call.open(trades.changes)?;
    let mut executions = call.open(trades.executions)?;
    let served = judge_file(
        call.alloc(),
        call.setup,
        &mut changes,
        &mut executions,
        timing,
        call.form(),
        layout,
        answers,
    )
    .map_err(|fault| trades_fault(fault, trades.executions.about));
    changes.ended(executions.ended(served))
}

/// Turns a fault of the judgement into a fault of the call. It is about the executions, the changes or the times.
pub(crate) fn trades_fault(fault: TradesFault, executions: About) -> Fault {
    match fault {
        TradesFault::Executions(_) | TradesFault::TooLong => Fault::of(fault.code(), executions),
        TradesFault::Times(fault) => Fault::of_times(fault, About::Value("times")),
        TradesFault::Symbols(fault) => Fault::of_times(fault, About::Value("symbols")),
        TradesFault::Changes(_) | TradesFault::Board(_) | TradesFault::Show(_) => {
            Fault::of(fault.code(), About::Word(0))
        }
    }
}

/// The means to find versions by times, if there are any.
pub(crate) fn timing_of<'a>(
    times: Option<&'a Times>,
    symbols: Option<&'a [u8]>,
    before: bool,
    window: Option<u64>,
) -> Option<Timing<'a>> {
    Some(Timing {
        times: times?,
        symbols,
        before,
        window: window.unwrap_or(0),
    })
}
