//! The subcommand `explain`.
use crate::call::{Call, Host};
use crate::fault::Fault;
use crate::request::Explain;
use crate::trading::{timing_of, trades_fault};
use crate::words::{Kind, RecordKind, TextKind};
use nms_codes::Code;
use nms_explain::{
    ExecutionCode, RefusedExecution, explain_changes, explain_code, explain_executions,
    explain_feed, explain_orders, explain_plan, explain_script, explain_times,
};
use nms_explain_toml::{explain_map, explain_setup};
use nms_show::Ending;
use nms_times::Times;
use nms_trades::{Records, TradeFault, read_timed};
use std::alloc::{AllocError, Global};
use std::io::Write;

/// Explains what is refused in a file, and where; or what a code means.
pub(crate) fn serve_explain<T: Host, W: Write>(
    call: &Call<'_, T>,
    explain: &Explain<'_>,
    answers: &mut W,
) -> Result<Ending, Fault> {
    match explain.kind {
        Kind::Records(kind) => serve_records(call, explain, kind, answers),
        Kind::Text(kind) => serve_text(call, explain, kind, answers),
        Kind::Executions => serve_executions(call, explain, answers),
        Kind::Code => serve_code(call, explain, answers),
    }
}

/// Explains what is refused in a file of records.
fn serve_records<T: Host, W: Write>(
    call: &Call<'_, T>,
    explain: &Explain<'_>,
    kind: RecordKind,
    answers: &mut W,
) -> Result<Ending, Fault> {
    let feed = call.feed(explain.feed)?;
    let mut source = call.open(explain.subject)?;
    let (alloc, setup, form) = (call.alloc(), call.setup, call.form());
    let file = explain.subject.name;
    let served = match kind {
        RecordKind::Script => explain_script(alloc, setup, file, &mut source, form, answers),
        RecordKind::Changes => explain_changes(alloc, setup, file, &mut source, form, answers),
        RecordKind::Orders => explain_orders(alloc, setup, file, &mut source, form, answers),
        RecordKind::Feed => explain_feed(alloc, setup, feed, file, &mut source, form, answers),
    };
    source.ended(served.map_err(|fault| Fault::of(fault.code(), explain.subject.about)))
}

/// Explains what is wrong in a text.
fn serve_text<T: Host, W: Write>(
    call: &Call<'_, T>,
    explain: &Explain<'_>,
    kind: TextKind,
    answers: &mut W,
) -> Result<Ending, Fault> {
    let text = call.read(explain.subject)?;
    let (alloc, form, file) = (call.alloc(), call.form(), explain.subject.name);
    let served = match kind {
        TextKind::Plan => explain_plan(alloc, call.setup, file, &text, form, answers).map_err(
            |fault| fault.code(),
        ),
        TextKind::Setup => explain_setup(alloc, file, &text, form, answers).map_err(Code::of_show),
        TextKind::Map => explain_map(alloc, file, &text, form, answers).map_err(Code::of_show),
        TextKind::Times => explain_times(alloc, file, &text, form, answers).map_err(Code::of_show),
    };
    served.map_err(|code| Fault::of(code, explain.subject.about))
}

/// Explains what a code means.
fn serve_code<T: Host, W: Write>(
    call: &Call<'_, T>,
    explain: &Explain<'_>,
    answers: &mut W,
) -> Result<Ending, Fault> {
    let code = explain.subject;
    if explain_code(call.alloc(), code.name, call.form(), answers)? {
        Ok(Ending::Done)
    } else {
        Err(Fault::usage(
            code.about,
            "it is no code, as X12: a capital letter and a number",
        ))
    }
}

/// Explains what is refused in a file of executions. Versions are found by times if those were given.
fn serve_executions<T: Host, W: Write>(
    call: &Call<'_, T>,
    explain: &Explain<'_>,
    answers: &mut W,
) -> Result<Ending, Fault> {
    let times = call.read_times(explain.times)?;
    let symbols = call.read_given(explain.symbols)?;
    let text = call.read(explain.subject)?;
    let symbols = symbols.as_ref().map(Vec::as_slice);
    let refused = refused_in(call, explain, times.as_ref(), symbols, &text)?;
    let (file, form) = (explain.subject.name, call.form());
    explain_executions(call.alloc(), file, &text, &refused, form, answers).map_err(
        |fault| Fault::of(fault.code(), explain.subject.about),
    )
}

/// The refused executions of a text. Without times, an execution may name any version, and a time in place of a version is
/// refused.
fn refused_in<T: Host>(
    call: &Call<'_, T>,
    explain: &Explain<'_>,
    times: Option<&Times>,
    symbols: Option<&[u8]>,
    text: &[u8],
) -> Result<Vec<RefusedExecution>, Fault> {
    let changes = match times {
        Some(times) => times.len(),
        None => usize::MAX,
    };
    let timing = timing_of(times, symbols, false, None);
    match read_timed(
        call.alloc(),
        call.setup.roster(),
        timing.as_ref(),
        changes,
        text,
    ) {
        Ok(records) => refused_of(call.alloc(), &records).map_err(|_| Fault::no_memory()),
        Err(fault) => Err(trades_fault(fault, explain.subject.about)),
    }
}

/// The refused records, with their codes.
fn refused_of(alloc: Global, records: &Records) -> Result<Vec<RefusedExecution>, AllocError> {
    let mut refused = Vec::new(alloc);
    for refusal in &records.refused {
        refused.push(RefusedExecution {
            number: refusal.number,
            code: code_of(refusal.fault),
        })?;
    }
    Ok(refused)
}

/// The code of an execution's fault.
fn code_of(fault: TradeFault) -> ExecutionCode {
    match fault {
        TradeFault::UnknownKind => ExecutionCode::UnknownKind,
        TradeFault::FieldCount => ExecutionCode::FieldCount,
        TradeFault::BadName => ExecutionCode::BadName,
        TradeFault::UnknownSymbol => ExecutionCode::UnknownSymbol,
        TradeFault::BadPrice => ExecutionCode::BadPrice,
        TradeFault::BadShares => ExecutionCode::BadShares,
        TradeFault::BadSide => ExecutionCode::BadSide,
        TradeFault::BadVersion => ExecutionCode::BadVersion,
        TradeFault::Beyond => ExecutionCode::Beyond,
        TradeFault::UnknownParticipant => ExecutionCode::UnknownParticipant,
        TradeFault::BadFlags => ExecutionCode::BadFlags,
        TradeFault::NoTimes => ExecutionCode::NoTimes,
        TradeFault::NoChanges => ExecutionCode::NoChanges,
    }
}
