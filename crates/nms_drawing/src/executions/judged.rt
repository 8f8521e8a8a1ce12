//! Executions of a file, each with its finding.
ghost use Rattle.std.specs.Prelude.{◌≡◌, ◌<◌, All, IfErr, IfOk, length, option_copied};
ghost use Rattle.nms_trades.specs.Files.{AreJudged};
ghost use Rattle.nms_drawing.specs.Pages.{IsJudgingFault};

use nms_stream::Tape;
use nms_trades::{Finding, Records, Timing, TradesFault, judge_all, read_timed};
use std::alloc::Global;
use std::io::Read;

/// The records of a file of executions, and the finding on each execution, by its place.
#[derive(Drop)]
pub(crate) struct Judged {
    pub(crate) records: Records,
    pub(crate) findings: Vec<Option<Finding>>,
}

/// Reads a file of executions, and judges each on the version of the changes that it names, or that was in force at its time.
pub(crate) fn judge_source<E: Read + Drop>(
    alloc: Global,
    tape: &Tape<'_>,
    timing: Option<&Timing<'_>>,
    source: E,
) -> Result<Judged, TradesFault>
    ensures places { IfOk result (λ judged. length judged.findings.items ≡ length judged.records.executions.items) }
    ensures symbols { IfOk result (λ judged. All (λ execution. execution.sym < length tape.now.roster.now.syms) judged.records.executions.items) }
    ensures judged { IfOk result (λ judged. AreJudged tape.now.roster.now tape.now.changes.items (E.remaining source) judged.records.executions.items
        judged.records.refused.items judged.findings.items) }
    ensures refused { IfErr result (IsJudgingFault (option_copied timing.entry) (length tape.now.changes.items) (E.remaining source)) }
{
    let records = match read_timed(alloc, tape.roster, timing, tape.changes.len(), source) {
        Ok(records) => records,
        Err(fault) => return Err(fault),
    };
    match judge_all(alloc, tape, &records.executions) {
        Ok(findings) => Ok(Judged { records, findings }),
        Err(fault) => Err(TradesFault::Board(fault)),
    }
}
