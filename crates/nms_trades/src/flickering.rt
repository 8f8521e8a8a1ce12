//! Which of the quotations that an execution traded through flickered (17 CFR 242.611(b)(8)): `specs/Found`.
ghost use Rattle.std.specs.Prelude.{◌≡◌, ◌<◌, ℕ, All, IfOk, OnOk, Some, false, length, map, slice_get, true};
ghost use Rattle.nms_stream.specs.Tapes.{sizes_in};
ghost use Rattle.nms_trades.specs.Around.{flickers};
ghost use Rattle.nms_trades.specs.Found.{IsJudged, IsStanding, IsSteady, has_flickered};
ghost use Rattle.nms_trades.specs.Parts.{ArePartsOf};
ghost use Rattle.nms_trades.specs.Reading.{IsOn};
ghost use Rattle.nms_trades.specs.Turns.{AreAnswered, IsAnswered};
ghost use Rattle.nms_trades.specs.declared.execution.Execution.{Execution};
ghost use Rattle.nms_trades.specs.declared.finding.Finding.{Finding};

use crate::execution::Execution;
use crate::finding::Finding;
use crate::parts::{parts_of, place_of};
use crate::track::{Test, Track, any_version};
use nms_board::{BoardFault, Row, rows_have_one_rank_order};
use nms_quote::Side;
use nms_stream::Tape;
use std::alloc::{AllocError, Global};

/// Finds for each quotation that was traded through whether it flickered, if its execution has a time.
///
/// The changes are read once. Then each quotation takes at most one step for each change of its participant's prices in its
/// symbol within the second before.
pub(crate) fn judge_flickers(
    alloc: Global,
    tape: &Tape<'_>,
    executions: &[Execution],
    findings: &mut Vec<Option<Finding>>,
) -> Result<(), BoardFault>
    requires on { All (IsOn tape.now.roster.now (length tape.now.changes.items)) executions.now }
    requires places { length findings.old.items ≡ length executions.now }
    requires found { AreAnswered (IsStanding (sizes_in tape.now) tape.now.changes.items) executions.now findings.old.items }
    ensures places { length findings.new.items ≡ length findings.old.items }
    ensures found { OnOk result (AreAnswered (IsJudged (sizes_in tape.now) tape.now.changes.items) executions.now findings.new.items) }
{
    if !may_flicker(executions, findings) {
        return Ok(());
    }
    let tracks = parts_of(alloc, tape)?;
    match set_all(alloc, tape, &tracks, executions, findings) {
        Ok(()) => Ok(()),
        Err(_) => Err(BoardFault::NoMemory),
    }
}

/// Whether an execution with a time trades through a quotation.
fn may_flicker(executions: &[Execution], findings: &[Option<Finding>]) -> bool
    requires { length findings.now ≡ length executions.now }
    ensures { result ≡ false → (place : ℕ) (execution : Execution) (finding : Finding) → slice_get executions.now place ≡ Some execution
        → slice_get findings.now place ≡ Some (Some finding) → IsSteady execution finding }
{
    for place in 0..executions.len() {
        if !is_steady(&executions[place], &findings[place]) {
            return true;
        }
    }
    false
}

/// Whether no quotation can have flickered, because the time is not known or none was traded through.
fn is_steady(execution: &Execution, answer: &Option<Finding>) -> bool
    ensures { result ≡ true → (finding : Finding) → answer.now ≡ Some finding → IsSteady execution.now finding }
{
    match answer {
        Some(finding) => execution.time.is_none() || finding.passed.is_empty(),
        None => true,
    }
}

/// Finds for each quotation of each execution whether it flickered.
fn set_all(
    alloc: Global,
    tape: &Tape<'_>,
    tracks: &[Track],
    executions: &[Execution],
    findings: &mut Vec<Option<Finding>>,
) -> Result<(), AllocError>
    requires on { All (IsOn tape.now.roster.now (length tape.now.changes.items)) executions.now }
    requires parts { ArePartsOf (sizes_in tape.now) tape.now.changes.items tracks.now }
    requires places { length findings.old.items ≡ length executions.now }
    requires found { AreAnswered (IsStanding (sizes_in tape.now) tape.now.changes.items) executions.now findings.old.items }
    ensures places { length findings.new.items ≡ length findings.old.items }
    ensures found { OnOk result (AreAnswered (IsJudged (sizes_in tape.now) tape.now.changes.items) executions.now findings.new.items) }
{
    for place in 0..executions.len() {
        set_one(
            alloc,
            tape,
            tracks,
            &executions[place],
            &mut findings[place],
        )?;
    }
    Ok(())
}

/// Finds for each quotation of an execution whether it flickered, if its time is known.
fn set_one(
    alloc: Global,
    tape: &Tape<'_>,
    tracks: &[Track],
    execution: &Execution,
    answer: &mut Option<Finding>,
) -> Result<(), AllocError>
    requires on { IsOn tape.now.roster.now (length tape.now.changes.items) execution.now }
    requires parts { ArePartsOf (sizes_in tape.now) tape.now.changes.items tracks.now }
    requires found { IsAnswered (IsStanding (sizes_in tape.now) tape.now.changes.items) execution.now (Some answer.old) }
    ensures { OnOk result (IsAnswered (IsJudged (sizes_in tape.now) tape.now.changes.items) execution.now (Some answer.new)) }
{
    if execution.time.is_none() {
        return Ok(());
    }
    rows_have_one_rank_order();
    if let Some(finding) = answer {
        finding.flickers = flickers_of(alloc, tape, tracks, execution, &finding.passed)?;
    }
    Ok(())
}

/// For each quotation that an execution traded through, whether it flickered.
fn flickers_of(
    alloc: Global,
    tape: &Tape<'_>,
    tracks: &[Track],
    execution: &Execution,
    passed: &[(Side, Row)],
) -> Result<Vec<bool>, AllocError>
    requires on { IsOn tape.now.roster.now (length tape.now.changes.items) execution.now }
    requires parts { ArePartsOf (sizes_in tape.now) tape.now.changes.items tracks.now }
    requires own { All (λ (row : Side × Row). row.1.part < (sizes_in tape.now).parts) passed.now }
    ensures { IfOk result (λ flickers. flickers.items ≡ map (has_flickered (sizes_in tape.now) tape.now.changes.items execution.now) passed.now) }
{
    let mut flickers = Vec::new(alloc);
    for (side, row) in passed {
        flickers.push(is_flickering(tape, tracks, execution, *side, row))?;
    }
    Ok(flickers)
}

/// Whether a quotation flickered. It did if, in some version of the second before, its participant's protected quotation on its
/// side was at the price or inferior to it.
fn is_flickering(
    tape: &Tape<'_>,
    tracks: &[Track],
    execution: &Execution,
    side: Side,
    row: &Row,
) -> bool
    requires on { IsOn tape.now.roster.now (length tape.now.changes.items) execution.now }
    requires parts { ArePartsOf (sizes_in tape.now) tape.now.changes.items tracks.now }
    requires own { row.now.part < (sizes_in tape.now).parts }
    ensures { result ≡ flickers (sizes_in tape.now) tape.now.changes.items execution.now.sym execution.now.millionths execution.now.second_before
        execution.now.version side row.now.part }
{
    // The function takes the tape only because its contract mentions it.
    let _ = tape;
    any_version(
        &tracks[place_of(row.part, execution.sym)].marks,
        Test::Inferior(side),
        execution.millionths,
        execution.second_before,
        execution.version,
    )
}
