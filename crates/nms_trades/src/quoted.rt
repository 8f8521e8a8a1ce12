//! Which executions are in a symbol that no participant had quoted yet, and which another shard judges: `specs/Quoted`.
ghost use Rattle.std.specs.Prelude.{◌≡◌, ◌≢◌, ℕ, All, IfOk, OnOk, Some, length, replicate, slice_get, true};
ghost use Rattle.nms_stream.specs.Tapes.{sizes_in};
ghost use Rattle.nms_trades.specs.Found.{IsStanding, IsWeighed};
ghost use Rattle.nms_trades.specs.Quoted.{AreFirsts, IsNotedFirst, is_quotation};
ghost use Rattle.nms_trades.specs.Reading.{IsOn};
ghost use Rattle.nms_trades.specs.Turns.{AreAnswered, IsAnswered};

use crate::execution::Execution;
use crate::finding::Finding;
use nms_quote::Change;
use nms_stream::Tape;
use std::alloc::{AllocError, Global};

/// Corrects the standing in each finding if another shard judges the execution, or if its symbol had not been quoted yet. The
/// changes are read once.
pub(crate) fn answer_all(
    alloc: Global,
    tape: &Tape<'_>,
    executions: &[Execution],
    findings: &mut Vec<Option<Finding>>,
) -> Result<(), AllocError>
    requires on { All (IsOn tape.now.roster.now (length tape.now.changes.items)) executions.now }
    requires places { length findings.old.items ≡ length executions.now }
    requires found { AreAnswered (IsWeighed (sizes_in tape.now) tape.now.changes.items) executions.now findings.old.items }
    ensures places { length findings.new.items ≡ length findings.old.items }
    ensures found { OnOk result (AreAnswered (IsStanding (sizes_in tape.now) tape.now.changes.items) executions.now findings.new.items) }
{
    let firsts = firsts_of(alloc, tape.roster.syms(), &tape.changes)?;
    for place in 0..executions.len() {
        answer_one(tape, &firsts, &executions[place], &mut findings[place]);
    }
    Ok(())
}

/// Corrects the standing in a finding if another shard judges the execution, or if its symbol had not been quoted yet.
fn answer_one(tape: &Tape<'_>, firsts: &[u64], execution: &Execution, answer: &mut Option<Finding>)
    requires on { IsOn tape.now.roster.now (length tape.now.changes.items) execution.now }
    requires count { length firsts.now ≡ length tape.now.roster.now.syms }
    requires firsts { AreFirsts tape.now.changes.items (length tape.now.changes.items) firsts.now }
    requires found { IsAnswered (IsWeighed (sizes_in tape.now) tape.now.changes.items) execution.now (Some answer.old) }
    ensures { IsAnswered (IsStanding (sizes_in tape.now) tape.now.changes.items) execution.now (Some answer.new) }
{
    // The function takes the tape only because its contract mentions it.
    let _ = tape;
    let place = usize::from(execution.sym.get());
    let unquoted = execution.first <= firsts[place];
    if let Some(finding) = answer {
        finding.standing = finding.standing.answered(execution.other, unquoted);
    }
}

/// For each symbol, by its place, how many changes come before its first quotation: all of them if it has none.
fn firsts_of(alloc: Global, syms: usize, changes: &[Change]) -> Result<Vec<u64>, AllocError>
    ensures count { IfOk result (λ firsts. length firsts.items ≡ syms) }
    ensures firsts { IfOk result (λ firsts. AreFirsts changes.now (length changes.now) firsts.items) }
{
    let mut firsts = numbers(alloc, syms, changes.len() as u64)?;
    let mut place = 0;
    for change in changes {
        note_quotation(&mut firsts, change, place);
        place += 1;
    }
    Ok(firsts)
}

/// A list of one number several times.
fn numbers(alloc: Global, count: usize, number: u64) -> Result<Vec<u64>, AllocError>
    ensures { IfOk result (λ numbers. numbers.items ≡ replicate count number) }
{
    let mut numbers = Vec::with_capacity(alloc, count)?;
    for _ in 0..count {
        numbers.push(number)?;
    }
    Ok(numbers)
}

/// Notes the change at a place for its symbol, if it is a quotation and no earlier one is noted.
fn note_quotation(firsts: &mut Vec<u64>, change: &Change, place: u64)
    ensures count { length firsts.new.items ≡ length firsts.old.items }
    ensures each { (sym : ℕ) → IsNotedFirst (is_quotation sym change.now) place (slice_get firsts.old.items sym)
        (slice_get firsts.new.items sym) }
{
    match *change {
        Change::Quote { sym, .. } => note_first(firsts, usize::from(sym.get()), place),
        Change::State { .. } | Change::Withdraw { .. } | Change::Lot { .. } => {}
    }
}

/// Notes a quotation of the symbol at a place, unless an earlier one is noted.
fn note_first(firsts: &mut Vec<u64>, at: usize, place: u64)
    ensures count { length firsts.new.items ≡ length firsts.old.items }
    ensures own { IsNotedFirst true place (slice_get firsts.old.items at) (slice_get firsts.new.items at) }
    ensures others { (other : ℕ) → other ≢ at → slice_get firsts.new.items other ≡ slice_get firsts.old.items other }
{
    if at < firsts.len() && place < firsts[at] {
        firsts[at] = place;
    }
}
