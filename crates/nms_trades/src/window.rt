//! The standing of an execution on the versions of its window: `specs/Found`.
ghost use Rattle.std.specs.Prelude.{◌≡◌, ◌≤◌, ℕ, All, IfOk, List, length, true};
ghost use Rattle.nms_quote.specs.Roster.{Sizes};
ghost use Rattle.nms_quote.specs.declared.change.Change.{Change};
ghost use Rattle.nms_stream.specs.Tapes.{sizes_in};
ghost use Rattle.nms_trades.specs.Around.{own_standing};
ghost use Rattle.nms_trades.specs.Bests.{best_at};
ghost use Rattle.nms_trades.specs.Found.{IsReady, is_alone, standing_in};
ghost use Rattle.nms_trades.specs.Judged.{IsFound};
ghost use Rattle.nms_trades.specs.Reading.{IsOn};
ghost use Rattle.nms_trades.specs.Track.{IsTrack};

use crate::bests::bests_of;
use crate::execution::Execution;
use crate::finding::Finding;
use crate::standing::Standing;
use crate::track::{Mark, Test, Track, any_version};
use nms_board::{BoardFault, rows_have_one_rank_order};
use nms_stream::Tape;
use std::alloc::Global;

/// The best protected prices of each symbol in each version, if an execution has a window of several versions; else none.
pub(crate) fn bests_for(
    alloc: Global,
    tape: &Tape<'_>,
    executions: &[Execution],
) -> Result<Vec<Track>, BoardFault>
    requires { All (IsOn tape.now.roster.now (length tape.now.changes.items)) executions.now }
    ensures { IfOk result (λ bests. All (IsReady (sizes_in tape.now) tape.now.changes.items bests.items) executions.now) }
{
    if are_alone(executions) {
        return Ok(Vec::new(alloc));
    }
    bests_of(alloc, tape)
}

/// Whether each execution has a window of one version.
fn are_alone(executions: &[Execution]) -> bool
    ensures { result ≡ true → All (λ execution. is_alone execution ≡ true) executions.now }
{
    for execution in executions {
        if !is_alone(execution) {
            return false;
        }
    }
    true
}

/// Whether an execution's version is the only one of its window.
fn is_alone(execution: &Execution) -> bool
    ensures { result ≡ is_alone execution.now }
{
    execution.first == execution.version && execution.last == execution.version
}

/// The standing of an execution on the versions of its window. It is found from its own version and from the best prices of its
/// symbol.
pub(crate) fn standing_in(
    tape: &Tape<'_>,
    bests: &[Track],
    execution: &Execution,
    found: &Finding,
) -> Standing
    requires on { IsOn tape.now.roster.now (length tape.now.changes.items) execution.now }
    requires ready { IsReady (sizes_in tape.now) tape.now.changes.items bests.now execution.now }
    requires found { IsFound (sizes_in tape.now) tape.now.changes.items execution.now found.now }
    requires own { found.now.standing ≡ own_standing found.now.passed.items }
    ensures { result ≡ standing_in (sizes_in tape.now) tape.now.changes.items execution.now }
{
    // The function takes the tape only because its contract mentions it.
    let _ = tape;
    rows_have_one_rank_order();
    if is_alone(execution) {
        return found.standing;
    }
    standing_over(execution, &bests[usize::from(execution.sym.get())].marks)
}

/// The standing of an execution on the versions of its window, by the best prices of its symbol.
fn standing_over(execution: &Execution, marks: &[Mark]) -> Standing
    requires { execution.now.millionths ≤ 9999999999999 }
    ensures { (sizes : Sizes) (tape : List Change) (upto : ℕ) → IsTrack (best_at sizes tape execution.now.sym) upto marks.now
        → execution.now.last ≤ upto → result ≡ standing_in sizes tape execution.now }
{
    rows_have_one_rank_order();
    let (price, first, last) = (execution.millionths, execution.first, execution.last);
    let some_through = any_version(marks, Test::Through, price, first, last);
    let some_clean = any_version(marks, Test::Clean, price, first, last);
    Standing::of(some_through, some_clean)
}
