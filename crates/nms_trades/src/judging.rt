//! Judging executions on the versions that they name, by one board that moves forward: `specs/Judged`.
ghost use Rattle.std.specs.Prelude.{◌≡◌, ◌≢◌, ◌≤◌, ◌<◌, ◌++◌, [], ℕ, All, IfOk, OnOk, Some, length, map, slice_get};
ghost use Rattle.std.specs.List.{filter};
ghost use Rattle.nms_board.specs.declared.row.Row.{Row};
ghost use Rattle.nms_rules.specs.Through.{is_through};
ghost use Rattle.nms_stream.specs.Tapes.{sizes_in};
ghost use Rattle.nms_trades.specs.Around.{own_standing};
ghost use Rattle.nms_trades.specs.Found.{IsJudged, IsReady, IsWeighed};
ghost use Rattle.nms_trades.specs.Judged.{IsFoundOn, best_in, whole_price};
ghost use Rattle.nms_trades.specs.Reading.{IsOn};
ghost use Rattle.nms_trades.specs.Turns.{AreAnswered, HaveTurns, IsAnswered};
ghost use Rattle.nms_trades.specs.declared.execution.Execution.{Execution};

use crate::execution::Execution;
use crate::finding::{Best, Finding};
use crate::flickering::judge_flickers;
use crate::limits::{is_crossed, is_through, rows_ranked, whole_price};
use crate::order::{Turn, turns_of};
use crate::quoted::answer_all;
use crate::standing::Standing;
use crate::track::Track;
use crate::window::{bests_for, standing_in};
use nms_board::{BoardFault, Row, View};
use nms_quote::Side;
use nms_stream::{Replay, Tape};
use std::alloc::{AllocError, Global};

/// Judges an execution on its version, to which the board has moved, and on the versions of its window.
pub(crate) fn judge(
    alloc: Global,
    replay: &mut Replay<'_>,
    bests: &[Track],
    execution: &Execution,
) -> Result<Finding, AllocError>
    requires on { IsOn replay.old.tape.now.roster.now (length replay.old.tape.now.changes.items) execution.now }
    requires ready { IsReady (sizes_in replay.old.tape.now) replay.old.tape.now.changes.items bests.now execution.now }
    ensures tape { replay.new.tape ≡ replay.old.tape }
    ensures found { IfOk result (IsWeighed (sizes_in replay.old.tape.now) replay.old.tape.now.changes.items execution.now) }
{
    replay.move_to(execution.version);
    let view = replay.view(execution.sym);
    let found = find_on(alloc, &view, execution.millionths)?;
    let standing = standing_in(replay.tape, bests, execution, &found);
    Ok(Finding { standing, ..found })
}

/// Finds the quotations of a symbol that a price in 1/1,000,000 dollar trades through. It takes memory only if there is such a
/// quotation.
fn find_on(alloc: Global, view: &View, millionths: u64) -> Result<Finding, AllocError>
    requires { millionths ≤ 9999999999999 }
    ensures found { IfOk result (IsFoundOn view.now millionths) }
    ensures standing { IfOk result (λ finding. finding.standing ≡ own_standing finding.passed.items) }
    ensures flickers { IfOk result (λ finding. finding.flickers.items ≡ []) }
{
    let bids = rows_ranked(view, Side::Bid);
    let offers = rows_ranked(view, Side::Offer);
    let mut passed = Vec::new(alloc);
    push_passed(&mut passed, Side::Bid, millionths, bids.as_slice())?;
    push_passed(&mut passed, Side::Offer, millionths, offers.as_slice())?;
    let crossed = is_crossed(bids.as_slice(), offers.as_slice());
    let standing = Standing::of(!passed.is_empty(), passed.is_empty());
    Ok(Finding {
        passed,
        crossed,
        best: best_in(view),
        standing,
        flickers: Vec::new(alloc),
    })
}

/// The best bid and the best offer in a view of one symbol's quotations.
fn best_in(view: &View) -> Best
    ensures { result ≡ best_in view.now }
{
    Best {
        bid: view.ranked(Side::Bid, 0),
        offer: view.ranked(Side::Offer, 0),
    }
}

/// Adds the rows of a side that a price trades through.
fn push_passed(
    passed: &mut Vec<(Side, Row)>,
    side: Side,
    millionths: u64,
    rows: &[Row],
) -> Result<(), AllocError>
    requires { millionths ≤ 9999999999999 }
    ensures { OnOk result (passed.new.items ≡ passed.old.items
        ++ map (λ (row : Row). (side, row)) (filter (is_through side (whole_price side millionths)) rows.now)) }
{
    let price = whole_price(side, millionths);
    for row in rows {
        if is_through(side, price, row) {
            passed.push((side, *row))?;
        }
    }
    Ok(())
}

/// Judges executions, each on the version that was in force, on those of its window, and on those of the second before it. The
/// findings are in the order of the executions.
///
/// The executions are judged by version, so that one board passes through the changes once and never goes back.
pub fn judge_all(
    alloc: Global,
    tape: &Tape<'_>,
    executions: &[Execution],
) -> Result<Vec<Option<Finding>>, BoardFault>
    requires { All (IsOn tape.now.roster.now (length tape.now.changes.items)) executions.now }
    ensures found { IfOk result (λ answers. AreAnswered (IsJudged (sizes_in tape.now) tape.now.changes.items) executions.now answers.items) }
    ensures places { IfOk result (λ answers. length answers.items ≡ length executions.now) }
{
    let mut answers = judge_standings(alloc, tape, executions)?;
    match answer_all(alloc, tape, executions, &mut answers) {
        Ok(()) => {
            judge_flickers(alloc, tape, executions, &mut answers)?;
            Ok(answers)
        }
        Err(_) => Err(BoardFault::NoMemory),
    }
}

/// Judges executions on their own versions and on those of their windows. It does not yet find which quotations flickered,
/// which symbols were quoted, and which executions another shard judges.
fn judge_standings(
    alloc: Global,
    tape: &Tape<'_>,
    executions: &[Execution],
) -> Result<Vec<Option<Finding>>, BoardFault>
    requires { All (IsOn tape.now.roster.now (length tape.now.changes.items)) executions.now }
    ensures found { IfOk result (λ answers. AreAnswered (IsWeighed (sizes_in tape.now) tape.now.changes.items) executions.now answers.items) }
    ensures places { IfOk result (λ answers. length answers.items ≡ length executions.now) }
{
    let Ok(turns) = turns_of(alloc, executions) else {
        return Err(BoardFault::NoMemory);
    };
    let Ok(mut answers) = no_answers(alloc, executions.len()) else {
        return Err(BoardFault::NoMemory);
    };
    let bests = bests_for(alloc, tape, executions)?;
    let mut replay = Replay::open(alloc, tape)?;
    match judge_turns(alloc, &mut replay, &bests, executions, &turns, &mut answers) {
        Ok(()) => Ok(answers),
        Err(_) => Err(BoardFault::NoMemory),
    }
}

/// A list with an empty place for each execution, because no finding has been made yet.
fn no_answers(alloc: Global, count: usize) -> Result<Vec<Option<Finding>>, AllocError>
    ensures { IfOk result (λ answers. length answers.items ≡ count) }
{
    let mut answers = Vec::with_capacity(alloc, count)?;
    for _ in 0..count {
        answers.push(None)?;
    }
    Ok(answers)
}

/// Judges executions in the given order, and puts each finding at the place of its execution.
fn judge_turns(
    alloc: Global,
    replay: &mut Replay<'_>,
    bests: &[Track],
    executions: &[Execution],
    turns: &[Turn],
    answers: &mut Vec<Option<Finding>>,
) -> Result<(), AllocError>
    requires on { All (IsOn replay.old.tape.now.roster.now (length replay.old.tape.now.changes.items)) executions.now }
    requires ready { All (IsReady (sizes_in replay.old.tape.now) replay.old.tape.now.changes.items bests.now) executions.now }
    requires places { length answers.old.items ≡ length executions.now }
    ensures places { length answers.new.items ≡ length executions.now }
    ensures answered { HaveTurns turns.now (length executions.now)
        → OnOk result (AreAnswered (IsWeighed (sizes_in replay.old.tape.now) replay.old.tape.now.changes.items) executions.now answers.new.items) }
{
    for turn in turns {
        judge_turn(alloc, replay, bests, executions, turn, answers)?;
    }
    Ok(())
}

/// Judges the execution at a place, and puts its finding there.
fn judge_turn(
    alloc: Global,
    replay: &mut Replay<'_>,
    bests: &[Track],
    executions: &[Execution],
    turn: &Turn,
    answers: &mut Vec<Option<Finding>>,
) -> Result<(), AllocError>
    requires on { All (IsOn replay.old.tape.now.roster.now (length replay.old.tape.now.changes.items)) executions.now }
    requires ready { All (IsReady (sizes_in replay.old.tape.now) replay.old.tape.now.changes.items bests.now) executions.now }
    requires places { length answers.old.items ≡ length executions.now }
    ensures tape { replay.new.tape ≡ replay.old.tape }
    ensures places { length answers.new.items ≡ length executions.now }
    ensures own { (execution : Execution) → slice_get executions.now turn.now.place ≡ Some execution
        → OnOk result (IsAnswered (IsWeighed (sizes_in replay.old.tape.now) replay.old.tape.now.changes.items) execution (slice_get answers.new.items turn.now.place)) }
    ensures others { (other : ℕ) → other ≢ turn.now.place → slice_get answers.new.items other ≡ slice_get answers.old.items other }
{
    let place = turn.place;
    if place >= executions.len() {
        return Ok(());
    }
    let finding = judge(alloc, replay, bests, &executions[place])?;
    answers[place] = Some(finding);
    Ok(())
}
