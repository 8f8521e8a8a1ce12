//! Changes of a board.
ghost use Rattle.std.specs.Prelude.{◌≡◌, ◌≢◌, ◌+◌, take};
ghost use Rattle.nms_calls.specs.Codes.{answer_of};
ghost use Rattle.nms_calls.specs.Opened.{AreApplied, Grew, HasAppliedSaid, all_applied, apply_fault, version};
ghost use Rattle.nms_c.specs.Behind.{Behind};
ghost use Rattle.nms_c.specs.Held.{open_mark};

use crate::handle::NmsBoard;
use crate::taking::{CLOSED, give, take};
use nms_calls::{NmsChange, answer};
use std::alloc::Global;

/// Applies one change.
#[unsafe(no_mangle)]
pub extern "C" fn nms_raw_apply(alloc: Global, board: &mut NmsBoard, change: &NmsChange) -> u32
    ensures closed { board.old.mark ≢ open_mark → (result ≡ 15) × (board.new ≡ board.old) }
    ensures open { board.old.mark ≡ open_mark → board.new.mark ≡ open_mark }
    ensures answer { board.old.mark ≡ open_mark → Behind board.old.value (λ opened. result ≡ answer_of (apply_fault opened change.now)) }
    ensures applied { result ≡ 0 → Behind board.old.value (λ old. Behind board.new.value (λ new. HasAppliedSaid change.now old new)) }
    ensures unchanged { result ≢ 0 → board.new.value ≡ board.old.value }
    ensures grew { result ≡ 0 → Behind board.old.value (λ old. Behind board.new.value (λ new. Grew change.now old new)) }
{
    let Some(mut kept) = take(alloc, board) else {
        return CLOSED;
    };
    let code = answer(kept.apply(change));
    give(board, kept);
    code
}

/// Applies changes in order up to the first that is refused, and writes how many were applied.
#[unsafe(no_mangle)]
pub extern "C" fn nms_raw_apply_all(
    alloc: Global,
    board: &mut NmsBoard,
    changes: &[NmsChange],
    applied: &mut usize,
) -> u32
    ensures closed { board.old.mark ≢ open_mark → (result ≡ 15) × (board.new ≡ board.old) × (applied.new ≡ applied.old) }
    ensures open { board.old.mark ≡ open_mark → board.new.mark ≡ open_mark }
    ensures answer { board.old.mark ≡ open_mark → Behind board.old.value (λ opened. result ≡ answer_of ((all_applied opened changes.now).fault)) }
    ensures applied { board.old.mark ≡ open_mark → Behind board.old.value (λ opened. applied.new ≡ (all_applied opened changes.now).applied) }
    ensures left { board.old.mark ≡ open_mark → Behind board.old.value (λ old. Behind board.new.value (λ new. AreApplied old (take applied.new changes.now) new)) }
    ensures version { board.old.mark ≡ open_mark → Behind board.old.value (λ old. Behind board.new.value (λ new. version new ≡ version old + applied.new)) }
{
    let Some(mut kept) = take(alloc, board) else {
        return CLOSED;
    };
    let code = answer(kept.apply_all(changes, applied));
    give(board, kept);
    code
}
