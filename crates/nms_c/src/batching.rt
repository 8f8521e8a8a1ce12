//! Many looks, plans or changes in one call.
ghost use Rattle.std.specs.Prelude.{◌≡◌, ◌≢◌, ◌+◌, IfOk, take};
ghost use Rattle.nms_calls.specs.Batches.{AreAnswers, AreFollowed, many, many_followed};
ghost use Rattle.nms_calls.specs.Codes.{answer_of};
ghost use Rattle.nms_calls.specs.Opened.{order_fault, sizes_on, sym_fault, version};
ghost use Rattle.nms_calls.specs.OrderSaid.{order_said};
ghost use Rattle.nms_calls.specs.PlanNumbers.{IsBestPlan};
ghost use Rattle.nms_calls.specs.RowNumbers.{AreBest};
ghost use Rattle.nms_c.specs.Behind.{Behind};
ghost use Rattle.nms_c.specs.Held.{open_mark};

use crate::handle::NmsBoard;
use crate::leasing::{give_share, take_share};
use crate::look::NmsLook;
use crate::taking::{CLOSED, give, take};
use nms_calls::{NmsBest, NmsChange, NmsOrder, NmsPlan, answer};
use std::alloc::Global;

/// Writes the best bid and the best offer of each symbol, up to the first symbol that is refused, and how many were written.
#[unsafe(no_mangle)]
pub extern "C" fn nms_raw_best_all(
    look: &mut NmsLook,
    syms: &[u16],
    out: &mut [NmsBest],
    done: &mut usize,
) -> u32
    ensures closed { look.old.mark ≢ open_mark → (result ≡ 15) × (look.new ≡ look.old) × (out.new ≡ out.old) × (done.new ≡ done.old) }
    ensures open { look.old.mark ≡ open_mark → look.new.mark ≡ open_mark }
    ensures answer { look.old.mark ≡ open_mark → Behind look.old.value (λ opened. result ≡ answer_of (many (sym_fault opened) syms.now out.old).fault) }
    ensures done { look.old.mark ≡ open_mark → Behind look.old.value (λ opened. done.new ≡ (many (sym_fault opened) syms.now out.old).applied) }
    ensures best { look.old.mark ≡ open_mark → Behind look.old.value (λ opened. AreAnswers (AreBest opened) syms.now out.new done.new) }
    ensures same { look.new.value ≡ look.old.value }
    ensures share { look.old.mark ≡ open_mark → (look.new.round ≡ look.old.round) × (look.new.count ≡ look.old.count) }
{
    let Some(lease) = take_share(look) else {
        return CLOSED;
    };
    let code = answer(lease.get().best_all(syms, out, done));
    give_share(look, lease);
    code
}

/// Plans each order on the board as it is, up to the first that is refused, and writes how many were planned.
#[unsafe(no_mangle)]
pub extern "C" fn nms_raw_plan_all(
    look: &mut NmsLook,
    orders: &[NmsOrder],
    out: &mut [NmsPlan],
    done: &mut usize,
) -> u32
    ensures closed { look.old.mark ≢ open_mark → (result ≡ 15) × (look.new ≡ look.old) × (out.new ≡ out.old) × (done.new ≡ done.old) }
    ensures open { look.old.mark ≡ open_mark → look.new.mark ≡ open_mark }
    ensures answer { look.old.mark ≡ open_mark → Behind look.old.value (λ opened. result ≡ answer_of (many (order_fault opened) orders.now out.old).fault) }
    ensures done { look.old.mark ≡ open_mark → Behind look.old.value (λ opened. done.new ≡ (many (order_fault opened) orders.now out.old).applied) }
    ensures best { look.old.mark ≡ open_mark → Behind look.old.value (λ opened. AreAnswers
        (λ order plan. IfOk (order_said (sizes_on opened) order) (λ terms. IsBestPlan opened terms plan)) orders.now out.new done.new) }
    ensures same { look.new.value ≡ look.old.value }
    ensures share { look.old.mark ≡ open_mark → (look.new.round ≡ look.old.round) × (look.new.count ≡ look.old.count) }
{
    let Some(lease) = take_share(look) else {
        return CLOSED;
    };
    let code = answer(lease.get().plan_all(orders, out, done));
    give_share(look, lease);
    code
}

/// Applies changes in order, up to the first that is refused. After each it writes the best bid and the best offer of the symbol
/// that the change's numbers name, also after a withdrawal. Writes how many changes were applied.
#[unsafe(no_mangle)]
pub extern "C" fn nms_raw_apply_best(
    alloc: Global,
    board: &mut NmsBoard,
    changes: &[NmsChange],
    out: &mut [NmsBest],
    applied: &mut usize,
) -> u32
    ensures closed { board.old.mark ≢ open_mark → (result ≡ 15) × (board.new ≡ board.old) × (out.new ≡ out.old) × (applied.new ≡ applied.old) }
    ensures open { board.old.mark ≡ open_mark → board.new.mark ≡ open_mark }
    ensures answer { board.old.mark ≡ open_mark → Behind board.old.value (λ opened. result ≡ answer_of (many_followed opened changes.now out.old).fault) }
    ensures applied { board.old.mark ≡ open_mark → Behind board.old.value (λ opened. applied.new ≡ (many_followed opened changes.now out.old).applied) }
    ensures left { board.old.mark ≡ open_mark → Behind board.old.value (λ old. Behind board.new.value (λ new.
        AreFollowed old (take applied.new changes.now) (take applied.new out.new) new)) }
    ensures version { board.old.mark ≡ open_mark → Behind board.old.value (λ old. Behind board.new.value (λ new. version new ≡ version old + applied.new)) }
{
    let Some(mut kept) = take(alloc, board) else {
        return CLOSED;
    };
    let code = answer(kept.apply_best(changes, out, applied));
    give(board, kept);
    code
}
