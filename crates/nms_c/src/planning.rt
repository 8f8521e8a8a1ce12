//! Planning an order on a board, and confirming a plan. Both only read the board.
ghost use Rattle.std.specs.Prelude.{◌≡◌, ◌≢◌, IfOk};
ghost use Rattle.nms_calls.specs.Codes.{answer_of};
ghost use Rattle.nms_calls.specs.Findings.{confirm_fault, doubt_written, finding};
ghost use Rattle.nms_calls.specs.Opened.{order_fault, sizes_on};
ghost use Rattle.nms_calls.specs.OrderSaid.{order_said};
ghost use Rattle.nms_calls.specs.PlanNumbers.{IsBestPlan};
ghost use Rattle.nms_c.specs.Behind.{Behind};
ghost use Rattle.nms_c.specs.Held.{open_mark};

use crate::leasing::{give_share, take_share};
use crate::look::NmsLook;
use crate::taking::CLOSED;
use nms_calls::{NmsDoubt, NmsOrder, NmsPlan, answer};

/// Plans an order. The call needs no memory but the stack of its thread.
#[unsafe(no_mangle)]
pub extern "C" fn nms_raw_plan_order(look: &mut NmsLook, order: &NmsOrder, out: &mut NmsPlan) -> u32
    ensures closed { look.old.mark ≢ open_mark → (result ≡ 15) × (look.new ≡ look.old) }
    ensures open { look.old.mark ≡ open_mark → look.new.mark ≡ open_mark }
    ensures answer { look.old.mark ≡ open_mark → Behind look.old.value (λ opened. result ≡ answer_of (order_fault opened order.now)) }
    ensures best { result ≡ 0 → Behind look.old.value (λ opened. IfOk (order_said (sizes_on opened) order.now)
        (λ terms. IsBestPlan opened terms out.new)) }
    ensures same { look.new.value ≡ look.old.value }
    ensures share { look.old.mark ≡ open_mark → (look.new.round ≡ look.old.round) × (look.new.count ≡ look.old.count) }
    ensures unwritten { result ≢ 0 → out.new ≡ out.old }
{
    let Some(lease) = take_share(look) else {
        return CLOSED;
    };
    let code = answer(lease.get().plan(order, out));
    give_share(look, lease);
    code
}

/// Confirms a plan for an order, or writes why it is doubted.
#[unsafe(no_mangle)]
pub extern "C" fn nms_raw_confirm(
    look: &mut NmsLook,
    order: &NmsOrder,
    plan: &NmsPlan,
    out: &mut NmsDoubt,
) -> u32
    ensures closed { look.old.mark ≢ open_mark → (result ≡ 15) × (look.new ≡ look.old) × (out.new ≡ out.old) }
    ensures open { look.old.mark ≡ open_mark → look.new.mark ≡ open_mark }
    ensures answer { look.old.mark ≡ open_mark → Behind look.old.value (λ opened. result ≡ answer_of (confirm_fault opened order.now plan.now)) }
    ensures written { look.old.mark ≡ open_mark → Behind look.old.value (λ opened. out.new ≡ doubt_written out.old (finding opened order.now plan.now)) }
    ensures same { look.new.value ≡ look.old.value }
    ensures share { look.old.mark ≡ open_mark → (look.new.round ≡ look.old.round) × (look.new.count ≡ look.old.count) }
{
    let Some(lease) = take_share(look) else {
        return CLOSED;
    };
    let code = answer(lease.get().confirm(order, plan, out));
    give_share(look, lease);
    code
}
