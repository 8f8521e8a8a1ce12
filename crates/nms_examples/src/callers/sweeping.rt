//! A plan of an intermarket sweep order, and its check by a caller who does not trust the planner.
ghost use Rattle.std.specs.Prelude.{IsOk};

use nms_board::Boards;
use nms_cert::{Doubt, confirm};
use nms_fees::FeeBook;
use nms_quote::{Order, Plan};
use nms_sweep::plan;

/// Plans an order on what a board shows, and has the plan checked by its certificate. The finding is never a doubt,
/// which is proved here of the clauses `accepted` of both calls.
pub(crate) fn plan_and_confirm(
    board: &Boards,
    order: &Order,
    fees: &FeeBook,
) -> (Plan, Result<(), Doubt>)
    ensures { IsOk result.1 }
{
    let view = board.view(order.sym);
    let (plan, certificate) = plan(&view, order, fees);
    let finding = confirm(&view, order, fees, &plan, &certificate);
    (plan, finding)
}
