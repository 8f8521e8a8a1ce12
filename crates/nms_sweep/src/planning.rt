//! The plan of least cost for an order, and the certificate that shows it: `specs/Accepted` of `nms_rules`.
ghost use Rattle.std.specs.Prelude.{◌≡◌, ◌<◌, ◌≤◌, None, length};
ghost use Rattle.nms_board.specs.Shown.{seen_on};
ghost use Rattle.nms_board.specs.View.{Seen};
ghost use Rattle.nms_fee_book.specs.Fees.{Charges};
ghost use Rattle.nms_rules.specs.Accepted.{IsAccepted};
ghost use Rattle.nms_rules.specs.Assignment.{IsOptimal, fillable, total};
ghost use Rattle.nms_rules.specs.Breach.{breach_of};
ghost use Rattle.nms_rules.specs.Faultless.{given_by};
ghost use Rattle.nms_rules.specs.Usable.{usable};
ghost use Rattle.nms_sweep.specs.Filling.{AreExact, FillsInOrder};
ghost use Rattle.nms_sweep.specs.Order.{AreInOrder};
ghost use Rattle.nms_sweep.specs.Planned.{IsPlanned, IsTable, plan_of};

use crate::by_cost::ByCost;
use crate::choice::cost_chosen;
use crate::cutoffs::Cutoffs;
use crate::cutting::put_cuts;
use crate::legs::put_legs;
use crate::made::Made;
use crate::plan_room::{Outcome, PlanRoom};
use crate::priced_row::PricedRow;
use nms_board::{Boards, MOST_ROWS, View};
use nms_fee_book::FeeBook;
use nms_quote::{Certificate, Order, Plan};
use nms_units::{MOST_SHARES, Shares};

/// Plans an intermarket sweep order on a view (17 CFR 242.600; 242.611(b)(5) and (6)). It returns the certificate that the plan
/// is optimal: no lawful plan fills more shares, and none fills as many for less, fees included.
///
/// It always answers, and takes no memory. Legs are by price, best first, then by participant place. Among equally good plans
/// the planner always picks the same one: that of the cutoff at the best price. There it takes the better protected quotations
/// in full, then the others by unit cost, then better price, then place. The cuts are made in one walk over the prices. For
/// each price at which the order can be filled, one pass over the usable quotations, at most 32, gives the marginal and the
/// cost.
pub fn plan(view: &View, order: &Order, fees: &FeeBook) -> (Plan, Certificate)
    requires { order.now.sym ≡ view.now.sym }
    ensures lawful { breach_of view.now order.now fees.now result.0 ≡ None }
    ensures most { result.0.filled ≡ fillable (usable view.now order.now fees.now) order.now.shares }
    ensures accepted { IsAccepted view.now order.now fees.now result.0 result.1.items }
    ensures optimal { IsOptimal (usable view.now order.now fees.now) order.now.shares (given_by result.0.legs.items) }
    ensures ordered { AreInOrder order.now.side result.0.legs.items }
    ensures filling { FillsInOrder (usable view.now order.now fees.now) (given_by result.0.legs.items) }
    ensures exact { AreExact order.now.side (usable view.now order.now fees.now) result.0.filled result.1.items }
{
    let version = view.version();
    let mut cutoffs = Cutoffs::new(view, order, fees);
    let mut made = Made::of(order);
    made.set(version, order, &cutoffs);
    let Made { plan, cuts } = made;
    (plan, cuts)
}

/// Plans an intermarket sweep order on a view, as `plan` does. It writes the legs and the cuts into room of the caller,
/// whatever it holds, and returns the rest of the plan.
pub fn plan_into<W: PlanRoom>(view: &View, order: &Order, fees: &FeeBook, out: &mut W) -> Outcome
    requires { order.now.sym ≡ view.now.sym }
    ensures filled { W.IsFilled out.new }
    ensures planned { IsPlanned view.now order.now fees.now (plan_of order.now (W.legs out.new) result) (W.cuts out.new) }
{
    let version = view.version();
    let mut cutoffs = Cutoffs::new(view, order, fees);
    fill(version, order, &cutoffs, out)
}

/// Plans an intermarket sweep order on what a look at a board shows of the order's symbol. It writes the legs and the cuts into
/// room of the caller. The rows are read off the board, with no view made. Takes no memory.
pub fn plan_on<W: PlanRoom>(board: &Boards, order: &Order, fees: &FeeBook, out: &mut W) -> Outcome
    requires { order.now.sym < length board.now.sizes.lots }
    ensures filled { W.IsFilled out.new }
    ensures planned { IsPlanned (seen_on board.now order.now.sym) order.now fees.now
        (plan_of order.now (W.legs out.new) result) (W.cuts out.new) }
{
    let version = board.applied();
    board.shows_rows(order.sym);
    let mut cutoffs = Cutoffs::none();
    cutoffs.set_on(board, order, fees);
    fill(version, order, &cutoffs, out)
}

/// Plans an order from its cutoffs at a version, none of which was given yet. It writes the legs and the cuts into room of the
/// caller.
pub(crate) fn fill<W: PlanRoom>(
    version: u64,
    order: &Order,
    cutoffs: &Cutoffs,
    out: &mut W,
) -> Outcome
    requires few { length cutoffs.now.to_come ≤ MOST_ROWS }
    requires table { (seen : Seen) × (fees : Charges) × IsTable seen order.now fees version cutoffs.now }
    ensures filled { W.IsFilled out.new }
    ensures planned { (seen : Seen) (fees : Charges) → IsTable seen order.now fees version cutoffs.now
        → IsPlanned seen order.now fees (plan_of order.now (W.legs out.new) result) (W.cuts out.new) }
{
    let rows = cutoffs.rows();
    let most = fillable(rows, order.shares);
    let by_cost = ByCost::reachable(rows, most);
    out.clear();
    let choice = put_cuts(order.side, &by_cost, most, rows, cutoffs.passed(), out);
    put_legs(rows, most, &choice, out);
    Outcome {
        version,
        filled: most as u32,
        cost: cost_chosen(&choice),
    }
}

/// How many shares can be filled: all that the rows show, or the number asked for if that is less.
fn fillable(rows: &[PricedRow], asked: Shares) -> u64
    requires { length rows.now ≤ MOST_ROWS }
    ensures most { result ≡ fillable rows.now asked }
    ensures within { result ≤ MOST_SHARES }
{
    shown(rows).min(u64::from(asked.get()))
}

/// How many shares the rows show.
#[tactic(auto, using(crate::proofs::SumFacts::total_none, crate::proofs::SumFacts::total_more))]
fn shown(rows: &[PricedRow]) -> u64
    requires { length rows.now ≤ MOST_ROWS }
    ensures { result ≡ total (λ row. row.size) rows.now }
{
    let mut sum = 0;
    for row in rows {
        sum += u64::from(row.size);
    }
    sum
}
