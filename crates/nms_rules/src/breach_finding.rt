//! Finding the first breach of a plan: `specs/Breach`. `specs/Faultless` is about a plan without one.
ghost use Rattle.std.specs.Prelude.{◌≡◌, ◌==◌, ◌≤◌, ◌↔◌, IsNone, length, not};
ghost use Rattle.std.specs.Ordering.{int_eq};
ghost use Rattle.nms_board.specs.View.{AreRows};
ghost use Rattle.nms_rules.specs.Breach.{breach_of, is_other_order, leg_breach, sum_breach};
ghost use Rattle.nms_rules.specs.Faultless.{IsFaultless, cost_of, sum_of};

use crate::breach_kind::Breach;
use crate::leg_test::{
    cost_of, first_traded_through, has_repeat, some_has_no_shares, some_has_other_price,
    some_is_beyond_limit, some_is_over_size, some_lacks_quotation, sum_of,
};
use arrayvec::ArrayVec;
use nms_board::{MOST_ROWS, View};
use nms_fee_book::FeeBook;
use nms_quote::{Leg, Order, Plan};

/// Returns the first breach that holds, by number. It is `None` if and only if the plan is lawful and its sums are right (17
/// CFR 242.600, "intermarket sweep order"; 242.611(b)(1), (5) and (6)).
///
/// Takes no memory. Costs are in nanodollars, with the fees of the book.
pub fn breach(view: &View, order: &Order, fees: &FeeBook, plan: &Plan) -> Option<Breach>
    ensures first { result ≡ breach_of view.now order.now fees.now plan.now }
    ensures lawful { IsNone result ↔ IsFaultless view.now order.now fees.now plan.now }
{
    find_breach(view, order, fees, plan)
}

/// The first breach of a plan that holds, by number. The contract also says what is true of the rows of any view.
fn find_breach(view: &View, order: &Order, fees: &FeeBook, plan: &Plan) -> Option<Breach>
    ensures first { result ≡ breach_of view.now order.now fees.now plan.now }
    ensures bids { AreRows view.now.bids }
    ensures offers { AreRows view.now.offers }
{
    if plan.version != view.version() {
        return Some(Breach::OtherVersion);
    }
    if is_other_order(view, order, plan) {
        return Some(Breach::OtherOrder);
    }
    let legs = plan.legs.as_slice();
    if let Some(breach) = leg_breach(view, order, legs) {
        return Some(breach);
    }
    if let Some(breach) = sum_breach(view, order, &plan.legs) {
        return Some(breach);
    }
    if is_filled_wrong(plan) {
        return Some(Breach::FilledWrong);
    }
    if is_cost_wrong(fees, order, plan) {
        return Some(Breach::CostWrong);
    }
    None
}

/// Whether a plan is for another order than the one given, or for another symbol than the view's.
fn is_other_order(view: &View, order: &Order, plan: &Plan) -> bool
    ensures { result ≡ is_other_order view.now order.now plan.now }
{
    plan.order != *order || plan.order.sym != view.sym()
}

/// Whether what a plan fills is not the sum of its legs' shares.
fn is_filled_wrong(plan: &Plan) -> bool
    ensures { result ≡ not (plan.now.filled == sum_of plan.now.legs.items) }
{
    u64::from(plan.filled) != sum_of(plan.legs.as_slice())
}

/// Whether what a plan costs is not what its legs cost with fees.
fn is_cost_wrong(fees: &FeeBook, order: &Order, plan: &Plan) -> bool
    ensures { result ≡ not (int_eq plan.now.cost (cost_of fees.now order.now.side plan.now.legs.items)) }
{
    plan.cost != cost_of(fees, order.side, plan.legs.as_slice())
}

/// The first rule that some leg breaks by itself.
fn leg_breach(view: &View, order: &Order, legs: &[Leg]) -> Option<Breach>
    ensures { result ≡ leg_breach view.now order.now legs.now }
{
    if some_lacks_quotation(view, order, legs) {
        return Some(Breach::NoSuchQuotation);
    }
    if some_has_other_price(view, order, legs) {
        return Some(Breach::PriceDiffers);
    }
    if some_has_no_shares(legs) {
        return Some(Breach::ZeroLeg);
    }
    if some_is_over_size(view, order, legs) {
        return Some(Breach::OverSize);
    }
    if has_repeat(legs) {
        return Some(Breach::Repeated);
    }
    if some_is_beyond_limit(order, legs) {
        return Some(Breach::BeyondLimit);
    }
    None
}

/// The first rule that the legs break together.
fn sum_breach(view: &View, order: &Order, legs: &ArrayVec<Leg, MOST_ROWS>) -> Option<Breach>
    ensures { result ≡ sum_breach view.now order.now legs.now.items }
{
    if sum_of(legs.as_slice()) > u64::from(order.shares.get()) {
        return Some(Breach::OverAsked);
    }
    match first_traded_through(view, order, legs.as_slice()) {
        Some(row) => Some(Breach::TradedThrough { part: row.part }),
        None => None,
    }
}
