//! Confirming a plan on a board: `specs/Doubts`. A quick look comes first: `specs/Quick` and `specs/Walk`. A view is made only
//! if the quick look finds that there may be a doubt, to say which one.
ghost use Rattle.std.specs.Prelude.{◌≡◌, ◌<◌, ◌≤◌, ◌↔◌, [], All, IsOk, MatchOption, None, OnOk, false, length, true};
ghost use Rattle.std.specs.Result.{result_err};
ghost use Rattle.std.specs.List.Sorted.{IsPermutation};
ghost use Rattle.nms_board.specs.Shown.{seen_on};
ghost use Rattle.nms_rules.specs.Accepted.{IsAccepted};
ghost use Rattle.nms_rules.specs.Assignment.{IsOptimal};
ghost use Rattle.nms_rules.specs.Breach.{breach_of, is_same_order, row_for};
ghost use Rattle.nms_rules.specs.Faultless.{given_by};
ghost use Rattle.nms_rules.specs.Usable.{is_better, usable};
ghost use Rattle.nms_cert.specs.Doubts.{doubt_of};
ghost use Rattle.nms_cert.specs.Quick.{are_suited, is_passed_over, is_short, is_suited, is_summed};

use crate::confirming::confirm;
use crate::doubt::Doubt;
use crate::walking::are_walked;
use arrayvec::ArrayVec;
use nms_board::{Boards, MOST_ROWS};
use nms_fee_book::FeeBook;
use nms_quote::{Certificate, Cut, Leg, Order, OrderSide, Plan};
use nms_rules::{
    UsableRow, cost_of, fillable, given_to, has_repeat, is_better, is_usable, put_usable_rows,
    row_for_on, sum_of,
};
use nms_units::Price;

/// Confirms that a plan for an order is optimal on what a look at a board shows for the order's symbol. It answers as `confirm`
/// does for a view.
///
/// The rows are read off the board. A view is made only if there may be a doubt, to say which one is first. Takes no memory.
pub fn confirm_on(
    board: &Boards,
    order: &Order,
    fees: &FeeBook,
    plan: &Plan,
    certificate: &Certificate,
) -> Result<(), Doubt>
    requires { order.now.sym < length board.now.sizes.lots }
    ensures first { result_err result ≡ doubt_of (seen_on board.now order.now.sym) order.now fees.now plan.now certificate.now.items }
    ensures accepted { IsOk result ↔ IsAccepted (seen_on board.now order.now.sym) order.now fees.now plan.now certificate.now.items }
    ensures optimal { OnOk result (IsOptimal (usable (seen_on board.now order.now.sym) order.now fees.now) order.now.shares (given_by plan.now.legs.items)) }
{
    board.shows_rows(order.sym);
    find_doubt_on(board, order, fees, plan, certificate)
}

/// Looks for the first doubt about a plan and its certificate on a board. Returns the doubt as an error, if there is one.
fn find_doubt_on(
    board: &Boards,
    order: &Order,
    fees: &FeeBook,
    plan: &Plan,
    certificate: &Certificate,
) -> Result<(), Doubt>
    requires { order.now.sym < length board.now.sizes.lots }
    ensures { result_err result ≡ doubt_of (seen_on board.now order.now.sym) order.now fees.now plan.now certificate.now.items }
{
    if is_accepted(board, order, fees, plan, certificate.as_slice()) {
        return Ok(());
    }
    confirm_by_view(board, order, fees, plan, certificate)
}

/// Whether a plan and its cuts are found to be without a doubt. The search goes once over the legs, once over the rows and once
/// over the cuts. If the answer is no, there may be a doubt.
fn is_accepted(board: &Boards, order: &Order, fees: &FeeBook, plan: &Plan, cuts: &[Cut]) -> bool
    requires { order.now.sym < length board.now.sizes.lots }
    ensures { result ≡ true → doubt_of (seen_on board.now order.now.sym) order.now fees.now plan.now cuts.now ≡ None }
{
    let mut listed = ArrayVec::new_in(());
    put_usable_rows(board, order, fees, &mut listed);
    let rows = listed.as_slice();
    if !is_lawful(board, order, fees, plan, rows) {
        return false;
    }
    let most = fillable(rows, order.shares);
    if u64::from(plan.filled) != most {
        return false;
    }
    are_walked(order.side, rows, most, plan.cost, cuts)
}

/// Confirms that a plan for an order is optimal on what a look at a board shows, by making a view.
///
/// It is not inlined, because each call of a function that holds a view clears its room first.
#[inline(never)]
fn confirm_by_view(
    board: &Boards,
    order: &Order,
    fees: &FeeBook,
    plan: &Plan,
    certificate: &Certificate,
) -> Result<(), Doubt>
    ensures { result_err result ≡ doubt_of (seen_on board.now order.now.sym) order.now fees.now plan.now certificate.now.items }
{
    confirm(&board.view(order.sym), order, fees, plan, certificate)
}

/// Whether a plan for an order is found to break no rule. The rows are those that the order may trade with.
fn is_lawful(board: &Boards, order: &Order, fees: &FeeBook, plan: &Plan, rows: &[UsableRow]) -> bool
    requires sym { order.now.sym < length board.now.sizes.lots }
    requires rows { IsPermutation (usable (seen_on board.now order.now.sym) order.now fees.now) rows.now }
    ensures { result ≡ true → breach_of (seen_on board.now order.now.sym) order.now fees.now plan.now ≡ None }
{
    if plan.version != board.applied() {
        return false;
    }
    if !is_for(plan, order) {
        return false;
    }
    let legs = plan.legs.as_slice();
    if !are_suited(board, order, legs) {
        return false;
    }
    if has_repeat(legs) {
        return false;
    }
    if some_is_passed_over(order.side, legs, rows) {
        return false;
    }
    is_summed(order, fees, plan)
}

/// Whether a plan is for an order.
fn is_for(plan: &Plan, order: &Order) -> bool
    ensures { result ≡ is_same_order plan.now.order order.now }
{
    plan.order == *order
}

/// Whether each leg goes to a quotation that the order may trade with, at its price, with no more shares than it displays.
#[tactic(auto, unfolding(crate::specs::Quick::are_suited))]
fn are_suited(board: &Boards, order: &Order, legs: &[Leg]) -> bool
    requires { order.now.sym < length board.now.sizes.lots }
    ensures { result ≡ are_suited (seen_on board.now order.now.sym) order.now legs.now }
{
    legs.iter().all(|leg| is_suited(board, order, leg))
}

/// Whether a leg goes to a quotation that the order may trade with, at its price, with no more shares than it displays.
fn is_suited(board: &Boards, order: &Order, leg: &Leg) -> bool
    requires { order.now.sym < length board.now.sizes.lots }
    ensures { result ≡ is_suited order.now leg.now (row_for (seen_on board.now order.now.sym) order.now.side leg.now) }
{
    match row_for_on(board, order.side, order.sym, leg) {
        None => false,
        Some(row) => {
            is_usable(order, &row)
                && leg.price == row.price
                && leg.shares.get() > 0
                && leg.shares.get() <= row.size
        }
    }
}

/// Whether the legs pass over a row. Such a row is protected, at a better price than the worst of the legs, and gets less than
/// its full size.
fn some_is_passed_over(side: OrderSide, legs: &[Leg], rows: &[UsableRow]) -> bool
    requires { length legs.now ≤ MOST_ROWS }
    ensures { result ≡ false → All (λ row. is_passed_over side legs.now row ≡ false) rows.now }
{
    let Some(worst) = worst_of(side, legs) else {
        return false;
    };
    for row in rows {
        if is_short(side, worst, legs, row) {
            return true;
        }
    }
    false
}

/// The worst price of the legs.
fn worst_of(side: OrderSide, legs: &[Leg]) -> Option<Price>
    ensures { MatchOption result (legs.now ≡ []) (λ worst. All (λ leg. is_better side worst leg.price ≡ false) legs.now) }
{
    let mut worst = legs.first()?.price;
    for leg in legs {
        if is_better(side, worst, leg.price) {
            worst = leg.price;
        }
    }
    Some(worst)
}

/// Whether a row is protected, at a better price than the given one, and gets less than its full size.
fn is_short(side: OrderSide, worst: Price, legs: &[Leg], row: &UsableRow) -> bool
    requires { length legs.now ≤ MOST_ROWS }
    ensures { result ≡ is_short side worst legs.now row.now }
{
    row.protected
        && is_better(side, row.price, worst)
        && given_to(legs, row.part) < u64::from(row.size)
}

/// Whether the legs have no more shares than the order asks for, and the plan's sums are right.
fn is_summed(order: &Order, fees: &FeeBook, plan: &Plan) -> bool
    ensures { result ≡ is_summed order.now fees.now plan.now }
{
    let legs = plan.legs.as_slice();
    let sum = sum_of(legs);
    sum <= u64::from(order.shares.get())
        && u64::from(plan.filled) == sum
        && plan.cost == cost_of(fees, order.side, legs)
}
