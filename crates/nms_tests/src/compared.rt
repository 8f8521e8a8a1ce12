//! Comparing a plan of the planner with the plan of a plain slow planner. Both plans and their certificates have to be the same
//! and confirmed.
ghost use Rattle.std.specs.Prelude.{◌≡◌, IfSome};

use crate::plain::plain_plan;
use nms_board::{Boards, View};
use nms_cert::confirm;
use nms_fees::FeeBook;
use nms_quote::{
    Certificate, Change, Order, OrderSide, Part, PartSet, Plan, QState, SideQuote, Sym,
};
use nms_sweep::plan;
use nms_units::{Price, Shares};

/// The order that is wanted: shares, a limit in 1/10,000 dollar, whether manual quotations may be used, and against whom
/// self-help is declared.
#[derive(Clone, Copy)]
pub(crate) struct Wanted {
    pub(crate) side: OrderSide,
    pub(crate) shares: u32,
    pub(crate) limit: u64,
    pub(crate) manual: bool,
    pub(crate) self_help: PartSet,
}

/// The order for a symbol that has the wanted side, shares and limit. `None` if one of these is out of its range.
fn order_for(sym: Sym, wanted: &Wanted) -> Option<Order>
    ensures { IfSome result (λ order. order.sym ≡ sym) }
{
    let (shares, limit) = (Shares::new(wanted.shares)?, Price::new(wanted.limit)?);
    Order::new(
        wanted.side,
        sym,
        shares,
        limit,
        wanted.manual,
        wanted.self_help,
    )
}

/// Whether a plan and its certificate equal those of another planner.
fn is_same(plan: &Plan, cuts: &Certificate, other: &Plan, other_cuts: &Certificate) -> bool {
    plan.version == other.version
        && plan.order == other.order
        && plan.legs.as_slice() == other.legs.as_slice()
        && plan.filled == other.filled
        && plan.cost == other.cost
        && cuts.as_slice() == other_cuts.as_slice()
}

/// What is wrong with the planner's plan for an order; empty if nothing is. `None` if there is no such order or plan.
pub(crate) fn finding(view: &View, fees: &FeeBook, wanted: &Wanted) -> Option<&'static str> {
    let order = order_for(view.sym(), wanted)?;
    let (plain, plain_cuts) = plain_plan(view, &order, fees)?;
    if let Err(doubt) = confirm(view, &order, fees, &plain, &plain_cuts) {
        return Some(doubt.code());
    }
    let (plan, cuts) = plan(view, &order, fees);
    if !is_same(&plan, &cuts, &plain, &plain_cuts) {
        return Some("another plan");
    }
    Some(match confirm(view, &order, fees, &plan, &cuts) {
        Err(doubt) => doubt.code(),
        Ok(()) => "",
    })
}

/// A quotation on the side that an order trades with.
#[derive(Clone, Copy)]
pub(crate) struct Quoted {
    pub(crate) state: QState,
    pub(crate) price: u64,
    pub(crate) shares: u32,
}

/// Applies quotations on the side with which an order trades. The first is by the participant at place 0, the next at place 1,
/// and so on.
pub(crate) fn quote(
    boards: &mut Boards,
    sym: Sym,
    side: OrderSide,
    quotes: &[Quoted],
) -> Option<()> {
    let mut place = 0u8;
    for quoted in quotes {
        let shown = SideQuote::new(Price::new(quoted.price)?, Shares::new(quoted.shares)?);
        let (bid, offer) = match side {
            OrderSide::Buy => (None, shown),
            OrderSide::Sell => (shown, None),
        };
        let change = Change::Quote {
            part: Part::new(place)?,
            sym,
            state: quoted.state,
            bid,
            offer,
        };
        if boards.takes(&change) {
            boards.apply(change);
        }
        place = place.wrapping_add(1);
    }
    Some(())
}
