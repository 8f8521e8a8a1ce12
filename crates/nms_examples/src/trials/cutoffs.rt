//! The cutoffs of an order on a worked board, by values worked out by hand.
ghost use Rattle.std.specs.Prelude.{◌≡◌, IfSome};

use super::{same, there};
use crate::offers::apply_offer;
use nms_board::{Boards, View};
use nms_fees::{FeeBook, Setup};
use nms_quote::{Order, OrderSide, PartSet, QState, Sym};
use nms_sweep::{Cutoff, Cutoffs};
use nms_units::{Price, Shares};
use std::alloc::Global;
use std::test::Fail;

/// A cutoff in numbers: a price in 1/10,000 dollar, the shares that must be swept first, their cost in nanodollars, and the
/// pool's shares.
type Told = (u64, u64, i128, u64);

/// The numbers of a cutoff; `None` if there are no more cutoffs.
fn told(cutoff: Option<Cutoff>) -> Option<Told> {
    let cutoff = cutoff?;
    Some((
        cutoff.price.get(),
        cutoff.swept,
        cutoff.swept_cost.get(),
        cutoff.pool,
    ))
}

/// An order to buy 200 shares at 0.5002 or less, manual quotations among them.
fn order_for(sym: Sym) -> Option<Order>
    ensures { IfSome result (λ order. order.sym ≡ sym) }
{
    let (shares, limit) = (Shares::new(200)?, Price::new(5002)?);
    Order::new(OrderSide::Buy, sym, shares, limit, true, PartSet::none())
}

/// Compares the cutoffs of an order to buy 200 shares at 0.5002 or less with the expected ones, in order.
fn compare(view: &View, fees: &FeeBook, due: &[Option<Told>]) -> Result<(), Fail> {
    let Some(order) = order_for(view.sym()) else {
        return Err(Fail::new("no order"));
    };
    let mut cutoffs = Cutoffs::new(view, &order, fees);
    for due in due {
        same(told(cutoffs.next()), *due)?;
    }
    Ok(())
}

/// N's manual offer is in the pool at each price and is never swept. P's protected offer is in the pool at its own price. At the
/// next, worse price it is swept, and its fee counts. After the last price there are no further cutoffs.
pub(super) fn a_protected_row_is_swept_with_its_fee_at_the_next_price(
    alloc: Global,
    setup: &Setup,
) -> Result<(), Fail> {
    let mut boards = Boards::new(alloc, setup.roster())?;
    for (place, state, price, shares) in [
        (0, QState::Manual, 5000, 200),
        (1, QState::Automated, 5001, 100),
        (2, QState::Automated, 5002, 100),
    ] {
        apply_offer(&mut boards, place, state, price, shares);
    }
    let due = [
        Some((5000, 0, 0, 200)),
        Some((5001, 0, 0, 300)),
        Some((5002, 100, 50_160_030_000, 300)),
        None,
        None,
    ];
    let sym = there(setup.roster().find_sym(b"ABC"))?;
    compare(&boards.view(sym), setup.fees(), &due)
}
