//! Finding the quotations of a view that an order may trade with: `specs/Usable`.
ghost use Rattle.std.specs.Prelude.{◌≡◌, ◌+◌, ◌++◌, ◌<◌, ◌≤◌, ◌≤ℤ◌, [], ◌∷◌, AllPairs, false, filter, length, map};
ghost use Rattle.std.specs.List.Sorted.{IsPermutation, IsStrictlyIncreasing};
ghost use Rattle.nms_board.specs.Shown.{seen_on};
ghost use Rattle.nms_rules.specs.Usable.{contra_rows, is_better, is_usable, usable, usable_row};

use crate::leg_test::{contra, is_better};
use crate::rank::Rank;
use crate::self_help::is_allowed;
use arrayvec::ArrayVec;
use nms_board::{Boards, MOST_ROWS, Row, View};
use nms_fee_book::FeeBook;
use nms_quote::{Order, OrderSide, Part};
use nms_units::{Money, Price};
use std::marker::Model;

/// A quotation that an order may trade with: protected, or manual if the order allows it. The order does not name its
/// participant, and it is within the limit (17 CFR 242.600, "intermarket sweep order"; 242.611(b)(1); manual ones are
/// this product's own rule).
#[derive(Clone, Copy)]
pub struct UsableRow {
    /// The participant.
    pub part: Part,
    /// The rank of its price.
    pub rank: Rank,
    /// The price, in 1/10,000 dollar.
    pub price: Price,
    /// The displayed size, in shares.
    pub size: u32,
    /// Whether it is protected; else it is manual.
    pub protected: bool,
    /// What a share of the quotation costs with the participant's fee, in nanodollars.
    pub cost: Money,
}

impl Model for UsableRow {
    ghost use Rattle.std.specs.Prelude.{negsuc, pos, ◌≤ℤ◌};
    ghost use Rattle.nms_rules.specs.Usable.{Usable};

    ghost Value = { Usable };

    ghost view = { λ r. record {
      part = r.part;
      rank = r.rank;
      price = r.price;
      size = r.size;
      protected = r.protected;
      cost = r.cost;
    } };

    ghost invariant = { λ r. (negsuc 10000000009999999 ≤ℤ r.cost) × (r.cost ≤ℤ pos 10000000010000000) };

    ghost inverse = { λ u. record {
      part = u.part;
      rank = u.rank;
      price = u.price;
      size = u.size;
      protected = u.protected;
      cost = u.cost;
    } };
}

impl UsableRow {
    ghost use Rattle.std.specs.Prelude.{◌≡◌};
    ghost use Rattle.nms_rules.specs.Usable.{usable_row};

    /// A row as an order may trade with it, with its rank, and the cost of a share with the fee.
    pub fn of(order: &Order, fees: &FeeBook, row: &Row) -> Self
        ensures { result ≡ usable_row order.now fees.now row.now }
    {
        UsableRow {
            part: row.part,
            rank: Rank::of(order.side, row.price),
            price: row.price,
            size: row.size,
            protected: row.protected,
            cost: fees.unit_cost(row.part, order.side, row.price),
        }
    }
}

/// The row that fills a list's unused places.
impl Default for UsableRow {
    fn default() -> Self {
        let price = Price::new(1).unwrap();
        UsableRow {
            part: Part::new(0).unwrap(),
            rank: Rank::of(OrderSide::Buy, price),
            price,
            size: 0,
            protected: false,
            cost: Money::new(0),
        }
    }
}

/// The rows of a view that an order may trade with, by participant place. Takes no memory.
pub fn usable_rows(view: &View, order: &Order, fees: &FeeBook) -> ArrayVec<UsableRow, MOST_ROWS>
    ensures rows { result.items ≡ usable view.now order.now fees.now }
    ensures rising { IsStrictlyIncreasing (map (λ row. row.part) (contra_rows order.now.side view.now)) }
{
    let mut usable = ArrayVec::new_in(());
    for row in view.rows(contra(order.side)) {
        if is_usable(order, row) {
            usable.push(UsableRow::of(order, fees, row));
        }
    }
    usable
}

/// Replaces the rows in a list by the rows that an order may trade with, best price first. They are among those that a look at
/// a board shows for the order's symbol. They are read off the board in rank order, without making a view, up to the first one
/// beyond the limit. Takes no memory.
pub fn put_usable_rows(
    board: &Boards,
    order: &Order,
    fees: &FeeBook,
    rows: &mut ArrayVec<UsableRow, MOST_ROWS>,
)
    requires { order.now.sym < length board.now.sizes.lots }
    ensures same { IsPermutation (usable (seen_on board.now order.now.sym) order.now fees.now) rows.new.items }
    ensures ordered { AllPairs (λ row later. row.rank ≤ℤ later.rank) rows.new.items }
{
    board.shows_rows(order.sym);
    let side = contra(order.side);
    rows.clear();
    for at in 0..board.parts() {
        let Some(row) = board.ranked(side, order.sym, at) else {
            return;
        };
        if is_better(order.side, order.limit, row.price) {
            return;
        }
        put_usable(order, fees, &row, rows);
    }
}

/// Appends a row within the limit, if an order may trade with it.
#[inline(always)]
fn put_usable(order: &Order, fees: &FeeBook, row: &Row, rows: &mut ArrayVec<UsableRow, MOST_ROWS>)
    requires room { length rows.old.items < MOST_ROWS }
    requires limit { is_better order.now.side order.now.limit row.now.price ≡ false }
    ensures rows { rows.new.items ≡ rows.old.items
        ++ map (usable_row order.now fees.now) (filter (is_usable order.now) (row.now ∷ [])) }
    ensures count { length rows.new.items ≤ length rows.old.items + 1 }
{
    if is_allowed(order, row) {
        rows.push(UsableRow::of(order, fees, row));
    }
}

/// Whether an order may trade with a row. It may if the participant is not named, the row is within the limit, and it is
/// protected, or manual and the order allows that.
pub fn is_usable(order: &Order, row: &Row) -> bool
    ensures { result ≡ is_usable order.now row.now }
{
    is_allowed(order, row) && !is_better(order.side, order.limit, row.price)
}
