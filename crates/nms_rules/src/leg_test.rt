//! Tests of a leg against its quotation, and of all legs together: `specs/Breach`.
ghost use Rattle.std.specs.Prelude.{◌≡◌, ◌<◌, ◌≤◌, ◌^◌, ◌≤ℤ◌, neg_ℤ, pos, length};
ghost use Rattle.nms_board.specs.Shown.{seen_on};
ghost use Rattle.nms_rules.specs.Breach.{first_traded_through, goes_to, has_leg_beyond, has_no_shares, has_other_price, has_repeat, is_beyond_limit, is_over_size, is_traded_through, lacks_quotation, row_for, some_has_no_shares, some_has_other_price, some_is_beyond_limit, some_is_over_size, some_lacks_quotation};
ghost use Rattle.nms_rules.specs.Faultless.{cost_of, given_by, leg_cost, sum_of};
ghost use Rattle.nms_rules.specs.Usable.{contra, is_better};

use crate::self_help::{is_allowed, is_binding};
use nms_board::{Boards, MOST_ROWS, Row, View, is_better_price};
use nms_fee_book::FeeBook;
use nms_quote::{Leg, Order, OrderSide, Part, Side, Sym};
use nms_units::{Money, Price};

/// The side that an order trades with: offers for a buyer, bids for a seller.
pub fn contra(side: OrderSide) -> Side
    ensures { result ≡ contra side }
{
    match side {
        OrderSide::Buy => Side::Offer,
        OrderSide::Sell => Side::Bid,
    }
}

/// Whether a price is better for an order than another one: lower for a buyer, higher for a seller.
pub fn is_better(side: OrderSide, price: Price, other: Price) -> bool
    ensures { result ≡ is_better side price other }
{
    is_better_price(contra(side), price, other)
}

/// The quotation that a leg goes to.
pub fn row_for(view: &View, side: OrderSide, leg: &Leg) -> Option<Row>
    ensures { result ≡ row_for view.now side leg.now }
{
    view.row(contra(side), leg.part)
}

/// The quotation that a leg goes to, of those that a look at a board shows for a symbol. It is read off the board, without
/// making a view.
pub fn row_for_on(board: &Boards, side: OrderSide, sym: Sym, leg: &Leg) -> Option<Row>
    requires { sym < length board.now.sizes.lots }
    ensures { result ≡ row_for (seen_on board.now sym) side leg.now }
{
    if leg.part.get() < board.parts() {
        board.row(contra(side), leg.part, sym)
    } else {
        None
    }
}

/// Whether a leg goes to no quotation, to one of a participant that the order names, or to a manual one that is not allowed.
pub fn lacks_quotation(view: &View, order: &Order, leg: &Leg) -> bool
    ensures { result ≡ lacks_quotation order.now (row_for view.now order.now.side leg.now) }
{
    match row_for(view, order.side, leg) {
        None => true,
        Some(row) => !is_allowed(order, &row),
    }
}

/// Whether a leg has another price than its quotation.
pub fn has_other_price(view: &View, order: &Order, leg: &Leg) -> bool
    ensures { result ≡ has_other_price leg.now (row_for view.now order.now.side leg.now) }
{
    match row_for(view, order.side, leg) {
        None => false,
        Some(row) => leg.price != row.price,
    }
}

/// Whether a leg has more shares than its quotation displays.
pub fn is_over_size(view: &View, order: &Order, leg: &Leg) -> bool
    ensures { result ≡ is_over_size leg.now (row_for view.now order.now.side leg.now) }
{
    match row_for(view, order.side, leg) {
        None => false,
        Some(row) => leg.shares.get() > row.size,
    }
}

/// Whether a leg has no shares.
fn has_no_shares(leg: &Leg) -> bool
    ensures { result ≡ has_no_shares leg.now }
{
    leg.shares.get() == 0
}

/// Whether a leg's price is worse than the order's limit.
fn is_beyond_limit(order: &Order, leg: &Leg) -> bool
    ensures { result ≡ is_beyond_limit order.now leg.now }
{
    is_better(order.side, order.limit, leg.price)
}

/// Whether any leg goes to no quotation, to one of a participant that the order names, or to a manual one that is not allowed.
#[tactic(auto, unfolding(crate::specs::Breach::some_lacks_quotation))]
pub(crate) fn some_lacks_quotation(view: &View, order: &Order, legs: &[Leg]) -> bool
    ensures { result ≡ some_lacks_quotation view.now order.now legs.now }
{
    legs.iter().any(|leg| lacks_quotation(view, order, leg))
}

/// Whether some leg has another price than its quotation.
#[tactic(auto, unfolding(crate::specs::Breach::some_has_other_price))]
pub(crate) fn some_has_other_price(view: &View, order: &Order, legs: &[Leg]) -> bool
    ensures { result ≡ some_has_other_price view.now order.now legs.now }
{
    legs.iter().any(|leg| has_other_price(view, order, leg))
}

/// Whether some leg has no shares.
#[tactic(auto, unfolding(crate::specs::Breach::some_has_no_shares))]
pub(crate) fn some_has_no_shares(legs: &[Leg]) -> bool
    ensures { result ≡ some_has_no_shares legs.now }
{
    legs.iter().any(|leg| has_no_shares(leg))
}

/// Whether some leg has more shares than its quotation displays.
#[tactic(auto, unfolding(crate::specs::Breach::some_is_over_size))]
pub(crate) fn some_is_over_size(view: &View, order: &Order, legs: &[Leg]) -> bool
    ensures { result ≡ some_is_over_size view.now order.now legs.now }
{
    legs.iter().any(|leg| is_over_size(view, order, leg))
}

/// Whether some leg's price is worse than the order's limit.
#[tactic(auto, unfolding(crate::specs::Breach::some_is_beyond_limit))]
pub(crate) fn some_is_beyond_limit(order: &Order, legs: &[Leg]) -> bool
    ensures { result ≡ some_is_beyond_limit order.now legs.now }
{
    legs.iter().any(|leg| is_beyond_limit(order, leg))
}

/// Whether some leg goes to the participant.
fn has_leg_to(legs: &[Leg], part: Part) -> bool
    ensures { result ≡ goes_to part legs.now }
{
    legs.iter().any(|leg| leg.part == part)
}

/// Whether two legs go to one participant.
#[tactic(auto, unfolding(crate::specs::Breach::has_repeat))]
pub fn has_repeat(legs: &[Leg]) -> bool
    ensures { result ≡ has_repeat legs.now }
{
    let mut behind = legs;
    while let Some((leg, more)) = behind.split_first() {
        if has_leg_to(more, leg.part) {
            return true;
        }
        behind = more;
    }
    false
}

/// The shares of the legs to a participant.
pub fn given_to(legs: &[Leg], part: Part) -> u64
    requires { length legs.now ≤ MOST_ROWS }
    ensures { result ≡ given_by legs.now part }
{
    let mut given = 0;
    for leg in legs {
        given += if leg.part == part {
            u64::from(leg.shares.get())
        } else {
            0
        };
    }
    given
}

/// The first protected quotation that the legs trade through, by participant place. Quotations of participants that the order
/// names do not count.
pub(crate) fn first_traded_through(view: &View, order: &Order, legs: &[Leg]) -> Option<Row>
    requires { length legs.now ≤ MOST_ROWS }
    ensures { result ≡ first_traded_through view.now order.now legs.now }
{
    for row in view.rows(contra(order.side)) {
        if is_traded_through(order, legs, row) {
            return Some(*row);
        }
    }
    None
}

/// Whether the legs trade through a quotation. They do if some leg has a worse price, and it is protected, not of a named
/// participant, and gets less than its full size (17 CFR 242.600, "trade-through"; 242.611(b)(1)).
#[tactic(auto, unfolding(crate::specs::Breach::is_traded_through))]
pub fn is_traded_through(order: &Order, legs: &[Leg], row: &Row) -> bool
    requires { length legs.now ≤ MOST_ROWS }
    ensures { result ≡ is_traded_through order.now legs.now row.now }
{
    if !is_binding(order, row) {
        return false;
    }
    if given_to(legs, row.part) >= u64::from(row.size) {
        return false;
    }
    has_leg_beyond(order.side, legs, row.price)
}

/// Whether some leg has a worse price than the given one.
fn has_leg_beyond(side: OrderSide, legs: &[Leg], price: Price) -> bool
    ensures { result ≡ has_leg_beyond side price legs.now }
{
    legs.iter().any(|leg| is_better(side, price, leg.price))
}

/// The shares of all legs.
pub fn sum_of(legs: &[Leg]) -> u64
    requires { length legs.now ≤ MOST_ROWS }
    ensures { result ≡ sum_of legs.now }
{
    let mut sum = 0;
    for leg in legs {
        sum += u64::from(leg.shares.get());
    }
    sum
}

/// The cost of all legs with fees, in nanodollars.
pub fn cost_of(fees: &FeeBook, side: OrderSide, legs: &[Leg]) -> Money
    requires { length legs.now ≤ MOST_ROWS }
    ensures { result ≡ cost_of fees.now side legs.now }
{
    let mut cost = Money::new(0);
    for leg in legs {
        cost = cost.plus(leg_cost(fees, side, leg));
    }
    cost
}

/// The cost of a leg, with its fee.
fn leg_cost(fees: &FeeBook, side: OrderSide, leg: &Leg) -> Money
    ensures cost { result ≡ leg_cost fees.now side leg.now }
    ensures low { neg_ℤ (pos (2 ^ 100)) ≤ℤ result }
    ensures high { result ≤ℤ pos (2 ^ 100) }
{
    fees.unit_cost(leg.part, side, leg.price)
        .times(u64::from(leg.shares.get()))
}
