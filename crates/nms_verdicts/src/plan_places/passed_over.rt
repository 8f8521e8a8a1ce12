//! The quotations that a plan trades through, and its worst price (specs/BreachPlaces).
ghost use Rattle.std.specs.Prelude.{ℕ, ◌≡◌, ◌<◌, ◌≤◌, All, false, length, slice_index_or, true};
ghost use Rattle.nms_quote.specs.declared.plan.Leg.{Leg};
ghost use Rattle.nms_rules.specs.Usable.{is_better};
ghost use Rattle.nms_verdicts.specs.BreachPlaces.{passed_over};

use arrayvec::ArrayVec;
use nms_board::{MOST_ROWS, Row, View};
use nms_quote::{Leg, Order, OrderSide};
use nms_rules::{contra, given_to, is_better, is_traded_through};
use nms_units::Price;

/// A protected quotation that a plan trades through. The order does not name its participant. Its price is better than the
/// plan's worst, and it gets less than its displayed size (17 CFR 242.600, "trade-through").
#[derive(Clone, Copy)]
pub(crate) struct PassedOver {
    /// The quotation: its participant, its price in 1/10,000 dollar, its displayed size in shares.
    pub(crate) row: Row,
    /// The number of shares that the plan sends to the quotation, fewer than its displayed size.
    pub(crate) given: u64,
}

/// The value that fills a list's unused places.
impl Default for PassedOver {
    fn default() -> Self {
        PassedOver {
            row: Row::default(),
            given: 0,
        }
    }
}

/// The protected quotations that a plan's legs trade through, sorted by participant.
pub(crate) fn passed_over(
    view: &View,
    order: &Order,
    legs: &[Leg],
) -> ArrayVec<PassedOver, MOST_ROWS>
    requires { length legs.now ≤ MOST_ROWS }
    ensures { result.items ≡ passed_over view.now order.now legs.now }
{
    let mut passed = ArrayVec::new_in(());
    for row in view.rows(contra(order.side)) {
        if is_traded_through(order, legs, row) {
            passed.push(PassedOver {
                row: *row,
                given: given_to(legs, row.part),
            });
        }
    }
    passed
}

/// The number of the first leg at the plan's worst price.
pub(crate) fn worst_of(side: OrderSide, legs: &[Leg]) -> usize
    requires { 0 < length legs.now }
    ensures within { result < length legs.now }
    ensures worst { (d : Leg) → All (λ leg. is_better side (slice_index_or legs.now result d).price leg.price ≡ false) legs.now }
    ensures first { (d : Leg) (k : ℕ) → k < result → is_better side (slice_index_or legs.now k d).price (slice_index_or legs.now result d).price ≡ true }
{
    let mut worst = 0;
    for at in 0..legs.len() {
        if is_better(side, legs[worst].price, legs[at].price) {
            worst = at;
        }
    }
    worst
}
