//! A leg of a plan, and the quotation to which it goes (specs/LegPlaces).
ghost use Rattle.std.specs.Prelude.{◌≡◌, ◌<◌, ◌≤◌, length, slice_index_or};
ghost use Rattle.nms_quote.specs.declared.plan.Leg.{Leg};
ghost use Rattle.nms_verdicts.specs.LegPlaces.{IsLegPlace};

use nms_board::{MOST_ROWS, Row, View};
use nms_quote::{Leg, OrderSide};
use nms_rules::row_for;

/// A leg of a plan, and the quotation to which it goes.
#[derive(Clone, Copy)]
pub(crate) struct LegPlace {
    /// The leg's number in the plan, counted from 0: at most 31.
    pub(crate) number: u8,
    /// The leg as the plan has it.
    pub(crate) leg: Leg,
    /// The quotation of its participant on the side that the order trades with, if there is one. The price is in 1/10,000
    /// dollar, the displayed size in shares.
    pub(crate) quotation: Option<Row>,
}

/// The leg with the given number in a plan, counted from 0, and the quotation to which it goes.
pub(crate) fn leg_place(view: &View, side: OrderSide, legs: &[Leg], number: usize) -> LegPlace
    requires within { number < length legs.now }
    requires few { length legs.now ≤ MOST_ROWS }
    ensures place { IsLegPlace view.now side legs.now result }
    ensures number { result.number ≡ number }
    ensures own { (d : Leg) → result.leg ≡ slice_index_or legs.now number d }
{
    let leg = legs[number];
    LegPlace {
        number: number as u8,
        leg,
        quotation: row_for(view, side, &leg),
    }
}
