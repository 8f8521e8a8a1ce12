//! The place of a breach in a plan (specs/BreachPlaces).
ghost use Rattle.std.specs.Prelude.{◌≡◌, ◌<◌, ◌≤◌, Some, length, true};
ghost use Rattle.nms_rules.specs.Breach.{breach_of, has_repeat};
ghost use Rattle.nms_verdicts.specs.BreachPlaces.{IsBreachPlace, IsWorst};
ghost use Rattle.nms_verdicts.specs.LegPlaces.{IsRepeat};

use super::leg_place::{LegPlace, leg_place};
use super::leg_tests::{first_broken, repeat_in};
use super::passed_over::{PassedOver, passed_over, worst_of};
use arrayvec::ArrayVec;
use nms_board::{MOST_ROWS, View};
use nms_fee_book::FeeBook;
use nms_quote::{Leg, Order, OrderSide, Plan, Sym};
use nms_rules::{Breach, cost_of, sum_of};
use nms_units::{Money, Price};

/// The place of a breach in a plan, what was found there, and what was expected.
#[derive(Drop)]
pub(crate) enum BreachPlace {
    /// P1: the plan is of another version than the one on which it is judged.
    OtherVersion {
        /// The version that the plan names.
        found: u64,
        /// The version on which the plan is judged.
        expected: u64,
    },
    /// P2: the plan is for another order than the given one, or for another symbol than the one judged.
    OtherOrder {
        /// The order that the plan names.
        found: Order,
        /// The order that was given.
        expected: Order,
        /// The symbol whose quotations are judged.
        seen: Sym,
    },
    /// P3: the first leg whose participant has no quotation there, is named by the order, or has a manual one that the order
    /// does not allow.
    NoSuchQuotation(LegPlace),
    /// P4: the first leg at another price than its quotation.
    PriceDiffers(LegPlace),
    /// P5: the first leg of 0 shares.
    ZeroLeg(LegPlace),
    /// P6: the first leg of more shares than its quotation displays.
    OverSize(LegPlace),
    /// P8: the first leg at a price that is worse than the limit.
    BeyondLimit {
        /// The leg.
        leg: LegPlace,
        /// The order's limit.
        limit: Price,
    },
    /// P7: two legs to one participant.
    Repeated {
        /// The first leg with a later one to the same participant.
        first: LegPlace,
        /// The first later leg to that participant.
        again: LegPlace,
    },
    /// P9: the legs have more shares than the order asks for.
    OverAsked {
        /// The shares of all legs.
        found: u64,
        /// The number of shares that the order asks for, which is less.
        expected: u32,
    },
    /// P10: the quotations that the plan's worst price trades through.
    TradedThrough {
        /// The first leg at the plan's worst price.
        worst: LegPlace,
        /// The protected quotations at better prices that get less than they display, by participant place.
        passed: ArrayVec<PassedOver, MOST_ROWS>,
    },
    /// P11: the number of filled shares in the plan differs from the shares of its legs.
    FilledWrong {
        /// The number of filled shares that the plan names.
        found: u32,
        /// The shares of all legs.
        expected: u64,
    },
    /// P12: the cost in the plan differs from the cost of its legs with fees. Both are in nanodollars.
    CostWrong {
        /// The cost that the plan names, in nanodollars.
        found: Money,
        /// The cost of the legs with their fees, in nanodollars.
        expected: Money,
    },
}

/// Finds the place of the breach that the rule checker reports for a plan: the first leg that has the breach. It comes with the
/// found and the expected value. This takes no memory, and is this product's own rule.
pub(crate) fn breach_place(
    view: &View,
    order: &Order,
    plan: &Plan,
    fees: &FeeBook,
    breach: Breach,
) -> BreachPlace
    requires { breach_of view.now order.now fees.now plan.now ≡ Some breach }
    ensures { IsBreachPlace view.now order.now fees.now plan.now breach result }
{
    let legs = plan.legs.as_slice();
    match breach {
        Breach::OtherVersion => BreachPlace::OtherVersion {
            found: plan.version,
            expected: view.version(),
        },
        Breach::OtherOrder => BreachPlace::OtherOrder {
            found: plan.order,
            expected: *order,
            seen: view.sym(),
        },
        Breach::NoSuchQuotation => {
            BreachPlace::NoSuchQuotation(first_broken(view, order, legs, Breach::NoSuchQuotation))
        }
        Breach::PriceDiffers => {
            BreachPlace::PriceDiffers(first_broken(view, order, legs, Breach::PriceDiffers))
        }
        Breach::ZeroLeg => {
            BreachPlace::ZeroLeg(first_broken(view, order, legs, Breach::ZeroLeg))
        }
        Breach::OverSize => {
            BreachPlace::OverSize(first_broken(view, order, legs, Breach::OverSize))
        }
        Breach::BeyondLimit => BreachPlace::BeyondLimit {
            leg: first_broken(view, order, legs, Breach::BeyondLimit),
            limit: order.limit,
        },
        Breach::Repeated => {
            let (first, again) = repeat_places(view, order.side, legs);
            BreachPlace::Repeated { first, again }
        }
        Breach::OverAsked => BreachPlace::OverAsked {
            found: sum_of(legs),
            expected: order.shares.get(),
        },
        Breach::TradedThrough { .. } => BreachPlace::TradedThrough {
            worst: worst_place(view, order.side, legs),
            passed: passed_over(view, order, legs),
        },
        Breach::FilledWrong => BreachPlace::FilledWrong {
            found: plan.filled,
            expected: sum_of(legs),
        },
        Breach::CostWrong => BreachPlace::CostWrong {
            found: plan.cost,
            expected: cost_of(fees, order.side, legs),
        },
    }
}

/// The first leg with a later one to the same participant, and that later leg.
fn repeat_places(view: &View, side: OrderSide, legs: &[Leg]) -> (LegPlace, LegPlace)
    requires repeat { has_repeat legs.now ≡ true }
    requires few { length legs.now ≤ MOST_ROWS }
    ensures { IsRepeat view.now side legs.now result.0 result.1 }
{
    let (first, again) = repeat_in(legs);
    (
        leg_place(view, side, legs, first),
        leg_place(view, side, legs, again),
    )
}

/// The first leg at the plan's worst price.
fn worst_place(view: &View, side: OrderSide, legs: &[Leg]) -> LegPlace
    requires some { 0 < length legs.now }
    requires few { length legs.now ≤ MOST_ROWS }
    ensures { IsWorst view.now side legs.now result }
{
    leg_place(view, side, legs, worst_of(side, legs))
}
