//! The law about accepted plans: `specs/Bounds`. No answer uses these functions, which are here for their contracts.
ghost use Rattle.std.specs.Prelude.{◌*◌, ◌≤ℤ◌, neg_ℤ, pos, List};
ghost use Rattle.nms_quote.specs.declared.certificate.Cut.{Cut};
ghost use Rattle.nms_board.specs.View.{Seen};
ghost use Rattle.nms_rules.specs.Accepted.{IsAccepted};
ghost use Rattle.nms_rules.specs.Faultless.{cost_of, sum_of};
ghost use Rattle.nms_sweep.specs.Bounds.{IsWithinBounds, most_unit};

use nms_fee_book::FeeBook;
use nms_quote::{Leg, Order, OrderSide, Plan};

/// A plan that is accepted for an order with its certificate fills at most 999,999,999 shares. Each costs at most 10^16 + 10^7
/// nanodollars, paid or received. Each marginal is between -10^18 and 10^18.
pub fn an_accepted_plan_is_within_bounds(order: &Order, fees: &FeeBook, plan: &Plan)
    ensures { (seen : Seen) (cuts : List Cut) → IsAccepted seen order.now fees.now plan.now cuts → IsWithinBounds plan.now cuts }
{
    order.shares.get();
    legs_cost_within_bounds(order.side, fees, plan.legs.as_slice());
}

/// Legs cost at most the highest price and the highest fee a share, paid or received.
fn legs_cost_within_bounds(side: OrderSide, fees: &FeeBook, legs: &[Leg])
    ensures low { neg_ℤ (pos (most_unit * sum_of legs.now)) ≤ℤ cost_of fees.now side legs.now }
    ensures high { cost_of fees.now side legs.now ≤ℤ pos (most_unit * sum_of legs.now) }
{
    for leg in legs {
        fees.unit_cost(leg.part, side, leg.price);
    }
}
