//! The laws about the text of a plan: `specs/PlanLaws` of `nms_lines`. These functions serve no record, and are here for their
//! contracts.
ghost use Rattle.std.specs.Prelude.{◌≡◌, ◌<◌, ◌≤◌, All, length};
ghost use Rattle.nms_units.specs.declared.TheConstants.{MOST_SHARES};
ghost use Rattle.nms_quote.specs.Roster.{sizes_of};
ghost use Rattle.nms_quote.specs.Tape.{Tape};
ghost use Rattle.nms_quote.specs.declared.TheConstants.{MOST_CHANGES};
ghost use Rattle.nms_lines.specs.Named.{AreBelow};
ghost use Rattle.nms_lines.specs.PlanLaws.{IsPriceInRange, IsReadBack};
ghost use Rattle.nms_board.specs.View.{view_of};
ghost use Rattle.nms_rules.specs.Accepted.{IsAccepted};

use nms_board::View;
use nms_fees::FeeBook;
use nms_lines::a_plan_reads_as_written;
use nms_quote::{Certificate, Cut, Leg, Order, Plan, Roster};
use nms_sweep::{an_accepted_plan_is_within_bounds, plan};

/// `read_plan` reads back what `write_plan` writes for an accepted plan with its certificate. The order is of the roster, and
/// the view's version has at most 10,000,000 changes. The plan may come from any source.
pub fn an_accepted_plan_reads_as_written(
    roster: &Roster,
    order: &Order,
    fees: &FeeBook,
    plan: &Plan,
    certificate: &Certificate,
)
    ensures { (tape : Tape) → length tape ≤ MOST_CHANGES → order.now.sym < length roster.now.syms
        → AreBelow (length roster.now.parts) order.now.self_help
        → IsAccepted (view_of (sizes_of roster.now) tape order.now.sym) order.now fees.now plan.now certificate.now.items
        → IsReadBack roster.now plan.now certificate.now.items }
{
    a_plan_reads_as_written(roster);
    an_accepted_plan_is_within_bounds(order, fees, plan);
    order.shares.get();
    order.limit.get();
    legs_are_in_range(plan.legs.as_slice());
    cuts_are_in_range(certificate.as_slice());
}

/// Plans an order on a view, and returns the plan with its certificate. `read_plan` reads back what `write_plan` writes for
/// them. This holds if the view's version has at most 10,000,000 changes and the order is of the roster.
pub fn a_planned_order_reads_as_written(
    roster: &Roster,
    view: &View,
    order: &Order,
    fees: &FeeBook,
) -> (Plan, Certificate)
    requires { order.now.sym ≡ view.now.sym }
    ensures accepted { IsAccepted view.now order.now fees.now result.0 result.1.items }
    ensures read { (tape : Tape) → length tape ≤ MOST_CHANGES → order.now.sym < length roster.now.syms
        → AreBelow (length roster.now.parts) order.now.self_help
        → view.now ≡ view_of (sizes_of roster.now) tape order.now.sym → IsReadBack roster.now result.0 result.1.items }
{
    let (plan, certificate) = plan(view, order, fees);
    an_accepted_plan_reads_as_written(roster, order, fees, &plan, &certificate);
    (plan, certificate)
}

/// Shows the prover that the price and the shares of each leg are in range, as their types say.
fn legs_are_in_range(legs: &[Leg])
    ensures { All (λ leg. IsPriceInRange leg.price × (leg.shares ≤ MOST_SHARES)) legs.now }
{
    for leg in legs {
        leg.price.get();
        leg.shares.get();
    }
}

/// Shows the prover that the price of each cut is in range, as its type says.
fn cuts_are_in_range(cuts: &[Cut])
    ensures { All (λ cut. IsPriceInRange cut.price) cuts.now }
{
    for cut in cuts {
        cut.price.get();
    }
}
