//! Calls on a view that the caller holds, under the roster and the fees of a setup: `specs/ViewCalls`. None of these calls takes
//! memory. Each stores only its answer, so any number of them may run at once.
ghost use Rattle.std.specs.Prelude.{◌≡◌, OnErr};
ghost use Rattle.std.specs.Result.{result_err};
ghost use Rattle.nms_calls.specs.ViewCalls.{IsChecked, IsPlanned, IsThrough};

use crate::MOST_MILLIONTHS;
use crate::call_fault::CallFault;
use crate::doubt_numbers::NmsDoubt;
use crate::order_numbers::NmsOrder;
use crate::order_reading::order_of;
use crate::plan_numbers::NmsPlan;
use crate::plan_reading::plan_of;
use crate::plan_writing::put_outcome;
use crate::row_numbers::{NmsThrough, NmsView};
use crate::side_writing::{put_rows, through_at};
use crate::view_reading::view_of;
use nms_cert::confirm;
use nms_fees::Setup;
use nms_quote::Side;
use nms_sweep::plan_into;

/// Plans the order that numbers give on the view that other numbers give, and writes the plan with its certificate.
///
/// Errors, the first that holds: `NoView`, those of the order, `NoSymbol` if the order is of another symbol than the view.
pub fn plan_view(
    setup: &Setup,
    numbers: &NmsView,
    order: &NmsOrder,
    out: &mut NmsPlan,
) -> Result<(), CallFault>
    ensures planned { IsPlanned setup.now numbers.now order.now (result_err result) out.new }
    ensures unwritten { OnErr result (out.new ≡ out.old) }
{
    let Some(view) = view_of(setup.roster().parts(), numbers) else {
        return Err(CallFault::NoView);
    };
    let order = order_of(setup.roster(), order)?;
    if order.sym != view.sym() {
        return Err(CallFault::NoSymbol);
    }
    let outcome = plan_into(&view, &order, setup.fees(), out);
    put_outcome(outcome, out);
    Ok(())
}

/// Confirms that a plan is the best lawful one for an order on a view. Numbers give the plan, the order and the view. If the plan
/// is not the best lawful one, it writes the doubt.
///
/// Errors, the first that holds: `NoView`, those of the order, those of the plan, `Doubted`.
pub fn confirm_view(
    setup: &Setup,
    numbers: &NmsView,
    order: &NmsOrder,
    plan: &NmsPlan,
    out: &mut NmsDoubt,
) -> Result<(), CallFault>
    ensures { IsChecked setup.now numbers.now order.now plan.now (result_err result) out.old out.new }
{
    let Some(view) = view_of(setup.roster().parts(), numbers) else {
        return Err(CallFault::NoView);
    };
    let order = order_of(setup.roster(), order)?;
    let (plan, certificate) = plan_of(setup.roster(), &order, plan)?;
    match confirm(&view, &order, setup.fees(), &plan, &certificate) {
        Ok(()) => {
            *out = NmsDoubt::none();
            Ok(())
        }
        Err(doubt) => {
            *out = NmsDoubt::of(doubt);
            Err(CallFault::Doubted)
        }
    }
}

/// Writes the protected quotations of a view that a price in 1/1,000,000 dollar trades through. Numbers give the view.
///
/// Errors, the first that holds: `NoView`, `Range` of the price.
pub fn through_view(
    numbers: &NmsView,
    millionths: u64,
    out: &mut NmsThrough,
) -> Result<(), CallFault>
    ensures through { IsThrough numbers.now millionths (result_err result) out.new }
    ensures unwritten { OnErr result (out.new ≡ out.old) }
{
    let Some(view) = view_of(32, numbers) else {
        return Err(CallFault::NoView);
    };
    if millionths < 1 || millionths > MOST_MILLIONTHS {
        return Err(CallFault::Range);
    }
    let bids = through_at(Side::Bid, millionths, view.rows(Side::Bid));
    let offers = through_at(Side::Offer, millionths, view.rows(Side::Offer));
    out.version = view.version();
    out.bids = bids.len() as u32;
    out.offers = offers.len() as u32;
    put_rows(bids.as_slice(), &mut out.bid);
    put_rows(offers.as_slice(), &mut out.offer);
    Ok(())
}
