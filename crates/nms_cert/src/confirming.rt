//! Whether a certificate shows that a plan is optimal: `specs/Doubts`. `specs/Accepted` of `nms_rules` is about one without a
//! doubt.
ghost use Rattle.std.specs.Prelude.{◌≡◌, ◌≤◌, ◌↔◌, IsNone, IsOk, OnOk, map, length};
ghost use Rattle.std.specs.Result.{result_err};
ghost use Rattle.std.specs.List.Sorted.{IsStrictlyIncreasing};
ghost use Rattle.nms_rules.specs.Accepted.{IsAccepted};
ghost use Rattle.nms_rules.specs.Assignment.{IsOptimal};
ghost use Rattle.nms_rules.specs.Breach.{breach_of};
ghost use Rattle.nms_rules.specs.Faultless.{IsFaultless, given_by};
ghost use Rattle.nms_rules.specs.First.{when};
ghost use Rattle.nms_rules.specs.Usable.{contra_rows, usable};
ghost use Rattle.nms_cert.specs.Doubts.{breach_doubt, cuts_doubt, doubt_of};

use crate::cuts::{
    first_failing, is_out_of_order, some_is_extra, some_is_out_of_range, some_is_wrong_kind,
    some_lacks_cut,
};
use crate::doubt::Doubt;
use nms_board::{MOST_ROWS, View};
use nms_fee_book::FeeBook;
use nms_quote::{Certificate, Cut, Order, OrderSide, Plan};
use nms_rules::{Breach, UsableRow, breach, fillable, usable_rows};
use nms_units::{MOST_SHARES, Money};

/// Confirms that a plan for an order on a view is optimal. It is lawful, no lawful plan fills more shares, and none fills as
/// many for less, fees included. Shares may be spread in any way that is lawful.
///
/// Returns `Ok` if and only if the certificate is accepted, else the doubt of least number that holds. Takes no memory. Looks
/// at each pair of a cut and a row a few times, with at most `MOST_ROWS` (32) of each. Costs are in nanodollars, with the fees
/// of the book.
pub fn confirm(
    view: &View,
    order: &Order,
    fees: &FeeBook,
    plan: &Plan,
    certificate: &Certificate,
) -> Result<(), Doubt>
    ensures first { result_err result ≡ doubt_of view.now order.now fees.now plan.now certificate.now.items }
    ensures accepted { IsOk result ↔ IsAccepted view.now order.now fees.now plan.now certificate.now.items }
    ensures optimal { OnOk result (IsOptimal (usable view.now order.now fees.now) order.now.shares (given_by plan.now.legs.items)) }
{
    find_doubt(view, order, fees, plan, certificate.as_slice())
}

/// Looks for the first doubt about a plan and its cuts on a view. Returns the doubt as an error, if there is one.
fn find_doubt(
    view: &View,
    order: &Order,
    fees: &FeeBook,
    plan: &Plan,
    cuts: &[Cut],
) -> Result<(), Doubt>
    requires { length cuts.now ≤ MOST_ROWS }
    ensures first { result_err result ≡ doubt_of view.now order.now fees.now plan.now cuts.now }
    ensures lawful { IsNone (breach_of view.now order.now fees.now plan.now) ↔ IsFaultless view.now order.now fees.now plan.now }
    ensures rising { OnOk result (IsStrictlyIncreasing (map (λ row. row.part) (contra_rows order.now.side view.now))) }
{
    refuse_breach(breach(view, order, fees, plan))?;
    let rows = usable_rows(view, order, fees);
    let most = fillable(rows.as_slice(), order.shares);
    refuse_if(u64::from(plan.filled) != most, Doubt::NotMost)?;
    check_cuts(order.side, rows.as_slice(), most, plan.cost, cuts)
}

/// Returns the breach of a plan as a doubt, if the plan has a breach.
fn refuse_breach(found: Option<Breach>) -> Result<(), Doubt>
    ensures { result_err result ≡ breach_doubt found }
{
    let Some(breach) = found else {
        return Ok(());
    };
    Err(Doubt::Breach(breach))
}

/// Tests the cuts against the rows, if n shares can be filled and the plan has the given cost.
fn check_cuts(
    side: OrderSide,
    rows: &[UsableRow],
    most: u64,
    cost: Money,
    cuts: &[Cut],
) -> Result<(), Doubt>
    requires rows { length rows.now ≤ MOST_ROWS }
    requires cuts { length cuts.now ≤ MOST_ROWS }
    requires most { most ≤ MOST_SHARES }
    ensures { result_err result ≡ cuts_doubt side rows.now most cost cuts.now }
{
    refuse_if(some_lacks_cut(rows, cuts), Doubt::CutMissing)?;
    refuse_if(
        some_is_extra(rows, cuts) || is_out_of_order(side, cuts),
        Doubt::CutExtra,
    )?;
    refuse_if(some_is_wrong_kind(side, rows, most, cuts), Doubt::WrongKind)?;
    refuse_if(some_is_out_of_range(cuts), Doubt::MarginalRange)?;
    match first_failing(side, rows, most, cost, cuts) {
        Some(cut) => Err(Doubt::BoundFails { cut }),
        None => Ok(()),
    }
}

/// Returns a doubt as an error, if the doubt holds.
fn refuse_if(holds: bool, doubt: Doubt) -> Result<(), Doubt>
    ensures { result_err result ≡ when holds doubt }
{
    if holds { Err(doubt) } else { Ok(()) }
}
