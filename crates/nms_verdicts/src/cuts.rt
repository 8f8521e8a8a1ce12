//! The cuts of a certificate, each with its bound next to the plan's cost.
ghost use Rattle.std.specs.Prelude.{◌≤◌, length};

use crate::finding::marginal_of;
use crate::telling::tell;
use nms_board::{MOST_ROWS, View};
use nms_fees::FeeBook;
use nms_quote::{Cut, CutKind, Order, Plan};
use nms_rules::{Rank, UsableRow, is_better, is_swept, least_cost, pool, swept, usable_rows};
use nms_show::{Form, Item, ShowFault};
use nms_units::{MOST_SHARES, Money};
use std::alloc::Global;
use std::io::Write;

/// The largest marginal of a cut, in nanodollars a share. The smallest is its negative.
const MOST_MARGINAL: i128 = 1_000_000_000_000_000_000;

/// Reports the claim of each cut of a certificate. The order can fill `most` shares.
pub(crate) fn tell_cuts<W: Write>(
    alloc: Global,
    answers: &mut W,
    form: Form,
    view: &View,
    fees: &FeeBook,
    plan: &Plan,
    most: u64,
    cuts: &[Cut],
) -> Result<(), ShowFault>
    requires most { most ≤ MOST_SHARES }
{
    let mut number: u64 = 0;
    for cut in cuts {
        number += 1;
        tell_reached(alloc, answers, form, view, fees, plan, most, number, cut)?;
    }
    Ok(())
}

/// Reports a cut's claim about the quotations at its price or better that the order may trade with. For a cut beyond the limit,
/// protected quotations at better prices also count, because they would have to be swept.
fn tell_reached<W: Write>(
    alloc: Global,
    answers: &mut W,
    form: Form,
    view: &View,
    fees: &FeeBook,
    plan: &Plan,
    most: u64,
    number: u64,
    cut: &Cut,
) -> Result<(), ShowFault>
    requires most { most ≤ MOST_SHARES }
{
    let (side, limit) = (plan.order.side, plan.order.limit);
    let cutoff = Rank::of(side, cut.price);
    let reaching = Order {
        limit: cut.price,
        ..plan.order
    };
    let mut rows = usable_rows(view, &reaching, fees);
    rows.retain(|row| is_swept(row, cutoff) || !is_better(side, limit, row.price));
    tell_cut(
        alloc,
        answers,
        form,
        plan,
        rows.as_slice(),
        most,
        number,
        cut,
    )
}

/// Reports a cut's claim: the shares to be swept or taken at its price, and the least cost that its marginal implies.
fn tell_cut<W: Write>(
    alloc: Global,
    answers: &mut W,
    form: Form,
    plan: &Plan,
    rows: &[UsableRow],
    most: u64,
    number: u64,
    cut: &Cut,
) -> Result<(), ShowFault>
    requires rows { length rows.now ≤ MOST_ROWS }
    requires most { most ≤ MOST_SHARES }
{
    let cutoff = Rank::of(plan.order.side, cut.price);
    let (first, more) = (swept(rows, cutoff), pool(rows, cutoff));
    let bound = bound_of(rows, most, cutoff, cut.kind);
    let holds = match cut.kind {
        CutKind::TooMuch => first > most,
        CutKind::TooLittle => first + more < most,
        CutKind::Marginal(_) => bound.is_some_and(|bound| plan.cost <= bound),
    };
    tell(
        alloc,
        answers,
        form,
        &[],
        &[
            "Cut |cut|, worst price |price|, |kind|: |swept| shares at better prices must be swept first, and |pool| more may be taken.",
            words_of(cut.kind, holds, bound.is_some()),
        ],
        &[
            ("what", Item::Text("cut")),
            ("cut", Item::Number(number)),
            ("price", Item::of_price(cut.price)),
            ("kind", kind_of(cut.kind)),
            ("marginal", marginal_of(cut.kind)),
            ("swept", Item::Number(first)),
            ("pool", Item::Number(more)),
            ("most", Item::Number(most)),
            ("bound", bound_item(bound)),
            ("cost", Item::of_money(plan.cost)),
            ("holds", Item::Flag(holds)),
        ],
    )
}

/// The least cost that a cut's marginal implies for a plan with the cut's price as its worst price. It is absent if the marginal
/// is out of range, or if more shares must be swept than can be filled.
fn bound_of(rows: &[UsableRow], most: u64, cutoff: Rank, kind: CutKind) -> Option<Money>
    requires rows { length rows.now ≤ MOST_ROWS }
    requires most { most ≤ MOST_SHARES }
{
    match kind {
        CutKind::Marginal(marginal) if swept(rows, cutoff) <= most => {
            let number = marginal.get();
            if number < -MOST_MARGINAL || number > MOST_MARGINAL {
                return None;
            }
            Some(least_cost(rows, most, cutoff, marginal))
        }
        _ => None,
    }
}

/// A least cost as an item of a report, which is absent if the cut has none.
fn bound_item(bound: Option<Money>) -> Item<'static> {
    match bound {
        Some(bound) => Item::of_money(bound),
        None => Item::Absent,
    }
}

/// The name of a cut's kind.
fn kind_of(kind: CutKind) -> Item<'static> {
    match kind {
        CutKind::TooMuch => Item::Text("TOOMUCH"),
        CutKind::TooLittle => Item::Text("TOOLITTLE"),
        CutKind::Marginal(_) => Item::Text("MARGINAL"),
    }
}

/// The sentence that says what follows from a cut, or that its claim does not hold.
fn words_of(kind: CutKind, holds: bool, has_bound: bool) -> &'static str {
    match (kind, holds, has_bound) {
        (CutKind::TooMuch, true, _) => {
            "  That is more than can be filled, |most|: no lawful plan that fills as many has this worst price."
        }
        (CutKind::TooLittle, true, _) => {
            "  Together that is less than can be filled, |most|: no lawful plan that fills as many has this worst price."
        }
        (CutKind::Marginal(_), true, _) => {
            "  Each lawful plan with this worst price that fills as many costs at least |bound|; this plan costs |cost|."
        }
        (_, false, true) => {
            "  It does not hold: by it a plan may cost as little as |bound|; this plan costs |cost|."
        }
        (_, false, false) => "  What it says does not hold.",
    }
}
