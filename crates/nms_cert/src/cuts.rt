//! Tests of a certificate's cuts: `specs/Doubts`.
ghost use Rattle.std.specs.Prelude.{◌≡◌, ◌≤◌, false, length};
ghost use Rattle.nms_cert.specs.Doubts.{fails_bound, first_failing, has_cut, has_row, is_not_better, is_out_of_order, is_out_of_range, is_wrong_kind, some_is_extra, some_is_out_of_range, some_is_wrong_kind, some_lacks_cut};
ghost use Rattle.nms_rules.specs.Usable.{rank_of};

use nms_board::MOST_ROWS;
use nms_quote::{Cut, CutKind, OrderSide};
use nms_rules::{Rank, UsableRow, is_better, least_cost, pool, swept};
use nms_units::{MOST_SHARES, Money, Price};

/// The most that a marginal may be, in nanodollars. The least is its negative.
const MOST_MARGINAL: i128 = 1_000_000_000_000_000_000;

/// Whether some cut is at a price.
pub fn has_cut(cuts: &[Cut], price: Price) -> bool
    ensures { result ≡ has_cut cuts.now price }
{
    cuts.iter().any(|cut| cut.price == price)
}

/// Whether some row is at a price.
pub fn has_row(rows: &[UsableRow], price: Price) -> bool
    ensures { result ≡ has_row rows.now price }
{
    rows.iter().any(|row| row.price == price)
}

/// Whether some price of a usable row has no cut.
#[tactic(auto, unfolding(crate::specs::Doubts::some_lacks_cut))]
pub(crate) fn some_lacks_cut(rows: &[UsableRow], cuts: &[Cut]) -> bool
    ensures { result ≡ some_lacks_cut rows.now cuts.now }
{
    rows.iter().any(|row| !has_cut(cuts, row.price))
}

/// Whether some cut is at a price that no usable row has.
#[tactic(auto, unfolding(crate::specs::Doubts::some_is_extra))]
pub(crate) fn some_is_extra(rows: &[UsableRow], cuts: &[Cut]) -> bool
    ensures { result ≡ some_is_extra rows.now cuts.now }
{
    cuts.iter().any(|cut| !has_row(rows, cut.price))
}

/// Whether the given price is not better than that of some cut.
fn is_not_better(side: OrderSide, price: Price, cuts: &[Cut]) -> bool
    ensures { result ≡ is_not_better side price cuts.now }
{
    cuts.iter().any(|cut| !is_better(side, price, cut.price))
}

/// Whether any cut is not at a better price than one after it.
#[tactic(auto, unfolding(crate::specs::Doubts::is_out_of_order))]
pub(crate) fn is_out_of_order(side: OrderSide, cuts: &[Cut]) -> bool
    ensures { result ≡ is_out_of_order side cuts.now }
{
    let mut later = cuts;
    while let Some((cut, more)) = later.split_first() {
        if is_not_better(side, cut.price, more) {
            return true;
        }
        later = more;
    }
    false
}

/// Whether a cut's kind is wrong, by the shares that must be swept at its price and the shares that may be traded with.
pub fn is_wrong_kind(rows: &[UsableRow], most: u64, cutoff: Rank, kind: CutKind) -> bool
    requires { length rows.now ≤ MOST_ROWS }
    ensures { result ≡ is_wrong_kind rows.now most cutoff kind }
{
    let swept = swept(rows, cutoff);
    match kind {
        CutKind::TooMuch => swept <= most,
        CutKind::TooLittle => most <= swept + pool(rows, cutoff),
        CutKind::Marginal(_) => most < swept,
    }
}

/// Whether some cut's kind is wrong, by the shares that must be swept at its price and the shares that may be traded with.
#[tactic(auto, unfolding(crate::specs::Doubts::some_is_wrong_kind))]
pub(crate) fn some_is_wrong_kind(
    side: OrderSide,
    rows: &[UsableRow],
    most: u64,
    cuts: &[Cut],
) -> bool
    requires { length rows.now ≤ MOST_ROWS }
    ensures { result ≡ some_is_wrong_kind side rows.now most cuts.now }
{
    cuts.iter().any(|cut| is_wrong_kind(rows, most, Rank::of(side, cut.price), cut.kind))
}

/// Whether a cut has a marginal that is out of its range.
pub fn is_out_of_range(kind: CutKind) -> bool
    ensures { result ≡ is_out_of_range kind }
{
    match kind {
        CutKind::TooMuch | CutKind::TooLittle => false,
        CutKind::Marginal(marginal) => {
            marginal < Money::new(-MOST_MARGINAL) || Money::new(MOST_MARGINAL) < marginal
        }
    }
}

/// Whether some cut has a marginal that is out of its range.
#[tactic(auto, unfolding(crate::specs::Doubts::some_is_out_of_range))]
pub(crate) fn some_is_out_of_range(cuts: &[Cut]) -> bool
    ensures { result ≡ some_is_out_of_range cuts.now }
{
    cuts.iter().any(|cut| is_out_of_range(cut.kind))
}

/// Whether a cut has a marginal that leaves room for a cheaper plan at the cut's price.
pub(crate) fn fails_bound(
    rows: &[UsableRow],
    most: u64,
    cost: Money,
    cutoff: Rank,
    kind: CutKind,
) -> bool
    requires rows { length rows.now ≤ MOST_ROWS }
    requires most { most ≤ MOST_SHARES }
    requires range { is_out_of_range kind ≡ false }
    ensures { result ≡ fails_bound rows.now most cost cutoff kind }
{
    match kind {
        CutKind::TooMuch | CutKind::TooLittle => false,
        CutKind::Marginal(marginal) => least_cost(rows, most, cutoff, marginal) < cost,
    }
}

/// The first cut whose marginal leaves room for a cheaper plan at the cut's price, counted from 0.
pub(crate) fn first_failing(
    side: OrderSide,
    rows: &[UsableRow],
    most: u64,
    cost: Money,
    cuts: &[Cut],
) -> Option<u8>
    requires rows { length rows.now ≤ MOST_ROWS }
    requires cuts { length cuts.now ≤ MOST_ROWS }
    requires most { most ≤ MOST_SHARES }
    requires range { some_is_out_of_range cuts.now ≡ false }
    ensures { result ≡ first_failing side rows.now most cost cuts.now }
{
    let mut at = 0;
    for cut in cuts {
        if fails_bound(rows, most, cost, Rank::of(side, cut.price), cut.kind) {
            return Some(at);
        }
        at += 1;
    }
    None
}
