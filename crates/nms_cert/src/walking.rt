//! Passing through the cuts of a certificate and the usable rows together, best price first: `specs/Walk`.
ghost use Rattle.std.specs.Prelude.{◌≡◌, ◌+◌, ◌*◌, ◌≤◌, ◌^◌, length};
ghost use Rattle.nms_rules.specs.Usable.{rank_of};
ghost use Rattle.nms_cert.specs.Walk.{are_walked, behind, is_bounded, is_done, is_right_kind, none_passed, past, protected_size, starts_at, with_row};

use crate::cuts::{fails_bound, is_out_of_range};
use nms_board::MOST_ROWS;
use nms_quote::{Cut, CutKind, OrderSide};
use nms_rules::{MOST_SIZE, Rank, UsableRow};
use nms_units::{MOST_SHARES, Money, Price};

/// How many shares are displayed by the rows that were passed so far.
#[derive(Clone, Copy)]
pub(crate) struct Passed {
    /// How many shares the passed rows display.
    pub(crate) shown: u64,
    /// How many of these shares are in protected rows, so that a sweep has to take them.
    pub(crate) swept: u64,
}

impl Passed {
    /// The sums before any row was passed.
    fn none() -> Self
        ensures { result ≡ none_passed }
    {
        Passed { shown: 0, swept: 0 }
    }
}

/// Whether the cuts are at the prices of the rows, each price once, and each cut is right. The given plan cost and the n shares
/// that can be filled decide that. The rows come best price first.
#[tactic(auto, unfolding(crate::specs::Walk::are_walked))]
pub(crate) fn are_walked(
    side: OrderSide,
    rows: &[UsableRow],
    most: u64,
    cost: Money,
    cuts: &[Cut],
) -> bool
    requires rows { length rows.now ≤ MOST_ROWS }
    requires most { most ≤ MOST_SHARES }
    ensures { result ≡ are_walked side rows.now most cost none_passed rows.now cuts.now }
{
    let mut passed = Passed::none();
    let mut later = rows;
    let mut left = cuts;
    while let Some((cut, more)) = left.split_first() {
        if !starts_at(cut.price, later) {
            return false;
        }
        let (next, behind) = pass(cut.price, passed, later);
        if !is_right_kind(most, cut.kind, passed.swept, next.shown) {
            return false;
        }
        if !is_bounded(side, rows, most, cost, cut) {
            return false;
        }
        passed = next;
        later = behind;
        left = more;
    }
    later.is_empty()
}

/// Whether the first of the rows is at a price.
fn starts_at(price: Price, rows: &[UsableRow]) -> bool
    ensures { result ≡ starts_at price rows.now }
{
    match rows.first() {
        Some(row) => row.price == price,
        None => false,
    }
}

/// The sums after the first rows that are at the given price were passed, and the rows that remain.
#[tactic(auto, unfolding(crate::specs::Walk::past, crate::specs::Walk::behind))]
fn pass<'a>(price: Price, passed: Passed, rows: &'a [UsableRow]) -> (Passed, &'a [UsableRow])
    requires shown { passed.shown + length rows.now * MOST_SIZE ≤ 2 ^ 37 }
    requires swept { passed.swept ≤ passed.shown }
    ensures passed { result.0 ≡ past price passed rows.now }
    ensures behind { result.1.now ≡ behind price rows.now }
    ensures shown { result.0.shown + length result.1.now * MOST_SIZE ≤ passed.shown + length rows.now * MOST_SIZE }
    ensures swept { result.0.swept ≤ result.0.shown }
{
    let mut passed = passed;
    let mut later = rows;
    while let Some((row, more)) = later.split_first() {
        if row.price != price {
            return (passed, later);
        }
        passed = with_row(passed, row);
        later = more;
    }
    (passed, later)
}

/// The sums after one more row was passed.
fn with_row(passed: Passed, row: &UsableRow) -> Passed
    requires shown { passed.shown ≤ 2 ^ 37 }
    requires swept { passed.swept ≤ passed.shown }
    ensures row { result ≡ with_row passed row.now }
    ensures size { row.now.size ≤ MOST_SIZE }
    ensures swept { result.swept ≤ result.shown }
{
    Passed {
        shown: passed.shown + u64::from(row.size),
        swept: passed.swept + protected_size(row),
    }
}

/// How many shares a protected row shows; 0 for a row that is not protected.
fn protected_size(row: &UsableRow) -> u64
    ensures size { result ≡ protected_size row.now }
    ensures within { result ≤ row.now.size }
    ensures most { row.now.size ≤ MOST_SIZE }
{
    let size = u64::from(row.size);
    if row.protected { size } else { 0 }
}

/// Whether a cut's kind is right, by the shares that must be swept at its price and the shares that are shown there or better.
fn is_right_kind(most: u64, kind: CutKind, swept: u64, shown: u64) -> bool
    ensures { result ≡ is_right_kind most kind swept shown }
{
    match kind {
        CutKind::TooMuch => most < swept,
        CutKind::TooLittle => shown < most,
        CutKind::Marginal(_) => swept <= most,
    }
}

/// Whether a cut's marginal, if it has one, is in its range and bounds the cost.
fn is_bounded(side: OrderSide, rows: &[UsableRow], most: u64, cost: Money, cut: &Cut) -> bool
    requires rows { length rows.now ≤ MOST_ROWS }
    requires most { most ≤ MOST_SHARES }
    ensures { result ≡ is_bounded rows.now most cost (rank_of side cut.now.price) cut.now.kind }
{
    if is_out_of_range(cut.kind) {
        return false;
    }
    !fails_bound(rows, most, cost, Rank::of(side, cut.price), cut.kind)
}
