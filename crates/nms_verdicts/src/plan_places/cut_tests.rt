//! Which cut of a certificate has a doubt (specs/DoubtPlaces).
ghost use Rattle.std.specs.Prelude.{ℕ, ◌≡◌, ◌+◌, ◌<◌, ◌≤◌, drop, false, length, not, position, slice_index_or, true};
ghost use Rattle.std.specs.List.{find};
ghost use Rattle.nms_quote.specs.declared.certificate.Cut.{Cut};
ghost use Rattle.nms_rules.specs.Usable.{is_better, rank_of};
ghost use Rattle.nms_cert.specs.Doubts.{has_cut, has_row, is_not_better, is_out_of_order, is_out_of_range, is_wrong_kind};

use nms_board::MOST_ROWS;
use nms_cert::{has_cut, has_row, is_out_of_range, is_wrong_kind};
use nms_quote::{Cut, CutKind, OrderSide};
use nms_rules::{Rank, UsableRow, is_better};
use nms_units::{Money, Price};

/// The first usable quotation whose price has no cut.
pub(crate) fn row_without_cut(rows: &[UsableRow], cuts: &[Cut]) -> Option<UsableRow>
    ensures { result ≡ find (λ row. not (has_cut cuts.now row.price)) rows.now }
{
    rows.iter().find(|row| !has_cut(cuts, row.price)).copied()
}

/// The number of the first cut at a price of no usable quotation, counted from 0.
pub(crate) fn cut_without_row(rows: &[UsableRow], cuts: &[Cut]) -> Option<usize>
    ensures { result ≡ position (λ cut. not (has_row rows.now cut.price)) cuts.now }
{
    cuts.iter().position(|cut| !has_row(rows, cut.price))
}

/// The numbers of the first cut whose price is not better than a later one's, and of the first such later cut.
pub(crate) fn out_of_order_in(side: OrderSide, cuts: &[Cut]) -> (usize, usize)
    requires { is_out_of_order side cuts.now ≡ true }
    ensures before { result.0 < result.1 }
    ensures within { result.1 < length cuts.now }
    ensures worse { (d : Cut) → is_better side (slice_index_or cuts.now result.0 d).price (slice_index_or cuts.now result.1 d).price ≡ false }
    ensures first { (k : ℕ) → k < result.0 → (d : Cut) → is_not_better side (slice_index_or cuts.now k d).price (drop (k + 1) cuts.now) ≡ false }
    ensures next { (d : Cut) (k : ℕ) → result.0 < k → k < result.1 → is_better side (slice_index_or cuts.now result.0 d).price (slice_index_or cuts.now k d).price ≡ true }
{
    for first in 0..cuts.len() {
        let price = cuts[first].price;
        match first_not_after(side, price, &cuts[first + 1..]) {
            Some(at) => return (first, first + 1 + at),
            None => {}
        }
    }
    unreachable!()
}

/// The number of the first cut, counted from 0, whose price the given price does not beat.
fn first_not_after(side: OrderSide, price: Price, cuts: &[Cut]) -> Option<usize>
    ensures { result ≡ position (λ cut. not (is_better side price cut.price)) cuts.now }
{
    cuts.iter()
        .position(|cut| !is_better(side, price, cut.price))
}

/// The number of the first cut, counted from 0, whose claim contradicts the shares to be swept or taken at its price.
pub(crate) fn wrong_kind_in(
    side: OrderSide,
    rows: &[UsableRow],
    most: u64,
    cuts: &[Cut],
) -> Option<usize>
    requires { length rows.now ≤ MOST_ROWS }
    ensures { result ≡ position (λ cut. is_wrong_kind rows.now most (rank_of side cut.price) cut.kind) cuts.now }
{
    cuts.iter().position(|cut| is_wrong_kind(rows, most, Rank::of(side, cut.price), cut.kind))
}

/// The number of the first cut whose marginal is out of its range.
pub(crate) fn out_of_range_in(cuts: &[Cut]) -> Option<usize>
    ensures { result ≡ position (λ cut. is_out_of_range cut.kind) cuts.now }
{
    cuts.iter().position(|cut| is_out_of_range(cut.kind))
}
