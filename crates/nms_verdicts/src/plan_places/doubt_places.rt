//! The place of a doubt in a plan or its certificate (specs/DoubtPlaces).
ghost use Rattle.std.specs.Prelude.{◌≡◌, ◌==◌, ◌≤◌, ◌||◌, Some, false, length, not, position, true};
ghost use Rattle.std.specs.List.{find};
ghost use Rattle.nms_rules.specs.Assignment.{fillable};
ghost use Rattle.nms_rules.specs.Usable.{rank_of, usable};
ghost use Rattle.nms_cert.specs.Doubts.{cuts_doubt, doubt_of, first_failing, is_out_of_order, is_out_of_range, some_is_extra, some_is_out_of_range};
ghost use Rattle.nms_cert.specs.Doubts.{has_cut, is_wrong_kind, some_is_wrong_kind, some_lacks_cut};
ghost use Rattle.nms_verdicts.specs.declared.plan_places.doubt_places.DoubtPlace.TheVariants as DoubtPlace;
ghost use Rattle.nms_verdicts.specs.DoubtPlaces.{AreSums, IsBound, IsBoundPlace, IsCutPlace, IsCutsPlace, IsDisorder, IsDoubtPlace, IsExtraPlace, IsKindPlace, IsMarginal, IsShort};

use super::breach_places::{BreachPlace, breach_place};
use super::cut_place::{CutPlace, CutSums, cut_place, sums_at};
use super::cut_tests::{
    cut_without_row, out_of_order_in, out_of_range_in, row_without_cut, wrong_kind_in,
};
use nms_board::{MOST_ROWS, View};
use nms_cert::Doubt;
use nms_fee_book::FeeBook;
use nms_quote::{Certificate, Cut, CutKind, Order, OrderSide, Plan};
use nms_rules::{Rank, UsableRow, fillable, least_cost, usable_rows};
use nms_units::{MOST_SHARES, Money};

/// The place of a doubt in a plan or its certificate, what was found there, and what was expected.
#[derive(Drop)]
pub(crate) enum DoubtPlace {
    /// K1: the place of the plan's breach.
    Breach(BreachPlace),
    /// K2: the shares that the plan fills, and the most that can be filled.
    NotMost {
        /// The shares that the plan fills.
        found: u32,
        /// The most that can be filled.
        expected: u64,
    },
    /// K3: the first usable quotation, by participant place, whose price has no cut.
    CutMissing(UsableRow),
    /// K4: the first cut at a price of no usable quotation.
    CutExtra(CutPlace),
    /// K4: a cut, and the first later one whose price it does not beat. Each cut is at a usable price.
    OutOfOrder {
        /// The first cut with such a later one.
        cut: CutPlace,
        /// The later cut.
        later: CutPlace,
    },
    /// K5: the first cut that contradicts the sums at its price.
    WrongKind {
        /// The cut.
        cut: CutPlace,
        /// The shares that must be swept and may be taken at the cut's price.
        sums: CutSums,
    },
    /// K6: the first cut whose marginal is out of its range, which is -10^18 to 10^18 nanodollars.
    MarginalRange(CutPlace),
    /// K7: the first cut by whose marginal the plan might cost less.
    BoundFails {
        /// The cut.
        cut: CutPlace,
        /// The least cost of a plan that the cut's marginal implies, in nanodollars.
        bound: Money,
        /// The cost of the judged plan, in nanodollars. It exceeds the least cost.
        cost: Money,
    },
}

/// Finds the place of the doubt that the certificate checker reports for a plan. The place is in the plan or its certificate,
/// with the found and the expected value. This takes no memory, and is this product's own rule.
pub(crate) fn doubt_place(
    view: &View,
    order: &Order,
    plan: &Plan,
    fees: &FeeBook,
    certificate: &Certificate,
    doubt: Doubt,
) -> DoubtPlace
    requires { doubt_of view.now order.now fees.now plan.now certificate.now.items ≡ Some doubt }
    ensures { IsDoubtPlace view.now order.now fees.now plan.now certificate.now.items doubt result }
{
    match doubt {
        Doubt::Breach(breach) => {
            DoubtPlace::Breach(breach_place(view, order, plan, fees, breach))
        }
        Doubt::NotMost => short_place(view, order, plan, fees),
        Doubt::CutMissing => on_cuts(view, order, plan, fees, certificate, doubt),
        Doubt::CutExtra => on_cuts(view, order, plan, fees, certificate, doubt),
        Doubt::WrongKind => on_cuts(view, order, plan, fees, certificate, doubt),
        Doubt::MarginalRange => on_cuts(view, order, plan, fees, certificate, doubt),
        Doubt::BoundFails { .. } => on_cuts(view, order, plan, fees, certificate, doubt),
    }
}

/// Finds the place of a doubt about a certificate's cuts, from the quotations that the order may trade with.
fn on_cuts(
    view: &View,
    order: &Order,
    plan: &Plan,
    fees: &FeeBook,
    certificate: &Certificate,
    doubt: Doubt,
) -> DoubtPlace
    requires { cuts_doubt order.now.side (usable view.now order.now fees.now) (fillable (usable view.now order.now fees.now) order.now.shares) plan.now.cost certificate.now.items ≡ Some doubt }
    ensures { IsCutsPlace order.now.side (usable view.now order.now fees.now) (fillable (usable view.now order.now fees.now) order.now.shares) plan.now.cost certificate.now.items doubt result }
{
    let rows = usable_rows(view, order, fees);
    let most = fillable(rows.as_slice(), order.shares);
    let cuts = certificate.as_slice();
    cuts_place(order.side, rows.as_slice(), most, plan.cost, cuts, doubt)
}

/// The number of shares that a plan fills, and the number that it could fill.
fn short_place(view: &View, order: &Order, plan: &Plan, fees: &FeeBook) -> DoubtPlace
    requires { not (plan.now.filled == fillable (usable view.now order.now fees.now) order.now.shares) ≡ true }
    ensures { IsShort view.now order.now fees.now plan.now result }
{
    let rows = usable_rows(view, order, fees);
    DoubtPlace::NotMost {
        found: plan.filled,
        expected: fillable(rows.as_slice(), order.shares),
    }
}

/// Finds the place of a doubt about a certificate's cuts, among the given usable quotations.
fn cuts_place(
    side: OrderSide,
    rows: &[UsableRow],
    most: u64,
    cost: Money,
    cuts: &[Cut],
    doubt: Doubt,
) -> DoubtPlace
    requires doubt { cuts_doubt side rows.now most cost cuts.now ≡ Some doubt }
    requires rows { length rows.now ≤ MOST_ROWS }
    requires cuts { length cuts.now ≤ MOST_ROWS }
    requires most { most ≤ MOST_SHARES }
    ensures { IsCutsPlace side rows.now most cost cuts.now doubt result }
{
    match doubt {
        Doubt::CutMissing => DoubtPlace::CutMissing(missing_row(rows, cuts)),
        Doubt::CutExtra => extra_place(side, rows, cuts),
        Doubt::WrongKind => kind_place(side, rows, most, cuts),
        Doubt::MarginalRange => DoubtPlace::MarginalRange(ranging_cut(cuts)),
        Doubt::BoundFails { cut } => bound_place(side, rows, most, cost, cuts, cut),
        Doubt::Breach(_) | Doubt::NotMost => unreachable!(),
    }
}

/// Finds the first cut at a price of no usable quotation. If there is none, finds two cuts that are out of order.
fn extra_place(side: OrderSide, rows: &[UsableRow], cuts: &[Cut]) -> DoubtPlace
    requires extra { (some_is_extra rows.now cuts.now || is_out_of_order side cuts.now) ≡ true }
    requires few { length cuts.now ≤ MOST_ROWS }
    ensures { IsExtraPlace side rows.now cuts.now result }
{
    match cut_without_row(rows, cuts) {
        Some(number) => DoubtPlace::CutExtra(cut_place(cuts, number)),
        None => disordered(side, cuts),
    }
}

/// A cut, and the first later one whose price it does not beat.
fn disordered(side: OrderSide, cuts: &[Cut]) -> DoubtPlace
    requires order { is_out_of_order side cuts.now ≡ true }
    requires few { length cuts.now ≤ MOST_ROWS }
    ensures { IsDisorder side cuts.now result }
{
    let (cut, later) = out_of_order_in(side, cuts);
    DoubtPlace::OutOfOrder {
        cut: cut_place(cuts, cut),
        later: cut_place(cuts, later),
    }
}

/// The first usable quotation whose price has no cut.
fn missing_row(rows: &[UsableRow], cuts: &[Cut]) -> UsableRow
    requires { some_lacks_cut rows.now cuts.now ≡ true }
    ensures first { find (λ row. not (has_cut cuts.now row.price)) rows.now ≡ Some result }
    ensures lacks { has_cut cuts.now result.price ≡ false }
{
    match row_without_cut(rows, cuts) {
        Some(row) => row,
        None => unreachable!(),
    }
}

/// The first cut whose claim contradicts the shares to be swept or taken at its price.
fn wrong_cut(side: OrderSide, rows: &[UsableRow], most: u64, cuts: &[Cut]) -> CutPlace
    requires wrong { some_is_wrong_kind side rows.now most cuts.now ≡ true }
    requires rows { length rows.now ≤ MOST_ROWS }
    requires cuts { length cuts.now ≤ MOST_ROWS }
    ensures own { IsCutPlace cuts.now result }
    ensures wrong { is_wrong_kind rows.now most (rank_of side result.cut.price) result.cut.kind ≡ true }
    ensures first { position (λ cut. is_wrong_kind rows.now most (rank_of side cut.price) cut.kind) cuts.now ≡ Some result.number }
{
    match wrong_kind_in(side, rows, most, cuts) {
        Some(number) => cut_place(cuts, number),
        None => unreachable!(),
    }
}

/// The first cut whose marginal is out of its range.
fn ranging_cut(cuts: &[Cut]) -> CutPlace
    requires some { some_is_out_of_range cuts.now ≡ true }
    requires few { length cuts.now ≤ MOST_ROWS }
    ensures own { IsCutPlace cuts.now result }
    ensures out { is_out_of_range result.cut.kind ≡ true }
    ensures first { position (λ cut. is_out_of_range cut.kind) cuts.now ≡ Some result.number }
{
    match out_of_range_in(cuts) {
        Some(number) => cut_place(cuts, number),
        None => unreachable!(),
    }
}

/// The first cut whose claim contradicts the shares to be swept or taken at its price, with these numbers of shares.
fn kind_place(side: OrderSide, rows: &[UsableRow], most: u64, cuts: &[Cut]) -> DoubtPlace
    requires wrong { some_is_wrong_kind side rows.now most cuts.now ≡ true }
    requires rows { length rows.now ≤ MOST_ROWS }
    requires cuts { length cuts.now ≤ MOST_ROWS }
    ensures { IsKindPlace side rows.now most cuts.now result }
{
    let cut = wrong_cut(side, rows, most, cuts);
    let sums = sums_of(side, rows, most, &cut);
    DoubtPlace::WrongKind { cut, sums }
}

/// The numbers of shares that must be swept and may be taken at a cut's price.
fn sums_of(side: OrderSide, rows: &[UsableRow], most: u64, at: &CutPlace) -> CutSums
    requires { length rows.now ≤ MOST_ROWS }
    ensures { AreSums rows.now most (rank_of side at.now.cut.price) result }
{
    sums_at(rows, most, Rank::of(side, at.cut.price))
}

/// Describes a cut by whose marginal a plan might cost less than the judged plan.
fn bound_place(
    side: OrderSide,
    rows: &[UsableRow],
    most: u64,
    cost: Money,
    cuts: &[Cut],
    number: u8,
) -> DoubtPlace
    requires first { first_failing side rows.now most cost cuts.now ≡ Some number }
    requires range { some_is_out_of_range cuts.now ≡ false }
    requires rows { length rows.now ≤ MOST_ROWS }
    requires cuts { length cuts.now ≤ MOST_ROWS }
    requires most { most ≤ MOST_SHARES }
    ensures { IsBoundPlace side rows.now most cost cuts.now number result }
{
    let cut = cut_place(cuts, usize::from(number));
    let bound = bound_at(side, rows, most, &cut);
    DoubtPlace::BoundFails { cut, bound, cost }
}

/// The least cost that a cut's marginal implies for a plan with the cut's price as its worst price.
fn bound_at(side: OrderSide, rows: &[UsableRow], most: u64, at: &CutPlace) -> Money
    requires marginal { IsMarginal at.now.cut.kind }
    requires range { is_out_of_range at.now.cut.kind ≡ false }
    requires rows { length rows.now ≤ MOST_ROWS }
    requires most { most ≤ MOST_SHARES }
    ensures { IsBound rows.now most (rank_of side at.now.cut.price) at.now.cut.kind result }
{
    bound_of(rows, most, Rank::of(side, at.cut.price), at.cut.kind)
}

/// The least cost that a marginal implies for a plan with the given worst price.
fn bound_of(rows: &[UsableRow], most: u64, cutoff: Rank, kind: CutKind) -> Money
    requires marginal { IsMarginal kind }
    requires range { is_out_of_range kind ≡ false }
    requires rows { length rows.now ≤ MOST_ROWS }
    requires most { most ≤ MOST_SHARES }
    ensures { IsBound rows.now most cutoff kind result }
{
    match kind {
        CutKind::Marginal(marginal) => least_cost(rows, most, cutoff, marginal),
        CutKind::TooMuch | CutKind::TooLittle => unreachable!(),
    }
}
