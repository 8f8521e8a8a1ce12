//! Which leg of a plan has a breach (specs/LegPlaces).
ghost use Rattle.std.specs.Prelude.{ℕ, ◌≡◌, ◌==◌, ◌+◌, ◌<◌, ◌≤◌, drop, false, length, position, slice_index_or, true};
ghost use Rattle.std.specs.List.{list_any};
ghost use Rattle.nms_quote.specs.declared.plan.Leg.{Leg};
ghost use Rattle.nms_rules.specs.Breach.{goes_to, has_repeat};
ghost use Rattle.nms_verdicts.specs.LegPlaces.{IsBrokenLeg, breaks};

use super::leg_place::{LegPlace, leg_place};
use nms_board::{MOST_ROWS, View};
use nms_quote::{Leg, Order, Part};
use nms_rules::{Breach, has_other_price, is_better, is_over_size, lacks_quotation};

/// The first leg that has the given breach, without regard to other legs.
pub(crate) fn first_broken(view: &View, order: &Order, legs: &[Leg], breach: Breach) -> LegPlace
    requires some { list_any (breaks view.now order.now breach) legs.now ≡ true }
    requires few { length legs.now ≤ MOST_ROWS }
    ensures { IsBrokenLeg view.now order.now legs.now breach result }
{
    match broken_in(view, order, legs, breach) {
        Some(number) => leg_place(view, order.side, legs, number),
        None => unreachable!(),
    }
}

/// The number of the first leg, counted from 0, that has the given breach without regard to other legs.
fn broken_in(view: &View, order: &Order, legs: &[Leg], breach: Breach) -> Option<usize>
    ensures { result ≡ position (breaks view.now order.now breach) legs.now }
{
    legs.iter().position(|leg| breaks(view, order, breach, leg))
}

/// Whether a leg has the given breach, without regard to other legs.
fn breaks(view: &View, order: &Order, breach: Breach, leg: &Leg) -> bool
    ensures { result ≡ breaks view.now order.now breach leg.now }
{
    match breach {
        Breach::NoSuchQuotation => lacks_quotation(view, order, leg),
        Breach::PriceDiffers => has_other_price(view, order, leg),
        Breach::ZeroLeg => leg.shares.get() == 0,
        Breach::OverSize => is_over_size(view, order, leg),
        Breach::BeyondLimit => is_better(order.side, order.limit, leg.price),
        Breach::OtherVersion
        | Breach::OtherOrder
        | Breach::Repeated
        | Breach::OverAsked
        | Breach::TradedThrough { .. }
        | Breach::FilledWrong
        | Breach::CostWrong => false,
    }
}

/// The numbers of the first leg with a later one to the same participant, and of the first such later one.
pub(crate) fn repeat_in(legs: &[Leg]) -> (usize, usize)
    requires { has_repeat legs.now ≡ true }
    ensures before { result.0 < result.1 }
    ensures within { result.1 < length legs.now }
    ensures same { (d : Leg) → (slice_index_or legs.now result.0 d).part ≡ (slice_index_or legs.now result.1 d).part }
    ensures first { (k : ℕ) → k < result.0 → (d : Leg) → goes_to (slice_index_or legs.now k d).part (drop (k + 1) legs.now) ≡ false }
    ensures next { (d : Leg) (k : ℕ) → result.0 < k → k < result.1 → ((slice_index_or legs.now k d).part == (slice_index_or legs.now result.0 d).part) ≡ false }
{
    for first in 0..legs.len() {
        let part = legs[first].part;
        match first_to(&legs[first + 1..], part) {
            Some(at) => return (first, first + 1 + at),
            None => {}
        }
    }
    unreachable!()
}

/// The number of the first leg to a participant.
fn first_to(legs: &[Leg], part: Part) -> Option<usize>
    ensures { result ≡ position (λ leg. leg.part == part) legs.now }
{
    legs.iter().position(|leg| leg.part == part)
}
