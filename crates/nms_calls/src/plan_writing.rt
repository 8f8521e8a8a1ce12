//! A plan and its certificate written as numbers: `specs/PlanNumbers`.
ghost use Rattle.std.specs.Prelude.{◌≡◌, ◌<◌, ◌≤◌, ◌≤ℤ◌, ◌^◌, ℕ, All, Some, map, pos, neg_ℤ, slice_get, take, unsigned_abs};
ghost use Rattle.std.specs.Int.{int_div_euclid, int_rem_euclid};
ghost use Rattle.nms_quote.specs.Terms.{Terms};
ghost use Rattle.nms_sweep.specs.Choice.{IsInRange};
ghost use Rattle.nms_sweep.specs.Planned.{plan_of};
ghost use Rattle.nms_calls.specs.PlanNumbers.{AreCuts, AreLegs, AreNumbersOf, cut_numbers, leg_numbers, no_cut, no_leg};
ghost use Rattle.nms_calls.specs.PlanSaid.{AreWritten, cut_said, cuts_of, leg_said, legs_of};

use crate::plan_numbers::{NmsCut, NmsLeg, NmsPlan};
use nms_quote::{Certificate, Cut, CutKind, Leg, Plan};
use nms_sweep::{Outcome, PlanRoom};
use nms_units::Money;

/// Writes a plan and its certificate, whose marginals are between -10^18 and 10^18.
pub(crate) fn put_plan(plan: &Plan, certificate: &Certificate, out: &mut NmsPlan)
    requires { All (λ cut. IsInRange cut.kind) certificate.now.items }
    ensures { AreNumbersOf plan.now certificate.now.items out.new }
{
    let (legs, cuts) = (plan.legs.as_slice(), certificate.as_slice());
    out.version = plan.version;
    out.cost_low = cost_low(plan.cost);
    out.cost_high = cost_high(plan.cost);
    out.filled = plan.filled;
    out.legs = legs.len() as u32;
    out.cuts = cuts.len() as u32;
    out.spare = 0;
    put_legs(legs, &mut out.leg);
    put_cuts(cuts, &mut out.cut);
}

/// Writes legs to the first places of an array, and empty legs to the other places.
fn put_legs(legs: &[Leg], places: &mut [NmsLeg; 32])
    ensures { AreLegs places.new legs.now }
{
    let count = legs.len().min(32);
    for place in 0..count {
        places[place] = leg_numbers(&legs[place]);
    }
    // The free places get their own loop, so that it becomes one fill of memory.
    for place in count..32 {
        places[place] = NmsLeg::NONE;
    }
}

/// Writes cuts to the first places of an array, and empty cuts to the other places.
fn put_cuts(cuts: &[Cut], places: &mut [NmsCut; 32])
    requires { All (λ cut. IsInRange cut.kind) cuts.now }
    ensures { AreCuts places.new cuts.now }
{
    let count = cuts.len().min(32);
    for place in 0..count {
        places[place] = cut_numbers(&cuts[place]);
    }
    for place in count..32 {
        places[place] = NmsCut::NONE;
    }
}

/// The planner writes each leg and each cut directly to its place among the numbers, so no copy is made.
impl PlanRoom for NmsPlan {
    ghost use Rattle.std.specs.Prelude.{map};
    ghost use Rattle.nms_calls.specs.PlanSaid.{AreWritten, cut_said, cuts_of, leg_said, legs_of};

    ghost legs = { λ out. map leg_said (legs_of out) };

    ghost cuts = { λ out. map cut_said (cuts_of out) };

    ghost IsFilled = { AreWritten };

    fn clear(&mut self) {
        self.legs = 0;
        self.cuts = 0;
    }

    #[inline(always)]
    fn put_cut(&mut self, cut: Cut) {
        self.cut[self.cuts as usize] = cut_numbers(&cut);
        self.cuts += 1;
    }

    #[inline(always)]
    fn put_leg(&mut self, leg: Leg) {
        self.leg[self.legs as usize] = leg_numbers(&leg);
        self.legs += 1;
    }
}

/// Completes a plan whose legs and cuts are written already: it writes the version, the cost and the shares, and 0 to the free
/// places.
pub(crate) fn put_outcome(outcome: Outcome, out: &mut NmsPlan)
    requires { AreWritten out.old }
    ensures { (order : Terms) → AreNumbersOf (plan_of order (map leg_said (legs_of out.old)) outcome) (map cut_said (cuts_of out.old)) out.new }
{
    out.version = outcome.version;
    out.cost_low = cost_low(outcome.cost);
    out.cost_high = cost_high(outcome.cost);
    out.filled = outcome.filled;
    out.spare = 0;
    clear_legs(out.legs as usize, &mut out.leg);
    clear_cuts(out.cuts as usize, &mut out.cut);
}

/// Writes empty legs from place n to the last place.
fn clear_legs(count: usize, places: &mut [NmsLeg; 32])
    requires { count ≤ 32 }
    ensures before { take count places.new ≡ take count places.old }
    ensures behind { (place : ℕ) → count ≤ place → place < 32 → slice_get places.new place ≡ Some no_leg }
{
    // A loop that writes one thing becomes one fill of memory.
    for place in count..32 {
        places[place] = NmsLeg::NONE;
    }
}

/// Writes empty cuts from place n to the last place.
fn clear_cuts(count: usize, places: &mut [NmsCut; 32])
    requires { count ≤ 32 }
    ensures before { take count places.new ≡ take count places.old }
    ensures behind { (place : ℕ) → count ≤ place → place < 32 → slice_get places.new place ≡ Some no_cut }
{
    for place in count..32 {
        places[place] = NmsCut::NONE;
    }
}

/// The numbers of a leg.
fn leg_numbers(leg: &Leg) -> NmsLeg
    ensures { result ≡ leg_numbers leg.now }
{
    NmsLeg {
        price: leg.price.get(),
        shares: leg.shares.get(),
        part: leg.part.get(),
        spare_a: 0,
        spare_b: 0,
    }
}

/// The numbers of a cut.
fn cut_numbers(cut: &Cut) -> NmsCut
    requires { IsInRange cut.now.kind }
    ensures { result ≡ cut_numbers cut.now }
{
    let (kind, marginal) = match cut.kind {
        CutKind::TooMuch => (0, 0),
        CutKind::TooLittle => (1, 0),
        CutKind::Marginal(marginal) => (2, marginal_number(marginal)),
    };
    NmsCut {
        price: cut.price.get(),
        marginal,
        kind,
        spare: 0,
    }
}

/// The number of a marginal, which is between -10^18 and 10^18.
fn marginal_number(marginal: Money) -> i64
    requires low { neg_ℤ (pos (10 ^ 18)) ≤ℤ marginal }
    requires high { marginal ≤ℤ pos (10 ^ 18) }
    ensures { result ≡ marginal }
{
    marginal.get() as i64
}

/// The upper half of a cost: the amount divided by 2^64, rounded down.
fn cost_high(cost: Money) -> i64
    ensures { result ≡ int_div_euclid cost (pos (2 ^ 64)) }
{
    cost.get().div_euclid(1 << 64) as i64
}

/// The lower half of a cost: what is left after division by 2^64.
fn cost_low(cost: Money) -> u64
    ensures { result ≡ unsigned_abs (int_rem_euclid cost (pos (2 ^ 64))) }
{
    cost.get().rem_euclid(1 << 64) as u64
}
