//! Reading a plan and its certificate from numbers: `specs/PlanSaid`.
ghost use Rattle.std.specs.Prelude.{◌≡◌, ◌≤◌, [], map, length, true, Ok, Err, MatchResult, OnErr};
ghost use Rattle.std.specs.List.{list_all};
ghost use Rattle.nms_calls.specs.PlanNumbers.{cost_said};
ghost use Rattle.nms_calls.specs.PlanSaid.{cut_said, is_cut, is_leg, is_there, kind_said, leg_said, plan_said};

use crate::call_fault::CallFault;
use crate::plan_numbers::{NmsCut, NmsLeg, NmsPlan};
use arrayvec::ArrayVec;
use nms_quote::{Certificate, Cut, CutKind, Leg, Order, Part, Plan, Roster};
use nms_units::{Money, Price, Shares};

/// The plan and the certificate that numbers give, for an order and a roster. If they give none, the fault with the least code.
pub(crate) fn plan_of(
    roster: &Roster,
    order: &Order,
    numbers: &NmsPlan,
) -> Result<(Plan, Certificate), CallFault>
    ensures { MatchResult result (λ made. plan_said (length roster.now.parts) order.now numbers.now ≡ Ok (record { plan = made.0; cuts = made.1.items }))
        (λ fault. plan_said (length roster.now.parts) order.now numbers.now ≡ Err fault) }
{
    let mut plan = no_plan(order);
    let mut cuts = ArrayVec::new_in(());
    read_into(roster, order, numbers, &mut plan, &mut cuts)?;
    Ok((plan, cuts))
}

/// An empty plan for an order, which fills nothing. The caller reads another plan into its place.
pub(crate) fn no_plan(order: &Order) -> Plan
    ensures filled { result.filled ≡ 0 }
    ensures legs { result.legs.items ≡ [] }
{
    Plan {
        version: 0,
        order: *order,
        legs: ArrayVec::new_in(()),
        filled: 0,
        cost: Money::new(0),
    }
}

/// Reads a plan and its certificate from numbers, and replaces those that the caller gave. If there is a fault, the caller's stay
/// as they were.
pub(crate) fn read_into(
    roster: &Roster,
    order: &Order,
    numbers: &NmsPlan,
    plan: &mut Plan,
    certificate: &mut Certificate,
) -> Result<(), CallFault>
    ensures read { MatchResult result (λ _. plan_said (length roster.now.parts) order.now numbers.now ≡ Ok (record { plan = plan.new; cuts = certificate.new.items }))
        (λ fault. plan_said (length roster.now.parts) order.now numbers.now ≡ Err fault) }
    ensures unwritten { OnErr result ((plan.new ≡ plan.old) × (certificate.new ≡ certificate.old)) }
{
    let (legs, cuts) = (numbers.legs as usize, numbers.cuts as usize);
    if legs > 32 || cuts > 32 {
        return Err(CallFault::Range);
    }
    let (legs, cuts) = (&numbers.leg[..legs], &numbers.cut[..cuts]);
    if !are_legs(legs) || !are_cuts(cuts) {
        return Err(CallFault::Range);
    }
    if !are_there(roster, legs) {
        return Err(CallFault::NoParticipant);
    }
    plan.version = numbers.version;
    plan.order = *order;
    read_legs(roster.parts(), legs, &mut plan.legs);
    plan.filled = numbers.filled;
    plan.cost = cost_of(numbers);
    read_cuts(cuts, certificate);
    Ok(())
}

/// The cost that its upper and its lower half form, in nanodollars.
fn cost_of(numbers: &NmsPlan) -> Money
    ensures { result ≡ cost_said numbers.now.cost_high numbers.now.cost_low }
{
    Money::new(i128::from(numbers.cost_high) * (1 << 64) + i128::from(numbers.cost_low))
}

fn are_legs(legs: &[NmsLeg]) -> bool
    ensures { result ≡ list_all is_leg legs.now }
{
    legs.iter().all(|leg| is_leg(leg))
}

fn are_cuts(cuts: &[NmsCut]) -> bool
    ensures { result ≡ list_all is_cut cuts.now }
{
    cuts.iter().all(|cut| is_cut(cut))
}

/// Whether each leg goes to a participant of the roster.
fn are_there(roster: &Roster, legs: &[NmsLeg]) -> bool
    ensures { result ≡ list_all (is_there (length roster.now.parts)) legs.now }
{
    let parts = roster.parts();
    legs.iter().all(|leg| usize::from(leg.part) < parts)
}

fn is_leg(leg: &NmsLeg) -> bool
    ensures { result ≡ is_leg leg.now }
{
    Price::new(leg.price).is_some() && Shares::new(leg.shares).is_some()
}

fn is_cut(cut: &NmsCut) -> bool
    ensures { result ≡ is_cut cut.now }
{
    Price::new(cut.price).is_some() && cut.kind <= 2
}

/// Replaces the legs of a plan by those that numbers give, on a roster of n participants.
fn read_legs(parts: usize, numbers: &[NmsLeg], legs: &mut ArrayVec<Leg, 32>)
    requires parts { parts ≤ 32 }
    requires few { length numbers.now ≤ 32 }
    requires range { list_all is_leg numbers.now ≡ true }
    requires there { list_all (is_there parts) numbers.now ≡ true }
    ensures { legs.new.items ≡ map leg_said numbers.now }
{
    legs.clear();
    for leg in numbers {
        legs.push(leg_of(parts, leg));
    }
}

/// Replaces the cuts of a certificate by those that numbers give.
fn read_cuts(numbers: &[NmsCut], cuts: &mut Certificate)
    requires few { length numbers.now ≤ 32 }
    requires range { list_all is_cut numbers.now ≡ true }
    ensures { cuts.new.items ≡ map cut_said numbers.now }
{
    // The prover has to see the type of a cut before a cut is pushed, so the code mentions it.
    let _seen: Option<CutKind> = None;
    cuts.clear();
    for cut in numbers {
        cuts.push(cut_of(cut));
    }
}

/// The leg that numbers give, on a roster of n participants.
fn leg_of(parts: usize, leg: &NmsLeg) -> Leg
    requires parts { parts ≤ 32 }
    requires range { is_leg leg.now ≡ true }
    requires there { is_there parts leg.now ≡ true }
    ensures { result ≡ leg_said leg.now }
{
    Leg {
        part: Part::new(leg.part).unwrap(),
        price: Price::new(leg.price).unwrap(),
        shares: Shares::new(leg.shares).unwrap(),
    }
}

/// The cut that numbers give.
fn cut_of(cut: &NmsCut) -> Cut
    requires { is_cut cut.now ≡ true }
    ensures { result ≡ cut_said cut.now }
{
    Cut {
        price: Price::new(cut.price).unwrap(),
        kind: kind_of(cut),
    }
}

/// The kind of a cut that a number means: 0 too much, 1 too little, 2 a marginal.
fn kind_of(cut: &NmsCut) -> CutKind
    ensures { result ≡ kind_said cut.now.kind cut.now.marginal }
{
    match cut.kind {
        0 => CutKind::TooMuch,
        1 => CutKind::TooLittle,
        _ => CutKind::Marginal(Money::new(i128::from(cut.marginal))),
    }
}
