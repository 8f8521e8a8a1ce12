//! Writing a plan and its certificate as text: `specs/PlanText`.
ghost use Rattle.std.specs.Prelude.{◌≡◌, ◌≢◌, ◌+◌, ◌<◌, ◌≤◌, ◌++◌, ◌∷◌, [], All, codes, drop, length, map, IfOk, OnOk, Err};
ghost use Rattle.std.specs.Fmt.{decimal};
ghost use Rattle.std.specs.Io.KnownBytes.{Appends};
ghost use Rattle.nms_units.specs.Money.{money_text};
ghost use Rattle.nms_units.specs.Price.{price_text};
ghost use Rattle.nms_quote.specs.Roster.{part_text, symbol_text};
ghost use Rattle.nms_lines.specs.Named.{AreBelow, named_fields, names_text};
ghost use Rattle.nms_lines.specs.PlanText.{cut_record, end_record, flag_text, kind_fields, leg_record, plan_fields, plan_record, plan_text, side_letter, terms_fields};
ghost use Rattle.nms_lines.specs.Text.{later_fields, text_of};
ghost use Rattle.nms_lines.specs.Written.{AppendsPart};

use crate::field_before::{money_before, number_before, price_before, text_before, word_before};
use crate::field_writing::end_record;
use crate::plan_text_fault::PlanTextFault;
use crate::text_writing::write_text;
use nms_quote::{
    Certificate, Cut, CutKind, Leg, Order, OrderSide, Part, PartSet, Plan, Roster, Sym,
};
use std::alloc::{AllocError, Global};
use std::io::Write;

/// Writes a plan and its certificate as text: a record of the plan, one for each leg, one for each cut, and an end. Prices have
/// four decimals, money nine.
///
/// `NoMemory` if out of memory; then nothing was written. `WriteFault` if the writer failed; then only a prefix of the text was
/// written. The writer is not flushed.
pub fn write_plan<W: Write>(
    alloc: Global,
    plan: &Plan,
    certificate: &Certificate,
    roster: &Roster,
    out: &mut W,
) -> Result<(), PlanTextFault>
    requires parts { All (λ leg. leg.part < length roster.now.parts) plan.now.legs.items }
    requires sym { plan.now.order.sym < length roster.now.syms }
    requires self_help { AreBelow (length roster.now.parts) plan.now.order.self_help }
    ensures written { OnOk result (Appends (W.contents out.old) (W.contents out.new) (plan_text roster.now plan.now certificate.now.items)) }
    ensures unwritten { result ≡ Err PlanTextFault.NoMemory → W.contents out.new ≡ W.contents out.old }
    ensures cut { result ≡ Err PlanTextFault.WriteFault → AppendsPart (W.contents out.old) (W.contents out.new) (plan_text roster.now plan.now certificate.now.items) }
    ensures faults { result ≢ Err PlanTextFault.BadPlanText }
{
    let Ok(text) = text_of_plan(alloc, plan, certificate, roster) else {
        return Err(PlanTextFault::NoMemory);
    };
    match write_text(out, text.as_slice()) {
        Ok(()) => Ok(()),
        Err(_) => Err(PlanTextFault::WriteFault),
    }
}

/// The text of a plan and its certificate.
fn text_of_plan(
    alloc: Global,
    plan: &Plan,
    certificate: &Certificate,
    roster: &Roster,
) -> Result<Vec<u8>, AllocError>
    ensures { IfOk result (λ text. text.items ≡ plan_text roster.now plan.now certificate.now.items) }
{
    let mut text = Vec::new(alloc);
    append_plan(&mut text, roster, plan, certificate)?;
    Ok(text)
}

/// Appends a plan and its certificate. A symbol or a participant that is not on the roster has no name, and its field is empty.
pub fn append_plan(
    out: &mut Vec<u8>,
    roster: &Roster,
    plan: &Plan,
    certificate: &Certificate,
) -> Result<(), AllocError>
    ensures { OnOk result (out.new.items ≡ out.old.items ++ plan_text roster.now plan.now certificate.now.items) }
{
    append_head(out, roster, plan)?;
    append_legs(out, roster, plan.legs.as_slice())?;
    append_cuts(out, certificate.as_slice())?;
    append_end(out)
}

/// Appends the record of a plan.
fn append_head(out: &mut Vec<u8>, roster: &Roster, plan: &Plan) -> Result<(), AllocError>
    ensures { OnOk result (out.new.items ≡ out.old.items ++ text_of (plan_record roster.now plan.now ∷ [])) }
{
    push_plan(out, roster, plan)?;
    push_named(out, roster, &plan.order)?;
    end_record(out)
}

/// Appends the fields of a plan up to its cost.
fn push_plan(out: &mut Vec<u8>, roster: &Roster, plan: &Plan) -> Result<(), AllocError>
    ensures { OnOk result (out.new.items ≡ out.old.items
        ++ (codes "PLAN" ++ later_fields (plan_fields (symbol_text roster.now plan.now.order.sym) plan.now))) }
{
    let mut buf = [0; 160];
    let start = plan_before(&mut buf, 160, name_of_sym(roster, plan.order.sym), plan);
    out.extend_from_slice(&buf[start..])
}

/// Writes the fields of a plan for the symbol with that name, at most 158 bytes, so that they end at a place. Returns the place
/// at which they start.
fn plan_before(buf: &mut [u8], end: usize, name: &str, plan: &Plan) -> usize
    requires room { 158 ≤ end }
    requires within { end ≤ length buf.old }
    requires name { length name.now ≤ 8 }
    ensures within { result ≤ end }
    ensures written { drop result buf.new ≡ codes "PLAN" ++ later_fields (plan_fields name.now plan.now) ++ drop end buf.old }
{
    let end = money_before(buf, end, plan.cost);
    let end = number_before(buf, end, u64::from(plan.filled));
    let end = order_before(buf, end, name, &plan.order);
    let end = number_before(buf, end, plan.version);
    word_before(buf, end, "PLAN")
}

/// Writes the fields of an order in the symbol with that name, which take at most 60 bytes, so that they end at a place.
/// Returns the place at which they start.
fn order_before(buf: &mut [u8], end: usize, name: &str, order: &Order) -> usize
    requires room { 60 ≤ end }
    requires within { end ≤ length buf.old }
    requires name { length name.now ≤ 8 }
    ensures room { end ≤ result + 60 }
    ensures within { result ≤ end }
    ensures written { drop result buf.new ≡ later_fields (terms_fields name.now order.now) ++ drop end buf.old }
{
    let end = text_before(buf, end, flag_of(order.manual));
    let end = price_before(buf, end, order.limit);
    let end = number_before(buf, end, u64::from(order.shares.get()));
    let end = text_before(buf, end, name);
    text_before(buf, end, letter_of(order.side))
}

/// Appends the participants that an order names, in one more field, if there are any.
fn push_named(out: &mut Vec<u8>, roster: &Roster, order: &Order) -> Result<(), AllocError>
    ensures { OnOk result (out.new.items ≡ out.old.items ++ later_fields (named_fields roster.now order.now.self_help)) }
{
    if order.self_help.is_empty() {
        return Ok(());
    }
    out.push(b',')?;
    push_names(out, roster, order.self_help)
}

/// Appends the names of a set's participants by place, with a `+` between two.
fn push_names(out: &mut Vec<u8>, roster: &Roster, set: PartSet) -> Result<(), AllocError>
    ensures { OnOk result (out.new.items ≡ out.old.items ++ names_text roster.now set) }
{
    let mut between: &[u8] = b"";
    for place in 0..roster.parts() {
        let part = Part::new(place as u8).unwrap();
        if set.has(part) {
            out.extend_from_slice(between)?;
            out.extend_from_slice(name_of_part(roster, part).as_bytes())?;
            between = b"+";
        }
    }
    Ok(())
}

/// Appends a record for each leg.
fn append_legs(out: &mut Vec<u8>, roster: &Roster, legs: &[Leg]) -> Result<(), AllocError>
    ensures { OnOk result (out.new.items ≡ out.old.items ++ text_of (map (leg_record roster.now) legs.now)) }
{
    for leg in legs {
        append_leg(out, roster, leg)?;
    }
    Ok(())
}

/// Appends the record of a leg.
fn append_leg(out: &mut Vec<u8>, roster: &Roster, leg: &Leg) -> Result<(), AllocError>
    ensures { OnOk result (out.new.items ≡ out.old.items ++ text_of (leg_record roster.now leg.now ∷ [])) }
{
    let mut buf = [0; 56];
    buf[55] = b'\n';
    let start = leg_before(&mut buf, 55, name_of_part(roster, leg.part), leg);
    out.extend_from_slice(&buf[start..])
}

/// Writes the fields of a leg to a participant with that name, which take at most 55 bytes, so that they end at a place.
/// Returns the place at which they start.
fn leg_before(buf: &mut [u8], end: usize, name: &str, leg: &Leg) -> usize
    requires room { 55 ≤ end }
    requires within { end ≤ length buf.old }
    requires name { length name.now ≤ 4 }
    ensures within { result ≤ end }
    ensures written { drop result buf.new ≡ codes "LEG" ++ later_fields (name.now ∷ price_text leg.now.price ∷ decimal leg.now.shares ∷ []) ++ drop end buf.old }
{
    let end = number_before(buf, end, u64::from(leg.shares.get()));
    let end = price_before(buf, end, leg.price);
    let end = text_before(buf, end, name);
    word_before(buf, end, "LEG")
}

/// Appends a record for each cut.
fn append_cuts(out: &mut Vec<u8>, cuts: &[Cut]) -> Result<(), AllocError>
    ensures { OnOk result (out.new.items ≡ out.old.items ++ text_of (map cut_record cuts.now)) }
{
    for cut in cuts {
        append_cut(out, cut)?;
    }
    Ok(())
}

/// Appends the record of a cut.
fn append_cut(out: &mut Vec<u8>, cut: &Cut) -> Result<(), AllocError>
    ensures { OnOk result (out.new.items ≡ out.old.items ++ text_of (cut_record cut.now ∷ [])) }
{
    let mut buf = [0; 96];
    buf[95] = b'\n';
    let start = cut_before(&mut buf, 95, cut);
    out.extend_from_slice(&buf[start..])
}

/// Writes the fields of a cut, which take at most 90 bytes, so that they end at a place. Returns the place at which they start.
fn cut_before(buf: &mut [u8], end: usize, cut: &Cut) -> usize
    requires room { 90 ≤ end }
    requires within { end ≤ length buf.old }
    ensures within { result ≤ end }
    ensures written { drop result buf.new ≡ codes "CUT" ++ later_fields (price_text cut.now.price ∷ kind_fields cut.now.kind) ++ drop end buf.old }
{
    let end = kind_before(buf, end, cut.kind);
    let end = price_before(buf, end, cut.price);
    word_before(buf, end, "CUT")
}

/// Writes the claim of a cut, which takes at most 61 bytes, so that it ends at a place. Returns the place at which it starts.
fn kind_before(buf: &mut [u8], end: usize, kind: CutKind) -> usize
    requires room { 61 ≤ end }
    requires within { end ≤ length buf.old }
    ensures start { end ≤ result + 61 }
    ensures before { result ≤ end }
    ensures written { drop result buf.new ≡ later_fields (kind_fields kind) ++ drop end buf.old }
{
    match kind {
        CutKind::TooMuch => word_before(buf, end, ",TOOMUCH,"),
        CutKind::TooLittle => word_before(buf, end, ",TOOLITTLE,"),
        CutKind::Marginal(money) => {
            let start = money_before(buf, end, money);
            text_before(buf, start, "MARGINAL")
        }
    }
}

/// Appends the end of a plan.
fn append_end(out: &mut Vec<u8>) -> Result<(), AllocError>
    ensures { OnOk result (out.new.items ≡ out.old.items ++ text_of (end_record ∷ [])) }
{
    out.extend_from_slice(b"END\n")
}

/// The name of a symbol; empty if it is not on the roster.
pub fn name_of_sym(roster: &Roster, sym: Sym) -> &str
    ensures name { result.now ≡ symbol_text roster.now sym }
    ensures short { length result.now ≤ 8 }
{
    if roster.has_sym(sym) {
        roster.sym_name(sym)
    } else {
        ""
    }
}

/// The name of a participant; empty if it is not on the roster.
pub fn name_of_part(roster: &Roster, part: Part) -> &str
    ensures name { result.now ≡ part_text roster.now part }
    ensures short { length result.now ≤ 4 }
{
    if usize::from(part.get()) < roster.parts() {
        roster.part_name(part)
    } else {
        ""
    }
}

/// The letter of an order's side.
fn letter_of(side: OrderSide) -> &'static str
    ensures letter { result.now ≡ side_letter side }
    ensures short { length result.now ≡ 1 }
{
    match side {
        OrderSide::Buy => "B",
        OrderSide::Sell => "S",
    }
}

/// The flag of an order that may trade with manual quotations.
fn flag_of(manual: bool) -> &'static str
    ensures flag { result.now ≡ flag_text manual }
    ensures short { length result.now ≤ 1 }
{
    if manual { "M" } else { "" }
}
