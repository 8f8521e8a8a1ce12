//! Reading a plan and its certificate from text: `specs/PlanReading`.
ghost use Rattle.std.specs.Prelude.{◌⊎◌, ◌≡◌, ◌≢◌, ◌++◌, ◌∷◌, ◌<◌, [], ℕ, List, Some, None, true, false, All, IfOk, IfSome, OnErr, Ok, Err, length};
ghost use Rattle.csv.specs.Records.{fields_of};
ghost use Rattle.nms_lines.specs.Layout.{Record};
ghost use Rattle.nms_lines.specs.Left.{AreLeft};
ghost use Rattle.nms_lines.specs.Named.{AreBelow};
ghost use Rattle.nms_lines.specs.PlanReading.{behind_legs, cuts_in, is_few, legs_of, plan_in, said_by};
ghost use Rattle.nms_lines.specs.PlanRecords.{head_in};
ghost use Rattle.nms_lines.specs.Records.{AreAllRecords};

use crate::plan_record::{PlanHead, cut_in, head_in, is_end, leg_in};
use crate::plan_text_fault::PlanTextFault;
use crate::record_fault::RecordFault;
use crate::record_reading::{open_bare_records, open_records, read_next};
use arrayvec::ArrayVec;
use csv::{ByteRecord, Reader};
use nms_quote::{Certificate, Leg, Plan, Roster};
use std::alloc::Global;
use std::io::Read;

/// Reads a plan and its certificate from text of exactly this layout: the record of the plan, at most 32 legs, at most 32 cuts,
/// and an end. Nothing may follow. Names are of the roster. Prices, share counts and money are as their types read them. A
/// version is 1 to 8 digits, and the order is of at least one share. A tenth field of the plan's record holds the participants
/// that the order names, as an order's eighth field does.
///
/// `write_plan` can write what is read on the same roster. The plan need not be lawful: `nms_rules` and `nms_cert` judge that.
/// Any other text is `BadPlanText`. The error is `NoMemory` if out of memory.
pub fn read_plan(
    alloc: Global,
    text: &[u8],
    roster: &Roster,
) -> Result<(Plan, Certificate), PlanTextFault>
    ensures read { (records : List Record) → AreAllRecords (Some text.now) records
        → IfOk result (λ made. plan_in roster.now records ≡ Some (said_by made.0 made.1.items)) }
    ensures parts { IfOk result (λ made. All (λ leg. leg.part < length roster.now.parts) made.0.legs.items) }
    ensures sym { IfOk result (λ made. made.0.order.sym < length roster.now.syms) }
    ensures self_help { IfOk result (λ made. AreBelow (length roster.now.parts) made.0.order.self_help) }
    ensures refused { (records : List Record) → AreAllRecords (Some text.now) records
        → result ≡ Err PlanTextFault.BadPlanText → plan_in roster.now records ≡ None }
    ensures faults { result ≢ Err PlanTextFault.WriteFault }
{
    // A reader contains its buffer, and each place that holds a reader takes that much of the stack. So this reader is never
    // moved, because a program with little memory has no stack beyond its first 128 kB.
    let mut reader = open_records(alloc, text);
    let mut row = ByteRecord::new(alloc);
    read_records(&mut reader, &mut row, roster)
}

/// Reads a plan and its certificate as `read_plan` does, but through a buffer for records that the caller gives. It takes no
/// memory if the buffer has room for the text's bytes and one more field.
pub fn read_plan_by(
    alloc: Global,
    row: &mut ByteRecord,
    text: &[u8],
    roster: &Roster,
) -> Result<(Plan, Certificate), PlanTextFault>
    ensures read { (records : List Record) → AreAllRecords (Some text.now) records
        → IfOk result (λ made. plan_in roster.now records ≡ Some (said_by made.0 made.1.items)) }
    ensures parts { IfOk result (λ made. All (λ leg. leg.part < length roster.now.parts) made.0.legs.items) }
    ensures sym { IfOk result (λ made. made.0.order.sym < length roster.now.syms) }
    ensures self_help { IfOk result (λ made. AreBelow (length roster.now.parts) made.0.order.self_help) }
    ensures refused { (records : List Record) → AreAllRecords (Some text.now) records
        → result ≡ Err PlanTextFault.BadPlanText → plan_in roster.now records ≡ None }
    ensures faults { result ≢ Err PlanTextFault.WriteFault }
{
    match open_bare_records(alloc, text) {
        Ok(mut reader) => read_records(&mut reader, row, roster),
        Err(_) => Err(PlanTextFault::NoMemory),
    }
}

/// Reads a plan and its certificate from the remaining records.
fn read_records<R: Read>(
    reader: &mut Reader<R>,
    row: &mut ByteRecord,
    roster: &Roster,
) -> Result<(Plan, Certificate), PlanTextFault>
    ensures read { (left : List Record) → AreLeft R.remaining reader.old left
        → IfOk result (λ made. plan_in roster.now left ≡ Some (said_by made.0 made.1.items)) }
    ensures parts { IfOk result (λ made. All (λ leg. leg.part < length roster.now.parts) made.0.legs.items) }
    ensures sym { IfOk result (λ made. made.0.order.sym < length roster.now.syms) }
    ensures self_help { IfOk result (λ made. AreBelow (length roster.now.parts) made.0.order.self_help) }
    ensures refused { (left : List Record) → AreLeft R.remaining reader.old left
        → result ≡ Err PlanTextFault.BadPlanText → plan_in roster.now left ≡ None }
    ensures faults { result ≢ Err PlanTextFault.WriteFault }
{
    let head = read_head(reader, row, roster)?;
    let legs = read_legs(reader, row, roster)?;
    let certificate = read_cuts(reader, row)?;
    let plan = Plan {
        version: head.version,
        order: head.order,
        legs,
        filled: head.filled,
        cost: head.cost,
    };
    Ok((plan, certificate))
}

/// Reads the record of the plan.
fn read_head<R: Read>(
    reader: &mut Reader<R>,
    row: &mut ByteRecord,
    roster: &Roster,
) -> Result<PlanHead, PlanTextFault>
    ensures read { (left : List Record) → AreLeft R.remaining reader.old left
        → IfOk result (λ head. (fields : Record) × (more : List Record) × (left ≡ fields ∷ more) × (head_in roster.now fields ≡ Some head) × AreLeft R.remaining reader.new more) }
    ensures there { IfOk result (λ head. head.order.sym < length roster.now.syms) }
    ensures named { IfOk result (λ head. AreBelow (length roster.now.parts) head.order.self_help) }
    ensures refused { (left : List Record) → AreLeft R.remaining reader.old left
        → result ≡ Err PlanTextFault.BadPlanText → plan_in roster.now left ≡ None }
    ensures faults { result ≢ Err PlanTextFault.WriteFault }
{
    need_row(reader, row)?;
    head_in(row, roster).ok().ok_or(PlanTextFault::BadPlanText)
}

/// Reads the legs of a plan. The buffer for records then has the record after the last leg.
fn read_legs<R: Read>(
    reader: &mut Reader<R>,
    row: &mut ByteRecord,
    roster: &Roster,
) -> Result<ArrayVec<Leg, 32>, PlanTextFault>
    ensures read { (left : List Record) → AreLeft R.remaining reader.old left
        → IfOk result (λ legs. (more : List Record) × (legs.items ≡ legs_of roster.now left) × (behind_legs roster.now left ≡ fields_of row.new ∷ more) × AreLeft R.remaining reader.new more) }
    ensures there { IfOk result (λ legs. All (λ leg. leg.part < length roster.now.parts) legs.items) }
    ensures refused { (left : List Record) → AreLeft R.remaining reader.old left
        → result ≡ Err PlanTextFault.BadPlanText → (behind_legs roster.now left ≡ []) ⊎ (is_few (legs_of roster.now left) ≡ false) }
    ensures faults { result ≢ Err PlanTextFault.WriteFault }
{
    let mut legs = ArrayVec::new_in(());
    // There is one turn for each leg, and one for the record after them.
    for _ in 0_usize..33 {
        need_row(reader, row)?;
        let Some(leg) = leg_in(row, roster).ok() else {
            return Ok(legs);
        };
        if legs.try_push(leg).is_err() {
            return Err(PlanTextFault::BadPlanText);
        }
    }
    Err(PlanTextFault::BadPlanText)
}

/// Reads the cuts of a certificate, and the end of the text. The buffer for records already has the first of these records.
fn read_cuts<R: Read>(
    reader: &mut Reader<R>,
    row: &mut ByteRecord,
) -> Result<Certificate, PlanTextFault>
    ensures read { (left : List Record) → AreLeft R.remaining reader.old left
        → IfOk result (λ cuts. cuts_in (fields_of row.old ∷ left) ≡ Some cuts.items) }
    ensures refused { (left : List Record) → AreLeft R.remaining reader.old left
        → result ≡ Err PlanTextFault.BadPlanText → IfSome (cuts_in (fields_of row.old ∷ left)) (λ cuts. is_few cuts ≡ false) }
    ensures faults { result ≢ Err PlanTextFault.WriteFault }
{
    let mut cuts = ArrayVec::new_in(());
    // There is one turn for each cut, and one for the end.
    for _ in 0_usize..33 {
        if is_end(row) {
            need_end(reader, row)?;
            return Ok(cuts);
        }
        let Some(cut) = cut_in(row).ok() else {
            return Err(PlanTextFault::BadPlanText);
        };
        if cuts.try_push(cut).is_err() {
            return Err(PlanTextFault::BadPlanText);
        }
        need_row(reader, row)?;
    }
    Err(PlanTextFault::BadPlanText)
}

/// Reads the next record of a plan's text. If there is none, the text is refused as `BadPlanText`.
fn need_row<R: Read>(reader: &mut Reader<R>, row: &mut ByteRecord) -> Result<(), PlanTextFault>
    ensures read { (left : List Record) → AreLeft R.remaining reader.old left
        → result ≡ Ok tt → (more : List Record) × (left ≡ fields_of row.new ∷ more) × AreLeft R.remaining reader.new more }
    ensures refused { (left : List Record) → AreLeft R.remaining reader.old left → result ≡ Err PlanTextFault.BadPlanText → left ≡ [] }
    ensures faults { result ≢ Err PlanTextFault.WriteFault }
{
    match read_next(reader, row) {
        Ok(true) => Ok(()),
        Ok(false) => Err(PlanTextFault::BadPlanText),
        // The bytes of the text are in memory already, so this read fails only if there is no memory for the record.
        Err(RecordFault::Failed | RecordFault::NoMemory) => Err(PlanTextFault::NoMemory),
    }
}

/// Checks that no record follows the end of a plan's text. A text that goes on is refused as `BadPlanText`.
fn need_end<R: Read>(reader: &mut Reader<R>, row: &mut ByteRecord) -> Result<(), PlanTextFault>
    ensures read { (left : List Record) → AreLeft R.remaining reader.old left → result ≡ Ok tt → left ≡ [] }
    ensures refused { (left : List Record) → AreLeft R.remaining reader.old left
        → result ≡ Err PlanTextFault.BadPlanText → 0 < length left }
    ensures faults { result ≢ Err PlanTextFault.WriteFault }
{
    match read_next(reader, row) {
        Ok(true) => Err(PlanTextFault::BadPlanText),
        Ok(false) => Ok(()),
        // The bytes of the text are in memory already, so this read fails only if there is no memory for the record.
        Err(RecordFault::Failed | RecordFault::NoMemory) => Err(PlanTextFault::NoMemory),
    }
}
