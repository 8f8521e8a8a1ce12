//! Writing the lines of one execution as CSV: `specs/Lines`.
ghost use Rattle.std.specs.Prelude.{◌≡◌, ◌++◌, ◌∷◌, ◌<◌, [], IfOk, OnOk, codes, get_or, true, if◌then◌else◌};
ghost use Rattle.std.specs.Fmt.{decimal};
ghost use Rattle.nms_lines.specs.Text.{later_fields, text_of};
ghost use Rattle.nms_trades.specs.Sums.{all_flicker};
ghost use Rattle.nms_trades.specs.FinePrice.{fine_text};
ghost use Rattle.nms_trades.specs.Lines.{all_causes, causes_text, is_own, marks_of, next_word, other_record, quiet_record, quotation_fields};
ghost use Rattle.nms_trades.specs.Lines.{records_of_row, refusal_record, row_record, row_records, standing_word};
ghost use Rattle.nms_trades.specs.Lines.{through_record, through_records};

use crate::cause::{CAUSES, Cause};
use crate::execution::Execution;
use crate::execution_file::Refusal;
use crate::finding::Finding;
use crate::millionths::push_millionths;
use crate::money_through::{Sums, difference, is_helped};
use crate::standing::Standing;
use nms_board::Row;
use nms_lines::{end_record, name_of_part, push_number, push_price, push_text, word_of_side};
use nms_quote::{Part, Roster, Side};
use std::alloc::AllocError;

/// Appends the line of a refused record.
pub(crate) fn append_refusal(out: &mut Vec<u8>, refusal: &Refusal) -> Result<(), AllocError>
    ensures { OnOk result (out.new.items ≡ out.old.items ++ text_of (refusal_record refusal.now ∷ [])) }
{
    out.extend_from_slice(b"REFUSED")?;
    push_number(out, refusal.number)?;
    push_number(out, refusal.fault.column())?;
    push_text(out, refusal.fault.code())?;
    end_record(out)
}

/// Appends that an execution traded through nothing, because it is clean or its symbol had not been quoted.
pub(crate) fn append_quiet(
    out: &mut Vec<u8>,
    execution: &Execution,
    standing: Standing,
) -> Result<(), AllocError>
    ensures { OnOk result (out.new.items ≡ out.old.items ++ text_of (quiet_record standing execution.now ∷ [])) }
{
    append_head(out, execution, standing)?;
    end_record(out)
}

/// Appends that another shard judges an execution.
pub(crate) fn append_other(out: &mut Vec<u8>, execution: &Execution) -> Result<(), AllocError>
    ensures { OnOk result (out.new.items ≡ out.old.items ++ text_of (other_record execution.now ∷ [])) }
{
    out.extend_from_slice(b"OTHER")?;
    out.push(b',')?;
    out.extend_from_slice(execution.name.as_slice())?;
    end_record(out)
}

/// Appends that an execution traded through, perhaps only on some versions of its window. The rows that it traded through on
/// its own version follow, except those that self-help takes out.
pub(crate) fn append_through(
    out: &mut Vec<u8>,
    roster: &Roster,
    execution: &Execution,
    finding: &Finding,
    sums: &Sums,
) -> Result<(), AllocError>
    ensures { OnOk result (out.new.items ≡ out.old.items ++ text_of (through_records roster.now execution.now finding.now sums.now)) }
{
    append_found(out, execution, finding, sums)?;
    append_rows(out, roster, execution, finding)
}

/// Appends the first line of an execution that traded through, without the rows that it traded through.
fn append_found(
    out: &mut Vec<u8>,
    execution: &Execution,
    finding: &Finding,
    sums: &Sums,
) -> Result<(), AllocError>
    ensures { OnOk result (out.new.items ≡ out.old.items ++ text_of (through_record execution.now finding.now sums.now ∷ [])) }
{
    append_head(out, execution, finding.standing)?;
    append_sums(out, sums)?;
    out.push(b',')?;
    append_causes(out, execution, finding.crossed, sums)?;
    end_record(out)
}

/// Appends the number of rows that self-help leaves, the greatest difference from the execution's price, and the shares traded
/// through.
fn append_sums(out: &mut Vec<u8>, sums: &Sums) -> Result<(), AllocError>
    ensures { OnOk result (out.new.items ≡ out.old.items
        ++ (44 ∷ decimal sums.now.count ++ (44 ∷ fine_text sums.now.worst ++ 44 ∷ decimal sums.now.shares))) }
{
    push_number(out, sums.count)?;
    push_millionths(out, sums.worst)?;
    push_number(out, u64::from(sums.shares))
}

/// Appends the standing of an execution, its name and its version.
fn append_head(
    out: &mut Vec<u8>,
    execution: &Execution,
    standing: Standing,
) -> Result<(), AllocError>
    ensures { OnOk result (out.new.items ≡ out.old.items
        ++ (standing_word standing ++ 44 ∷ (execution.now.name.items ++ 44 ∷ decimal execution.now.version))) }
{
    out.extend_from_slice(word_of_standing(standing).as_bytes())?;
    out.push(b',')?;
    out.extend_from_slice(execution.name.as_slice())?;
    push_number(out, execution.version)
}

/// Appends the causes that apply, joined by `+`, or `NONE`.
pub(crate) fn append_causes(
    out: &mut Vec<u8>,
    execution: &Execution,
    crossed: bool,
    sums: &Sums,
) -> Result<(), AllocError>
    ensures { OnOk result (out.new.items ≡ out.old.items
        ++ causes_text execution.now.claims crossed sums.now.helped (all_flicker sums.now)) }
{
    let flickering = sums.is_flickering();
    let mut some = false;
    for place in 0..CAUSES {
        let cause = cause_at(place);
        let applies = cause.applies(&execution.claims, crossed, sums.helped, flickering);
        some = append_cause(out, some, cause, applies)?;
    }
    if !some {
        out.extend_from_slice(b"NONE")?;
    }
    Ok(())
}

/// The cause at this place in the order of all causes, counted from 0.
fn cause_at(place: usize) -> Cause
    requires { place < 13 }
    ensures { result ≡ get_or all_causes place result }
{
    Cause::ALL[place]
}

/// Appends a cause if it applies, after a plus if another cause precedes it. Returns whether any cause has been appended so
/// far.
fn append_cause(
    out: &mut Vec<u8>,
    some: bool,
    cause: Cause,
    applies: bool,
) -> Result<bool, AllocError>
    ensures text { OnOk result (out.new.items ≡ out.old.items ++ next_word some applies cause) }
    ensures some { IfOk result (λ it. it ≡ (if applies then true else some)) }
{
    if !applies {
        return Ok(some);
    }
    if some {
        out.push(b'+')?;
    }
    out.extend_from_slice(cause.word().as_bytes())?;
    Ok(true)
}

/// Appends the rows that self-help does not take out.
fn append_rows(
    out: &mut Vec<u8>,
    roster: &Roster,
    execution: &Execution,
    finding: &Finding,
) -> Result<(), AllocError>
    ensures { OnOk result (out.new.items ≡ out.old.items
        ++ text_of (row_records roster.now execution.now finding.now 0 finding.now.passed.items)) }
{
    for place in 0..finding.passed.len() {
        let (side, row) = &finding.passed[place];
        append_left(
            out,
            roster,
            execution,
            *side,
            row,
            finding.is_flickering(place),
        )?;
    }
    Ok(())
}

/// Appends a row that was traded through, if self-help does not take it out.
fn append_left(
    out: &mut Vec<u8>,
    roster: &Roster,
    execution: &Execution,
    side: Side,
    row: &Row,
    flickers: bool,
) -> Result<(), AllocError>
    ensures { OnOk result (out.new.items ≡ out.old.items ++ text_of (records_of_row roster.now execution.now side row.now flickers)) }
{
    if is_helped(execution, row) {
        return Ok(());
    }
    append_row(out, roster, execution, side, row, flickers)
}

/// Appends a row that was traded through.
fn append_row(
    out: &mut Vec<u8>,
    roster: &Roster,
    execution: &Execution,
    side: Side,
    row: &Row,
    flickers: bool,
) -> Result<(), AllocError>
    ensures { OnOk result (out.new.items ≡ out.old.items ++ text_of (row_record roster.now execution.now side row.now flickers ∷ [])) }
{
    append_quotation(out, roster, side, row)?;
    push_millionths(out, difference(row, execution.millionths))?;
    push_text(out, marks_of(is_own(&execution.part, row.part), flickers))?;
    end_record(out)
}

/// Appends the first fields of a row: the side, the participant, the price, the displayed shares and the receipt of the
/// quotation.
fn append_quotation(
    out: &mut Vec<u8>,
    roster: &Roster,
    side: Side,
    row: &Row,
) -> Result<(), AllocError>
    ensures { OnOk result (out.new.items ≡ out.old.items ++ (codes "ROW" ++ later_fields (quotation_fields roster.now side row.now))) }
{
    out.extend_from_slice(b"ROW")?;
    push_text(out, word_of_side(side))?;
    push_text(out, name_of_part(roster, row.part))?;
    push_price(out, row.price)?;
    push_number(out, u64::from(row.size))?;
    push_number(out, row.receipt)
}

/// The word that names an execution's standing, such as `THROUGH`.
pub(crate) fn word_of_standing(standing: Standing) -> &'static str
    ensures { result.now ≡ standing_word standing }
{
    match standing {
        Standing::Clean => "CLEAN",
        Standing::Unquoted => "NOQUOTE",
        Standing::Perhaps => "PERHAPS",
        Standing::Through => "THROUGH",
        Standing::Other => "OTHER",
    }
}

/// Whether a row is that of the participant that executed.
pub(crate) fn is_own(executed: &Option<Part>, part: Part) -> bool
    ensures { result ≡ is_own executed.now part }
{
    match executed {
        Some(executed) => *executed == part,
        None => false,
    }
}

/// The marks of a row: `OWN` for the row of the participant that executed, `FLICKER` for one that flickered.
fn marks_of(own: bool, flickers: bool) -> &'static str
    ensures { result.now ≡ marks_of own flickers }
{
    match (own, flickers) {
        (false, false) => "",
        (true, false) => "OWN",
        (false, true) => "FLICKER",
        (true, true) => "OWN+FLICKER",
    }
}
