//! Writing the findings as columns: `specs/Columns`.
ghost use Rattle.std.specs.Prelude.{◌≡◌, ◌++◌, ◌∷◌, [], OnOk};
ghost use Rattle.std.specs.Fmt.{decimal};
ghost use Rattle.nms_lines.specs.Text.{later_fields, text_of};
ghost use Rattle.nms_trades.specs.Columns.{best_fields, bests_fields, cause_field, clock_text, deal_field, finding_row, finding_word};
ghost use Rattle.nms_trades.specs.Columns.{found_fields, improvement_field, is_worst, judged_fields, later_columns, name_fields, other_fields};
ghost use Rattle.nms_trades.specs.Columns.{part_field, quality_fields, quote_fields, refusal_row, through_fields, time_field, trade_fields};
ghost use Rattle.nms_trades.specs.Columns.{names_text, worst_by};

use crate::execution::{Deal, Execution};
use crate::execution_file::Refusal;
use crate::finding::{Best, Finding};
use crate::line::append_causes;
use crate::millionths::push_millionths;
use crate::money_through::{Sums, difference, is_helped, sums_of};
use crate::quality::{Quality, quality_of};
use crate::standing::Standing;
use itoa::Buffer;
use nms_board::Row;
use nms_lines::{
    end_record, name_of_part, name_of_sym, push_money, push_number, push_price, push_text,
};
use nms_quote::{Part, Roster, Side};
use nms_times::TimeOfDay;
use nms_units::Money;
use std::alloc::AllocError;

/// Appends the names of the columns.
#[tactic(auto, unfolding(crate::specs::Columns::names_text))]
pub(crate) fn append_names(out: &mut Vec<u8>) -> Result<(), AllocError>
    ensures { OnOk result (out.new.items ≡ out.old.items ++ names_text) }
{
    out.extend_from_slice(
        b"record,id,time,symbol,side,price,shares,venue,version,finding,cause,rows,worst,worst_venue,passed_shares,best_bid,bid_shares,best_offer,offer_shares,quoted_spread,effective_spread,quote_place,improvement\n",
    )
}

/// Appends the line of a record that is refused.
pub(crate) fn append_refusal_row(out: &mut Vec<u8>, refusal: &Refusal) -> Result<(), AllocError>
    ensures { OnOk result (out.new.items ≡ out.old.items ++ text_of (refusal_row refusal.now ∷ [])) }
{
    append_first(out, refusal.number)?;
    out.extend_from_slice(b",,,,,,,,,refused")?;
    push_text(out, refusal.fault.code())?;
    out.extend_from_slice(b",,,,,,,,,,,,")?;
    end_record(out)
}

/// Appends the line of an execution.
pub(crate) fn append_finding_row(
    out: &mut Vec<u8>,
    roster: &Roster,
    execution: &Execution,
    finding: &Finding,
) -> Result<(), AllocError>
    ensures { OnOk result (out.new.items ≡ out.old.items ++ text_of (finding_row roster.now execution.now finding.now ∷ [])) }
{
    append_named(out, execution)?;
    append_later(out, roster, execution, finding)?;
    end_record(out)
}

/// Appends the number of a record as the first field of its line.
fn append_first(out: &mut Vec<u8>, number: u64) -> Result<(), AllocError>
    ensures { OnOk result (out.new.items ≡ out.old.items ++ decimal number) }
{
    let mut digits = Buffer::new();
    out.extend_from_slice(digits.format(number).as_bytes())
}

/// Appends the number, the name and the time of an execution.
fn append_named(out: &mut Vec<u8>, execution: &Execution) -> Result<(), AllocError>
    ensures { OnOk result (out.new.items ≡ out.old.items ++ (decimal execution.now.number ++ later_fields (name_fields execution.now))) }
{
    append_first(out, execution.number)?;
    out.push(b',')?;
    out.extend_from_slice(execution.name.as_slice())?;
    push_time(out, execution.time)
}

/// Appends what an execution traded, and what was found about it.
#[tactic(auto, using(crate::proofs::ColumnFacts::two_parts))]
fn append_later(
    out: &mut Vec<u8>,
    roster: &Roster,
    execution: &Execution,
    finding: &Finding,
) -> Result<(), AllocError>
    ensures { OnOk result (out.new.items ≡ out.old.items ++ later_fields (later_columns roster.now execution.now finding.now)) }
{
    append_trade(out, roster, execution)?;
    append_found(out, roster, execution, finding)
}

/// Appends the symbol, the side, the price, the shares and the exchange of an execution.
fn append_trade(out: &mut Vec<u8>, roster: &Roster, execution: &Execution) -> Result<(), AllocError>
    ensures { OnOk result (out.new.items ≡ out.old.items ++ later_fields (trade_fields roster.now execution.now)) }
{
    push_text(out, name_of_sym(roster, execution.sym))?;
    push_text(out, word_of_deal(execution.deal))?;
    push_millionths(out, execution.millionths)?;
    push_number(out, u64::from(execution.shares.get()))?;
    push_part(out, roster, execution.part)
}

/// Appends what was found about an execution.
fn append_found(
    out: &mut Vec<u8>,
    roster: &Roster,
    execution: &Execution,
    finding: &Finding,
) -> Result<(), AllocError>
    ensures { OnOk result (out.new.items ≡ out.old.items ++ later_fields (found_fields roster.now execution.now finding.now)) }
{
    if finding.standing.is_other() {
        append_other(out)
    } else {
        append_judged(out, roster, execution, finding)
    }
}

/// Appends that another shard judges an execution.
fn append_other(out: &mut Vec<u8>) -> Result<(), AllocError>
    ensures { OnOk result (out.new.items ≡ out.old.items ++ later_fields other_fields) }
{
    out.extend_from_slice(b",,other,,,,,,,,,,,,,")
}

/// Appends what was found about an execution that is judged here.
fn append_judged(
    out: &mut Vec<u8>,
    roster: &Roster,
    execution: &Execution,
    finding: &Finding,
) -> Result<(), AllocError>
    ensures { OnOk result (out.new.items ≡ out.old.items ++ later_fields (judged_fields roster.now execution.now finding.now)) }
{
    push_number(out, execution.version)?;
    push_text(out, word_of_finding(finding.standing))?;
    let sums = sums_of(execution, finding);
    push_through(out, roster, execution, finding, &sums)?;
    push_quote(out, execution, finding)
}

/// Appends the causes, the number of rows, the greatest difference, its participant and the shares of a trade-through.
fn push_through(
    out: &mut Vec<u8>,
    roster: &Roster,
    execution: &Execution,
    finding: &Finding,
    sums: &Sums,
) -> Result<(), AllocError>
    ensures { OnOk result (out.new.items ≡ out.old.items
        ++ later_fields (through_fields roster.now execution.now finding.now sums.now)) }
{
    push_causes(out, execution, finding, sums)?;
    push_number(out, sums.count)?;
    push_millionths(out, sums.worst)?;
    push_part(
        out,
        roster,
        worst_by(execution, sums.worst, &finding.passed),
    )?;
    push_number(out, u64::from(sums.shares))
}

/// Appends a comma, and the causes of an execution that traded through, or perhaps did.
fn push_causes(
    out: &mut Vec<u8>,
    execution: &Execution,
    finding: &Finding,
    sums: &Sums,
) -> Result<(), AllocError>
    ensures { OnOk result (out.new.items ≡ out.old.items ++ 44 ∷ cause_field execution.now finding.now sums.now) }
{
    out.push(b',')?;
    if finding.standing.passes_some() {
        append_causes(out, execution, finding.crossed, sums)?;
    }
    Ok(())
}

/// The participant of the first quotation that was traded through by this difference and that self-help does not take out.
fn worst_by(execution: &Execution, worst: u64, passed: &[(Side, Row)]) -> Option<Part>
    ensures { result ≡ worst_by execution.now worst passed.now }
{
    for one in passed {
        if is_worst(execution, worst, one) {
            return Some(one.1.part);
        }
    }
    None
}

/// Whether a quotation was traded through by this difference, and self-help does not take it out.
fn is_worst(execution: &Execution, worst: u64, passed: &(Side, Row)) -> bool
    ensures { result ≡ is_worst execution.now worst passed.now }
{
    !is_helped(execution, &passed.1) && difference(&passed.1, execution.millionths) == worst
}

/// Appends the best quotations, and the quality of an execution compared with them.
#[tactic(auto, using(crate::proofs::ColumnFacts::two_parts))]
fn push_quote(out: &mut Vec<u8>, execution: &Execution, finding: &Finding) -> Result<(), AllocError>
    ensures { OnOk result (out.new.items ≡ out.old.items ++ later_fields (quote_fields execution.now finding.now)) }
{
    push_bests(out, &finding.best)?;
    push_quality(out, quality_of(execution, finding))
}

/// Appends both sides' best quotations.
#[tactic(auto, using(crate::proofs::ColumnFacts::two_parts))]
fn push_bests(out: &mut Vec<u8>, best: &Best) -> Result<(), AllocError>
    ensures { OnOk result (out.new.items ≡ out.old.items ++ later_fields (bests_fields best.now)) }
{
    push_best(out, &best.bid)?;
    push_best(out, &best.offer)
}

/// Appends the price and the displayed shares of a side's best quotation, each after a comma.
fn push_best(out: &mut Vec<u8>, best: &Option<Row>) -> Result<(), AllocError>
    ensures { OnOk result (out.new.items ≡ out.old.items ++ later_fields (best_fields best.now)) }
{
    match best {
        Some(row) => {
            push_price(out, row.price)?;
            push_number(out, u64::from(row.size))
        }
        None => out.extend_from_slice(b",,"),
    }
}

/// Appends the spreads, the place of the price, and the improvement, each after a comma.
fn push_quality(out: &mut Vec<u8>, quality: Option<Quality>) -> Result<(), AllocError>
    ensures { OnOk result (out.new.items ≡ out.old.items ++ later_fields (quality_fields quality)) }
{
    match quality {
        Some(quality) => {
            push_money(out, quality.quoted)?;
            push_money(out, quality.effective)?;
            push_text(out, quality.place.word())?;
            push_improvement(out, quality.improvement)
        }
        None => out.extend_from_slice(b",,,,"),
    }
}

/// Appends a comma, and the price improvement of a share, if it is known.
fn push_improvement(out: &mut Vec<u8>, improvement: Option<Money>) -> Result<(), AllocError>
    ensures { OnOk result (out.new.items ≡ out.old.items ++ 44 ∷ improvement_field improvement) }
{
    match improvement {
        Some(money) => push_money(out, money),
        None => push_text(out, ""),
    }
}

/// Appends a comma, and a time, if it is known.
fn push_time(out: &mut Vec<u8>, time: Option<TimeOfDay>) -> Result<(), AllocError>
    ensures { OnOk result (out.new.items ≡ out.old.items ++ 44 ∷ time_field time) }
{
    match time {
        Some(time) => push_clock(out, time),
        None => push_text(out, ""),
    }
}

/// Appends a comma, and a time as HH:MM:SS.nnnnnnnnn.
#[tactic(auto, using(crate::proofs::ColumnFacts::four_parts))]
fn push_clock(out: &mut Vec<u8>, time: TimeOfDay) -> Result<(), AllocError>
    ensures { OnOk result (out.new.items ≡ out.old.items ++ 44 ∷ clock_text time) }
{
    let digits = time.text();
    push_after(out, b',', &digits[..2])?;
    push_after(out, b':', &digits[2..4])?;
    push_after(out, b':', &digits[4..6])?;
    push_after(out, b'.', &digits[6..])
}

/// Appends a byte, and digits after it.
fn push_after(out: &mut Vec<u8>, mark: u8, digits: &[u8]) -> Result<(), AllocError>
    ensures { OnOk result (out.new.items ≡ out.old.items ++ mark ∷ digits.now) }
{
    out.push(mark)?;
    out.extend_from_slice(digits)
}

/// Appends a comma, and a participant's name.
fn push_part(out: &mut Vec<u8>, roster: &Roster, part: Option<Part>) -> Result<(), AllocError>
    ensures { OnOk result (out.new.items ≡ out.old.items ++ 44 ∷ part_field roster.now part) }
{
    match part {
        Some(part) => push_text(out, name_of_part(roster, part)),
        None => push_text(out, ""),
    }
}

/// The word for whether an execution bought or sold, as in its record.
fn word_of_deal(deal: Option<Deal>) -> &'static str
    ensures { result.now ≡ deal_field deal }
{
    match deal {
        Some(Deal::Bought) => "B",
        Some(Deal::Sold) => "S",
        None => "",
    }
}

/// The word for the standing of an execution.
fn word_of_finding(standing: Standing) -> &'static str
    ensures { result.now ≡ finding_word standing }
{
    match standing {
        Standing::Clean => "clean",
        Standing::Unquoted => "noquote",
        Standing::Perhaps => "perhaps",
        Standing::Through => "through",
        Standing::Other => "other",
    }
}
