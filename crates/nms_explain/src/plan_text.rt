//! Explaining the text of a plan: `specs/Planned`.
ghost use Rattle.std.specs.Prelude.{◌≡◌, ◌<◌, ◌≤◌, ◌+◌, ◌-◌, ◌^◌, ◌++◌, ◌∷◌, [], ℕ, List, Option, Some, IfOk, is_none, true};
ghost use Rattle.csv.specs.Records.{fields_of};
ghost use Rattle.nms_lines.specs.Layout.{Record};
ghost use Rattle.nms_lines.specs.Records.{ReadsFrom};
ghost use Rattle.nms_explain.specs.PlanOrder.{HasPassed, is_ended};
ghost use Rattle.nms_explain.specs.Planned.{AllHaveCome, EndsAsPlan, HaveCome, ending_if, is_done};
ghost use Rattle.nms_explain.specs.Source.{left_of};
ghost use Rattle.nms_show.specs.Plain.{is_own_plain};
ghost use Rattle.nms_show.specs.Safe.{IsSafe};
ghost use Rattle.nms_show.specs.Written.{Writes};

use crate::changes::{TOO_LONG, quote_at, unknown_span};
use crate::explain_fault::ExplainFault;
use crate::hints::hint_of_kind;
use crate::places::{
    FieldName, FieldPlace, PlanDue, PlanTrouble, PlanWalk, plan_field_in, record_due, text_at,
};
use crate::record_source::{RecordSource, RecordText, next_record, open_source, record_of};
use crate::refusal::{Refusal, tell_missing, tell_refusal};
use crate::refusal_code::RefusalCode;
use crate::span::{Point, Span, span_of};
use crate::tally::{tell_count, tell_counts};
use nms_codes::Code;
use nms_fees::Setup;
use nms_lines::{ByteRecord, FaultPlace, Reader};
use nms_quote::Roster;
use nms_show::{Ending, Form, Item, SafeText};
use std::alloc::{AllocError, Global};
use std::io::{Read, Write};

/// The code of a text that is not a plan's.
const CODE: Code = Code::L11;

/// The roster by which the text of a plan is explained, and the name of its file.
#[derive(Clone, Copy)]
struct Asked<'a> {
    roster: &'a Roster,
    file: &'a str,
}

/// What is known after the records of a plan's text up to now: what is due, how many came, and how many were wrong.
#[derive(Clone, Copy)]
struct Came {
    walk: PlanWalk,
    records: u64,
    refused: u64,
}

/// Reports each wrong record of a plan's text: the field that a plan can't have at that place, or that another record is due.
/// If it reports nothing, the text is a plan's: `read_plan` of `nms_lines` takes it.
///
/// The answers are not flushed. After a fault, what was reported before stays. What is written is safe to show on a terminal.
pub fn explain_plan<W: Write>(
    alloc: Global,
    setup: &Setup,
    file: &str,
    text: &[u8],
    form: Form,
    answers: &mut W,
) -> Result<Ending, ExplainFault>
    ensures ending { IfOk result (EndsAsPlan setup.now.roster (Some text.now)) }
    ensures safe { Writes IsSafe (W.contents answers.old) (W.contents answers.new) result }
{
    let asked = Asked {
        roster: setup.roster(),
        file,
    };
    let mut reader = open_source(alloc, text);
    let mut row = ByteRecord::new(alloc);
    let mut out = SafeText::new(alloc, form);
    explain_text(&asked, &mut reader, &mut row, &mut out, answers)
}

/// Reports each wrong record of the plan's text that a reader gives, and then the counts. It owns neither the reader nor the
/// record, so its exits drop nothing.
fn explain_text<R: Read, W: Write>(
    asked: &Asked<'_>,
    reader: &mut Reader<RecordSource<R>>,
    row: &mut ByteRecord,
    out: &mut SafeText,
    answers: &mut W,
) -> Result<Ending, ExplainFault>
    ensures ending { (bytes : Option (List ℕ)) → ReadsFrom (left_of R.remaining) reader.old bytes []
        → IfOk result (EndsAsPlan asked.now.roster.now bytes) }
    ensures safe { Writes IsSafe (W.contents answers.old) (W.contents answers.new) result }
{
    let came = explain_records(asked, reader, row, out, answers)?;
    let Some(end) = reader.get_ref().end() else {
        return Err(TOO_LONG);
    };
    let ending = tell_end(&came, asked, end, out)?;
    out.pass_on(answers)?;
    Ok(ending)
}

/// Reports each wrong record that a reader gives.
fn explain_records<R: Read, W: Write>(
    asked: &Asked<'_>,
    reader: &mut Reader<RecordSource<R>>,
    row: &mut ByteRecord,
    out: &mut SafeText,
    answers: &mut W,
) -> Result<Came, ExplainFault>
    ensures come { (bytes : Option (List ℕ)) → ReadsFrom (left_of R.remaining) reader.old bytes []
        → IfOk result (AllHaveCome asked.now.roster.now bytes) }
    ensures safe { Writes IsSafe (W.contents answers.old) (W.contents answers.new) result }
{
    let mut came = Came {
        walk: PlanWalk::new(),
        records: 0,
        refused: 0,
    };
    for turn in 0..u64::MAX {
        match next_record(reader, row) {
            Ok(true) => {
                explain_record(asked, reader, row, turn + 1, &mut came, out)?;
                out.pass_on(answers)?;
            }
            Ok(false) => return Ok(came),
            Err(fault) => return Err(ExplainFault::Record(fault)),
        }
    }
    Err(TOO_LONG)
}

/// Counts a record of a plan's text, and reports it with its number if it is wrong.
fn explain_record<R: Read>(
    asked: &Asked<'_>,
    reader: &Reader<RecordSource<R>>,
    row: &ByteRecord,
    number: u64,
    came: &mut Came,
    out: &mut SafeText,
) -> Result<(), ExplainFault>
    requires room { came.old.records < 2 ^ 64 - 1 }
    requires within { came.old.refused ≤ came.old.records }
    ensures within { came.new.refused ≤ came.new.records }
    ensures records { came.new.records ≡ came.old.records + 1 }
    ensures come { (seen : List Record) → HaveCome asked.now.roster.now seen came.old
        → HaveCome asked.now.roster.now (seen ++ fields_of row.now ∷ []) came.new }
{
    let due = came.walk.due;
    came.records += 1;
    match came.walk.next(row, asked.roster) {
        Some(trouble) => {
            came.refused += 1;
            tell_trouble(asked, reader, number, row, due, trouble, out)
        }
        None => Ok(()),
    }
}

/// Reports a wrong record by its number.
fn tell_trouble<R: Read>(
    asked: &Asked<'_>,
    reader: &Reader<RecordSource<R>>,
    number: u64,
    row: &ByteRecord,
    due: PlanDue,
    trouble: PlanTrouble,
    out: &mut SafeText,
) -> Result<(), ExplainFault> {
    let Some(record) = record_of(reader) else {
        return Err(TOO_LONG);
    };
    let refusal = refusal_of(asked, record, number, row, due, trouble);
    let Some(point) = refusal.point() else {
        return Err(TOO_LONG);
    };
    tell_refusal(&refusal, point, out)?;
    Ok(())
}

/// Reports which record is missing at the end of the text, how many there were, and how many of them were wrong.
fn tell_end(
    came: &Came,
    asked: &Asked<'_>,
    end: Point,
    out: &mut SafeText,
) -> Result<Ending, AllocError>
    ensures ending { IfOk result (λ ended. ended ≡ ending_if (is_done came.now)) }
{
    let file = asked.file;
    let missing = missing_at(came.walk.due);
    if let Some(expected) = missing {
        tell_missing(file, end, CODE, expected, out)?;
    }
    tell_counts(file, came.records, came.refused, out)?;
    tell_count(file, RefusalCode::Record(CODE), came.refused, out)?;
    if came.refused == 0 && missing.is_none() {
        Ok(Ending::Done)
    } else {
        Ok(Ending::Refused)
    }
}

/// Which record is missing at the end of a plan's records, if one is.
fn missing_at(due: PlanDue) -> Option<&'static str>
    ensures { is_none result ≡ is_ended due }
{
    match due {
        PlanDue::Plan | PlanDue::Leg | PlanDue::Cut => Some(expected_word(due)),
        PlanDue::Nothing => None,
    }
}

/// The finding on a wrong record.
fn refusal_of<'a>(
    asked: &Asked<'a>,
    record: RecordText<'a>,
    number: u64,
    row: &'a ByteRecord,
    due: PlanDue,
    trouble: PlanTrouble,
) -> Refusal<'a>
    ensures found { is_own_plain result.found ≡ true }
{
    let RecordText { text, line } = record;
    let (field, expected) = match trouble {
        PlanTrouble::TooMany => (Some(first_field()), "at most 32 legs and 32 cuts"),
        PlanTrouble::Wrong(FaultPlace::Record) => (None, layout_of(text_at(row, 0))),
        PlanTrouble::Wrong(FaultPlace::Field(place)) => {
            let at = plan_field_in(record_due(due, text_at(row, 0)), place);
            (Some(at), expected_of(due, at.name))
        }
    };
    let span = match field {
        Some(at) => span_at(text, row, at, asked.roster),
        None => whole(text),
    };
    Refusal {
        file: asked.file,
        number,
        line,
        text,
        span,
        code: RefusalCode::Record(CODE),
        field,
        found: found_at(text, row, field, span),
        expected,
        hint: hint_for(due, number, text),
        remedy: CODE.remedy(),
        quote: quote_at(text, line),
    }
}

/// The place of a wrong field. If it joins names, it is that of the first name that is not on the roster.
fn span_at(text: &[u8], row: &ByteRecord, at: FieldPlace, roster: &Roster) -> Span {
    let field = span_of(text, at.place);
    if at.name == FieldName::Names {
        unknown_span(text, field, text_at(row, at.place), roster)
    } else {
        field
    }
}

/// What is found at the wrong field, or at the wrong one of joined names; the number of fields if that is wrong.
fn found_at<'a>(
    text: &'a [u8],
    row: &'a ByteRecord,
    field: Option<FieldPlace>,
    span: Span,
) -> Item<'a>
    ensures { is_own_plain result ≡ true }
{
    match field {
        Some(at) if at.name == FieldName::Names => {
            Item::Bytes(text.get(span.start..span.end).unwrap_or(&[]))
        }
        Some(at) => Item::Bytes(text_at(row, at.place)),
        None => Item::Number(row.len() as u64),
    }
}

/// The span of all of a record.
fn whole(text: &[u8]) -> Span {
    Span {
        start: 0,
        end: text.len(),
    }
}

/// A hint for the first record, if it looks like something else than a plan's; and one for a record after the end.
fn hint_for(due: PlanDue, number: u64, text: &[u8]) -> &'static str {
    match due {
        PlanDue::Plan if !text.starts_with(b"PLAN,") => hint_of_kind(number, text),
        PlanDue::Nothing => "a file has one plan alone, from PLAN to END",
        PlanDue::Plan | PlanDue::Leg | PlanDue::Cut => "",
    }
}

/// The place of the first field of a record.
fn first_field() -> FieldPlace {
    FieldPlace {
        place: 0,
        name: FieldName::Kind,
    }
}

/// The fields of a record that begins with a word.
fn layout_of(word: &[u8]) -> &'static str {
    match word {
        b"PLAN" =>
            "9: PLAN,version,side,sym,shares,limit,flag,filled,cost, or 10: names after them",
        b"LEG" => "4: LEG,part,price,shares",
        b"CUT" => "4: CUT,price,kind,value",
        _ => "1: END",
    }
}

/// What is expected of a field of a plan's record.
fn expected_of(due: PlanDue, name: FieldName) -> &'static str {
    match name {
        FieldName::Kind => expected_word(due),
        FieldName::Version => "a version: 1 to 8 digits",
        FieldName::Side => "B or S",
        FieldName::Symbol => "a symbol of the setup",
        FieldName::Participant => "a participant of the setup",
        FieldName::Names => "participants of the setup, joined by one + each",
        FieldName::Limit | FieldName::Price => {
            "dollars above zero: 1 to 7 digits, at most a point and 1 to 4 digits"
        }
        FieldName::Flag => "M, or nothing",
        FieldName::Cost =>
            "money: digits, a point and nine digits, with a minus where money is received",
        FieldName::Says => "TOOMUCH, TOOLITTLE or MARGINAL",
        FieldName::Value => "money after MARGINAL, nothing after TOOMUCH and TOOLITTLE",
        FieldName::Shares => expected_shares(due),
        FieldName::Filled
        // No record of a plan has any of these fields.
        | FieldName::Id
        | FieldName::When
        | FieldName::Flags
        | FieldName::State
        | FieldName::Bid
        | FieldName::BidShares
        | FieldName::Offer
        | FieldName::OfferShares
        | FieldName::Lot
        | FieldName::Average
        | FieldName::Desk => "shares: 1 to 9 digits",
    }
}

/// What is expected of the shares of an order, or of a leg.
fn expected_shares(due: PlanDue) -> &'static str {
    match due {
        PlanDue::Plan => "shares: 1 to 9 digits, at least 1",
        PlanDue::Leg | PlanDue::Cut | PlanDue::Nothing => "shares: 1 to 9 digits",
    }
}

/// The word with which the record of a plan that is due has to begin.
fn expected_word(due: PlanDue) -> &'static str {
    match due {
        PlanDue::Plan => "PLAN",
        PlanDue::Leg => "LEG, CUT or END",
        PlanDue::Cut => "CUT or END",
        PlanDue::Nothing => "nothing after END",
    }
}
