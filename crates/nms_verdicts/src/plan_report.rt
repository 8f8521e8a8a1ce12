//! A plan with its verdict, for a page: its quotations, and the remarks about it.
ghost use Rattle.std.specs.Prelude.{◌≡◌, [], IfOk, OnOk, map};
ghost use Rattle.nms_verdicts.specs.Explained.{EndsBy, ending_of};
ghost use Rattle.nms_verdicts.specs.Listed.{AreListed, is_beyond, listed_by, listed_on};

use crate::judging::judge;
use crate::plan_telling::{Part, PlanNumber, passed_in, tell_part};
use crate::rows::{Note, note_of, sent_to};
use crate::telling::tell;
use crate::verdict::Verdict;
use crate::why::tell_certificate;
use nms_board::{BoardFault, Row, View};
use nms_fees::Setup;
use nms_quote::{Certificate, Plan};
use nms_rules::contra;
use nms_show::{Ending, Form, Item, ShowFault};
use nms_stream::{Replay, Tape};
use nms_times::Times;
use std::alloc::{AllocError, Global};
use std::io::Write;
use std::str;

/// A quotation on the side that a plan's order trades with.
#[derive(Clone, Copy)]
pub struct Quotation {
    /// The quotation.
    pub row: Row,
    /// The number of shares that the plan sends to this quotation.
    pub sent: u64,
    /// Whether the plan trades through this quotation: it is protected and not swept, but the plan trades at worse prices.
    pub is_over: bool,
    /// What the plan does with this quotation.
    pub note: Note,
}

/// The verdict on a plan, and the remarks about it.
#[derive(Drop)]
pub struct Said {
    /// `Done` if the plan is confirmed, else `Doubted`.
    pub ending: Ending,
    /// Whether the plan names a version that is beyond the end of the changes.
    pub is_beyond: bool,
    /// The verdict in a word, `CONFIRMED` or `DOUBT`, with the codes of the doubt.
    pub verdict: Vec<u8>,
    /// The lines about the plan's order, and about the shares that the plan fills.
    pub order: Vec<u8>,
    /// The lines about what is doubtful.
    pub doubt: Vec<u8>,
    /// The lines about the most shares that can be filled, and about each cut of its certificate.
    pub certificate: Vec<u8>,
    /// The quotations in rank order. There are none if the changes do not have the plan's version.
    pub quotations: Vec<Quotation>,
}

/// Judges a plan on the version that it names, and makes the remarks of the subcommand `why`. The remarks call the plan by the
/// name in `file`.
///
/// The only faults are that no board could be made, or that memory ran out.
pub fn report_plan(
    alloc: Global,
    tape: &Tape<'_>,
    times: Option<&Times>,
    file: &str,
    plan: &Plan,
    certificate: &Certificate,
) -> Result<Said, BoardFault>
    ensures ending { IfOk result (λ said. EndsBy tape.now.setup.now tape.now.changes.items plan.now certificate.now.items said.ending) }
    ensures listed { IfOk result (AreListed tape.now.setup.now tape.now.changes.items plan.now) }
{
    let mut replay = Replay::open(alloc, tape)?;
    let verdict = judge(&mut replay, plan, certificate);
    let number = PlanNumber {
        file,
        plan: 1,
        line: 1,
        times,
    };
    let view = replay.view(plan.order.sym);
    match said_of(
        alloc,
        tape.setup,
        &view,
        number,
        plan,
        certificate,
        &verdict,
    ) {
        Ok(said) => Ok(said),
        // A list of bytes accepts every write, so this fault can only be a lack of memory.
        Err(_) => Err(BoardFault::NoMemory),
    }
}

/// A verdict on a plan, and the remarks about it.
pub(crate) fn said_of(
    alloc: Global,
    setup: &Setup,
    view: &View,
    number: PlanNumber<'_>,
    plan: &Plan,
    certificate: &Certificate,
    verdict: &Verdict,
) -> Result<Said, ShowFault>
    ensures ending { IfOk result (λ said. said.ending ≡ ending_of verdict.now) }
    ensures beyond { IfOk result (λ said. said.is_beyond ≡ is_beyond verdict.now) }
    ensures listed { IfOk result (λ said. map (λ quotation. quotation.row) said.quotations.items ≡ listed_by verdict.now view.now plan.now) }
{
    let mut said = Said {
        ending: verdict.ending(),
        is_beyond: verdict.is_beyond(),
        verdict: Vec::new(alloc),
        order: Vec::new(alloc),
        doubt: Vec::new(alloc),
        certificate: Vec::new(alloc),
        quotations: Vec::new(alloc),
    };
    match say_all(
        alloc,
        setup,
        view,
        number,
        plan,
        certificate,
        verdict,
        &mut said,
    ) {
        Ok(()) => Ok(said),
        Err(fault) => Err(fault),
    }
}

/// Adds the remarks about a plan.
fn say_all(
    alloc: Global,
    setup: &Setup,
    view: &View,
    number: PlanNumber<'_>,
    plan: &Plan,
    certificate: &Certificate,
    verdict: &Verdict,
    said: &mut Said,
) -> Result<(), ShowFault>
    requires { said.old.quotations.items ≡ [] }
    ensures ending { said.new.ending ≡ said.old.ending }
    ensures beyond { said.new.is_beyond ≡ said.old.is_beyond }
    ensures listed { OnOk result (map (λ quotation. quotation.row) said.new.quotations.items ≡ listed_by verdict.now view.now plan.now) }
{
    let form = Form::Text { colours: false };
    let roster = setup.roster();
    if add_verdict(&mut said.verdict, verdict).is_err() {
        return Err(ShowFault::NoMemory);
    }
    tell_part(
        alloc,
        &mut said.order,
        form,
        &[],
        roster,
        number,
        plan,
        verdict,
        Part::Order,
    )?;
    tell_part(
        alloc,
        &mut said.doubt,
        form,
        &[],
        roster,
        number,
        plan,
        verdict,
        Part::Doubt,
    )?;
    if verdict.is_beyond() {
        return Ok(());
    }
    add_quotations(view, plan, verdict, &mut said.quotations)?;
    tell_certificate(
        alloc,
        setup,
        view,
        plan,
        certificate,
        verdict,
        form,
        &mut said.certificate,
    )
}

/// Reports the remarks about a plan, each line as an object.
pub(crate) fn tell_said<W: Write>(
    alloc: Global,
    answers: &mut W,
    form: Form,
    said: &Said,
) -> Result<(), ShowFault> {
    tell_lines(alloc, answers, form, "order", &said.order)?;
    tell_lines(alloc, answers, form, "doubt", &said.doubt)?;
    tell_lines(alloc, answers, form, "certificate", &said.certificate)
}

/// Reports each line of a text as an object, without the spaces at its beginning. The lines were escaped before, so they are
/// neither escaped again nor cut.
fn tell_lines<'x, W: Write>(
    alloc: Global,
    answers: &mut W,
    form: Form,
    about: &'x str,
    text: &'x [u8],
) -> Result<(), ShowFault> {
    for line in text.split(|byte| *byte == b'\n') {
        let words = str::from_utf8(line.trim_ascii_start()).unwrap_or("");
        if !words.is_empty() {
            tell(
                alloc,
                answers,
                form,
                &[],
                &[],
                &[
                    ("what", Item::Text("said")),
                    ("about", Item::Text(about)),
                    ("text", Item::Text(words)),
                ],
            )?;
        }
    }
    Ok(())
}

/// Adds the word of a verdict, and the codes of what is doubtful.
fn add_verdict(out: &mut Vec<u8>, verdict: &Verdict) -> Result<(), AllocError> {
    let Some(code) = verdict.code() else {
        return out.extend_from_slice(b"CONFIRMED");
    };
    out.extend_from_slice(b"DOUBT ")?;
    out.extend_from_slice(code.as_bytes())?;
    if let Some(breach) = verdict.breach() {
        out.push(b' ')?;
        out.extend_from_slice(breach.as_bytes())?;
    }
    Ok(())
}

/// Adds the quotations on the side that a plan's order trades with, in rank order, to an empty list.
fn add_quotations(
    view: &View,
    plan: &Plan,
    verdict: &Verdict,
    quotations: &mut Vec<Quotation>,
) -> Result<(), ShowFault>
    requires { quotations.old.items ≡ [] }
    ensures { OnOk result (map (λ quotation. quotation.row) quotations.new.items ≡ listed_on view.now plan.now) }
{
    let side = contra(plan.order.side);
    for place in 0..view.count(side) as u8 {
        let row = view.ranked(side, place).unwrap();
        let Ok(_) = quotations.push(quotation_of(plan, verdict, &row)) else {
            return Err(ShowFault::NoMemory);
        };
    }
    Ok(())
}

/// A quotation with the shares that a plan sends to it, and what the plan does with it.
fn quotation_of(plan: &Plan, verdict: &Verdict, row: &Row) -> Quotation
    ensures { result.row ≡ row.now }
{
    let sent = sent_to(plan.legs.as_slice(), row.part);
    Quotation {
        row: *row,
        sent,
        is_over: is_over(verdict, row),
        note: note_of(plan, row, sent),
    }
}

/// Whether a plan trades through a quotation.
fn is_over(verdict: &Verdict, row: &Row) -> bool {
    for passed in passed_in(verdict) {
        if passed.row.part == row.part {
            return true;
        }
    }
    false
}
