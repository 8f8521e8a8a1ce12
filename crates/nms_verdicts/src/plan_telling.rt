//! Reporting a plan with its verdict.
use crate::finding::{Finding, finding_of};
use crate::names::{code_item, name_of, push_named, quotation_of, symbol_of, verb_of};
use crate::plan_places::{BreachPlace, DoubtPlace, PassedOver};
use crate::telling::{Heading, tell};
use crate::verdict::Verdict;
use nms_quote::{Leg, Plan, Roster};
use nms_show::{Form, Item, ShowFault};
use nms_times::Times;
use std::alloc::{AllocError, Global};
use std::io::Write;

/// The place of a plan in a file of answers, and the times by which its version is dated.
#[derive(Clone, Copy)]
pub(crate) struct PlanNumber<'a> {
    /// The name of the file that has the plan.
    pub(crate) file: &'a str,
    /// The number of the plan in the file, counted from 1.
    pub(crate) plan: u64,
    /// The line of the file at which the plan begins, counted from 1.
    pub(crate) line: u64,
    /// The times of the changes, if they are given.
    pub(crate) times: Option<&'a Times>,
}

/// Which lines about a plan and its verdict are written.
#[derive(Clone, Copy)]
pub(crate) enum Part {
    /// All lines.
    Whole,
    /// The lines about the plan's order, and about how much the plan fills.
    Order,
    /// The lines about what is doubtful.
    Doubt,
}

/// Reports a plan and its verdict. For a table it writes a row with the doubt, and otherwise sentences.
pub(crate) fn tell_plan<W: Write>(
    alloc: Global,
    answers: &mut W,
    form: Form,
    headings: &[Heading],
    roster: &Roster,
    number: PlanNumber<'_>,
    plan: &Plan,
    verdict: &Verdict,
) -> Result<(), ShowFault> {
    let part = if headings.is_empty() {
        Part::Whole
    } else {
        Part::Doubt
    };
    tell_part(
        alloc, answers, form, headings, roster, number, plan, verdict, part,
    )
}

/// Reports some of the lines about a plan and its verdict.
pub(crate) fn tell_part<W: Write>(
    alloc: Global,
    answers: &mut W,
    form: Form,
    headings: &[Heading],
    roster: &Roster,
    number: PlanNumber<'_>,
    plan: &Plan,
    verdict: &Verdict,
    part: Part,
) -> Result<(), ShowFault> {
    let mut names = Vec::new(alloc);
    if push_named(&mut names, roster, &plan.order).is_err() {
        return Err(ShowFault::NoMemory);
    }
    let mut time = Vec::new(alloc);
    if push_time(&mut time, number.times, plan.version).is_err() {
        return Err(ShowFault::NoMemory);
    }
    tell_named(
        alloc, answers, form, headings, roster, number, plan, verdict, &names, &time, part,
    )?;
    match part {
        Part::Order => Ok(()),
        Part::Whole | Part::Doubt => {
            tell_passed(alloc, answers, form, roster, number, plan, verdict)
        }
    }
}

/// Reports some of the lines about a plan and its verdict, but not the quotations that are traded through. The caller gives the
/// self-help names and the time as text.
fn tell_named<'x, W: Write>(
    alloc: Global,
    answers: &mut W,
    form: Form,
    headings: &[Heading],
    roster: &'x Roster,
    number: PlanNumber<'x>,
    plan: &Plan,
    verdict: &Verdict,
    names: &'x [u8],
    time: &'x [u8],
    part: Part,
) -> Result<(), ShowFault> {
    let finding = finding_of(verdict, roster, plan);
    let sentences = sentences_of(plan, verdict);
    let all = [
        sentences[0],
        if !time.is_empty() {
            "The last change of that version has the time |time|."
        } else {
            ""
        },
        sentences[1],
        sentences[2],
        sentences[3],
        finding.place,
        finding.words,
    ];
    let (first, end) = match part {
        Part::Whole => (0, 7),
        Part::Order => (0, 4),
        Part::Doubt => (5, 7),
    };
    // A plan without times has no time to report, so the last of the 26 facts, the time, is left out.
    let known = if number.times.is_some() { 26 } else { 25 };
    tell(
        alloc,
        answers,
        form,
        headings,
        &all[first..end],
        &facts_of(roster, number, plan, verdict, &finding, names, time)[..known],
    )
}

/// Appends the time of a version, if there are times and the version has one.
fn push_time(out: &mut Vec<u8>, times: Option<&Times>, version: u64) -> Result<(), AllocError> {
    let Some(times) = times else {
        return Ok(());
    };
    match times.time_of(version) {
        Some(time) => out.extend_from_slice(&time.text()),
        None => Ok(()),
    }
}

/// A time of day as an item of a report, which is absent if there are no digits.
fn time_item(digits: &[u8]) -> Item<'_> {
    if digits.is_empty() {
        Item::Absent
    } else {
        Item::Bytes(digits)
    }
}

/// The facts that are reported about a plan and its verdict.
fn facts_of<'a>(
    roster: &'a Roster,
    number: PlanNumber<'a>,
    plan: &Plan,
    verdict: &Verdict,
    finding: &Finding<'a>,
    names: &'a [u8],
    time: &'a [u8],
) -> [(&'static str, Item<'a>); 26] {
    let order = &plan.order;
    [
        ("what", Item::Text("plan")),
        ("file", Item::Bytes(number.file.as_bytes())),
        ("plan", Item::Number(number.plan)),
        ("line", Item::Number(number.line)),
        ("version", Item::Number(plan.version)),
        ("side", verb_of(order.side)),
        ("contra", quotation_of(order.side)),
        ("symbol", symbol_of(roster, order.sym)),
        ("shares", Item::Number(u64::from(order.shares.get()))),
        ("limit", Item::of_price(order.limit)),
        ("manual", Item::Flag(order.manual)),
        ("self_help", Item::Bytes(names)),
        ("filled", Item::Number(u64::from(plan.filled))),
        ("cost", Item::of_money(plan.cost)),
        ("verdict", word_of(verdict)),
        ("code", code_item(verdict.code())),
        ("breach", code_item(verdict.breach())),
        ("leg", finding.leg),
        ("cut", finding.cut),
        ("participant", finding.participant),
        ("price", finding.price),
        ("sent", finding.sent),
        ("found", finding.found),
        ("expected", finding.expected),
        ("other", finding.other),
        ("time", time_item(time)),
    ]
}

/// The word of a verdict.
fn word_of(verdict: &Verdict) -> Item<'static> {
    if verdict.is_confirmed() {
        Item::Strong("CONFIRMED")
    } else {
        Item::Alarm("DOUBT")
    }
}

/// The sentences about a plan's order, the shares that it fills, and its verdict.
fn sentences_of(plan: &Plan, verdict: &Verdict) -> [&'static str; 4] {
    [
        if plan.order.manual {
            "|file|: on version |version|, to |side| |shares| |symbol| at |limit| or better, with manual quotations too"
        } else {
            "|file|: on version |version|, to |side| |shares| |symbol| at |limit| or better, with protected quotations alone"
        },
        if plan.order.self_help.is_empty() {
            ""
        } else {
            "Under self-help it passes over the quotations of |self_help|."
        },
        "It fills |filled| shares for |cost| with fees.",
        match (verdict.code(), verdict.breach()) {
            (None, _) => "|verdict|",
            (Some(_), None) => "|verdict| |code|",
            (Some(_), Some(_)) => "|verdict| |code| |breach|",
        },
    ]
}

/// Reports each quotation that a plan trades through.
fn tell_passed<W: Write>(
    alloc: Global,
    answers: &mut W,
    form: Form,
    roster: &Roster,
    number: PlanNumber<'_>,
    plan: &Plan,
    verdict: &Verdict,
) -> Result<(), ShowFault> {
    for passed in passed_in(verdict) {
        tell(
            alloc,
            answers,
            form,
            &[],
            &[
                "      past the better protected |contra| of |participant| at |price|: |displayed| displayed, |sent| sent there",
            ],
            &[
                ("what", Item::Text("traded_through")),
                ("plan", Item::Number(number.plan)),
                ("contra", quotation_of(plan.order.side)),
                ("participant", name_of(roster, passed.row.part)),
                ("price", Item::of_price(passed.row.price)),
                ("displayed", Item::Number(u64::from(passed.row.size))),
                ("sent", Item::Number(passed.given)),
            ],
        )?;
    }
    Ok(())
}

/// Reports the legs of a plan, only as objects, because people see in the table of quotations what is sent where.
pub(crate) fn tell_legs<W: Write>(
    alloc: Global,
    answers: &mut W,
    form: Form,
    roster: &Roster,
    legs: &[Leg],
) -> Result<(), ShowFault> {
    for place in 0..legs.len() {
        let leg = legs[place];
        tell(
            alloc,
            answers,
            form,
            &[],
            &[],
            &[
                ("what", Item::Text("leg")),
                ("leg", Item::Number(place as u64 + 1)),
                ("participant", name_of(roster, leg.part)),
                ("price", Item::of_price(leg.price)),
                ("shares", Item::Number(u64::from(leg.shares.get()))),
            ],
        )?;
    }
    Ok(())
}

/// The quotations that a plan trades through.
pub(crate) fn passed_in(verdict: &Verdict) -> &[PassedOver] {
    if let Verdict::Doubted {
        place: DoubtPlace::Breach(BreachPlace::TradedThrough { passed, .. }),
        ..
    } = verdict
    {
        passed.as_slice()
    } else {
        &[]
    }
}
