//! Explaining why a plan is, or is not, the best lawful one.
ghost use Rattle.std.specs.Prelude.{IfOk};
ghost use Rattle.nms_verdicts.specs.Explained.{EndsBy, IsExplained, IsExplainedOn};

use crate::cuts::tell_cuts;
use crate::judging::judge;
use crate::plan_report::{said_of, tell_said};
use crate::plan_telling::{PlanNumber, tell_legs, tell_plan};
use crate::rows::tell_rows;
use crate::telling::{tell, tell_line};
use crate::verdict::Verdict;
use crate::verdict_fault::VerdictFault;
use nms_board::View;
use nms_fees::Setup;
use nms_lines::read_plan;
use nms_quote::{Certificate, Plan};
use nms_rules::{fillable, usable_rows};
use nms_show::{Ending, Form, Item, ShowFault};
use nms_stream::{Replay, Tape};
use nms_times::Times;
use std::alloc::Global;
use std::io::{Read, Write};

/// Explains why the plan of a text is, or is not, the best lawful one on its version of the changes. It shows the doubt first,
/// then the quotations in rank order with the cost of a share and the shares that are sent there. Then it shows how many shares
/// can be filled, and each cut's bound next to the plan's cost.
///
/// The ending is `Doubted` if the plan is doubted, else `Done`. A text that is no plan is a fault. If times are given, their
/// number must be the number of the changes, and the time of the plan's version is shown too. The output is not flushed.
pub fn explain_why<R: Read + Drop, W: Write>(
    alloc: Global,
    setup: &Setup,
    changes: R,
    times: Option<&Times>,
    file: &str,
    plan: &[u8],
    form: Form,
    answers: &mut W,
) -> Result<Ending, VerdictFault>
    ensures explained { IfOk result (IsExplained setup.now (R.remaining changes) plan.now) }
{
    match Tape::read(alloc, setup, changes) {
        Ok(tape) => {
            if let Some(times) = times {
                times.check_len(tape.changes.len())?;
            }
            explain_text(alloc, &tape, times, file, plan, form, answers)
        }
        Err(fault) => Err(VerdictFault::Changes(fault)),
    }
}

/// Explains the plan of a text.
fn explain_text<W: Write>(
    alloc: Global,
    tape: &Tape<'_>,
    times: Option<&Times>,
    file: &str,
    text: &[u8],
    form: Form,
    answers: &mut W,
) -> Result<Ending, VerdictFault>
    ensures { IfOk result (IsExplainedOn tape.now.setup.now tape.now.changes.items text.now) }
{
    match read_plan(alloc, text, tape.roster) {
        Ok((plan, certificate)) => {
            explain_plan(alloc, tape, times, file, &plan, &certificate, form, answers)
        }
        Err(fault) => Err(VerdictFault::Plan(fault)),
    }
}

/// Explains a plan.
fn explain_plan<W: Write>(
    alloc: Global,
    tape: &Tape<'_>,
    times: Option<&Times>,
    file: &str,
    plan: &Plan,
    certificate: &Certificate,
    form: Form,
    answers: &mut W,
) -> Result<Ending, VerdictFault>
    ensures { IfOk result (EndsBy tape.now.setup.now tape.now.changes.items plan.now certificate.now.items) }
{
    let mut replay = Replay::open(alloc, tape)?;
    let verdict = judge(&mut replay, plan, certificate);
    let view = replay.view(plan.order.sym);
    let told = tell_judged(
        alloc,
        tape.setup,
        &view,
        times,
        file,
        plan,
        certificate,
        &verdict,
        form,
        answers,
    );
    match told {
        Ok(()) => Ok(verdict.ending()),
        Err(fault) => Err(VerdictFault::Show(fault)),
    }
}

/// Reports a plan, its verdict and its legs, and the quotations of its version if the changes have it. JSON objects also have the
/// lines for people, so that a program need not read both forms.
fn tell_judged<W: Write>(
    alloc: Global,
    setup: &Setup,
    view: &View,
    times: Option<&Times>,
    file: &str,
    plan: &Plan,
    certificate: &Certificate,
    verdict: &Verdict,
    form: Form,
    answers: &mut W,
) -> Result<(), ShowFault> {
    let number = PlanNumber {
        file,
        plan: 1,
        line: 1,
        times,
    };
    tell_plan(
        alloc,
        answers,
        form,
        &[],
        setup.roster(),
        number,
        plan,
        verdict,
    )?;
    tell_legs(alloc, answers, form, setup.roster(), plan.legs.as_slice())?;
    match verdict {
        Verdict::Beyond { .. } => {}
        Verdict::Confirmed | Verdict::Doubted { .. } => tell_seen(
            alloc,
            setup,
            view,
            plan,
            certificate,
            verdict,
            form,
            answers,
        )?,
    }
    if !form.is_json() {
        return Ok(());
    }
    let said = said_of(alloc, setup, view, number, plan, certificate, verdict)?;
    tell_said(alloc, answers, form, &said)
}

/// Reports the quotations, the number of shares that can be filled, and each cut. A last sentence says why a confirmed plan is
/// the cheapest.
fn tell_seen<W: Write>(
    alloc: Global,
    setup: &Setup,
    view: &View,
    plan: &Plan,
    certificate: &Certificate,
    verdict: &Verdict,
    form: Form,
    answers: &mut W,
) -> Result<(), ShowFault> {
    tell_rows(alloc, answers, form, setup, view, plan)?;
    tell_certificate(
        alloc,
        setup,
        view,
        plan,
        certificate,
        verdict,
        form,
        answers,
    )
}

/// Reports the number of shares that can be filled, and each cut. A last sentence says why a confirmed plan is the cheapest.
pub(crate) fn tell_certificate<W: Write>(
    alloc: Global,
    setup: &Setup,
    view: &View,
    plan: &Plan,
    certificate: &Certificate,
    verdict: &Verdict,
    form: Form,
    answers: &mut W,
) -> Result<(), ShowFault> {
    let rows = usable_rows(view, &plan.order, setup.fees());
    let most = fillable(rows.as_slice(), plan.order.shares);
    tell_most(alloc, answers, form, plan, most)?;
    tell_cuts(
        alloc,
        answers,
        form,
        view,
        setup.fees(),
        plan,
        most,
        certificate.as_slice(),
    )?;
    let last = if verdict.is_confirmed() {
        "Each lawful plan that fills as many has one of these worst prices, so none costs less."
    } else {
        ""
    };
    tell_line(answers, form, last, &[])
}

/// Reports how many shares can be filled, and why no more.
fn tell_most<W: Write>(
    alloc: Global,
    answers: &mut W,
    form: Form,
    plan: &Plan,
    most: u64,
) -> Result<(), ShowFault> {
    let asked = u64::from(plan.order.shares.get());
    let words = if most == asked {
        "No lawful plan fills more than |most|: all that is asked for."
    } else {
        "No lawful plan fills more than |most|: all that may be traded with, which is less than is asked for."
    };
    tell(
        alloc,
        answers,
        form,
        &[],
        &[words],
        &[
            ("what", Item::Text("fillable")),
            ("most", Item::Number(most)),
            ("asked", Item::Number(asked)),
            ("filled", Item::Number(u64::from(plan.filled))),
        ],
    )
}
