//! Judging the plans of a file of answers, each on its own version: `specs/Checked`.
ghost use Rattle.std.specs.Prelude.{◌≡◌, ◌<◌, ◌+◌, ◌^◌, ◌-◌, ℕ, IfOk, List};
ghost use Rattle.csv.specs.Reading.{strip_bom};
ghost use Rattle.nms_verdicts.specs.Begun.{texts_of};
ghost use Rattle.nms_verdicts.specs.Checked.{AreCounts, EndsByAll, IsChecked, IsOutcome, IsOutcomeOf, counted, ending_by};
ghost use Rattle.nms_verdicts.specs.Checked.{outcome_of};
ghost use Rattle.nms_verdicts.specs.Pieces.{ArePieces};

use crate::judging::judge;
use crate::pieces::{Piece, pieces_of};
use crate::plan_telling::{PlanNumber, tell_plan};
use crate::telling::{Heading, tell, tell_head, tell_line};
use crate::verdict::Verdict;
use crate::verdict_fault::VerdictFault;
use nms_codes::Code;
use nms_fees::Setup;
use nms_lines::{PlanTextFault, read_plan};
use nms_quote::{Certificate, Plan};
use nms_show::{Ending, Form, Item, ShowFault};
use nms_stream::{Replay, Tape};
use nms_times::Times;
use std::alloc::Global;
use std::io::{Read, Write};

/// The columns of the table of verdicts, without times.
static HEADINGS: [Heading; 14] = [
    Heading("plan", "plan", 6, true),
    Heading("line", "line", 8, true),
    Heading("version", "version", 8, true),
    Heading("side", "side", 4, false),
    Heading("symbol", "symbol", 8, false),
    Heading("shares", "shares", 9, true),
    Heading("limit", "limit", 12, true),
    Heading("verdict", "verdict", 9, false),
    Heading("code", "code", 4, false),
    Heading("", "breach", 3, false),
    Heading("leg", "leg", 3, true),
    Heading("cut", "cut", 3, true),
    Heading("found", "found", 20, true),
    Heading("expected", "expected", 20, true),
];

/// The columns of the table of verdicts, with the time of each plan's version.
static TIMED_HEADINGS: [Heading; 15] = [
    Heading("plan", "plan", 6, true),
    Heading("line", "line", 8, true),
    Heading("version", "version", 8, true),
    Heading("time", "time", 15, true),
    Heading("side", "side", 4, false),
    Heading("symbol", "symbol", 8, false),
    Heading("shares", "shares", 9, true),
    Heading("limit", "limit", 12, true),
    Heading("verdict", "verdict", 9, false),
    Heading("code", "code", 4, false),
    Heading("", "breach", 3, false),
    Heading("leg", "leg", 3, true),
    Heading("cut", "cut", 3, true),
    Heading("found", "found", 20, true),
    Heading("expected", "expected", 20, true),
];

/// The columns of the table of verdicts. They include the time of each plan's version if times are given.
fn headings_of(times: Option<&Times>) -> &'static [Heading] {
    match times {
        Some(_) => TIMED_HEADINGS.as_slice(),
        None => HEADINGS.as_slice(),
    }
}

/// The outcome of judging a plan: it is confirmed, it is doubted, or its text cannot be read.
#[derive(Clone, Copy)]
pub(crate) enum Outcome {
    Confirmed,
    Doubted,
    Unreadable,
}

/// How many plans had each outcome.
#[derive(Clone, Copy)]
pub(crate) struct Counts {
    confirmed: u64,
    doubted: u64,
    unreadable: u64,
}

/// Judges every plan in the answers of a script or of a live run, each on its own version of the changes. Writes a table of
/// verdicts and a line of totals, or as JSON one object for each plan. Plans are sorted by version, and within a version they
/// keep the order of the file. Plans that can't be read come last.
///
/// If times are given, their number must be the number of the changes. Each verdict then shows the time of the plan's version.
///
/// All changes are read, and applied to the board once. The answers are searched for records `PLAN` to `END`, and all else is
/// skipped. A text in the place of a plan that is no plan is reported as L11. The ending is `Doubted` if a plan is doubted.
/// Otherwise it is `Refused` if a plan can't be read, and else `Done`. The output is not flushed.
pub fn check_answers<R: Read + Drop, W: Write>(
    alloc: Global,
    setup: &Setup,
    changes: R,
    times: Option<&Times>,
    file: &str,
    text: &[u8],
    form: Form,
    answers: &mut W,
) -> Result<Ending, VerdictFault>
    ensures checked { IfOk result (IsChecked setup.now (R.remaining changes) text.now) }
{
    match Tape::read(alloc, setup, changes) {
        Ok(tape) => {
            if let Some(times) = times {
                times.check_len(tape.changes.len())?;
            }
            check_text(alloc, &tape, times, file, text, form, answers)
        }
        Err(fault) => Err(VerdictFault::Changes(fault)),
    }
}

/// Judges the plans of a text.
fn check_text<W: Write>(
    alloc: Global,
    tape: &Tape<'_>,
    times: Option<&Times>,
    file: &str,
    text: &[u8],
    form: Form,
    answers: &mut W,
) -> Result<Ending, VerdictFault>
    ensures { IfOk result (λ ended. (texts : List (List ℕ)) × ArePieces (strip_bom text.now) texts
        × EndsByAll tape.now.setup.now tape.now.changes.items texts ended) }
{
    match pieces_of(alloc, tape.roster, text) {
        Ok(pieces) => check_pieces(alloc, tape, times, file, &pieces, form, answers),
        Err(_) => Err(VerdictFault::Show(ShowFault::NoMemory)),
    }
}

/// Judges the plans whose texts were found, and writes the table of verdicts with its head and a line of totals.
fn check_pieces<W: Write>(
    alloc: Global,
    tape: &Tape<'_>,
    times: Option<&Times>,
    file: &str,
    pieces: &[Piece<'_>],
    form: Form,
    answers: &mut W,
) -> Result<Ending, VerdictFault>
    ensures { IfOk result (EndsByAll tape.now.setup.now tape.now.changes.items (texts_of pieces.now)) }
{
    let mut replay = Replay::open(alloc, tape)?;
    write_head(answers, form, file, headings_of(times))?;
    let counts = check_each(alloc, &mut replay, times, file, pieces, form, answers)?;
    write_totals(alloc, answers, form, pieces.len() as u64, counts)?;
    Ok(ending_of(counts))
}

/// Judges the plans whose texts were found, and returns the number of plans with each outcome.
fn check_each<W: Write>(
    alloc: Global,
    replay: &mut Replay<'_>,
    times: Option<&Times>,
    file: &str,
    pieces: &[Piece<'_>],
    form: Form,
    answers: &mut W,
) -> Result<Counts, VerdictFault>
    ensures { IfOk result (AreCounts replay.old.tape.now.setup.now replay.old.tape.now.changes.items (texts_of pieces.now)) }
{
    let mut counts = Counts {
        confirmed: 0,
        doubted: 0,
        unreadable: 0,
    };
    for piece in pieces {
        let number = PlanNumber {
            file,
            plan: piece.plan,
            line: piece.line,
            times,
        };
        let outcome = check_piece(alloc, replay, piece.text, number, form, answers)?;
        counts = counted(counts, outcome);
    }
    Ok(counts)
}

/// The counts with one more outcome.
fn counted(counts: Counts, outcome: Outcome) -> Counts
    requires { counts.confirmed + counts.doubted + counts.unreadable < 2 ^ 64 - 1 }
    ensures { result ≡ counted counts outcome }
{
    let mut counts = counts;
    match outcome {
        Outcome::Confirmed => counts.confirmed += 1,
        Outcome::Doubted => counts.doubted += 1,
        Outcome::Unreadable => counts.unreadable += 1,
    }
    counts
}

/// The ending of a request that judged plans: doubted if a plan is doubted, refused if a plan can't be read, else done.
fn ending_of(counts: Counts) -> Ending
    ensures { result ≡ ending_by counts }
{
    if counts.doubted > 0 {
        Ending::Doubted
    } else if counts.unreadable > 0 {
        Ending::Refused
    } else {
        Ending::Done
    }
}

/// Reads a plan, judges it, and writes its verdict.
fn check_piece<W: Write>(
    alloc: Global,
    replay: &mut Replay<'_>,
    text: &[u8],
    number: PlanNumber<'_>,
    form: Form,
    answers: &mut W,
) -> Result<Outcome, VerdictFault>
    ensures tape { replay.new.tape ≡ replay.old.tape }
    ensures outcome { IfOk result (IsOutcome replay.old.tape.now.setup.now replay.old.tape.now.changes.items text.now) }
{
    match read_plan(alloc, text, replay.tape.roster) {
        Ok((plan, certificate)) => {
            check_plan(alloc, replay, &plan, &certificate, number, form, answers)
        }
        Err(PlanTextFault::BadPlanText) => {
            write_unreadable(alloc, answers, form, number)?;
            Ok(Outcome::Unreadable)
        }
        Err(fault) => Err(VerdictFault::Plan(fault)),
    }
}

/// Judges a plan that was read, and writes its verdict.
fn check_plan<W: Write>(
    alloc: Global,
    replay: &mut Replay<'_>,
    plan: &Plan,
    certificate: &Certificate,
    number: PlanNumber<'_>,
    form: Form,
    answers: &mut W,
) -> Result<Outcome, VerdictFault>
    ensures tape { replay.new.tape ≡ replay.old.tape }
    ensures outcome { IfOk result (IsOutcomeOf replay.old.tape.now.setup.now replay.old.tape.now.changes.items plan.now certificate.now.items) }
{
    let verdict = judge(replay, plan, certificate);
    match tell_plan(
        alloc,
        answers,
        form,
        headings_of(number.times),
        replay.tape.roster,
        number,
        plan,
        &verdict,
    ) {
        Ok(()) => Ok(outcome_of(&verdict)),
        Err(fault) => Err(VerdictFault::Show(fault)),
    }
}

/// The outcome of a verdict.
fn outcome_of(verdict: &Verdict) -> Outcome
    ensures { result ≡ outcome_of verdict.now }
{
    match verdict {
        Verdict::Confirmed => Outcome::Confirmed,
        Verdict::Beyond { .. } | Verdict::Doubted { .. } => Outcome::Doubted,
    }
}

/// Writes the title of the table, and its head.
fn write_head<W: Write>(
    answers: &mut W,
    form: Form,
    file: &str,
    headings: &[Heading],
) -> Result<(), ShowFault> {
    tell_line(
        answers,
        form,
        "The plans in |file|, each judged on its own version of the changes:",
        &[("file", Item::Bytes(file.as_bytes()))],
    )?;
    tell_head(answers, form, headings)
}

/// Writes that the text of a plan can't be read.
fn write_unreadable<W: Write>(
    alloc: Global,
    answers: &mut W,
    form: Form,
    number: PlanNumber<'_>,
) -> Result<(), ShowFault> {
    tell(
        alloc,
        answers,
        form,
        &[],
        &[
            "|verdict| |code|: plan |plan|, at line |line|, is not the text of a plan from PLAN to END",
        ],
        &[
            ("what", Item::Text("plan")),
            ("file", Item::Bytes(number.file.as_bytes())),
            ("plan", Item::Number(number.plan)),
            ("line", Item::Number(number.line)),
            ("verdict", Item::Alarm("UNREADABLE")),
            ("code", Item::Text(Code::L11.text())),
        ],
    )
}

/// Writes the number of plans, and how many of them are confirmed, doubted and unreadable.
fn write_totals<W: Write>(
    alloc: Global,
    answers: &mut W,
    form: Form,
    plans: u64,
    counts: Counts,
) -> Result<(), ShowFault> {
    let words = if plans == 1 {
        "1 plan: |confirmed| confirmed, |doubted| doubted, |unreadable| unreadable"
    } else {
        "|plans| plans: |confirmed| confirmed, |doubted| doubted, |unreadable| unreadable"
    };
    tell(
        alloc,
        answers,
        form,
        &[],
        &[words],
        &[
            ("what", Item::Text("totals")),
            ("plans", Item::Number(plans)),
            ("confirmed", Item::Number(counts.confirmed)),
            ("doubted", Item::Number(counts.doubted)),
            ("unreadable", Item::Number(counts.unreadable)),
        ],
    )
}
