//! A symbol's day as a page, with a plan and executions: `specs/Days`.
ghost use Rattle.std.specs.Prelude.{◌≡◌, ◌≤◌, ◌∷◌, [], IfErr, IfOk, IfSome, List, ℕ, None, OnOk, Option, false, if◌then◌else◌, is_some, length, option_copied, option_map};
ghost use Rattle.nms_quote.specs.Roster.{Listing};
ghost use Rattle.nms_drawing.specs.Days.{Fits, FitsFile, IsDayFault, IsFileDayFault, IsPlanText, last_drawn};
ghost use Rattle.nms_drawing.specs.Drawn.{IsDayPage, IsFilePage, IsFramedPage, found_of, is_shown_state, shown_plan, since_of, traded_of, until_of};
ghost use Rattle.nms_drawing.specs.Faults.{is_begun, is_of_input};
ghost use Rattle.nms_drawing.specs.Page.{WritesPage};

use crate::content::{asides_of, days_of_symbol, executions_of, findings_of};
use crate::drawing_fault::DrawingFault;
use crate::executions::Judged;
use crate::page::{Content, write_content};
use crate::rows::Window;
use nms_fees::Setup;
use nms_lines::read_plan;
use nms_quote::{Plan, Sym};
use nms_show::Ending;
use nms_stream::Tape;
use nms_times::{TimeOfDay, Times};
use nms_verdicts::{Said, report_plan};
use std::alloc::{AllocError, Global};
use std::io::{Read, Write};

/// Which part of a day a page shows.
#[derive(Clone, Copy)]
pub struct Frame<'a> {
    /// The first version that is shown.
    pub from: u64,
    /// The last version that is shown; `None` for the last one of the file.
    pub to: Option<u64>,
    /// Whether the page counts versions, although there are times.
    pub own: bool,
    /// The times of the changes, for an axis of clock time. The times between the shown versions may not fall.
    pub times: Option<&'a Times>,
    /// The version before the symbol's first change, in a file sorted by symbol; else 0. It has no time.
    pub opening: u64,
    /// The time at which the page begins, if one was given. Executions before it are not shown.
    pub since: Option<TimeOfDay>,
    /// The time at which the page ends, if one was given. Executions after it are not shown.
    pub until: Option<TimeOfDay>,
    /// Whether the page has only best quotations, and no boards.
    pub bests: bool,
}

/// What the page says about its sources.
#[derive(Clone, Copy)]
pub struct About<'a> {
    /// Pairs of a key and its text.
    pub pairs: &'a [&'a [u8]],
    /// The name of the plan.
    pub plan: &'a str,
}

/// Writes the page of a symbol's day along a file of changes: its best bid and best offer, and the boards. It also shows the
/// plan of a text on its version, with its verdict and the quotations that it passed over. A plan on another symbol, or on a
/// version that is not shown, is named and not shown.
///
/// `VersionBeyondTape` if the file has fewer changes than the versions that are shown. `Times` if there is not one time for
/// each change, or if the times fall between the shown versions. After a fault of the changes, of the times or of the plan's
/// text nothing is written. The page is not flushed.
pub fn draw_changes<R: Read + Drop, W: Write>(
    alloc: Global,
    setup: &Setup,
    source: R,
    frame: &Frame<'_>,
    sym: Sym,
    plan: Option<&[u8]>,
    about: &About<'_>,
    answers: &mut W,
) -> Result<Ending, DrawingFault>
    ensures page { OnOk result (IsFilePage setup.now (R.remaining source) frame.now sym (option_copied plan.entry) (W.contents answers.old)
        (W.contents answers.new)) }
    ensures drawn { OnOk result (FitsFile setup.now (R.remaining source) frame.now.from frame.now.to frame.now.own (option_copied frame.now.times)) }
    ensures plan { OnOk result (IfSome (option_copied plan.entry) (IsPlanText setup.now.roster)) }
    ensures refused { IfErr result (IsFileDayFault setup.now (R.remaining source) frame.now.from frame.now.to frame.now.own
        (option_copied frame.now.times) (option_copied plan.entry)) }
    ensures unwritten { IfErr result (λ fault. is_begun fault ≡ false → W.contents answers.new ≡ W.contents answers.old) }
{
    match Tape::read(alloc, setup, source) {
        Ok(tape) => draw_day(alloc, &tape, frame, sym, plan, None, about, answers),
        Err(fault) => Err(DrawingFault::Changes(fault)),
    }
}

/// Writes the page of a symbol's day along a tape, with a plan and with the executions of that symbol, if any are given.
pub(crate) fn draw_day<W: Write>(
    alloc: Global,
    tape: &Tape<'_>,
    frame: &Frame<'_>,
    sym: Sym,
    plan: Option<&[u8]>,
    judged: Option<&Judged>,
    about: &About<'_>,
    answers: &mut W,
) -> Result<Ending, DrawingFault>
    requires places { IfSome (option_copied judged) (λ judged. length judged.findings.items ≡ length judged.records.executions.items) }
    ensures page { OnOk result (IsDayPage tape.now.setup.now tape.now.changes.items frame.now sym (option_copied plan.entry)
        (traded_of (option_copied judged.entry)) (found_of (option_copied judged.entry)) (W.contents answers.old) (W.contents answers.new)) }
    ensures drawn { OnOk result (Fits frame.now.from frame.now.to frame.now.own (option_copied frame.now.times) tape.now.changes.items) }
    ensures plan { OnOk result (IfSome (option_copied plan.entry) (IsPlanText tape.now.roster.now)) }
    ensures refused { IfErr result (IsDayFault tape.now.roster.now tape.now.changes.items frame.now.from frame.now.to frame.now.own
        (option_copied frame.now.times) (option_copied plan.entry)) }
    ensures unwritten { IfErr result (λ fault. is_begun fault ≡ false → W.contents answers.new ≡ W.contents answers.old) }
{
    let to = match last_of(tape, frame) {
        Ok(to) => to,
        Err(fault) => return Err(fault),
    };
    let Some(text) = plan else {
        return draw_on(alloc, tape, frame, to, sym, None, judged, about, answers);
    };
    let (plan, certificate) = match read_plan(alloc, text, tape.roster) {
        Ok(read) => read,
        Err(fault) => return Err(DrawingFault::Plan(fault)),
    };
    let said = match report_plan(alloc, tape, frame.times, about.plan, &plan, &certificate) {
        Ok(said) => said,
        Err(fault) => return Err(DrawingFault::Board(fault)),
    };
    draw_on(
        alloc,
        tape,
        frame,
        to,
        sym,
        Some((&plan, &said)),
        judged,
        about,
        answers,
    )
}

/// The last version that a frame shows.
fn last_of(tape: &Tape<'_>, frame: &Frame<'_>) -> Result<u64, DrawingFault>
    ensures fits { IfOk result (λ to. Fits frame.now.from frame.now.to frame.now.own (option_copied frame.now.times) tape.now.changes.items) }
    ensures last { IfOk result (λ to. to ≡ last_drawn frame.now.to tape.now.changes.items) }
    ensures refused { (roster : Listing) (plan : Option (List ℕ)) → IfErr result (IsDayFault roster tape.now.changes.items frame.now.from frame.now.to
        frame.now.own (option_copied frame.now.times) plan) }
{
    let all = tape.changes.len() as u64;
    let to = match frame.to {
        Some(to) => to,
        None => all,
    };
    if frame.from > to || to > all {
        return Err(DrawingFault::VersionBeyondTape);
    }
    if !frame.own {
        if let Some(times) = frame.times {
            times.check_len(tape.changes.len())?;
            times.rising_between(frame.from as usize, to as usize)?;
        }
    }
    Ok(to)
}

/// Writes the page of a day, with a plan and the remarks about it.
fn draw_on<W: Write>(
    alloc: Global,
    tape: &Tape<'_>,
    frame: &Frame<'_>,
    to: u64,
    sym: Sym,
    plan: Option<(&Plan, &Said)>,
    judged: Option<&Judged>,
    about: &About<'_>,
    answers: &mut W,
) -> Result<Ending, DrawingFault>
    requires order { frame.now.from ≤ to }
    requires within { to ≤ length tape.now.changes.items }
    requires places { IfSome (option_copied judged) (λ judged. length judged.findings.items ≡ length judged.records.executions.items) }
    ensures page { OnOk result (IsFramedPage tape.now.roster.now tape.now.changes.items to frame.now sym
        (option_map (λ given. (given.0.now, given.1.now)) plan.entry) (traded_of (option_copied judged.entry))
        (found_of (option_copied judged.entry)) (W.contents answers.old) (W.contents answers.new)) }
    ensures own { IfErr result (λ fault. is_of_input fault ≡ false) }
    ensures unwritten { IfErr result (λ fault. is_begun fault ≡ false → W.contents answers.new ≡ W.contents answers.old) }
{
    let Ok(days) = days_of_symbol(alloc, tape.roster, sym) else {
        return Err(DrawingFault::NoMemory);
    };
    let window = Window {
        days: &days,
        times: frame.times,
        opening: frame.opening,
        from: frame.from,
        to,
        since: since_of(frame),
        until: until_of(frame),
        timed: frame.times.is_some() && !frame.own,
        bests: frame.bests,
    };
    draw_window(alloc, tape, &window, sym, plan, judged, about, answers)
}

/// The time from which executions are shown, in nanoseconds since midnight.
fn since_of(frame: &Frame<'_>) -> u64
    ensures { result ≡ since_of frame.now.since }
{
    match frame.since {
        Some(time) => time.since_midnight(),
        None => 0,
    }
}

/// The time up to which executions are shown, in nanoseconds since midnight.
fn until_of(frame: &Frame<'_>) -> u64
    ensures { result ≡ until_of frame.now.until }
{
    match frame.until {
        Some(time) => time.since_midnight(),
        None => u64::MAX,
    }
}

/// Writes the page of a symbol between two versions, the window, with a plan and with executions that were judged.
fn draw_window<W: Write>(
    alloc: Global,
    tape: &Tape<'_>,
    window: &Window<'_>,
    sym: Sym,
    plan: Option<(&Plan, &Said)>,
    judged: Option<&Judged>,
    about: &About<'_>,
    answers: &mut W,
) -> Result<Ending, DrawingFault>
    requires days { length window.now.days.now ≡ length tape.now.roster.now.syms }
    requires order { window.now.from ≤ window.now.to }
    requires within { window.now.to ≤ length tape.now.changes.items }
    requires places { IfSome (option_copied judged) (λ judged. length judged.findings.items ≡ length judged.records.executions.items) }
    ensures page { OnOk result (WritesPage tape.now.roster.now tape.now.changes.items window.now (sym ∷ []) (traded_of (option_copied judged.entry))
        (found_of (option_copied judged.entry)) (shown_plan window.now sym (option_map (λ given. (given.0.now, given.1.now)) plan.entry))
        (W.contents answers.old) (W.contents answers.new)) }
    ensures own { IfErr result (λ fault. is_of_input fault ≡ false) }
    ensures unwritten { IfErr result (λ fault. is_begun fault ≡ false → W.contents answers.new ≡ W.contents answers.old) }
{
    let state = state_of(plan, window, sym);
    let Ok(pairs) = pairs_of(alloc, about, state) else {
        return Err(DrawingFault::NoMemory);
    };
    let symbols = [sym];
    let aside = [asides_of(judged)];
    let content = Content {
        tape,
        window,
        symbols: &symbols,
        executions: executions_of(judged),
        findings: findings_of(judged),
        aside: &aside,
        plan: if state.is_shown() { plan } else { None },
        name: about.plan,
        about: &pairs,
    };
    write_content(alloc, &content, answers)
}

/// Whether a page shows a plan.
#[derive(Clone, Copy)]
enum PlanState {
    /// There is no plan.
    Nothing,
    /// The plan is shown.
    Shown,
    /// The plan is of another symbol.
    OtherSymbol,
    /// The file does not have the plan's version.
    LaterVersion,
    /// The page does not show the plan's version.
    OtherVersion,
}

impl PlanState {
    /// Whether the page shows the plan.
    fn is_shown(self) -> bool
        ensures { result ≡ is_shown_state self }
    {
        matches!(self, PlanState::Shown)
    }

    /// Why the page does not show the plan, in words. The text is empty if the plan is shown, or if there is none.
    fn sentence(self) -> &'static str {
        match self {
            PlanState::Nothing | PlanState::Shown => "",
            PlanState::OtherSymbol => "it is of another symbol, and is not shown",
            PlanState::LaterVersion => "it is on a version that is not there, and is not shown",
            PlanState::OtherVersion => "it is on a version before or after these, and is not shown",
        }
    }
}

/// Whether a page shows a plan, and if it does not, why.
fn state_of(plan: Option<(&Plan, &Said)>, window: &Window<'_>, sym: Sym) -> PlanState
    ensures { is_shown_state result
        ≡ is_some (shown_plan window.now sym (option_map (λ given. (given.0.now, given.1.now)) plan.entry)) }
{
    match plan {
        None => PlanState::Nothing,
        Some((plan, _)) if plan.order.sym != sym => PlanState::OtherSymbol,
        Some((_, said)) if said.is_beyond => PlanState::LaterVersion,
        Some((plan, _)) if plan.version < window.from || plan.version > window.to => {
            PlanState::OtherVersion
        }
        Some(_) => PlanState::Shown,
    }
}

/// The pairs that say what a page was made from, with the state of a plan that is not shown.
fn pairs_of<'a>(
    alloc: Global,
    about: &About<'a>,
    state: PlanState,
) -> Result<Vec<&'a [u8]>, AllocError> {
    let mut pairs = Vec::new(alloc);
    match add_pairs(&mut pairs, about, state) {
        Ok(()) => Ok(pairs),
        Err(fault) => Err(fault),
    }
}

/// Adds the pairs that say what a page was made from, and a pair about a plan that is not shown.
fn add_pairs<'a>(
    pairs: &mut Vec<&'a [u8]>,
    about: &About<'a>,
    state: PlanState,
) -> Result<(), AllocError> {
    pairs.extend_from_slice(about.pairs)?;
    let sentence = state.sentence();
    if !sentence.is_empty() {
        pairs.push(b"the plan")?;
        pairs.push(sentence.as_bytes())?;
    }
    Ok(())
}
