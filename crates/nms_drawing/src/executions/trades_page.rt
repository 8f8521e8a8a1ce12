//! The page of a file of executions, which has the days of their symbols. How the call ends: `specs/Pages`.
ghost use Rattle.std.specs.Prelude.{◌≡◌, ◌<◌, All, IfErr, IfOk, None, OnOk, false, length, option_copied, true};
ghost use Rattle.std.specs.Io.KnownBytes.{Appends};
ghost use Rattle.nms_trades.specs.Files.{IsJudgedFile, is_csv, text_in};
ghost use Rattle.nms_drawing.specs.Drawn.{IsTradesFilePage, IsTradesPage, times_in};
ghost use Rattle.nms_drawing.specs.Pages.{IsOutputFault, IsPageFault, is_begun};

use super::judged::{Judged, judge_source};
use super::page_fault::PageFault;
use crate::content::{asides_of, traded_in};
use crate::drawing_fault::DrawingFault;
use crate::page::{Content, write_content};
use crate::rows::Window;
use nms_fees::Setup;
use nms_quote::Sym;
use nms_show::{Ending, Form};
use nms_stream::Tape;
use nms_times::Times;
use nms_trades::{Layout, Timing, write_findings};
use std::alloc::Global;
use std::io::{Read, Write};

/// What the caller asks for about a file of executions, for its answers and for its page.
#[derive(Clone, Copy)]
pub struct Asked<'a> {
    /// The form of the answers.
    pub form: Form,
    /// The layout of the answers.
    pub layout: Layout,
    /// The pairs of a key and its text that say what the page was made from.
    pub pairs: &'a [&'a [u8]],
    /// Whether the page has only best quotations, and no boards.
    pub bests: bool,
}

/// Judges the executions of a file, writes the answers about them, and also writes a page. The page has the days of their
/// symbols, with each execution and the quotations that it traded through.
///
/// `Refused` if a record is refused, else `Done`. Nothing is flushed.
pub fn write_page<C: Read + Drop, E: Read + Drop, W: Write, P: Write>(
    alloc: Global,
    setup: &Setup,
    changes: C,
    executions: E,
    timing: Option<&Timing<'_>>,
    asked: &Asked<'_>,
    page: &mut P,
    answers: &mut W,
) -> Result<Ending, PageFault>
    ensures judged { IfOk result (IsJudgedFile setup.now (C.remaining changes) (E.remaining executions) asked.now.form asked.now.layout
        (W.contents answers.old) (W.contents answers.new)) }
    ensures page { OnOk result (IsTradesFilePage setup.now (C.remaining changes) (E.remaining executions) (option_copied timing.entry) asked.now (P.contents page.old)
        (P.contents page.new)) }
    ensures refused { IfErr result (IsPageFault setup.now (C.remaining changes) (E.remaining executions) (option_copied timing.entry)) }
    ensures unwritten { IfErr result (λ fault. is_begun fault ≡ false
        → (W.contents answers.new ≡ W.contents answers.old) × (P.contents page.new ≡ P.contents page.old)) }
{
    let tape = match Tape::read(alloc, setup, changes) {
        Ok(tape) => tape,
        Err(fault) => return Err(PageFault::Drawing(DrawingFault::Changes(fault))),
    };
    let judged = match judge_source(alloc, &tape, timing, executions) {
        Ok(judged) => judged,
        Err(fault) => return Err(PageFault::Trades(fault)),
    };
    match write_both(alloc, &tape, &judged, timing, asked, page, answers) {
        Ok(()) => Ok(judged.records.ending()),
        Err(fault) => Err(fault),
    }
}

/// Writes the answers, and then the page.
fn write_both<W: Write, P: Write>(
    alloc: Global,
    tape: &Tape<'_>,
    judged: &Judged,
    timing: Option<&Timing<'_>>,
    asked: &Asked<'_>,
    page: &mut P,
    answers: &mut W,
) -> Result<(), PageFault>
    requires places { length judged.now.findings.items ≡ length judged.now.records.executions.items }
    requires symbols { All (λ execution. execution.sym < length tape.now.roster.now.syms) judged.now.records.executions.items }
    ensures page { OnOk result (IsTradesPage tape.now.roster.now tape.now.changes.items (option_copied timing.entry) asked.now judged.now.records.executions.items judged.now.findings.items
        (P.contents page.old) (P.contents page.new)) }
    ensures written { is_csv asked.now.layout asked.now.form ≡ true → OnOk result (Appends (W.contents answers.old) (W.contents answers.new)
        (text_in asked.now.layout tape.now.roster.now judged.now.records.executions.items judged.now.records.refused.items judged.now.findings.items)) }
    ensures refused { IfErr result IsOutputFault }
{
    match write_findings(
        alloc,
        tape.roster,
        &judged.records,
        &judged.findings,
        asked.form,
        asked.layout,
        answers,
    ) {
        Ok(()) => write_judged(alloc, tape, judged, timing, asked, page),
        Err(fault) => Err(PageFault::Trades(fault)),
    }
}

/// Writes the page of executions that were judged.
fn write_judged<P: Write>(
    alloc: Global,
    tape: &Tape<'_>,
    judged: &Judged,
    timing: Option<&Timing<'_>>,
    asked: &Asked<'_>,
    page: &mut P,
) -> Result<(), PageFault>
    requires places { length judged.now.findings.items ≡ length judged.now.records.executions.items }
    requires symbols { All (λ execution. execution.sym < length tape.now.roster.now.syms) judged.now.records.executions.items }
    ensures page { OnOk result (IsTradesPage tape.now.roster.now tape.now.changes.items (option_copied timing.entry) asked.now judged.now.records.executions.items judged.now.findings.items
        (P.contents page.old) (P.contents page.new)) }
    ensures refused { IfErr result IsOutputFault }
{
    let Ok(traded) = traded_in(alloc, tape.roster, &judged.records.executions) else {
        return Err(PageFault::Drawing(DrawingFault::NoMemory));
    };
    let window = Window {
        days: &traded.days,
        times: times_of(timing),
        opening: 0,
        from: 0,
        to: tape.changes.len() as u64,
        since: 0,
        until: u64::MAX,
        timed: timing.is_some(),
        bests: asked.bests,
    };
    let aside = [asides_of(Some(judged))];
    let content = content_of(
        &*tape,
        &*judged,
        &window,
        &traded.symbols,
        &*asked.pairs,
        &aside,
    );
    match write_content(alloc, &content, page) {
        Ok(_) => Ok(()),
        Err(fault) => Err(PageFault::Drawing(fault)),
    }
}

/// The times of the versions, if there are any.
fn times_of<'a>(timing: Option<&Timing<'a>>) -> Option<&'a Times>
    ensures { option_copied result ≡ times_in (option_copied timing.entry) }
{
    match timing {
        Some(timing) => Some(timing.times),
        None => None,
    }
}

/// The content from which the page is made.
fn content_of<'x>(
    tape: &'x Tape<'x>,
    judged: &'x Judged,
    window: &'x Window<'x>,
    symbols: &'x [Sym],
    about: &'x [&'x [u8]],
    aside: &'x [[u64; 2]],
) -> Content<'x>
    ensures tape { result.tape.now ≡ tape.now }
    ensures window { result.window.now ≡ window.now }
    ensures executions { result.executions.now ≡ judged.now.records.executions.items }
    ensures findings { result.findings.now ≡ judged.now.findings.items }
    ensures symbols { result.symbols.now ≡ symbols.now }
    ensures plan { result.plan ≡ None }
{
    Content {
        tape,
        window,
        symbols,
        executions: &judged.records.executions,
        findings: &judged.findings,
        aside,
        plan: None,
        name: "",
        about,
    }
}
