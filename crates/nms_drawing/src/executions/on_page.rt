//! Executions on the page of a day: `specs/Pages`.
ghost use Rattle.std.specs.Prelude.{◌≡◌, IfErr, IfOk, IfSome, OnOk, false, option_copied};
ghost use Rattle.nms_drawing.specs.Days.{IsPlanText};
ghost use Rattle.nms_drawing.specs.Drawn.{IsTradedPage};
ghost use Rattle.nms_drawing.specs.Pages.{IsDrawnFault, IsDrawnFile, is_picture_begun};

use super::judged::judge_source;
use super::page_fault::PageFault;
use crate::drawing::{About, Frame, draw_day};
use crate::drawing_fault::DrawingFault;
use nms_fees::Setup;
use nms_quote::Sym;
use nms_show::Ending;
use nms_stream::Tape;
use nms_trades::Timing;
use std::alloc::Global;
use std::io::{Read, Write};

/// Writes the page of a symbol's day along a file of changes, with the executions of a file in that symbol. Each is at its
/// price, and at its time, or at its version if the page counts versions. An execution that names a version has the time of
/// that version.
///
/// After a fault of the input nothing is written. `Refused` if a record of the executions is refused, else `Done`. The page is
/// not flushed.
pub fn draw_executions<C: Read + Drop, E: Read + Drop, W: Write>(
    alloc: Global,
    setup: &Setup,
    changes: C,
    executions: E,
    timing: Option<&Timing<'_>>,
    frame: &Frame<'_>,
    sym: Sym,
    plan: Option<&[u8]>,
    about: &About<'_>,
    answers: &mut W,
) -> Result<Ending, PageFault>
    ensures page { OnOk result (IsTradedPage setup.now (C.remaining changes) (E.remaining executions) frame.now sym (option_copied plan.entry)
        (W.contents answers.old) (W.contents answers.new)) }
    ensures drawn { IfOk result (IsDrawnFile setup.now (C.remaining changes) (E.remaining executions) frame.now.from frame.now.to
        frame.now.own (option_copied frame.now.times)) }
    ensures plan { OnOk result (IfSome (option_copied plan.entry) (IsPlanText setup.now.roster)) }
    ensures refused { IfErr result (IsDrawnFault setup.now (C.remaining changes) (E.remaining executions) (option_copied timing.entry)
        frame.now.from frame.now.to frame.now.own (option_copied frame.now.times) (option_copied plan.entry)) }
    ensures unwritten { IfErr result (λ fault. is_picture_begun fault ≡ false → W.contents answers.new ≡ W.contents answers.old) }
{
    let tape = match Tape::read(alloc, setup, changes) {
        Ok(tape) => tape,
        Err(fault) => return Err(PageFault::Drawing(DrawingFault::Changes(fault))),
    };
    let judged = match judge_source(alloc, &tape, timing, executions) {
        Ok(judged) => judged,
        Err(fault) => return Err(PageFault::Trades(fault)),
    };
    let drawn = draw_day(
        alloc,
        &tape,
        frame,
        sym,
        plan,
        Some(&judged),
        about,
        answers,
    );
    match drawn {
        Ok(_) => Ok(judged.records.ending()),
        Err(fault) => Err(PageFault::Drawing(fault)),
    }
}
