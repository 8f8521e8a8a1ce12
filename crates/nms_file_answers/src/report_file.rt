//! The report of a symbol after all the changes of a file (specs/ReportFile).
ghost use Rattle.std.specs.Prelude.{◌≡◌, ◌<◌, ℕ, List, All, Option, length, IfErr, OnOk};
ghost use Rattle.nms_quote.specs.declared.side_quote.Side.{Side};
ghost use Rattle.nms_board.specs.View.{rows_on};
ghost use Rattle.nms_fees.specs.Settings.{Settings};
ghost use Rattle.nms_lines.specs.Written.{AppendsPart, WritesPart};
ghost use Rattle.nms_text.specs.Report.{IsReport};
ghost use Rattle.std.specs.Io.KnownBytes.{Appends};
ghost use Rattle.nms_file_answers.specs.ReportFile.{IsReportFault, ReportsFile, WritesNothing};

use crate::changes_view::{ViewFault, view_of_file};
use crate::report_fault::ReportFault;
use nms_board::View;
use nms_fees::Setup;
use nms_quote::{Roster, Sym};
use nms_text::{report, tell};
use std::alloc::Global;
use std::io::{Read, Write};

/// Writes the report of a symbol of the roster after all the changes of a file: one write, flushed.
///
/// The file is read first. After `WriteFault` a prefix of that report was written; after any other fault nothing was.
pub fn report_changes<R: Read + Drop, W: Write>(
    alloc: Global,
    setup: &Setup,
    source: R,
    sym: Sym,
    writer: &mut W,
) -> Result<(), ReportFault>
    requires { sym < length setup.now.roster.syms }
    ensures written { OnOk result (ReportsFile setup.now (R.remaining source) sym (W.contents writer.old) (W.contents writer.new)) }
    ensures refused { IfErr result (IsReportFault setup.now (R.remaining source)) }
    ensures cut { IfErr result (λ fault. fault ≡ ReportFault.WriteFault → WritesPart (ReportsFile setup.now (R.remaining source) sym (W.contents writer.old)) (W.contents writer.old) (W.contents writer.new)) }
    ensures unwritten { IfErr result (WritesNothing (W.contents writer.old) (W.contents writer.new)) }
{
    match view_of_file(alloc, setup, source, sym) {
        Ok(view) => report_view(alloc, setup.roster(), &view, writer),
        Err(ViewFault::Changes(fault)) => Err(ReportFault::Changes(fault)),
        Err(ViewFault::Board(fault)) => Err(ReportFault::Board(fault)),
    }
}

/// Writes the report of a view: one write, flushed.
fn report_view<W: Write>(
    alloc: Global,
    roster: &Roster,
    view: &View,
    writer: &mut W,
) -> Result<(), ReportFault>
    requires sym { view.now.sym < length roster.now.syms }
    requires parts { (side : Side) → All (λ row. row.part < length roster.now.parts) (rows_on side view.now) }
    ensures written { OnOk result ((text : List ℕ) × IsReport roster.now view.now text × Appends (W.contents writer.old) (W.contents writer.new) text) }
    ensures refused { (settings : Settings) (bytes : Option (List ℕ)) → IfErr result (IsReportFault settings bytes) }
    ensures cut { IfErr result (λ fault. fault ≡ ReportFault.WriteFault → (text : List ℕ) × IsReport roster.now view.now text × AppendsPart (W.contents writer.old) (W.contents writer.new) text) }
    ensures unwritten { IfErr result (WritesNothing (W.contents writer.old) (W.contents writer.new)) }
{
    let mut text = Vec::new(alloc);
    if report(view, roster, &mut text).is_err() {
        return Err(ReportFault::NoMemory);
    }
    match tell(writer, &text) {
        Ok(()) => Ok(()),
        Err(_) => Err(ReportFault::WriteFault),
    }
}
