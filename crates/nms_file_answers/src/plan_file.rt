//! The plan of an order on all the changes of a file (specs/PlanFile).
ghost use Rattle.std.specs.Prelude.{◌≡◌, ◌≢◌, ◌<◌, ℕ, List, All, Option, length, IfErr, OnOk};
ghost use Rattle.nms_quote.specs.declared.side_quote.Side.{Side};
ghost use Rattle.nms_board.specs.View.{rows_on};
ghost use Rattle.nms_lines.specs.Named.{AreBelow};
ghost use Rattle.nms_lines.specs.Written.{WritesPart};
ghost use Rattle.nms_file_answers.specs.PlanFile.{IsPlanFault, PlansFile, PlansOn};

use crate::changes_view::{ViewFault, view_of_file};
use crate::plan_fault::PlanFault;
use nms_board::View;
use nms_fees::Setup;
use nms_lines::{PlanTextFault, write_plan};
use nms_quote::Order;
use nms_sweep::plan;
use nms_text::TextFault;
use std::alloc::Global;
use std::io::{Read, Write};

/// Plans an order on all the changes of a file, and writes it with its certificate as text, flushed (17 CFR 242.600,
/// "intermarket sweep order").
///
/// The plan is accepted with its certificate on what the changes show, with the fees of the setup. No lawful plan fills more
/// shares, or as many for less. The file is read first. If the writer fails, a prefix of that text was written; after any other
/// fault nothing was. The order's symbol is on the setup's roster, and so are the participants that it names.
pub fn plan_changes<R: Read + Drop, W: Write>(
    alloc: Global,
    setup: &Setup,
    source: R,
    order: &Order,
    writer: &mut W,
) -> Result<(), PlanFault>
    requires sym { order.now.sym < length setup.now.roster.syms }
    requires self_help { AreBelow (length setup.now.roster.parts) order.now.self_help }
    ensures written { OnOk result (PlansFile setup.now (R.remaining source) order.now (W.contents writer.old) (W.contents writer.new)) }
    ensures refused { IfErr result (IsPlanFault setup.now (R.remaining source)) }
    ensures cut { IfErr result (λ fault. fault ≡ PlanFault.Text TextFault.WriteFault → WritesPart (PlansFile setup.now (R.remaining source) order.now (W.contents writer.old)) (W.contents writer.old) (W.contents writer.new)) }
    ensures unwritten { IfErr result (λ fault. fault ≢ PlanFault.Text TextFault.WriteFault → W.contents writer.new ≡ W.contents writer.old) }
{
    match view_of_file(alloc, setup, source, order.sym) {
        Ok(view) => plan_view(alloc, setup, &view, order, writer),
        Err(ViewFault::Changes(fault)) => Err(PlanFault::Changes(fault)),
        Err(ViewFault::Board(fault)) => Err(PlanFault::Board(fault)),
    }
}

/// Plans an order on a view, and writes the plan with its certificate.
fn plan_view<W: Write>(
    alloc: Global,
    setup: &Setup,
    view: &View,
    order: &Order,
    writer: &mut W,
) -> Result<(), PlanFault>
    requires same { order.now.sym ≡ view.now.sym }
    requires sym { order.now.sym < length setup.now.roster.syms }
    requires self_help { AreBelow (length setup.now.roster.parts) order.now.self_help }
    requires parts { (side : Side) → All (λ row. row.part < length setup.now.roster.parts) (rows_on side view.now) }
    ensures written { OnOk result (PlansOn setup.now view.now order.now (W.contents writer.old) (W.contents writer.new)) }
    ensures refused { (bytes : Option (List ℕ)) → IfErr result (IsPlanFault setup.now bytes) }
    ensures cut { IfErr result (λ fault. fault ≡ PlanFault.Text TextFault.WriteFault → WritesPart (PlansOn setup.now view.now order.now (W.contents writer.old)) (W.contents writer.old) (W.contents writer.new)) }
    ensures unwritten { IfErr result (λ fault. fault ≢ PlanFault.Text TextFault.WriteFault → W.contents writer.new ≡ W.contents writer.old) }
{
    let (plan, certificate) = plan(view, order, setup.fees());
    match write_plan(alloc, &plan, &certificate, setup.roster(), writer) {
        Ok(()) => {}
        Err(PlanTextFault::NoMemory) => return Err(PlanFault::Text(TextFault::NoMemory)),
        Err(PlanTextFault::WriteFault) => return Err(PlanFault::Text(TextFault::WriteFault)),
        Err(PlanTextFault::BadPlanText) => unreachable!(),
    }
    match writer.flush() {
        Ok(()) => Ok(()),
        Err(_) => Err(PlanFault::Text(TextFault::WriteFault)),
    }
}
