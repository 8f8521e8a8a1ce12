//! Calls on one record as text, and on plans as text: `specs/RecordSaid`.
ghost use Rattle.std.specs.Prelude.{◌≡◌, ◌≢◌, ◌⊎◌, Err, IfOk, IfErr, IfSome, List, None, OnErr, OnOk, Some, false, true};
ghost use Rattle.std.specs.Result.{result_err};
ghost use Rattle.csv.specs.Records.{fields_of};
ghost use Rattle.nms_quote.specs.Roster.{holds};
ghost use Rattle.nms_lines.specs.Layout.{Record};
ghost use Rattle.nms_lines.specs.PlanReading.{plan_in};
ghost use Rattle.nms_lines.specs.PlanText.{plan_text};
ghost use Rattle.nms_lines.specs.Records.{AreAllRecords};
ghost use Rattle.nms_calls.specs.Findings.{made_said};
ghost use Rattle.nms_calls.specs.Opened.{sizes_on};
ghost use Rattle.nms_calls.specs.RecordSaid.{HasAppliedRecord, PlanRead, are_narrow, change_of_line, fields_in, order_numbers, plan_text_fault, record_fault, record_said, side_number};
ghost use Rattle.nms_calls.specs.Written.{IsWritten};

use crate::call_fault::CallFault;
use crate::open_board::OpenBoard;
use crate::order_numbers::NmsOrder;
use crate::order_reading::order_of;
use crate::plan_numbers::NmsPlan;
use crate::plan_reading::plan_of;
use crate::plan_writing::put_plan;
use crate::text_writing::put_text;
use crate::{MOST_PLAN_TEXT, MOST_RECORD};
use nms_cert::is_out_of_range;
use nms_fees::SetupFault;
use nms_lines::{
    ByteRecord, Line, LineFault, PlanTextFault, Reading, append_plan, read_line, read_plan_by,
};
use nms_quote::{Certificate, Change, Order, OrderSide, SideQuote};
use nms_units::Lot;
use std::alloc::{AllocError, Global};

impl OpenBoard {
    /// Applies the change that one record says, as in a file of changes, without its end of line. A record over `MOST_RECORD`
    /// bytes is out of range.
    pub fn apply_record(&mut self, text: &[u8]) -> Result<(), CallFault>
        ensures answer { result ≢ Err (CallFault.Setup SetupFault.NoMemory) → result_err result ≡ record_fault self.old text.now }
        ensures applied { OnOk result (HasAppliedRecord text.now self.old self.new) }
        ensures unchanged { OnErr result (self.new ≡ self.old) }
    {
        let change = self.change_in(text)?;
        // The prover has to see the types of a change before the change moves, so the code mentions them.
        let _seen: (Option<SideQuote>, Option<Lot>) = (None, None);
        self.apply_change(change)
    }

    /// The change that a record says.
    fn change_in(&mut self, text: &[u8]) -> Result<Change, CallFault>
        ensures change { result ≢ Err (CallFault.Setup SetupFault.NoMemory) → result ≡ record_said self.old.settings.roster text.now }
        ensures held { IfOk result (λ change. holds (sizes_on self.old) change ≡ true) }
        ensures same { self.new ≡ self.old }
    {
        if text.len() > MOST_RECORD {
            return Err(CallFault::Range);
        }
        let Ok(()) = read_fields(&mut self.row, text) else {
            return Err(CallFault::Setup(SetupFault::NoMemory));
        };
        match read_line(&self.row, self.setup.roster(), Reading::Changes) {
            Ok(line) => change_of_line(line),
            Err(fault) => Err(CallFault::Line(fault)),
        }
    }

    /// Writes the plan for an order, given by numbers, as text with a closing zero.
    pub fn plan_text(
        &mut self,
        order: &NmsOrder,
        plan: &NmsPlan,
        out: &mut [u8],
        bytes: &mut usize,
    ) -> Result<(), CallFault>
        ensures answer { result ≢ Err (CallFault.Setup SetupFault.NoMemory) → result_err result ≡ plan_text_fault self.old order.now plan.now out.old }
        ensures written { OnOk result (IfOk (made_said self.old.settings order.now plan.now)
            (λ made. IsWritten (plan_text self.old.settings.roster made.1.plan made.1.cuts) out.old out.new bytes.new)) }
        ensures same { self.new ≡ self.old }
        ensures unwritten { OnErr result ((out.new ≡ out.old) × (bytes.new ≡ bytes.old)) }
    {
        let order = order_of(self.setup.roster(), order)?;
        let (plan, certificate) = plan_of(self.setup.roster(), &order, plan)?;
        self.text.clear();
        let Ok(()) = append_plan(&mut self.text, self.setup.roster(), &plan, &certificate) else {
            return Err(CallFault::Setup(SetupFault::NoMemory));
        };
        put_text(self.text.as_slice(), out, bytes)
    }

    /// Reads a plan with its order and its certificate from text. A text over `MOST_PLAN_TEXT` bytes is out of range.
    pub fn read_plan(
        &mut self,
        alloc: Global,
        text: &[u8],
        order: &mut NmsOrder,
        out: &mut NmsPlan,
    ) -> Result<(), CallFault>
        ensures faults { IfErr result (λ fault. (fault ≡ CallFault.PlanText) ⊎ ((fault ≡ CallFault.Range) ⊎ (fault ≡ CallFault.Setup SetupFault.NoMemory))) }
        ensures told { PlanRead self.old.settings.roster text.now (result_err result) order.old order.new out.old out.new }
        ensures same { self.new ≡ self.old }
    {
        if text.len() > MOST_PLAN_TEXT {
            return Err(CallFault::Range);
        }
        match read_plan_by(alloc, &mut self.row, text, self.setup.roster()) {
            Ok((plan, certificate)) => {
                if !are_narrow(&certificate) {
                    return Err(CallFault::Range);
                }
                *order = order_numbers(&plan.order);
                put_plan(&plan, &certificate, out);
                Ok(())
            }
            Err(PlanTextFault::NoMemory) => Err(CallFault::Setup(SetupFault::NoMemory)),
            // The call writes nothing to a stream, so no write can fail. A text that is no plan is the only fault that is left.
            Err(PlanTextFault::BadPlanText | PlanTextFault::WriteFault) => Err(CallFault::PlanText),
        }
    }
}

/// Splits a record at its commas into fields.
fn read_fields(row: &mut ByteRecord, text: &[u8]) -> Result<(), AllocError>
    ensures { OnOk result (fields_of row.new ≡ fields_in text.now) }
{
    row.clear();
    for field in text.split(|byte| *byte == b',') {
        row.push_field(field)?;
    }
    Ok(())
}

/// The change that a line says. A line that asks for something else is refused, because a source of changes has only changes.
fn change_of_line(line: Line) -> Result<Change, CallFault>
    ensures { result ≡ change_of_line line }
{
    match line {
        Line::Change(change) => Ok(change),
        Line::TakeOne
        | Line::TakeAll
        | Line::Publish
        | Line::Tell { .. }
        | Line::Best { .. }
        | Line::Through { .. }
        | Line::Sweep { .. } => Err(CallFault::Line(LineFault::UnknownKind)),
    }
}

/// Whether each marginal of a certificate is between -10^18 and 10^18 nanodollars, so that it fits into its number.
fn are_narrow(certificate: &Certificate) -> bool
    ensures { result ≡ are_narrow certificate.now.items }
{
    certificate
        .as_slice()
        .iter()
        .all(|cut| !is_out_of_range(cut.kind))
}

/// The numbers of an order.
fn order_numbers(order: &Order) -> NmsOrder
    ensures { result ≡ order_numbers order.now }
{
    NmsOrder {
        limit: order.limit.get(),
        shares: order.shares.get(),
        self_help: order.self_help.digits(),
        sym: order.sym.get(),
        side: side_number(order.side),
        manual: u8::from(order.manual),
        spare: 0,
    }
}

/// The number of an order's side: 0 buys, 1 sells.
fn side_number(side: OrderSide) -> u8
    ensures { result ≡ side_number side }
{
    match side {
        OrderSide::Buy => 0,
        OrderSide::Sell => 1,
    }
}
