//! Reading files of orders. A line `O` is for one desk (specs/OrderFile).
ghost use Rattle.std.specs.Prelude.{◌≡◌, ◌<◌, All, length, IfErr, IfOk};
ghost use Rattle.csv.specs.Records.{fields_of};
ghost use Rattle.nms_lines.specs.Named.{AreBelow};
ghost use Rattle.nms_files.specs.OrderFile.{AreFileOrders, IsOrderFor, IsOrdersFault, order_reading};

use crate::line_file::{FileItem, outcome, read_items};
use crate::orders_fault::OrdersFault;
use nms_fees::Setup;
use nms_lines::{ByteRecord, Line, LineFault, Reading, RecordFault, read_line};
use nms_quote::{DeskOrder, SideQuote};
use std::alloc::Global;
use std::io::Read;

/// Reads the orders of a file in order, or returns the fault of its first refused line. A line of another kind is `UnknownKind`.
///
/// The file is always read to its end. If it can't be read, that is the fault, even if a line is refused.
pub fn read_orders<R: Read + Drop>(
    alloc: Global,
    setup: &Setup,
    source: R,
) -> Result<Vec<DeskOrder>, OrdersFault>
    ensures orders { IfOk result (λ orders. AreFileOrders setup.now (R.remaining source) orders.items) }
    ensures desks { IfOk result (λ orders. All (λ order. order.desk < setup.now.desks) orders.items) }
    ensures syms { IfOk result (λ orders. All (λ order. order.order.sym < length setup.now.roster.syms) orders.items) }
    ensures named { IfOk result (λ orders. All (λ order. AreBelow (length setup.now.roster.parts) order.order.self_help) orders.items) }
    ensures refused { IfErr result (IsOrdersFault setup.now (R.remaining source)) }
{
    match read_items::<R, DeskOrder>(alloc, setup, source) {
        Ok(taken) => outcome(taken),
        Err(fault) => Err(OrdersFault::Record(fault)),
    }
}

impl FileItem for DeskOrder {
    ghost use Rattle.nms_files.specs.OrderFile.{AreOrdersFor, IsLineFault};

    type Fault = OrdersFault;

    ghost are_taken = { AreOrdersFor };

    ghost is_refused = { IsLineFault };

    fn take_line(
        orders: &mut Vec<DeskOrder>,
        setup: &Setup,
        row: &ByteRecord,
    ) -> Result<(), OrdersFault> {
        let order = match read_order(row, setup) {
            Ok(order) => order,
            Err(fault) => return Err(OrdersFault::Line(fault)),
        };
        match orders.push(order) {
            Ok(()) => Ok(()),
            Err(_) => Err(OrdersFault::Record(RecordFault::NoMemory)),
        }
    }
}

/// The order that a line of a file of orders gives, or why the line is refused.
fn read_order(row: &ByteRecord, setup: &Setup) -> Result<DeskOrder, LineFault>
    ensures line { result ≡ order_reading setup.now (fields_of row.now) }
    ensures there { IfOk result (IsOrderFor setup.now) }
{
    // The prover has to see the types in a line before the line moves, so the code mentions them.
    let _seen: Option<SideQuote> = None;
    let desks = setup.desks();
    match &read_line(row, setup.roster(), Reading::Orders { desks }) {
        Ok(Line::Sweep { desk, order }) => Ok(DeskOrder {
            desk: *desk,
            order: *order,
        }),
        Ok(
            Line::Change(_)
            | Line::TakeOne
            | Line::TakeAll
            | Line::Publish
            | Line::Tell { .. }
            | Line::Best { .. }
            | Line::Through { .. },
        ) => Err(LineFault::UnknownKind),
        Err(fault) => Err(*fault),
    }
}
