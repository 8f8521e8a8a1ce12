//! Serving one record of a script: the machine moves, and its answer is added to the answer's text (`Serves` of specs/Script).
ghost use Rattle.std.specs.Prelude.{◌≡◌, ◌<◌, ◌++◌, length, true, Some, Ok, Err, IfOk, OnOk};
ghost use Rattle.csv.specs.Records.{fields_of};
ghost use Rattle.nms_quote.specs.Roster.{holds, sizes_of};
ghost use Rattle.nms_lines.specs.LineOf.{IsThere};
ghost use Rattle.nms_lines.specs.Text.{text_of};
ghost use Rattle.nms_scripts.specs.Told.{told_by};
ghost use Rattle.nms_flow.specs.Flow.{room_of, room_under};
ghost use Rattle.nms_flow.specs.declared.step.Step.TheVariants as step;
ghost use Rattle.nms_scripts.specs.Script.{AnswersLine, AnswersRecord, AsksAll, AsksOne, IsRefused, Sends, Serves, ShowsBest, ShowsPlan, ShowsThrough};

use crate::through::{is_beyond, tell_through};
use nms_fees::Setup;
use nms_flow::{Flow, StepFault};
use nms_lines::{ByteRecord, Line, LineFault, Reading, append_plan, read_line};
use nms_quote::{Change, Order, Roster, Sym};
use nms_sweep::Planner;
use nms_text::{tell_best, tell_published, tell_refusal, tell_taken, tell_through_head, tell_told};
use nms_units::Price;
use std::alloc::AllocError;

/// Answers a record: moves the machine, and appends its answer. Returns whether it was refused. If out of memory, the machine
/// is as the record's steps so far left it.
pub fn serve(
    flow: &mut Flow,
    setup: &Setup,
    row: &ByteRecord,
    number: u64,
    planner: &mut Planner,
    out: &mut Vec<u8>,
) -> Result<bool, AllocError>
    requires { room_of flow.old ≡ room_under setup.now }
    ensures served { IfOk result (Serves (AnswersRecord setup.now number (fields_of row.now)) flow.old flow.new (Some out.old.items) (Some out.new.items)) }
    ensures room { room_of flow.new ≡ room_of flow.old }
{
    let desks = setup.desks();
    let read = read_line(row, setup.roster(), Reading::Script { desks });
    match &read {
        Ok(line) => serve_line(flow, setup, line, number, planner, out),
        Err(fault) => refuse(flow, number, *fault, out),
    }
}

/// Refuses a record, which moves nothing.
fn refuse(flow: &Flow, number: u64, fault: LineFault, out: &mut Vec<u8>) -> Result<bool, AllocError>
    ensures { IfOk result (Serves (IsRefused number fault) flow.now flow.now (Some out.old.items) (Some out.new.items)) }
{
    let _ = flow;
    tell_refusal(out, number, fault.code())?;
    Ok(true)
}

/// Answers a record that was read without a fault, by its kind.
fn serve_line(
    flow: &mut Flow,
    setup: &Setup,
    line: &Line,
    number: u64,
    planner: &mut Planner,
    out: &mut Vec<u8>,
) -> Result<bool, AllocError>
    requires room { room_of flow.old ≡ room_under setup.now }
    requires there { IsThere (sizes_of setup.now.roster) setup.now.desks line.now }
    ensures served { IfOk result (Serves (AnswersLine setup.now number line.now) flow.old flow.new (Some out.old.items) (Some out.new.items)) }
    ensures room { room_of flow.new ≡ room_of flow.old }
{
    match line {
        Line::Change(change) => serve_change(flow, setup.roster(), change, number, out),
        Line::TakeOne => serve_take(flow, number, out),
        Line::TakeAll => serve_take_all(flow, number, out),
        Line::Publish => serve_publish(flow, number, out),
        Line::Tell { desk } => serve_tell(flow, *desk, number, out),
        Line::Best { desk, sym } => serve_best(flow, setup.roster(), *desk, *sym, out),
        Line::Through { desk, sym, price } => {
            serve_through(flow, setup.roster(), *desk, *sym, *price, out)
        }
        Line::Sweep { desk, order } => serve_sweep(flow, setup, *desk, order, planner, out),
    }
}

/// Sends a change to the queue, on the feed that it belongs to.
fn serve_change(
    flow: &mut Flow,
    roster: &Roster,
    change: &Change,
    number: u64,
    out: &mut Vec<u8>,
) -> Result<bool, AllocError>
    requires held { holds flow.old.board.sizes change.now ≡ true }
    requires sizes { flow.old.board.sizes ≡ sizes_of roster.now }
    ensures served { IfOk result (Serves (Sends roster.now number change.now) flow.old flow.new (Some out.old.items) (Some out.new.items)) }
    ensures room { room_of flow.new ≡ room_of flow.old }
{
    let feed = roster.feed_of_change(change);
    match flow.send(feed, *change) {
        Ok(()) => Ok(false),
        Err(fault) => refuse_step(out, number, fault),
    }
}

/// Appends the `ERR` record for a step that the machine refused.
fn refuse_step(out: &mut Vec<u8>, number: u64, fault: StepFault) -> Result<bool, AllocError>
    ensures { IfOk result (λ refused. (refused ≡ true) × (out.new.items ≡ out.old.items ++ text_of (told_by number (Err fault)))) }
{
    tell_refusal(out, number, fault.code())?;
    Ok(true)
}

/// Takes one change from the queue to the tape. Out of memory ends the script.
fn serve_take(flow: &mut Flow, number: u64, out: &mut Vec<u8>) -> Result<bool, AllocError>
    ensures served { IfOk result (Serves (AsksOne number step.Take) flow.old flow.new (Some out.old.items) (Some out.new.items)) }
    ensures room { room_of flow.new ≡ room_of flow.old }
{
    match flow.take() {
        Ok(version) => {
            tell_taken(out, version)?;
            Ok(false)
        }
        Err(fault) => match fault {
            StepFault::NoMemory => Err(AllocError),
            fault => refuse_step(out, number, fault),
        },
    }
}

/// Takes changes from the queue to the tape until the queue is empty, then publishes the tape. A full tape ends the taking, and
/// what was taken stays. Out of memory ends the script.
fn serve_take_all(flow: &mut Flow, number: u64, out: &mut Vec<u8>) -> Result<bool, AllocError>
    ensures served { IfOk result (Serves (AsksAll number) flow.old flow.new (Some out.old.items) (Some out.new.items)) }
    ensures room { room_of flow.new ≡ room_of flow.old }
{
    match flow.take_all() {
        StepFault::QueueEmpty => {
            tell_published(out, flow.publish())?;
            Ok(false)
        }
        StepFault::NoMemory => Err(AllocError),
        fault => refuse_step(out, number, fault),
    }
}

/// Publishes the tape.
fn serve_publish(flow: &mut Flow, number: u64, out: &mut Vec<u8>) -> Result<bool, AllocError>
    ensures served { IfOk result (Serves (AsksOne number step.Publish) flow.old flow.new (Some out.old.items) (Some out.new.items)) }
    ensures room { room_of flow.new ≡ room_of flow.old }
{
    let _ = number;
    tell_published(out, flow.publish())?;
    Ok(false)
}

/// Lets a desk learn of the published version.
fn serve_tell(flow: &Flow, desk: u8, number: u64, out: &mut Vec<u8>) -> Result<bool, AllocError>
    ensures { IfOk result (Serves (AsksOne number (step.Tell desk)) flow.now flow.now (Some out.old.items) (Some out.new.items)) }
{
    let _ = number;
    tell_told(out, desk, flow.published())?;
    Ok(false)
}

/// Lets a desk look, and appends the national best bid and offer that it saw.
fn serve_best(
    flow: &Flow,
    roster: &Roster,
    desk: u8,
    sym: Sym,
    out: &mut Vec<u8>,
) -> Result<bool, AllocError>
    requires room { flow.now.board.sizes ≡ sizes_of roster.now }
    requires sym { sym < length roster.now.syms }
    ensures { IfOk result (Serves (ShowsBest roster.now desk sym) flow.now flow.now (Some out.old.items) (Some out.new.items)) }
{
    let best = flow.best(sym);
    tell_best(
        out,
        roster,
        desk,
        sym,
        flow.published(),
        &best.bid,
        &best.offer,
    )?;
    Ok(false)
}

/// Lets a desk look, and appends the protected quotations that a trade at the price trades through. If the price is between the
/// best bid and the best offer, there are none, and no view is made.
fn serve_through(
    flow: &Flow,
    roster: &Roster,
    desk: u8,
    sym: Sym,
    price: Price,
    out: &mut Vec<u8>,
) -> Result<bool, AllocError>
    requires room { flow.now.board.sizes ≡ sizes_of roster.now }
    requires sym { sym < length roster.now.syms }
    ensures { IfOk result (Serves (ShowsThrough roster.now desk sym price) flow.now flow.now (Some out.old.items) (Some out.new.items)) }
{
    let rows = flow.best(sym);
    if is_beyond(&rows, price) {
        return list_through(flow, roster, desk, sym, price, out);
    }
    tell_through_head(out, roster, desk, sym, flow.published(), price, 0)?;
    Ok(false)
}

/// Appends the protected quotations that a desk sees and that a trade at the price trades through.
///
/// It is not inlined, because a view is large, and the other records should pay nothing for it.
#[inline(never)]
fn list_through(
    flow: &Flow,
    roster: &Roster,
    desk: u8,
    sym: Sym,
    price: Price,
    out: &mut Vec<u8>,
) -> Result<bool, AllocError>
    requires room { flow.now.board.sizes ≡ sizes_of roster.now }
    requires sym { sym < length roster.now.syms }
    ensures { IfOk result (Serves (ShowsThrough roster.now desk sym price) flow.now flow.now (Some out.old.items) (Some out.new.items)) }
{
    let view = flow.look(sym);
    tell_through(out, roster, desk, &view, price)?;
    Ok(false)
}

/// Lets a desk look, plans its order on what it sees, and appends the plan with its certificate. The planner reads the rows off
/// the board, so no view is made, and keeps its rooms from one order to the next.
fn serve_sweep(
    flow: &Flow,
    setup: &Setup,
    desk: u8,
    order: &Order,
    planner: &mut Planner,
    out: &mut Vec<u8>,
) -> Result<bool, AllocError>
    requires room { flow.now.board.sizes ≡ sizes_of setup.now.roster }
    requires sym { order.now.sym < length setup.now.roster.syms }
    ensures { IfOk result (Serves (ShowsPlan setup.now desk order.now) flow.now flow.now (Some out.old.items) (Some out.new.items)) }
{
    let _ = desk;
    planner.plan_on(flow.board(), order, setup.fees());
    append_plan(out, setup.roster(), planner.plan(), planner.certificate())?;
    Ok(false)
}
