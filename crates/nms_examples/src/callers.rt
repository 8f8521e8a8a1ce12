//! Callers of these crates as another repository writes them. `docs/CALLING.md` shows all but `again`, which `tests/hostile.py`
//! runs while memory is refused. Here each is called once.
mod again;
mod board;
mod machine;
mod sweeping;
mod threads;

use crate::Failed;
use crate::lines::{around, or_failed, some_or_failed};
use crate::offers::quotation;
use crate::setups::{built_in, wide};
use nms_board::Boards;
use nms_fees::Setup;
use nms_quote::{Change, Feed, Order, OrderSide, PartSet, SideQuote, Sym};
use nms_units::{Price, Shares};
use std::alloc::Global;
use std::io::Write;
use std::sync::Wait;
use std::thread::Threads;

/// The setup, the symbol and the number of changes that a line of the input asks for.
#[derive(Clone, Copy)]
struct Asked<'a> {
    setup: &'a Setup,
    sym: Sym,
    /// How many changes the caller makes.
    count: u32,
}

/// Makes the call that a word names, on the symbol at the place and with the changes that a line says, and adds the result.
pub(crate) fn give_call<R: AllocGlobal + Threads + Wait + Sync>(
    rt: &R,
    kind: &str,
    sizes: &str,
    given: &mut Vec<u8>,
) -> Result<(), Failed> {
    let (place, count) = around(sizes, " ")?;
    let sym = some_or_failed(Sym::new(or_failed(place.parse::<u16>())?))?;
    let count = or_failed(count.parse::<u32>())?;
    let setup = match kind {
        "again" => built_in(rt.alloc())?,
        _ => wide(rt.alloc(), 10_000_000, 2, 1)?,
    };
    let asked = Asked {
        setup: &setup,
        sym,
        count,
    };
    match kind {
        "board" => tell_board(rt.alloc(), &asked, given),
        "machine" => tell_machine(rt.alloc(), &asked, given),
        "sweep" => tell_sweep(rt.alloc(), &asked, given),
        "threads" => tell_threads(rt, &asked, given),
        "again" => tell_again(rt, &asked, given),
        _ => Err(Failed),
    }
}

/// Adds to the answer the market, whether there is a bid, and the receipt of the best offer. If the call failed, it adds why.
fn tell_board(alloc: Global, asked: &Asked<'_>, given: &mut Vec<u8>) -> Result<(), Failed> {
    let changes = changes_of(alloc, asked.count)?;
    let roster = asked.setup.roster();
    or_failed(
        match board::look(alloc, roster, changes.as_slice(), asked.sym) {
            Ok((market, bid, offer)) => {
                let receipt = offer.map(|row| row.receipt);
                write!(given, "{market:?} {} {receipt:?}", bid.is_some())
            }
            Err(fault) => write!(given, "{fault:?}"),
        },
    )
}

/// Adds to the answer the published version, and the participant of the best bid. If the call failed, it adds why.
fn tell_machine(alloc: Global, asked: &Asked<'_>, given: &mut Vec<u8>) -> Result<(), Failed> {
    let changes = changes_of(alloc, asked.count)?;
    let (setup, changes) = (asked.setup, changes.as_slice());
    or_failed(
        match machine::consolidate(alloc, setup, Feed::A, changes, asked.sym) {
            Ok((version, best)) => {
                let place = best.bid.map(|row| row.part.get());
                write!(given, "{version} {place:?}")
            }
            Err(fault) => write!(given, "{fault:?}"),
        },
    )
}

/// The first n of the changes that all runs make.
fn changes_of(alloc: Global, count: u32) -> Result<Vec<Change>, Failed> {
    // The prover has to see the types of a change before the change moves, so the code mentions them.
    let _seen: Option<SideQuote> = None;
    let mut changes = Vec::new(alloc);
    for number in 0..count {
        let change = some_or_failed(quotation(u64::from(number)))?;
        or_failed(changes.push(change))?;
    }
    Ok(changes)
}

/// Plans an order for 950 shares after n changes. Adds the shares filled, the cost, and whether the plan was confirmed.
fn tell_sweep(alloc: Global, asked: &Asked<'_>, given: &mut Vec<u8>) -> Result<(), Failed> {
    let order = some_or_failed(order_of(asked.sym))?;
    let changes = changes_of(alloc, asked.count)?;
    let mut board = or_failed(Boards::new(alloc, asked.setup.roster()))?;
    for change in changes.as_slice() {
        if board.takes(change) {
            board.apply(*change);
        }
    }
    let (plan, finding) = sweeping::plan_and_confirm(&board, &order, asked.setup.fees());
    let is_confirmed = finding.is_ok();
    or_failed(write!(given, "{} {} {is_confirmed}", plan.filled, plan.cost))
}

/// An order to buy 950 shares of a symbol at 10.00 or better.
fn order_of(sym: Sym) -> Option<Order> {
    let (shares, limit) = (Shares::new(950)?, Price::new(100_000)?);
    Order::new(OrderSide::Buy, sym, shares, limit, false, PartSet::none())
}

/// Adds to the answer how many changes each feed sent, how many were taken, and the version on which the desk was settled.
fn tell_threads<R: AllocGlobal + Threads + Wait + Sync>(
    rt: &R,
    asked: &Asked<'_>,
    given: &mut Vec<u8>,
) -> Result<(), Failed> {
    let change = some_or_failed(quotation(0))?;
    let came = threads::run(rt, rt.alloc(), asked.setup, &change, asked.count, asked.sym)?;
    let (sent, taken) = (&came.delivered.sent, came.delivered.taken);
    or_failed(write!(given, "{sent:?} {taken} {}", came.settled))
}

/// Adds to the answer how many changes are at their places on the tape, and how many the tape has. Then come the version and the
/// shares that a desk saw, and whether no change was left out.
fn tell_again<R: AllocGlobal + Wait>(
    rt: &R,
    asked: &Asked<'_>,
    given: &mut Vec<u8>,
) -> Result<(), Failed> {
    let came = again::append_all(rt, rt.alloc(), asked.setup, asked.sym, asked.count)?;
    let (in_place, tape, (version, shares)) = (came.in_place, came.tape, came.shown);
    let is_whole = came.is_whole;
    or_failed(write!(given, "{in_place} {tape} {version} {shares} {is_whole}"))
}
