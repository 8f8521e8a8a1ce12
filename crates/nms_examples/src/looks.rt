//! Looks: desks look while a publisher publishes every 64 changes.
use crate::Failed;
use crate::lines::{around, or_failed};
use crate::offers::quotation;
use crate::setups::{PARTICIPANTS, SYMBOLS, wide};
use nms_board::View;
use nms_fees::Setup;
use nms_quote::{Side, Sym};
use nms_versions::{Desk, Publisher, open_tape};
use std::alloc::{AllocError, Global};
use std::io::Write;
use std::rt::Clock;
use std::sync::Wait;
use std::sync::atomic::{AtomicU64, Ordering};
use std::thread;
use std::thread::Threads;
use std::time::Duration;

/// The first 3,200 changes, in this number of batches, fill the board of the wide setup.
const BATCHES_TO_FILL: u32 = 50;

const BATCH: u32 = 64;

/// A desk, and how many rows its looks showed at the expected place.
#[derive(Drop)]
struct Seat {
    desk: Desk,
    rows: u64,
    /// Space that keeps a seat and the next one on different cache lines, because another thread writes the next one.
    _apart: [u64; 16],
}

/// Makes looks from desks, each in its own thread, at a row of each side. A line says how many desks there are and how many looks
/// each makes. Adds to the answer how many rows were right.
pub(crate) fn give_looks<R: AllocGlobal + Threads + Wait + Clock + Sync>(
    rt: &R,
    sizes: &str,
    given: &mut Vec<u8>,
) -> Result<(), Failed> {
    let (desks, looks) = around(sizes, " ")?;
    let desks = or_failed(desks.parse::<u8>())?;
    let looks = or_failed(looks.parse::<u32>())?;
    let setup = wide(rt.alloc(), 10_000_000, 2, desks)?;
    let rows = run(rt, rt.alloc(), &setup, looks)?;
    or_failed(write!(given, "{rows}"))
}

/// Opens a tape, fills the board, and looks while the publisher goes on.
fn run<R: Threads + Wait + Clock + Sync>(
    rt: &R,
    alloc: Global,
    setup: &Setup,
    looks: u32,
) -> Result<u64, Failed> {
    match open_tape(alloc, rt, setup) {
        Ok((publisher, desks)) => run_open(rt, alloc, publisher, desks, looks),
        Err(_) => Err(Failed),
    }
}

/// Fills the board, and looks while an open publisher goes on. The publisher is closed at the end.
fn run_open<R: Threads + Wait + Clock + Sync>(
    rt: &R,
    alloc: Global,
    mut publisher: Publisher,
    desks: Vec<Desk>,
    looks: u32,
) -> Result<u64, Failed> {
    let mut seats = seats_of(alloc, desks);
    if let Ok(seats) = &mut seats {
        look_from_each(rt, &mut publisher, seats, looks);
    }
    publisher.close(rt);
    match seats {
        Ok(seats) => Ok(rows_of(&seats)),
        Err(_) => Err(Failed),
    }
}

/// Fills the board, and then looks from each seat.
fn look_from_each<R: Threads + Wait + Clock + Sync>(
    rt: &R,
    publisher: &mut Publisher,
    seats: &mut [Seat],
    looks: u32,
) {
    let mut number = 0;
    for _ in 0..BATCHES_TO_FILL {
        if !publish_batch(rt, publisher, &mut number) {
            return;
        }
    }
    look_beside(rt, publisher, number, seats, looks);
}

/// How many rows were right, in the looks of all desks together.
fn rows_of(seats: &[Seat]) -> u64 {
    let mut rows = 0u64;
    for seat in seats {
        rows = rows.wrapping_add(seat.rows);
    }
    rows
}

/// Gives each desk its own seat, at which no row is counted yet.
fn seats_of(alloc: Global, desks: Vec<Desk>) -> Result<Vec<Seat>, AllocError> {
    let mut seats = Vec::new(alloc);
    for desk in desks {
        seats.push(Seat {
            desk,
            rows: 0,
            _apart: [0; 16],
        })?;
    }
    Ok(seats)
}

/// Looks from each seat, and publishes until all looks have ended.
fn look_beside<R: Threads + Wait + Clock + Sync>(
    rt: &R,
    publisher: &mut Publisher,
    number: u64,
    seats: &mut [Seat],
    looks: u32,
) {
    let ended = &AtomicU64::new(0);
    thread::join(
        rt,
        || {
            thread::for_each_mut(rt, seats, 256, &|_, seat| look_often(seat, looks));
            ended.store(1, Ordering::SeqCst);
        },
        || publish_until(rt, publisher, number, ended),
    );
}

/// Makes n looks at one symbol after another. Each look compares one row of each side with the expected participant.
fn look_often(seat: &mut Seat, looks: u32) {
    let Some(first) = Sym::new(0) else {
        return;
    };
    let mut view = View::of_nothing(0, first);
    for look in 0..looks {
        let Some(sym) = Sym::new((u64::from(look) % SYMBOLS) as u16) else {
            return;
        };
        if seat.desk.look_into(sym, &mut view).is_err() {
            return;
        }
        let place = u64::from(look) % PARTICIPANTS;
        for side in [Side::Bid, Side::Offer] {
            seat.rows = seat.rows.wrapping_add(rows_at(&view, side, place));
        }
    }
}

/// Checks one row of a side: 1 if the row at a place is of the participant at the same place, else 0.
fn rows_at(view: &View, side: Side, place: u64) -> u64 {
    match view.rows(side).get(place as usize) {
        Some(row) if u64::from(row.part.get()) == place => 1,
        _ => 0,
    }
}

/// Publishes batch after batch, with a pause of 100 microseconds after each, until the looks have ended.
fn publish_until<R: Wait + Clock>(
    rt: &R,
    publisher: &mut Publisher,
    start: u64,
    ended: &AtomicU64,
) {
    let mut number = start;
    for _ in rt.forever() {
        if ended.load(Ordering::SeqCst) == 1 || !publish_batch(rt, publisher, &mut number) {
            break;
        }
        thread::sleep(rt, Duration::from_micros(100));
    }
}

/// Appends a batch and publishes it, unless the tape is full or it is out of memory.
fn publish_batch<R: Wait>(rt: &R, publisher: &mut Publisher, number: &mut u64) -> bool {
    for _ in 0..BATCH {
        let Some(change) = quotation(*number) else {
            return false;
        };
        if !publisher.holds(&change) || publisher.append(change).is_err() {
            return false;
        }
        *number = number.wrapping_add(1);
    }
    publisher.publish(rt);
    true
}
