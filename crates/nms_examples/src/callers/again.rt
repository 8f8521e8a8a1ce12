//! Appending when memory may be short. A change that is refused for lack of memory is appended once more, so that none is lost.
ghost use Rattle.std.specs.Prelude.{◌≡◌};

use crate::Failed;
use crate::offers::offer_of;
use nms_fees::Setup;
use nms_quote::{Change, QState, Side, Sym};
use nms_versions::{AppendFault, Desk, Publisher, open_tape};
use std::alloc::Global;
use std::sync::Wait;
use std::thread;

/// What came of appending the changes.
#[derive(Drop)]
pub(crate) struct Appended {
    /// How many of the changes are at their places on the tape.
    pub(crate) in_place: usize,
    /// How many changes the tape has.
    pub(crate) tape: usize,
    /// The last version that a desk saw, and how many shares it saw there.
    pub(crate) shown: (u64, u32),
    /// Whether each change was appended, at the first or the second attempt, and each refusal left everything as it was.
    pub(crate) is_whole: bool,
}

/// Appends n changes and publishes them in two halves.
pub(crate) fn append_all<R: Wait>(
    rt: &R,
    alloc: Global,
    setup: &Setup,
    sym: Sym,
    count: u32,
) -> Result<Appended, Failed> {
    let Ok((mut publisher, mut desks)) = open_tape(alloc, rt, setup) else {
        return Err(Failed);
    };
    let is_whole = append_each(rt, &mut publisher, count);
    let shown = match desks.first_mut() {
        Some(desk) => shown_to(desk, sym),
        None => (0, 0),
    };
    let tape = publisher.close(rt);
    Ok(Appended {
        in_place: in_place(tape.as_slice())?,
        tape: tape.len(),
        shown,
        is_whole,
    })
}

/// Appends each change, and publishes after the first half of the changes and after all.
fn append_each<R: Wait>(rt: &R, publisher: &mut Publisher, count: u32) -> bool {
    let mut is_whole = true;
    for number in 0..count {
        if number == count / 2 {
            publisher.publish(rt);
        }
        is_whole = append_again(publisher, number) && is_whole;
    }
    publisher.publish(rt);
    is_whole
}

/// The change with a given number: an offer of the first participant. The offer grows by a round lot with each number, up to
/// 1,000 lots.
fn offer_numbered(number: u32) -> Option<Change> {
    let shares = (number % 1000 + 1) * 100;
    offer_of(0, QState::Automated, 100_000, shares)
}

/// Appends the change with a given number, and reports whether it is on the tape now. If memory is short, the tape and the
/// published version have to be as they were. Then it appends the same change once more.
fn append_again(publisher: &mut Publisher, number: u32) -> bool {
    let Some(change) = offer_numbered(number) else {
        return false;
    };
    if !publisher.holds(&change) {
        return false;
    }
    let before = length_and_version(publisher);
    match publisher.append(change) {
        Ok(()) => true,
        Err(AppendFault::TapeFull) => false,
        Err(AppendFault::NoMemory) => {
            let left = length_and_version(publisher);
            // It yields because another thread may give memory back.
            thread::yield_now();
            left == before && publisher.append(change).is_ok()
        }
    }
}

/// How many changes the tape has, and how many of them are published.
fn length_and_version(publisher: &mut Publisher) -> (usize, u64)
    ensures { publisher.new ≡ publisher.old }
{
    let receipt = publisher.receipt();
    (publisher.tape().len(), receipt.version())
}

/// The version that a desk sees of a symbol, and the shares that the first participant offers.
fn shown_to(desk: &mut Desk, sym: Sym) -> (u64, u32) {
    let Ok(view) = desk.look(sym) else {
        return (0, 0);
    };
    match view.rows(Side::Offer).first() {
        Some(row) => (view.version(), row.size),
        None => (view.version(), 0),
    }
}

/// How many changes of a tape are at the places at which they were appended.
fn in_place(tape: &[Change]) -> Result<usize, Failed> {
    let mut count = 0usize;
    for (change, number) in tape.iter().zip(0..1000u32) {
        if offer_numbered(number) == Some(*change) {
            count = count.checked_add(1).ok_or(Failed)?;
        }
    }
    Ok(count)
}
