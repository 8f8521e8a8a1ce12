//! The places of changes and rows in the order of a file: `specs/Standing`.
ghost use Rattle.std.specs.Prelude.{◌≡◌, ◌<◌, ◌≤◌, length, IfOk, IfSome, OnSome};
ghost use Rattle.nms_quote.specs.declared.TheConstants.{MOST_SYMBOLS};
ghost use Rattle.nms_compare.specs.Standing.{key_in, place_of, time_in};

use crate::compare_fault::CompareFault;
use nms_import::Order;
use nms_quote::Change;
use nms_stream::Tape;
use nms_units::parse_digits;
use std::alloc::Global;

/// One more than the greatest time of 15 digits. In an order by symbol, a key is the symbol's place times this number, plus the
/// time.
pub(crate) const TIMES: u64 = 1_000_000_000_000_000;

/// The changes of a tape, each with its place in the order of a vendor's file.
#[derive(Drop)]
pub struct Keyed<'a> {
    /// The tape.
    pub tape: &'a Tape<'a>,
    /// The key of each change: a number that gives its place in the order of the vendor's file.
    pub keys: Vec<u64>,
    pub ghost each: { length keys.items ≡ length tape.now.changes.items },
}

/// The places of the changes of a tape. Their times are the lines of a text, of 15 digits and a line feed each.
///
/// The fault `NotTheTimes` is returned if the text does not have one such line for each change. The fault `ChangesFall` is
/// returned if a change is before an earlier one.
pub fn keys_of<'a>(
    alloc: Global,
    order: Order,
    tape: &'a Tape<'a>,
    times: &[u8],
) -> Result<Keyed<'a>, CompareFault>
    ensures { IfOk result (λ keyed. keyed.tape.now ≡ tape.now) }
{
    let mut keys = Vec::with_capacity(alloc, tape.changes.len())?;
    let mut rest = times;
    let mut last = 0;
    for change in &tape.changes {
        let Some(time) = time_in(rest) else {
            return Err(CompareFault::NotTheTimes);
        };
        let key = key_of(order, place_of(change), time);
        if key < last {
            return Err(CompareFault::ChangesFall);
        }
        if keys.push(key).is_err() {
            return Err(CompareFault::NoMemory);
        }
        last = key;
        rest = &rest[16..];
    }
    if rest.is_empty() {
        Ok(Keyed { tape, keys })
    } else {
        Err(CompareFault::NotTheTimes)
    }
}

/// The key of a change or a row of this symbol at this time, which has at most 15 digits. A lower key comes first in the order
/// of the file.
pub fn key_of(order: Order, place: u16, time: u64) -> u64
    requires place { place < MOST_SYMBOLS }
    requires time { time < 1000000000000000 }
    ensures key { result ≡ key_in order place time }
{
    match order {
        Order::Given | Order::Free => time,
        Order::Symbol => u64::from(place) * TIMES + time,
    }
}

/// The place on the roster of the symbol of a change; 0 for a withdrawal, which has no symbol.
fn place_of(change: &Change) -> u16
    ensures place { result ≡ place_of change.now }
    ensures within { result < MOST_SYMBOLS }
{
    match *change {
        Change::Quote { sym, .. } | Change::State { sym, .. } | Change::Lot { sym, .. } =>
            sym.get(),
        Change::Withdraw { .. } => 0,
    }
}

/// The time at the beginning of a text: 15 digits and a line feed.
fn time_in(text: &[u8]) -> Option<u64>
    ensures time { result ≡ time_in text.now }
    ensures within { IfSome result (λ time. time < 1000000000000000) }
    ensures line { OnSome result (16 ≤ length text.now) }
{
    if text.len() < 16 || text[15] != b'\n' {
        return None;
    }
    match parse_digits(&text[..15], 15) {
        Some(time) => Some(time),
        None => None,
    }
}
