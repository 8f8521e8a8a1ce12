//! The lane: one to eight threads send changes, and one more takes them.
ghost use Rattle.std.specs.Prelude.{◌≡◌, ℕ, ◌<◌, ◌≤◌, [], All, length, slice_index_or, IfSome};
ghost use Rattle.nms_quote.specs.declared.TheConstants.{MOST_FEEDS};
ghost use Rattle.nms_feed.specs.Lane.{AreSendersOf, Sending};
ghost use Rattle.nms_feed.specs.declared.TheConstants.{LEAST_CAPACITY, MOST_CAPACITY};

use crate::Failed;
use crate::lines::{around, or_failed, some_or_failed};
use crate::offers::quotation;
use nms_feed::{Delivered, LEAST_CAPACITY, MOST_CAPACITY, Sender, Taker, close, open_lane};
use nms_quote::{Change, MOST_FEEDS};
use std::io::Write;
use std::sync::Wait;
use std::sync::atomic::{AtomicBool, Ordering};
use std::thread;
use std::thread::Threads;

/// Runs a lane. A line says its capacity, the number of senders, and the changes of each. Adds how many changes each sent, and
/// how many were taken.
pub(crate) fn give_lane<R: AllocGlobal + Threads + Wait + Sync>(
    rt: &R,
    sizes: &str,
    given: &mut Vec<u8>,
) -> Result<(), Failed> {
    let (capacity, rest) = around(sizes, " ")?;
    let (senders, changes) = around(rest, " ")?;
    let capacity = or_failed(capacity.parse::<usize>())?;
    let senders = or_failed(senders.parse::<u8>())?;
    let changes = or_failed(changes.parse::<u32>())?;
    match measure(rt, capacity, senders, changes) {
        Ok(came) => or_failed(write!(given, "{:?} {}", came.sent, came.taken)),
        Err(fault) => Err(fault),
    }
}

/// Runs a lane of a given capacity, with n changes from each of its senders.
fn measure<R: AllocGlobal + Threads + Wait + Sync>(
    rt: &R,
    capacity: usize,
    senders: u8,
    changes: u32,
) -> Result<Delivered, Failed> {
    if capacity < LEAST_CAPACITY || MOST_CAPACITY < capacity {
        return Err(Failed);
    }
    if senders < 1 || MOST_FEEDS < senders {
        return Err(Failed);
    }
    let change = some_or_failed(quotation(0))?;
    match open_lane(rt.alloc(), capacity, senders) {
        Ok((ends, taker)) => run(rt, ends, taker, &change, changes),
        Err(_) => Err(Failed),
    }
}

/// Sends n changes from each sender of a new lane, each in its own thread, and takes them meanwhile.
fn run<R: Threads + Wait + Sync>(
    rt: &R,
    senders: Vec<Sender>,
    taker: Taker,
    change: &Change,
    changes: u32,
) -> Result<Delivered, Failed>
    requires all { AreSendersOf taker senders.items }
    requires new { All (λ sender. sender.sent ≡ []) senders.items }
{
    let ended = &AtomicBool::new(false);
    let (back, taker) = thread::join(
        rt,
        move || -> Option<Vec<Sender>>
            requires { All (λ sender. sender.sent ≡ []) senders.items }
            ensures count { IfSome result (λ back. length back.items ≡ length senders.items) }
            ensures lanes { IfSome result (λ back. (k : ℕ) (d : Sending) → k < length senders.items → (slice_index_or back.items k d).lane ≡ (slice_index_or senders.items k d).lane) }
            ensures feeds { IfSome result (λ back. (k : ℕ) (d : Sending) → k < length senders.items → (slice_index_or back.items k d).feed ≡ (slice_index_or senders.items k d).feed) }
        {
            let back = send_from_each(rt, senders, change, changes);
            ended.store(true, Ordering::SeqCst);
            back
        },
        move || -> Taker
            ensures { (result.lane ≡ taker.lane) × (result.senders ≡ taker.senders) }
        { take_all(rt, taker, ended) },
    );
    let Some(back) = back else {
        return Err(Failed);
    };
    or_failed(close(back, taker))
}

/// Sends a change n times from each sender, each in its own thread. `None` if out of memory.
fn send_from_each<R: Threads + Wait + Sync>(
    rt: &R,
    senders: Vec<Sender>,
    change: &Change,
    changes: u32,
) -> Option<Vec<Sender>>
    requires { All (λ sender. sender.sent ≡ []) senders.items }
    ensures count { IfSome result (λ back. length back.items ≡ length senders.items) }
    ensures lanes { IfSome result (λ back. (k : ℕ) (d : Sending) → k < length senders.items → (slice_index_or back.items k d).lane ≡ (slice_index_or senders.items k d).lane) }
    ensures feeds { IfSome result (λ back. (k : ℕ) (d : Sending) → k < length senders.items → (slice_index_or back.items k d).feed ≡ (slice_index_or senders.items k d).feed) }
{
    let sent = thread::map_vec(
        rt,
        senders,
        &|sender: Sender| -> Sender
            requires { sender.sent ≡ [] }
            ensures { (result.lane ≡ sender.lane) × (result.feed ≡ sender.feed) }
        { send_all(rt, sender, change, changes) },
    );
    match sent {
        Ok(back) => Some(back),
        Err(_) => None,
    }
}

/// Sends a change n times.
pub(crate) fn send_all<R: Wait>(rt: &R, mut sender: Sender, change: &Change, changes: u32) -> Sender
    requires { sender.sent ≡ [] }
    ensures lane { result.lane ≡ sender.lane }
    ensures feed { result.feed ≡ sender.feed }
{
    for _sent in 0..changes {
        sender.send(rt, *change);
    }
    sender
}

/// Takes changes until all senders have ended and nothing is left.
fn take_all<R: Wait>(rt: &R, mut taker: Taker, ended: &AtomicBool) -> Taker
    ensures { (result.lane ≡ taker.lane) × (result.senders ≡ taker.senders) }
{
    let mut has_ended = false;
    for _ in rt.forever() {
        if taker.take(rt).is_some() {
            continue;
        }
        if has_ended {
            break;
        }
        // The end is read before the lane, so that changes sent before it are still taken.
        has_ended = ended.load(Ordering::SeqCst);
        thread::yield_now();
    }
    taker
}
