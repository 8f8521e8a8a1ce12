//! The taker's loop: it takes what the feeds send, and publishes it, until all streams have ended.
ghost use Rattle.std.specs.Prelude.{◌≡◌};
ghost use Rattle.nms_quote.specs.Roster.{sizes_of};

use crate::client::ClientStreams;
use crate::door::{Door, Side};
use crate::epochs::{EpochFiles, Epochs, NextEpoch};
use crate::handover::House;
use crate::serving::Means;
use nms_feed::Taker;
use std::io::Write;
use std::sync::Wait;
use std::thread::Threads;

/// The paths that the threads of a run open.
#[derive(Clone, Copy)]
pub struct Doors<'a, O> {
    /// The paths of the feeds, in order of feed.
    pub feeds: &'a [Door<'a>],
    /// The streams of the clients.
    pub clients: &'a [ClientStreams<'a>],
    /// The files that were asked for in addition to the streams.
    pub beside: &'a O,
}

/// Takes the changes that the feeds send until all feeds and clients have ended. It publishes them after each 64, and when none
/// is waiting. Held requests go on once the first change of each feed is published. After a fault it takes changes and drops
/// them, so that no feed waits for room.
pub(crate) fn take_all<
    R: Threads + Wait + Sync,
    X: Write + Drop,
    Y: Write + Drop,
    F: EpochFiles<X, Y>,
    H: House,
    O,
>(
    means: &Means<'_, R>,
    doors: &Doors<'_, O>,
    next: &NextEpoch<'_, F, H>,
    epochs: &mut Epochs<'_, H, X, Y>,
    taker: &mut Taker,
)
    requires house { H.sizes ≡ sizes_of means.now.run.now.setup.now.roster }
{
    let run = means.run;
    let mut are_woken = false;
    for _ in means.rt.forever() {
        // The run is checked before the lane, so that what a stream sent before its end is still found.
        let is_over = run.is_over();
        if run.is_gate_shut() && run.have_feeds_begun() {
            take_waiting(means, next, epochs, taker);
            run.open_gate();
        }
        if run.is_stopped() && !are_woken {
            run.open_gate();
            wake_all(means, doors);
            are_woken = true;
        }
        if take_one(means, next, epochs, taker) {
            continue;
        }
        publish(means, epochs);
        if is_over {
            return;
        }
        run.teller.let_taker_sleep(means.rt);
    }
    unreachable!()
}

/// Takes all changes that the feeds sent before the call, and publishes them. The lane holds no more of them than the setup's
/// queue has places.
fn take_waiting<R: Wait, X: Write + Drop, Y: Write + Drop, F: EpochFiles<X, Y>, H: House>(
    means: &Means<'_, R>,
    next: &NextEpoch<'_, F, H>,
    epochs: &mut Epochs<'_, H, X, Y>,
    taker: &mut Taker,
)
    requires house { H.sizes ≡ sizes_of means.now.run.now.setup.now.roster }
{
    for _ in 0..means.run.setup.queue() {
        if !take_one(means, next, epochs, taker) {
            break;
        }
    }
    publish(means, epochs);
}

/// Takes a change, if there is one, and returns whether there was.
fn take_one<R: Wait, X: Write + Drop, Y: Write + Drop, F: EpochFiles<X, Y>, H: House>(
    means: &Means<'_, R>,
    next: &NextEpoch<'_, F, H>,
    epochs: &mut Epochs<'_, H, X, Y>,
    taker: &mut Taker,
) -> bool
    requires house { H.sizes ≡ sizes_of means.now.run.now.setup.now.roster }
{
    let Some(change) = taker.take(means.rt) else {
        return false;
    };
    if !means.run.is_failed() {
        match epochs.take_in(means, next, &change) {
            Ok(()) => note(means, epochs),
            Err(fault) => means.run.fail(fault),
        }
    }
    true
}

/// Publishes the waiting changes, unless a fault has ended the run.
fn publish<R: Wait, X: Write, Y: Write, H: House>(
    means: &Means<'_, R>,
    epochs: &mut Epochs<'_, H, X, Y>,
) {
    if means.run.is_failed() {
        return;
    }
    match epochs.publish(means.rt) {
        Ok(()) => note(means, epochs),
        Err(fault) => means.run.fail(fault),
    }
}

/// Notes the epoch and the version of the board for the other threads, once all changes that were taken are published.
fn note<R, X: Write, Y: Write, H: House>(means: &Means<'_, R>, epochs: &Epochs<'_, H, X, Y>) {
    if let Some(version) = epochs.version() {
        means
            .run
            .progress
            .note(epochs.number(), version, epochs.changes());
    }
}

/// Wakes all threads that wait at a FIFO. They find that the run has ended.
fn wake_all<R: Threads, O>(means: &Means<'_, R>, doors: &Doors<'_, O>) {
    for door in doors.feeds {
        wake(means, door, Side::Reads);
    }
    for client in doors.clients {
        match client {
            ClientStreams::Standard => {
                wake(means, &Door::new("/proc/self/fd/0"), Side::Reads);
                wake(means, &Door::new("/proc/self/fd/1"), Side::Writes);
            }
            ClientStreams::Paths { input, output } => {
                wake(means, input, Side::Reads);
                wake(means, output, Side::Writes);
            }
        }
    }
}

/// Wakes the thread that waits at a door.
fn wake<R: Threads>(means: &Means<'_, R>, door: &Door<'_>, side: Side) {
    door.wake(means.rt, means.host, means.alloc, side);
}
