//! How far the feeds may get ahead: how many changes the lane holds, and how many are appended between two publishings.
use super::{run, setup_text};
use crate::same::same;
use nms_live::{Gate, GatePoint};
use nms_quote::Feed;
use std::alloc::Global;
use std::process::Abort;
use std::sync::Wait;
use std::sync::atomic::{AtomicBool, Ordering};
use std::thread::Threads;

/// A gate that holds the taker before its first publishing, with one change taken. It opens when feed A has sent n more.
#[derive(Drop)]
struct Held {
    more: u64,
    is_held: AtomicBool,
    is_sent: AtomicBool,
}

/// A gate at the start of a run, when no thread has reached it.
fn make_held(more: u64) -> Held {
    Held {
        more,
        is_held: AtomicBool::new(false),
        is_sent: AtomicBool::new(false),
    }
}

impl Gate for Held {
    fn may(&self, at: GatePoint) -> bool {
        match at {
            GatePoint::Publish { k: 0 } => {
                self.is_held.store(true, Ordering::SeqCst);
                self.is_sent.load(Ordering::SeqCst)
            }
            GatePoint::Send { k, .. } => k == 0 || self.is_held.load(Ordering::SeqCst),
            GatePoint::Look { .. } | GatePoint::Publish { .. } => true,
        }
    }

    fn done(&self, at: GatePoint) {
        if matches!(at, GatePoint::Send { feed: Feed::A, k } if k == self.more) {
            self.is_sent.store(true, Ordering::SeqCst);
        }
    }
}

/// The text of a feed with n + 1 quotations of one participant.
fn changes<R: Abort>(rt: &R, alloc: Global, more: u64) -> Vec<u8> {
    let mut text = Vec::new(alloc);
    for _ in 0..=more {
        let record = b"Q,N,ABC,A,,,10.00,100\n".as_slice();
        text.extend_from_slice(record).expect(rt, "memory");
    }
    text
}

/// The versions that are published if feed A sends n + 1 changes. The taker waits after the first one until the others are sent.
/// The lane has a given capacity.
fn published<R: Threads + Wait + Abort + Sync>(
    rt: &R,
    alloc: Global,
    queue: u32,
    more: u64,
) -> Option<Vec<u64>> {
    let setup = setup_text(rt, alloc, 2000, queue, 1);
    published_under(rt, alloc, setup.as_str(), more)
}

/// The versions that are published under the setup that a text gives. The taker waits after the first change until n more are
/// sent.
fn published_under<R: Threads + Wait + Abort + Sync>(
    rt: &R,
    alloc: Global,
    setup: &str,
    more: u64,
) -> Option<Vec<u64>> {
    let text = changes(rt, alloc, more);
    let gate = make_held(more);
    let feeds = [text.as_slice(), b"".as_slice()];
    match run(rt, alloc, setup, &feeds, &[], &gate) {
        Ok(live) => Some(live.published),
        Err(_) => None,
    }
}

#[test]
fn the_taker_publishes_after_64_changes_and_when_the_lane_is_empty(rt: HostRuntime) {
    let lengths = published(&rt, rt.alloc(), 1024, 200).expect(&rt, "a run");
    // The versions are the first change, then 64 more at a time, then the last 8, and at the end the same version again.
    let due = [1u64, 65, 129, 193, 201, 201];
    same(&rt, lengths.as_slice(), due.as_slice());
}

#[test]
fn the_lane_of_a_run_takes_as_many_as_its_setup_says(rt: HostRuntime) {
    for queue in [2u32, 3, 5, 64, 1024] {
        let told = published(&rt, rt.alloc(), queue, u64::from(queue));
        same(&rt, (queue, told.is_some()), (queue, true));
    }
}
