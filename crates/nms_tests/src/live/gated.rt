//! Tests of the calls to a gate. The gate is called once before each send, look and publishing of a run, and once after it.
use super::worked::{FIVE, first_told, order};
use super::{Wanted, run, setup_text};
use crate::same::same;
use nms_live::{Answer, Gate, GatePoint, Live};
use nms_quote::Feed;
use std::alloc::Global;
use std::process::Abort;
use std::sync::Wait;
use std::sync::atomic::{AtomicBool, AtomicU64, Ordering};
use std::thread;
use std::thread::Threads;

/// A gate that is always open, and counts the calls before and after looks.
#[derive(Drop)]
struct Counting {
    asked: AtomicU64,
    told: AtomicU64,
}

impl Gate for Counting {
    fn may(&self, at: GatePoint) -> bool {
        if matches!(at, GatePoint::Look { .. }) {
            self.asked.fetch_add(1, Ordering::SeqCst);
        }
        true
    }

    fn done(&self, at: GatePoint) {
        if matches!(at, GatePoint::Look { .. }) {
            self.told.fetch_add(1, Ordering::SeqCst);
        }
    }
}

/// Makes a live run under a setup with room for 16 changes in its queue, and two desks.
fn run_small<R: Threads + Wait + Abort + Sync, G: Gate>(
    rt: &R,
    alloc: Global,
    feeds: &[&[u8]],
    table: &[Wanted],
    gate: &G,
) -> Live {
    let setup = setup_text(rt, alloc, 1000, 16, 2);
    run(rt, alloc, setup.as_str(), feeds, table, gate).expect(rt, "a run")
}

#[test]
fn closing_looks_do_not_pass_the_gate(rt: HostRuntime) {
    let gate = Counting {
        asked: AtomicU64::new(0),
        told: AtomicU64::new(0),
    };
    let mut other = order();
    other.desk = 1;
    let table = [order(), other, order()];
    let live = run_small(&rt, rt.alloc(), &[FIVE, b""], &table, &gate);
    compare_counts(&rt, &gate, &live);
}

/// Compares the number of answers, and the number of calls before and after looks, with the expected three.
fn compare_counts<R: Abort>(rt: &R, gate: &Counting, live: &Live) {
    same(rt, (live.answers.len(), live.closing.len()), (3, 3));
    let asked = gate.asked.load(Ordering::SeqCst);
    let told = gate.told.load(Ordering::SeqCst);
    same(rt, (asked, told), (3, 3));
}

/// A gate that holds each thread after its action until the next thread has acted. The first send waits for its publishing, the
/// publishing for a look, and the look for the second publishing.
#[derive(Drop)]
struct Relay {
    published_first: AtomicBool,
    published_second: AtomicBool,
    looked: AtomicBool,
    gave_up: AtomicBool,
}

/// A relay at the start of a run, when no thread has reached it.
fn make_relay() -> Relay {
    Relay {
        published_first: AtomicBool::new(false),
        published_second: AtomicBool::new(false),
        looked: AtomicBool::new(false),
        gave_up: AtomicBool::new(false),
    }
}

/// Whether a thread has set a flag of the gate.
fn is_set(flag: &AtomicBool) -> bool {
    flag.load(Ordering::SeqCst)
}

/// Sets a flag of the gate, for all threads to see.
fn set(flag: &AtomicBool) {
    flag.store(true, Ordering::SeqCst);
}

impl Relay {
    /// Waits until another thread sets a flag. After 1,000,000 attempts it gives up, and notes that.
    fn wait(&self, flag: &AtomicBool) {
        for _ in 0..1_000_000u32 {
            if is_set(flag) {
                return;
            }
            thread::yield_now();
        }
        set(&self.gave_up);
    }
}

impl Gate for Relay {
    fn may(&self, at: GatePoint) -> bool {
        match at {
            GatePoint::Send { k, .. } => k == 0 || is_set(&self.looked),
            GatePoint::Look { .. } => is_set(&self.published_first),
            GatePoint::Publish { .. } => true,
        }
    }

    fn done(&self, at: GatePoint) {
        match at {
            GatePoint::Send {
                feed: Feed::A,
                k: 0,
            } => self.wait(&self.published_first),
            GatePoint::Publish { k: 0 } => {
                set(&self.published_first);
                self.wait(&self.looked);
            }
            GatePoint::Look { .. } => {
                set(&self.looked);
                self.wait(&self.published_second);
            }
            GatePoint::Publish { k: 1 } => set(&self.published_second),
            GatePoint::Send { .. } | GatePoint::Publish { .. } => {}
        }
    }
}

#[test]
fn a_gate_learns_of_what_was_made(rt: HostRuntime) {
    let gate = make_relay();
    let live = run_small(&rt, rt.alloc(), &[FIVE, b""], &[order()], &gate);
    compare_relayed(&rt, &gate, &live.answers);
}

/// Compares the result of the relay. While feed A waited, its first change was published. While the taker waited, the desk saw
/// that change and no other. While the desk waited, the second change was published.
fn compare_relayed<R: Abort>(rt: &R, gate: &Relay, answers: &[Answer]) {
    same(rt, is_set(&gate.gave_up), false);
    same(rt, first_told(answers), Some((0, 0, 1, 100)));
}
