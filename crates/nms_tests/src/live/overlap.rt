//! The feeds and a desk work at the same time, each on what is published by then.
use super::run;
use super::worked::{compare_closing, feed_a, feed_b, has_four, order, told};
use crate::same::same;
use nms_fees::SETUP_K;
use nms_live::{Answer, Gate, GatePoint, Live};
use nms_quote::Feed;
use std::alloc::Global;
use std::process::Abort;
use std::sync::atomic::{AtomicBool, Ordering};
use std::thread;

/// The notes of one thread about a meeting: whether it came, and whether it gave up waiting for the others.
#[derive(Drop)]
struct Meeting {
    there: AtomicBool,
    gave_up: AtomicBool,
}

fn make_meeting() -> Meeting {
    Meeting {
        there: AtomicBool::new(false),
        gave_up: AtomicBool::new(false),
    }
}

/// A gate at which both feeds and the desk first meet. Then it lets them take turns.
#[derive(Drop)]
struct Overlap {
    feed_a: Meeting,
    feed_b: Meeting,
    desk: Meeting,
    published_first: AtomicBool,
    published_second: AtomicBool,
    looked_first: AtomicBool,
    looked_second: AtomicBool,
}

fn is_set(flag: &AtomicBool) -> bool {
    flag.load(Ordering::SeqCst)
}

fn set(flag: &AtomicBool) {
    flag.store(true, Ordering::SeqCst);
}

impl Overlap {
    fn all_there(&self) -> bool {
        is_set(&self.feed_a.there) && is_set(&self.feed_b.there) && is_set(&self.desk.there)
    }

    /// Waits for the other two threads, and reports whether they came. A thread that has given up once does not wait again.
    fn meets(&self, here: &Meeting) -> bool {
        if is_set(&here.gave_up) {
            return false;
        }
        set(&here.there);
        for _ in 0..1_000_000u32 {
            if self.all_there() {
                return true;
            }
            thread::yield_now();
        }
        set(&here.gave_up);
        false
    }
}

impl Gate for Overlap {
    fn may(&self, at: GatePoint) -> bool {
        match at {
            GatePoint::Send {
                feed: Feed::A,
                k: 0,
            } => self.meets(&self.feed_a),
            GatePoint::Send {
                feed: Feed::B,
                k: 0,
            } => { self.meets(&self.feed_b) && is_set(&self.looked_first) }
            GatePoint::Look { desk: 0, k: 0 } => {
                self.meets(&self.desk) && is_set(&self.published_first)
            }
            GatePoint::Look { desk: 0, k: 1 } => is_set(&self.published_second),
            GatePoint::Send { k: 1, .. } => is_set(&self.looked_second),
            GatePoint::Send { .. } | GatePoint::Look { .. } | GatePoint::Publish { .. } => true,
        }
    }

    fn done(&self, at: GatePoint) {
        match at {
            GatePoint::Publish { k: 0 } => set(&self.published_first),
            GatePoint::Publish { k: 1 } => set(&self.published_second),
            GatePoint::Look { desk: 0, k: 0 } => set(&self.looked_first),
            GatePoint::Look { desk: 0, k: 1 } => set(&self.looked_second),
            GatePoint::Send { .. } | GatePoint::Look { .. } | GatePoint::Publish { .. } => {}
        }
    }
}

/// A gate at the start of a run, when no thread has reached it.
fn make_gate() -> Overlap {
    Overlap {
        feed_a: make_meeting(),
        feed_b: make_meeting(),
        desk: make_meeting(),
        published_first: AtomicBool::new(false),
        published_second: AtomicBool::new(false),
        looked_first: AtomicBool::new(false),
        looked_second: AtomicBool::new(false),
    }
}

/// Whether a thread never came to the meeting, or gave up there.
fn missed(meeting: &Meeting) -> bool {
    !is_set(&meeting.there) || is_set(&meeting.gave_up)
}

/// Whether there are exactly two answers, with the given desks, numbers, versions and shares.
fn are_told(answers: &[Answer], wanted: [(u8, usize, u64, u32); 2]) -> bool {
    let [first, second] = wanted;
    match answers {
        [one, other] => told(one) == first && told(other) == second,
        _ => false,
    }
}

/// Compares who came to the gate, and the result of the run.
fn compare_overlap<R: Abort>(rt: &R, alloc: Global, gate: &Overlap, live: &Live) {
    let missed = (
        missed(&gate.feed_a),
        missed(&gate.feed_b),
        missed(&gate.desk),
    );
    same(rt, missed, (false, false, false));
    same(rt, has_four(&live.tape, &live.published), true);
    let answers = are_told(&live.answers, [(0, 0, 1, 300), (0, 1, 2, 500)]);
    let closing = are_told(&live.closing, [(0, 0, 4, 600), (0, 1, 4, 600)]);
    same(rt, (answers, closing), (true, true));
    compare_closing(rt, alloc, &live.closing);
}

#[test]
fn feed_and_desk_overlap(rt: HostRuntime) {
    let gate = make_gate();
    let feeds = [feed_a(), feed_b()];
    let came_to = run(&rt, rt.alloc(), SETUP_K, &feeds, &[order(), order()], &gate);
    let live = came_to.expect(&rt, "a run");
    compare_overlap(&rt, rt.alloc(), &gate, &live);
}
