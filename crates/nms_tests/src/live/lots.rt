//! Round lots that change while desks look, with values worked out by hand.
use super::worked::{order, told};
use super::{Wanted, run};
use crate::same::same;
use nms_fees::SETUP_K;
use nms_live::{Answer, Gate, GatePoint, Live};
use nms_quote::Leg;
use std::alloc::Global;
use std::process::Abort;
use std::sync::Wait;
use std::sync::atomic::{AtomicU64, Ordering};
use std::thread::Threads;

/// A gate that makes feed A and a desk take turns. Before each look one more change is published.
#[derive(Drop)]
struct Turns {
    looked: AtomicU64,
    published: AtomicU64,
}

impl Gate for Turns {
    fn may(&self, at: GatePoint) -> bool {
        match at {
            GatePoint::Send { k, .. } => k <= self.looked.load(Ordering::SeqCst),
            GatePoint::Look { k, .. } => k < self.published.load(Ordering::SeqCst),
            GatePoint::Publish { .. } => true,
        }
    }

    fn done(&self, at: GatePoint) {
        match at {
            GatePoint::Send { .. } => {}
            GatePoint::Look { .. } => {
                self.looked.fetch_add(1, Ordering::SeqCst);
            }
            GatePoint::Publish { .. } => {
                self.published.fetch_add(1, Ordering::SeqCst);
            }
        }
    }
}

/// N offers 290 shares and P offers 250 at the same price. Under a round lot of 100 both show 200, and N ranks first by time.
/// Under 40, N shows 280 and P 240. Under 300, neither shows. Under 10, which an average price gives, both show all.
const FEED: &[u8] =
    b"Q,N,ABC,A,,,10.00,290\nQ,P,ABC,A,,,10.00,250\nR,ABC,40\nR,ABC,300\nR,PNY,1\nR,ABC,AVG,10000.0000\n";

/// Runs a feed of six changes, four of them new round lots. A desk answers the same order after each change.
fn run_lots<R: Threads + Wait + Abort + Sync>(rt: &R, alloc: Global) -> Live {
    let gate = Turns {
        looked: AtomicU64::new(0),
        published: AtomicU64::new(0),
    };
    let table: [Wanted; 6] = [order(), order(), order(), order(), order(), order()];
    run(rt, alloc, SETUP_K, &[FEED, b""], &table, &gate).expect(rt, "a run")
}

/// How many shares a plan's legs send to the participant at a place.
fn shares_to(legs: &[Leg], part: u8) -> u32 {
    for leg in legs {
        if leg.part.get() == part {
            return leg.shares.get();
        }
    }
    0
}

/// How many shares an answer takes from N and from P.
fn taken(answer: &Answer) -> (u32, u32) {
    let legs = answer.plan.legs.as_slice();
    (shares_to(legs, 0), shares_to(legs, 1))
}

/// Compares the shares taken after each change with the expected ones, and those of the closing answers with the last.
fn compare_lots<R: Abort>(rt: &R, live: &Live) {
    let due = [(200, 0), (200, 200), (280, 240), (0, 0), (0, 0), (290, 250)];
    for (answer, (version, shares)) in live.answers.iter().zip((1..7u64).zip(due)) {
        let (_, _, at, _) = told(answer);
        same(rt, (at, taken(answer)), (version, shares));
    }
    for answer in &live.closing {
        let (_, _, at, _) = told(answer);
        same(rt, (at, taken(answer)), (6, (290, 250)));
    }
    same(rt, (live.answers.len(), live.closing.len()), (6, 6));
}

#[test]
fn a_desk_plans_on_the_round_lot_that_is_published(rt: HostRuntime) {
    let live = run_lots(&rt, rt.alloc());
    compare_lots(&rt, &live);
}
