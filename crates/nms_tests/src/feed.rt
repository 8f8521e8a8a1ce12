//! Tests of the lane: its calls succeed and return, and two threads send through it. No contract states these facts.
ghost use Rattle.std.specs.Prelude.{◌≡◌, ◌≤◌, ◌+◌, ◌∷◌, [], length, IfErr, IfSome};
ghost use Rattle.std.specs.List.{AllByRecursion};
ghost use Rattle.std.specs.Vec.{vec_len, vec_capacity};
ghost use Rattle.nms_quote.specs.declared.feed.Feed.TheVariants as feed;
ghost use Rattle.nms_feed.specs.Lane.{AreSendersOf};
ghost use Rattle.nms_feed.specs.declared.TheConstants.{LEAST_CAPACITY, MOST_CAPACITY};

use crate::same::same;
use arrayvec::ArrayVec;
use nms_feed::{
    Delivered, Full, LEAST_CAPACITY, LaneFault, MOST_CAPACITY, NotEmpty, Sender, Taker, close,
    open_lane,
};
use nms_quote::{Change, Part, QState, SideQuote, Sym};
use nms_units::{Lot, Price, Shares};
use std::alloc::Global;
use std::process::Abort;
use std::snapshot::Snapshot;
use std::sync::Wait;
use std::test::Fail;
use std::thread;
use std::thread::{Promise, Threads};

/// A bid of n shares by the participant at a place. Its shares tell the bid from the participant's other bids.
fn bid_of(place: u8, shares: u32) -> Option<Change> {
    let bid = SideQuote::new(Price::new(100_000)?, Shares::new(shares)?);
    Some(Change::Quote {
        part: Part::new(place)?,
        sym: Sym::new(0)?,
        state: QState::Automated,
        bid,
        offer: None,
    })
}

/// The place of the bidding participant and the shares of a bid. `None` for any other change.
fn told_by(change: &Change) -> Option<(u8, u32)> {
    match *change {
        Change::Quote { part, bid, .. } => Some((part.get(), bid?.shares.get())),
        Change::State { .. } | Change::Withdraw { .. } | Change::Lot { .. } => None,
    }
}

/// Takes once from the lane, and compares the change with the wanted one.
fn take_one<R: Wait + Abort>(rt: &R, taker: &mut Taker, wanted: Option<Change>)
    ensures { (taker.new.lane ≡ taker.old.lane) × (taker.new.senders ≡ taker.old.senders) }
{
    same(rt, taker.take(rt), wanted);
}

/// A new round lot of 40 shares.
fn new_lot() -> Option<Change> {
    Some(Change::Lot {
        sym: Sym::new(0)?,
        lot: Lot::new(40)?,
    })
}

/// A bid of the first participant, a new round lot, and a bid of the second participant.
fn three_changes() -> Option<[Change; 3]> {
    Some([bid_of(0, 1)?, new_lot()?, bid_of(1, 1)?])
}

/// Opens a lane for two senders.
fn open_two<R: Abort>(rt: &R, alloc: Global, capacity: usize) -> (Sender, Sender, Taker)
    requires { (LEAST_CAPACITY ≤ capacity) × (capacity ≤ MOST_CAPACITY) }
    ensures one_lane { (result.0.lane ≡ result.2.lane) × (result.1.lane ≡ result.2.lane) }
    ensures feeds { (result.0.feed ≡ feed.A) × (result.1.feed ≡ feed.B) }
    ensures empty { (result.0.sent ≡ []) × (result.1.sent ≡ []) × (result.2.taken ≡ []) }
    ensures two { result.2.senders ≡ 2 }
{
    let Ok((mut senders, taker)) = open_lane(alloc, capacity, 2) else {
        panic!(rt; "no memory for a lane");
    };
    let Some(b) = senders.pop() else {
        panic!(rt; "a lane without senders");
    };
    let Some(a) = senders.pop() else {
        panic!(rt; "a lane with one sender");
    };
    (a, b, taker)
}

/// Closes a lane of two senders. All ends come back if not everything was taken, and none if out of memory.
fn close_two(
    alloc: Global,
    a: Sender,
    b: Sender,
    taker: Taker,
) -> Result<Delivered, Option<(Sender, Sender, Taker)>>
    requires one_lane { (a.lane ≡ taker.lane) × (b.lane ≡ taker.lane) }
    requires feeds { (a.feed ≡ feed.A) × (b.feed ≡ feed.B) }
    requires two { taker.senders ≡ 2 }
    ensures back { IfErr result (λ kept. IfSome kept (λ ends. (ends.0 ≡ a) × (ends.1 ≡ b) × (ends.2 ≡ taker))) }
{
    let Ok(mut senders) = Vec::with_capacity(alloc, 2) else {
        return Err(None);
    };
    senders.push_reserved(a);
    senders.push_reserved(b);
    match close(senders, taker) {
        Ok(delivered) => Ok(delivered),
        Err(back) => Err(apart(back)),
    }
}

/// Closes a lane of two senders in which a change is left, so that its ends come back.
fn close_early<R: Abort>(
    rt: &R,
    alloc: Global,
    a: Sender,
    b: Sender,
    taker: Taker,
) -> (Sender, Sender, Taker)
    requires one_lane { (a.lane ≡ taker.lane) × (b.lane ≡ taker.lane) }
    requires feeds { (a.feed ≡ feed.A) × (b.feed ≡ feed.B) }
    requires two { taker.senders ≡ 2 }
    ensures { (result.0 ≡ a) × (result.1 ≡ b) × (result.2 ≡ taker) }
{
    let Err(Some(ends)) = close_two(alloc, a, b, taker) else {
        panic!(rt; "a lane with changes was closed");
    };
    ends
}

/// The ends of a lane of two senders that was not closed.
fn apart(back: NotEmpty) -> Option<(Sender, Sender, Taker)>
    requires { length back.senders.items ≡ 2 }
    ensures items { IfSome result (λ ends. back.senders.items ≡ ends.0 ∷ ends.1 ∷ []) }
    ensures taker { IfSome result (λ ends. ends.2 ≡ back.taker) }
{
    let NotEmpty { mut senders, taker } = back;
    let b = senders.pop()?;
    let a = senders.pop()?;
    Some((a, b, taker))
}

/// Closes a lane, and compares how many were sent from each end and taken.
fn compare_closed<R: Abort>(
    rt: &R,
    alloc: Global,
    a: Sender,
    b: Sender,
    taker: Taker,
    counts: (u64, u64, u64),
)
    requires one_lane { (a.lane ≡ taker.lane) × (b.lane ≡ taker.lane) }
    requires feeds { (a.feed ≡ feed.A) × (b.feed ≡ feed.B) }
    requires two { taker.senders ≡ 2 }
{
    let (sent_a, sent_b, taken) = counts;
    let mut sent = ArrayVec::new_in(());
    sent.push(sent_a);
    sent.push(sent_b);
    let due = Delivered { sent, taken };
    same(rt, close_two(alloc, a, b, taker).ok() == Some(due), true);
}

#[test]
fn a_full_lane_gives_the_change_back_and_closing_waits_for_the_taker(rt: HostRuntime) {
    let [a1, a2, b1] = &three_changes().expect(&rt, "changes");
    let (mut a, mut b, taker) = open_two(&rt, rt.alloc(), 2);
    a.send(&rt, *a1);
    b.send(&rt, *b1);
    same(&rt, a.try_send(&rt, *a2), Err(Full { change: *a2 }));
    let (mut a, b, mut taker) = close_early(&rt, rt.alloc(), a, b, taker);
    take_one(&rt, &mut taker, Some(*a1));
    a.send(&rt, *a2);
    take_one(&rt, &mut taker, Some(*b1));
    take_one(&rt, &mut taker, Some(*a2));
    take_one(&rt, &mut taker, None);
    compare_closed(&rt, rt.alloc(), a, b, taker, (2, 1, 3));
}

#[test]
fn a_new_lane_takes_a_change_at_once(rt: HostRuntime) -> Result<(), Fail> {
    let change = bid_of(0, 1).ok_or("a bid")?;
    let (mut a, _b, _taker) = open_two(&rt, rt.alloc(), 1024);
    same(&rt, a.try_send(&rt, change), Ok(()));
    Ok(())
}

/// Sends a change until the lane is full, and reports how often it was sent.
fn fill<R: Wait>(rt: &R, sender: &mut Sender, change: &Change) -> u32
    requires { sender.old.sent ≡ [] }
{
    for number in 0..2000u32 {
        if sender.try_send(rt, *change).is_err() {
            return number;
        }
    }
    2000
}

/// How many changes a lane takes before it is full, if it was opened with a given capacity.
fn room<R: Wait + Abort>(rt: &R, alloc: Global, capacity: usize) -> Option<u32> {
    if !(LEAST_CAPACITY..=MOST_CAPACITY).contains(&capacity) {
        return None;
    }
    let change = bid_of(0, 1)?;
    let (mut a, _b, _taker) = open_two(rt, alloc, capacity);
    Some(fill(rt, &mut a, &change))
}

#[test]
fn a_lane_takes_as_many_as_it_was_opened_for(rt: HostRuntime) {
    for capacity in [2u32, 3, 5, 64, 1023, 1024] {
        let told = room(&rt, rt.alloc(), capacity as usize);
        same(&rt, told, Some(capacity));
    }
}

#[test]
fn a_taker_that_stops_and_takes_again_loses_nothing(rt: HostRuntime) {
    let [a1, a2, b1] = &three_changes().expect(&rt, "changes");
    let (mut a, mut b, mut taker) = open_two(&rt, rt.alloc(), 4);
    take_one(&rt, &mut taker, None);
    a.send(&rt, *a1);
    b.send(&rt, *b1);
    a.send(&rt, *a2);
    take_one(&rt, &mut taker, Some(*a1));
    let (a, b, mut taker) = close_early(&rt, rt.alloc(), a, b, taker);
    take_one(&rt, &mut taker, Some(*b1));
    take_one(&rt, &mut taker, Some(*a2));
    take_one(&rt, &mut taker, None);
    compare_closed(&rt, rt.alloc(), a, b, taker, (2, 1, 3));
}

/// Sends a bid from each sender of a lane, and returns the senders. The shares of a bid are one more than the place of its feed.
fn each_sends<R: Wait>(
    rt: &R,
    senders: Vec<Sender>,
    mut back: Vec<Sender>,
    taker: &Taker,
) -> Vec<Sender>
    requires all { AreSendersOf taker.now senders.items }
    requires new { AllByRecursion (λ sender. sender.sent ≡ []) senders.items }
    requires room { (back.items ≡ []) × (vec_len senders ≤ vec_capacity back) }
    ensures all { AreSendersOf taker.now result.items }
{
    for sender in senders {
        back.push_reserved(send_one(rt, sender));
    }
    back
}

/// Sends a bid from one sender. Its shares are one more than the place of the sender's feed.
fn send_one<R: Wait>(rt: &R, mut sender: Sender) -> Sender
    requires { sender.sent ≡ [] }
    ensures lane { result.lane ≡ sender.lane }
    ensures feed { result.feed ≡ sender.feed }
{
    if let Some(bid) = bid_of(0, 1 + u32::from(sender.feed().place())) {
        sender.send(rt, bid);
    }
    sender
}

#[test]
fn eight_feeds_send_through_one_lane(rt: HostRuntime) -> Result<(), Fail> {
    let (senders, mut taker) = open_lane(rt.alloc(), 8, 8)?;
    let Ok(back) = Vec::with_capacity(rt.alloc(), senders.len()) else {
        panic!(rt; "no memory");
    };
    let senders = each_sends(&rt, senders, back, &taker);
    for shares in 1..8u32 {
        take_one(&rt, &mut taker, bid_of(0, shares));
    }
    let Err(NotEmpty { senders, mut taker }) = close(senders, taker) else {
        panic!(rt; "a lane was closed before the last of its eight changes was taken");
    };
    take_one(&rt, &mut taker, bid_of(0, 8));
    let delivered = close(senders, taker).ok().expect(&rt, "all was taken");
    same(&rt, delivered.taken, 8);
    same(&rt, delivered.sent.as_slice(), &[1u64; 8]);
    Ok(())
}

/// The fact that a thread gives back the same end of the same lane.
#[derive(Drop)]
struct SameEnd(Snapshot<Sender>);

impl Promise<Sender> for SameEnd {
    ghost kept_by = { λ promise back. (back.lane ≡ promise.0.value.lane) × (back.feed ≡ promise.0.value.feed) };
}

/// Sends 1,000 bids of the participant at a place, of 1 to 1,000 shares.
fn send_1000<R: Wait>(rt: &R, mut sender: Sender, place: u8) -> Sender
    requires { sender.sent ≡ [] }
    ensures lane { result.lane ≡ sender.lane }
    ensures feed { result.feed ≡ sender.feed }
{
    for number in 0..1000u32 {
        if let Some(bid) = bid_of(place, number + 1) {
            sender.send(rt, bid);
        }
    }
    sender
}

/// Takes n bids from the lane. Those of each participant have to come in the order of their shares.
fn take_all<R: Wait + Abort>(rt: &R, mut taker: Taker, count: u32) -> Taker
    ensures lane { result.lane ≡ taker.lane }
    ensures senders { result.senders ≡ taker.senders }
{
    let mut last = (0u32, 0u32);
    let mut taken = 0u32;
    for _ in rt.forever() {
        if taken >= count {
            break;
        }
        let Some(bid) = taker.take(rt) else {
            thread::yield_now();
            continue;
        };
        taken += 1;
        let told = told_by(&bid);
        let next = follows(last, told);
        same(rt, (told, last, next.is_some()), (told, last, true));
        last = next.unwrap_or(last);
    }
    taker
}

/// The shares of the last bids of two participants after one more bid. `None` if that bid is not the next one of its participant.
fn follows(last: (u32, u32), told: Option<(u8, u32)>) -> Option<(u32, u32)> {
    let (a, b) = last;
    match told? {
        (0, shares) if a < 1000 && shares == a + 1 => Some((shares, b)),
        (1, shares) if b < 1000 && shares == b + 1 => Some((a, shares)),
        _ => None,
    }
}

/// Sends 1,000 bids from each of two threads, and takes them in the caller's thread.
fn run_both<R: Threads + Wait + Abort + Sync>(
    rt: &R,
    a: Sender,
    b: Sender,
    taker: Taker,
) -> (Sender, Sender, Taker)
    requires { (a.sent ≡ []) × (b.sent ≡ []) }
    ensures a { (result.0.lane ≡ a.lane) × (result.0.feed ≡ a.feed) }
    ensures b { (result.1.lane ≡ b.lane) × (result.1.feed ≡ b.feed) }
    ensures taker { (result.2.lane ≡ taker.lane) × (result.2.senders ≡ taker.senders) }
{
    thread::scope(
        thread::scope_env(),
        rt,
        |scope| -> (Sender, Sender, Taker)
            requires { (a.sent ≡ []) × (b.sent ≡ []) }
            ensures a { (result.0.lane ≡ a.lane) × (result.0.feed ≡ a.feed) }
            ensures b { (result.1.lane ≡ b.lane) × (result.1.feed ≡ b.feed) }
            ensures taker { (result.2.lane ≡ taker.lane) × (result.2.senders ≡ taker.senders) }
        {
            let promise_a = SameEnd(Snapshot::of(&a));
            let promise_b = SameEnd(Snapshot::of(&b));
            let Ok(child_a) = scope.spawn_with(
                promise_a,
                move ||
                    requires { a.sent ≡ [] }
                { send_1000(rt, a, 0) },
            ) else {
                panic!(rt; "no first thread");
            };
            let Ok(child_b) = scope.spawn_with(
                promise_b,
                move ||
                    requires { b.sent ≡ [] }
                { send_1000(rt, b, 1) },
            ) else {
                panic!(rt; "no second thread");
            };
            let taker = take_all(rt, taker, 2000);
            (child_a.join(rt), child_b.join(rt), taker)
        },
    )
}

#[test]
fn two_threads_send_1000_changes_each_through_a_lane_of_4(rt: HostRuntime) {
    let (a, b, taker) = open_two(&rt, rt.alloc(), 4);
    let (a, b, taker) = run_both(&rt, a, b, taker);
    compare_closed(&rt, rt.alloc(), a, b, taker, (1000, 1000, 2000));
}

#[test]
fn faults_print_their_codes(rt: HostRuntime) {
    let change = bid_of(0, 1).expect(&rt, "a bid");
    let told = format!(in rt.alloc(); "{}; {}", LaneFault::NoMemory, Full { change });
    same(
        &rt,
        told.expect(&rt, "memory").as_str(),
        "N1: out of memory; N2: the lane is full",
    );
}
