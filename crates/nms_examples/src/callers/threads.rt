//! A lane, published versions and a desk: two feeds, the taker and the desk, each in its thread.
ghost use Rattle.std.specs.Prelude.{◌≡◌, ◌≤◌, [], All, IfOk, IfSome};
ghost use Rattle.nms_quote.specs.declared.feed.Feed.TheVariants as feed;
ghost use Rattle.nms_feed.specs.declared.TheConstants.{LEAST_CAPACITY, MOST_CAPACITY};

use crate::Failed;
use crate::lane::send_all;
use nms_feed::{Delivered, Sender, Taker, close, open_lane};
use nms_fees::Setup;
use nms_quote::{Change, Sym};
use nms_versions::{Desk, Publisher, open_tape};
use std::alloc::Global;
use std::sync::Wait;
use std::thread;
use std::thread::Threads;

/// The result of a run: what went through the lane, and the version that the desk was settled on.
#[derive(Drop)]
pub(crate) struct Came {
    pub(crate) delivered: Delivered,
    pub(crate) settled: u64,
}

/// Sends a change a number of times from each feed, publishes what comes, and looks at a symbol meanwhile.
pub(crate) fn run<R: Threads + Wait + Sync>(
    rt: &R,
    alloc: Global,
    setup: &Setup,
    change: &Change,
    times: u32,
    sym: Sym,
) -> Result<Came, Failed> {
    let (mut publisher, desk) = open(rt, alloc, setup)?;
    let Some((a, b, taker)) = open_two(alloc, 64) else {
        publisher.close(rt);
        return Err(Failed);
    };
    let lent = &mut publisher;
    let ((a, b, desk), (back, taker)) = thread::join(
        rt,
        move || -> (Sender, Sender, Desk)
            requires { (a.sent ≡ []) × (b.sent ≡ []) }
            ensures a { (result.0.lane ≡ a.lane) × (result.0.feed ≡ a.feed) }
            ensures b { (result.1.lane ≡ b.lane) × (result.1.feed ≡ b.feed) }
            ensures desk { result.2.opening ≡ desk.opening }
        { send_and_look(rt, (a, b, desk), change, times, sym) },
        move || -> (&mut Publisher, Taker)
            ensures name { result.0.ghost_name ≡ lent.entry.ghost_name }
            ensures opening { result.0.now.opening ≡ lent.entry.now.opening }
            ensures lane { (result.1.lane ≡ taker.lane) × (result.1.senders ≡ taker.senders) }
        {
            let taker = publish_all(rt, lent, taker, 2 * u64::from(times));
            (lent, taker)
        },
    );
    take_back(back);
    let settled = settle(rt, publisher, desk);
    match (close_two(alloc, a, b, taker), settled) {
        (Some(delivered), Some(settled)) => Ok(Came { delivered, settled }),
        _ => Err(Failed),
    }
}

/// Opens a lane for two feeds.
fn open_two(alloc: Global, capacity: usize) -> Option<(Sender, Sender, Taker)>
    requires { (LEAST_CAPACITY ≤ capacity) × (capacity ≤ MOST_CAPACITY) }
    ensures one_lane { IfSome result (λ ends. (ends.0.lane ≡ ends.2.lane) × (ends.1.lane ≡ ends.2.lane)) }
    ensures feeds { IfSome result (λ ends. (ends.0.feed ≡ feed.A) × (ends.1.feed ≡ feed.B)) }
    ensures empty { IfSome result (λ ends. (ends.0.sent ≡ []) × (ends.1.sent ≡ [])) }
    ensures two { IfSome result (λ ends. ends.2.senders ≡ 2) }
{
    let Ok((mut senders, taker)) = open_lane(alloc, capacity, 2) else {
        return None;
    };
    let b = senders.pop()?;
    let a = senders.pop()?;
    Some((a, b, taker))
}

/// Closes a lane of two feeds. `None` if not all changes were taken, or if out of memory.
fn close_two(alloc: Global, a: Sender, b: Sender, taker: Taker) -> Option<Delivered>
    requires one_lane { (a.lane ≡ taker.lane) × (b.lane ≡ taker.lane) }
    requires feeds { (a.feed ≡ feed.A) × (b.feed ≡ feed.B) }
    requires two { taker.senders ≡ 2 }
{
    let Ok(mut senders) = Vec::with_capacity(alloc, 2) else {
        return None;
    };
    senders.push_reserved(a);
    senders.push_reserved(b);
    close(senders, taker).ok()
}

/// Ends a loan of the publisher to other threads. The prover then knows the same facts about it as it did during the loan.
fn take_back(publisher: &mut Publisher)
    ensures { publisher.new ≡ publisher.old }
{
    let _publisher = publisher;
}

/// Opens a tape with one desk. If there is no desk, the tape is closed and the call fails.
fn open<R: Wait>(rt: &R, alloc: Global, setup: &Setup) -> Result<(Publisher, Desk), Failed>
    ensures { IfOk result (λ ends. ends.1.opening ≡ ends.0.opening) }
{
    let Ok((publisher, desks)) = open_tape(alloc, rt, setup) else {
        return Err(Failed);
    };
    match one_of(&publisher, desks) {
        Some(desk) => Ok((publisher, desk)),
        None => {
            publisher.close(rt);
            Err(Failed)
        }
    }
}

/// The last of the desks that were opened with a tape.
fn one_of(publisher: &Publisher, mut desks: Vec<Desk>) -> Option<Desk>
    requires { All (λ desk. desk.opening ≡ publisher.now.opening) desks.items }
    ensures { IfSome result (λ desk. desk.opening ≡ publisher.now.opening) }
{
    desks.pop()
}

/// Sends a change n times from each of two feeds, while a desk looks.
fn send_and_look<R: Threads + Wait + Sync>(
    rt: &R,
    ends: (Sender, Sender, Desk),
    change: &Change,
    times: u32,
    sym: Sym,
) -> (Sender, Sender, Desk)
    requires { (ends.0.sent ≡ []) × (ends.1.sent ≡ []) }
    ensures a { (result.0.lane ≡ ends.0.lane) × (result.0.feed ≡ ends.0.feed) }
    ensures b { (result.1.lane ≡ ends.1.lane) × (result.1.feed ≡ ends.1.feed) }
    ensures desk { result.2.opening ≡ ends.2.opening }
{
    let (a, b, desk) = ends;
    let (a, (b, desk)) = thread::join(
        rt,
        move || -> Sender
            requires { a.sent ≡ [] }
            ensures { (result.lane ≡ a.lane) × (result.feed ≡ a.feed) }
        { send_all(rt, a, change, times) },
        move || -> (Sender, Desk)
            requires { b.sent ≡ [] }
            ensures { (result.0.lane ≡ b.lane) × (result.0.feed ≡ b.feed) × (result.1.opening ≡ desk.opening) }
        { send_beside_looks(rt, b, desk, change, times, sym) },
    );
    (a, b, desk)
}

/// Sends a change n times from one feed, while a desk looks.
fn send_beside_looks<R: Threads + Wait + Sync>(
    rt: &R,
    sender: Sender,
    desk: Desk,
    change: &Change,
    times: u32,
    sym: Sym,
) -> (Sender, Desk)
    requires { sender.sent ≡ [] }
    ensures { (result.0.lane ≡ sender.lane) × (result.0.feed ≡ sender.feed) × (result.1.opening ≡ desk.opening) }
{
    thread::join(
        rt,
        move || -> Sender
            requires { sender.sent ≡ [] }
            ensures { (result.lane ≡ sender.lane) × (result.feed ≡ sender.feed) }
        { send_all(rt, sender, change, times) },
        move || -> Desk
            ensures { result.opening ≡ desk.opening }
        { look_often(desk, sym, 1000) },
    )
}

/// Takes n changes from the lane and appends them. It publishes whenever the lane is empty, and at the end.
fn publish_all<R: Wait>(rt: &R, publisher: &mut Publisher, mut taker: Taker, changes: u64) -> Taker
    ensures opening { publisher.new.opening ≡ publisher.old.opening }
    ensures lane { (result.lane ≡ taker.lane) × (result.senders ≡ taker.senders) }
{
    let mut taken = 0;
    for _ in rt.forever() {
        if taken >= changes {
            break;
        }
        match taker.take(rt) {
            Some(change) => {
                append(publisher, change);
                taken += 1;
            }
            None => {
                publisher.publish(rt);
                thread::yield_now();
            }
        }
    }
    publisher.publish(rt);
    taker
}

/// Appends a change if it is of the roster. Returns whether it is on the tape: a full tape or a lack of memory leaves it out.
fn append(publisher: &mut Publisher, change: Change) -> bool
    ensures { publisher.new.opening ≡ publisher.old.opening }
{
    publisher.holds(&change) && publisher.append(change).is_ok()
}

/// Makes n looks at a symbol. No look shows an older version than a look before it.
fn look_often(mut desk: Desk, sym: Sym, looks: u32) -> Desk
    ensures { result.opening ≡ desk.opening }
{
    for _look in 0..looks {
        if let Ok(_view) = desk.look(sym) {}
    }
    desk
}

/// Informs the desk of the complete tape, and settles it. This confirms that all that the desk saw was published from this tape.
fn settle<R: Wait>(rt: &R, mut publisher: Publisher, mut desk: Desk) -> Option<u64>
    requires { desk.opening ≡ publisher.opening }
{
    let told = publisher.receipt();
    let last = publisher.receipt();
    publisher.close(rt);
    desk.learn(told);
    match desk.settle(last) {
        Ok(settled) => Some(settled.version),
        Err(_) => None,
    }
}
