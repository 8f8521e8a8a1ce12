//! The feeds' workers: how they are started, and what they returned (specs/Crew).
ghost use Rattle.std.specs.Prelude.{◌≡◌, ◌≢◌, ◌≤◌, ◌⊎◌, true, List, [], map, Some, None, IfSome};
ghost use Rattle.std.specs.List.{AllByRecursion, AllZip};
ghost use Rattle.std.specs.Vec.{vec_len, vec_capacity};
ghost use Rattle.nms_quote.specs.Merge.{IsMerge};
ghost use Rattle.nms_quote.specs.declared.marked.Marked.{Marked};
ghost use Rattle.nms_flow.specs.Run.{changes_in};
ghost use Rattle.nms_feed.specs.Lane.{AreSendersOf};
ghost use Rattle.nms_versions.specs.Taped.{tape_of};
ghost use Rattle.nms_live.specs.Crew.{AreFreshEnds, HasKept, IsFedBy, IsFresh, WillBeFed, first_stop, texts_of};
ghost use Rattle.nms_live.specs.Faults.{IsNoLine};
ghost use Rattle.nms_live.specs.Keeping.{HasTaken, IsSameKeeping, IsWhole};
ghost use Rattle.nms_live.specs.Reading.{IsLiveFault, IsTapeOf};

use crate::fed_feed::{Fed, FeedJob, feed_all};
use crate::first_fault::first_of;
use crate::gate::Gate;
use crate::given::{Given, Means};
use crate::keeper::Keeper;
use crate::live_fault::LiveFault;
use crate::taking::{take_rest, take_until_ended};
use nms_feed::{Sender, Taker};
use std::alloc::Global;
use std::snapshot::Snapshot;
use std::sync::Wait;
use std::thread::{PromisedHandle, Scope, Threads};

/// Starts the feeds' workers, takes what they send until all have ended, and then the rest. Returns the fault of the
/// first feed that stopped early.
pub(crate) fn run_feeds<'s, E, R: Threads + Wait + Sync, G: Gate>(
    scope: &'s Scope<'s, E>,
    means: &'s Means<'s, R, G>,
    given: &'s Given<'s>,
    keeper: &mut Keeper,
    ends: (Vec<Sender>, Taker),
) -> Option<LiveFault>
    requires ends { AreFreshEnds (texts_of given.now) ends.1 ends.0.items }
    requires empty { tape_of keeper.old.taped ≡ [] }
    ensures same { IsSameKeeping keeper.old keeper.new }
    ensures fault { IfSome result (IsLiveFault given.now.setup.now.roster (texts_of given.now)) }
    ensures whole { result ≡ None → keeper.new.stop ≡ None → IsWhole keeper.new }
    ensures tape { result ≡ None → keeper.new.stop ≡ None → IsTapeOf given.now.setup.now.roster (texts_of given.now) (tape_of keeper.new.taped) }
{
    let (senders, mut taker) = ends;
    let mut handles = Vec::new(means.alloc);
    let mut back = Vec::new(means.alloc);
    // There is room first, because a worker that was started must be waited for.
    if handles.reserve(senders.len()).is_err() || back.reserve(senders.len()).is_err() {
        return Some(LiveFault::NoMemory);
    }
    let all_started = start_feeds(scope, means, given, senders, &mut handles);
    take_until_ended(means, given, keeper, &mut taker);
    let fed = join_feeds(means.rt, handles, back);
    if !all_started {
        return Some(LiveFault::Open);
    }
    end_feeds(means, keeper, fed, taker)
}

/// Starts the feeds' workers in order of place, and reports whether all were started. If one can't be started, no later one is
/// started. Then the feeds without a worker count as ended.
fn start_feeds<'s, E, R: Wait + Sync, G: Gate>(
    scope: &'s Scope<'s, E>,
    means: &'s Means<'s, R, G>,
    given: &'s Given<'s>,
    senders: Vec<Sender>,
    handles: &mut Vec<PromisedHandle<Fed, FeedJob>>,
) -> bool
    requires fresh { AllByRecursion IsFresh senders.items }
    requires empty { handles.old.items ≡ [] }
    requires room { vec_len senders ≤ vec_capacity handles.old }
    ensures few { vec_len handles.new ≤ vec_len senders }
    ensures started { result ≡ true → AllZip (WillBeFed given.now.setup.now.roster (texts_of given.now)) senders.items handles.new.items }
{
    let mut all_started = true;
    for sender in senders {
        if !all_started {
            given.ended.add(sender.feed());
            continue;
        }
        match start_feed(scope, means, given, sender) {
            Some(handle) => {
                let Ok(()) = handles.push(handle) else {
                    unreachable!()
                };
            }
            None => all_started = false,
        }
    }
    all_started
}

/// Starts the worker of a sender's feed. If it can't be started, the feed has ended.
fn start_feed<'s, E, R: Wait + Sync, G: Gate>(
    scope: &'s Scope<'s, E>,
    means: &'s Means<'s, R, G>,
    given: &'s Given<'s>,
    sender: Sender,
) -> Option<PromisedHandle<Fed, FeedJob>>
    requires fresh { IsFresh sender }
    ensures job { IfSome result (WillBeFed given.now.setup.now.roster (texts_of given.now) sender) }
{
    let (rt, alloc, gate) = (means.rt, means.alloc, means.gate);
    let (setup, feeds, ended) = (given.setup, &given.feeds, &given.ended);
    let feed = sender.feed();
    let job = FeedJob {
        setup: Snapshot::of(setup),
        feeds: Snapshot::of(feeds),
        sender: Snapshot::of(&sender),
    };
    let Ok(handle) = scope.spawn_with(
        job,
        move || -> Fed
            requires { IsFresh sender }
            ensures { IsFedBy setup.entry.now.roster (map (λ text. text.items) feeds.entry.now.items) sender result }
        { feed_all(&Means { rt, alloc, gate }, setup, feeds, ended, sender) },
    ) else {
        ended.add(feed);
        return None;
    };
    Some(handle)
}

/// Waits for the feeds' workers. There is room for their results, so none of their faults is lost.
fn join_feeds<R: Threads>(
    rt: &R,
    handles: Vec<PromisedHandle<Fed, FeedJob>>,
    mut back: Vec<Fed>,
) -> Vec<Fed>
    requires empty { back.items ≡ [] }
    requires room { vec_len handles ≤ vec_capacity back }
    ensures kept { AllZip HasKept handles.items result.items }
{
    for handle in handles {
        let Ok(()) = back.push(handle.join(rt)) else {
            unreachable!()
        };
    }
    back
}

/// Takes the rest of what all feeds sent, unless a feed's worker stopped early. Returns the fault of the first such feed.
fn end_feeds<R: Wait, G: Gate>(
    means: &Means<'_, R, G>,
    keeper: &mut Keeper,
    fed: Vec<Fed>,
    taker: Taker,
) -> Option<LiveFault>
    requires ends { AreSendersOf taker (map (λ back. back.sender) fed.items) }
    requires taken { HasTaken keeper.old taker.taken }
    ensures same { IsSameKeeping keeper.old keeper.new }
    ensures fault { IfSome result (λ why. (first_stop fed.items ≡ Some why) ⊎ IsNoLine why) }
    ensures first { first_stop fed.items ≢ None → result ≡ first_stop fed.items }
    ensures whole { result ≡ None → keeper.new.stop ≡ None → IsWhole keeper.new }
    ensures merged { result ≡ None → keeper.new.stop ≡ None
        → (marked : List Marked) × IsMerge (map (λ back. back.sender.sent) fed.items) marked × (tape_of keeper.new.taped ≡ changes_in marked) }
{
    let first = fault_of_feeds(&fed);
    if first.is_some() {
        return first;
    }
    let Some(senders) = senders_of(means.alloc, fed) else {
        return Some(LiveFault::NoMemory);
    };
    take_rest(means, keeper, senders, taker);
    None
}

/// The fault with which the run answers, from the faults of the feeds' workers.
fn fault_of_feeds(fed: &[Fed]) -> Option<LiveFault>
    ensures first { result ≡ first_stop fed.now }
{
    let mut first = None;
    for back in fed {
        first = first_of(first, back.stop);
    }
    first
}

/// The feeds' ends of the lane, in the order in which they came back. `None` if out of memory.
fn senders_of(alloc: Global, fed: Vec<Fed>) -> Option<Vec<Sender>>
    ensures senders { IfSome result (λ senders. senders.items ≡ map (λ back. back.sender) fed.items) }
{
    let mut senders = Vec::new(alloc);
    for Fed { sender, stop: _ } in fed {
        match senders.push(sender) {
            Ok(()) => {}
            Err(_) => return None,
        }
    }
    Some(senders)
}
