//! The taker's two loops: while the feeds run, and once they have ended (specs/Keeping).
ghost use Rattle.std.specs.Prelude.{◌≡◌, List, map, None};
ghost use Rattle.nms_quote.specs.Merge.{IsMerge};
ghost use Rattle.nms_quote.specs.declared.marked.Marked.{Marked};
ghost use Rattle.nms_feed.specs.Lane.{AreSendersOf};
ghost use Rattle.nms_flow.specs.Run.{changes_in};
ghost use Rattle.nms_versions.specs.Taped.{tape_of};
ghost use Rattle.nms_live.specs.Keeping.{HasTaken, IsSameKeeping, IsWhole};

use crate::gate::Gate;
use crate::given::{Given, Means};
use crate::keeper::Keeper;
use nms_feed::{NotEmpty, Patience, Sender, Taker, close};
use std::sync::Wait;

/// Takes a change, if there is one, and reports whether there was.
fn take_one<R: Wait, G: Gate>(
    means: &Means<'_, R, G>,
    keeper: &mut Keeper,
    taker: &mut Taker,
) -> bool
    ensures lane { (taker.new.lane ≡ taker.old.lane) × (taker.new.senders ≡ taker.old.senders) }
    ensures same { IsSameKeeping keeper.old keeper.new }
    ensures taken { HasTaken keeper.old taker.old.taken → HasTaken keeper.new taker.new.taken }
{
    match taker.take(means.rt) {
        Some(change) => {
            keeper.take_in(means, &change);
            true
        }
        None => false,
    }
}

/// Takes changes and publishes them until all feeds have ended and no further change is found. A taker that is ahead of its
/// feeds publishes what it has and waits a turn. If it looked again at once, it would publish each change separately.
pub(crate) fn take_until_ended<R: Wait, G: Gate>(
    means: &Means<'_, R, G>,
    given: &Given<'_>,
    keeper: &mut Keeper,
    taker: &mut Taker,
)
    ensures lane { (taker.new.lane ≡ taker.old.lane) × (taker.new.senders ≡ taker.old.senders) }
    ensures same { IsSameKeeping keeper.old keeper.new }
    ensures taken { HasTaken keeper.old taker.old.taken → HasTaken keeper.new taker.new.taken }
{
    let mut patience = Patience::new();
    for _ in means.rt.forever() {
        if take_one(means, keeper, taker) {
            continue;
        }
        if keeper.has_waiting() {
            keeper.publish(means);
            patience.calm();
        } else if given.feeds_have_ended() {
            return;
        }
        patience.wait(means.rt);
    }
    unreachable!()
}

/// Takes what is left once all feeds have ended, and publishes all of the tape.
pub(crate) fn take_rest<R: Wait, G: Gate>(
    means: &Means<'_, R, G>,
    keeper: &mut Keeper,
    senders: Vec<Sender>,
    taker: Taker,
)
    requires ends { AreSendersOf taker senders.items }
    requires taken { HasTaken keeper.old taker.taken }
    ensures same { IsSameKeeping keeper.old keeper.new }
    ensures whole { keeper.new.stop ≡ None → IsWhole keeper.new }
    ensures merged { keeper.new.stop ≡ None
        → (marked : List Marked) × IsMerge (map (λ s. s.sent) senders.items) marked × (tape_of keeper.new.taped ≡ changes_in marked) }
{
    let mut ends = (senders, taker);
    let mut patience = Patience::new();
    for _ in means.rt.forever() {
        let (senders, taker) = ends;
        match close(senders, taker) {
            Ok(_) => {
                keeper.publish(means);
                return;
            }
            Err(NotEmpty { senders, mut taker }) => {
                if !take_one(means, keeper, &mut taker) {
                    patience.wait(means.rt);
                }
                ends = (senders, taker);
            }
        }
    }
    unreachable!()
}
