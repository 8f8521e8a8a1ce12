//! Opening and closing a lane (specs/Lane).
ghost use Rattle.std.specs.Prelude.{◌≡◌, ◌<◌, ◌≤◌, ◌↔◌, suc, [], length, map, slice_get, sum_by, take, Some, IfErr, IfOk, IsErr, OnOk};
ghost use Rattle.nms_quote.specs.Merge.{IsMerge, feeds};
ghost use Rattle.nms_quote.specs.declared.TheConstants.{MOST_FEEDS};
ghost use Rattle.crossbeam_queue.specs.Passes.{IsPassOf, IsSamePass, view};
ghost use Rattle.nms_feed.specs.Known.{gathered, sender_view, taker_view};
ghost use Rattle.nms_feed.specs.Lane.{AreSendersOf, fresh, lists_of};
ghost use Rattle.nms_feed.specs.declared.TheConstants.{LEAST_CAPACITY, MOST_CAPACITY, MOST_SENT};

use crate::delivered::Delivered;
use crate::lane_fault::LaneFault;
use crate::not_empty::NotEmpty;
use crate::rule::{FirstFeed, Gathers, Line, LinePass, Tallies};
use crate::sender::Sender;
use crate::taker::Taker;
use arrayvec::ArrayVec;
use nms_quote::Feed;
use std::alloc::Global;
use std::sync::Arc;

/// Opens a lane that holds up to `capacity` changes at once, 2 to 1,024, for 1 to 8 senders. There is one sender for each of
/// the first feeds, in order, and the taker. Nothing after it takes memory. After `NoMemory` nothing is kept.
pub fn open_lane(
    alloc: Global,
    capacity: usize,
    senders: u8,
) -> Result<(Vec<Sender>, Taker), LaneFault>
    requires capacity { (LEAST_CAPACITY ≤ capacity) × (capacity ≤ MOST_CAPACITY) }
    requires senders { (1 ≤ senders) × (senders ≤ MOST_FEEDS) }
    ensures senders { IfOk result (λ ends. ends.0.items ≡ map (fresh ends.1.lane) (take senders feeds)) }
    ensures taker { IfOk result (λ ends. (ends.1.senders ≡ senders) × (ends.1.taken ≡ [])) }
{
    let Ok((line, mut pass)) = Line::ruled(alloc, capacity) else {
        return Err(LaneFault::NoMemory);
    };
    let Ok(line) = Arc::new(alloc, line) else {
        return Err(LaneFault::NoMemory);
    };
    let ends = cut_senders(alloc, &line, &mut pass, senders)?;
    let taker = Taker {
        line,
        pass,
        senders,
        taken: 0,
    };
    Ok((ends, taker))
}

/// Splits one pass off the lane's first pass for each of the first feeds, in order of feed.
fn cut_senders(
    alloc: Global,
    line: &Arc<Line>,
    pass: &mut LinePass,
    senders: u8,
) -> Result<Vec<Sender>, LaneFault>
    requires few { senders ≤ MOST_FEEDS }
    requires of_line { IsPassOf line.now.value pass.old }
    requires knows { view pass.old ≡ taker_view 0 [] }
    ensures same { IsSamePass pass.old pass.new }
    ensures knows { OnOk result (view pass.new ≡ taker_view senders []) }
    ensures senders { IfOk result (λ ends. ends.items ≡ map (fresh pass.old.table_id) (take senders feeds)) }
{
    let Ok(mut ends) = Vec::with_capacity(alloc, usize::from(senders)) else {
        return Err(LaneFault::NoMemory);
    };
    for place in 0..senders {
        ends.push_reserved(cut_sender(line, pass, place)?);
    }
    Ok(ends)
}

/// Splits a pass off the lane's first pass for the feed at a place. That has to be the first feed that still belongs to the
/// first pass.
fn cut_sender(line: &Arc<Line>, pass: &mut LinePass, place: u8) -> Result<Sender, LaneFault>
    requires place { place < MOST_FEEDS }
    requires of_line { IsPassOf line.now.value pass.old }
    requires knows { view pass.old ≡ taker_view place [] }
    ensures same { IsSamePass pass.old pass.new }
    ensures knows { OnOk result (view pass.new ≡ taker_view (suc place) []) }
    ensures feed { IfOk result (λ sender. slice_get feeds place ≡ Some sender.feed) }
    ensures fresh { IfOk result (λ sender. sender ≡ fresh pass.old.table_id sender.feed) }
{
    let Some(feed) = Feed::at(place) else {
        unreachable!()
    };
    let Ok(line) = Arc::try_clone(line) else {
        return Err(LaneFault::NoMemory);
    };
    let pass = line.another::<FirstFeed>(pass);
    Ok(Sender {
        line,
        pass,
        feed,
        sent: 0,
    })
}

/// Closes a lane if everything that was sent was taken, and returns how much that was. `NotEmpty` if a change is still to be
/// taken; then all ends come back as they were. The senders must be all that the lane has, in order of feed.
pub fn close(senders: Vec<Sender>, taker: Taker) -> Result<Delivered, NotEmpty>
    requires all { AreSendersOf taker senders.items }
    ensures merged { IfOk result (λ delivered. IsMerge (lists_of senders.items) taker.taken) }
    ensures counted { IfOk result (λ delivered. (delivered.sent.items ≡ map (λ sender. length sender.sent) senders.items) × (delivered.taken ≡ length taker.taken)) }
    ensures when { IsErr result ↔ (length taker.taken < sum_by (λ sender. length sender.sent) senders.items) }
    ensures back { IfErr result (λ ends. ends ≡ record { senders = senders; taker = taker }) }
{
    if taker.taken < all_sent(&senders) {
        return Err(NotEmpty { senders, taker });
    }
    let sent = counts_of(&senders);
    let taken = taker.taken;
    join(senders, taker);
    Ok(Delivered { sent, taken })
}

/// How many changes all senders sent.
fn all_sent(senders: &[Sender]) -> u64
    requires { length senders.now ≤ MOST_FEEDS }
    ensures { result ≡ sum_by (λ sender. length sender.sent) senders.now }
{
    let mut sent = 0;
    for sender in senders {
        sent += sender.count();
    }
    sent
}

/// How many changes each sender sent, in their order.
fn counts_of(senders: &[Sender]) -> ArrayVec<u64, 8>
    requires { length senders.now ≤ MOST_FEEDS }
    ensures { result.items ≡ map (λ sender. length sender.sent) senders.now }
{
    let mut counts = ArrayVec::new_in(());
    for sender in senders {
        counts.push(sender.count());
    }
    counts
}

/// Puts together what the ends of a lane know once everything was taken.
fn join(senders: Vec<Sender>, taker: Taker)
    requires all { AreSendersOf taker senders.items }
    requires taken { sum_by (λ sender. length sender.sent) senders.items ≤ length taker.taken }
    ensures { IsMerge (lists_of senders.items) taker.taken }
{
    let Taker { line, mut pass, .. } = taker;
    for sender in senders {
        join_sender(&line, &mut pass, sender);
    }
    line.learn_as::<Tallies>(&mut pass);
}

/// Adds what a sender knows about the lane's queue to what a pass knows.
fn join_sender(line: &Line, pass: &mut LinePass, sender: Sender)
    requires of_line { IsPassOf line.now pass.old }
    requires one_lane { sender.lane ≡ pass.old.table_id }
    ensures same { IsSamePass pass.old pass.new }
    ensures knows { view pass.new ≡ gathered (view pass.old) (sender_view sender.feed sender.sent) }
{
    line.absorb::<Gathers>(pass, sender.pass);
}
