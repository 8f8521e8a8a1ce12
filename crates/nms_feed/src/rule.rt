//! The rule of the lane's queue (specs/Rule), and the result of each step over the queue.
ghost use Rattle.std.specs.Prelude.{◌≡◌, ◌<◌, ◌*◌, ◌∷◌, ◌++◌, [], length, Some};
ghost use Rattle.std.specs.List.{AllByRecursion};
ghost use Rattle.nms_quote.specs.Merge.{of_feed};
ghost use Rattle.nms_quote.specs.declared.TheConstants.{MOST_FEEDS};
ghost use Rattle.nms_feed.specs.declared.TheConstants.{MOST_SENT};
ghost use Rattle.nms_feed.specs.Known.{first_alone, first_sent, first_view, gathered, sender_view, spent_view, taken_in, without_first};
ghost use Rattle.nms_feed.specs.Rule.{Kept};

use crate::known::Known;
use crate::packed::Packed;
use crossbeam_queue::protocol::{Join, Lesson, Outcome, Protocol, Split};
use crossbeam_queue::{Pass, RuledArrayQueue};

/// The queue inside a lane.
pub type Line = RuledArrayQueue<Packed, Known, InOrder>;

/// What one end of a lane knows about the queue. It has no bytes.
pub type LinePass = Pass<Packed, Known>;

/// The rule: what was taken, followed by what is in the queue, is what the senders sent.
pub struct InOrder;

impl Protocol<Packed, Known> for InOrder {
    ghost holds = { Kept };

    ghost first = { first_view };
}

/// A change is sent.
pub struct Sends;

impl Outcome<Packed, Known> for Sends {
    ghost then = { λ known marked after. after ≡ sender_view marked.feed (first_sent known.sent ++ marked.change ∷ []) };
}

impl Lesson<Packed, Known> for Sends {
    ghost fact = { λ known items. Unit {0} };
}

/// A change is taken.
pub struct Takes;

impl Outcome<Packed, Known> for Takes {
    ghost then = { λ known marked after. (after ≡ record { sent = known.sent; taken = Some (taken_in known ++ marked ∷ []) }) × (length (taken_in known) < MOST_FEEDS * MOST_SENT) };
}

impl Lesson<Packed, Known> for Takes {
    ghost fact = { λ known items. Unit {0} };
}

/// A pass is cut off that may send only for the first feed.
pub struct FirstFeed;

impl Split<Known> for FirstFeed {
    ghost left = { without_first };

    ghost right = { first_alone };
}

/// A pass learns what another knows.
pub struct Gathers;

impl Join<Known> for Gathers {
    ghost both = { gathered };

    ghost spent = { spent_view };
}

/// For each feed, the changes that were sent are those that were taken, followed by those in the queue.
pub struct Tallies;

impl Lesson<Packed, Known> for Tallies {
    ghost fact = { λ known items. AllByRecursion (λ sent. sent.changes ≡ of_feed sent.feed (taken_in known ++ items)) known.sent };
}
