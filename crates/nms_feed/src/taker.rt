//! The end of a lane at which the changes of all feeds are taken (specs/Lane).
ghost use Rattle.std.specs.Prelude.{◌≡◌, ◌∷◌, ◌++◌, [], IfSome, IfNone};
ghost use Rattle.nms_quote.specs.declared.feed.Feed.{Feed};

use crate::rule::{Line, LinePass, Takes};
use nms_quote::Change;
use std::alloc::Global;
use std::marker::Model;
use std::sync::{Arc, Wait};

/// The end of a lane at which the changes of all feeds are taken.
#[derive(Drop)]
pub struct Taker {
    pub(crate) line: Arc<Line, Global>,
    pub(crate) pass: LinePass,
    /// How many senders the lane has, 1 to 8.
    pub(crate) senders: u8,
    /// How many changes were taken.
    pub(crate) taken: u64,
}

impl Model for Taker {
    ghost use Rattle.crossbeam_queue.specs.Passes.{IsPassOf};
    ghost use Rattle.nms_feed.specs.Known.{IsTaker, taken_in};
    ghost use Rattle.nms_feed.specs.Lane.{Taking};

    ghost Value = { Taking };

    ghost view = { λ t. record { lane = t.pass.table_id; senders = t.senders; taken = taken_in t.pass.me.0.client } };

    ghost invariant = { λ t. IsPassOf t.line.value t.pass × IsTaker t.pass.me.0.client t.senders t.taken };
}

impl Taker {
    /// Takes the change at the lane's front. `None` if the lane is empty.
    pub fn take<R: Wait>(&mut self, rt: &R) -> Option<Change>
        ensures taken { IfSome result (λ change. (feed : Feed) × (self.new ≡ record self.old { taken = self.old.taken ++ record { feed = feed; change = change } ∷ [] })) }
        ensures unchanged { IfNone result (self.new ≡ self.old) }
        ensures same { (self.new.lane ≡ self.old.lane) × (self.new.senders ≡ self.old.senders) }
    {
        let marked = self.line.pop_as::<Takes, R>(rt, &mut self.pass)?;
        self.taken += 1;
        Some(marked.change())
    }
}
