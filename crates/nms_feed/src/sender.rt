//! A feed's end of a lane (specs/Lane).
ghost use Rattle.std.specs.Prelude.{◌≡◌, ◌<◌, ◌≤◌, ◌∷◌, ◌++◌, [], length, IfErr, OnErr, OnOk};
ghost use Rattle.nms_feed.specs.declared.TheConstants.{MOST_SENT};

use crate::full::Full;
use crate::packed::Packed;
use crate::patience::Patience;
use crate::rule::{Line, LinePass, Sends};
use nms_quote::{Change, Feed};
use std::alloc::Global;
use std::marker::Model;
use std::sync::{Arc, Wait};

/// A feed's end of a lane. Each change that it sends bears its feed's mark.
#[derive(Drop)]
pub struct Sender {
    pub(crate) line: Arc<Line, Global>,
    pub(crate) pass: LinePass,
    pub(crate) feed: Feed,
    /// How many changes the sender has sent.
    pub(crate) sent: u64,
}

impl Model for Sender {
    ghost use Rattle.crossbeam_queue.specs.Passes.{IsPassOf};
    ghost use Rattle.nms_feed.specs.Known.{IsSender, first_sent};
    ghost use Rattle.nms_feed.specs.Lane.{Sending};

    ghost Value = { Sending };

    ghost view = { λ s. record { lane = s.pass.table_id; feed = s.feed; sent = first_sent s.pass.me.0.client.sent } };

    ghost invariant = { λ s. IsPassOf s.line.value s.pass × IsSender s.pass.me.0.client s.feed s.sent };
}

impl Sender {
    /// The feed that marks its changes.
    pub fn feed(&self) -> Feed
        ensures { result ≡ self.now.feed }
    {
        self.feed
    }

    /// How many changes the sender has sent.
    pub(crate) fn count(&self) -> u64
        ensures count { result ≡ length self.now.sent }
        ensures within { result ≤ MOST_SENT }
    {
        self.sent
    }

    /// Sends a change. Waits if the lane is full, until a change is taken.
    pub fn send<R: Wait>(&mut self, rt: &R, change: Change)
        requires room { length self.old.sent < MOST_SENT }
        ensures sent { self.new ≡ record self.old { sent = self.old.sent ++ change ∷ [] } }
    {
        let change = &change;
        let mut patience = Patience::new();
        for _ in rt.forever() {
            if self.try_send(rt, *change).is_ok() {
                return;
            }
            patience.wait(rt);
        }
        unreachable!()
    }

    /// Sends a change, unless the lane is full. Then the change comes back and nothing was sent.
    pub fn try_send<R: Wait>(&mut self, rt: &R, change: Change) -> Result<(), Full>
        requires room { length self.old.sent < MOST_SENT }
        ensures sent { OnOk result (self.new ≡ record self.old { sent = self.old.sent ++ change ∷ [] }) }
        ensures unchanged { OnErr result (self.new ≡ self.old) }
        ensures back { IfErr result (λ full. full.change ≡ change) }
        ensures same { (self.new.lane ≡ self.old.lane) × (self.new.feed ≡ self.old.feed) }
    {
        let packed = Packed::of(self.feed, &change);
        match self.line.push_as::<Sends, R>(rt, &mut self.pass, packed) {
            Ok(()) => {
                self.sent += 1;
                Ok(())
            }
            Err(_) => Err(Full { change }),
        }
    }
}
