//! What the taker keeps while a run goes on: the publisher, the published lengths, and its own fault (specs/Keeping).
ghost use Rattle.std.specs.Prelude.{◌≡◌, ℕ, ◌+◌, ◌≤◌, ◌⊎◌, ◌↔◌, ◌++◌, ◌∷◌, [], length, None, MatchBool};
ghost use Rattle.std.specs.List.{Contains};
ghost use Rattle.std.specs.Vec.{vec_len, vec_capacity};
ghost use Rattle.nms_versions.specs.Published.{changes, committed, publications};
ghost use Rattle.nms_versions.specs.Taped.{tape_of};
ghost use Rattle.nms_live.specs.Faults.{IsNoLineIfAny};
ghost use Rattle.nms_live.specs.Keeping.{IsKept, IsSameKeeping, IsWhole, WasPublished};
ghost use Rattle.nms_live.specs.Lists.{IsRising};

use crate::MOST_WAITING;
use crate::gate::{Gate, GatePoint, passes};
use crate::given::Means;
use crate::live_fault::LiveFault;
use nms_quote::{Change, SideQuote};
use nms_versions::{Publisher, Receipt};
use std::alloc::Global;
use std::marker::Model;
use std::sync::Wait;

/// Takes changes in and publishes them. After a fault it does nothing. It is not `Drop`, so end it by `end`.
pub struct Keeper {
    publisher: Publisher,
    /// The length of the tape at each publishing.
    listed: Vec<u64>,
    /// How many changes were taken in since the last publishing.
    waiting: u64,
    stop: Option<LiveFault>,
}

impl Model for Keeper {
    ghost use Rattle.std.specs.Prelude.{◌≤◌};
    ghost use Rattle.nms_live.specs.declared.TheConstants.{MOST_WAITING};
    ghost use Rattle.nms_live.specs.Keeping.{IsKept, Keeping};

    ghost Value = { Keeping };

    ghost view = { λ k. record { taped = k.publisher; listed = k.listed.items; stop = k.stop } };

    ghost invariant = { λ k. IsKept k.publisher k.listed.items k.stop × (k.waiting ≤ MOST_WAITING) };
}

impl Keeper {
    /// A keeper of a tape that was just opened. If there is memory, it makes room for n changes and publishings. So nothing
    /// that was taken in has to move while the feeds send.
    pub(crate) fn new(alloc: Global, mut publisher: Publisher, changes: usize) -> Self
        requires { publisher.published ≡ [] }
        ensures { result ≡ record { taped = publisher; listed = []; stop = None } }
    {
        publisher.make_room(changes);
        let mut listed = Vec::new(alloc);
        let _room = listed.reserve(changes);
        Keeper {
            publisher,
            listed,
            waiting: 0,
            stop: None,
        }
    }

    /// Why the keeper stopped, if it did.
    pub(crate) fn stop(&self) -> Option<LiveFault>
        ensures stop { result ≡ self.now.stop }
        ensures no_line { IsNoLineIfAny result }
    {
        self.stop
    }

    /// Whether any change was taken in since the last publishing.
    pub(crate) fn has_waiting(&self) -> bool {
        self.waiting > 0
    }

    /// Takes a change in, and publishes the tape after each 64 changes.
    pub(crate) fn take_in<R: Wait, G: Gate>(&mut self, means: &Means<'_, R, G>, change: &Change)
        ensures same { IsSameKeeping self.old self.new }
        ensures taken { self.new.stop ≡ None → (self.old.stop ≡ None) × (tape_of self.new.taped ≡ tape_of self.old.taped ++ change.now ∷ []) }
    {
        if self.stop.is_some() {
            return;
        }
        if !self.append(change) {
            self.waiting = 0;
            self.stop = Some(LiveFault::Append);
            return;
        }
        if self.waiting + 1 < MOST_WAITING {
            self.waiting += 1;
        } else {
            self.publish(means);
        }
    }

    /// Appends a change to the tape, and reports whether it was appended.
    fn append(&mut self, change: &Change) -> bool
        ensures same { IsSameKeeping self.old self.new }
        ensures stop { self.new.stop ≡ self.old.stop }
        ensures appended { MatchBool result (tape_of self.new.taped ≡ tape_of self.old.taped ++ change.now ∷ []) (self.new ≡ self.old) }
    {
        if !self.publisher.holds(change) {
            return false;
        }
        match self.publisher.append(*change) {
            Ok(()) => true,
            Err(_) => false,
        }
    }

    /// Publishes all of the tape.
    pub(crate) fn publish<R: Wait, G: Gate>(&mut self, means: &Means<'_, R, G>)
        ensures same { IsSameKeeping self.old self.new }
        ensures tape { self.new.stop ≡ None → (self.old.stop ≡ None) × (tape_of self.new.taped ≡ tape_of self.old.taped) }
        ensures whole { self.new.stop ≡ None → IsWhole self.new }
    {
        self.waiting = 0;
        if self.stop.is_some() {
            return;
        }
        if self.listed.reserve(1).is_err() {
            self.stop = Some(LiveFault::NoMemory);
            return;
        }
        let at = GatePoint::Publish {
            k: self.listed.len() as u64,
        };
        if !passes(means.rt, means.gate, at) {
            self.stop = Some(LiveFault::GateLimit);
            return;
        }
        publish_now(means.rt, &mut self.publisher, &mut self.listed);
        means.gate.done(at);
    }

    /// A receipt of the published version.
    pub(crate) fn receipt(&mut self) -> Receipt
        ensures opening { result.opening ≡ self.old.taped.opening }
        ensures published { result.published ≡ self.old.taped.published }
        ensures unchanged { self.new ≡ self.old }
        ensures kept { IsKept self.old.taped self.old.listed self.old.stop }
    {
        self.publisher.receipt()
    }

    /// Ends the publishing, and returns the tape and the published lengths.
    pub(crate) fn end<R: Wait>(self, rt: &R) -> (Vec<Change>, Vec<u64>)
        ensures tape { result.0.items ≡ tape_of self.taped }
        ensures within { length result.0.items ≤ self.taped.limit }
        ensures listed { result.1.items ≡ self.listed }
        ensures rising { IsRising self.listed }
        ensures published { changes self.taped.published ≡ tape_of self.taped → WasPublished (tape_of self.taped) self.listed }
    {
        let Keeper {
            publisher,
            listed,
            waiting: _,
            stop: _,
        } = self;
        let _within = publisher.tape();
        (publisher.close(rt), listed)
    }
}

/// Publishes all of the tape and lists its length, for which there is room.
fn publish_now<R: Wait>(rt: &R, publisher: &mut Publisher, listed: &mut Vec<u64>)
    requires room { vec_len listed.old + 1 ≤ vec_capacity listed.old }
    ensures published { publisher.new ≡ record publisher.old { published = committed publisher.old.published publisher.old.pending; pending = [] } }
    ensures whole { changes publisher.new.published ≡ tape_of publisher.old }
    ensures publications { (n : ℕ) → Contains (publications publisher.new.published) n
        ↔ Contains (publications publisher.old.published) n ⊎ (n ≡ length (tape_of publisher.old)) }
    ensures listed { listed.new.items ≡ listed.old.items ++ length (tape_of publisher.old) ∷ [] }
{
    let length = publisher.tape().len() as u64;
    publisher.publish(rt);
    let _listed = listed.push(length);
}
