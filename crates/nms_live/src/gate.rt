//! The gate of a live run, by which a caller may hold up each send, look and publishing.
use crate::{MOST_RESTS, MOST_TURNS};
use nms_feed::Patience;
use nms_quote::Feed;
use std::sync::Wait;
use std::thread;

/// A send, look or publishing of a live run.
#[derive(Clone, Copy, PartialEq, Eq)]
pub enum GatePoint {
    /// A feed's worker sends a change.
    Send {
        /// The feed.
        feed: Feed,
        /// How many changes the feed's worker sent before.
        k: u64,
    },
    /// A desk's worker looks.
    Look {
        /// The desk.
        desk: u8,
        /// How often the desk's worker looked before.
        k: u64,
    },
    /// The taker publishes.
    Publish {
        /// How often the taker published before.
        k: u64,
    },
}

/// Decides when each send, look and publishing of a live run may be made. All threads of the run use it at the same time.
pub trait Gate: Sync {
    /// Whether the send, look or publishing may be made now. A thread asks this up to 1,000,000 times, until the gate agrees.
    fn may(&self, at: GatePoint) -> bool;

    /// Called after the send, look or publishing was made.
    fn done(&self, at: GatePoint);
}

/// A gate that is always open.
#[derive(Clone, Copy)]
pub struct OpenGate;

impl Gate for OpenGate {
    fn may(&self, _at: GatePoint) -> bool {
        true
    }

    fn done(&self, _at: GatePoint) {}
}

/// Waits at a gate, and reports whether it opened.
pub(crate) fn passes<R: Wait, G: Gate>(rt: &R, gate: &G, at: GatePoint) -> bool {
    let mut patience = Patience::new();
    for turn in 0..MOST_TURNS {
        if gate.may(at) {
            return true;
        }
        if turn < MOST_RESTS {
            patience.wait(rt);
        } else {
            thread::yield_now();
        }
    }
    false
}
