//! What a pass to the lane's queue knows (specs/Known). It exists only in proofs: no value of it is made.
use nms_quote::{Change, Feed, Marked};
use std::collections::LinkedList;

/// The changes that were sent for a feed.
pub struct Sent {
    /// The feed.
    pub feed: Feed,
    /// The changes that were sent for the feed, in order.
    pub changes: LinkedList<Change>,
}

/// For which feeds a pass may send, and whether it may take.
pub struct Known {
    /// The changes that were sent for each feed for which the pass may send.
    pub sent: LinkedList<Sent>,
    /// The changes that were taken, if the pass may take.
    pub taken: Option<LinkedList<Marked>>,
}
