//! The counts of what passed through a lane.
use arrayvec::ArrayVec;

/// How many changes passed through a lane.
#[derive(PartialEq, Drop)]
pub struct Delivered {
    /// The counts of the changes that each sender sent, in order of feed: at most 2^40 each.
    pub sent: ArrayVec<u64, 8>,
    /// The count of the changes that were taken, which is all of them.
    pub taken: u64,
}
