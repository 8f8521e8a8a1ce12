//! What the writer and each reader of a pair of boards know about the pair. It exists only in proofs: no value of it is made.
use crate::sealed::Sealed;
use std::snapshot::Snapshot;

/// The opening of the pair, as a board that was shown.
pub struct Known {
    /// The board; `None` before any board was shown.
    pub opening: Option<Snapshot<Sealed>>,
}
