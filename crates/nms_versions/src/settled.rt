//! How settling ends.
use crate::desk::Desk;

/// A desk was settled: everything that it knew is of the publisher's own tape.
#[derive(Clone, Copy, PartialEq, Eq)]
pub struct Settled {
    /// The longest version that the desk knew, as its number of changes.
    pub version: u64,
}

/// A desk was not settled. It comes back as it was, but the receipt is used up.
#[derive(Drop)]
pub enum Unsettled {
    /// The desk knows a longer version than the receipt's.
    Newer {
        /// The desk.
        desk: Desk,
        /// The longest version that the desk knows, as its number of changes.
        version: u64,
    },
    /// V5: the pair of boards gave no reading.
    NoReading {
        /// The desk.
        desk: Desk,
    },
}
