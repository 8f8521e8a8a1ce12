//! How far the board of a run is, as its other threads can read it.
use std::sync::atomic::{AtomicU64, Ordering};

/// How many bits a version takes. They suffice, since a tape has at most 10,000,000 changes.
const VERSION_BITS: u32 = 24;

/// How far the board is. The taker's thread notes it after each publishing. No proof relies on it.
#[derive(Drop)]
pub(crate) struct Progress {
    /// The epoch and its version in one number, so that no look finds one without the other.
    at: AtomicU64,
    /// How many changes of feeds were taken.
    taken: AtomicU64,
}

impl Progress {
    /// The progress of a board with nothing on it.
    pub(crate) fn new() -> Self {
        Progress {
            at: AtomicU64::new(0),
            taken: AtomicU64::new(0),
        }
    }

    /// Notes the epoch, its version, and how many changes of feeds were taken so far.
    pub(crate) fn note(&self, epoch: u64, version: u64, taken: u64) {
        self.at
            .store((epoch << VERSION_BITS) | version, Ordering::Release);
        self.taken.store(taken, Ordering::Release);
    }

    /// The epoch and its version.
    pub(crate) fn at(&self) -> (u64, u64) {
        let at = self.at.load(Ordering::Acquire);
        (at >> VERSION_BITS, at & ((1 << VERSION_BITS) - 1))
    }

    /// How many changes of feeds were taken.
    pub(crate) fn taken(&self) -> u64 {
        self.taken.load(Ordering::Acquire)
    }
}
