//! What a run writes or waits for in addition to its streams: the files of its state, the record of requests, and the tape's
//! disk.
use crate::recording::Record;
use crate::signs::Signs;
use crate::tape_disk::TapeDisk;

/// The files that a run was asked for in addition to its feeds and clients. The crate's functions know only this trait.
/// Otherwise the prover's search for what may go from thread to thread would read every field of these files' types.
pub trait Beside {
    /// The files by which the run shows its state.
    fn signs(&self) -> Signs<'_>;

    /// The disk of the tape, if the run waits for it once a second.
    fn disk(&self) -> Option<TapeDisk<'_>>;

    /// The file to which requests and answers are recorded.
    fn recording(&self) -> Option<Record<'_>>;
}
