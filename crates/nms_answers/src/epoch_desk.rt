//! A client's desk of one epoch, and the source of its desks of later ones (specs/Epochs).
ghost use Rattle.std.specs.Prelude.{◌≡◌, ◌<◌, IfSome};
ghost use Rattle.nms_quote.specs.Roster.{Sizes};

use nms_lines::ByteRecord;
use nms_versions::Desk;

/// A client's desk of one epoch of a run. An epoch is one tape with its board; epochs are counted from 0.
#[derive(Drop)]
pub struct EpochDesk {
    /// The number of the epoch.
    pub epoch: u64,
    /// The desk, which looks at what is published in that epoch.
    pub desk: Desk,
}

/// The source of a client's desks of later epochs. It learns of each answer, so that a run can record and count them while it
/// goes on.
pub trait LaterDesks {
    // The sizes of the roster, which all epochs of a run have.
    ghost sizes: { Sizes };

    /// The client's desk of the latest epoch, if that is later than `epoch`.
    fn later(&self, epoch: u64) -> Option<EpochDesk>
        ensures later { IfSome result (λ next. epoch < next.epoch) }
        ensures sizes { IfSome result (λ next. next.desk.sizes ≡ sizes) };

    /// Called before an answer is written. It gets the answer's text, the request that it answers, and the epoch in which the
    /// answer was made.
    fn take_down(&self, epoch: u64, request: &ByteRecord, answer: &[u8]);

    /// Called after an answer was written. `refused` holds if the answer is an `ERR` record.
    fn note_answer(&self, refused: bool);
}
