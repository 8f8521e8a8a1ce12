//! The result of a live run (specs/Living).
use nms_quote::{Answer, Change};

/// The result of a live run.
#[derive(Drop)]
pub struct Live {
    /// All changes of all feeds, in the order in which they were taken.
    pub tape: Vec<Change>,
    /// The length of the tape at each publishing, in order.
    pub published: Vec<u64>,
    /// The answer to each order that its desk made while the feeds were running, in order.
    pub answers: Vec<Answer>,
    /// The answer to each order that its desk made on the complete tape, in order.
    pub closing: Vec<Answer>,
}
