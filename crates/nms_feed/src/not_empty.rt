//! The answer to closing a lane if not everything was taken.
use crate::sender::Sender;
use crate::taker::Taker;

/// N3: a change that was sent was not yet taken. All ends come back as they were.
#[derive(Drop)]
pub struct NotEmpty {
    /// The senders, in order of feed.
    pub senders: Vec<Sender>,
    /// The end of the lane at which changes are taken.
    pub taker: Taker,
}
