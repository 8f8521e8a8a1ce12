//! The lane between the feeds and the board. Each feed's thread sends its changes, and one thread takes them. What was taken is
//! a merge of what was sent.
#![tactic(auto)]

mod delivered;
mod full;
mod known;
mod lane;
mod lane_fault;
mod not_empty;
mod packed;
mod patience;
mod rule;
mod sender;
mod taker;

/// The fewest changes that a lane can be made to hold at once. This product's own rule.
pub const LEAST_CAPACITY: usize = 2;
/// The most changes that a lane can be made to hold at once. This product's own rule.
pub const MOST_CAPACITY: usize = 1024;
/// The most changes that a sender sends: 2^40. This product's own rule.
pub const MOST_SENT: u64 = 1 << 40;

pub use delivered::Delivered;
pub use full::Full;
pub use lane::{close, open_lane};
pub use lane_fault::LaneFault;
pub use not_empty::NotEmpty;
pub use patience::Patience;
pub use sender::Sender;
pub use taker::Taker;
