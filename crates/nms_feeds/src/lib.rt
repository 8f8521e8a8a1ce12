//! The stream of one feed: its records are read as they come, and each change that they give is sent.
#![tactic(auto)]

mod feed_counts;
mod feed_fault;
mod feed_watch;
mod laws;
mod sending;

pub use feed_counts::FeedCounts;
pub use feed_fault::FeedFault;
pub use feed_watch::FeedWatch;
pub use laws::{
    a_refused_line_is_one_refused_record, each_line_is_read_alone, good_lines_are_passed_on,
};
pub use nms_whole::WholeLines;
pub use sending::send_stream;
