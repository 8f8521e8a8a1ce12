//! A watch of a feed: it is called for each change sent and each record refused.
use nms_lines::{ByteRecord, LineFault};
use nms_quote::Feed;

/// A watch of a feed while it is read. The threads of all feeds use it at the same time.
pub trait FeedWatch: Sync {
    /// Called when a change of the feed was sent.
    fn sent(&self, feed: Feed);

    /// Called when the record with this number of the feed, counted from 1, was refused. Then the record is skipped, or it ends
    /// the reading.
    fn refused(&self, feed: Feed, number: u64, fault: LineFault, record: &ByteRecord);
}
