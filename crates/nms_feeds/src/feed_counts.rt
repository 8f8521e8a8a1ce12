//! How far a feed has come (specs/Streams).
ghost use Rattle.std.specs.Prelude.{◌≡◌};
ghost use Rattle.nms_feeds.specs.Streams.{no_counts};

/// How far a feed has come, over all streams from which it was read.
#[derive(Clone, Copy, Debug, PartialEq, Eq)]
pub struct FeedCounts {
    /// How many records were read, at most 2^40.
    pub records: u64,
    /// How many records were refused. Each of the other records gave a change, which was sent.
    pub refused: u64,
}

impl FeedCounts {
    /// The counts of a feed that was not read yet.
    pub fn new() -> Self
        ensures { result ≡ no_counts }
    {
        FeedCounts {
            records: 0,
            refused: 0,
        }
    }
}
