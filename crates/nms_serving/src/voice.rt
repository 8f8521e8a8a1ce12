//! The state of each feed, as the threads of a run know it.
use crossbeam_utils::CachePadded;
use nms_quote::{Feed, MOST_FEEDS};
use std::sync::atomic::{AtomicBool, AtomicU64, Ordering};

/// The state of one feed, as the threads of a run know it.
#[derive(Drop)]
pub(crate) struct Voice {
    /// Whether the feed has sent a change, or ended.
    has_begun: AtomicBool,
    /// Whether a record of the feed came since the last check.
    has_spoken: AtomicBool,
    /// Whether the feed has ended.
    has_ended: AtomicBool,
    /// How many changes were sent, and how many records were refused. Only the feed's thread counts.
    sent: AtomicU64,
    refused: AtomicU64,
    /// Whether the feed's path was opened.
    has_opened: AtomicBool,
    /// Whether the feed's path is being read, and how often it was found that all its writers had left.
    is_read: AtomicBool,
    ends: AtomicU64,
}

impl Voice {
    /// A feed without any record yet.
    pub(crate) fn new() -> Self {
        Voice {
            has_begun: AtomicBool::new(false),
            has_spoken: AtomicBool::new(false),
            has_ended: AtomicBool::new(false),
            sent: AtomicU64::new(0),
            refused: AtomicU64::new(0),
            has_opened: AtomicBool::new(false),
            is_read: AtomicBool::new(false),
            ends: AtomicU64::new(0),
        }
    }

    /// Notes that a change of the feed was sent, or that the feed ended. Returns whether it is the first time.
    pub(crate) fn begin(&self) -> bool {
        !self.has_begun.load(Ordering::SeqCst) && !self.has_begun.swap(true, Ordering::SeqCst)
    }

    /// Notes that a record of the feed came.
    pub(crate) fn speak(&self) {
        if !self.has_spoken.load(Ordering::SeqCst) {
            self.has_spoken.store(true, Ordering::SeqCst);
        }
    }

    /// Whether a record came since the last call.
    pub(crate) fn listen(&self) -> bool {
        self.has_spoken.swap(false, Ordering::SeqCst)
    }

    /// Notes that the feed has ended.
    pub(crate) fn end(&self) {
        self.has_ended.store(true, Ordering::SeqCst);
    }

    /// Whether the feed has ended.
    pub(crate) fn has_ended(&self) -> bool {
        self.has_ended.load(Ordering::SeqCst)
    }
}

impl Voice {
    /// Counts a change that was sent. Only one thread counts, so the count needs no atomic step.
    pub(crate) fn count_sent(&self) {
        count(&self.sent);
    }

    /// Counts a record that was refused.
    pub(crate) fn count_refused(&self) {
        count(&self.refused);
    }

    /// How many records were read so far, and how many of them were refused.
    pub(crate) fn counts(&self) -> (u64, u64) {
        let refused = self.refused.load(Ordering::Acquire);
        (
            self.sent.load(Ordering::Acquire).wrapping_add(refused),
            refused,
        )
    }

    /// How many changes were sent so far.
    pub(crate) fn sent(&self) -> u64 {
        self.sent.load(Ordering::Acquire)
    }

    /// Notes that the feed's path was opened.
    pub(crate) fn open(&self) {
        self.has_opened.store(true, Ordering::SeqCst);
    }

    /// Whether the feed's path was opened.
    pub(crate) fn has_opened(&self) -> bool {
        self.has_opened.load(Ordering::SeqCst)
    }

    /// Notes that the feed's path is read from now on.
    pub(crate) fn begin_to_read(&self) {
        self.is_read.store(true, Ordering::SeqCst);
    }

    /// Notes that the feed's writers have left.
    pub(crate) fn end_of_writers(&self) {
        self.ends.fetch_add(1, Ordering::SeqCst);
        self.is_read.store(false, Ordering::SeqCst);
    }

    /// How often the feed's writers had left so far, and whether the feed's path is read now.
    pub(crate) fn reading(&self) -> (u64, bool) {
        (
            self.ends.load(Ordering::SeqCst),
            self.is_read.load(Ordering::SeqCst),
        )
    }
}

/// Adds one to a count that only one thread changes.
fn count(so_far: &AtomicU64) {
    so_far.store(
        so_far.load(Ordering::Acquire).wrapping_add(1),
        Ordering::Release,
    );
}

/// The states of all feeds, as the threads of a run know them.
#[derive(Drop)]
pub(crate) struct Voices {
    /// The states by the feed's place. Each has its own cache lines, because each feed's thread writes to its own.
    each: [CachePadded<Voice>; MOST_FEEDS as usize],
}

impl Voices {
    /// Feeds without any record yet.
    pub(crate) fn new() -> Self {
        Voices {
            each: [
                CachePadded::new(Voice::new()),
                CachePadded::new(Voice::new()),
                CachePadded::new(Voice::new()),
                CachePadded::new(Voice::new()),
                CachePadded::new(Voice::new()),
                CachePadded::new(Voice::new()),
                CachePadded::new(Voice::new()),
                CachePadded::new(Voice::new()),
            ],
        }
    }

    /// The state of a feed.
    pub(crate) fn of(&self, feed: Feed) -> &Voice {
        &self.each[usize::from(feed.place())]
    }
}
