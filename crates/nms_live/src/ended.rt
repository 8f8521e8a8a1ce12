//! Which feeds' workers have ended. By its flags the taker knows when to stop looking; no proof relies on them.
use nms_quote::{Feed, MOST_FEEDS};
use std::sync::atomic::{AtomicBool, Ordering};

/// Which feeds' workers have ended: a flag for each feed, in order of place.
#[derive(Drop)]
pub struct Ended {
    flags: [AtomicBool; MOST_FEEDS as usize],
}

impl Ended {
    /// The flags of a run in which no feed's worker has ended.
    pub(crate) fn none() -> Self {
        Ended {
            flags: [
                AtomicBool::new(false),
                AtomicBool::new(false),
                AtomicBool::new(false),
                AtomicBool::new(false),
                AtomicBool::new(false),
                AtomicBool::new(false),
                AtomicBool::new(false),
                AtomicBool::new(false),
            ],
        }
    }

    /// Notes that the worker of this feed has ended, or that none was started.
    pub(crate) fn add(&self, feed: Feed) {
        self.flags[usize::from(feed.place())].store(true, Ordering::SeqCst);
    }

    /// Whether the workers of the first n feeds have ended.
    pub(crate) fn have_first(&self, count: usize) -> bool {
        self.flags
            .iter()
            .take(count)
            .all(|flag| flag.load(Ordering::SeqCst))
    }
}
