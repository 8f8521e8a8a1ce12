//! How many requests of a client were answered, as the threads of a run know it while it goes on.
use nms_answers::RequestCounts;
use std::sync::atomic::{AtomicBool, AtomicU64, Ordering};

/// How many requests were answered so far, and how many of them were refused. No proof relies on it.
#[derive(Drop)]
struct Count {
    requests: AtomicU64,
    refused: AtomicU64,
}

impl Count {
    /// A count of no requests.
    fn new() -> Self {
        Count {
            requests: AtomicU64::new(0),
            refused: AtomicU64::new(0),
        }
    }

    /// Counts one more request.
    fn add(&self, refused: bool) {
        self.requests.fetch_add(1, Ordering::SeqCst);
        self.refused.fetch_add(u64::from(refused), Ordering::SeqCst);
    }

    /// The counts so far.
    fn get(&self) -> RequestCounts {
        RequestCounts {
            requests: self.requests.load(Ordering::SeqCst),
            refused: self.refused.load(Ordering::SeqCst),
        }
    }

    /// Sets the counts to 0.
    fn clear(&self) {
        self.requests.store(0, Ordering::SeqCst);
        self.refused.store(0, Ordering::SeqCst);
    }
}

/// How many requests of a client were answered, by all its routers and by the present one.
#[derive(Drop)]
pub(crate) struct Tally {
    all: Count,
    router: Count,
    is_there: AtomicBool,
    has_ended: AtomicBool,
}

impl Tally {
    /// The counts of a client without any router yet.
    pub(crate) fn new() -> Self {
        Tally {
            all: Count::new(),
            router: Count::new(),
            is_there: AtomicBool::new(false),
            has_ended: AtomicBool::new(false),
        }
    }

    /// Notes that a router has come.
    pub(crate) fn begin(&self) {
        self.router.clear();
        self.is_there.store(true, Ordering::SeqCst);
    }

    /// Notes that the router has left.
    pub(crate) fn end(&self) {
        self.is_there.store(false, Ordering::SeqCst);
    }

    /// Whether a router is there.
    pub(crate) fn is_there(&self) -> bool {
        self.is_there.load(Ordering::SeqCst)
    }

    /// Notes that the client has ended: no further router comes.
    pub(crate) fn end_client(&self) {
        self.has_ended.store(true, Ordering::SeqCst);
    }

    /// Whether the client has ended.
    pub(crate) fn has_ended(&self) -> bool {
        self.has_ended.load(Ordering::SeqCst)
    }

    /// Counts a request that was answered.
    pub(crate) fn add(&self, refused: bool) {
        self.all.add(refused);
        self.router.add(refused);
    }

    /// The counts of all routers.
    pub(crate) fn of_all(&self) -> RequestCounts {
        self.all.get()
    }

    /// The counts of the last router.
    pub(crate) fn of_router(&self) -> RequestCounts {
        self.router.get()
    }
}
