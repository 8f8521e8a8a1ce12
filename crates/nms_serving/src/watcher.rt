//! The watcher of a feed: it wakes the taker, and reports refused records.
use crate::feeding::FeedEnd;
use crate::report::{FeedNotice, refused_line};
use crate::run::Run;
use crate::text::Text;
use nms_feeds::FeedWatch;
use nms_lines::{ByteRecord, LineFault};
use nms_quote::Feed;
use std::sync::Wait;
use std::sync::atomic::{AtomicU64, Ordering};
use std::time::Clock;

/// The most reports about a feed's records and writers in a second. This product's own rule.
const MOST_REPORTS: u64 = 10;

/// Wakes the taker for each change of a feed that was sent, and notes that the feed sends. It reports refused records and
/// writers that left, at most 10 in a second of the clock. No proof relies on it.
#[derive(Drop)]
pub(crate) struct Watcher<'a, R> {
    rt: &'a R,
    host: &'a HostRuntime,
    run: &'a Run<'a>,
    /// The second of the last report, and how many there were in that second.
    second: AtomicU64,
    reports: AtomicU64,
    /// After how many records it was last reported that the writer had left; `u64::MAX` before the first report.
    left: AtomicU64,
}

impl<'a, R: Wait> Watcher<'a, R> {
    /// A watcher for a feed that has sent nothing yet.
    pub(crate) fn new(rt: &'a R, host: &'a HostRuntime, run: &'a Run<'a>) -> Self {
        Watcher {
            rt,
            host,
            run,
            second: AtomicU64::new(0),
            reports: AtomicU64::new(0),
            left: AtomicU64::new(u64::MAX),
        }
    }

    /// Notes that the feed has no writer now. That is reported, unless it was reported already and no record came since.
    pub(crate) fn note_left(&self, so_far: FeedEnd) {
        if self.left.load(Ordering::SeqCst) == so_far.counts.records || !self.may_report() {
            return;
        }
        self.left.store(so_far.counts.records, Ordering::SeqCst);
        self.run
            .teller
            .tell(self.rt, Text::of(FeedNotice::Left(so_far)));
    }

    /// Whether one more report may be made in this second.
    fn may_report(&self) -> bool {
        let Ok(now) = self.host.monotonic() else {
            return false;
        };
        if self.second.swap(now.as_secs(), Ordering::SeqCst) != now.as_secs() {
            self.reports.store(0, Ordering::SeqCst);
        }
        self.reports.fetch_add(1, Ordering::SeqCst) < MOST_REPORTS
    }
}

impl<R: Wait + Sync> FeedWatch for Watcher<'_, R> {
    fn sent(&self, feed: Feed) {
        self.run.note_change(feed);
    }

    fn refused(&self, feed: Feed, number: u64, fault: LineFault, record: &ByteRecord) {
        let voice = self.run.voices.of(feed);
        voice.speak();
        voice.count_refused();
        self.run.teller.note_refused();
        if self.may_report() {
            self.run
                .teller
                .tell(self.rt, refused_line(feed, number, fault, record));
        }
    }
}
