//! What all threads of a run share.
ghost use Rattle.std.specs.Prelude.{◌≡◌};

use crate::named::Named;
use crate::progress::Progress;
use crate::serve_fault::ServeFault;
use crate::teller::Teller;
use crate::text::Text;
use crate::voice::Voices;
use crossbeam_utils::CachePadded;
use nms_fees::Setup;
use nms_quote::Feed;
use std::io;
use std::sync::atomic::{AtomicBool, AtomicU64, Ordering};
use std::sync::{OnceLock, Wait};
use std::thread::Parker;
use std::time::Duration;

/// How a run goes on.
#[derive(Clone, Copy, Debug, PartialEq, Eq)]
pub struct Ways {
    /// Whether a refused record of a feed ends the run.
    pub strict: bool,
    /// Whether a FIFO of a feed is read on after its writer left, and a client's FIFOs after its router left.
    pub keep: bool,
    /// Whether requests are held until each feed has sent a change or ended.
    pub wait: bool,
    /// After how many seconds without a record a feed is reported as silent, if at all.
    pub stale: Option<u32>,
}

/// The state that all threads of a run share: the setup, how many streams are left, the state of each feed, and the first
/// fault. No proof relies on it.
#[derive(Drop)]
pub struct Run<'a> {
    pub(crate) setup: &'a Setup,
    pub(crate) ways: Ways,
    /// The teller, which prints the run's lines.
    pub(crate) teller: &'a Teller,
    /// How many feeds and clients have begun and have not ended.
    left: AtomicU64,
    /// How many clients have begun and have not ended.
    clients: AtomicU64,
    /// How many feeds have begun, and have neither sent a change nor ended.
    unheard: AtomicU64,
    /// The state of each feed.
    pub(crate) voices: Voices,
    /// How far the board is.
    pub(crate) progress: CachePadded<Progress>,
    /// 0 while requests are held until each feed has sent a change or ended; 1 once requests are answered.
    gate: AtomicU64,
    fault: OnceLock<ServeFault>,
    is_failed: AtomicBool,
    is_done: AtomicBool,
    /// Wakes the thread that looks for silent feeds.
    end_bell: Parker,
}

impl<'a> Run<'a> {
    /// A run in which no stream has begun.
    pub fn new(setup: &'a Setup, ways: Ways, teller: &'a Teller) -> Self
        ensures { (result.setup.now ≡ setup.now) × (result.ways ≡ ways) }
    {
        Run {
            setup,
            ways,
            teller,
            left: AtomicU64::new(0),
            clients: AtomicU64::new(0),
            unheard: AtomicU64::new(0),
            voices: Voices::new(),
            progress: CachePadded::new(Progress::new()),
            gate: AtomicU64::new(u64::from(!ways.wait)),
            fault: OnceLock::new(),
            is_failed: AtomicBool::new(false),
            is_done: AtomicBool::new(false),
            end_bell: Parker::new(),
        }
    }

    /// The teller, which prints the run's lines.
    pub fn teller(&self) -> &'a Teller {
        self.teller
    }

    /// The first fault, if there was one.
    pub fn fault(&self) -> Option<ServeFault> {
        self.fault.get().copied()
    }

    /// Ends the run for a fault: every thread ends at its next look at a stream. The first fault is printed at once.
    pub(crate) fn fail(&self, fault: ServeFault) {
        self.end_for(fault, Text::of(fault));
    }

    /// Ends the run for a stream that could not be opened, read or written. If this is the first fault, it is printed with the
    /// stream's path and the reason.
    pub fn fail_at(&self, fault: ServeFault, named: Named<'_>, error: &io::Error) {
        self.end_for(fault, named.after(Text::of(fault)).and(error));
    }

    /// Ends the run because there is already something at a path. If this is the first fault, it is printed with the path.
    pub fn fail_at_path(&self, fault: ServeFault, path: &str) {
        self.end_for(fault, Text::of(fault).and_shown(path.as_bytes()));
    }

    /// Ends the run because a thread could not be started. If this is the first fault, it is printed with that reason.
    pub(crate) fn fail_to_start(&self) {
        let fault = ServeFault::NotBegun;
        self.end_for(fault, Text::of(fault).and("a thread could not be started"));
    }

    /// Ends the run for a fault. The given line is printed if the fault is the run's first. A stream that breaks off because
    /// the run was asked to end is no fault.
    fn end_for(&self, fault: ServeFault, line: Text) {
        if self.is_asked() && fault.is_of_other_end() {
            return;
        }
        if self.fault.try_set(fault).is_ok() {
            self.teller.fail(fault.status(), line);
        }
        self.is_failed.store(true, Ordering::SeqCst);
        self.open_gate();
        self.teller.wake_taker();
    }

    /// Whether a fault ends the run.
    pub(crate) fn is_failed(&self) -> bool {
        self.is_failed.load(Ordering::SeqCst)
    }

    /// Whether the run was asked to end. What was taken is still published.
    pub(crate) fn is_asked(&self) -> bool {
        self.teller.is_asked()
    }

    /// Whether the run ends, because of a fault or because it was asked to.
    pub(crate) fn is_stopped(&self) -> bool {
        self.is_failed() || self.is_asked()
    }

    /// Notes that a feed begins.
    pub(crate) fn begin_feed(&self) {
        self.left.fetch_add(1, Ordering::SeqCst);
        self.unheard.fetch_add(1, Ordering::SeqCst);
    }

    /// Notes that a client begins.
    pub(crate) fn begin_client(&self) {
        self.left.fetch_add(1, Ordering::SeqCst);
        self.clients.fetch_add(1, Ordering::SeqCst);
    }

    /// Notes that a change of a feed was sent.
    pub(crate) fn note_change(&self, feed: Feed) {
        let voice = self.voices.of(feed);
        voice.speak();
        voice.count_sent();
        self.note_begun(feed);
        self.teller.wake_taker();
    }

    /// Notes that a feed has sent a change, or ended.
    fn note_begun(&self, feed: Feed) {
        if self.voices.of(feed).begin() {
            self.unheard.fetch_sub(1, Ordering::SeqCst);
        }
    }

    /// Notes that a feed has ended.
    pub(crate) fn end_feed(&self, feed: Feed) {
        self.voices.of(feed).end();
        self.note_begun(feed);
        self.end_stream();
    }

    /// Notes that a client has ended.
    pub(crate) fn end_client(&self) {
        self.clients.fetch_sub(1, Ordering::SeqCst);
        self.end_stream();
    }

    /// Notes that a feed or a client has ended.
    pub(crate) fn end_stream(&self) {
        self.left.fetch_sub(1, Ordering::SeqCst);
        self.teller.wake_taker();
    }

    /// Whether all feeds and clients that began have ended.
    pub(crate) fn is_over(&self) -> bool {
        self.left.load(Ordering::SeqCst) == 0
    }

    /// Whether no feed's FIFO is read on after its writer left, because all clients have ended or the run ends.
    pub(crate) fn is_closing(&self) -> bool {
        self.is_stopped() || self.clients.load(Ordering::SeqCst) == 0
    }

    /// Whether each feed has sent a change or ended.
    pub(crate) fn have_feeds_begun(&self) -> bool {
        self.unheard.load(Ordering::SeqCst) == 0
    }

    /// Whether requests are held until each feed has sent a change or ended.
    pub(crate) fn is_gate_shut(&self) -> bool {
        self.gate.load(Ordering::SeqCst) == 0
    }

    /// Stops holding requests.
    pub(crate) fn open_gate(&self) {
        self.gate.store(1, Ordering::SeqCst);
        self.gate.wake_all();
    }

    /// Waits until requests are no longer held.
    pub(crate) fn pass_gate<R: Wait>(&self, rt: &R) {
        for _ in rt.forever() {
            if !self.is_gate_shut() {
                return;
            }
            self.gate.park(rt, 0);
        }
        unreachable!()
    }

    /// Notes that all feeds and clients have ended.
    pub(crate) fn finish(&self) {
        self.is_done.store(true, Ordering::SeqCst);
        self.end_bell.unpark();
    }

    /// Whether all feeds and clients have ended.
    pub(crate) fn is_done(&self) -> bool {
        self.is_done.load(Ordering::SeqCst)
    }

    /// Sleeps for a time, or until all feeds and clients have ended.
    pub(crate) fn rest<R: Wait>(&self, rt: &R, time: Duration) {
        self.end_bell.park_timeout(rt, time);
    }
}
