//! How a run reports what happens, and how the process learns that it may end.
use crate::REFUSED_STATUS;
use crate::moment::Moment;
use crate::report::Dropped;
use crate::signals::Signals;
use crate::text::Text;
use crossbeam_queue::ArrayQueue;
use std::alloc::{AllocError, Global};
use std::io::Write;
use std::sync::atomic::{AtomicBool, AtomicU64, Ordering};
use std::sync::{OnceLock, Wait};
use std::thread;
use std::thread::Parker;
use std::time::Duration;

/// How many reports may wait to be printed; further ones are dropped and counted. This product's own rule.
const MOST_WAITING: usize = 64;
/// Room, after the waiting reports, for lines that are never dropped: that the run serves, the ends of 8 feeds and 255 clients,
/// and of the tape. There is also room for reports that several threads make at once.
const MOST_KEPT: usize = 384;
/// How often the process looks whether all is printed and all threads have ended, and how many milliseconds pass between two
/// looks. Together they are a second. This product's own rule.
const LOOKS: u32 = 200;

const REST: u64 = 5;
/// How many milliseconds pass between two looks for a signal. This product's own rule.
const SIGNAL_REST: u64 = 200;

/// The lines that a run prints on standard error, and its exit status. Only one thread prints, so no other waits for standard
/// error. Another thread waits for the status, and ends the process at most a second later, even if a thread has not ended by
/// then.
#[derive(Drop)]
pub struct Teller {
    /// The clock, if each line begins with its time.
    clock: Option<HostRuntime>,
    waiting: ArrayQueue<Text>,
    /// The line of the fault that ends the run. It is set without waiting, by any thread.
    fault: OnceLock<Text>,
    /// How many lines were to be printed, and how many were printed.
    told: AtomicU64,
    printed: AtomicU64,
    /// How many reports were dropped since the last one that was printed.
    dropped: AtomicU64,
    /// Wakes the thread that prints.
    bell: Parker,
    status: OnceLock<u8>,
    /// Whether all threads of the run have ended.
    is_over: AtomicBool,
    /// Wakes the thread that waits for the status.
    end_bell: Parker,
    /// Whether the run was asked to end.
    is_asked: AtomicBool,
    /// Whether a record of a feed was refused.
    has_refused: AtomicBool,
    /// Wakes the thread that takes the feeds' changes.
    taker_bell: Parker,
}

impl Teller {
    /// A teller with nothing to print, and no status. Each line begins with its time, if there is a clock.
    pub fn new(alloc: Global, clock: Option<HostRuntime>) -> Result<Self, AllocError> {
        Ok(Teller {
            clock,
            waiting: ArrayQueue::new(alloc, MOST_WAITING + MOST_KEPT)?,
            fault: OnceLock::new(),
            told: AtomicU64::new(0),
            printed: AtomicU64::new(0),
            dropped: AtomicU64::new(0),
            bell: Parker::new(),
            status: OnceLock::new(),
            is_over: AtomicBool::new(false),
            end_bell: Parker::new(),
            is_asked: AtomicBool::new(false),
            has_refused: AtomicBool::new(false),
            taker_bell: Parker::new(),
        })
    }

    /// The time that a line begins with, if any.
    fn now(&self) -> Option<Moment> {
        match &self.clock {
            Some(clock) => Moment::now(clock),
            None => None,
        }
    }

    /// Prints a report soon. If the most reports wait already, it is dropped and counted.
    pub(crate) fn tell<R: Wait>(&self, rt: &R, report: Text) {
        if self.waiting.len(rt) < MOST_WAITING {
            self.keep(rt, report);
        } else {
            self.dropped.fetch_add(1, Ordering::SeqCst);
        }
    }

    /// Prints a report soon, one of the few that are never dropped.
    pub fn keep<R: Wait>(&self, rt: &R, report: Text) {
        self.told.fetch_add(1, Ordering::SeqCst);
        if self.waiting.push(rt, report.told_at(self.now())).is_err() {
            self.dropped.fetch_add(1, Ordering::SeqCst);
            self.printed.fetch_add(1, Ordering::SeqCst);
        }
        self.bell.unpark();
    }

    /// Prints the line of the fault that ends the run, and gives the process its status. Only the first call counts.
    pub fn fail(&self, status: u8, line: Text) {
        self.told.fetch_add(1, Ordering::SeqCst);
        if self.fault.try_set(line.told_at(self.now())).is_err() {
            self.printed.fetch_add(1, Ordering::SeqCst);
        }
        self.bell.unpark();
        self.set_status(status);
    }

    /// Notes that all threads of the run have ended. The status is that of its fault, if there was one.
    pub fn end(&self, status: u8) {
        self.is_over.store(true, Ordering::SeqCst);
        self.set_status(status);
    }

    /// Notes that a record of a feed was refused.
    pub(crate) fn note_refused(&self) {
        if !self.has_refused.load(Ordering::SeqCst) {
            self.has_refused.store(true, Ordering::SeqCst);
        }
    }

    /// The exit status, if no fault has ended the run.
    fn good_status(&self) -> u8 {
        if self.has_refused.load(Ordering::SeqCst) {
            REFUSED_STATUS
        } else {
            0
        }
    }

    /// Asks the run to end.
    fn ask(&self) {
        self.is_asked.store(true, Ordering::SeqCst);
        self.wake_taker();
    }

    /// Whether the run was asked to end.
    pub(crate) fn is_asked(&self) -> bool {
        self.is_asked.load(Ordering::SeqCst)
    }

    /// Wakes the taker, because there is something for it to do.
    pub(crate) fn wake_taker(&self) {
        self.taker_bell.unpark();
    }

    /// The taker sleeps until it is woken, or returns at once if it was woken since the last sleep.
    pub(crate) fn let_taker_sleep<R: Wait>(&self, rt: &R) {
        self.taker_bell.park(rt);
    }

    /// Gives the process its status, unless it has one.
    fn set_status(&self, status: u8) {
        let _first = self.status.try_set(status);
        self.end_bell.unpark();
    }

    /// Prints the reports as they come, for as long as the process runs.
    pub fn print_all<R: Wait>(&self, rt: &R, host: &HostRuntime) {
        let mut errors = host.stderr();
        let mut is_fault_printed = false;
        for _ in rt.forever() {
            // The fault comes first: the process ends a second after it.
            if !is_fault_printed && let Some(line) = self.fault.get() {
                is_fault_printed = true;
                self.print(&mut errors, line);
                continue;
            }
            if let Some(report) = self.waiting.pop(rt) {
                self.print(&mut errors, &report);
                self.print_dropped(&mut errors);
                continue;
            }
            self.bell.park(rt);
        }
        unreachable!()
    }

    /// Prints a line.
    fn print<W: Write>(&self, errors: &mut W, line: &Text) {
        line.print(errors);
        self.printed.fetch_add(1, Ordering::SeqCst);
    }

    /// Prints how many reports were dropped, if any were.
    fn print_dropped<W: Write>(&self, errors: &mut W) {
        let dropped = self.dropped.swap(0, Ordering::SeqCst);
        if dropped > 0 {
            Text::of(Dropped(dropped)).told_at(self.now()).print(errors);
        }
    }

    /// Waits until the run has a status, and returns it. All lines were printed and all threads have ended by then, or a second
    /// has passed since. If the process blocks the signals that ask it to end, one of them makes this ask the run to end. Then
    /// too everything has ended, or a second has passed.
    pub fn wait_for_end<R: Wait>(&self, rt: &R, host: &HostRuntime) -> u8 {
        let signals = Signals::of_process(host);
        for _ in rt.forever() {
            if self.status.get().is_none() && signals.has_come(host) {
                self.ask();
            }
            if self.status.get().is_some() || self.is_asked() {
                self.give_grace(host);
                return self.status.get().copied().unwrap_or(self.good_status());
            }
            self.rest(rt, signals);
        }
        unreachable!()
    }

    /// Sleeps until the run has a status. If a signal can come, it sleeps only until the next look for one.
    fn rest<R: Wait>(&self, rt: &R, signals: Signals) {
        if signals.can_come() {
            self.end_bell
                .park_timeout(rt, Duration::from_millis(SIGNAL_REST));
        } else {
            self.end_bell.park(rt);
        }
    }

    /// Waits until all lines are printed and all threads have ended, for a second at most.
    fn give_grace(&self, host: &HostRuntime) {
        for _ in 0..LOOKS {
            if self.is_over.load(Ordering::SeqCst) && self.is_all_printed() {
                return;
            }
            thread::sleep(host, Duration::from_millis(REST));
        }
    }

    /// Whether all lines are printed. The count of printed lines is read first, because no line was printed before it was counted.
    fn is_all_printed(&self) -> bool {
        let printed = self.printed.load(Ordering::SeqCst);
        self.told.load(Ordering::SeqCst) == printed
    }
}
