//! How far a file has been read, as the terminal shows it.
use crate::answers::ERASE;
use std::fmt;
use std::fmt::Write;
use std::time::{Clock, Duration};

/// How many milliseconds the work takes before progress is shown.
const FIRST: u64 = 1000;
/// How many milliseconds a line is shown before the next one.
const EACH: u64 = 250;

/// How far a file has been read: the bytes read and their total, and the ends of lines.
#[derive(Clone, Copy)]
pub(crate) struct Progress {
    total: u64,
    done: u64,
    lines: u64,
    began: Duration,
    shown: Duration,
    /// The time at which progress is shown next. It is absent if the clock cannot count so far.
    next: Option<Duration>,
}

impl Progress {
    /// The progress of a file of n bytes, none of which has been read.
    pub(crate) fn new(total: u64, began: Duration) -> Self {
        Progress {
            total,
            done: 0,
            lines: 0,
            began,
            shown: began,
            next: began.checked_add(Duration::from_millis(FIRST)),
        }
    }

    /// Counts the bytes read, and returns whether to show the progress now. It is not shown once a count passes 2^64 - 1.
    pub(crate) fn count<T: Clock>(&mut self, clock: &T, bytes: &[u8]) -> bool {
        let ends = bytes.iter().filter(|byte| **byte == b'\n').count();
        let done = self.done.checked_add(bytes.len() as u64);
        let lines = self.lines.checked_add(ends as u64);
        let (Some(done), Some(lines)) = (done, lines) else {
            return false;
        };
        self.done = done;
        self.lines = lines;
        self.is_due(clock)
    }

    /// Whether to show the progress now.
    fn is_due<T: Clock>(&mut self, clock: &T) -> bool {
        match (clock.monotonic(), self.next) {
            (Ok(now), Some(next)) if now >= next => {
                self.shown = now;
                self.next = now.checked_add(Duration::from_millis(EACH));
                true
            }
            (Ok(_) | Err(_), Some(_) | None) => false,
        }
    }

    /// Milliseconds from the start of the reading until the progress was last shown.
    fn passed(&self) -> u64 {
        match self.shown.checked_sub(self.began) {
            Some(passed) => u64::try_from(passed.as_millis()).unwrap_or(u64::MAX),
            None => 0,
        }
    }

    /// Seconds until all of the file is read, rounded up, if the reading goes on at the same speed.
    fn left(&self, passed: u64) -> u64 {
        match self.total.checked_sub(self.done) {
            Some(rest) => part_of(rest, passed, self.done).div_ceil(1000),
            None => 0,
        }
    }
}

impl fmt::Display for Progress {
    /// Writes the share of the file that was read, lines a second, and the time left. The share of a pipe is not known.
    fn fmt<W: fmt::Write>(&self, f: &mut fmt::Formatter<W>) -> fmt::Result {
        let passed = self.passed();
        let speed = part_of(self.lines, 1000, passed);
        f.write_str(ERASE)?;
        if self.total > 0 {
            write!(f, "{}% read, ", part_of(self.done, 100, self.total))?;
        }
        write!(f, "{speed} records a second")?;
        if self.total > 0 {
            write!(f, ", {} s left", self.left(passed))?;
        }
        Ok(())
    }
}

/// A product of two numbers, divided by a third. It is 0 if the third is 0, and at most 2^64 - 1.
fn part_of(number: u64, times: u64, whole: u64) -> u64 {
    let product = u128::from(number) * u128::from(times);
    let part = product.checked_div(u128::from(whole)).unwrap_or(0);
    u64::try_from(part).unwrap_or(u64::MAX)
}
