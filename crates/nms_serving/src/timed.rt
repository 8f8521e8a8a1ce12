//! A tape's file with the times of its changes in a file next to it.
ghost use Rattle.std.specs.Prelude.{◌≡◌};
ghost use Rattle.nms_serving.specs.Streams.{tape_of_timed};

use crate::guarded::Guarded;
use arrayvec::ArrayVec;
use nms_times::TimeOfDay;
use std::fs::File;
use std::io;
use std::io::Write;
use std::time::{Clock, Duration};

/// Seconds in a day, and nanoseconds in a second.
const DAY: u64 = 86_400;

const SECOND: u64 = 1_000_000_000;
/// The bytes of a line: 15 digits and a line feed.
const LINE: usize = 16;
/// The bytes that are written at once: the lines of a batch.
const MOST: usize = 64 * LINE;

/// A tape's file, and the file of the times of its changes if there is one. Before a text goes to the tape, the time of each of
/// its lines is written to the file of times. So a tape never has more changes than times, however the process ends.
#[derive(Drop)]
pub struct Timed<'a, F> {
    tape: F,
    times: Option<Times<'a>>,
}

/// A file of times, each the time of day in one zone. The clock is read once for all lines of a text.
#[derive(Drop)]
pub struct Times<'a> {
    file: Guarded<'a, File>,
    host: &'a HostRuntime,
    /// By how many seconds the zone's clock is ahead of UTC, across midnight.
    zone: u64,
    /// The last time since 1970 that was written: a clock that was set back waits for it.
    last: Duration,
    /// How many bytes of the next text have their times already, because the tape took only a part of the text.
    ahead: usize,
}

impl<'a> Times<'a> {
    /// A file of times with nothing in it.
    pub fn new(file: Guarded<'a, File>, host: &'a HostRuntime, zone: u64) -> Self {
        Times {
            file,
            host,
            zone,
            last: Duration::ZERO,
            ahead: 0,
        }
    }

    /// Writes the time for each line of a text that has none yet.
    fn note(&mut self, text: &[u8]) -> io::Result<()> {
        let ahead = self.ahead;
        if text.len() <= ahead {
            return Ok(());
        }
        let line = self.line_now();
        let mut lines = ArrayVec::<u8, MOST>::new();
        for byte in &text[ahead..] {
            if *byte != b'\n' {
                continue;
            }
            if lines.len() == MOST {
                self.file.write_all(lines.as_slice())?;
                lines.clear();
            }
            lines.write_all(&line)?;
        }
        self.file.write_all(lines.as_slice())?;
        self.ahead = text.len();
        Ok(())
    }

    /// The line of the time now.
    fn line_now(&mut self) -> [u8; LINE] {
        if let Ok(now) = self.host.since_1970()
            && now > self.last
        {
            self.last = now;
        }
        let second = (self.last.as_secs() % DAY + self.zone % DAY) % DAY;
        let nanos = second * SECOND + u64::from(self.last.subsec_nanos());
        let mut line = [b'\n'; LINE];
        if let Some(midnight) = TimeOfDay::new(0) {
            line[..LINE - 1].copy_from_slice(&midnight.later_by(nanos).text());
        }
        line
    }

    /// Notes that the tape took some bytes of the text.
    fn pass(&mut self, count: usize) {
        self.ahead = self.ahead.checked_sub(count).unwrap_or(0);
    }
}

impl<'a, F> Timed<'a, F> {
    /// A wrapper for a tape's file.
    pub fn new(tape: F, times: Option<Times<'a>>) -> Self
        ensures { tape_of_timed result ≡ tape }
    {
        Timed { tape, times }
    }
}

impl<F: Write> Write for Timed<'_, F> {
    ghost use Rattle.nms_serving.specs.Streams.{tape_of_timed};

    ghost contents = { λ timed. F.contents (tape_of_timed timed) };

    fn write(&mut self, buf: &[u8]) -> io::Result<usize> {
        if let Some(times) = &mut self.times {
            times.note(buf)?;
        }
        let written = self.tape.write(buf);
        if let (Some(times), Ok(count)) = (&mut self.times, &written) {
            times.pass(*count);
        }
        written
    }

    fn flush(&mut self) -> io::Result<()> {
        self.tape.flush()
    }
}
