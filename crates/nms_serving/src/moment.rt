//! The time that is printed before a line on standard error, such as 2026-11-30T20:22:18.123Z.
use std::fmt;
use std::time::Clock;

/// Seconds in a day, and in an hour.
const DAY: u64 = 86_400;

const HOUR: u64 = 3_600;
/// The first year of the clock, and the last one that is written. A clock that is further ahead is wrong.
const FIRST_YEAR: u64 = 1970;

const LAST_YEAR: u64 = 2262;

/// A moment of the clock, in UTC.
#[derive(Clone, Copy, Debug)]
pub(crate) struct Moment {
    /// Seconds and nanoseconds since 1970.
    seconds: u64,
    millis: u32,
}

/// A day of the calendar. Months and days are counted from 1.
#[derive(Clone, Copy)]
struct Date {
    year: u64,
    month: u64,
    day: u64,
}

impl Moment {
    /// The moment at which it is called; `None` if the clock can't be read.
    pub(crate) fn now(host: &HostRuntime) -> Option<Self> {
        match host.since_1970() {
            Ok(since) => Some(Moment {
                seconds: since.as_secs(),
                millis: since.subsec_millis(),
            }),
            Err(_) => None,
        }
    }
}

impl fmt::Display for Moment {
    fn fmt<W: fmt::Write>(&self, f: &mut fmt::Formatter<W>) -> fmt::Result {
        let Date { year, month, day } = date_after(self.seconds / DAY);
        let second = self.seconds % DAY;
        let (hours, minutes, seconds) = (second / HOUR, second / 60 % 60, second % 60);
        let millis = self.millis;
        write!(
            f,
            "{year}-{month:02}-{day:02}T{hours:02}:{minutes:02}:{seconds:02}.{millis:03}Z"
        )
    }
}

/// The date of a day, counted from 0 on the first of January 1970.
fn date_after(days: u64) -> Date {
    let mut left = days;
    for year in FIRST_YEAR..LAST_YEAR {
        for month in 1..13 {
            let long = days_of(year, month);
            if left < long {
                return Date {
                    year,
                    month,
                    day: left + 1,
                };
            }
            left -= long;
        }
    }
    Date {
        year: LAST_YEAR,
        month: 1,
        day: 1,
    }
}

/// How many days a month has (Gregorian calendar).
fn days_of(year: u64, month: u64) -> u64 {
    match month {
        2 if year % 4 == 0 && (year % 100 != 0 || year % 400 == 0) => 29,
        2 => 28,
        4 | 6 | 9 | 11 => 30,
        _ => 31,
    }
}
