//! A time of day to the nanosecond: `specs/Clock`.
ghost use Rattle.std.specs.Prelude.{◌≡◌, ◌<◌, ◌≤◌, true, IfSome, length};
ghost use Rattle.std.specs.Option.{SomeIff};
ghost use Rattle.nms_units.specs.Price.{digit_at};
ghost use Rattle.nms_times.specs.Clock.{clock_at, clock_number, earlier_by, is_clock, later_by, nanoseconds, seconds, since_midnight, time_reading, time_text};

use nms_units::parse_digits;
use std::marker::Model;

/// A time of day from 00:00:00 to 23:59:59.999999999. It is the number whose 15 digits are HHMMSSnnnnnnnnn: 93000000000001 is a
/// nanosecond after 09:30:00. A later time has a greater number. There is no leap second and no zone.
#[derive(Clone, Copy, Debug, PartialEq, Eq, PartialOrd, Ord)]
pub struct TimeOfDay {
    digits: u64,
}

impl Model for TimeOfDay {
    ghost use Rattle.std.specs.Prelude.{ℕ, ◌≡◌, true};

    ghost Value = { ℕ };

    ghost use Rattle.nms_times.specs.Clock.{is_clock};

    ghost view = { λ t. t.digits };

    ghost invariant = { λ t. is_clock t.digits ≡ true };

    ghost inverse = { λ n. record { digits = n } };
}

impl TimeOfDay {
    /// The time of day of a number HHMMSSnnnnnnnnn. It is `None` if the hours, minutes or seconds are out of range.
    pub fn new(digits: u64) -> Option<Self>
        ensures { SomeIff result (is_clock digits ≡ true) digits }
    {
        if is_clock(digits) {
            Some(TimeOfDay { digits })
        } else {
            None
        }
    }

    /// The number whose 15 digits are HHMMSSnnnnnnnnn.
    pub fn get(self) -> u64
        ensures number { result ≡ self }
        ensures clock { is_clock result ≡ true }
    {
        self.digits
    }

    /// Reads a time of day: six digits HHMMSS, and up to nine digits of a fraction of a second. Any other text gives `None`.
    pub fn parse(text: &[u8]) -> Option<Self>
        ensures { result ≡ time_reading text.now }
    {
        match clock_in(text) {
            Some(digits) if is_clock(digits) => Some(TimeOfDay { digits }),
            Some(_) | None => None,
        }
    }

    /// The number of nanoseconds from midnight to this time.
    pub fn since_midnight(self) -> u64
        ensures nanoseconds { result ≡ since_midnight self }
        ensures high { result < 86400000000000 }
    {
        let time = self.get();
        let (hours, minutes) = (time / 10_000_000_000_000, time / 100_000_000_000 % 100);
        let (seconds, nanos) = (time / 1_000_000_000 % 100, time % 1_000_000_000);
        hours * 3_600_000_000_000 + minutes * 60_000_000_000 + seconds * 1_000_000_000 + nanos
    }

    /// The time n nanoseconds before this time, on the same day: midnight at the earliest.
    pub fn earlier_by(self, nanoseconds: u64) -> Self
        ensures { result ≡ earlier_by nanoseconds self }
    {
        let since = self.since_midnight();
        if nanoseconds < since {
            clock_at(since - nanoseconds)
        } else {
            clock_at(0)
        }
    }

    /// The time n nanoseconds after this time, on the same day: the day's last nanosecond at the latest.
    pub fn later_by(self, nanoseconds: u64) -> Self
        ensures { result ≡ later_by nanoseconds self }
    {
        let since = self.since_midnight();
        if nanoseconds < DAY - since {
            clock_at(since + nanoseconds)
        } else {
            clock_at(DAY - 1)
        }
    }

    /// The 15 digits of the time, HHMMSSnnnnnnnnn.
    pub fn text(self) -> [u8; 15]
        ensures { result ≡ time_text self }
    {
        let time = self.digits;
        let (hours, seconds) = (time / 1_000_000_000_000, time / 1_000_000_000);
        let (millis, micros) = (time / 1_000_000, time / 1000);
        [
            digit(hours, 100),
            digit(hours, 10),
            digit(hours, 1),
            digit(seconds, 100),
            digit(seconds, 10),
            digit(seconds, 1),
            digit(millis, 100),
            digit(millis, 10),
            digit(millis, 1),
            digit(micros, 100),
            digit(micros, 10),
            digit(micros, 1),
            digit(time, 100),
            digit(time, 10),
            digit(time, 1),
        ]
    }
}

/// Nanoseconds in a day.
const DAY: u64 = 86_400_000_000_000;

/// The time n nanoseconds after midnight.
fn clock_at(nanoseconds: u64) -> TimeOfDay
    requires { nanoseconds < 86400000000000 }
    ensures { result ≡ clock_at nanoseconds }
{
    let hours = nanoseconds / 3_600_000_000_000;
    let minutes = nanoseconds / 60_000_000_000 % 60;
    let seconds = nanoseconds / 1_000_000_000 % 60;
    let nanos = nanoseconds % 1_000_000_000;
    TimeOfDay {
        digits: hours * 10_000_000_000_000
            + minutes * 100_000_000_000
            + seconds * 1_000_000_000
            + nanos,
    }
}

/// The number HHMMSSnnnnnnnnn of a text with six digits, and up to nine digits of a fraction of a second.
fn clock_in(text: &[u8]) -> Option<u64>
    ensures { result ≡ clock_number text.now }
{
    if text.len() < 6 {
        return None;
    }
    let second = seconds(&text[..6])?;
    let after = nanoseconds(&text[6..])?;
    Some(second + after)
}

/// The number HHMMSS000000000 of a text with the six digits HHMMSS.
fn seconds(text: &[u8]) -> Option<u64>
    ensures seconds { result ≡ seconds text.now }
    ensures high { IfSome result (λ n. n < 1000000000000000) }
{
    let number = parse_digits(text, 6)?;
    Some(number * 1_000_000_000)
}

/// The nanoseconds that up to nine digits of a fraction of a second give. A missing digit counts as 0.
fn nanoseconds(text: &[u8]) -> Option<u64>
    ensures nanoseconds { result ≡ nanoseconds text.now }
    ensures high { IfSome result (λ n. n < 1000000000000000000) }
{
    if text.is_empty() {
        return Some(0);
    }
    let number = parse_digits(text, 9)?;
    Some(number * 10u64.pow(9 - text.len() as u32))
}

/// Whether a number HHMMSSnnnnnnnnn is a time: hours below 24, minutes and seconds below 60.
fn is_clock(time: u64) -> bool
    ensures { result ≡ is_clock time }
{
    time / 10_000_000_000_000 < 24
        && time / 100_000_000_000 % 100 < 60
        && time / 1_000_000_000 % 100 < 60
}

/// The character for one decimal digit of a number: 10 as the unit gives the digit of the tens.
fn digit(number: u64, unit: u64) -> u8
    requires { 0 < unit }
    ensures { result ≡ digit_at unit number }
{
    b'0' + (number / unit % 10) as u8
}
