//! Reading and writing times of day: `specs/Times` and `specs/Imported`.
ghost use Rattle.std.specs.Prelude.{◌≡◌, ◌++◌, ◌∷◌, [], ◌<◌, ◌≤◌, ◌+◌, length, true, IfSome, OnOk, Some};
ghost use Rattle.nms_units.specs.Digits.{by_point, point_in};
ghost use Rattle.nms_units.specs.Price.{both};
ghost use Rattle.nms_import.specs.Forms.{zone_in};
ghost use Rattle.nms_import.specs.Mapping.{time_of};
ghost use Rattle.nms_import.specs.Times.{clock_at, clock_digits, clock_number, clock_of, colons_number, day_at, day_in, day_of, days_of, fraction, has_colons, has_date, has_sign, hours_at, in_new_york, instant_from, instant_number, is_behind, is_clock, is_from_end, is_between, is_part_of_day, is_past, is_summer, iso_zoned, local, midnight_number, number_within, over_midnight, since_march, zoned, microseconds, milliseconds, minutes_at, nanoseconds, new_york_zone, only_if, point_and_fraction, says_zone, seconds, second_at, seconds_and_fraction, seconds_at, seconds_number, to_utc, two_at, utc_number, whole_seconds, without_colon, zone_length};
ghost use Rattle.nms_import.specs.Imported.{fifteen_digits, line_of, numbered_line, time_line};

use crate::cause::Cause;
use crate::meanings::{Meanings, TimeForm, Zone};
use crate::right::zone_in;
use nms_units::parse_digits;
use std::alloc::AllocError;

/// The two digits of each number below 100.
static PAIRS: [u8; 200] =
    *b"00010203040506070809101112131415161718192021222324252627282930313233343536373839404142434445464748495051525354555657585960616263646566676869707172737475767778798081828384858687888990919293949596979899";

/// The time of day that a text of the file gives, as digits `HHMMSSnnnnnnnnn`.
pub(crate) fn time_in(meanings: &Meanings, text: &[u8]) -> Result<u64, Cause>
    ensures { result ≡ time_of meanings.now text.now }
{
    match clock_of(meanings.time_form, meanings.zone, text) {
        Some(time) => Ok(time),
        None => Err(Cause::BadTime),
    }
}

/// The time of day that a text of the given form gives, as digits `HHMMSSnnnnnnnnn`, after it is moved by a zone.
pub fn clock_of(form: TimeForm, zone: Zone, text: &[u8]) -> Option<u64>
    ensures { result ≡ clock_of form zone text.now }
{
    match form {
        TimeForm::Clock => clock_within(text),
        TimeForm::Seconds => local(zone, seconds_in(text)?),
        TimeForm::UnixNanoseconds => zoned(zone, parse_digits(text, 19)?),
        TimeForm::UnixMicroseconds => zoned(zone, microseconds(text)?),
        TimeForm::UnixMilliseconds => zoned(zone, milliseconds(text)?),
        TimeForm::Colons => local(zone, colons_in(text)?),
        TimeForm::Iso => iso_zoned(zone, text),
    }
}

/// The time of day of nanoseconds after a midnight. They are moved by a zone, if there is one.
fn local(zone: Zone, nanos: u64) -> Option<u64>
    ensures { result ≡ local zone nanos }
{
    match zone {
        Zone::Unsaid => Some(clock_at(0, nanos)),
        Zone::Moved(_) | Zone::NewYork => zoned(zone, nanos),
    }
}

/// The time of day of nanoseconds since 1970, moved by a zone. Without a zone there is none, because the clock of the market is
/// not known.
fn zoned(zone: Zone, nanos: u64) -> Option<u64>
    ensures { result ≡ zoned zone nanos }
{
    match zone {
        Zone::Unsaid => None,
        Zone::Moved(seconds) => Some(clock_at(seconds, nanos)),
        Zone::NewYork => in_new_york(nanos),
    }
}

/// The time of day of a date and a time, moved by a zone. Without a zone the time may not say how far it is from UTC.
fn iso_zoned(zone: Zone, text: &[u8]) -> Option<u64>
    ensures { result ≡ iso_zoned zone text.now }
{
    match zone {
        Zone::Unsaid => {
            if says_zone(text) {
                None
            } else {
                Some(clock_at(0, instant_in(text)?))
            }
        }
        Zone::Moved(seconds) => Some(clock_at(seconds, instant_in(text)?)),
        Zone::NewYork => in_new_york(instant_in(text)?),
    }
}

/// Whether a time after a date ends in a `Z` or an offset from UTC.
fn says_zone(text: &[u8]) -> bool
    ensures { result ≡ says_zone text.now }
{
    text.len() > 11 && zone_length(&text[11..]) != 0
}

/// New York's time of day at an instant of the years 2007 to 2099, in nanoseconds since 1970.
fn in_new_york(nanos: u64) -> Option<u64>
    ensures { result ≡ in_new_york nanos }
{
    let zone = new_york_zone(nanos / 1_000_000_000)?;
    Some(clock_at(zone, nanos))
}

/// The seconds by which New York's clock is moved on from UTC, across midnight, at a second since 1970 of the years 2007 to 2099.
fn new_york_zone(second: u64) -> Option<u32>
    ensures { result ≡ new_york_zone second }
{
    if second < 1_167_609_600 || 4_102_444_800 <= second {
        return None;
    }
    if is_summer(second) {
        Some(72_000)
    } else {
        Some(68_400)
    }
}

/// The day that a text of the given form says, in a zone. Days are counted from one that depends on the zone only, so that those
/// of one file can be compared. A form without a date says none, and in New York a time since 1970 says none before 2007 or after
/// 2099.
pub fn day_of(form: TimeForm, zone: Zone, text: &[u8]) -> Option<u64>
    ensures { result ≡ day_of form zone text.now }
{
    match form {
        TimeForm::Clock | TimeForm::Seconds | TimeForm::Colons => None,
        TimeForm::UnixNanoseconds => day_in(zone, parse_digits(text, 19)?),
        TimeForm::UnixMicroseconds => day_in(zone, microseconds(text)?),
        TimeForm::UnixMilliseconds => day_in(zone, milliseconds(text)?),
        TimeForm::Iso => day_in(zone, instant_in(text)?),
    }
}

/// The day of an instant in nanoseconds since 1970, in a zone.
fn day_in(zone: Zone, nanos: u64) -> Option<u64>
    ensures { result ≡ day_in zone nanos }
{
    match zone {
        Zone::Unsaid => Some(day_at(0, nanos)),
        Zone::Moved(seconds) => Some(day_at(seconds, nanos)),
        Zone::NewYork => {
            let zone = new_york_zone(nanos / 1_000_000_000)?;
            Some(day_at(zone, nanos))
        }
    }
}

/// The days up to an instant in nanoseconds since 1970, after it is moved on by the seconds of a zone.
fn day_at(zone: u32, nanos: u64) -> u64
    ensures { result ≡ day_at zone nanos }
{
    (nanos / 1_000_000_000 + u64::from(zone)) / 86_400
}

/// Whether New York has summer time at a second since 1970.
fn is_summer(second: u64) -> bool
    requires late { 1167609600 ≤ second }
    requires early { second < 4102444800 }
    ensures { result ≡ is_summer second }
{
    is_between(second - 25_200) && is_between(second - 21_600)
}

/// Whether a second since 1970 is on a day from the second Sunday in March on, and before the first in November.
fn is_between(second: u64) -> bool
    requires { second < 4102444800 }
    ensures { result ≡ is_between second }
{
    let day = second / 86_400 + 671;
    is_past(7, day) && !is_past(245, day)
}

/// Whether the last Sunday up to a day is at least the given number of days after the last 1 March. The day is counted from 1
/// March 1968.
fn is_past(days: u64, day: u64) -> bool
    requires few { days < 1000 }
    requires early { day < 1000000 }
    ensures { result ≡ is_past days day }
{
    days + (day + 5) % 7 <= since_march(day)
}

/// How many days a day is after the last 1 March. The day itself is counted from 1 March 1968.
fn since_march(day: u64) -> u64
    requires { day < 1000000 }
    ensures { result ≡ since_march day }
{
    day - (4 * day + 3) / 1461 * 1461 / 4
}

/// A date of the years 2007 to 2099 and a time of day, as nanoseconds since 1970.
fn instant_in(text: &[u8]) -> Option<u64>
    ensures { result ≡ instant_number text.now }
{
    if !has_date(text) {
        return None;
    }
    instant_from(midnight_in(text), &text[11..])
}

/// A midnight and a time of day after it, as nanoseconds since 1970.
fn instant_from(midnight: Option<u64>, text: &[u8]) -> Option<u64>
    requires late { IfSome midnight (λ n. 86400000000000 ≤ n) }
    requires high { IfSome midnight (λ n. n < 5000000000000000000) }
    ensures { result ≡ instant_from midnight text.now }
{
    let midnight = midnight?;
    let after = utc_in(text)?;
    Some(midnight + after - over_midnight(text))
}

/// The nanoseconds by which a time that was moved to UTC across midnight is too late. They are a day for an offset that is not
/// behind UTC, else 0.
fn over_midnight(text: &[u8]) -> u64
    ensures over { result ≡ over_midnight text.now }
    ensures day { result ≤ 86400000000000 }
{
    let zone = &text[text.len() - zone_length(text)..];
    if zone.len() <= 1 || is_behind(zone) {
        0
    } else {
        86_400_000_000_000
    }
}

/// Whether an offset is behind UTC.
fn is_behind(zone: &[u8]) -> bool
    requires { 0 < length zone.now }
    ensures { result ≡ is_behind zone.now }
{
    zone[0] == b'-' && is_part_of_day(to_utc(zone))
}

/// Whether a number of nanoseconds is given, and is less than a day.
fn is_part_of_day(nanos: Option<u64>) -> bool
    ensures { result ≡ is_part_of_day nanos }
{
    match nanos {
        Some(nanos) => nanos < 86_400_000_000_000,
        None => false,
    }
}

/// The midnight of UTC that begins a date of the years 2007 to 2099, as nanoseconds since 1970.
fn midnight_in(text: &[u8]) -> Option<u64>
    requires { 11 ≤ length text.now }
    ensures midnight { result ≡ midnight_number text.now }
    ensures late { IfSome result (λ n. 86400000000000 ≤ n) }
    ensures high { IfSome result (λ n. n < 5000000000000000000) }
{
    if text[4] != b'-' || text[7] != b'-' {
        return None;
    }
    let year = number_within(&text[..4], 4, 2007, 2099)?;
    let month = number_within(&text[5..7], 2, 1, 12)?;
    let day = number_within(&text[8..10], 2, 1, 31)?;
    Some((days_of(year, month, day) - 671) * 86_400_000_000_000)
}

/// The number that a text gives, if it has at most the given number of digits, and is from `least` to `most`.
fn number_within(text: &[u8], digits: usize, least: u64, most: u64) -> Option<u64>
    requires { digits < 10 }
    ensures number { result ≡ number_within digits least most text.now }
    ensures least { IfSome result (λ n. least ≤ n) }
    ensures most { IfSome result (λ n. n ≤ most) }
{
    let number = parse_digits(text, digits)?;
    if least <= number && number <= most {
        Some(number)
    } else {
        None
    }
}

/// The days from 1 March 1968 to a date.
fn days_of(year: u64, month: u64, day: u64) -> u64
    requires from { 2007 ≤ year }
    requires to { year ≤ 2099 }
    requires month { (1 ≤ month) × (month ≤ 12) }
    requires day { (1 ≤ day) × (day ≤ 31) }
    ensures days { result ≡ days_of year month day }
    ensures least { 1000 ≤ result }
    ensures most { result < 50000 }
{
    (year * 12 + month - 23_619) / 12 * 1461 / 4 + (153 * ((month + 9) % 12) + 2) / 5 + day - 1
}

/// The time of day of six digits and up to nine after them; `None` if they are no time of day.
fn clock_within(text: &[u8]) -> Option<u64>
    ensures { result ≡ only_if is_clock (clock_number text.now) }
{
    let time = clock_in(text)?;
    if is_clock(time) { Some(time) } else { None }
}

/// Six digits and up to nine after them, as one number of 15 digits.
fn clock_in(text: &[u8]) -> Option<u64>
    ensures { result ≡ clock_number text.now }
{
    if text.len() < 6 {
        return None;
    }
    let second = seconds(&text[..6])?;
    let after = nanoseconds(&text[6..])?;
    Some(second + after)
}

/// The six digits HHMMSS, as a number of 15 digits that has nine zeros after them.
fn seconds(text: &[u8]) -> Option<u64>
    ensures seconds { result ≡ seconds text.now }
    ensures high { IfSome result (λ n. n < 1000000000000000) }
{
    let number = parse_digits(text, 6)?;
    Some(number * 1_000_000_000)
}

/// The digits after the second, as nanoseconds.
fn nanoseconds(text: &[u8]) -> Option<u64>
    ensures nanoseconds { result ≡ nanoseconds text.now }
    ensures high { IfSome result (λ n. n < 1000000000000000000) }
{
    if text.is_empty() {
        return Some(0);
    }
    fraction(text)
}

/// One to nine digits, as nanoseconds.
fn fraction(text: &[u8]) -> Option<u64>
    ensures fraction { result ≡ fraction text.now }
    ensures high { IfSome result (λ n. n < 1000000000000000000) }
{
    let number = parse_digits(text, 9)?;
    Some(number * 10u64.pow(9 - text.len() as u32))
}

/// Whether the hours are below 24, and the minutes and the seconds below 60.
fn is_clock(time: u64) -> bool
    ensures { result ≡ is_clock time }
{
    time / 10_000_000_000_000 < 24
        && time / 100_000_000_000 % 100 < 60
        && time / 1_000_000_000 % 100 < 60
}

/// The time of day at nanoseconds after a midnight, after it is moved on by the seconds of a zone.
fn clock_at(zone: u32, nanos: u64) -> u64
    ensures { result ≡ clock_at zone nanos }
{
    let second = (nanos / 1_000_000_000 + u64::from(zone)) % 86_400;
    clock_digits(second) + nanos % 1_000_000_000
}

/// The digits HHMMSS of a second of the day, as a number of 15 digits that has nine zeros after them.
fn clock_digits(second: u64) -> u64
    requires { second < 86400 }
    ensures digits { result ≡ clock_digits second }
    ensures high { result < 240000000000000 }
{
    second / 3600 * 10_000_000_000_000
        + second / 60 % 60 * 100_000_000_000
        + second % 60 * 1_000_000_000
}

/// A text of up to 16 digits of microseconds, as nanoseconds.
fn microseconds(text: &[u8]) -> Option<u64>
    ensures { result ≡ microseconds text.now }
{
    let number = parse_digits(text, 16)?;
    Some(number * 1000)
}

/// A text of up to 13 digits of milliseconds, as nanoseconds.
fn milliseconds(text: &[u8]) -> Option<u64>
    ensures { result ≡ milliseconds text.now }
{
    let number = parse_digits(text, 13)?;
    Some(number * 1_000_000)
}

/// The seconds after midnight that a text gives, as nanoseconds; `None` for a day or more.
fn seconds_in(text: &[u8]) -> Option<u64>
    ensures { result ≡ seconds_number text.now }
{
    let nanos = any_seconds_in(text)?;
    if nanos < 86_400_000_000_000 {
        Some(nanos)
    } else {
        None
    }
}

/// The seconds of a text of up to five digits, and at most a point with up to nine digits, as nanoseconds.
fn any_seconds_in(text: &[u8]) -> Option<u64>
    ensures { result ≡ by_point seconds_and_fraction text.now (whole_seconds text.now) }
{
    match point_in(text) {
        None => whole_seconds(text),
        Some(point) => {
            let whole = whole_seconds(&text[..point])?;
            let behind = fraction(&text[point + 1..])?;
            Some(whole + behind)
        }
    }
}

/// The place of the first point in a text, counted from 0.
pub(crate) fn point_in(text: &[u8]) -> Option<usize>
    ensures place { result ≡ point_in text.now }
    ensures within { IfSome result (λ point. point < length text.now) }
{
    text.iter().position(|c| *c == b'.')
}

/// The seconds that a text of up to five digits gives, as nanoseconds.
fn whole_seconds(text: &[u8]) -> Option<u64>
    ensures seconds { result ≡ whole_seconds text.now }
    ensures high { IfSome result (λ n. n < 1000000000000000) }
{
    let number = parse_digits(text, 5)?;
    Some(number * 1_000_000_000)
}

/// A time of day that may have its zone after it, as nanoseconds after a midnight of UTC.
fn utc_in(text: &[u8]) -> Option<u64>
    ensures number { result ≡ utc_number text.now }
    ensures high { IfSome result (λ n. n < 1600000000000000000) }
{
    let end = text.len() - zone_length(text);
    let local = colons_in(&text[..end])?;
    shifted(local, to_utc(&text[end..]))
}

/// A text `HH:MM:SS`, and at most a point and one to nine digits, as nanoseconds.
fn colons_in(text: &[u8]) -> Option<u64>
    ensures number { result ≡ colons_number text.now }
    ensures high { IfSome result (λ n. n < 1500000000000000000) }
{
    if !has_colons(text) {
        return None;
    }
    let second = second_at(text)?;
    plus(second, point_and_fraction(&text[8..]))
}

/// How many bytes at the end of a text are its zone.
fn zone_length(text: &[u8]) -> usize
    ensures length { result ≡ zone_length text.now }
    ensures within { result ≤ length text.now }
{
    if is_from_end(text, 1, b'Z') {
        1
    } else if has_sign(text, 6) {
        6
    } else if has_sign(text, 5) {
        5
    } else {
        0
    }
}

/// Whether the last n bytes of a text begin with a plus or a minus.
fn has_sign(text: &[u8], bytes: usize) -> bool
    requires { 0 < bytes }
    ensures sign { result ≡ has_sign bytes text.now }
    ensures long { result ≡ true → bytes ≤ length text.now }
{
    is_from_end(text, bytes, b'+') || is_from_end(text, bytes, b'-')
}

/// Whether the last n bytes of a text begin with the given byte.
fn is_from_end(text: &[u8], bytes: usize, c: u8) -> bool
    requires { 0 < bytes }
    ensures byte { result ≡ is_from_end bytes c text.now }
    ensures long { result ≡ true → bytes ≤ length text.now }
{
    bytes <= text.len() && text[text.len() - bytes] == c
}

/// The nanoseconds that lead from a local time to UTC, across midnight. They are 0 for a `Z` and for no zone.
fn to_utc(zone: &[u8]) -> Option<u64>
    ensures shift { result ≡ to_utc zone.now }
    ensures high { IfSome result (λ n. n < 100000000000000) }
{
    if zone.len() <= 1 {
        return Some(0);
    }
    let seconds = offset_in(zone)?;
    Some((86_400 - u64::from(seconds)) * 1_000_000_000)
}

/// The seconds by which an offset moves a time on, across midnight.
fn offset_in(zone: &[u8]) -> Option<u32>
    ensures offset { result ≡ zone_in (without_colon zone.now) }
    ensures day { IfSome result (λ zone. zone < 86400) }
{
    if zone.len() == 6 && zone[3] == b':' {
        zone_in(&[zone[0], zone[1], zone[2], zone[4], zone[5]])
    } else {
        zone_in(zone)
    }
}

/// A time after it is moved on by a shift, both in nanoseconds; `None` if the shift is absent.
fn shifted(time: u64, shift: Option<u64>) -> Option<u64>
    requires small { time < 1500000000000000000 }
    requires few { IfSome shift (λ n. n < 100000000000000) }
    ensures sum { result ≡ both (Some time) shift }
    ensures high { IfSome result (λ n. n < 1600000000000000000) }
{
    match shift {
        Some(shift) => Some(time + shift),
        None => None,
    }
}

/// The hours, minutes and seconds of a text `HH:MM:SS`, as nanoseconds.
fn second_at(text: &[u8]) -> Option<u64>
    requires { 8 ≤ length text.now }
    ensures second { result ≡ second_at text.now }
    ensures high { IfSome result (λ n. n < 300000000000000) }
{
    let hours = hours_at(text)?;
    let minutes = minutes_at(text)?;
    let seconds = seconds_at(text)?;
    Some(hours + minutes + seconds)
}

/// The sum of two numbers; `None` if the second one is absent.
fn plus(number: u64, other: Option<u64>) -> Option<u64>
    requires small { number < 300000000000000 }
    requires few { IfSome other (λ n. n < 1000000000000000000) }
    ensures sum { result ≡ both (Some number) other }
    ensures high { IfSome result (λ n. n < 1500000000000000000) }
{
    match other {
        Some(other) => Some(number + other),
        None => None,
    }
}

/// Whether a text has at least eight bytes, and colons where `HH:MM:SS` has them.
fn has_colons(text: &[u8]) -> bool
    ensures colons { result ≡ has_colons text.now }
    ensures long { result ≡ true → 8 ≤ length text.now }
{
    text.len() >= 8 && text[2] == b':' && text[5] == b':'
}

/// Whether a text has at least eleven bytes, of which the eleventh is a `T` or a blank, as after a date.
fn has_date(text: &[u8]) -> bool
    ensures date { result ≡ has_date text.now }
    ensures long { result ≡ true → 11 ≤ length text.now }
{
    text.len() >= 11 && (text[10] == b'T' || text[10] == b' ')
}

/// The number that the two digits at a place of a text give.
fn two_at(text: &[u8], place: usize) -> Option<u64>
    requires { place + 2 ≤ length text.now }
    ensures two { result ≡ two_at place text.now }
    ensures high { IfSome result (λ n. n < 100) }
{
    parse_digits(&text[place..place + 2], 2)
}

/// The hours of a text `HH:MM:SS`, as nanoseconds; `None` if they are above 23.
fn hours_at(text: &[u8]) -> Option<u64>
    requires { 8 ≤ length text.now }
    ensures hours { result ≡ hours_at text.now }
    ensures high { IfSome result (λ n. n < 100000000000000) }
{
    let number = two_at(text, 0)?;
    if number < 24 {
        Some(number * 3_600_000_000_000)
    } else {
        None
    }
}

/// The minutes of a text `HH:MM:SS`, as nanoseconds; `None` if they are above 59.
fn minutes_at(text: &[u8]) -> Option<u64>
    requires { 8 ≤ length text.now }
    ensures minutes { result ≡ minutes_at text.now }
    ensures high { IfSome result (λ n. n < 100000000000000) }
{
    let number = two_at(text, 3)?;
    if number < 60 {
        Some(number * 60_000_000_000)
    } else {
        None
    }
}

/// The seconds of a text `HH:MM:SS`, as nanoseconds; `None` if they are above 59.
fn seconds_at(text: &[u8]) -> Option<u64>
    requires { 8 ≤ length text.now }
    ensures seconds { result ≡ seconds_at text.now }
    ensures high { IfSome result (λ n. n < 100000000000000) }
{
    let number = two_at(text, 6)?;
    if number < 60 {
        Some(number * 1_000_000_000)
    } else {
        None
    }
}

/// The nanoseconds of a point and one to nine digits after it. They are 0 for an empty text.
fn point_and_fraction(text: &[u8]) -> Option<u64>
    ensures fraction { result ≡ point_and_fraction text.now }
    ensures high { IfSome result (λ n. n < 1000000000000000000) }
{
    if text.is_empty() {
        return Some(0);
    }
    if text[0] == b'.' {
        fraction(&text[1..])
    } else {
        None
    }
}

/// Appends a line with a time of day, and with the number of its row if `numbers` is set. After an error a prefix of the line
/// may be there.
pub fn append_line(out: &mut Vec<u8>, numbers: bool, row: u64, time: u64) -> Result<(), AllocError>
    ensures { OnOk result (out.new.items ≡ out.old.items ++ line_of numbers row time) }
{
    if numbers {
        append_numbered(out, row, time)
    } else {
        append_time(out, time)
    }
}

/// Appends a time as 15 digits, a comma, the number of its row as 15 digits, and a line feed.
fn append_numbered(out: &mut Vec<u8>, row: u64, time: u64) -> Result<(), AllocError>
    ensures { OnOk result (out.new.items ≡ out.old.items ++ numbered_line row time) }
{
    append_clock(out, time)?;
    out.push(b',')?;
    append_time(out, row)
}

/// Appends a time, or a number, as 15 digits and a line feed.
fn append_time(out: &mut Vec<u8>, time: u64) -> Result<(), AllocError>
    ensures { OnOk result (out.new.items ≡ out.old.items ++ time_line time) }
{
    append_clock(out, time)?;
    out.push(b'\n')?;
    Ok(())
}

/// Appends a time, or the last 15 digits of a number, as 15 digits.
pub fn append_clock(out: &mut Vec<u8>, time: u64) -> Result<(), AllocError>
    ensures { OnOk result (out.new.items ≡ out.old.items ++ fifteen_digits time) }
{
    out.extend_from_slice(&clock_text(time))
}

/// A time, or the last 15 digits of a number, as 15 digits.
fn clock_text(time: u64) -> [u8; 15]
    ensures { result ≡ fifteen_digits time }
{
    let front = (time / 1_000_000_000 % 1_000_000) as u32;
    let back = (time % 1_000_000_000) as u32;
    let hours = (front / 10_000) as usize * 2;
    let minutes = (front / 100 % 100) as usize * 2;
    let seconds = (front % 100) as usize * 2;
    let first = (back / 10_000_000) as usize * 2;
    let second = (back / 100_000 % 100) as usize * 2;
    let third = (back / 1000 % 100) as usize * 2;
    let fourth = (back / 10 % 100) as usize * 2;
    [
        PAIRS[hours],
        PAIRS[hours + 1],
        PAIRS[minutes],
        PAIRS[minutes + 1],
        PAIRS[seconds],
        PAIRS[seconds + 1],
        PAIRS[first],
        PAIRS[first + 1],
        PAIRS[second],
        PAIRS[second + 1],
        PAIRS[third],
        PAIRS[third + 1],
        PAIRS[fourth],
        PAIRS[fourth + 1],
        b'0' + (back % 10) as u8,
    ]
}
