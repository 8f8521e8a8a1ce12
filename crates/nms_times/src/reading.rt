//! Reading a file of times: `specs/TimesText`.
ghost use Rattle.std.specs.Prelude.{◌≡◌, ◌+◌, ◌*◌, ◌<◌, ◌≤◌, ◌++◌, ◌∷◌, [], length, IfErr, IfOk, OnOk};
ghost use Rattle.std.specs.Char.{is_ascii_digit};
ghost use Rattle.std.specs.List.{list_all};
ghost use Rattle.nms_times.specs.Faults.{IsReadFault};
ghost use Rattle.nms_times.specs.TimesText.{HasTimes, is_end, line_at, row_of, time_in, width_of};

use crate::time_of_day::TimeOfDay;
use crate::times::Times;
use crate::times_fault::TimesFault;
use nms_units::parse_digits;
use std::alloc::{AllocError, Global};

/// The number of bytes in a line that has only a time and a line feed.
const SHORT: usize = 16;
/// The number of bytes in a line with a row of the vendor's file: a time, a comma, the row and a line feed.
const LONG: usize = 32;
/// The number of digits in a time, HHMMSSnnnnnnnnn, which is also the number of digits in a row.
const TIME: usize = 15;

/// Reads a file of times, which has a line for each change: 15 digits HHMMSSnnnnnnnnn and a line feed. If lines name rows of the
/// vendor's file, a comma and the row's 15 digits follow the time. This takes 8 bytes of memory a line.
///
/// `NotTime` names the first line that is malformed. `NoMemory` may replace any answer.
pub fn read_times(alloc: Global, text: &[u8]) -> Result<Times, TimesFault>
    ensures read { IfOk result (λ times. HasTimes text.now times) }
    ensures refused { IfErr result (IsReadFault text.now) }
{
    let mut all = Vec::new(alloc);
    fill(text, &mut all)?;
    Ok(Times::of(all))
}

/// The number of the vendor's row that made a version's last change. It is `None` for version 0, for later versions than the
/// last, or without rows.
pub fn source_row(text: &[u8], version: u64) -> Option<u64>
    ensures { result ≡ row_of text.now version }
{
    if 0 < version && width_of(text) == LONG && version <= (text.len() / LONG) as u64 {
        let line = line_at(text, LONG, version as usize - 1);
        parse_digits(&line[16..31], TIME)
    } else {
        None
    }
}

/// Puts the times of a text into a list.
fn fill(text: &[u8], all: &mut Vec<TimeOfDay>) -> Result<(), TimesFault>
    requires { all.old.items ≡ [] }
    ensures read { IfOk result (λ _. HasTimes text.now all.new.items) }
    ensures refused { IfErr result (IsReadFault text.now) }
{
    let width = width_of(text);
    let lines = text.len() / width;
    all.reserve_exact(lines)?;
    for place in 0..lines {
        let Some(time) = time_in(width, line_at(text, width, place)) else {
            return Err(TimesFault::NotTime {
                line: place as u64 + 1,
            });
        };
        keep(all, time)?;
    }
    if lines * width < text.len() {
        return Err(TimesFault::NotTime {
            line: lines as u64 + 1,
        });
    }
    Ok(())
}

/// Puts a time at the end of a list.
fn keep(all: &mut Vec<TimeOfDay>, time: TimeOfDay) -> Result<(), AllocError>
    ensures { OnOk result (all.new.items ≡ all.old.items ++ time ∷ []) }
{
    all.push(time)?;
    Ok(())
}

/// The number of bytes in each line of a file of times, which its first line decides.
fn width_of(text: &[u8]) -> usize
    ensures width { result ≡ width_of text.now }
    ensures low { 16 ≤ result }
{
    if text.len() > TIME && text[TIME] == b',' {
        LONG
    } else {
        SHORT
    }
}

/// The line of a file of times at a place, counted from 0. Each line has the given number of bytes.
fn line_at(text: &[u8], width: usize, place: usize) -> &[u8]
    requires { place * width + width ≤ length text.now }
    ensures line { result.now ≡ line_at width text.now place }
    ensures whole { length result.now ≡ width }
{
    let from = place * width;
    &text[from..from + width]
}

/// The time of a line.
fn time_in(width: usize, line: &[u8]) -> Option<TimeOfDay>
    requires { 16 ≤ width }
    ensures { result ≡ time_in width line.now }
{
    if line.len() != width {
        return None;
    }
    let (time, rest) = line.split_at(TIME);
    if is_end(rest) {
        TimeOfDay::parse(time)
    } else {
        None
    }
}

/// Whether the given bytes may follow the time in a line: a line feed, or a comma, 15 digits and a line feed.
fn is_end(rest: &[u8]) -> bool
    ensures { result ≡ is_end rest.now }
{
    (rest.len() == 1 && rest[0] == b'\n')
        || (rest.len() == 17 && rest[0] == b',' && are_digits(&rest[1..16]) && rest[16] == b'\n')
}

/// Whether all bytes are digits.
fn are_digits(text: &[u8]) -> bool
    ensures { result ≡ list_all is_ascii_digit text.now }
{
    text.iter().all(|byte| byte.is_ascii_digit())
}
