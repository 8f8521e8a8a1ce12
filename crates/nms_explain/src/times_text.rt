//! Explaining the text of a file of times.
ghost use Rattle.std.specs.Prelude.{◌≡◌, ◌<◌, ◌+◌, ◌-◌, ◌≤◌, ◌^◌, ◌⊎◌, IfOk, length, true};
ghost use Rattle.nms_show.specs.Plain.{is_own_plain};
ghost use Rattle.nms_show.specs.Safe.{IsSafe};
ghost use Rattle.nms_show.specs.Written.{Writes};

use crate::refusal_code::RefusalCode;
use crate::tally::{tell_count, tell_counts};
use nms_codes::Code;
use nms_show::{Ending, Form, Item, Location, SafeText, ShowFault, WrongPart};
use nms_times::{Times, TimesFault, read_times};
use std::alloc::{AllocError, Global};
use std::io::Write;

/// How many of the times that are before the time above them are reported one by one. The others are only counted.
const MOST_TOLD: u64 = 100;
/// What a line of times is.
const A_TIME: &str =
    "15 digits of a time of day, HHMMSSnnnnnnnnn, and a line feed; a comma and 15 digits of a row between in every line or in none";

/// Reports why no version is found by a file of times. That is its first line that is no time (H1). If all lines are times, it
/// is each line whose time is before that of the line above it (H2), at most 100. It ends with `Refused` if a line is refused.
///
/// The answers are not flushed. What is written is safe to show on a terminal. At a fault it is a prefix of such a text.
#[tactic(auto, using(nms_show::proofs::Offered::no_part_added))]
pub fn explain_times<W: Write>(
    alloc: Global,
    file: &str,
    text: &[u8],
    form: Form,
    answers: &mut W,
) -> Result<Ending, ShowFault>
    ensures ending { IfOk result (λ ending. (ending ≡ Ending.Done) ⊎ (ending ≡ Ending.Refused)) }
    ensures safe { Writes IsSafe (W.contents answers.old) (W.contents answers.new) result }
{
    let mut out = SafeText::new(alloc, form);
    let ending = tell_times(file, text, &mut out)?;
    out.pass_on(answers)?;
    Ok(ending)
}

/// Reports the lines that are refused, and how many there are.
fn tell_times(file: &str, text: &[u8], out: &mut SafeText) -> Result<Ending, AllocError>
    ensures { IfOk result (λ ending. (ending ≡ Ending.Done) ⊎ (ending ≡ Ending.Refused)) }
{
    let (code, lines, refused) = match read_times(out.alloc(), text) {
        Ok(times) => (
            Code::H2,
            times.len() as u64,
            tell_falls(file, text, &times, out)?,
        ),
        Err(TimesFault::NotTime { line: number }) => {
            let line = line_at(text, number);
            tell_line(file, Code::H1, number, line, A_TIME, out)?;
            (Code::H1, lines_in(text), 1)
        }
        Err(
            TimesFault::NoMemory
            | TimesFault::TimesFall { .. }
            | TimesFault::OtherLength
            | TimesFault::NotSymbol { .. },
        ) => return Err(AllocError),
    };
    tell_counts(file, lines, refused, out)?;
    tell_count(file, RefusalCode::Record(code), refused, out)?;
    if refused > 0 {
        Ok(Ending::Refused)
    } else {
        Ok(Ending::Done)
    }
}

/// Reports the first 100 times that are before the time of the line above. Returns how many such times the text has.
fn tell_falls(
    file: &str,
    text: &[u8],
    times: &Times,
    out: &mut SafeText,
) -> Result<u64, AllocError> {
    let mut falls = 0;
    for before in 1..times.len() as u64 {
        if falls_after(times, before) {
            if falls < MOST_TOLD {
                tell_fall(file, text, before + 1, out)?;
            }
            falls += 1;
        }
    }
    Ok(falls)
}

/// Whether the time after a version is before the time of that version.
fn falls_after(times: &Times, version: u64) -> bool
    requires { version + 1 < 2 ^ 64 }
{
    match (times.time_of(version), times.time_of(version + 1)) {
        (Some(above), Some(time)) => time < above,
        (Some(_) | None, _) => false,
    }
}

/// Reports a time that is before the one above it.
fn tell_fall(file: &str, text: &[u8], number: u64, out: &mut SafeText) -> Result<(), AllocError> {
    let expected = "a time that is not before the one of the line above";
    tell_line(file, Code::H2, number, line_at(text, number), expected, out)
}

/// Writes the place of a line, the line with carets under it, what is expected there and what to do.
fn tell_line<'x>(
    file: &'x str,
    code: Code,
    number: u64,
    line: &'x [u8],
    expected: &'x str,
    out: &mut SafeText,
) -> Result<(), AllocError> {
    if out.is_json() {
        let members = [
            ("what", Item::Text("refusal")),
            ("file", Item::Bytes(file.as_bytes())),
            ("line", Item::Number(number)),
            ("column", Item::Number(1)),
            ("code", Item::Text(code.text())),
            ("text", Item::Bytes(line)),
            ("found", Item::Bytes(line)),
            ("expected", Item::Bytes(expected.as_bytes())),
            ("remedy", Item::Bytes(code.remedy().as_bytes())),
        ];
        return out.object(&members);
    }
    tell_place(file, code, number, line, out)?;
    out.found(("found `", "`; expected "), Item::Bytes(line), expected)?;
    out.advice(code.remedy())
}

/// Writes the place of a line, and the line with carets under it.
fn tell_place(
    file: &str,
    code: Code,
    number: u64,
    line: &[u8],
    out: &mut SafeText,
) -> Result<(), AllocError> {
    let at = Location {
        file,
        line: number,
        column: 1,
    };
    let wrong = WrongPart {
        text: line,
        start: 0,
        end: line.len(),
    };
    let items = [Item::Text(": "), Item::Bytes(code.sentence().as_bytes())];
    out.refused(at, code.text(), &items, wrong)
}

/// The line with a number, without its line feed. All lines before it have the length of the first.
fn line_at(text: &[u8], number: u64) -> &[u8] {
    let width = first_line(text).len() as u64 + 1;
    let start = match number.checked_sub(1) {
        Some(before) => width.checked_mul(before),
        None => None,
    };
    match start {
        Some(start) => first_line(text.get(start as usize..).unwrap_or(&[])),
        None => &[],
    }
}

/// The first line of a text, without its line feed.
fn first_line(text: &[u8]) -> &[u8] {
    text.split(|byte| *byte == b'\n').next().unwrap_or(&[])
}

/// How many lines a text has; an unfinished one counts.
fn lines_in(text: &[u8]) -> u64 {
    let ended = text.iter().filter(|byte| **byte == b'\n').count() as u64;
    match text.last() {
        None | Some(b'\n') => ended,
        Some(_) => ended + 1,
    }
}
