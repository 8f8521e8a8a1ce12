//! The subcommand `when`: finds versions by their times, and the time of a version.
ghost use Rattle.std.specs.Prelude.{◌<◌, ◌≤◌, IfOk};

use crate::call::{Call, Host};
use crate::fault::{About, Fault};
use crate::request::{Version, Versions, Wanted, When, Within};
use nms_codes::Code;
use nms_show::{Ending, Item, write_line, write_object};
use nms_times::{Rising, Span, Times, find_span, source_row};
use std::io::Write;

/// Finds versions by time, or the time of a version.
pub(crate) fn serve_when<T: Host, W: Write>(
    call: &Call<'_, T>,
    when: &When<'_>,
    answers: &mut W,
) -> Result<Ending, Fault> {
    let text = call.read(when.times)?;
    let times = call.times_in(&text, when.times.about)?;
    match &when.wanted {
        Wanted::Time(version) => write_time(call, &text, &times, *version, answers),
        Wanted::Versions(versions) => {
            let rising = rising_of(call, versions.within, &times, when.times.about)?;
            write_versions(call, versions, rising, answers)
        }
    }
}

/// The number of a version. A version that is given by a time is found among the given times, or among a symbol's changes only.
pub(crate) fn number_of<T: Host>(
    call: &Call<'_, T>,
    version: &Version,
    within: Option<Within<'_>>,
    times: Option<&Times>,
) -> Result<u64, Fault> {
    match version {
        Version::Number(number) => Ok(*number),
        Version::At { time, about } => {
            let Some(times) = times else {
                return Err(Fault::usage(*about, "a time in place of a version needs --times"));
            };
            let rising = rising_of(call, within, times, About::Value("times"))?;
            Ok(rising.version_at(*time))
        }
    }
}

/// The times among which versions are found: all of them, or those of a symbol.
fn rising_of<'a, T: Host>(
    call: &Call<'_, T>,
    within: Option<Within<'_>>,
    times: &'a Times,
    about: About,
) -> Result<Rising<'a>, Fault> {
    let found = match within {
        None => times.rising(),
        Some(within) => {
            let span = span_of(call, within, times.len())?;
            times.rising_between(span.before, span.last)
        }
    };
    found.map_err(|fault| Fault::of_times(fault, about))
}

/// The versions of one symbol, as the file of symbols lists them. The given number of versions is the length of the tape.
pub(crate) fn span_of<T: Host>(
    call: &Call<'_, T>,
    within: Within<'_>,
    versions: usize,
) -> Result<Span, Fault>
    ensures { IfOk result (λ span. (span.before < span.last) × (span.last ≤ versions)) }
{
    let text = call.read(within.symbols)?;
    match find_span(&text, within.symbol.name.as_bytes(), versions) {
        Ok(Some(span)) => Ok(span),
        Ok(None) => Err(Fault::usage(
            within.symbol.about,
            "the file of symbols has no line of it; capitals count",
        )),
        Err(fault) => Err(Fault::of_times(fault, within.symbols.about)),
    }
}

/// Writes the last version at or before each time.
fn write_versions<T: Host, W: Write>(
    call: &Call<'_, T>,
    versions: &Versions<'_>,
    rising: Rising<'_>,
    answers: &mut W,
) -> Result<Ending, Fault> {
    let form = call.form();
    for time in &versions.times {
        let version = if versions.before {
            rising.version_before(*time)
        } else {
            rising.version_at(*time)
        };
        let number = Item::Number(version);
        if form.is_json() {
            let text = time.text();
            let members = [
                ("what", Item::Text("version")),
                ("time", Item::Bytes(text.as_slice())),
                ("before", Item::Flag(versions.before)),
                ("version", number),
            ];
            write_object(call.alloc(), answers, &members)?;
        } else {
            write_line(answers, form, &[number])?;
        }
    }
    Ok(Ending::Done)
}

/// Writes the time of a version, and the number of the vendor's row if the file of times has such numbers.
fn write_time<T: Host, W: Write>(
    call: &Call<'_, T>,
    text: &[u8],
    times: &Times,
    version: u64,
    answers: &mut W,
) -> Result<Ending, Fault> {
    if version > times.len() as u64 {
        return Err(Fault::of(Code::A1, About::Value("version")));
    }
    let form = call.form();
    let digits = times.time_of(version).map(|time| time.text());
    let time = match &digits {
        Some(digits) => Item::Bytes(digits.as_slice()),
        None => Item::Absent,
    };
    let row = source_row(text, version);
    let number = match row {
        Some(row) => Item::Number(row),
        None => Item::Absent,
    };
    if form.is_json() {
        let members = [
            ("what", Item::Text("time")),
            ("version", Item::Number(version)),
            ("time", time),
            ("row", number),
        ];
        write_object(call.alloc(), answers, &members)?;
    } else {
        let comma = if row.is_some() { "," } else { "" };
        write_line(answers, form, &[time, Item::Text(comma), number])?;
    }
    Ok(Ending::Done)
}
