//! The part of a day that a shard has of a symbol: `specs/Stretch`.
ghost use Rattle.std.specs.Prelude.{◌≡◌};
ghost use Rattle.nms_trades.specs.Stretch.{has_begun, has_ended, is_own, is_past, whole_day};

use nms_times::{TimeOfDay, TimesFault};

/// The part of a day that a shard has of a symbol that is cut by time.
#[derive(Clone, Copy)]
pub(crate) struct Stretch {
    /// The time of the first change after the cut at which the shard begins; `None` if it has the symbol from its first change on.
    pub(crate) from: Option<TimeOfDay>,
    /// The time of the first change after the cut at which the shard ends; `None` if it has the symbol to its last change.
    pub(crate) until: Option<TimeOfDay>,
}

impl Stretch {
    /// The whole day, for a symbol that is not cut.
    pub(crate) fn whole() -> Stretch
        ensures { result ≡ whole_day }
    {
        Stretch {
            from: None,
            until: None,
        }
    }

    /// Whether the shard judges an execution at a time. If `before` is set, the changes of the time itself are not in force.
    pub(crate) fn is_own(self, before: bool, time: TimeOfDay) -> bool
        ensures { result ≡ is_own before self time }
    {
        has_begun(before, self.from, time) && !has_ended(before, self.until, time)
    }
}

/// Whether a time is past the cut at which a shard begins.
fn has_begun(before: bool, cut: Option<TimeOfDay>, time: TimeOfDay) -> bool
    ensures { result ≡ has_begun before cut time }
{
    match cut {
        Some(cut) => is_past(before, cut, time),
        None => true,
    }
}

/// Whether a time is past the cut at which a shard ends.
fn has_ended(before: bool, cut: Option<TimeOfDay>, time: TimeOfDay) -> bool
    ensures { result ≡ has_ended before cut time }
{
    match cut {
        Some(cut) => is_past(before, cut, time),
        None => false,
    }
}

/// Whether the first change after a cut is in force at a time.
fn is_past(before: bool, cut: TimeOfDay, time: TimeOfDay) -> bool
    ensures { result ≡ is_past before cut time }
{
    if before {
        cut.get() < time.get()
    } else {
        cut.get() <= time.get()
    }
}

/// Reads the cuts of a symbol in the text of symbols into its stretch. A shard that is cut has one more line for each of its
/// cuts. In it ` from ` or ` until ` and the time of the cut follow the symbol's name. The last of several lines counts.
///
/// The fault `NotSymbol` names the first such line that has no time there.
pub(crate) fn read_stretch(
    stretch: &mut Stretch,
    text: &[u8],
    symbol: &[u8],
) -> Result<(), TimesFault> {
    let mut lines = text.split(|byte| *byte == b'\n');
    for line in 1..u64::MAX {
        let Some(own) = lines.next() else {
            return Ok(());
        };
        if let Some(rest) = own.strip_prefix(symbol) {
            read_cut(stretch, rest, line)?;
        }
    }
    Ok(())
}

/// Reads the cut that a line of a symbol has after the name, if it has one.
fn read_cut(stretch: &mut Stretch, rest: &[u8], line: u64) -> Result<(), TimesFault> {
    if let Some(time) = rest.strip_prefix(b" from ") {
        stretch.from = Some(cut_in(time, line)?);
    } else if let Some(time) = rest.strip_prefix(b" until ") {
        stretch.until = Some(cut_in(time, line)?);
    }
    Ok(())
}

/// The time at the beginning of a text, before a comma.
fn cut_in(text: &[u8], line: u64) -> Result<TimeOfDay, TimesFault> {
    let mut fields = text.split(|byte| *byte == b',');
    let digits = fields.next().unwrap_or(b"");
    match TimeOfDay::parse(digits) {
        Some(time) => Ok(time),
        None => Err(TimesFault::NotSymbol { line }),
    }
}
