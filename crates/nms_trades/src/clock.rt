//! When an execution was made: versions that are found by their times: `specs/When`.
ghost use Rattle.std.specs.Prelude.{◌≡◌, ◌≢◌, ◌≤◌, ◌+◌, IfErr, IfOk, IfSome, None, Some, drop, length, option_copied, slice_index};
ghost use Rattle.nms_trades.specs.Files.{IsClockFault, IsTimingFault};
ghost use Rattle.nms_trades.specs.When.{AreOfChanges, IsWithin, at_time, stretch_in, timed, version_by, when_in};

use crate::stretch::{Stretch, read_stretch};
use crate::trade_fault::TradeFault;
use crate::trades_fault::TradesFault;
use nms_lines::name_of_sym;
use nms_quote::{Roster, Sym};
use nms_show::ShowFault;
use nms_times::{Rising, TimeOfDay, Times, find_span, versions_rise_with_time};
use nms_units::parse_digits;
use std::alloc::Global;

/// Nanoseconds in a second.
const SECOND: u64 = 1_000_000_000;

/// The times of the changes, and how versions are found by them.
#[derive(Clone, Copy)]
pub struct Timing<'a> {
    /// The times, one for each change.
    pub times: &'a Times,
    /// The text of the file of symbols, if the times rise only within a symbol. For a shard it also says which symbols are cut.
    pub symbols: Option<&'a [u8]>,
    /// Whether changes at exactly the time of an execution are taken as not yet in force.
    pub before: bool,
    /// The half-width of an execution's window, in nanoseconds. The execution is also judged on the versions in force within
    /// this time before and after it.
    pub window: u64,
}

/// The times of each symbol's changes, and how versions are found by them.
#[derive(Drop)]
pub(crate) struct Clock<'a> {
    /// How many changes there are.
    pub(crate) changes: u64,
    /// Whether the changes have times.
    pub(crate) has_times: bool,
    /// The times of the changes of each symbol, by its place. If the times rise over all symbols, they are all times.
    pub(crate) rising: Vec<Option<Rising<'a>>>,
    /// The part of the day for which the shard has the changes of each symbol, by its place. A symbol that is not in the list
    /// has the complete day.
    pub(crate) stretches: Vec<Stretch>,
    /// Whether changes at exactly the time of an execution are taken as not yet in force.
    pub(crate) before: bool,
    /// The half-width of an execution's window, in nanoseconds. The execution is also judged on the versions in force within
    /// this time before and after it.
    pub(crate) window: u64,
}

/// When an execution was made.
#[derive(Clone, Copy)]
pub(crate) struct When {
    /// The version that was in force.
    pub(crate) version: u64,
    /// The first version of the execution's window.
    pub(crate) first: u64,
    /// The last version of the execution's window.
    pub(crate) last: u64,
    /// The version that was in force one second before; `version` if the time is not known.
    pub(crate) second_before: u64,
    /// The time, if the record has one.
    pub(crate) time: Option<TimeOfDay>,
    /// Whether another shard has the changes of the symbol at that time.
    pub(crate) other: bool,
}

impl Clock<'_> {
    /// When an execution in a symbol was made, as a text says: a version, or `@` and a time.
    pub(crate) fn when_in(&self, text: &[u8], sym: Sym) -> Result<When, TradeFault>
        requires { AreOfChanges self.now.changes self.now.rising.items }
        ensures when { result ≡ when_in self.now sym text.now }
        ensures version { IfOk result (λ when. when.version ≤ self.now.changes) }
        ensures first { IfOk result (λ when. when.first ≤ self.now.changes) }
        ensures last { IfOk result (λ when. when.last ≤ self.now.changes) }
        ensures second_before { IfOk result (λ when. when.second_before ≤ self.now.changes) }
        ensures window { IfOk result (λ when. IsWithin when.first when.version when.last) }
    {
        if let Some(digits) = time_text(text) {
            let Some(time) = TimeOfDay::parse(digits) else {
                return Err(TradeFault::BadVersion);
            };
            return self.at_time(time, sym);
        }
        match parse_digits(text, 9) {
            None => Err(TradeFault::BadVersion),
            Some(version) if version > self.changes => Err(TradeFault::Beyond),
            Some(version) => Ok(When {
                version,
                first: version,
                last: version,
                second_before: version,
                time: None,
                other: false,
            }),
        }
    }

    /// When an execution in a symbol was made, by its time.
    fn at_time(&self, time: TimeOfDay, sym: Sym) -> Result<When, TradeFault>
        requires { AreOfChanges self.now.changes self.now.rising.items }
        ensures when { result ≡ at_time self.now sym (Some time) }
        ensures version { IfOk result (λ when. when.version ≤ self.now.changes) }
        ensures first { IfOk result (λ when. when.first ≤ self.now.changes) }
        ensures last { IfOk result (λ when. when.last ≤ self.now.changes) }
        ensures second_before { IfOk result (λ when. when.second_before ≤ self.now.changes) }
        ensures window { IfOk result (λ when. IsWithin when.first when.version when.last) }
    {
        if !self.has_times {
            return Err(TradeFault::NoTimes);
        }
        let place = usize::from(sym.get());
        if place >= self.rising.len() {
            return Err(TradeFault::NoChanges);
        }
        match &self.rising[place] {
            Some(rising) => Ok(self.timed(rising, self.stretch_in(place), time)),
            None => Err(TradeFault::NoChanges),
        }
    }

    /// The part of the day for which the shard has the changes of the symbol at this place.
    fn stretch_in(&self, place: usize) -> Stretch
        ensures { result ≡ stretch_in self.now.stretches.items place }
    {
        if place < self.stretches.len() {
            self.stretches[place]
        } else {
            Stretch::whole()
        }
    }

    /// The versions that matter for an execution at this time. It also says whether another shard judges the execution.
    fn timed(&self, rising: &Rising<'_>, stretch: Stretch, time: TimeOfDay) -> When
        requires { rising.now.before + length rising.now.times.now ≤ self.now.changes }
        ensures when { result ≡ timed self.now stretch rising.now time }
        ensures version { result.version ≤ self.now.changes }
        ensures first { result.first ≤ self.now.changes }
        ensures last { result.last ≤ self.now.changes }
        ensures second_before { result.second_before ≤ self.now.changes }
        ensures window { IsWithin result.first result.version result.last }
    {
        versions_rise_with_time();
        When {
            version: version_by(self.before, rising, time),
            first: version_by(self.before, rising, time.earlier_by(self.window)),
            last: version_by(self.before, rising, time.later_by(self.window)),
            second_before: version_by(self.before, rising, time.earlier_by(SECOND)),
            time: Some(time),
            other: !stretch.is_own(self.before, time),
        }
    }
}

/// The version in force at a time. If `before` is set, changes at exactly that time are not yet in force.
fn version_by(before: bool, rising: &Rising<'_>, time: TimeOfDay) -> u64
    ensures version { result ≡ version_by before rising.now time }
    ensures high { result ≤ rising.now.before + length rising.now.times.now }
{
    if before {
        rising.version_before(time)
    } else {
        rising.version_at(time)
    }
}

/// The text after a leading `@`; `None` if the text does not begin with `@`.
fn time_text(text: &[u8]) -> Option<&[u8]>
    ensures at { IfSome result (λ digits. (slice_index text.now 0 ≡ 64) × (digits.now ≡ drop 1 text.now)) }
    ensures other { result ≡ None → slice_index text.now 0 ≢ 64 }
{
    if !text.is_empty() && text[0] == b'@' {
        Some(&text[1..])
    } else {
        None
    }
}

/// The clock for a roster's symbols and a number of changes. Without times, no time has a version.
pub(crate) fn clock_of<'a>(
    alloc: Global,
    roster: &Roster,
    timing: Option<&Timing<'a>>,
    changes: usize,
) -> Result<Clock<'a>, TradesFault>
    ensures changes { IfOk result (λ clock. clock.changes ≡ changes) }
    ensures within { IfOk result (λ clock. AreOfChanges changes clock.rising.items) }
    ensures refused { IfErr result (IsClockFault (option_copied timing.entry) changes) }
{
    let Some(timing) = timing else {
        return Ok(Clock {
            changes: changes as u64,
            has_times: false,
            rising: Vec::new(alloc),
            stretches: Vec::new(alloc),
            before: false,
            window: 0,
        });
    };
    if let Err(fault) = timing.times.check_len(changes) {
        return Err(TradesFault::Times(fault));
    }
    let (rising, stretches) = match timing.symbols {
        None => (over_all(alloc, roster, timing.times)?, Vec::new(alloc)),
        Some(text) => (
            by_symbol(alloc, roster, timing.times, text)?,
            stretches_of(alloc, roster, timing.times, text)?,
        ),
    };
    Ok(Clock {
        changes: changes as u64,
        has_times: true,
        rising,
        stretches,
        before: timing.before,
        window: timing.window,
    })
}

/// The times of all changes, repeated for each symbol, because they rise over all symbols.
fn over_all<'a>(
    alloc: Global,
    roster: &Roster,
    times: &'a Times,
) -> Result<Vec<Option<Rising<'a>>>, TradesFault>
    ensures within { IfOk result (λ all. AreOfChanges (length times.now) all.items) }
    ensures refused { IfErr result (IsTimingFault None times.now) }
{
    let rising = match times.rising() {
        Ok(rising) => rising,
        Err(fault) => return Err(TradesFault::Times(fault)),
    };
    let mut all = Vec::new(alloc);
    for _ in 0..roster.syms() {
        if all.push(Some(rising)).is_err() {
            return Err(TradesFault::Show(ShowFault::NoMemory));
        }
    }
    Ok(all)
}

/// The times of each symbol, in the span that a file of symbols gives it.
fn by_symbol<'a>(
    alloc: Global,
    roster: &Roster,
    times: &'a Times,
    text: &[u8],
) -> Result<Vec<Option<Rising<'a>>>, TradesFault>
    ensures within { IfOk result (λ all. AreOfChanges (length times.now) all.items) }
    ensures refused { IfErr result (IsTimingFault (Some text.now) times.now) }
{
    let mut all = Vec::new(alloc);
    for place in 0..roster.syms() as u16 {
        let name = name_of_sym(roster, Sym::new(place).unwrap());
        let found = of_symbol(times, text, name.as_bytes())?;
        if all.push(found).is_err() {
            return Err(TradesFault::Show(ShowFault::NoMemory));
        }
    }
    Ok(all)
}

/// The part of the day that the changes have of each symbol, as a file of symbols says.
fn stretches_of(
    alloc: Global,
    roster: &Roster,
    times: &Times,
    text: &[u8],
) -> Result<Vec<Stretch>, TradesFault>
    ensures { IfErr result (IsTimingFault (Some text.now) times.now) }
{
    // The function takes the times only because its contract mentions them.
    let _ = times;
    let mut all = Vec::new(alloc);
    for place in 0..roster.syms() as u16 {
        let name = name_of_sym(roster, Sym::new(place).unwrap());
        if all.push(Stretch::whole()).is_err() {
            return Err(TradesFault::Show(ShowFault::NoMemory));
        }
        if let Some(stretch) = all.last_mut()
            && let Err(fault) = read_stretch(stretch, text, name.as_bytes())
        {
            return Err(TradesFault::Symbols(fault));
        }
    }
    Ok(all)
}

/// The times of a symbol, if the file of symbols has it.
fn of_symbol<'a>(
    times: &'a Times,
    text: &[u8],
    name: &[u8],
) -> Result<Option<Rising<'a>>, TradesFault>
    ensures within { IfOk result (λ found. IfSome found (λ rising. rising.before + length rising.times.now ≤ length times.now)) }
    ensures refused { IfErr result (IsTimingFault (Some text.now) times.now) }
{
    let span = match find_span(text, name, times.len()) {
        Ok(Some(span)) => span,
        Ok(None) => return Ok(None),
        Err(fault) => return Err(TradesFault::Symbols(fault)),
    };
    match times.rising_between(span.before, span.last) {
        Ok(rising) => Ok(Some(rising)),
        Err(fault) => Err(TradesFault::Times(fault)),
    }
}
