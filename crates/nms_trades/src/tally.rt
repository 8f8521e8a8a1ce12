//! How many executions traded through, how much, and how well they were done. The counts are of all, by cause, by participant,
//! by symbol, by size and by half hour.
ghost use Rattle.std.specs.Prelude.{◌≡◌, ◌<◌, ◌+◌, IfOk, IfSome, OnOk, OnSome, length};
ghost use Rattle.nms_trades.specs.Counts.{is_judged, is_noquote, is_other, is_perhaps, is_through, stands_once};

use crate::cause::{CAUSES, Cause};
use crate::execution::Execution;
use crate::finding::Finding;
use crate::money_through::{Sums, sums_of, sums_of_row};
use crate::standing::Standing;
use crate::trades_fault::TradesFault;
use crate::worth::{SIZES, Worth, size_class};
use nms_lines::{name_of_part, name_of_sym};
use nms_quote::{Part, Roster, Sym};
use nms_show::ShowFault;
use nms_times::TimeOfDay;
use std::alloc::{AllocError, Global};

/// How many half hours a day has.
pub(crate) const HALF_HOURS: usize = 48;

/// Nanoseconds in half an hour.
const HALF_HOUR: u64 = 1_800_000_000_000;

/// How much some executions traded through.
#[derive(Clone, Copy)]
pub(crate) struct Amount {
    /// The number of executions.
    pub(crate) executions: u64,
    /// The number of executions with rows that no cause explains. Self-help may have taken out other rows of them.
    pub(crate) open: u64,
    /// The number of rows that were traded through.
    pub(crate) rows: u64,
    /// The number of shares that were traded through.
    pub(crate) shares: u64,
    /// The dollars that were traded through, in 1/1,000,000.
    pub(crate) dollars: i128,
    /// The greatest difference between the price of an execution and the price of a row, in 1/1,000,000 dollar.
    pub(crate) worst: u64,
}

impl Amount {
    /// The amount of no execution.
    fn none() -> Amount
        ensures { result.executions ≡ 0 }
    {
        Amount {
            executions: 0,
            open: 0,
            rows: 0,
            shares: 0,
            dollars: 0,
            worst: 0,
        }
    }

    /// The amount with one more execution.
    fn with(self, is_open: bool, sums: &Sums) -> Option<Amount>
        ensures { IfSome result (λ amount. amount.executions ≡ self.executions + 1) }
    {
        let mut amount = self;
        amount.executions = amount.executions.checked_add(1)?;
        if is_open {
            amount.open = amount.open.checked_add(1)?;
        }
        amount.with_sums(sums)
    }

    /// The amount with more rows, but with the same number of executions.
    fn with_sums(self, sums: &Sums) -> Option<Amount>
        ensures { IfSome result (λ amount. amount.executions ≡ self.executions) }
    {
        let mut amount = self;
        amount.rows = amount.rows.checked_add(sums.count)?;
        amount.shares = amount.shares.checked_add(u64::from(sums.shares))?;
        amount.dollars = amount.dollars.checked_add(sums.dollars)?;
        amount.worst = amount.worst.max(sums.worst);
        Some(amount)
    }

    /// The amount together with that of other executions.
    fn plus(self, more: &Amount) -> Option<Amount>
        ensures { IfSome result (λ amount. amount.executions ≡ self.executions + more.now.executions) }
    {
        Some(Amount {
            executions: self.executions.checked_add(more.executions)?,
            open: self.open.checked_add(more.open)?,
            rows: self.rows.checked_add(more.rows)?,
            shares: self.shares.checked_add(more.shares)?,
            dollars: self.dollars.checked_add(more.dollars)?,
            worst: self.worst.max(more.worst),
        })
    }
}

/// What one execution adds to a count.
#[derive(Clone, Copy)]
struct One {
    /// Whether the execution has rows that no cause explains. Self-help may have taken out other rows of it.
    is_open: bool,
    /// How much the execution traded through.
    sums: Sums,
    /// How well the execution was done.
    worth: Worth,
}

/// How many executions there were, how much they traded through, and how well they were done.
#[derive(Clone, Copy)]
pub(crate) struct Count {
    /// The number of executions.
    pub(crate) executions: u64,
    /// The number of executions whose symbol had not been quoted.
    pub(crate) unquoted: u64,
    /// The amount of the executions that traded through on some versions of their windows, and not on others.
    pub(crate) perhaps: Amount,
    /// The amount of the executions that traded through on every version of their windows.
    pub(crate) through: Amount,
    /// How well all of the executions were done.
    pub(crate) worth: Worth,
}

impl Count {
    /// A count of no executions.
    pub(crate) fn none() -> Count
        ensures executions { result.executions ≡ 0 }
        ensures unquoted { result.unquoted ≡ 0 }
        ensures perhaps { result.perhaps.executions ≡ 0 }
        ensures through { result.through.executions ≡ 0 }
    {
        Count {
            executions: 0,
            unquoted: 0,
            perhaps: Amount::none(),
            through: Amount::none(),
            worth: Worth::none(),
        }
    }

    /// Whether the count has neither an execution nor a row that was traded through.
    pub(crate) fn is_empty(&self) -> bool {
        self.executions == 0 && self.through.rows == 0 && self.perhaps.rows == 0
    }

    /// The count with one more execution that is judged here.
    fn with(self, finding: &Finding, one: &One) -> Option<Count>
        ensures executions { IfSome result (λ count. count.executions ≡ self.executions + 1) }
        ensures unquoted { IfSome result (λ count. count.unquoted ≡ self.unquoted + stands_once is_noquote finding.now) }
        ensures perhaps { IfSome result (λ count. count.perhaps.executions
            ≡ self.perhaps.executions + stands_once is_perhaps finding.now) }
        ensures through { IfSome result (λ count. count.through.executions
            ≡ self.through.executions + stands_once is_through finding.now) }
    {
        let mut count = self;
        count.executions = count.executions.checked_add(1)?;
        count.worth = count.worth.with(&one.worth)?;
        match finding.standing {
            Standing::Clean | Standing::Other => {}
            Standing::Unquoted => count.unquoted = count.unquoted.checked_add(1)?,
            Standing::Perhaps => count.perhaps = count.perhaps.with(one.is_open, &one.sums)?,
            Standing::Through => count.through = count.through.with(one.is_open, &one.sums)?,
        }
        Some(count)
    }

    /// The count together with that of other executions.
    fn plus(self, more: &Count) -> Option<Count>
        ensures executions { IfSome result (λ count. count.executions ≡ self.executions + more.now.executions) }
        ensures unquoted { IfSome result (λ count. count.unquoted ≡ self.unquoted + more.now.unquoted) }
        ensures perhaps { IfSome result (λ count. count.perhaps.executions ≡ self.perhaps.executions + more.now.perhaps.executions) }
        ensures through { IfSome result (λ count. count.through.executions ≡ self.through.executions + more.now.through.executions) }
    {
        Some(Count {
            executions: self.executions.checked_add(more.executions)?,
            unquoted: self.unquoted.checked_add(more.unquoted)?,
            perhaps: self.perhaps.plus(&more.perhaps)?,
            through: self.through.plus(&more.through)?,
            worth: self.worth.with(&more.worth)?,
        })
    }

    /// The count with more rows that an execution traded through, or perhaps did. The number of executions stays the same.
    fn with_rows(self, standing: Standing, sums: &Sums) -> Option<Count> {
        let mut count = self;
        match standing {
            Standing::Clean | Standing::Unquoted | Standing::Other => {}
            Standing::Perhaps => count.perhaps = count.perhaps.with_sums(sums)?,
            Standing::Through => count.through = count.through.with_sums(sums)?,
        }
        Some(count)
    }
}

/// The counts of all executions.
#[derive(Drop)]
pub(crate) struct Tally {
    /// The number of executions that other shards judge. No other count includes them.
    pub(crate) others: u64,
    pub(crate) all: Count,
    pub(crate) names: Names,
    pub(crate) places: Places,
}

/// The names under which counts are shown.
#[derive(Drop)]
pub(crate) struct Names {
    /// The names of the participants.
    pub(crate) parts: Vec<String>,
    /// The names of the symbols.
    pub(crate) syms: Vec<String>,
}

/// The counts of executions by cause, participant, symbol, size and half hour.
#[derive(Drop)]
pub(crate) struct Places {
    /// The counts by cause, in the order of `Cause::ALL`.
    pub(crate) causes: [Count; CAUSES],
    /// The counts by participant that executed. The last one is for executions off an exchange.
    pub(crate) executed: Vec<Count>,
    /// The counts by participant that was traded through.
    pub(crate) passed: Vec<Count>,
    /// The counts by symbol.
    pub(crate) syms: Vec<Count>,
    /// The counts by size class, which is a range of the shares of an execution.
    pub(crate) sizes: [Count; SIZES],
    /// The counts by half hour of the day, for executions with a time.
    pub(crate) half_hours: [Count; HALF_HOURS],
}

impl Tally {
    /// Empty counts for the participants and symbols of a roster.
    pub(crate) fn none(alloc: Global, roster: &Roster) -> Result<Tally, AllocError>
        ensures others { IfOk result (λ tally. tally.others ≡ 0) }
        ensures executions { IfOk result (λ tally. tally.all.executions ≡ 0) }
        ensures unquoted { IfOk result (λ tally. tally.all.unquoted ≡ 0) }
        ensures perhaps { IfOk result (λ tally. tally.all.perhaps.executions ≡ 0) }
        ensures through { IfOk result (λ tally. tally.all.through.executions ≡ 0) }
    {
        Ok(Tally {
            others: 0,
            all: Count::none(),
            names: Names::of(alloc, roster)?,
            places: Places::none(alloc, roster.parts() + 1, roster.syms())?,
        })
    }

    /// Empty counts, to which the counts of several shards with the same participants can be added.
    pub(crate) fn empty(alloc: Global) -> Tally
        ensures executions { result.all.executions ≡ 0 }
        ensures unquoted { result.all.unquoted ≡ 0 }
        ensures perhaps { result.all.perhaps.executions ≡ 0 }
        ensures through { result.all.through.executions ≡ 0 }
        ensures names { length result.names.parts.items ≡ 0 }
    {
        Tally {
            others: 0,
            all: Count::none(),
            names: Names {
                parts: Vec::new(alloc),
                syms: Vec::new(alloc),
            },
            places: Places {
                causes: [Count::none(); CAUSES],
                executed: Vec::new(alloc),
                passed: Vec::new(alloc),
                syms: Vec::new(alloc),
                sizes: [Count::none(); SIZES],
                half_hours: [Count::none(); HALF_HOURS],
            },
        }
    }

    /// Adds the counts of other executions, under the same participants. Returns `TooLong` only if a sum is too large for the
    /// number that holds it.
    pub(crate) fn add_tally(&mut self, more: &Tally) -> Result<(), TradesFault>
        ensures executions { OnOk result (self.new.all.executions ≡ self.old.all.executions + more.now.all.executions) }
        ensures unquoted { OnOk result (self.new.all.unquoted ≡ self.old.all.unquoted + more.now.all.unquoted) }
        ensures perhaps { OnOk result (self.new.all.perhaps.executions
            ≡ self.old.all.perhaps.executions + more.now.all.perhaps.executions) }
        ensures through { OnOk result (self.new.all.through.executions
            ≡ self.old.all.through.executions + more.now.all.through.executions) }
    {
        let Some(all) = self.all.plus(&more.all) else {
            return Err(TradesFault::TooLong);
        };
        self.all = all;
        match self.names.add_names(&more.names) {
            Ok(own) => self.places.add_places(&more.places, &own),
            Err(_) => Err(TradesFault::Show(ShowFault::NoMemory)),
        }
    }

    /// Counts one more execution. Returns `None` only if a sum is too large for the number that holds it.
    pub(crate) fn add(&mut self, execution: &Execution, finding: &Finding) -> Option<()>
        ensures others { OnSome result (self.new.others ≡ self.old.others + stands_once is_other finding.now) }
        ensures executions { OnSome result (self.new.all.executions ≡ self.old.all.executions + stands_once is_judged finding.now) }
        ensures unquoted { OnSome result (self.new.all.unquoted ≡ self.old.all.unquoted + stands_once is_noquote finding.now) }
        ensures perhaps { OnSome result (self.new.all.perhaps.executions
            ≡ self.old.all.perhaps.executions + stands_once is_perhaps finding.now) }
        ensures through { OnSome result (self.new.all.through.executions
            ≡ self.old.all.through.executions + stands_once is_through finding.now) }
    {
        match finding.standing {
            Standing::Other => {
                self.others = self.others.checked_add(1)?;
                Some(())
            }
            Standing::Clean | Standing::Unquoted | Standing::Perhaps | Standing::Through => {
                self.add_judged(execution, finding)
            }
        }
    }

    /// Counts one more execution that is judged here.
    fn add_judged(&mut self, execution: &Execution, finding: &Finding) -> Option<()>
        ensures others { OnSome result (self.new.others ≡ self.old.others) }
        ensures executions { OnSome result (self.new.all.executions ≡ self.old.all.executions + 1) }
        ensures unquoted { OnSome result (self.new.all.unquoted ≡ self.old.all.unquoted + stands_once is_noquote finding.now) }
        ensures perhaps { OnSome result (self.new.all.perhaps.executions
            ≡ self.old.all.perhaps.executions + stands_once is_perhaps finding.now) }
        ensures through { OnSome result (self.new.all.through.executions
            ≡ self.old.all.through.executions + stands_once is_through finding.now) }
    {
        let sums = sums_of(execution, finding);
        let one = One {
            is_open: sums.count > 0 && !has_cause(execution, finding, &sums),
            sums,
            worth: Worth::of(execution, finding)?,
        };
        let all = self.all.with(finding, &one)?;
        self.all = all;
        self.places.add(execution, finding, &one)
    }
}

impl Names {
    /// The names of a roster.
    fn of(alloc: Global, roster: &Roster) -> Result<Names, AllocError> {
        let mut parts = Vec::with_capacity(alloc, roster.parts())?;
        for place in 0..roster.parts() as u8 {
            let part = Part::new(place).unwrap();
            parts.push(String::from_str(alloc, name_of_part(roster, part))?)?;
        }
        let mut syms = Vec::with_capacity(alloc, roster.syms())?;
        for place in 0..roster.syms() as u16 {
            let sym = Sym::new(place).unwrap();
            syms.push(String::from_str(alloc, name_of_sym(roster, sym))?)?;
        }
        Ok(Names { parts, syms })
    }

    /// Whether these names have no participant yet, or have the same participants as the other names, in the same order.
    pub(crate) fn has_parts(&self, others: &Names) -> bool {
        self.parts.is_empty()
            || self.parts.len() == others.parts.len()
                && (0..self.parts.len()).all(|place| self.parts[place].as_str()
                    == others.parts[place].as_str())
    }

    /// Adds the symbols of the other names that are missing here, and all participants if there are none yet. Returns the place
    /// here of each of the other symbols.
    fn add_names(&mut self, others: &Names) -> Result<Vec<usize>, AllocError> {
        let alloc = *self.syms.allocator();
        for place in self.parts.len()..others.parts.len() {
            self.parts
                .push(String::from_str(alloc, others.parts[place].as_str())?)?;
        }
        let mut places = Vec::with_capacity(alloc, others.syms.len())?;
        for name in &others.syms {
            places.push(self.place_of(alloc, name.as_str())?)?;
        }
        Ok(places)
    }

    /// The place of a symbol, which is added if it is not there.
    fn place_of(&mut self, alloc: Global, name: &str) -> Result<usize, AllocError> {
        match self.syms.iter().position(|it| it.as_str() == name) {
            Some(place) => Ok(place),
            None => {
                self.syms.push(String::from_str(alloc, name)?)?;
                Ok(self.syms.len() - 1)
            }
        }
    }
}

impl Places {
    /// Empty counts for a number of participants and symbols.
    fn none(alloc: Global, parts: usize, syms: usize) -> Result<Places, AllocError> {
        Ok(Places {
            causes: [Count::none(); CAUSES],
            executed: counts(alloc, parts)?,
            passed: counts(alloc, parts)?,
            syms: counts(alloc, syms)?,
            sizes: [Count::none(); SIZES],
            half_hours: [Count::none(); HALF_HOURS],
        })
    }

    /// Adds the counts of other executions. The list gives the place here of each of their symbols.
    fn add_places(&mut self, more: &Places, syms: &[usize]) -> Result<(), TradesFault> {
        add_counts(&mut self.causes, &more.causes)?;
        add_counts(&mut self.sizes, &more.sizes)?;
        add_counts(&mut self.half_hours, &more.half_hours)?;
        for place in 0..more.executed.len() {
            add_at(&mut self.executed, place, &more.executed[place])?;
        }
        for place in 0..more.passed.len() {
            add_at(&mut self.passed, place, &more.passed[place])?;
        }
        for place in 0..more.syms.len().min(syms.len()) {
            add_at(&mut self.syms, syms[place], &more.syms[place])?;
        }
        Ok(())
    }

    /// Counts an execution for its participant, symbol, size, half hour and causes, and for the participants that it traded
    /// through.
    fn add(&mut self, execution: &Execution, finding: &Finding, one: &One) -> Option<()> {
        let off = self.executed.len().checked_sub(1)?;
        let place = match execution.part {
            Some(part) => usize::from(part.get()),
            None => off,
        };
        add_to(&mut self.executed, place, finding, one)?;
        let sym = usize::from(execution.sym.get());
        add_to(&mut self.syms, sym, finding, one)?;
        let size = size_class(execution.shares.get());
        add_to(&mut self.sizes, size, finding, one)?;
        if let Some(time) = execution.time {
            let half_hour = half_hour_of(time);
            add_to(&mut self.half_hours, half_hour, finding, one)?;
        }
        self.add_causes(execution, finding, one)?;
        self.add_rows(execution, finding)
    }

    /// Counts an execution for each cause that applies, if it traded through.
    fn add_causes(&mut self, execution: &Execution, finding: &Finding, one: &One) -> Option<()> {
        if !finding.standing.passes_some() {
            return Some(());
        }
        for place in 0..CAUSES {
            if Cause::ALL[place].applies(
                &execution.claims,
                finding.crossed,
                one.sums.helped,
                one.sums.is_flickering(),
            ) {
                self.causes[place] = self.causes[place].with(finding, one)?;
            }
        }
        Some(())
    }

    /// Counts the rows that an execution traded through, each for the participant that quoted it.
    fn add_rows(&mut self, execution: &Execution, finding: &Finding) -> Option<()> {
        let mut left = execution.shares.get();
        for place in 0..finding.passed.len() {
            let row = &finding.passed[place].1;
            let own = sums_of_row(execution, row, left, finding.is_flickering(place));
            if let Some(count) = self.passed.get_mut(usize::from(row.part.get())) {
                *count = count.with_rows(finding.standing, &own)?;
            }
            left -= own.shares;
        }
        Some(())
    }
}

/// Counts an execution at this place of a list, if the list has such a place.
fn add_to(counts: &mut [Count], place: usize, finding: &Finding, one: &One) -> Option<()> {
    if let Some(count) = counts.get_mut(place) {
        *count = count.with(finding, one)?;
    }
    Some(())
}

/// Adds each count of the second list to the count at the same place of the first.
fn add_counts(counts: &mut [Count], more: &[Count]) -> Result<(), TradesFault> {
    for place in 0..counts.len().min(more.len()) {
        match counts[place].plus(&more[place]) {
            Some(both) => counts[place] = both,
            None => return Err(TradesFault::TooLong),
        }
    }
    Ok(())
}

/// Adds a count to the count at this place of a list. A list that is too short is first filled up with empty counts.
fn add_at(counts: &mut Vec<Count>, place: usize, more: &Count) -> Result<(), TradesFault> {
    for _ in counts.len()..=place {
        if counts.push(Count::none()).is_err() {
            return Err(TradesFault::Show(ShowFault::NoMemory));
        }
    }
    match counts.get_mut(place) {
        Some(count) => match count.plus(more) {
            Some(both) => {
                *count = both;
                Ok(())
            }
            None => Err(TradesFault::TooLong),
        },
        None => Err(TradesFault::TooLong),
    }
}

/// A list of empty counts.
fn counts(alloc: Global, count: usize) -> Result<Vec<Count>, AllocError> {
    let mut counts = Vec::with_capacity(alloc, count)?;
    for _ in 0..count {
        counts.push(Count::none())?;
    }
    Ok(counts)
}

/// Whether a cause other than self-help applies to an execution. Self-help is left out, because it only takes out rows.
fn has_cause(execution: &Execution, finding: &Finding, sums: &Sums) -> bool {
    let flickering = sums.is_flickering();
    Cause::ALL.iter().any(|cause| cause.applies(
        &execution.claims,
        finding.crossed,
        false,
        flickering,
    ))
}

/// The half hour of the day in which a time is, counted from 0.
fn half_hour_of(time: TimeOfDay) -> usize
    ensures { result < HALF_HOURS }
{
    (time.since_midnight() / HALF_HOUR) as usize
}
