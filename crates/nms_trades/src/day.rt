//! The executions of a day that is cut into shards, each judged in exactly one of them: `specs/Day`.
ghost use Rattle.std.specs.Prelude.{◌≡◌, ◌+◌, [], IfOk, OnOk, cond, count_by, false, filter, length};
ghost use Rattle.nms_trades.specs.Counts.{is_judged, stands};
ghost use Rattle.nms_trades.specs.Day.{AreSums, HasShard, end_of, is_begun, is_here, is_refused, judged_among, once};

use crate::clock::Timing;
use crate::columns::{append_finding_row, append_names, append_refusal_row};
use crate::day_fault::DayFault;
use crate::execution::Execution;
use crate::execution_file::{Records, Refusal};
use crate::finding::Finding;
use crate::judging::judge_all;
use crate::said::{Line, Said};
use crate::table::{print_tally, tally_of};
use crate::tally::Tally;
use crate::trades::read_timed;
use crate::trades_fault::TradesFault;
use nms_lines::write_text;
use nms_quote::Roster;
use nms_show::{Ending, Form, ShowFault};
use nms_stream::Tape;
use std::alloc::{AllocError, Global};
use std::io::{Read, Write};

/// What the shards of a day say about the records of a file of executions.
#[derive(Drop)]
pub struct Day {
    /// What the shards said about each record, in the order of the records' numbers.
    said: Vec<Said>,
    /// The lines of the executions that were judged. Each line begins with the name of its shard.
    text: Vec<u8>,
    /// The counts and sums of all executions, over all shards.
    tally: Tally,
}

impl Day {
    /// A day to which no shard has been added yet.
    pub fn new(alloc: Global) -> Day
        ensures records { judged_among result.said.items ≡ 0 }
        ensures executions { result.tally.all.executions ≡ 0 }
        ensures unquoted { result.tally.all.unquoted ≡ 0 }
        ensures perhaps { result.tally.all.perhaps.executions ≡ 0 }
        ensures through { result.tally.all.through.executions ≡ 0 }
        ensures begun { is_begun result ≡ false }
    {
        Day {
            said: Vec::new(alloc),
            text: Vec::new(alloc),
            tally: Tally::empty(alloc),
        }
    }

    /// Whether any shard has been added to the day.
    pub fn is_begun(&self) -> bool
        ensures { result ≡ is_begun self.now }
    {
        !self.tally.names.parts.is_empty()
    }

    /// Judges those executions of a file that belong to this shard, each on the version that was in force at its time. It adds
    /// the findings to the day. The same file is given for each shard.
    ///
    /// After a fault the day is of no use.
    pub fn judge_shard<R: Read + Drop>(
        &mut self,
        tape: &Tape<'_>,
        timing: Option<&Timing<'_>>,
        shard: &str,
        executions: R,
    ) -> Result<(), DayFault>
        ensures { OnOk result (HasShard tape.now.roster.now tape.now.changes.items (R.remaining executions) self.old self.new) }
    {
        let alloc = *self.said.allocator();
        let records = read_timed(alloc, tape.roster, timing, tape.changes.len(), executions)?;
        match judge_all(alloc, tape, &records.executions) {
            Ok(findings) => self.add_findings(tape.roster, shard, &records, &findings),
            Err(fault) => Err(DayFault::Trades(TradesFault::Board(fault))),
        }
    }

    /// Adds what a shard says about each record, and its counts.
    fn add_findings(
        &mut self,
        roster: &Roster,
        shard: &str,
        records: &Records,
        findings: &[Option<Finding>],
    ) -> Result<(), DayFault>
        requires { length findings.now ≡ length records.now.executions.items }
        ensures records { OnOk result (judged_among self.new.said.items
            ≡ judged_among self.old.said.items + length (filter (stands is_judged) findings.now)) }
        ensures sums { OnOk result (AreSums self.old.tally findings.now self.new.tally) }
    {
        let alloc = *self.said.allocator();
        let tally = tally_of(alloc, roster, &records.executions, findings)?;
        if !self.tally.names.has_parts(&tally.names) {
            return Err(DayFault::OtherParts);
        }
        self.tally.add_tally(&tally)?;
        self.note_records(roster, shard, records, findings)
    }

    /// Notes what a shard says about each record.
    fn note_records(
        &mut self,
        roster: &Roster,
        shard: &str,
        records: &Records,
        findings: &[Option<Finding>],
    ) -> Result<(), DayFault>
        requires { length findings.now ≡ length records.now.executions.items }
        ensures records { OnOk result (judged_among self.new.said.items
            ≡ judged_among self.old.said.items + length (filter (stands is_judged) findings.now)) }
        ensures tally { self.new.tally ≡ self.old.tally }
    {
        self.make_room(records.executions.len(), records.refused.len())?;
        for refusal in &records.refused {
            self.note(refusal.number, Said::of_refusal(refusal.fault))?;
        }
        self.note_executions(roster, shard, &records.executions, findings)
    }

    /// Notes what a shard says about each execution.
    fn note_executions(
        &mut self,
        roster: &Roster,
        shard: &str,
        executions: &[Execution],
        findings: &[Option<Finding>],
    ) -> Result<(), DayFault>
        requires { length findings.now ≡ length executions.now }
        ensures records { OnOk result (judged_among self.new.said.items
            ≡ judged_among self.old.said.items + length (filter (stands is_judged) findings.now)) }
        ensures tally { self.new.tally ≡ self.old.tally }
    {
        let mut place = 0;
        for answer in findings {
            self.note_answer(roster, shard, &executions[place], answer)?;
            place += 1;
        }
        Ok(())
    }

    /// Notes what a shard says about an execution, if there is a finding about it.
    fn note_answer(
        &mut self,
        roster: &Roster,
        shard: &str,
        execution: &Execution,
        answer: &Option<Finding>,
    ) -> Result<(), DayFault>
        ensures records { OnOk result (judged_among self.new.said.items
            ≡ judged_among self.old.said.items + cond (stands is_judged answer.now) 1 0) }
        ensures tally { self.new.tally ≡ self.old.tally }
    {
        match answer {
            Some(finding) => {
                let said = self.said_of(roster, shard, execution, finding)?;
                self.note(execution.number, said)
            }
            None => Ok(()),
        }
    }

    /// Makes room for what is said about all records: the executions and the refused ones.
    fn make_room(&mut self, executions: usize, refused: usize) -> Result<(), DayFault>
        ensures records { OnOk result (judged_among self.new.said.items ≡ judged_among self.old.said.items) }
        ensures tally { self.new.tally ≡ self.old.tally }
    {
        let Some(count) = executions.checked_add(refused) else {
            return Err(DayFault::Trades(TradesFault::TooLong));
        };
        for _ in self.said.len()..count {
            if self.said.push(Said::Unknown).is_err() {
                return Err(AllocError.into());
            }
        }
        Ok(())
    }

    /// What a shard says about an execution. If the shard judges it, the line of the execution is added to the text of the day.
    fn said_of(
        &mut self,
        roster: &Roster,
        shard: &str,
        execution: &Execution,
        finding: &Finding,
    ) -> Result<Said, DayFault>
        ensures said { IfOk result (λ said. is_here said ≡ is_judged finding.now.standing) }
        ensures records { self.new.said ≡ self.old.said }
        ensures tally { self.new.tally ≡ self.old.tally }
    {
        let Some(time) = execution.time else {
            return Err(DayFault::Untimed(execution.number));
        };
        if finding.standing.is_other() {
            return Ok(Said::Elsewhere);
        }
        let from = self.text.len();
        append_shard(&mut self.text, shard)?;
        append_finding_row(&mut self.text, roster, execution, finding)?;
        let to = self.text.len();
        Ok(Said::Here(Line { time, from, to }))
    }

    /// Notes what a shard says about the record with a number.
    fn note(&mut self, number: u64, said: Said) -> Result<(), DayFault>
        ensures records { OnOk result (judged_among self.new.said.items ≡ judged_among self.old.said.items + once said) }
        ensures tally { self.new.tally ≡ self.old.tally }
    {
        let Some(place) = number.checked_sub(1) else {
            return Err(DayFault::Nowhere(number));
        };
        let place = place as usize;
        if place >= self.said.len() {
            return Err(DayFault::Nowhere(number));
        }
        match self.said[place].with(said) {
            Some(both) => {
                self.said[place] = both;
                Ok(())
            }
            None => Err(DayFault::Twice(number)),
        }
    }

    /// How many records are refused.
    fn refused(&self) -> u64
        ensures { result ≡ count_by is_refused self.now.said.items }
    {
        self.said
            .iter()
            .filter(|said| said.refusal().is_some())
            .count() as u64
    }

    /// How a call ends that writes the findings: `Refused` if any record is refused, else `Done`.
    pub fn ending(&self) -> Ending
        ensures { result ≡ end_of self.now.said.items }
    {
        if self.refused() == 0 {
            Ending::Done
        } else {
            Ending::Refused
        }
    }

    /// The number of the first record that a shard left to another one, but that no shard judged; `None` if there is no such
    /// record.
    fn left(&self) -> Option<u64> {
        let place = self
            .said
            .iter()
            .position(|said| matches!(said, Said::Elsewhere))?;
        Some(place as u64 + 1)
    }

    /// The places of the records by time. Those of one time are in the order of the file, and refused ones come last.
    fn order(&self) -> Result<Vec<usize>, AllocError> {
        let alloc = *self.said.allocator();
        let mut order = Vec::with_capacity(alloc, self.said.len())?;
        for place in 0..self.said.len() {
            order.push(place)?;
        }
        order.sort_by_key(|place| time_of(self.said.get(*place)))?;
        Ok(order)
    }

    /// Writes one line of columns for each record, in the order of their times, under a line with the names of the columns. The
    /// first column is the shard.
    pub fn write_findings<W: Write>(&self, answers: &mut W) -> Result<(), DayFault> {
        if let Some(number) = self.left() {
            return Err(DayFault::Nowhere(number));
        }
        let order = self.order()?;
        let mut text = Vec::new(*self.said.allocator());
        append_shard(&mut text, "shard")?;
        append_names(&mut text)?;
        give(answers, &text)?;
        for place in &order {
            text.clear();
            self.append_line(&mut text, *place)?;
            give(answers, &text)?;
        }
        Ok(())
    }

    /// Appends the line of the record at a place.
    fn append_line(&self, text: &mut Vec<u8>, place: usize) -> Result<(), DayFault> {
        let Some(said) = self.said.get(place) else {
            return Ok(());
        };
        if let Said::Here(line) = said {
            text.extend_from_slice(self.text.get(line.from..line.to).unwrap_or(&[]))?;
        } else if let Some(fault) = said.refusal() {
            let number = place as u64 + 1;
            append_shard(text, "")?;
            append_refusal_row(text, &Refusal { number, fault })?;
        }
        Ok(())
    }

    /// Writes the counts and sums of all executions of the day, as tables or as JSON objects.
    pub fn write_table<W: Write>(&self, form: Form, answers: &mut W) -> Result<(), DayFault> {
        let alloc = *self.said.allocator();
        match print_tally(alloc, &self.tally, self.refused(), form, answers) {
            Ok(()) => Ok(()),
            Err(fault) => Err(DayFault::Trades(TradesFault::Show(fault))),
        }
    }
}

/// The number by which records are put in the order of their times. A record that no shard judged comes after all others.
fn time_of(said: Option<&Said>) -> u64 {
    match said {
        Some(Said::Here(line)) => line.time.get(),
        Some(Said::Unknown | Said::Refused(_) | Said::Elsewhere) | None => u64::MAX,
    }
}

/// Appends the first field of a line: the shard.
fn append_shard(text: &mut Vec<u8>, shard: &str) -> Result<(), AllocError> {
    text.extend_from_slice(shard.as_bytes())?;
    text.push(b',')?;
    Ok(())
}

/// Writes a text to the output.
fn give<W: Write>(answers: &mut W, text: &[u8]) -> Result<(), DayFault> {
    match write_text(answers, text) {
        Ok(()) => Ok(()),
        Err(_) => Err(DayFault::Trades(TradesFault::Show(ShowFault::WriteFault))),
    }
}
