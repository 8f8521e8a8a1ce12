//! How many rows had each finding: `specs/Compared`.
ghost use Rattle.std.specs.Prelude.{◌≡◌, ◌≢◌, ◌<◌, ◌≤◌, ◌+◌, ◌^◌, IfErr, IfOk, OnOk, Result, true};
ghost use Rattle.std.specs.List.{list_all, sum_by};
ghost use Rattle.nms_show.specs.Plain.{is_own_plain, is_plain};
ghost use Rattle.nms_show.specs.Safe.{IsSafe};
ghost use Rattle.nms_show.specs.Written.{Writes};
ghost use Rattle.nms_compare.specs.Faults.{is_of_output};
ghost use Rattle.nms_compare.specs.Compared.{count_cause, count_finding, count_row, has_doubts, no_counts, rows_in, skips};

use crate::compare_fault::CompareFault;
use crate::finding::Finding;
use nms_import::Cause;
use nms_show::{Form, Item, ShowFault, write_line, write_object};
use std::alloc::Global;
use std::io::Write;

/// The number of rows with each finding, and of those that were refused or skipped.
#[derive(Clone, Copy, PartialEq, Eq)]
pub struct Counts {
    /// The number of rows in which nothing differs.
    pub equal: u64,
    /// The number of rows in which a price differs, or in which only the vendor or only the tape has a side.
    pub other_price: u64,
    /// The number of rows with the same prices, but with another displayed size.
    pub other_size: u64,
    /// The number of rows with the same prices and sizes, but with another venue.
    pub other_venue: u64,
    /// The number of rows in which only the vendor or only the tape has a quotation.
    pub no_counterpart: u64,
    /// The number of rows that were refused, because no national best can be read from them.
    pub refused: u64,
    /// The number of rows that the mapping skips.
    pub skipped: u64,
}

impl Counts {
    /// The counts of no row.
    pub(crate) fn none() -> Counts
        ensures { result ≡ no_counts }
    {
        Counts {
            equal: 0,
            other_price: 0,
            other_size: 0,
            other_venue: 0,
            no_counterpart: 0,
            refused: 0,
            skipped: 0,
        }
    }

    /// Counts one more row.
    pub(crate) fn count(&mut self, found: Result<Finding, Cause>)
        requires { rows_in self.old < 1000000000000 }
        ensures counted { self.new ≡ count_row self.old found }
        ensures rows { rows_in self.new ≡ rows_in self.old + 1 }
    {
        match found {
            Ok(finding) => self.count_finding(finding),
            Err(cause) => self.count_cause(cause),
        }
    }

    /// Counts one more finding.
    fn count_finding(&mut self, finding: Finding)
        requires { rows_in self.old < 1000000000000 }
        ensures counted { self.new ≡ count_finding self.old finding }
        ensures rows { rows_in self.new ≡ rows_in self.old + 1 }
    {
        match finding {
            Finding::Equal => self.equal += 1,
            Finding::OtherPrice => self.other_price += 1,
            Finding::OtherSize => self.other_size += 1,
            Finding::OtherVenue => self.other_venue += 1,
            Finding::NoCounterpart => self.no_counterpart += 1,
        }
    }

    /// Counts one more row that has no national best.
    fn count_cause(&mut self, cause: Cause)
        requires { rows_in self.old < 1000000000000 }
        ensures counted { self.new ≡ count_cause self.old (skips cause) }
        ensures rows { rows_in self.new ≡ rows_in self.old + 1 }
    {
        if skips(cause) {
            self.skipped += 1;
        } else {
            self.refused += 1;
        }
    }

    /// Whether any row was refused, or differs from the national best of the tape.
    pub fn has_doubts(&self) -> bool
        ensures { result ≡ has_doubts self.now }
    {
        self.other_price > 0
            || self.other_size > 0
            || self.other_venue > 0
            || self.no_counterpart > 0
            || self.refused > 0
    }
}

/// Whether a cause skips a row instead of refusing it.
fn skips(cause: Cause) -> bool
    ensures { result ≡ skips cause }
{
    match cause {
        Cause::TooFewColumns
        | Cause::BadTime
        | Cause::UnknownParticipant
        | Cause::UnknownSymbol
        | Cause::UnknownCondition
        | Cause::OneSided(_)
        | Cause::BadPrice(_)
        | Cause::BadSize(_)
        | Cause::UnknownSide
        | Cause::HalfSide(_) => false,
        Cause::Trailer | Cause::Listed | Cause::OtherSymbol => true,
    }
}

/// Writes the counts: a line for each finding, and last the sum. If the sum is more than 2^64 - 1, the fault `TooLong` is
/// returned after the lines that still fit. The counts of 1,000,000,000,000 rows always fit.
pub fn write_counts<W: Write>(out: &mut W, counts: &Counts) -> Result<(), CompareFault>
    ensures safe { Writes IsSafe (W.contents out.old) (W.contents out.new) result }
    ensures whole { OnOk result (rows_in counts.now < 2 ^ 64) }
    ensures too_long { IfErr result (λ fault. fault ≡ CompareFault.TooLong → 2 ^ 64 ≤ rows_in counts.now) }
    ensures others { IfErr result (λ fault. fault ≢ CompareFault.TooLong → is_of_output fault ≡ true) }
{
    let table = [
        (counts.equal, " equal"),
        (counts.other_price, " other price"),
        (counts.other_size, " other size"),
        (counts.other_venue, " other venue"),
        (counts.no_counterpart, " no counterpart"),
        (counts.refused, " refused"),
        (counts.skipped, " skipped"),
    ];
    let rows = write_table(out, &table)?;
    line(out, &[Item::Number(rows), Item::Text(" rows")])
}

/// Writes the counts as one JSON object.
pub fn write_counts_object<W: Write>(
    alloc: Global,
    out: &mut W,
    counts: &Counts,
) -> Result<(), CompareFault> {
    let members = [
        ("what", Item::Text("counts")),
        ("equal", Item::Number(counts.equal)),
        ("other_price", Item::Number(counts.other_price)),
        ("other_size", Item::Number(counts.other_size)),
        ("other_venue", Item::Number(counts.other_venue)),
        ("no_counterpart", Item::Number(counts.no_counterpart)),
        ("refused", Item::Number(counts.refused)),
        ("skipped", Item::Number(counts.skipped)),
    ];
    write_object(alloc, out, &members)?;
    Ok(())
}

/// Writes a line for each count, with its words, and returns the sum of the counts.
fn write_table<W: Write>(out: &mut W, table: &[(u64, &'static str)]) -> Result<u64, CompareFault>
    requires own { list_all (λ row. is_plain row.1.now) table.now ≡ true }
    ensures safe { Writes IsSafe (W.contents out.old) (W.contents out.new) result }
    ensures sum { IfOk result (λ rows. rows ≡ sum_by (λ row. row.0) table.now) }
    ensures too_long { IfErr result (λ fault. fault ≡ CompareFault.TooLong → 2 ^ 64 ≤ sum_by (λ row. row.0) table.now) }
    ensures others { IfErr result (λ fault. fault ≢ CompareFault.TooLong → is_of_output fault ≡ true) }
{
    let mut rows = 0;
    for row in table {
        rows = write_row(out, rows, row.0, row.1)?;
    }
    Ok(rows)
}

/// Writes a line for one count, with its words, and returns the sum of the counts up to it.
fn write_row<W: Write>(
    out: &mut W,
    before: u64,
    count: u64,
    what: &'static str,
) -> Result<u64, CompareFault>
    requires own { is_plain what.now ≡ true }
    ensures safe { Writes IsSafe (W.contents out.old) (W.contents out.new) result }
    ensures sum { IfOk result (λ rows. rows ≡ before + count) }
    ensures too_long { IfErr result (λ fault. fault ≡ CompareFault.TooLong → 2 ^ 64 ≤ before + count) }
    ensures others { IfErr result (λ fault. fault ≢ CompareFault.TooLong → is_of_output fault ≡ true) }
{
    let Some(rows) = before.checked_add(count) else {
        return Err(CompareFault::TooLong);
    };
    match line(out, &[Item::Number(count), Item::Text(what)]) {
        Ok(()) => Ok(rows),
        Err(fault) => Err(fault),
    }
}

/// Writes a line of text without colours.
#[tactic(auto, using(nms_show::proofs::Offered::plain_items))]
fn line<W: Write>(out: &mut W, items: &[Item<'_>]) -> Result<(), CompareFault>
    requires own { list_all is_own_plain items.now ≡ true }
    ensures safe { Writes IsSafe (W.contents out.old) (W.contents out.new) result }
    ensures others { IfErr result (λ fault. is_of_output fault ≡ true) }
{
    match write_line(out, Form::Text { colours: false }, items) {
        Ok(()) => Ok(()),
        Err(ShowFault::WriteFault) => Err(CompareFault::WriteFault),
        Err(ShowFault::NoMemory) => Err(CompareFault::NoMemory),
    }
}
