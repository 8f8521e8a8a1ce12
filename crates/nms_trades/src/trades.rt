//! Judging a file of executions on a file of changes.
ghost use Rattle.std.specs.Prelude.{◌≡◌, ◌⊎◌, All, IfErr, IfOk, OnOk, false, length, option_copied, true};
ghost use Rattle.std.specs.Io.KnownBytes.{Appends};
ghost use Rattle.nms_show.specs.Safe.{IsSafe};
ghost use Rattle.nms_show.specs.Written.{Writes};
ghost use Rattle.nms_trades.specs.Files.{AreRecordsOf, IsBoardFault, IsFileTradesFault, IsJudgedFile, IsJudgedOn, IsSourceFault};
ghost use Rattle.nms_trades.specs.Files.{IsWritingFault, is_begun, is_csv, is_table, text_in};
ghost use Rattle.nms_trades.specs.Reading.{IsInWindow, IsOn};

use crate::clock::{Timing, clock_of};
use crate::execution_file::{Records, read_executions};
use crate::finding::Finding;
use crate::judging::judge_all;
use crate::lines::{write_answers, write_columns};
use crate::quality_table::write_quality;
use crate::table::write_table;
use crate::trades_fault::TradesFault;
use nms_fees::Setup;
use nms_quote::Roster;
use nms_show::{Ending, Form};
use nms_stream::Tape;
use std::alloc::Global;
use std::io::{Read, Write};

/// What is written about executions.
#[derive(Clone, Copy)]
pub enum Layout {
    /// A line or more for each execution.
    Lines,
    /// Counts and sums of all executions that traded through.
    Table,
    /// Counts and sums of how well all executions were done.
    Quality,
    /// A line of columns for each record, under a line of their names. In any form it is a text.
    Columns,
}

/// Judges each execution of a file on the version of the changes that it names, or that was in force at its time. It writes the
/// findings in the order of the file, as CSV or as JSON with an object a line. Or it writes the counts and sums of all, or
/// columns.
///
/// Both files are read to their ends; there are at most 10,000,000 executions. A refused record is written as such and counted.
/// The call ends with `Refused` if any record was refused, else with `Done`. After any fault but `Show` nothing is written. The
/// writer is not flushed.
#[tactic(auto, using(nms_show::proofs::Offered::no_part_added))]
pub fn judge_file<C: Read + Drop, E: Read + Drop, W: Write>(
    alloc: Global,
    setup: &Setup,
    changes: C,
    executions: E,
    timing: Option<&Timing<'_>>,
    form: Form,
    layout: Layout,
    answers: &mut W,
) -> Result<Ending, TradesFault>
    ensures judged { IfOk result (IsJudgedFile setup.now (C.remaining changes) (E.remaining executions) form layout
        (W.contents answers.old) (W.contents answers.new)) }
    ensures refused { IfErr result (IsFileTradesFault setup.now (C.remaining changes) (E.remaining executions)
        (option_copied timing.entry) layout) }
    ensures unwritten { IfErr result (λ fault. is_begun fault ≡ false → W.contents answers.new ≡ W.contents answers.old) }
    ensures safe { is_table layout ≡ true → Writes IsSafe (W.contents answers.old) (W.contents answers.new) result }
{
    match Tape::read(alloc, setup, changes) {
        Ok(tape) => judge_source(alloc, &tape, executions, timing, form, layout, answers),
        Err(fault) => Err(TradesFault::Changes(fault)),
    }
}

/// Judges each execution of a file on a tape.
#[tactic(auto, using(nms_show::proofs::Offered::no_part_added))]
fn judge_source<E: Read + Drop, W: Write>(
    alloc: Global,
    tape: &Tape<'_>,
    executions: E,
    timing: Option<&Timing<'_>>,
    form: Form,
    layout: Layout,
    answers: &mut W,
) -> Result<Ending, TradesFault>
    ensures judged { IfOk result (IsJudgedOn tape.now.roster.now tape.now.changes.items (E.remaining executions) form layout
        (W.contents answers.old) (W.contents answers.new)) }
    ensures refused { IfErr result (λ fault. IsSourceFault (option_copied timing.entry) (length tape.now.changes.items) (E.remaining executions) fault
        ⊎ (IsBoardFault fault ⊎ IsWritingFault layout fault)) }
    ensures unwritten { IfErr result (λ fault. is_begun fault ≡ false → W.contents answers.new ≡ W.contents answers.old) }
    ensures safe { is_table layout ≡ true → Writes IsSafe (W.contents answers.old) (W.contents answers.new) result }
{
    let records = read_timed(alloc, tape.roster, timing, tape.changes.len(), executions)?;
    match judge_all(alloc, tape, &records.executions) {
        Ok(findings) => {
            write_findings(
                alloc,
                tape.roster,
                &records,
                &findings,
                form,
                layout,
                answers,
            )?;
            Ok(records.ending())
        }
        Err(fault) => Err(TradesFault::Board(fault)),
    }
}

/// Reads all executions of a file, at most 10,000,000, on a number of changes. The times of the changes find the versions of
/// the executions that have a time. The reading goes on after a refused record. Each record of the file is among the executions
/// or the refused records, with its number.
pub fn read_timed<R: Read + Drop>(
    alloc: Global,
    roster: &Roster,
    timing: Option<&Timing<'_>>,
    changes: usize,
    source: R,
) -> Result<Records, TradesFault>
    ensures on { IfOk result (λ records. All (IsOn roster.now changes) records.executions.items) }
    ensures window { IfOk result (λ records. All IsInWindow records.executions.items) }
    ensures numbered { IfOk result (λ records. AreRecordsOf (R.remaining source) records.executions.items records.refused.items) }
    ensures refused { IfErr result (IsSourceFault (option_copied timing.entry) changes (R.remaining source)) }
{
    let clock = clock_of(alloc, roster, timing, changes)?;
    read_executions(alloc, roster, &clock, source)
}

/// Writes the findings about executions, which are at their places, and the refused records. There is a line or more for each,
/// or the counts and sums of all, or columns.
///
/// The fault `TooLong` is returned only if a sum is too large for the number that holds it. Then nothing is written. If the
/// output fails, only a prefix was written. The writer is not flushed.
pub fn write_findings<W: Write>(
    alloc: Global,
    roster: &Roster,
    records: &Records,
    findings: &[Option<Finding>],
    form: Form,
    layout: Layout,
    answers: &mut W,
) -> Result<(), TradesFault>
    requires { length findings.now ≡ length records.now.executions.items }
    ensures written { is_csv layout form ≡ true → OnOk result (Appends (W.contents answers.old) (W.contents answers.new)
        (text_in layout roster.now records.now.executions.items records.now.refused.items findings.now)) }
    ensures safe { is_table layout ≡ true → Writes IsSafe (W.contents answers.old) (W.contents answers.new) result }
    ensures refused { IfErr result (IsWritingFault layout) }
    ensures unwritten { IfErr result (λ fault. is_begun fault ≡ false → W.contents answers.new ≡ W.contents answers.old) }
{
    match layout {
        Layout::Lines => write_answers(alloc, roster, records, findings, form, answers),
        Layout::Table => write_table(alloc, roster, records, findings, form, answers),
        Layout::Quality => write_quality(alloc, roster, records, findings, form, answers),
        Layout::Columns => write_columns(alloc, roster, records, findings, answers),
    }
}
