//! Reading a file of executions, record by record: `specs/Reading`.
ghost use Rattle.std.specs.Prelude.{ℕ, ◌≡◌, ◌+◌, [], All, IfErr, IfOk, List, OnOk, Option};
ghost use Rattle.nms_lines.specs.Records.{ReadsFrom};
ghost use Rattle.nms_trades.specs.Answers.{AreNumbered};
ghost use Rattle.nms_trades.specs.Files.{AreRecordsOf, IsReadingFault, ending_of};
ghost use Rattle.nms_trades.specs.Reading.{IsInWindow, IsOn};
ghost use Rattle.nms_trades.specs.When.{AreOfChanges};

use crate::MOST_EXECUTIONS;
use crate::clock::Clock;
use crate::execution::Execution;
use crate::reading::read_execution;
use crate::trade_fault::TradeFault;
use crate::trades_fault::TradesFault;
use nms_lines::{ByteRecord, Reader, RecordFault, open_records, open_row, read_next};
use nms_quote::Roster;
use nms_show::Ending;
use std::alloc::Global;
use std::io::Read;

/// A record that is refused.
#[derive(Clone, Copy)]
pub struct Refusal {
    /// The number of the record, counted from 1. A blank line is no record.
    pub number: u64,
    /// Why the record is refused.
    pub fault: TradeFault,
}

/// The records of a file: those that give an execution, and those that are refused, each in order.
#[derive(Drop)]
pub struct Records {
    /// The executions, in the order of their records.
    pub executions: Vec<Execution>,
    /// The records that are refused, in the order of the file.
    pub refused: Vec<Refusal>,
}

impl Records {
    /// How a call that answers the records ends: `Refused` if any is refused, else `Done`.
    pub fn ending(&self) -> Ending
        ensures { result ≡ ending_of self.now.refused.items }
    {
        if self.refused.is_empty() {
            Ending::Done
        } else {
            Ending::Refused
        }
    }
}

/// Reads all executions of a file, at most `MOST_EXECUTIONS`. The reading goes on after a refused record. The clock finds the
/// versions of the executions.
pub(crate) fn read_executions<R: Read + Drop>(
    alloc: Global,
    roster: &Roster,
    clock: &Clock<'_>,
    source: R,
) -> Result<Records, TradesFault>
    requires { AreOfChanges clock.now.changes clock.now.rising.items }
    ensures on { IfOk result (λ records. All (IsOn roster.now clock.now.changes) records.executions.items) }
    ensures window { IfOk result (λ records. All IsInWindow records.executions.items) }
    ensures numbered { IfOk result (λ records. AreRecordsOf (R.remaining source) records.executions.items records.refused.items) }
    ensures refused { IfErr result (IsReadingFault (R.remaining source)) }
{
    let mut reader = open_records(alloc, source);
    let mut row = open_row(alloc);
    let mut records = Records {
        executions: Vec::new(alloc),
        refused: Vec::new(alloc),
    };
    take_records(&mut reader, &mut row, roster, clock, &mut records)?;
    Ok(records)
}

/// Reads all records of a file, and adds each to the executions or to the refused records.
fn take_records<R: Read>(
    reader: &mut Reader<R>,
    row: &mut ByteRecord,
    roster: &Roster,
    clock: &Clock<'_>,
    records: &mut Records,
) -> Result<(), TradesFault>
    requires times { AreOfChanges clock.now.changes clock.now.rising.items }
    requires on { All (IsOn roster.now clock.now.changes) records.old.executions.items }
    requires window { All IsInWindow records.old.executions.items }
    requires none { AreNumbered 0 records.old.executions.items records.old.refused.items }
    ensures on { All (IsOn roster.now clock.now.changes) records.new.executions.items }
    ensures window { All IsInWindow records.new.executions.items }
    ensures numbered { (bytes : Option (List ℕ)) → ReadsFrom R.remaining reader.old bytes []
        → OnOk result (AreRecordsOf bytes records.new.executions.items records.new.refused.items) }
    ensures refused { (bytes : Option (List ℕ)) → ReadsFrom R.remaining reader.old bytes [] → IfErr result (IsReadingFault bytes) }
{
    for number in 1..MOST_EXECUTIONS + 1 {
        match read_next(reader, row) {
            Ok(true) => take_record(row, roster, clock, number, records)?,
            Ok(false) => return Ok(()),
            Err(fault) => return Err(TradesFault::Executions(fault)),
        }
    }
    match read_next(reader, row) {
        Ok(true) => Err(TradesFault::TooLong),
        Ok(false) => Ok(()),
        Err(fault) => Err(TradesFault::Executions(fault)),
    }
}

/// Adds one record, with its number, to the executions or to the refused records.
fn take_record(
    row: &ByteRecord,
    roster: &Roster,
    clock: &Clock<'_>,
    number: u64,
    records: &mut Records,
) -> Result<(), TradesFault>
    requires times { AreOfChanges clock.now.changes clock.now.rising.items }
    requires on { All (IsOn roster.now clock.now.changes) records.old.executions.items }
    requires window { All IsInWindow records.old.executions.items }
    ensures on { All (IsOn roster.now clock.now.changes) records.new.executions.items }
    ensures window { All IsInWindow records.new.executions.items }
    ensures numbered { (last : ℕ) → number ≡ last + 1 → AreNumbered last records.old.executions.items records.old.refused.items
        → OnOk result (AreNumbered number records.new.executions.items records.new.refused.items) }
    ensures refused { (bytes : Option (List ℕ)) → IfErr result (IsReadingFault bytes) }
{
    match read_execution(row, roster, clock, number) {
        Ok(execution) => match records.executions.push(execution) {
            Ok(()) => Ok(()),
            Err(_) => Err(TradesFault::Executions(RecordFault::NoMemory)),
        },
        Err(fault) => match records.refused.push(Refusal { number, fault }) {
            Ok(()) => Ok(()),
            Err(_) => Err(TradesFault::Executions(RecordFault::NoMemory)),
        },
    }
}
