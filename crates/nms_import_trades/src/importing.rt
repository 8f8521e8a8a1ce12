//! Importing the rows of a file of trades, one after another: `specs/Executions`.
ghost use Rattle.std.specs.Prelude.{◌≡◌, ℕ, ◌++◌, ◌∷◌, ◌+◌, ◌<◌, [], List, Option, length, OnOk};
ghost use Rattle.std.specs.Io.KnownBytes.{Appends};
ghost use Rattle.csv.specs.Records.{fields_of};
ghost use Rattle.csv.specs.declared.parser.Config.{Config};
ghost use Rattle.nms_lines.specs.Layout.{Record};
ghost use Rattle.nms_lines.specs.Text.{text_of};
ghost use Rattle.nms_import.specs.Rows.{AreAllRows, RowsFrom, unread};
ghost use Rattle.nms_import_trades.specs.Executions.{day_from, execution_record, executions_text, records_from, rows_in};
ghost use Rattle.nms_import_trades.specs.TradeRow.{day_after, made_on};

use crate::execution_writing::append_execution;
use crate::trade::Trade;
use crate::trade_cause::TradeCause;
use crate::trade_columns::TradeColumns;
use crate::trade_meanings::TradeMeanings;
use crate::trade_row::{first_of, only_on, read_trade};
use crate::trade_tally::TradeTally;
use crate::trade_telling::TradeTold;
use csv::{ByteRecord, Reader};
use nms_import::{ImportFault, LastLines, MOST_ROWS, RowSource, line_of, next_row};
use nms_lines::write_text;
use nms_quote::Roster;
use std::alloc::Global;
use std::io::{Read, Write};

/// The memory that an import of trades keeps from row to row.
#[derive(Drop)]
pub struct TradeWork {
    /// The present row.
    pub row: ByteRecord,
    /// What is known about the last lines of files.
    pub lasts: LastLines,
    /// The day of the first execution, if it has a date. A row of another day is refused.
    pub day: Option<u64>,
    scratch: Vec<u8>,
    flags: Vec<u8>,
    text: Vec<u8>,
}

impl TradeWork {
    ghost use Rattle.std.specs.Prelude.{◌≡◌, [], None};
    ghost use Rattle.csv.specs.Records.{fields_of};

    /// Room for a row. It takes no memory before the first row. `count` is the place of the count in the last line of a file,
    /// counted from 0.
    pub fn new(alloc: Global, count: Option<u16>) -> TradeWork
        ensures row { fields_of result.row ≡ [] }
        ensures day { result.day ≡ None }
    {
        TradeWork {
            row: ByteRecord::new(alloc),
            lasts: LastLines::new(count),
            day: None,
            scratch: Vec::new(alloc),
            flags: Vec::new(alloc),
            text: Vec::new(alloc),
        }
    }
}

/// Imports the rows of trades that a reader still has. It writes the records of the executions that they make, in order, and
/// counts every outcome. The counts, and the numbers of the rows, go on from those of earlier files. All executions are of the
/// day of the first one: if rows have dates, those of another day are refused.
///
/// After an error a prefix of the text was written. The writer is not flushed.
pub fn import_trades<R: Read, W: Write, E: Write>(
    columns: &TradeColumns,
    meanings: &TradeMeanings,
    roster: &Roster,
    work: &mut TradeWork,
    reader: &mut Reader<RowSource<R>>,
    executions: &mut W,
    told: &mut TradeTold<'_, E>,
    tally: &mut TradeTally,
) -> Result<(), ImportFault>
    ensures written { (config : Config) (bytes : Option (List ℕ)) (seen : List Record) → RowsFrom config (unread R.remaining) reader.old bytes seen
        → OnOk result ((rows : List Record) × AreAllRows config bytes (seen ++ rows)
        × Appends (W.contents executions.old) (W.contents executions.new) (executions_text columns.now meanings.now roster.now work.old.day (rows_in tally.old + 1) rows)
        × (rows_in tally.new ≡ rows_in tally.old + length rows)
        × (tally.new.executions ≡ tally.old.executions + length (records_from columns.now meanings.now roster.now work.old.day (rows_in tally.old + 1) rows))
        × (work.new.day ≡ day_from columns.now meanings.now roster.now work.old.day rows)) }
{
    let Some(sums) = tally.sums() else {
        return Err(ImportFault::TooLong);
    };
    for done in sums.rows..MOST_ROWS {
        if !next_row(reader, &mut work.row)? {
            return Ok(());
        }
        told.at(line_of(reader, &work.row));
        import_trade(
            columns,
            meanings,
            roster,
            done + 1,
            work,
            executions,
            told,
            tally,
        )?;
    }
    Err(ImportFault::TooLong)
}

/// Imports the present row. `number` is its number among the rows of all files, counted from 1.
fn import_trade<W: Write, E: Write>(
    columns: &TradeColumns,
    meanings: &TradeMeanings,
    roster: &Roster,
    number: u64,
    work: &mut TradeWork,
    executions: &mut W,
    told: &mut TradeTold<'_, E>,
    tally: &mut TradeTally,
) -> Result<(), ImportFault>
    requires few { rows_in tally.old < 1000000000000 }
    ensures executions { OnOk result (Appends (W.contents executions.old) (W.contents executions.new)
        (executions_text columns.now meanings.now roster.now work.old.day number (fields_of work.old.row ∷ []))) }
    ensures rows { OnOk result (rows_in tally.new ≡ rows_in tally.old + 1) }
    ensures counted { OnOk result (tally.new.executions
        ≡ tally.old.executions + length (records_from columns.now meanings.now roster.now work.old.day number (fields_of work.old.row ∷ []))) }
    ensures day { OnOk result (work.new.day
        ≡ day_after work.old.day (made_on work.old.day columns.now meanings.now roster.now (fields_of work.old.row))) }
{
    let made = read_trade(columns, meanings, roster, &work.row, &mut work.scratch)?;
    match only_on(work.day, made) {
        Ok(trade) => {
            tally.count_execution();
            work.day = first_of(work.day, trade.day);
            write_trade(columns, meanings, roster, number, &trade, work, executions)
        }
        Err(cause) => {
            tally.count_cause(cause);
            told.tell(columns, &work.row, cause);
            if matches!(cause, TradeCause::Trailer) {
                work.lasts.note(&work.row, number);
            }
            Ok(())
        }
    }
}

/// Writes the record of an execution that the present row makes.
fn write_trade<W: Write>(
    columns: &TradeColumns,
    meanings: &TradeMeanings,
    roster: &Roster,
    number: u64,
    trade: &Trade,
    work: &mut TradeWork,
    executions: &mut W,
) -> Result<(), ImportFault>
    ensures record { OnOk result (Appends (W.contents executions.old) (W.contents executions.new)
        (text_of (execution_record columns.now meanings.now roster.now number (fields_of work.old.row) trade.now ∷ []))) }
    ensures day { work.new.day ≡ work.old.day }
{
    work.text.clear();
    append_execution(
        &mut work.text,
        columns,
        meanings,
        roster,
        number,
        &work.row,
        trade,
        &mut work.flags,
    )?;
    match write_text(executions, &work.text) {
        Ok(()) => Ok(()),
        Err(_) => Err(ImportFault::WriteFault),
    }
}
