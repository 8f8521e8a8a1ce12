//! Importing the rows of a market, one after another, until the shard is full.
ghost use Rattle.std.specs.Prelude.{◌≡◌, ℕ, ◌<◌, ◌≤◌, ◌+◌, ◌++◌, ◌∷◌, [], List, Option, length, true, false, Ok, OnOk, IfOk, if◌then◌else◌};
ghost use Rattle.csv.specs.declared.parser.Config.{Config};
ghost use Rattle.nms_lines.specs.Layout.{Record};
ghost use Rattle.nms_import.specs.Imported.{changes_in, rows_in};
ghost use Rattle.nms_import.specs.Rows.{AreAllRows, RowsFrom, unread};
ghost use Rattle.nms_opening.specs.declared.TheConstants.{MOST_OPENING};
ghost use Rattle.nms_shards.specs.Shard.{AreRead, waiting, waiting_after};

use crate::cutting::{Cutting, Said};
use csv::{ByteRecord, Reader};
use nms_change_text::append_changes;
use nms_import::{
    Cause, Columns, Entry, ImportFault, MOST_ROWS, Meanings, Notes, RowColumns, RowSource, Tally,
    Told, append_line, give, line_of, next_row, note_cause, write_entry,
};
use nms_quote::{Change, Roster};
use std::alloc::AllocError;
use std::io::{Read, Write};

/// Why an import of a market's rows stops.
#[derive(Clone, Copy, PartialEq, Eq)]
pub enum Shard {
    /// The file has no more rows. The shard goes on with the next file.
    GoesOn,
    /// The shard is full. The current row waits for the next shard.
    Full,
}

/// Imports the rows that a reader still has until the shard is full. If `waits` is set, the current row comes first. Changes
/// are written with their times, in order, and every outcome is counted. As in a plain import, a row of one side gives the
/// quotation of both, and a refused row withdraws what its participant showed, unless the mapping keeps it.
///
/// After an error a prefix of both texts was written. The writers are not flushed.
pub fn import_shard<R: Read, C: Write, T: Write, E: Write>(
    columns: &RowColumns,
    meanings: &Meanings,
    lent: &Roster,
    numbers: bool,
    waits: bool,
    cutting: &mut Cutting,
    row: &mut ByteRecord,
    text: &mut Vec<u8>,
    reader: &mut Reader<RowSource<R>>,
    changes: &mut C,
    times: &mut T,
    notes: &mut Notes,
    told: &mut Told<'_, E>,
    tally: &mut Tally,
) -> Result<Shard, ImportFault>
    ensures rows { (config : Config) (bytes : Option (List ℕ)) (seen : List Record) → RowsFrom config (unread R.remaining) reader.old bytes seen
        → IfOk result (λ shard. (rows : List Record) × AreRead config (unread R.remaining) reader.new bytes (seen ++ rows) shard
        × (rows_in tally.new + waiting_after shard ≡ rows_in tally.old + waiting waits + length rows)) }
    ensures changes { OnOk result (notes.new.changes + cutting.old.changes ≡ notes.old.changes + cutting.new.changes) }
    ensures own { OnOk result (changes_in tally.new + cutting.old.changes ≤ changes_in tally.old + cutting.new.changes) }
    ensures opened { OnOk result (cutting.new.opened ≡ cutting.old.opened) }
    ensures limit { OnOk result (cutting.new.limit ≡ cutting.old.limit) }
{
    let Some(sums) = tally.sums() else {
        return Err(ImportFault::TooLong);
    };
    let mut at_hand = waits;
    for done in sums.rows..MOST_ROWS {
        if !fetch_row(at_hand, reader, row)? {
            return Ok(Shard::GoesOn);
        }
        told.at(line_of(reader, row));
        at_hand = false;
        let is_taken = import_row(
            columns,
            meanings,
            lent,
            numbers,
            done + 1,
            cutting,
            row,
            text,
            changes,
            times,
            notes,
            told,
            tally,
        )?;
        if !is_taken {
            return Ok(Shard::Full);
        }
    }
    Err(ImportFault::TooLong)
}

/// Reads the next row, unless a row waits from the shard before. Returns whether there is a row.
fn fetch_row<R: Read>(
    at_hand: bool,
    reader: &mut Reader<RowSource<R>>,
    row: &mut ByteRecord,
) -> Result<bool, ImportFault>
    ensures found { (config : Config) (bytes : Option (List ℕ)) (seen : List Record)
        → RowsFrom config (unread R.remaining) reader.old bytes seen → result ≡ Ok true
        → (rows : List Record) × RowsFrom config (unread R.remaining) reader.new bytes (seen ++ rows) × (length rows + waiting at_hand ≡ 1) }
    ensures end { (config : Config) (bytes : Option (List ℕ)) (seen : List Record)
        → RowsFrom config (unread R.remaining) reader.old bytes seen → result ≡ Ok false
        → AreAllRows config bytes seen × (waiting at_hand ≡ 0) }
{
    if at_hand {
        return Ok(true);
    }
    next_row(reader, row)
}

/// Imports the current row. `number` is its number among the rows of all files, counted from 1. Returns whether the shard took
/// the row.
fn import_row<C: Write, T: Write, E: Write>(
    columns: &RowColumns,
    meanings: &Meanings,
    lent: &Roster,
    numbers: bool,
    number: u64,
    cutting: &mut Cutting,
    row: &ByteRecord,
    text: &mut Vec<u8>,
    changes: &mut C,
    times: &mut T,
    notes: &mut Notes,
    told: &mut Told<'_, E>,
    tally: &mut Tally,
) -> Result<bool, ImportFault>
    requires few { rows_in tally.old < 1000000000000 }
    ensures rows { IfOk result (λ taken. rows_in tally.new ≡ rows_in tally.old + (if taken then 1 else 0)) }
    ensures changes { OnOk result (notes.new.changes + cutting.old.changes ≡ notes.old.changes + cutting.new.changes) }
    ensures own { OnOk result (changes_in tally.new + cutting.old.changes ≤ changes_in tally.old + cutting.new.changes) }
    ensures opened { OnOk result (cutting.new.opened ≡ cutting.old.opened) }
    ensures limit { OnOk result (cutting.new.limit ≡ cutting.old.limit) }
{
    let columns = columns.of_row(meanings, row);
    match cutting.read(columns, meanings, lent, row)? {
        Said::Nothing(cause) => {
            tally.count_cause(cause);
            tell_cause(columns, row, cause, told);
            note_cause(cause, row, number, notes);
            Ok(true)
        }
        Said::Returned => {
            tally.count_returned();
            told.tell_returned(columns, row);
            Ok(true)
        }
        Said::Begins(entry, cause) => {
            if !cutting.takes_symbol() {
                cutting.split(None);
                return Ok(false);
            }
            cutting.begin_symbol(lent)?;
            notes.begin_symbol();
            import_entry(
                columns, numbers, number, &entry, cause, cutting, row, text, changes, times, notes,
                told, tally,
            )?;
            Ok(true)
        }
        Said::More(entry, cause) => {
            if !cutting.has_room(&entry.change) {
                cutting.split(Some(entry.time));
                return Ok(false);
            }
            import_entry(
                columns, numbers, number, &entry, cause, cutting, row, text, changes, times, notes,
                told, tally,
            )?;
            Ok(true)
        }
    }
}

/// Shows a row that makes no change. A market has no roster of symbols, so only the form of a symbol can be wrong.
fn tell_cause<E: Write>(columns: &Columns, row: &ByteRecord, cause: Cause, told: &mut Told<'_, E>) {
    match cause {
        Cause::UnknownSymbol | Cause::OtherSymbol => told.tell_unformed(columns, row, cause),
        Cause::TooFewColumns
        | Cause::BadTime
        | Cause::UnknownParticipant
        | Cause::UnknownCondition
        | Cause::OneSided(_)
        | Cause::UnknownSide
        | Cause::BadPrice(_)
        | Cause::BadSize(_)
        | Cause::HalfSide(_)
        | Cause::Trailer
        | Cause::Listed => told.tell(columns, row, cause),
    }
}

/// Writes the change that a row gives for the current symbol, and counts it. If the row was refused, `cause` says why, and its
/// change is a withdrawal.
fn import_entry<C: Write, T: Write, E: Write>(
    columns: &Columns,
    numbers: bool,
    number: u64,
    entry: &Entry,
    cause: Option<Cause>,
    cutting: &mut Cutting,
    row: &ByteRecord,
    text: &mut Vec<u8>,
    changes: &mut C,
    times: &mut T,
    notes: &mut Notes,
    told: &mut Told<'_, E>,
    tally: &mut Tally,
) -> Result<(), ImportFault>
    requires few { rows_in tally.old < 1000000000000 }
    requires room { cutting.old.changes < cutting.old.limit }
    ensures rows { OnOk result (rows_in tally.new ≡ rows_in tally.old + 1) }
    ensures changes { OnOk result (changes_in tally.new ≤ changes_in tally.old + 1) }
    ensures noted { OnOk result (notes.new.changes ≡ notes.old.changes + 1) }
    ensures shard { OnOk result (cutting.new.changes ≡ cutting.old.changes + 1) }
    ensures opened { OnOk result (cutting.new.opened ≡ cutting.old.opened) }
    ensures limit { OnOk result (cutting.new.limit ≡ cutting.old.limit) }
{
    count_row(columns, entry, cause, row, told, tally);
    write_entry(cutting.own(), entry, numbers, number, text, changes, times)?;
    cutting.count(number, entry);
    if notes.note(cutting.own(), entry)? {
        told.tell_fall(columns, row);
    }
    Ok(())
}

/// Counts a row that gives a change, which is a withdrawal if the row was refused.
fn count_row<E: Write>(
    columns: &Columns,
    entry: &Entry,
    cause: Option<Cause>,
    row: &ByteRecord,
    told: &mut Told<'_, E>,
    tally: &mut Tally,
)
    requires few { rows_in tally.old < 1000000000000 }
    ensures rows { rows_in tally.new ≡ rows_in tally.old + 1 }
    ensures changes { changes_in tally.new ≤ changes_in tally.old + 1 }
{
    match cause {
        None => tally.count_change(entry.one_sided),
        Some(cause) => {
            tally.count_cause(cause);
            told.tell(columns, row, cause);
        }
    }
}

/// Begins the next shard. If it goes on with a symbol, that symbol's opening changes come first, all at the time of the last
/// change before the cut. Returns the number of opening changes.
pub fn begin_shard<C: Write, T: Write>(
    lent: &Roster,
    numbers: bool,
    cutting: &mut Cutting,
    text: &mut Vec<u8>,
    changes: &mut C,
    times: &mut T,
) -> Result<u64, ImportFault>
    ensures changes { IfOk result (λ count. cutting.new.changes ≡ count) }
    ensures opened { IfOk result (λ count. cutting.new.opened ≡ count) }
    ensures few { IfOk result (λ count. count ≤ MOST_OPENING) }
    ensures limit { OnOk result (cutting.new.limit ≡ cutting.old.limit) }
{
    match cutting.begin_shard(lent)? {
        Some(opening) => {
            write_opening(numbers, cutting, opening.as_slice(), text, changes, times)?;
            Ok(opening.as_slice().len() as u64)
        }
        None => Ok(0),
    }
}

/// Writes the opening changes of a shard. For each of them it writes a line with the time of the last change before the cut.
fn write_opening<C: Write, T: Write>(
    numbers: bool,
    cutting: &Cutting,
    opening: &[Change],
    text: &mut Vec<u8>,
    changes: &mut C,
    times: &mut T,
) -> Result<(), ImportFault> {
    text.clear();
    append_changes(text, cutting.own(), opening)?;
    give(changes, text)?;
    text.clear();
    let (number, time) = cutting.last_change();
    append_lines(text, numbers, number, time, opening.len())?;
    give(times, text)
}

/// Appends the line of one time of day, repeated n times.
fn append_lines(
    text: &mut Vec<u8>,
    numbers: bool,
    number: u64,
    time: u64,
    count: usize,
) -> Result<(), AllocError> {
    for _ in 0..count {
        append_line(text, numbers, number, time)?;
    }
    Ok(())
}
