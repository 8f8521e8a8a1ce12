//! The rows of a file, imported one after another: `specs/Imported`.
ghost use Rattle.std.specs.Prelude.{◌≡◌, ℕ, ◌++◌, ◌∷◌, ◌+◌, ◌<◌, ◌≤◌, [], List, Option, Some, length, option_map, true, IfOk, OnOk};
ghost use Rattle.std.specs.Io.KnownBytes.{Appends};
ghost use Rattle.csv.specs.Records.{fields_of};
ghost use Rattle.csv.specs.declared.parser.Config.{Config};
ghost use Rattle.nms_quote.specs.Roster.{holds, sizes_of};
ghost use Rattle.nms_lines.specs.Layout.{Record};
ghost use Rattle.nms_lines.specs.Text.{text_of};
ghost use Rattle.nms_change_text.specs.ChangeText.{change_record};
ghost use Rattle.nms_import.specs.Imported.{HasRoom, accepted, changes_given, changes_in, entry_in, given_as, given_at, given_from, given_in, halves_in};
ghost use Rattle.nms_import.specs.Imported.{kept_at, kept_from, kept_left, last_after, last_of, line_of, listed, made_at, made_in, numbered, one_sided, rows_in};
ghost use Rattle.nms_import.specs.Imported.{step_in, times_given};
ghost use Rattle.nms_import.specs.Mapping.{left_by};
ghost use Rattle.nms_import.specs.Noted.{after_entry};
ghost use Rattle.nms_import.specs.Rows.{AreAllRows, RowsFrom, unread};
ghost use Rattle.nms_import.specs.SideRows.{IsKept, Kept, kept_after, kept_in};

use crate::cause::Cause;
use crate::column::{Columns, RowColumns};
use crate::entry::Entry;
use crate::import_fault::ImportFault;
use crate::kept_sides::KeptSides;
use crate::meanings::Meanings;
use crate::noting::Notes;
use crate::row::{left_in, read_row};
use crate::row_source::RowSource;
use crate::rows::{line_of, next_row};
use crate::side_rows::{SideRow, SideStep, side_said, step_of};
use crate::tally::{MOST_ROWS, Tally};
use crate::telling::Told;
use crate::time::append_line;
use csv::{ByteRecord, Reader};
use nms_change_text::append_change;
use nms_lines::write_text;
use nms_quote::Roster;
use std::alloc::Global;
use std::io::{Read, Write};

/// The memory that an import keeps from row to row.
#[derive(Drop)]
pub struct Work {
    /// The present row.
    pub row: ByteRecord,
    /// What each participant shows of each symbol, as rows of one side have said.
    pub kept: KeptSides,
    scratch: Vec<u8>,
    text: Vec<u8>,
}

impl Work {
    ghost use Rattle.std.specs.Prelude.{◌≡◌, []};
    ghost use Rattle.csv.specs.Records.{fields_of};
    ghost use Rattle.nms_import.specs.SideRows.{IsKept, nothing_kept};

    /// Room for a row. It takes no memory before the first row.
    pub fn new(alloc: Global) -> Work
        ensures row { fields_of result.row ≡ [] }
        ensures kept { IsKept result.kept nothing_kept }
    {
        Work {
            row: ByteRecord::new(alloc),
            kept: KeptSides::new(alloc),
            scratch: Vec::new(alloc),
            text: Vec::new(alloc),
        }
    }
}

/// Imports the rows that a reader still has. It writes the changes that they give and their times, in order, and counts every
/// outcome. The counts go on from those of earlier files. If `numbers` is set, each time has the number of its row, from 1 in
/// the first file.
///
/// If each row has one side, `work` keeps what each participant shows of each symbol, and a row gives the quotation of both
/// sides. It takes memory for that once, at the first row.
///
/// A row that makes no change may still give one: a refused row withdraws what its participant showed of its symbol, unless the
/// mapping keeps it.
///
/// After an error a prefix of both texts was written. The writers are not flushed.
pub fn import_rows<R: Read, C: Write, T: Write, E: Write>(
    columns: &RowColumns,
    meanings: &Meanings,
    roster: &Roster,
    numbers: bool,
    work: &mut Work,
    reader: &mut Reader<RowSource<R>>,
    changes: &mut C,
    times: &mut T,
    notes: &mut Notes,
    told: &mut Told<'_, E>,
    tally: &mut Tally,
) -> Result<(), ImportFault>
    ensures written { (config : Config) (bytes : Option (List ℕ)) (seen : List Record) (kept : Kept) → RowsFrom config (unread R.remaining) reader.old bytes seen
        → IsKept work.old.kept kept
        → OnOk result ((rows : List Record) × AreAllRows config bytes (seen ++ rows)
        × Appends (C.contents changes.old) (C.contents changes.new) (changes_given roster.now (given_from columns.now meanings.now roster.now notes.old.time kept (rows_in tally.old) rows))
        × Appends (T.contents times.old) (T.contents times.new) (times_given numbers (given_from columns.now meanings.now roster.now notes.old.time kept (rows_in tally.old) rows))
        × (rows_in tally.new ≡ rows_in tally.old + length rows)
        × (changes_in tally.new ≡ changes_in tally.old + length (accepted columns.now meanings.now roster.now notes.old.time kept rows))
        × (tally.new.halves ≡ tally.old.halves + one_sided columns.now meanings.now roster.now notes.old.time kept rows)
        × (notes.new.time ≡ last_of columns.now meanings.now roster.now notes.old.time kept rows)
        × (notes.new.changes ≡ notes.old.changes + length (given_from columns.now meanings.now roster.now notes.old.time kept (rows_in tally.old) rows))
        × IsKept work.new.kept (kept_from columns.now meanings.now roster.now notes.old.time kept rows)) }
{
    make_room(meanings, roster, &mut work.kept)?;
    let Some(sums) = tally.sums() else {
        return Err(ImportFault::TooLong);
    };
    for done in sums.rows..MOST_ROWS {
        if !next_row(reader, &mut work.row)? {
            return Ok(());
        }
        told.at(line_of(reader, &work.row));
        let own = columns.of_row(meanings, &work.row);
        import_row(
            own,
            meanings,
            roster,
            numbers,
            done + 1,
            work,
            changes,
            times,
            notes,
            told,
            tally,
        )?;
    }
    Err(ImportFault::TooLong)
}

/// Makes room for what is shown of a roster's symbols, if each row has one side.
fn make_room(meanings: &Meanings, roster: &Roster, kept: &mut KeptSides) -> Result<(), ImportFault>
    ensures room { OnOk result (HasRoom meanings.now roster.now kept.new) }
    ensures kept { OnOk result ((part sym : ℕ) → kept_in kept.new.all part sym ≡ kept_in kept.old.all part sym) }
{
    if meanings.sides.is_some() {
        kept.make_room(roster.syms())?;
    }
    Ok(())
}

/// Imports the present row by its columns. `number` is its number among the rows of all files, counted from 1.
fn import_row<C: Write, T: Write, E: Write>(
    columns: &Columns,
    meanings: &Meanings,
    roster: &Roster,
    numbers: bool,
    number: u64,
    work: &mut Work,
    changes: &mut C,
    times: &mut T,
    notes: &mut Notes,
    told: &mut Told<'_, E>,
    tally: &mut Tally,
) -> Result<(), ImportFault>
    requires few { rows_in tally.old < 1000000000000 }
    requires number { number ≡ rows_in tally.old + 1 }
    requires room { HasRoom meanings.now roster.now work.old.kept }
    ensures changes { OnOk result (Appends (C.contents changes.old) (C.contents changes.new)
        (changes_given roster.now (numbered number (given_at columns.now meanings.now roster.now notes.old.time (kept_in work.old.kept.all) (fields_of work.old.row))))) }
    ensures times { OnOk result (Appends (T.contents times.old) (T.contents times.new)
        (times_given numbers (numbered number (given_at columns.now meanings.now roster.now notes.old.time (kept_in work.old.kept.all) (fields_of work.old.row))))) }
    ensures rows { OnOk result (rows_in tally.new ≡ rows_in tally.old + 1) }
    ensures counted { OnOk result (changes_in tally.new
        ≡ changes_in tally.old + length (listed (made_at columns.now meanings.now roster.now (kept_in work.old.kept.all) (fields_of work.old.row)))) }
    ensures halves { OnOk result (tally.new.halves
        ≡ tally.old.halves + halves_in (listed (made_at columns.now meanings.now roster.now (kept_in work.old.kept.all) (fields_of work.old.row)))) }
    ensures last { OnOk result (notes.new.time
        ≡ last_after notes.old.time (given_at columns.now meanings.now roster.now notes.old.time (kept_in work.old.kept.all) (fields_of work.old.row))) }
    ensures noted { OnOk result (notes.new.changes
        ≡ notes.old.changes + length (numbered number (given_at columns.now meanings.now roster.now notes.old.time (kept_in work.old.kept.all) (fields_of work.old.row)))) }
    ensures kept { OnOk result (IsKept work.new.kept
        (kept_at columns.now meanings.now roster.now notes.old.time (kept_in work.old.kept.all) (fields_of work.old.row))) }
    ensures room { OnOk result (work.new.kept.symbols ≡ work.old.kept.symbols) }
{
    match read_row(columns, meanings, roster, &work.row, &mut work.scratch)? {
        Ok(entry) => match side_said(columns, meanings, &work.row, &entry) {
            None => {
                tally.count_change(entry.one_sided);
                give_entry(
                    columns, roster, &entry, numbers, number, work, changes, times, notes, told,
                )
            }
            Some(row) => import_side(
                columns, meanings, roster, &row, numbers, number, work, changes, times, notes,
                told, tally,
            ),
        },
        Err(cause) => {
            tally.count_cause(cause);
            told.tell(columns, &work.row, cause);
            note_cause(cause, &work.row, number, notes);
            give_left(
                columns, meanings, roster, cause, numbers, number, work, changes, times, notes,
                told,
            )
        }
    }
}

/// Imports the present row, which has one side.
fn import_side<C: Write, T: Write, E: Write>(
    columns: &Columns,
    meanings: &Meanings,
    roster: &Roster,
    row: &SideRow,
    numbers: bool,
    number: u64,
    work: &mut Work,
    changes: &mut C,
    times: &mut T,
    notes: &mut Notes,
    told: &mut Told<'_, E>,
    tally: &mut Tally,
) -> Result<(), ImportFault>
    requires few { rows_in tally.old < 1000000000000 }
    requires room { row.now.sym < work.old.kept.symbols }
    ensures changes { OnOk result (Appends (C.contents changes.old) (C.contents changes.new)
        (changes_given roster.now (numbered number (given_as row.now (step_in meanings.now (kept_in work.old.kept.all) row.now))))) }
    ensures times { OnOk result (Appends (T.contents times.old) (T.contents times.new)
        (times_given numbers (numbered number (given_as row.now (step_in meanings.now (kept_in work.old.kept.all) row.now))))) }
    ensures rows { OnOk result (rows_in tally.new ≡ rows_in tally.old + 1) }
    ensures counted { OnOk result (changes_in tally.new
        ≡ changes_in tally.old + length (listed (made_in meanings.now (kept_in work.old.kept.all) row.now))) }
    ensures halves { OnOk result (tally.new.halves
        ≡ tally.old.halves + halves_in (listed (made_in meanings.now (kept_in work.old.kept.all) row.now))) }
    ensures last { OnOk result (notes.new.time
        ≡ last_after notes.old.time (given_as row.now (step_in meanings.now (kept_in work.old.kept.all) row.now))) }
    ensures noted { OnOk result (notes.new.changes
        ≡ notes.old.changes + length (numbered number (given_as row.now (step_in meanings.now (kept_in work.old.kept.all) row.now)))) }
    ensures kept { OnOk result (IsKept work.new.kept
        (kept_after meanings.now.half meanings.now.withdraws (kept_in work.old.kept.all) row.now)) }
    ensures room { OnOk result (work.new.kept.symbols ≡ work.old.kept.symbols) }
{
    let shown = work.kept.get(row.part, row.sym);
    let step = step_of(meanings.half, meanings.withdraws, &shown, row);
    work.kept.put(row.part, row.sym, step.sides);
    count_step(columns, &step.made, &work.row, told, tally);
    match given_in(&step) {
        Some(entry) => give_entry(
            columns, roster, entry, numbers, number, work, changes, times, notes, told,
        ),
        None => Ok(()),
    }
}

/// The change that a row of one side gives: its own, or the withdrawal that it leaves.
fn given_in(step: &SideStep) -> Option<&Entry>
    ensures { option_map (λ entry. entry.now) result ≡ given_in step.now.made step.now.left }
{
    match &step.made {
        Ok(entry) => Some(entry),
        Err(_) => step.left.as_ref(),
    }
}

/// Counts a row of one side. It is shown if it was refused.
fn count_step<E: Write>(
    columns: &Columns,
    made: &Result<Entry, Cause>,
    row: &ByteRecord,
    told: &mut Told<'_, E>,
    tally: &mut Tally,
)
    requires few { rows_in tally.old < 1000000000000 }
    ensures rows { rows_in tally.new ≡ rows_in tally.old + 1 }
    ensures counted { changes_in tally.new ≡ changes_in tally.old + length (listed (entry_in made.now)) }
    ensures halves { tally.new.halves ≡ tally.old.halves + halves_in (listed (entry_in made.now)) }
{
    match made {
        Ok(entry) => tally.count_change(entry.one_sided),
        Err(cause) => {
            tally.count_cause(*cause);
            told.tell(columns, row, *cause);
        }
    }
}

/// Notes the last line of a file, if a row makes no change because it is one. `number` is its number among the rows of all
/// files, from 1.
pub fn note_cause(cause: Cause, row: &ByteRecord, number: u64, notes: &mut Notes)
    ensures time { notes.new.time ≡ notes.old.time }
    ensures changes { notes.new.changes ≡ notes.old.changes }
{
    if cause == Cause::Trailer {
        notes.note_last(row, number);
    }
}

/// Writes and notes the withdrawal that the present row leaves, if it leaves one. The row itself makes no change.
fn give_left<C: Write, T: Write, E: Write>(
    columns: &Columns,
    meanings: &Meanings,
    roster: &Roster,
    cause: Cause,
    numbers: bool,
    number: u64,
    work: &mut Work,
    changes: &mut C,
    times: &mut T,
    notes: &mut Notes,
    told: &mut Told<'_, E>,
) -> Result<(), ImportFault>
    requires room { HasRoom meanings.now roster.now work.old.kept }
    ensures changes { OnOk result (Appends (C.contents changes.old) (C.contents changes.new)
        (changes_given roster.now (numbered number (left_by columns.now meanings.now roster.now notes.old.time (fields_of work.old.row) cause)))) }
    ensures times { OnOk result (Appends (T.contents times.old) (T.contents times.new)
        (times_given numbers (numbered number (left_by columns.now meanings.now roster.now notes.old.time (fields_of work.old.row) cause)))) }
    ensures last { OnOk result (notes.new.time ≡ last_after notes.old.time (left_by columns.now meanings.now roster.now notes.old.time (fields_of work.old.row) cause)) }
    ensures noted { OnOk result (notes.new.changes
        ≡ notes.old.changes + length (numbered number (left_by columns.now meanings.now roster.now notes.old.time (fields_of work.old.row) cause))) }
    ensures kept { OnOk result (IsKept work.new.kept (kept_left meanings.now.sides (kept_in work.old.kept.all)
        (left_by columns.now meanings.now roster.now notes.old.time (fields_of work.old.row) cause))) }
    ensures room { OnOk result (work.new.kept.symbols ≡ work.old.kept.symbols) }
{
    let last = notes.time();
    match left_in(
        columns,
        meanings,
        roster,
        &work.row,
        cause,
        last,
        &mut work.scratch,
    )? {
        Some(entry) => {
            withdraw_kept(meanings, roster, &entry, &mut work.kept);
            give_entry(
                columns, roster, &entry, numbers, number, work, changes, times, notes, told,
            )
        }
        None => Ok(()),
    }
}

/// Lets the participant of a withdrawal show nothing of its symbol, if each row has one side.
fn withdraw_kept(meanings: &Meanings, roster: &Roster, entry: &Entry, kept: &mut KeptSides)
    requires room { HasRoom meanings.now roster.now kept.old }
    requires there { holds (sizes_of roster.now) entry.now.change ≡ true }
    ensures kept { IsKept kept.new (kept_left meanings.now.sides (kept_in kept.old.all) (Some entry.now)) }
    ensures room { kept.new.symbols ≡ kept.old.symbols }
{
    match &meanings.sides {
        Some(_) => kept.withdraw(&entry.change),
        None => {}
    }
}

/// Writes and notes a change that the present row gives.
fn give_entry<C: Write, T: Write, E: Write>(
    columns: &Columns,
    roster: &Roster,
    entry: &Entry,
    numbers: bool,
    number: u64,
    work: &mut Work,
    changes: &mut C,
    times: &mut T,
    notes: &mut Notes,
    told: &mut Told<'_, E>,
) -> Result<(), ImportFault>
    ensures changes { OnOk result (Appends (C.contents changes.old) (C.contents changes.new) (changes_given roster.now (numbered number (Some entry.now)))) }
    ensures times { OnOk result (Appends (T.contents times.old) (T.contents times.new) (times_given numbers (numbered number (Some entry.now)))) }
    ensures last { OnOk result (notes.new.time ≡ entry.now.time) }
    ensures noted { OnOk result (notes.new.changes ≡ notes.old.changes + 1) }
    ensures kept { OnOk result (work.new.kept ≡ work.old.kept) }
{
    write_entry(
        roster,
        entry,
        numbers,
        number,
        &mut work.text,
        changes,
        times,
    )?;
    note_entry(columns, roster, entry, &work.row, notes, told)
}

/// Notes a change. Its row is shown if its time is the first that is before an earlier one.
fn note_entry<E: Write>(
    columns: &Columns,
    roster: &Roster,
    entry: &Entry,
    row: &ByteRecord,
    notes: &mut Notes,
    told: &mut Told<'_, E>,
) -> Result<(), ImportFault>
    ensures { OnOk result (notes.new ≡ after_entry roster.now notes.old entry.now) }
{
    if notes.note(roster, entry)? {
        told.tell_fall(columns, row);
    }
    Ok(())
}

/// Writes a change and its time. `text` is room that a caller keeps from row to row.
pub fn write_entry<C: Write, T: Write>(
    roster: &Roster,
    entry: &Entry,
    numbers: bool,
    number: u64,
    text: &mut Vec<u8>,
    changes: &mut C,
    times: &mut T,
) -> Result<(), ImportFault>
    ensures changes { OnOk result (Appends (C.contents changes.old) (C.contents changes.new) (text_of (change_record roster.now entry.now.change ∷ []))) }
    ensures times { OnOk result (Appends (T.contents times.old) (T.contents times.new) (line_of numbers number entry.now.time)) }
{
    text.clear();
    append_change(text, roster, &entry.change)?;
    give(changes, text)?;
    text.clear();
    append_line(text, numbers, number, entry.time)?;
    give(times, text)
}

/// Gives a writer a text. `WriteFault` comes if the writer fails.
pub fn give<W: Write>(writer: &mut W, text: &[u8]) -> Result<(), ImportFault>
    ensures { OnOk result (Appends (W.contents writer.old) (W.contents writer.new) text.now) }
{
    match write_text(writer, text) {
        Ok(()) => Ok(()),
        Err(_) => Err(ImportFault::WriteFault),
    }
}
