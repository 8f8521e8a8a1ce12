//! Comparing the rows of a vendor's file, one after another: `specs/Compared`.
ghost use Rattle.std.specs.Prelude.{◌≡◌, ℕ, ◌++◌, List, Option, length, IfOk, OnOk};
ghost use Rattle.csv.specs.Records.{fields_of};
ghost use Rattle.csv.specs.declared.parser.Config.{Config};
ghost use Rattle.nms_lines.specs.Layout.{Record};
ghost use Rattle.nms_import.specs.Rows.{AreAllRows, RowsFrom, unread};
ghost use Rattle.nms_compare.specs.Compared.{counts_of, found_of, rows_in};
ghost use Rattle.nms_compare.specs.Summed.{AreCounted, judged_in, judged_of, summed};

use crate::compare_fault::CompareFault;
use crate::counts::Counts;
use crate::finding::Finding;
use crate::keys::{Keyed, TIMES, key_of};
use crate::national::read_national;
use crate::showing::Shown;
use crate::walk::{Walk, find_on, open_walk, walk_to};
use csv::{ByteRecord, Reader};
use nms_import::{Cause, Columns, Meanings, Order, RowSource, line_of, name_of, next_row};
use nms_quote::Roster;
use std::alloc::Global;
use std::io::{Read, Write};

/// The most rows of a comparison.
pub(crate) const MOST_ROWS: u64 = 1_000_000_000_000;

/// How a vendor's rows are read. The meanings are borrowed from the mapping.
#[derive(Drop)]
pub struct Vendor<'a> {
    /// The columns of a row's best bid, with the bid's venue as the participant.
    pub bids: Columns,
    /// The columns of a row's best offer, with the offer's venue as the participant.
    pub offers: Columns,
    /// The meanings that the mapping gives to the texts of a file.
    pub meanings: &'a Meanings,
    /// The order of the rows, and of the changes.
    pub order: Order,
}

/// Compares the remaining rows of a vendor's file with the best bids and offers of a tape, each on the version at its time.
/// Each row is counted by its finding, and also by its symbol and its hour. The first 100 rows that are not equal are shown, or
/// all of them if the caller asks for all.
///
/// The fault `RowsFall` is returned if a row is before an earlier one, in the vendor's order. After a fault only the rows
/// before the faulty one were shown. The writer is not flushed.
pub fn compare_rows<R: Read, W: Write>(
    alloc: Global,
    vendor: &Vendor<'_>,
    keyed: &Keyed<'_>,
    reader: &mut Reader<RowSource<R>>,
    shown: &mut Shown<'_, W>,
) -> Result<Counts, CompareFault>
    ensures counted { (config : Config) (bytes : Option (List ℕ)) (seen : List Record) → RowsFrom config (unread R.remaining) reader.old bytes seen
        → IfOk result (λ counts. (rows : List Record) × AreAllRows config bytes (seen ++ rows)
        × (counts ≡ counts_of vendor.now keyed.now.tape.now.roster.now keyed.now.tape.now.changes.items keyed.now.keys.items rows) × (rows_in counts ≡ length rows)
        × AreCounted shown.old.sums shown.new.sums
        (judged_in vendor.now keyed.now.tape.now.roster.now keyed.now.tape.now.changes.items keyed.now.keys.items rows)) }
{
    let mut walk = open_walk(alloc, keyed)?;
    let mut row = ByteRecord::new(alloc);
    let mut scratch = Vec::new(alloc);
    let mut counts = Counts::none();
    for done in 0..MOST_ROWS {
        if !next_row(reader, &mut row)? {
            return Ok(counts);
        }
        shown.at(line_of(reader, &row));
        let found = find_row(vendor, &row, &mut scratch, &mut walk, shown)?;
        counts.count(found);
    }
    Err(CompareFault::TooLong)
}

/// The columns by which a refused row is explained. They are those of the offer if the roster has the bid's venue, else those
/// of the bid.
fn columns_refused<'x>(vendor: &'x Vendor<'_>, roster: &Roster, row: &ByteRecord) -> &'x Columns {
    let word = vendor.bids.participant.text(row);
    match name_of(vendor.meanings, word) {
        Some(name) if roster.find_part(name).is_some() => &vendor.offers,
        Some(_) | None => &vendor.bids,
    }
}

/// Compares one row of a vendor's file on the version at its time. Returns its finding, or the cause why it has no national
/// best.
fn find_row<W: Write>(
    vendor: &Vendor<'_>,
    row: &ByteRecord,
    scratch: &mut Vec<u8>,
    walk: &mut Walk<'_>,
    shown: &mut Shown<'_, W>,
) -> Result<Result<Finding, Cause>, CompareFault>
    ensures tape { OnOk result (walk.new.replay.tape ≡ walk.old.replay.tape) }
    ensures keys { OnOk result (walk.new.keys ≡ walk.old.keys) }
    ensures found { IfOk result (λ found. found ≡ found_of vendor.now walk.old.replay.tape.now.roster.now
        walk.old.replay.tape.now.changes.items walk.old.keys.now (fields_of row.now)) }
    ensures sums { OnOk result (shown.new.sums ≡ summed shown.old.sums (judged_of vendor.now walk.old.replay.tape.now.roster.now
        walk.old.replay.tape.now.changes.items walk.old.keys.now (fields_of row.now))) }
{
    let roster = walk.replay.tape.roster;
    let theirs = match read_national(
        &vendor.bids,
        &vendor.offers,
        vendor.meanings,
        roster,
        row,
        scratch,
    )? {
        Ok(theirs) => theirs,
        Err(cause) => {
            let columns = columns_refused(vendor, roster, row);
            shown.show_cause(columns, vendor.meanings, row, cause)?;
            return Ok(Err(cause));
        }
    };
    if theirs.time >= TIMES {
        return Err(CompareFault::RowsFall);
    }
    let key = key_of(vendor.order, theirs.sym.get(), theirs.time);
    if key < walk.key {
        return Err(CompareFault::RowsFall);
    }
    walk_to(walk, key);
    let finding = find_on(walk, &theirs);
    shown.show_finding(roster, &walk.replay.board, &theirs, finding)?;
    Ok(Ok(finding))
}
