//! The symbols of a vendor's rows that a setup lacks, added to its roster: `specs/Added`.
ghost use Rattle.std.specs.Prelude.{OnOk};
ghost use Rattle.nms_shards.specs.Added.{Grown};

use crate::rosters::{add_participants, usual_lot};
use csv::{ByteRecord, Reader};
use nms_import::{
    Cause, Columns, ImportFault, MOST_ROWS, Meanings, RowColumns, RowSource, next_row, read_row,
};
use nms_quote::{Change, Roster, RosterFault, SideQuote, Sym, is_symbol_name};
use std::alloc::Global;
use std::io::Read;

/// A roster with the participants and the symbols of another one.
pub fn roster_of(alloc: Global, lent: &Roster) -> Result<Roster, ImportFault> {
    let Ok(mut roster) = Roster::new(alloc) else {
        return Err(ImportFault::NoMemory);
    };
    match add_whole(&mut roster, lent) {
        Ok(()) => Ok(roster),
        Err(_) => Err(ImportFault::NoMemory),
    }
}

/// Adds the participants and the symbols of another roster, in its order.
fn add_whole(roster: &mut Roster, lent: &Roster) -> Result<(), RosterFault> {
    add_participants(roster, lent)?;
    for place in 0..lent.syms() as u16 {
        let sym = Sym::new(place).unwrap();
        let _ = roster.add_symbol(lent.sym_name(sym).as_bytes(), lent.lot_of(sym))?;
    }
    Ok(())
}

/// Adds the symbols that a roster lacks, from the rows that a reader still has, in the order of the rows. A symbol is added if
/// its row is refused or skipped because the roster lacks the symbol, while the roster has room. Each added symbol has a round
/// lot of 100 shares. Returns whether the roster took all of them.
#[tactic(auto, using(crate::proofs::AddedFacts::grown_none, crate::proofs::AddedFacts::grown_more))]
pub fn add_symbols<R: Read>(
    alloc: Global,
    columns: &RowColumns,
    meanings: &Meanings,
    roster: &mut Roster,
    reader: &mut Reader<RowSource<R>>,
) -> Result<bool, ImportFault>
    ensures { OnOk result (Grown roster.old roster.new) }
{
    let mut row = ByteRecord::new(alloc);
    let mut name = Vec::new(alloc);
    let mut took_all = true;
    for done in 0..MOST_ROWS {
        if !next_row(reader, &mut row)? {
            return Ok(took_all);
        }
        let own = columns.of_row(meanings, &row);
        let took = add_of(own, meanings, roster, &row, &mut name)?;
        took_all = took && took_all;
    }
    Err(ImportFault::TooLong)
}

/// Adds the symbol of a row, if the roster lacks it. Returns false only if the roster has no room for it. `name` is room that a
/// caller keeps from row to row.
#[tactic(auto, using(crate::proofs::AddedFacts::grown_none))]
fn add_of(
    columns: &Columns,
    meanings: &Meanings,
    roster: &mut Roster,
    row: &ByteRecord,
    name: &mut Vec<u8>,
) -> Result<bool, ImportFault>
    ensures { OnOk result (Grown roster.old roster.new) }
{
    // The prover has to see the types of a change and its sides before they move, so the code mentions them.
    let _change: Option<Change> = None;
    let _side: Option<SideQuote> = None;
    let is_lacking = match read_row(columns, meanings, roster, row, name)? {
        Ok(_) => false,
        Err(cause) => matches!(cause, Cause::UnknownSymbol | Cause::OtherSymbol),
    };
    if is_lacking && is_symbol_name(name) {
        add_symbol(roster, name)
    } else {
        Ok(true)
    }
}

/// Adds a symbol with a round lot of 100 shares to a roster, and returns whether there was room.
#[tactic(auto, using(crate::proofs::AddedFacts::grown_none, crate::proofs::AddedFacts::grown_one))]
fn add_symbol(roster: &mut Roster, name: &[u8]) -> Result<bool, ImportFault>
    ensures { OnOk result (Grown roster.old roster.new) }
{
    match roster.add_symbol(name, usual_lot()) {
        Ok(_) => Ok(true),
        Err(RosterFault::NoMemory) => Err(ImportFault::NoMemory),
        Err(_) => Ok(false),
    }
}
