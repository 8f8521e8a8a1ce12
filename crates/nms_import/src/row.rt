//! The change that a row of quotes makes: `specs/Mapping`.
ghost use Rattle.std.specs.Prelude.{◌≡◌, ◌<◌, true, length, map, IfOk, IfSome, OnOk};
ghost use Rattle.csv.specs.Records.{fields_of};
ghost use Rattle.nms_quote.specs.Roster.{Sizes, holds, sizes_of};
ghost use Rattle.nms_import.specs.Mapping.{change_of, column_text, entry_of, half_state, is_one_sided, lacks_side, left_by, meaning_of, no_symbol, participant_of, replaced, state_of, symbol_in, unit_for, withdrawal, withdrawal_of};

use crate::cause::Cause;
use crate::column::Columns;
use crate::entry::Entry;
use crate::meanings::{Half, Meaning, Meanings, Replaced};
use crate::number::side_in;
use crate::time::time_in;
use crate::words::{is_listed, lacks_side, name_of, place_said};
use csv::ByteRecord;
use nms_lines::field_at;
use nms_quote::{Change, Part, QState, Roster, Side, SideQuote, Sym};
use std::alloc::AllocError;

/// The change of a row with its time, or the first cause why the row makes none. `scratch` is room that a caller keeps from row
/// to row.
pub fn read_row(
    columns: &Columns,
    meanings: &Meanings,
    roster: &Roster,
    row: &ByteRecord,
    scratch: &mut Vec<u8>,
) -> Result<Result<Entry, Cause>, AllocError>
    ensures entry { IfOk result (λ outcome. outcome ≡ entry_of columns.now meanings.now roster.now (fields_of row.now)) }
    ensures there { IfOk result (λ outcome. IfOk outcome (λ entry. holds (sizes_of roster.now) entry.change ≡ true)) }
{
    let sym = symbol_in(meanings, roster, columns.symbol.text(row), scratch)?;
    Ok(entry_with(columns, meanings, roster, row, sym))
}

/// The symbol on the roster that a text names; `None` if the roster lacks it. `scratch` gets the text after the mapping's
/// replacements.
pub fn symbol_in(
    meanings: &Meanings,
    roster: &Roster,
    text: &[u8],
    scratch: &mut Vec<u8>,
) -> Result<Option<Sym>, AllocError>
    ensures symbol { IfOk result (λ sym. sym ≡ symbol_in meanings.now roster.now text.now) }
    ensures text { OnOk result (scratch.new.items ≡ map (replaced meanings.now.replaced.items) text.now) }
    ensures there { IfOk result (λ sym. IfSome sym (λ place. place < length roster.now.syms)) }
{
    replace(&meanings.replaced, text, scratch)?;
    Ok(roster.find_sym(scratch))
}

/// The withdrawal that a row leaves if it makes no change for the given cause, if it leaves one. `last` is the time of the last
/// change, for a row whose own time cannot be read.
pub fn left_in(
    columns: &Columns,
    meanings: &Meanings,
    roster: &Roster,
    row: &ByteRecord,
    cause: Cause,
    last: u64,
    scratch: &mut Vec<u8>,
) -> Result<Option<Entry>, AllocError>
    ensures left { IfOk result (λ left. left ≡ left_by columns.now meanings.now roster.now last (fields_of row.now) cause) }
    ensures there { IfOk result (λ left. IfSome left (λ entry. holds (sizes_of roster.now) entry.change ≡ true)) }
{
    let sym = symbol_in(meanings, roster, columns.symbol.text(row), scratch)?;
    Ok(left_with(columns, meanings, roster, row, cause, sym, last))
}

/// The withdrawal that a row leaves if it makes no change for the given cause, if it leaves one. The row's symbol was looked up
/// on the roster before. `last` is the time of the last change, for a row whose own time cannot be read.
pub fn left_with(
    columns: &Columns,
    meanings: &Meanings,
    roster: &Roster,
    row: &ByteRecord,
    cause: Cause,
    sym: Option<Sym>,
    last: u64,
) -> Option<Entry>
    ensures left { sym ≡ symbol_in meanings.now roster.now (column_text columns.now.symbol (fields_of row.now))
        → result ≡ left_by columns.now meanings.now roster.now last (fields_of row.now) cause }
    ensures there { IfSome sym (λ place. place < length roster.now.syms)
        → IfSome result (λ entry. holds (sizes_of roster.now) entry.change ≡ true) }
{
    if meanings.withdraws && !cause.skips() {
        withdrawal_with(columns, meanings, roster, row, sym, last)
    } else {
        None
    }
}

/// The withdrawal of what the row's participant shows of a symbol, which was looked up on the roster before. `last` is the time
/// of the last change, for a row whose own time cannot be read.
fn withdrawal_with(
    columns: &Columns,
    meanings: &Meanings,
    roster: &Roster,
    row: &ByteRecord,
    sym: Option<Sym>,
    last: u64,
) -> Option<Entry>
    ensures withdrawal { sym ≡ symbol_in meanings.now roster.now (column_text columns.now.symbol (fields_of row.now))
        → result ≡ withdrawal_of columns.now meanings.now roster.now last (fields_of row.now) }
    ensures there { IfSome sym (λ place. place < length roster.now.syms)
        → IfSome result (λ entry. holds (sizes_of roster.now) entry.change ≡ true) }
{
    let time = match time_in(meanings, columns.time.text(row)) {
        Ok(time) => time,
        Err(_) => last,
    };
    match (
        participant_in(meanings, roster, columns.participant.text(row)),
        sym,
    ) {
        (Ok(part), Some(sym)) => Some(withdrawal(time, part, sym)),
        (Ok(_), None) | (Err(_), _) => None,
    }
}

/// The change after which a participant shows nothing of a symbol.
fn withdrawal(time: u64, part: Part, sym: Sym) -> Entry
    ensures { result ≡ withdrawal time part sym }
{
    Entry {
        time,
        change: Change::Quote {
            part,
            sym,
            state: QState::Automated,
            bid: None,
            offer: None,
        },
        one_sided: false,
    }
}

/// Replaces bytes of a text by the given pairs. The result overwrites `out`.
fn replace(pairs: &[Replaced], text: &[u8], out: &mut Vec<u8>) -> Result<(), AllocError>
    ensures { OnOk result (out.new.items ≡ map (replaced pairs.now) text.now) }
{
    out.clear();
    for c in text {
        out.push(replaced(pairs, *c))?;
    }
    Ok(())
}

/// The byte that replaces a byte of a symbol: the byte itself if the mapping does not replace it.
fn replaced(pairs: &[Replaced], c: u8) -> u8
    ensures { result ≡ replaced pairs.now c }
{
    for pair in pairs {
        if c == pair.from {
            return pair.to;
        }
    }
    c
}

/// The change that a row makes, with its time, or the first cause why it makes none. The row's symbol was looked up on the
/// roster before.
pub fn entry_with(
    columns: &Columns,
    meanings: &Meanings,
    roster: &Roster,
    row: &ByteRecord,
    sym: Option<Sym>,
) -> Result<Entry, Cause>
    requires there { IfSome sym (λ place. place < length roster.now.syms) }
    ensures entry { sym ≡ symbol_in meanings.now roster.now (column_text columns.now.symbol (fields_of row.now))
        → result ≡ entry_of columns.now meanings.now roster.now (fields_of row.now) }
    ensures there { IfOk result (λ entry. holds (sizes_of roster.now) entry.change ≡ true) }
{
    if is_listed(&meanings.ends, field_at(row, 0)) {
        return Err(Cause::Trailer);
    }
    if row.len() < columns.width {
        return Err(Cause::TooFewColumns);
    }
    if is_listed(&meanings.skips, columns.skip.text(row)) {
        return Err(Cause::Listed);
    }
    let time = time_in(meanings, columns.time.text(row))?;
    let part = participant_in(meanings, roster, columns.participant.text(row))?;
    let Some(sym) = sym else {
        return Err(no_symbol(meanings));
    };
    let meaning = meaning_in(
        meanings,
        columns.source.text(row),
        columns.condition.text(row),
    )?;
    let state = state_of(meanings, meaning)?;
    if lacks_side(&meanings.sides, columns.side.text(row)) {
        return Err(Cause::UnknownSide);
    }
    let unit = unit_for(meanings, roster, sym);
    let change = change_in(columns, meanings, unit, row, part, sym, state)?;
    Ok(Entry {
        time,
        change,
        one_sided: is_one_sided(meaning),
    })
}

/// The participant that a word of the file names.
fn participant_in(meanings: &Meanings, roster: &Roster, word: &[u8]) -> Result<Part, Cause>
    ensures part { result ≡ participant_of meanings.now roster.now word.now }
    ensures there { IfOk result (λ part. part < length roster.now.parts) }
{
    let Some(name) = name_of(meanings, word) else {
        return Err(Cause::UnknownParticipant);
    };
    match roster.find_part(name) {
        Some(part) => Ok(part),
        None => Err(Cause::UnknownParticipant),
    }
}

/// Why a row whose symbol is not on the roster makes no change.
fn no_symbol(meanings: &Meanings) -> Cause
    ensures { result ≡ no_symbol meanings.now }
{
    if meanings.skips_symbols {
        Cause::OtherSymbol
    } else {
        Cause::UnknownSymbol
    }
}

/// What the two texts of a condition mean.
fn meaning_in(meanings: &Meanings, first: &[u8], second: &[u8]) -> Result<Meaning, Cause>
    ensures { result ≡ meaning_of meanings.now first.now second.now }
{
    match place_said(&meanings.said, first, second) {
        Some(place) => Ok(meanings.said[place].meaning),
        None => Err(Cause::UnknownCondition),
    }
}

/// The state that a condition gives both sides; `None` if it means no quotation.
fn state_of(meanings: &Meanings, meaning: Meaning) -> Result<Option<QState>, Cause>
    ensures { result ≡ state_of meanings.now meaning }
{
    match meaning {
        Meaning::Nothing => Ok(None),
        Meaning::Quoted(state) => Ok(Some(state)),
        Meaning::ManualSide(side) => half_state(meanings.half, side),
    }
}

/// The state of both sides, if the row's condition makes only one side manual.
fn half_state(half: Half, side: Side) -> Result<Option<QState>, Cause>
    ensures { result ≡ half_state half side }
{
    match half {
        Half::Refuse => Err(Cause::OneSided(side)),
        Half::Manual => Ok(Some(QState::Manual)),
        Half::Automated => Ok(Some(QState::Automated)),
    }
}

/// Whether a condition makes only one side manual.
fn is_one_sided(meaning: Meaning) -> bool
    ensures { result ≡ is_one_sided meaning }
{
    match meaning {
        Meaning::Nothing | Meaning::Quoted(_) => false,
        Meaning::ManualSide(_) => true,
    }
}

/// The number of shares in a unit of size: what the mapping says, or the round lot that the setup gives the symbol.
fn unit_for(meanings: &Meanings, roster: &Roster, sym: Sym) -> u32
    ensures { result ≡ unit_for meanings.now roster.now sym }
{
    if !meanings.own_lots {
        meanings.size_unit
    } else if roster.has_sym(sym) {
        u32::from(roster.lot_of(sym).get())
    } else {
        1
    }
}

/// The change of a row whose sides are in this state; `None` means no quotation. A size counts units of `unit` shares.
fn change_in(
    columns: &Columns,
    meanings: &Meanings,
    unit: u32,
    row: &ByteRecord,
    part: Part,
    sym: Sym,
    state: Option<QState>,
) -> Result<Change, Cause>
    ensures change { result ≡ change_of columns.now meanings.now unit (fields_of row.now) part sym state }
    ensures there { (sizes : Sizes) → part < sizes.parts → sym < length sizes.lots → IfOk result (λ change. holds sizes change ≡ true) }
{
    match state {
        None => Ok(Change::Quote {
            part,
            sym,
            state: QState::Automated,
            bid: None,
            offer: None,
        }),
        Some(state) => {
            let bid = side_in(
                meanings,
                unit,
                Side::Bid,
                columns.bid.text(row),
                columns.bid_size.text(row),
            )?;
            let offer = side_in(
                meanings,
                unit,
                Side::Offer,
                columns.offer.text(row),
                columns.offer_size.text(row),
            )?;
            Ok(Change::Quote {
                part,
                sym,
                state,
                bid,
                offer,
            })
        }
    }
}
