//! The protected prices of each participant in each symbol in each version: `specs/Parts`.
ghost use Rattle.std.specs.Prelude.{◌≡◌, ◌≢◌, ◌≤◌, ◌<◌, ℕ, ◌*◌, IfOk, OnOk, false, length, slice_get, true};
ghost use Rattle.nms_board.specs.Cells.{place_of};
ghost use Rattle.nms_board.specs.declared.TheConstants.{MOST_ROWS};
ghost use Rattle.nms_quote.specs.Roster.{holds};
ghost use Rattle.nms_stream.specs.Tapes.{sizes_in};
ghost use Rattle.nms_trades.specs.Parts.{ArePartsOf, part_held, protected_price, touches};
ghost use Rattle.nms_trades.specs.Track.{AreNoted, IsNoted};

use crate::track::{Limits, Track, no_tracks, note_at};
use nms_board::{BoardFault, Boards, MOST_ROWS, Row};
use nms_quote::{Change, Part, Side, Sym};
use nms_stream::{Replay, Tape};
use std::alloc::{AllocError, Global};

/// The protected prices of each participant in each symbol, in each version of the changes. The list has `MOST_ROWS` places for
/// each symbol. One board passes through the changes once.
pub(crate) fn parts_of(alloc: Global, tape: &Tape<'_>) -> Result<Vec<Track>, BoardFault>
    ensures { IfOk result (λ tracks. ArePartsOf (sizes_in tape.now) tape.now.changes.items tracks.items) }
{
    let mut replay = Replay::open(alloc, tape)?;
    let Ok(mut tracks) = no_tracks(alloc, MOST_ROWS * tape.roster.syms()) else {
        return Err(BoardFault::NoMemory);
    };
    while let Some(change) = replay.step() {
        if note_change(&replay.board, &change, &mut tracks).is_err() {
            return Err(BoardFault::NoMemory);
        }
    }
    Ok(tracks)
}

/// Notes the prices after a change, for the participants and symbols that it touches.
fn note_change(board: &Boards, change: &Change, tracks: &mut Vec<Track>) -> Result<(), AllocError>
    requires held { holds board.now.sizes change.now ≡ true }
    requires count { length tracks.old.items ≡ MOST_ROWS * length board.now.sizes.lots }
    ensures count { OnOk result (length tracks.new.items ≡ length tracks.old.items) }
    ensures touched { (sym part : ℕ) → sym < length board.now.sizes.lots → part < board.now.sizes.parts
        → touches sym part change.now ≡ true
        → OnOk result (IsNoted board.now.applied (part_held board.now sym part) (slice_get tracks.old.items (place_of part sym))
        (slice_get tracks.new.items (place_of part sym))) }
    ensures others { (sym part : ℕ) → sym < length board.now.sizes.lots → part < board.now.sizes.parts
        → touches sym part change.now ≡ false
        → OnOk result (slice_get tracks.new.items (place_of part sym) ≡ slice_get tracks.old.items (place_of part sym)) }
{
    // The prover has to see that a board has at most `MOST_ROWS` participants.
    board.stands_for_a_tape();
    match *change {
        Change::Quote { part, sym, .. } => note_part(board, part, sym, tracks),
        Change::State { part, sym, .. } => note_part(board, part, sym, tracks),
        Change::Withdraw { part } => note_syms(board, part, tracks),
        Change::Lot { sym, .. } => note_parts(board, sym, tracks),
    }
}

/// Notes the prices of a participant in each symbol.
fn note_syms(board: &Boards, part: Part, tracks: &mut Vec<Track>) -> Result<(), AllocError>
    requires part { part < board.now.sizes.parts }
    requires count { length tracks.old.items ≡ MOST_ROWS * length board.now.sizes.lots }
    ensures { OnOk result (AreNoted (λ sym. place_of part sym) board.now.applied (λ sym. part_held board.now sym part)
        (length board.now.sizes.lots) tracks.old.items tracks.new.items) }
{
    // The prover has to see that a board has at most `MOST_SYMBOLS` symbols.
    board.stands_for_a_tape();
    for place in 0..tracks.len() / MOST_ROWS {
        note_part(board, part, Sym::new(place as u16).unwrap(), tracks)?;
    }
    Ok(())
}

/// Notes the prices of each participant in a symbol.
fn note_parts(board: &Boards, sym: Sym, tracks: &mut Vec<Track>) -> Result<(), AllocError>
    requires sym { sym < length board.now.sizes.lots }
    requires count { length tracks.old.items ≡ MOST_ROWS * length board.now.sizes.lots }
    ensures { OnOk result (AreNoted (λ part. place_of part sym) board.now.applied (λ part. part_held board.now sym part)
        board.now.sizes.parts tracks.old.items tracks.new.items) }
{
    for place in 0..board.parts() {
        note_part(board, Part::new(place).unwrap(), sym, tracks)?;
    }
    Ok(())
}

/// Notes the prices of a participant in a symbol.
fn note_part(
    board: &Boards,
    part: Part,
    sym: Sym,
    tracks: &mut Vec<Track>,
) -> Result<(), AllocError>
    requires part { part < board.now.sizes.parts }
    requires sym { sym < length board.now.sizes.lots }
    requires count { length tracks.old.items ≡ MOST_ROWS * length board.now.sizes.lots }
    ensures count { length tracks.new.items ≡ length tracks.old.items }
    ensures own { (s p : ℕ) → s ≡ sym → p ≡ part → OnOk result (IsNoted board.now.applied (part_held board.now s p)
        (slice_get tracks.old.items (place_of p s)) (slice_get tracks.new.items (place_of p s))) }
    ensures others { (other : ℕ) → other ≢ place_of part sym → slice_get tracks.new.items other ≡ slice_get tracks.old.items other }
{
    // The prover has to see that a board has at most `MOST_ROWS` participants and `MOST_SYMBOLS` symbols.
    board.stands_for_a_tape();
    let limits = Limits {
        bid: protected_price(board.row(Side::Bid, part, sym)),
        offer: protected_price(board.row(Side::Offer, part, sym)),
    };
    note_at(tracks, place_of(part, sym), board.applied(), limits)
}

/// The place of a participant's prices in a symbol, in the list for all participants and symbols.
pub(crate) fn place_of(part: Part, sym: Sym) -> usize
    ensures { result ≡ place_of part sym }
{
    MOST_ROWS * usize::from(sym.get()) + usize::from(part.get())
}

/// The price of a quotation, if it is protected.
fn protected_price(row: Option<Row>) -> Option<u64>
    ensures { result ≡ protected_price row }
{
    match row {
        Some(row) if row.protected => Some(row.price.get()),
        Some(_) | None => None,
    }
}
