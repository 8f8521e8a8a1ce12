//! The best protected prices of each symbol in each version: `specs/Bests`.
ghost use Rattle.std.specs.Prelude.{◌≡◌, ◌≢◌, ◌<◌, ℕ, IfOk, OnOk, false, length, slice_get, true};
ghost use Rattle.nms_board.specs.History.{concerns};
ghost use Rattle.nms_board.specs.Ranking.{ranked};
ghost use Rattle.nms_board.specs.Shown.{rows_held, seen_on};
ghost use Rattle.nms_quote.specs.Roster.{holds};
ghost use Rattle.nms_stream.specs.Tapes.{sizes_in};
ghost use Rattle.nms_trades.specs.Bests.{AreBests, best_price, limits_of};
ghost use Rattle.nms_trades.specs.Track.{AreNoted, IsNoted};

use crate::track::{Limits, Track, no_tracks, note_at};
use nms_board::{BoardFault, Boards, other_symbols_stay};
use nms_quote::{Change, Side, Sym};
use nms_stream::{Replay, Tape};
use std::alloc::{AllocError, Global};

/// The best protected prices of each symbol, by its place, in each version of the changes. One board passes through them once.
pub(crate) fn bests_of(alloc: Global, tape: &Tape<'_>) -> Result<Vec<Track>, BoardFault>
    ensures { IfOk result (λ bests. AreBests (sizes_in tape.now) tape.now.changes.items (length tape.now.changes.items) bests.items) }
{
    let mut replay = Replay::open(alloc, tape)?;
    let Ok(mut bests) = no_tracks(alloc, tape.roster.syms()) else {
        return Err(BoardFault::NoMemory);
    };
    other_symbols_stay();
    while let Some(change) = replay.step() {
        if note_change(&replay.board, &change, &mut bests).is_err() {
            return Err(BoardFault::NoMemory);
        }
    }
    Ok(bests)
}

/// Notes the best prices after a change, for the symbols that it concerns.
fn note_change(board: &Boards, change: &Change, bests: &mut Vec<Track>) -> Result<(), AllocError>
    requires held { holds board.now.sizes change.now ≡ true }
    requires count { length bests.old.items ≡ length board.now.sizes.lots }
    ensures count { OnOk result (length bests.new.items ≡ length bests.old.items) }
    ensures concerned { (sym : ℕ) → sym < length bests.old.items → concerns sym change.now ≡ true
        → OnOk result (IsNoted board.now.applied (limits_of (seen_on board.now sym)) (slice_get bests.old.items sym)
        (slice_get bests.new.items sym)) }
    ensures others { (sym : ℕ) → sym < length bests.old.items → concerns sym change.now ≡ false
        → OnOk result (slice_get bests.new.items sym ≡ slice_get bests.old.items sym) }
{
    match *change {
        Change::Quote { sym, .. } => note_sym(board, sym, bests),
        Change::State { sym, .. } => note_sym(board, sym, bests),
        Change::Lot { sym, .. } => note_sym(board, sym, bests),
        Change::Withdraw { .. } => note_all(board, bests),
    }
}

/// Notes the best prices of each symbol.
fn note_all(board: &Boards, bests: &mut Vec<Track>) -> Result<(), AllocError>
    requires { length bests.old.items ≡ length board.now.sizes.lots }
    ensures { OnOk result (AreNoted (λ sym. sym) board.now.applied (λ sym. limits_of (seen_on board.now sym)) (length bests.old.items)
        bests.old.items bests.new.items) }
{
    // The prover has to see that a board has at most `MOST_SYMBOLS` symbols.
    board.stands_for_a_tape();
    for place in 0..bests.len() {
        note_sym(board, Sym::new(place as u16).unwrap(), bests)?;
    }
    Ok(())
}

/// Notes the best prices of a symbol.
fn note_sym(board: &Boards, sym: Sym, bests: &mut Vec<Track>) -> Result<(), AllocError>
    requires place { sym < length bests.old.items }
    requires sym { sym < length board.now.sizes.lots }
    ensures count { length bests.new.items ≡ length bests.old.items }
    ensures own { (own : ℕ) → own ≡ sym → OnOk result (IsNoted board.now.applied (limits_of (seen_on board.now own))
        (slice_get bests.old.items own) (slice_get bests.new.items own)) }
    ensures others { (other : ℕ) → other ≢ sym → slice_get bests.new.items other ≡ slice_get bests.old.items other }
{
    let limits = Limits {
        bid: best_price(board, Side::Bid, sym),
        offer: best_price(board, Side::Offer, sym),
    };
    note_at(bests, usize::from(sym.get()), board.applied(), limits)
}

/// The price of a side's best protected quotation in a symbol, if there is one. Rows are read in rank order up to that quotation.
fn best_price(board: &Boards, side: Side, sym: Sym) -> Option<u64>
    requires { sym < length board.now.sizes.lots }
    ensures { result ≡ best_price (ranked side (rows_held board.now sym side)) }
{
    board.shows_rows(sym);
    for at in 0..board.parts() {
        let Some(row) = board.ranked(side, sym, at) else {
            return None;
        };
        if row.protected {
            return Some(row.price.get());
        }
    }
    None
}
