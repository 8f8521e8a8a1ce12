//! Writing changes as numbers: `specs/ChangeNumbers`.
ghost use Rattle.std.specs.Prelude.{◌≡◌, ◌<◌, ℕ, length, slice_get, IfSome, Some};
ghost use Rattle.nms_opening.specs.declared.TheConstants.{MOST_OPENING};
ghost use Rattle.nms_calls.specs.ChangeNumbers.{AreChangesAt, IsOpening, IsSaid, change_at, change_numbers, price_number, shares_number, state_number};
ghost use Rattle.nms_calls.specs.ChangeSaid.{side_said};

use crate::change_numbers::NmsChange;
use crate::opening_numbers::NmsOpening;
use nms_board::Boards;
use nms_opening::{MOST_OPENING, opening_of};
use nms_quote::{Change, QState, SideQuote, Sym};

/// Writes the opening changes of a symbol.
pub(crate) fn put_opening(board: &Boards, sym: Sym, out: &mut NmsOpening)
    requires { sym < length board.now.sizes.lots }
    ensures { IsOpening board.now.sizes board.now sym out.new }
{
    let opening = opening_of(board, sym);
    let changes = opening.as_slice();
    out.count = changes.len() as u32;
    out.spare = 0;
    put_changes(changes, &mut out.change);
}

/// Writes changes to the first places of an array, and empty changes to the other places.
fn put_changes(changes: &[Change], places: &mut [NmsChange; MOST_OPENING])
    ensures numbers { AreChangesAt places.new changes.now }
    ensures said { (place : ℕ) → place < MOST_OPENING → IfSome (slice_get changes.now place) IsSaid }
{
    for place in 0..MOST_OPENING {
        places[place] = change_at(changes, place);
    }
}

/// The numbers of the change at a place, all 0 if there is none.
fn change_at(changes: &[Change], place: usize) -> NmsChange
    ensures numbers { result ≡ change_at (slice_get changes.now place) }
    ensures said { IfSome (slice_get changes.now place) IsSaid }
{
    match changes.get(place) {
        Some(change) => change_numbers(change),
        None => NmsChange::none(),
    }
}

/// The numbers of a change.
fn change_numbers(change: &Change) -> NmsChange
    ensures numbers { result ≡ change_numbers change.now }
    ensures said { IsSaid change.now }
{
    let mut numbers = NmsChange::none();
    match *change {
        Change::Quote {
            part,
            sym,
            state,
            bid,
            offer,
        } => {
            let (bid_price, bid_shares) = side_numbers(bid);
            let (offer_price, offer_shares) = side_numbers(offer);
            numbers.bid_price = bid_price;
            numbers.offer_price = offer_price;
            numbers.bid_shares = bid_shares;
            numbers.offer_shares = offer_shares;
            numbers.sym = sym.get();
            numbers.part = part.get();
            numbers.state = state_number(state);
        }
        Change::State { part, sym, state } => {
            numbers.sym = sym.get();
            numbers.part = part.get();
            numbers.kind = 1;
            numbers.state = state_number(state);
        }
        Change::Withdraw { part } => {
            numbers.part = part.get();
            numbers.kind = 2;
        }
        Change::Lot { sym, lot } => {
            numbers.sym = sym.get();
            numbers.lot = lot.get();
            numbers.kind = 3;
        }
    }
    numbers
}

/// The price and the shares of a side, 0 and 0 for no quotation.
fn side_numbers(side: Option<SideQuote>) -> (u64, u32)
    ensures price { result.0 ≡ price_number side }
    ensures shares { result.1 ≡ shares_number side }
    ensures said { side_said (price_number side) (shares_number side) ≡ Some side }
{
    match side {
        Some(quote) => (quote.price.get(), quote.shares.get()),
        None => (0, 0),
    }
}

/// The number of a quotation's state: 0 automated, 1 manual, 2 halted.
fn state_number(state: QState) -> u8
    ensures { result ≡ state_number state }
{
    match state {
        QState::Automated => 0,
        QState::Manual => 1,
        QState::Halted => 2,
    }
}
