//! Reading a change from its numbers: `specs/ChangeSaid`.
ghost use Rattle.std.specs.Prelude.{◌≡◌, ◌<◌, ◌&&◌, length, nat_lt, true, if◌then◌else◌, IfOk, Ok};
ghost use Rattle.nms_quote.specs.Roster.{holds, sizes_of};
ghost use Rattle.nms_calls.specs.ChangeSaid.{change_said, content_said, lot_said, quotation_said, restating_said, side_said, state_said};

use crate::call_fault::CallFault;
use crate::change_numbers::NmsChange;
use nms_quote::{Change, Part, QState, Roster, SideQuote, Sym};
use nms_units::{Lot, Price, Shares};

/// The change that numbers give on a roster. If they give none, the fault with the least code. It is inlined so that the change
/// is not copied.
#[inline(always)]
pub(crate) fn change_of(roster: &Roster, numbers: &NmsChange) -> Result<Change, CallFault>
    ensures change { result ≡ change_said (sizes_of roster.now) numbers.now }
    ensures held { IfOk result (λ change. holds (sizes_of roster.now) change ≡ true) }
{
    match numbers.kind {
        0 => quotation_of(roster, numbers),
        1 => restating_of(roster, numbers),
        2 => {
            let part = part_of(roster, numbers.part)?;
            Ok(Change::Withdraw { part })
        }
        3 => lot_of(roster, numbers),
        _ => Err(CallFault::Range),
    }
}

/// Reads a change that replaces a participant's bid and offer in a symbol.
#[inline(always)]
fn quotation_of(roster: &Roster, numbers: &NmsChange) -> Result<Change, CallFault>
    ensures change { result ≡ quotation_said (sizes_of roster.now) numbers.now (state_said numbers.now.state)
        (side_said numbers.now.bid_price numbers.now.bid_shares) (side_said numbers.now.offer_price numbers.now.offer_shares) }
    ensures held { IfOk result (λ change. holds (sizes_of roster.now) change ≡ true) }
{
    let Some(state) = state_of(numbers.state) else {
        return Err(CallFault::Range);
    };
    let Some(bid) = side_of(numbers.bid_price, numbers.bid_shares) else {
        return Err(CallFault::Range);
    };
    let Some(offer) = side_of(numbers.offer_price, numbers.offer_shares) else {
        return Err(CallFault::Range);
    };
    let part = part_of(roster, numbers.part)?;
    let sym = sym_of(roster, numbers.sym)?;
    Ok(Change::Quote {
        part,
        sym,
        state,
        bid,
        offer,
    })
}

/// Reads a change of the state of a participant's bid and offer in a symbol. Their prices and shares stay as they are.
fn restating_of(roster: &Roster, numbers: &NmsChange) -> Result<Change, CallFault>
    ensures change { result ≡ restating_said (sizes_of roster.now) numbers.now (state_said numbers.now.state) }
    ensures held { IfOk result (λ change. holds (sizes_of roster.now) change ≡ true) }
{
    let Some(state) = state_of(numbers.state) else {
        return Err(CallFault::Range);
    };
    let part = part_of(roster, numbers.part)?;
    let sym = sym_of(roster, numbers.sym)?;
    Ok(Change::State { part, sym, state })
}

/// Reads a change of a symbol's round lot.
fn lot_of(roster: &Roster, numbers: &NmsChange) -> Result<Change, CallFault>
    ensures change { result ≡ lot_said (sizes_of roster.now) numbers.now }
    ensures held { IfOk result (λ change. holds (sizes_of roster.now) change ≡ true) }
{
    let Some(lot) = Lot::new(numbers.lot) else {
        return Err(CallFault::Range);
    };
    let sym = sym_of(roster, numbers.sym)?;
    Ok(Change::Lot { sym, lot })
}

/// The state of a quotation that a number means: 0 automated, 1 manual, 2 halted. `None` for any other number.
fn state_of(number: u8) -> Option<QState>
    ensures { result ≡ state_said number }
{
    match number {
        0 => Some(QState::Automated),
        1 => Some(QState::Manual),
        2 => Some(QState::Halted),
        _ => None,
    }
}

/// The bid or the offer that a price and a number of shares form. Both are 0 for no quotation. `None` if only one of them is 0,
/// or one is out of its range.
fn side_of(price: u64, shares: u32) -> Option<Option<SideQuote>>
    ensures { result ≡ side_said price shares }
{
    if price == 0 && shares == 0 {
        return Some(None);
    }
    match content_of(price, shares) {
        Some(quote) => Some(Some(quote)),
        None => None,
    }
}

/// A quotation of one side, from a price and at least one share. `None` if either is out of its range.
fn content_of(price: u64, shares: u32) -> Option<SideQuote>
    ensures { result ≡ content_said price shares }
{
    match (Price::new(price), Shares::new(shares)) {
        (Some(price), Some(shares)) => SideQuote::new(price, shares),
        _ => None,
    }
}

/// The participant at a place of the roster. A place that the roster does not have is refused.
pub(crate) fn part_of(roster: &Roster, place: u8) -> Result<Part, CallFault>
    ensures { result ≡ (if nat_lt place (length roster.now.parts) then Ok place else Err CallFault.NoParticipant) }
{
    if usize::from(place) < roster.parts() {
        Ok(Part::new(place).unwrap())
    } else {
        Err(CallFault::NoParticipant)
    }
}

/// The symbol at a place of the roster. A place that the roster does not have is refused.
pub(crate) fn sym_of(roster: &Roster, place: u16) -> Result<Sym, CallFault>
    ensures { result ≡ (if nat_lt place (length roster.now.syms) then Ok place else Err CallFault.NoSymbol) }
{
    if usize::from(place) < roster.syms() {
        Ok(Sym::new(place).unwrap())
    } else {
        Err(CallFault::NoSymbol)
    }
}
