//! Changes that the runs make.

use crate::setups::{PARTICIPANTS, SYMBOLS};
use nms_board::Boards;
use nms_quote::{Change, Part, QState, SideQuote, Sym};
use nms_units::{Price, Shares};

/// An offer of the first symbol by the participant at a place.
pub(crate) fn offer_of(place: u8, state: QState, price: u64, shares: u32) -> Option<Change> {
    let offer = SideQuote::new(Price::new(price)?, Shares::new(shares)?);
    Some(Change::Quote {
        part: Part::new(place)?,
        sym: Sym::new(0)?,
        state,
        bid: None,
        offer,
    })
}

/// Applies an offer of the first symbol by the participant at a place to a board, if the board takes it.
pub(crate) fn apply_offer(board: &mut Boards, place: u8, state: QState, price: u64, shares: u32) {
    if let Some(offer) = offer_of(place, state, price, shares)
        && board.takes(&offer)
    {
        board.apply(offer);
    }
}

/// The quotation with a given number. Each participant of the wide setup quotes each symbol in turn, with other shares in each
/// round.
pub(crate) fn quotation(number: u64) -> Option<Change> {
    let price = Price::new(100_000)?;
    let shares = Shares::new(100 * (1 + number / (PARTICIPANTS * SYMBOLS) % 9) as u32)?;
    Some(Change::Quote {
        part: Part::new((number % PARTICIPANTS) as u8)?,
        sym: Sym::new((number / PARTICIPANTS % SYMBOLS) as u16)?,
        state: QState::Automated,
        bid: SideQuote::new(price, shares),
        offer: SideQuote::new(price, shares),
    })
}
