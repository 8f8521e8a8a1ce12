//! A board and its best rows: changes are applied, and a view shows the market of a symbol.
use nms_board::{BoardFault, Boards, Row};
use nms_nbbo::{Market, best, market};
use nms_quote::{Change, Roster, Side, Sym};
use std::alloc::Global;

/// Why a call on the board gives no answer.
#[derive(Clone, Copy, Debug, PartialEq, Eq)]
pub(crate) enum LookFault {
    /// The change at this place, counted from 0, is not of the roster, or the board has no room for it.
    Refused(usize),
    /// There is no memory for a board.
    Board(BoardFault),
}

/// A symbol's market and its two best rows after all the changes.
pub(crate) fn look(
    alloc: Global,
    roster: &Roster,
    changes: &[Change],
    sym: Sym,
) -> Result<(Market, Option<Row>, Option<Row>), LookFault> {
    let mut board = match Boards::new(alloc, roster) {
        Ok(board) => board,
        Err(fault) => return Err(LookFault::Board(fault)),
    };
    for (place, change) in changes.iter().enumerate() {
        if !board.takes(change) {
            return Err(LookFault::Refused(place));
        }
        board.apply(*change);
    }
    let view = board.view(sym);
    let (bid, offer) = (best(&view, Side::Bid), best(&view, Side::Offer));
    Ok((market(&view), bid, offer))
}
