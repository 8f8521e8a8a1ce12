//! The best quotations of a symbol on a board: `specs/Quoted`.
ghost use Rattle.std.specs.Prelude.{◌≡◌, ◌<◌, length, IfSome};
ghost use Rattle.nms_board.specs.Shown.{seen_on};
ghost use Rattle.nms_board.specs.declared.row.Row.{Row};
ghost use Rattle.nms_stream.specs.Quoted.{are_alike, is_alike, quoted_in};

use nms_board::{Boards, Row};
use nms_quote::{Side, Sym};

/// The best bid and the best offer of a symbol (17 CFR 242.600, "national best bid and national best offer"). A side is `None`
/// if it has no quotation.
#[derive(Clone, Copy)]
pub struct Quoted {
    /// The best bid, with its price in 1/10,000 dollar and its displayed size in shares.
    pub bid: Option<Row>,
    /// The best offer, with its price in 1/10,000 dollar and its displayed size in shares.
    pub offer: Option<Row>,
}

/// The best quotations of a symbol on a board. It takes no memory, and ranks nothing.
pub fn quoted_on(board: &Boards, sym: Sym) -> Quoted
    requires { sym < length board.now.sizes.lots }
    ensures best { result ≡ quoted_in (seen_on board.now sym) }
    ensures bid { IfSome result.bid (λ row. row.part < board.now.sizes.parts) }
    ensures offer { IfSome result.offer (λ row. row.part < board.now.sizes.parts) }
{
    Quoted {
        bid: board.ranked(Side::Bid, sym, 0),
        offer: board.ranked(Side::Offer, sym, 0),
    }
}

impl Quoted {
    ghost use Rattle.nms_stream.specs.Quoted.{are_alike};

    /// Whether these best quotations look like others: each side has the same participant, price and displayed size, or
    /// nothing. Receipts, and whether a quotation is automated, do not matter.
    pub fn is_like(&self, other: &Quoted) -> bool
        ensures { result ≡ are_alike self.now other.now }
    {
        is_alike(&self.bid, &other.bid) && is_alike(&self.offer, &other.offer)
    }
}

/// Whether two best rows have the same participant, price and displayed size, or both are absent.
fn is_alike(row: &Option<Row>, other: &Option<Row>) -> bool
    ensures { result ≡ is_alike row.now other.now }
{
    match (row, other) {
        (None, None) => true,
        (Some(row), Some(other)) => {
            row.part == other.part && row.price == other.price && row.size == other.size
        }
        _ => false,
    }
}
