//! A row of a side, which is a quotation: `specs/Quotation`.
ghost use Rattle.std.specs.Prelude.{◌≡◌};
ghost use Rattle.nms_board.specs.Ranking.{better_price, ranks_above};

use nms_quote::{Part, Side};
use nms_units::Price;

/// A quotation: a participant's bid or offer in a symbol that shows at least one round lot (17 CFR 242.600, "bid or offer").
/// The wide fields come first, so that a row takes 24 bytes.
#[derive(Clone, Copy, PartialEq, Eq)]
pub struct Row {
    /// The price, in 1/10,000 dollar.
    pub price: Price,
    /// The number of the change that last altered the side's price or shares.
    pub receipt: u64,
    /// The displayed size in shares: whole round lots, at least one.
    pub size: u32,
    /// The participant that quotes it.
    pub part: Part,
    /// Whether it is a protected bid or offer, which every automated quotation is.
    pub protected: bool,
}

/// The row in a list's unused places.
impl Default for Row {
    fn default() -> Self {
        Row::nothing()
    }
}

impl Row {
    /// The row that means no row, because it has no shares.
    pub(crate) fn nothing() -> Self
        ensures { result.size ≡ 0 }
    {
        Row {
            price: Price::new(1).unwrap(),
            receipt: 0,
            size: 0,
            part: Part::new(0).unwrap(),
            protected: false,
        }
    }

    /// Whether a row ranks above another one of its side: by price, then by size, then by receipt.
    pub fn ranks_above(&self, side: Side, other: &Row) -> bool
        ensures { result ≡ ranks_above side self.now other.now }
    {
        if self.price != other.price {
            return is_better_price(side, self.price, other.price);
        }
        if self.size != other.size {
            return self.size > other.size;
        }
        self.receipt < other.receipt
    }
}

/// Whether a price is better than another one: a higher bid, or a lower offer.
pub fn is_better_price(side: Side, price: Price, other: Price) -> bool
    ensures { result ≡ better_price side price other }
{
    match side {
        Side::Bid => price > other,
        Side::Offer => price < other,
    }
}
