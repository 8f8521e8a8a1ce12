//! Why no lawful plan is better: a certificate and its cuts. This product's own rule.
use arrayvec::ArrayVec;
use nms_units::{Money, Price};

/// Why no plan is better that trades at a price, and at no worse one.
#[derive(Clone, Copy, Debug, PartialEq, Eq)]
pub enum CutKind {
    /// The protected quotations better than the price are more than can be filled.
    TooMuch,
    /// All shares that may be traded with at the price or better are fewer than can be filled.
    TooLittle,
    /// A plan's least cost, shown by the cost of one more share, in nanodollars: -10^18 to 10^18 in a lawful
    /// certificate.
    Marginal(Money),
}

/// A certificate's statement about one price.
#[derive(Clone, Copy, Debug, PartialEq, Eq)]
pub struct Cut {
    /// The price, in 1/10,000 dollar.
    pub price: Price,
    /// Why no better plan trades at this price and at no worse one.
    pub kind: CutKind,
}

/// The cut in a list's unused places.
impl Default for Cut {
    fn default() -> Self {
        Cut {
            price: Price::new(1).unwrap(),
            kind: CutKind::TooMuch,
        }
    }
}

/// A cut for each usable price, best price first.
pub type Certificate = ArrayVec<Cut, 32>;
