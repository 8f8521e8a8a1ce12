//! The states of a market: `specs/Market`.

/// The relation of a symbol's best bid and best offer (17 CFR 242.610(d) as adopted in 2005).
#[derive(Clone, Copy, Debug, PartialEq, Eq)]
pub enum Market {
    /// No bid and no offer.
    Empty,
    /// Only bids, or only offers.
    OneSided,
    /// The best bid is below the best offer.
    Normal,
    /// The best bid is at the best offer's price.
    Locked,
    /// The best bid is above the best offer.
    Crossed,
}
