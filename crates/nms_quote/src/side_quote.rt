//! The quotation of a participant on one side of a symbol: `specs/Content`.
ghost use Rattle.std.specs.Prelude.{◌≡◌, ℕ, ◌<◌, ◌≤◌};
ghost use Rattle.std.specs.Option.{SomeIff};

use nms_units::{Price, Shares};
use std::marker::Model;

/// The two sides of a market (17 CFR 242.600, "bid or offer").
#[derive(Clone, Copy, Default, PartialEq, Eq)]
pub enum Side {
    /// The side of those who would buy, for whom a higher price is better.
    #[default]
    Bid,
    /// The side of those who would sell, for whom a lower price is better.
    Offer,
}

/// The state of a participant's quotations in a symbol (17 CFR 242.600, "automated quotation" and "manual quotation";
/// `Halted` is this product's own rule).
#[derive(Clone, Copy, Debug, PartialEq, Eq)]
pub enum QState {
    /// The quotations are ranked and protected.
    Automated,
    /// The quotations are ranked and not protected.
    Manual,
    /// The quotations are not ranked.
    Halted,
}

/// A price and at least one share, which a participant quotes on one side of a symbol.
#[derive(Clone, Copy, Debug, PartialEq, Eq)]
pub struct SideQuote {
    /// The price, in 1/10,000 dollar.
    pub price: Price,
    /// The shares that a participant's message quotes, 1 to 999,999,999, not yet rounded down to round lots.
    pub shares: Shares,
}

impl Model for SideQuote {
    ghost use Rattle.std.specs.Prelude.{◌≤◌};
    ghost use Rattle.nms_quote.specs.Content.{Content};

    ghost Value = { Content };

    ghost view = { λ q. record { price = q.price; shares = q.shares } };

    ghost invariant = { λ q. 1 ≤ q.shares };

    ghost inverse = { λ c. record { price = c.price; shares = c.shares } };
}

impl SideQuote {
    ghost use Rattle.nms_quote.specs.Content.{Content};

    /// A quote of one side; `None` if the shares are 0.
    pub fn new(price: Price, shares: Shares) -> Option<Self>
        ensures { SomeIff result (1 ≤ shares) (record { price = price; shares = shares }) }
    {
        if 1 <= shares.get() {
            Some(SideQuote { price, shares })
        } else {
            None
        }
    }
}
