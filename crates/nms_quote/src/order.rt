//! The terms of an order: `specs/Terms`.
ghost use Rattle.std.specs.Prelude.{◌≡◌, ℕ, ◌≤◌};
ghost use Rattle.std.specs.Option.{SomeIff};

use crate::part_set::PartSet;
use crate::symbol::Sym;
use nms_units::{Price, Shares};
use std::marker::Model;

/// Whether an order buys or sells.
#[derive(Clone, Copy, Debug, PartialEq, Eq)]
pub enum OrderSide {
    /// A buyer takes offers at the limit price or below.
    Buy,
    /// A seller takes bids at the limit price or above.
    Sell,
}

/// An order to plan: at least one share, at the limit price or better.
#[derive(Clone, Copy, Debug, PartialEq, Eq)]
pub struct Order {
    /// Whether it buys or sells.
    pub side: OrderSide,
    /// The symbol that it trades.
    pub sym: Sym,
    /// How many shares, 1 to 999,999,999.
    pub shares: Shares,
    /// The worst price at which it may trade, in 1/10,000 dollar.
    pub limit: Price,
    /// Whether it may also trade with manual quotations.
    pub manual: bool,
    /// Participants whose quotations are neither usable nor binding for it. This is self-help against trading centers whose
    /// systems fail or answer too late (17 CFR 242.611(b)(1)).
    pub self_help: PartSet,
}

impl Model for Order {
    ghost use Rattle.std.specs.Prelude.{◌≤◌};
    ghost use Rattle.nms_quote.specs.Terms.{Terms};

    ghost Value = { Terms };

    ghost view = { λ o. record { side = o.side; sym = o.sym; shares = o.shares; limit = o.limit; manual = o.manual; self_help = o.self_help } };

    ghost invariant = { λ o. 1 ≤ o.shares };

    ghost inverse = { λ t. record { side = t.side; sym = t.sym; shares = t.shares; limit = t.limit; manual = t.manual; self_help = t.self_help } };
}

impl Order {
    ghost use Rattle.nms_quote.specs.Terms.{Terms};

    /// An order with those terms; `None` if it is of 0 shares.
    pub fn new(
        side: OrderSide,
        sym: Sym,
        shares: Shares,
        limit: Price,
        manual: bool,
        self_help: PartSet,
    ) -> Option<Self>
        ensures { SomeIff result (1 ≤ shares) (record { side = side; sym = sym; shares = shares; limit = limit; manual = manual; self_help = self_help }) }
    {
        if 1 <= shares.get() {
            Some(Order {
                side,
                sym,
                shares,
                limit,
                manual,
                self_help,
            })
        } else {
            None
        }
    }
}
