//! How good a price is for an order.
use nms_quote::OrderSide;
use nms_units::Price;
use std::marker::Model;

/// A price's rank for an order. A lower rank is better: for a buyer it is the price in 1/10,000 dollar, for a seller its negative.
#[derive(Clone, Copy, PartialEq, Eq, PartialOrd)]
pub struct Rank {
    number: i64,
}

impl Model for Rank {
    ghost use Rattle.std.specs.Prelude.{ℤ};

    ghost Value = { ℤ };

    ghost view = { λ r. r.number };

    ghost inverse = { λ z. record { number = z } };
}

impl Rank {
    ghost use Rattle.std.specs.Prelude.{◌≡◌};
    ghost use Rattle.nms_rules.specs.Usable.{rank_of};

    /// The rank of a price.
    pub fn of(side: OrderSide, price: Price) -> Self
        ensures { result ≡ rank_of side price }
    {
        let number = price.get() as i64;
        match side {
            OrderSide::Buy => Rank { number },
            OrderSide::Sell => Rank { number: -number },
        }
    }
}
