//! A plan and its legs, which are sent to participants to fill an order.
use crate::order::Order;
use crate::participant::Part;
use arrayvec::ArrayVec;
use nms_units::{Money, Price, Shares};

/// An order that is routed to one participant, at the price of its quotation (17 CFR 242.600, "intermarket
/// sweep order").
#[derive(Clone, Copy, Debug, PartialEq, Eq)]
pub struct Leg {
    /// The participant to which it goes.
    pub part: Part,
    /// Its limit price, in 1/10,000 dollar.
    pub price: Price,
    /// How many shares, 0 to 999,999,999. A lawful plan has no leg of 0.
    pub shares: Shares,
}

/// The leg in a list's unused places.
impl Default for Leg {
    fn default() -> Self {
        Leg {
            part: Part::new(0).unwrap(),
            price: Price::new(1).unwrap(),
            shares: Shares::new(0).unwrap(),
        }
    }
}

/// A plan to fill an order with quotations of one published version. It need not be lawful: `nms_rules` says why one is
/// not.
#[derive(Drop)]
pub struct Plan {
    /// The number of the version on which it was made.
    pub version: u64,
    /// The order for which the plan was made.
    pub order: Order,
    /// The legs, at most one for each participant.
    pub legs: ArrayVec<Leg, 32>,
    /// The shares of all legs.
    pub filled: u32,
    /// The cost of the shares with the participants' fees, in nanodollars; negative for a sale.
    pub cost: Money,
}
