//! A usable row as the planner keeps it: `specs/Usable` of `nms_rules`.
ghost use Rattle.std.specs.Prelude.{◌≡◌, ◌^◌, ◌≤ℤ◌, neg_ℤ, pos};
ghost use Rattle.std.specs.Int.RustNames.{int_lt};
ghost use Rattle.nms_rules.specs.Cutoff.{is_pooled, is_swept};
ghost use Rattle.nms_rules.specs.Usable.{usable_row};

use nms_board::Row;
use nms_fee_book::FeeBook;
use nms_quote::{Order, OrderSide, Part};
use nms_rules::{Rank, UsableRow};
use nms_units::{Money, Price};
use std::marker::Model;

/// A quotation that an order may trade with, as `UsableRow` has it. A share costs at most 10^16 + 10^7 nanodollars either way,
/// so 64 bits hold it. The wide fields come first, so that a row takes 32 bytes.
#[derive(Clone, Copy)]
pub(crate) struct PricedRow {
    /// The rank of its price.
    pub(crate) rank: Rank,
    /// The price, in 1/10,000 dollar.
    pub(crate) price: Price,
    /// What a share of the quotation costs with the fee, in nanodollars.
    pub(crate) cost: i64,
    /// The displayed size, in shares.
    pub(crate) size: u32,
    /// The participant.
    pub(crate) part: Part,
    /// Whether it is protected; else it is manual.
    pub(crate) protected: bool,
}

impl Model for PricedRow {
    ghost use Rattle.std.specs.Prelude.{negsuc, pos, ◌≤ℤ◌};
    ghost use Rattle.nms_rules.specs.Usable.{Usable};

    ghost Value = { Usable };

    ghost view = { λ r. record {
      part = r.part;
      rank = r.rank;
      price = r.price;
      size = r.size;
      protected = r.protected;
      cost = r.cost;
    } };

    ghost invariant = { λ r. (negsuc 10000000009999999 ≤ℤ r.cost) × (r.cost ≤ℤ pos 10000000010000000) };

    ghost inverse = { λ u. record {
      rank = u.rank;
      price = u.price;
      cost = u.cost;
      size = u.size;
      part = u.part;
      protected = u.protected;
    } };
}

/// The row that fills a list's unused places.
impl Default for PricedRow {
    fn default() -> Self {
        let price = Price::new(1).unwrap();
        PricedRow {
            rank: Rank::of(OrderSide::Buy, price),
            price,
            cost: 0,
            size: 0,
            part: Part::new(0).unwrap(),
            protected: false,
        }
    }
}

impl PricedRow {
    /// A row of a view, as an order may trade with it.
    pub(crate) fn of(order: &Order, fees: &FeeBook, row: &Row) -> Self
        ensures { result ≡ usable_row order.now fees.now row.now }
    {
        let usable = UsableRow::of(order, fees, row);
        PricedRow {
            rank: usable.rank,
            price: usable.price,
            cost: usable.cost.get() as i64,
            size: usable.size,
            part: usable.part,
            protected: usable.protected,
        }
    }

    /// What a share costs with the fee, in nanodollars.
    pub(crate) fn unit_cost(&self) -> Money
        ensures cost { result ≡ self.now.cost }
        ensures low { neg_ℤ (pos (10 ^ 18)) ≤ℤ result }
        ensures high { result ≤ℤ pos (10 ^ 18) }
    {
        Money::new(i128::from(self.cost))
    }

    /// Whether the row must be swept before the order may trade at a price of the given rank. It must if it is protected and at
    /// a better price (17 CFR 242.600, "intermarket sweep order").
    pub(crate) fn is_swept(&self, cutoff: Rank) -> bool
        ensures { result ≡ is_swept cutoff self.now }
    {
        self.protected && self.rank < cutoff
    }

    /// Whether the row is at a worse price than one of the given rank.
    pub(crate) fn is_beyond(&self, cutoff: Rank) -> bool
        ensures { result ≡ int_lt cutoff self.now.rank }
    {
        cutoff < self.rank
    }

    /// Whether the row is in the pool at a price of the given rank. It is if it is at that price or better, and need not be
    /// swept.
    pub(crate) fn is_pooled(&self, cutoff: Rank) -> bool
        ensures { result ≡ is_pooled cutoff self.now }
    {
        self.rank <= cutoff && !self.is_swept(cutoff)
    }
}
