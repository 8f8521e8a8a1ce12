//! Taking the cheapest shares of a pool: `specs/Taken`.
ghost use Rattle.std.specs.Prelude.{◌≡◌, ◌≤◌, ◌^◌, ◌+ℤ◌, ◌*ℤ◌, ◌≤ℤ◌, length, neg_ℤ, pos};
ghost use Rattle.nms_rules.specs.Cutoff.{pool_part};
ghost use Rattle.nms_sweep.specs.Choice.{has_last, share_cost};
ghost use Rattle.nms_sweep.specs.Taken.{taken_cost};

use crate::by_cost::ByCost;
use crate::priced_row::PricedRow;
use nms_board::MOST_ROWS;
use nms_rules::{MOST_SIZE, Rank};
use nms_units::{MOST_SHARES, Money};

/// The cost of n shares of a pool, the cheapest first.
#[derive(Clone, Copy)]
pub(crate) struct Taken {
    /// The cost of the last of these shares with its fee, in nanodollars. If no share is taken, it is the cost of the cheapest
    /// one.
    pub(crate) marginal: Money,
    /// The cost of all of these shares with fees, in nanodollars.
    pub(crate) cost: Money,
}

/// The cost of n shares of the pool at a cutoff, the cheapest first, in one pass. The rows come in the order of their costs.
#[tactic(auto, unfolding(crate::specs::Choice::share_cost, crate::specs::Taken::taken_cost))]
pub(crate) fn take_cheapest(by_cost: &ByCost, cutoff: Rank, number: u64) -> Taken
    requires rows { length by_cost.now ≤ MOST_ROWS }
    requires number { number ≤ MOST_SHARES }
    ensures marginal { result.marginal ≡ share_cost cutoff number (pos 0) by_cost.now }
    ensures cost { result.cost ≡ taken_cost cutoff number by_cost.now }
    ensures marginal_low { neg_ℤ (pos (10 ^ 18)) ≤ℤ result.marginal }
    ensures marginal_high { result.marginal ≤ℤ pos (10 ^ 18) }
    ensures low { neg_ℤ (pos (2 ^ 106)) ≤ℤ result.cost }
    ensures high { result.cost ≤ℤ pos (2 ^ 106) }
{
    let mut left = number;
    let mut taken = Taken {
        marginal: Money::new(0),
        cost: Money::new(0),
    };
    for at in 0..by_cost.len() {
        let row = by_cost.row(at);
        if has_last(row, cutoff, left) {
            return with_shares(taken, row, left);
        }
        let part = pool_part(row, cutoff);
        taken = with_shares(taken, row, part);
        left = left.saturating_sub(part);
    }
    taken
}

/// Whether a row is in the pool, and has all the shares that are still to be taken.
fn has_last(row: &PricedRow, cutoff: Rank, number: u64) -> bool
    ensures { result ≡ has_last cutoff number row.now }
{
    row.is_pooled(cutoff) && number <= u64::from(row.size)
}

/// The cost after n shares of a row are taken too.
fn with_shares(taken: Taken, row: &PricedRow, shares: u64) -> Taken
    requires shares { shares ≤ MOST_SIZE }
    requires low { neg_ℤ (pos (2 ^ 110)) ≤ℤ taken.cost }
    requires high { taken.cost ≤ℤ pos (2 ^ 110) }
    ensures marginal { result.marginal ≡ row.now.cost }
    ensures cost { result.cost ≡ taken.cost +ℤ row.now.cost *ℤ pos shares }
    ensures marginal_low { neg_ℤ (pos (10 ^ 18)) ≤ℤ row.now.cost }
    ensures marginal_high { row.now.cost ≤ℤ pos (10 ^ 18) }
    ensures low { neg_ℤ (pos (2 ^ 100)) ≤ℤ (row.now.cost *ℤ pos shares) }
    ensures high { (row.now.cost *ℤ pos shares) ≤ℤ pos (2 ^ 100) }
{
    Taken {
        marginal: row.unit_cost(),
        cost: taken.cost.plus(row.unit_cost().times(shares)),
    }
}

/// How many shares of a row are in the pool.
fn pool_part(row: &PricedRow, cutoff: Rank) -> u64
    ensures part { result ≡ pool_part cutoff row.now }
    ensures within { result ≤ MOST_SIZE }
{
    let size = u64::from(row.size);
    if row.is_pooled(cutoff) { size } else { 0 }
}
