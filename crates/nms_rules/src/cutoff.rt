//! The shares to sweep at a cutoff, the pool, and the least cost of filling n shares: `specs/Cutoff`.
ghost use Rattle.std.specs.Prelude.{◌≡◌, ◌≤◌, ◌+◌, ◌*◌, ◌^◌, ◌+ℤ◌, ◌-ℤ◌, ◌≤ℤ◌, neg_ℤ, pos, length};
ghost use Rattle.std.specs.Int.{int_max};
ghost use Rattle.nms_rules.specs.Assignment.{fillable, total};
ghost use Rattle.nms_rules.specs.Cutoff.{is_pooled, is_swept, least_cost, pool, pool_part, savings, savings_part, swept, swept_cost, swept_cost_part, swept_part};

use crate::MOST_SIZE;
use crate::rank::Rank;
use crate::usable_row::UsableRow;
use nms_board::MOST_ROWS;
use nms_units::{MOST_SHARES, Money, Shares};

/// How many shares can be filled: all that the rows show, or the number asked for if that is less.
///
/// There are at most `MOST_ROWS` rows, one for each participant.
pub fn fillable(rows: &[UsableRow], asked: Shares) -> u64
    requires { length rows.now ≤ MOST_ROWS }
    ensures most { result ≡ fillable rows.now asked }
    ensures within { result ≤ MOST_SHARES }
{
    shown(rows).min(u64::from(asked.get()))
}

/// How many shares the rows show.
#[tactic(auto, using(crate::proofs::SumLemmas::total_none, crate::proofs::SumLemmas::total_more))]
fn shown(rows: &[UsableRow]) -> u64
    requires { length rows.now ≤ MOST_ROWS }
    ensures { result ≡ total (λ row. row.size) rows.now }
{
    let mut sum = 0;
    for row in rows {
        sum += u64::from(row.size);
    }
    sum
}

/// Whether a row must be swept before the order may trade at a price of the given rank. It must if it is protected and at a
/// better price (17 CFR 242.600, "intermarket sweep order").
pub fn is_swept(row: &UsableRow, cutoff: Rank) -> bool
    ensures { result ≡ is_swept cutoff row.now }
{
    row.protected && row.rank < cutoff
}

/// Whether a row is in the pool at a cutoff, which is a price of the given rank. It is if it is at that price or better, and
/// need not be swept.
pub fn is_pooled(row: &UsableRow, cutoff: Rank) -> bool
    ensures { result ≡ is_pooled cutoff row.now }
{
    row.rank <= cutoff && !is_swept(row, cutoff)
}

/// How many of a row's shares must be swept before the order may trade at a price of the given rank.
fn swept_part(row: &UsableRow, cutoff: Rank) -> u64
    ensures part { result ≡ swept_part cutoff row.now }
    ensures within { result ≤ MOST_SIZE }
{
    if is_swept(row, cutoff) {
        u64::from(row.size)
    } else {
        0
    }
}

/// How many of a row's shares are in the pool of shares that may be traded with at a price of the given rank.
fn pool_part(row: &UsableRow, cutoff: Rank) -> u64
    ensures part { result ≡ pool_part cutoff row.now }
    ensures within { result ≤ MOST_SIZE }
{
    if is_pooled(row, cutoff) {
        u64::from(row.size)
    } else {
        0
    }
}

/// How many shares must be swept before the order may trade at a price of the given rank. They are those of the protected rows
/// at better prices (17 CFR 242.600, "intermarket sweep order").
#[tactic(auto, using(crate::proofs::SumLemmas::total_none, crate::proofs::SumLemmas::total_more))]
pub fn swept(rows: &[UsableRow], cutoff: Rank) -> u64
    requires { length rows.now ≤ MOST_ROWS }
    ensures sum { result ≡ swept cutoff rows.now }
    ensures within { result ≤ 2 ^ 37 }
{
    let mut sum = 0;
    for row in rows {
        sum += swept_part(row, cutoff);
    }
    sum
}

/// How many shares are in the pool. They are those of the rows at a price of that rank or better that need not be swept.
#[tactic(auto, using(crate::proofs::SumLemmas::total_none, crate::proofs::SumLemmas::total_more))]
pub fn pool(rows: &[UsableRow], cutoff: Rank) -> u64
    requires { length rows.now ≤ MOST_ROWS }
    ensures sum { result ≡ pool cutoff rows.now }
    ensures within { result ≤ 2 ^ 37 }
{
    let mut sum = 0;
    for row in rows {
        sum += pool_part(row, cutoff);
    }
    sum
}

/// The cost, with fees, of a row's shares that must be swept before the order may trade at a price of the given rank.
fn swept_cost_part(row: &UsableRow, cutoff: Rank) -> Money
    ensures part { result ≡ swept_cost_part cutoff row.now }
    ensures low { neg_ℤ (pos (2 ^ 100)) ≤ℤ result }
    ensures high { result ≤ℤ pos (2 ^ 100) }
{
    if is_swept(row, cutoff) {
        row.cost.times(u64::from(row.size))
    } else {
        Money::new(0)
    }
}

/// How much less a share of a row costs than the marginal, which is the price of one more share. It is 0 if the share costs no
/// less.
fn saved_by(row: &UsableRow, marginal: Money) -> Money
    requires low { neg_ℤ (pos (10 ^ 18)) ≤ℤ marginal }
    requires high { marginal ≤ℤ pos (10 ^ 18) }
    ensures value { result ≡ int_max (marginal -ℤ row.now.cost) (pos 0) }
    ensures low { pos 0 ≤ℤ result }
    ensures high { result ≤ℤ pos (2 ^ 62) }
{
    let difference = marginal.get() - row.cost.get();
    Money::new(difference.max(0))
}

/// How much less the shares of a row in the pool cost than at the marginal, which is the price of one more share. It is 0 if
/// they cost no less.
fn savings_part(row: &UsableRow, cutoff: Rank, marginal: Money) -> Money
    requires low { neg_ℤ (pos (10 ^ 18)) ≤ℤ marginal }
    requires high { marginal ≤ℤ pos (10 ^ 18) }
    ensures part { result ≡ savings_part cutoff marginal row.now }
    ensures low { neg_ℤ (pos (2 ^ 100)) ≤ℤ result }
    ensures high { result ≤ℤ pos (2 ^ 100) }
{
    if is_pooled(row, cutoff) {
        saved_by(row, marginal).times(u64::from(row.size))
    } else {
        Money::new(0)
    }
}

/// The difference of two amounts that are far from the ends of their type.
fn minus(one: Money, other: Money) -> Money
    requires low { (neg_ℤ (pos (2 ^ 112)) ≤ℤ one) × (neg_ℤ (pos (2 ^ 112)) ≤ℤ other) }
    requires high { (one ≤ℤ pos (2 ^ 112)) × (other ≤ℤ pos (2 ^ 112)) }
    ensures { result ≡ one -ℤ other }
{
    Money::new(one.get() - other.get())
}

/// The sums over rows at a cutoff, which is the worst price at which an order may trade.
#[derive(Clone, Copy)]
struct Sums {
    /// How many shares must be swept.
    swept: u64,
    /// The cost of the shares that must be swept, with fees.
    swept_cost: Money,
    /// How much less the cheap shares of the pool cost than at the marginal, which is the price of one more share.
    savings: Money,
}

impl Sums {
    /// The sums over no rows.
    fn none() -> Self
        ensures { result ≡ record { swept = 0; swept_cost = pos 0; savings = pos 0 } }
    {
        Sums {
            swept: 0,
            swept_cost: Money::new(0),
            savings: Money::new(0),
        }
    }
}

/// The sums with one more row.
fn with_row(sums: Sums, row: &UsableRow, cutoff: Rank, marginal: Money) -> Sums
    requires swept { sums.swept ≤ 2 ^ 37 }
    requires cost_low { neg_ℤ (pos (2 ^ 106)) ≤ℤ sums.swept_cost }
    requires cost_high { sums.swept_cost ≤ℤ pos (2 ^ 106) }
    requires savings_low { neg_ℤ (pos (2 ^ 106)) ≤ℤ sums.savings }
    requires savings_high { sums.savings ≤ℤ pos (2 ^ 106) }
    requires low { neg_ℤ (pos (10 ^ 18)) ≤ℤ marginal }
    requires high { marginal ≤ℤ pos (10 ^ 18) }
    ensures swept { result.swept ≡ sums.swept + swept_part cutoff row.now }
    ensures within { swept_part cutoff row.now ≤ MOST_SIZE }
    ensures swept_cost { result.swept_cost ≡ sums.swept_cost +ℤ swept_cost_part cutoff row.now }
    ensures cost_low { neg_ℤ (pos (2 ^ 100)) ≤ℤ swept_cost_part cutoff row.now }
    ensures cost_high { swept_cost_part cutoff row.now ≤ℤ pos (2 ^ 100) }
    ensures savings { result.savings ≡ sums.savings +ℤ savings_part cutoff marginal row.now }
    ensures savings_low { neg_ℤ (pos (2 ^ 100)) ≤ℤ savings_part cutoff marginal row.now }
    ensures savings_high { savings_part cutoff marginal row.now ≤ℤ pos (2 ^ 100) }
{
    Sums {
        swept: sums.swept + swept_part(row, cutoff),
        swept_cost: sums.swept_cost.plus(swept_cost_part(row, cutoff)),
        savings: sums.savings.plus(savings_part(row, cutoff, marginal)),
    }
}

/// The sums over all rows, found in one pass.
fn sums_at(rows: &[UsableRow], cutoff: Rank, marginal: Money) -> Sums
    requires rows { length rows.now ≤ MOST_ROWS }
    requires low { neg_ℤ (pos (10 ^ 18)) ≤ℤ marginal }
    requires high { marginal ≤ℤ pos (10 ^ 18) }
    ensures swept { result.swept ≡ swept cutoff rows.now }
    ensures swept_cost { result.swept_cost ≡ swept_cost cutoff rows.now }
    ensures cost_low { neg_ℤ (pos (2 ^ 105)) ≤ℤ result.swept_cost }
    ensures cost_high { result.swept_cost ≤ℤ pos (2 ^ 105) }
    ensures savings { result.savings ≡ savings cutoff marginal rows.now }
    ensures savings_low { neg_ℤ (pos (2 ^ 105)) ≤ℤ result.savings }
    ensures savings_high { result.savings ≤ℤ pos (2 ^ 105) }
{
    let mut sums = Sums::none();
    for row in rows {
        sums = with_row(sums, row, cutoff, marginal);
    }
    sums
}

/// The least cost of filling n shares at a price of the given rank and no worse, by a marginal. The marginal is the price, in
/// nanodollars, of one more share. This product's own rule.
///
/// The marginal is from -10^18 to 10^18.
pub fn least_cost(rows: &[UsableRow], most: u64, cutoff: Rank, marginal: Money) -> Money
    requires rows { length rows.now ≤ MOST_ROWS }
    requires most { most ≤ MOST_SHARES }
    requires low { neg_ℤ (pos (10 ^ 18)) ≤ℤ marginal }
    requires high { marginal ≤ℤ pos (10 ^ 18) }
    ensures { result ≡ least_cost rows.now most cutoff marginal }
{
    let sums = sums_at(rows, cutoff, marginal);
    let rest = most.saturating_sub(sums.swept);
    let paid = sums.swept_cost.plus(marginal.times(rest));
    minus(paid, sums.savings)
}
