//! The legs at the chosen cutoff: `specs/Choice`.
ghost use Rattle.std.specs.Prelude.{◌≡◌, [], ◌≤◌, ◌<◌, ◌+◌, ◌^◌, length};
ghost use Rattle.nms_rules.specs.Cutoff.{swept, swept_part};
ghost use Rattle.nms_rules.specs.Faultless.{sum_of};
ghost use Rattle.nms_sweep.specs.Choice.{below, below_part, is_below, is_level, left_after, legs_chosen, legs_of, share_of};
ghost use Rattle.nms_sweep.specs.Order.{IsByPrice, StopAt};

use crate::choice::Choice;
use crate::plan_room::PlanRoom;
use crate::priced_row::PricedRow;
use nms_board::MOST_ROWS;
use nms_quote::Leg;
use nms_rules::{MOST_SIZE, Rank};
use nms_units::{MOST_SHARES, Money, Shares};

/// Puts the legs at the chosen cutoff into room without legs, best price first, then by place; none if nothing can be
/// filled. The rows come in the order of their prices.
pub(crate) fn put_legs<W: PlanRoom>(
    rows: &[PricedRow],
    most: u64,
    choice: &Option<Choice>,
    out: &mut W,
)
    requires filled { W.IsFilled out.old }
    requires rows { length rows.now ≤ MOST_ROWS }
    requires empty { W.legs out.old ≡ [] }
    requires ordered { IsByPrice rows.now }
    requires few { sum_of (legs_chosen rows.now most choice.now rows.now) ≤ MOST_SHARES }
    ensures filled { W.IsFilled out.new }
    ensures legs { W.legs out.new ≡ legs_chosen rows.now most choice.now rows.now }
    ensures cuts { W.cuts out.new ≡ W.cuts out.old }
{
    if let Some(choice) = choice {
        let (before, rows) = taken_before(rows, choice.cutoff, choice.marginal);
        let left = most.saturating_sub(before);
        put_legs_at(choice.cutoff, choice.marginal, left, rows, out);
    }
}

/// Puts the legs at a cutoff into room, if n shares are left to take from the rows that cost exactly the marginal.
#[tactic(auto, unfolding(crate::specs::Choice::legs_of))]
fn put_legs_at<W: PlanRoom>(
    cutoff: Rank,
    marginal: Money,
    left: u64,
    rows: &[PricedRow],
    out: &mut W,
)
    requires filled { W.IsFilled out.old }
    requires rows { length rows.now ≤ MOST_ROWS }
    requires empty { W.legs out.old ≡ [] }
    requires few { sum_of (legs_of cutoff marginal left rows.now) ≤ MOST_SHARES }
    ensures filled { W.IsFilled out.new }
    ensures legs { W.legs out.new ≡ legs_of cutoff marginal left rows.now }
    ensures cuts { W.cuts out.new ≡ W.cuts out.old }
{
    let mut left = left;
    let mut behind = rows;
    while let Some((row, more)) = behind.split_first() {
        let shares = share_of(cutoff, marginal, left, row);
        if 0 < shares {
            out.put_leg(leg(row, shares));
        }
        left = left_after(cutoff, marginal, left, row);
        behind = more;
    }
}

/// The leg that sends shares to the participant of a row.
fn leg(row: &PricedRow, shares: u64) -> Leg
    requires { shares ≤ MOST_SHARES }
    ensures { result ≡ record { part = row.now.part; price = row.now.price; shares = shares } }
{
    Leg {
        part: row.part,
        price: row.price,
        shares: Shares::new(shares as u32).unwrap(),
    }
}

/// Whether a row of the pool costs less than the marginal.
fn is_below(cutoff: Rank, marginal: Money, row: &PricedRow) -> bool
    ensures { result ≡ is_below cutoff marginal row.now }
{
    row.is_pooled(cutoff) && row.unit_cost() < marginal
}

/// Whether a row of the pool costs exactly the marginal.
fn is_level(cutoff: Rank, marginal: Money, row: &PricedRow) -> bool
    ensures { result ≡ is_level cutoff marginal row.now }
{
    row.is_pooled(cutoff) && !(row.unit_cost() < marginal) && !(marginal < row.unit_cost())
}

/// How many shares are taken before those at the marginal: those that must be swept, and those that cost less. It also returns
/// the rows at the cutoff or better, because no other row has such shares.
#[tactic(auto, using(crate::proofs::SumFacts::total_none, crate::proofs::SumFacts::total_more))]
fn taken_before(rows: &[PricedRow], cutoff: Rank, marginal: Money) -> (u64, &[PricedRow])
    requires few { length rows.now ≤ MOST_ROWS }
    requires ordered { IsByPrice rows.now }
    ensures stop { StopAt cutoff rows.now result.1.now }
    ensures few { length result.1.now ≤ MOST_ROWS }
    ensures sum { result.0 ≡ swept cutoff result.1.now + below cutoff marginal result.1.now }
{
    let mut sum = 0;
    for at in 0..rows.len() {
        let row = &rows[at];
        if row.is_beyond(cutoff) {
            return (sum, &rows[..at]);
        }
        sum += swept_part(row, cutoff);
        sum += below_part(row, cutoff, marginal);
    }
    (sum, rows)
}

/// How many of a row's shares must be swept before the order may trade at a price of the given rank.
fn swept_part(row: &PricedRow, cutoff: Rank) -> u64
    ensures part { result ≡ swept_part cutoff row.now }
    ensures within { result ≤ MOST_SIZE }
{
    if row.is_swept(cutoff) {
        u64::from(row.size)
    } else {
        0
    }
}

/// How many of a row's shares are in the pool and cost less than the marginal.
fn below_part(row: &PricedRow, cutoff: Rank, marginal: Money) -> u64
    ensures part { result ≡ below_part cutoff marginal row.now }
    ensures within { result ≤ MOST_SIZE }
{
    if is_below(cutoff, marginal, row) {
        u64::from(row.size)
    } else {
        0
    }
}

/// How many shares a row gets, if n shares are left to take at the marginal.
fn share_of(cutoff: Rank, marginal: Money, left: u64, row: &PricedRow) -> u64
    ensures share { result ≡ share_of cutoff marginal left row.now }
    ensures within { result ≤ MOST_SIZE }
{
    let size = u64::from(row.size);
    if row.is_swept(cutoff) || is_below(cutoff, marginal, row) {
        size
    } else if is_level(cutoff, marginal, row) {
        left.min(size)
    } else {
        0
    }
}

/// How many shares are left to take at the marginal after a row.
fn left_after(cutoff: Rank, marginal: Money, left: u64, row: &PricedRow) -> u64
    ensures { result ≡ left_after cutoff marginal left row.now }
{
    if is_level(cutoff, marginal, row) {
        left.saturating_sub(u64::from(row.size))
    } else {
        left
    }
}
