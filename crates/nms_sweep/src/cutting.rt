//! The cuts of a certificate, and the best of their cutoffs: `specs/Choice`.
ghost use Rattle.std.specs.Prelude.{◌≡◌, [], ◌≤◌, ◌^◌, ◌≤ℤ◌, All, None, length, map, neg_ℤ, pos};
ghost use Rattle.nms_rules.specs.Usable.{rank_of};
ghost use Rattle.nms_sweep.specs.Choice.{IsInRange, candidate, chosen, cut_by, kind_by};
ghost use Rattle.nms_sweep.specs.Cutoffs.{IsCutoffOf};
ghost use Rattle.nms_sweep.specs.Order.{IsByCost};
ghost use Rattle.nms_sweep.specs.Passed.{IsPassed, coming};

use crate::by_cost::ByCost;
use crate::choice::{Choice, cheaper};
use crate::cutoffs::{Cutoff, Passed, next_of};
use crate::plan_room::PlanRoom;
use crate::priced_row::PricedRow;
use crate::taking::take_cheapest;
use nms_board::MOST_ROWS;
use nms_quote::{Cut, CutKind, OrderSide};
use nms_rules::Rank;
use nms_units::MOST_SHARES;

/// Puts a cut for each cutoff after the passed rows into room without cuts, if n shares can be filled. Returns the cutoff of
/// least cost, and among equals the one at the best price. `None` if no cutoff can be filled at. The list in the order of costs
/// may leave out rows at prices where more must be swept than can be filled.
pub(crate) fn put_cuts<W: PlanRoom>(
    side: OrderSide,
    by_cost: &ByCost,
    most: u64,
    rows: &[PricedRow],
    passed: Passed,
    out: &mut W,
) -> Option<Choice>
    requires filled { W.IsFilled out.old }
    requires empty { W.cuts out.old ≡ [] }
    requires passed { IsPassed rows.now passed }
    requires few { length (coming rows.now passed) ≤ MOST_ROWS }
    requires costs { length by_cost.now ≤ MOST_ROWS }
    requires most { most ≤ MOST_SHARES }
    requires ordered { IsByCost by_cost.now }
    requires sums { All (λ cutoff. cutoff.swept ≤ most → IsCutoffOf side by_cost.now cutoff) (coming rows.now passed) }
    ensures filled { W.IsFilled out.new }
    ensures legs { W.legs out.new ≡ W.legs out.old }
    ensures cuts { W.cuts out.new ≡ map (cut_by side by_cost.now most) (coming rows.now passed) }
    ensures range { All (λ cut. IsInRange cut.kind) (W.cuts out.new) }
    ensures best { result ≡ chosen side by_cost.now most None (map (cut_by side by_cost.now most) (coming rows.now passed)) }
{
    let mut passed = passed;
    let mut best = None;
    loop {
        let (next, behind) = next_of(rows, passed);
        let Some(cutoff) = next else {
            return best;
        };
        passed = behind;
        let (kind, offer) = tried(side, by_cost, most, &cutoff);
        best = cheaper(best, offer);
        out.put_cut(Cut {
            price: cutoff.price,
            kind,
        });
    }
}

/// What the cut at a cutoff claims, and the marginal and the cost of filling n shares there, if that is possible.
fn tried(side: OrderSide, by_cost: &ByCost, most: u64, cutoff: &Cutoff) -> (CutKind, Option<Choice>)
    requires rows { length by_cost.now ≤ MOST_ROWS }
    requires most { most ≤ MOST_SHARES }
    requires ordered { IsByCost by_cost.now }
    requires sums { cutoff.now.swept ≤ most → IsCutoffOf side by_cost.now cutoff.now }
    requires low { neg_ℤ (pos (2 ^ 106)) ≤ℤ cutoff.now.swept_cost }
    requires high { cutoff.now.swept_cost ≤ℤ pos (2 ^ 106) }
    ensures kind { result.0 ≡ kind_by by_cost.now most (rank_of side cutoff.now.price) cutoff.now.swept cutoff.now.pool }
    ensures range { IsInRange result.0 }
    ensures offer { result.1 ≡ candidate by_cost.now most (rank_of side cutoff.now.price) result.0 }
{
    if most < cutoff.swept {
        return (CutKind::TooMuch, None);
    }
    let rest = most - cutoff.swept;
    if cutoff.pool < rest {
        return (CutKind::TooLittle, None);
    }
    let rank = Rank::of(side, cutoff.price);
    let taken = take_cheapest(by_cost, rank, rest);
    let offer = Choice {
        cutoff: rank,
        marginal: taken.marginal,
        cost: cutoff.swept_cost.plus(taken.cost),
    };
    (CutKind::Marginal(taken.marginal), Some(offer))
}
