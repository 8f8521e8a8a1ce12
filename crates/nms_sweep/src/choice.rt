//! Which cutoff is chosen: `specs/Choice`.
ghost use Rattle.std.specs.Prelude.{◌≡◌};
ghost use Rattle.nms_sweep.specs.Choice.{cheaper, cost_chosen};

use nms_rules::Rank;
use nms_units::Money;

/// A cutoff at which an order can be filled.
#[derive(Clone, Copy)]
pub(crate) struct Choice {
    /// The rank of its price.
    pub(crate) cutoff: Rank,
    /// The cost of the last share that a plan takes at the cutoff, in nanodollars.
    pub(crate) marginal: Money,
    /// The cost of all shares of such a plan, in nanodollars.
    pub(crate) cost: Money,
}

/// Of two cutoffs, the one at which the order costs less; the first one if they cost the same.
pub(crate) fn cheaper(best: Option<Choice>, other: Option<Choice>) -> Option<Choice>
    ensures { result ≡ cheaper best other }
{
    match (best, other) {
        (None, other) => other,
        (Some(best), None) => Some(best),
        (Some(best), Some(other)) => {
            if other.cost < best.cost {
                Some(other)
            } else {
                Some(best)
            }
        }
    }
}

/// The cost at the chosen cutoff, with fees.
pub(crate) fn cost_chosen(choice: &Option<Choice>) -> Money
    ensures { result ≡ cost_chosen choice.now }
{
    match choice {
        Some(choice) => choice.cost,
        None => Money::new(0),
    }
}
