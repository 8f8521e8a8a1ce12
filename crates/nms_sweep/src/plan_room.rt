//! Where a plan goes: its legs, and the cuts of its certificate, one after another.
ghost use Rattle.std.specs.Prelude.{◌≡◌, ◌<◌, ◌++◌, [], ◌∷◌, List, length};
ghost use Rattle.nms_board.specs.declared.TheConstants.{MOST_ROWS};
ghost use Rattle.nms_quote.specs.declared.certificate.Cut.{Cut};
ghost use Rattle.nms_quote.specs.declared.plan.Leg.{Leg};
ghost use Rattle.nms_sweep.specs.Choice.{IsInRange};

use nms_quote::{Cut, Leg};
use nms_units::Money;

/// Room for the legs of a plan and the cuts of its certificate, at most 32 of each. It is a struct of the caller, into which
/// the planner writes them at once.
pub trait PlanRoom {
    /// The legs that the room has.
    ghost legs: { Self → List Leg };

    /// The cuts that the room has.
    ghost cuts: { Self → List Cut };

    /// Whether all that the room holds is legs and cuts.
    ghost IsFilled: { Self → Type 0 };

    /// Takes all legs and cuts out of the room.
    fn clear(&mut self)
        ensures filled { IsFilled self.new }
        ensures legs { legs self.new ≡ [] }
        ensures cuts { cuts self.new ≡ [] };

    /// Puts a cut after those that the room has.
    fn put_cut(&mut self, cut: Cut)
        requires filled { IsFilled self.old }
        requires room { length (cuts self.old) < MOST_ROWS }
        requires range { IsInRange cut.kind }
        ensures filled { IsFilled self.new }
        ensures legs { legs self.new ≡ legs self.old }
        ensures cuts { cuts self.new ≡ cuts self.old ++ cut ∷ [] };

    /// Puts a leg after those that the room has.
    fn put_leg(&mut self, leg: Leg)
        requires filled { IsFilled self.old }
        requires room { length (legs self.old) < MOST_ROWS }
        ensures filled { IsFilled self.new }
        ensures legs { legs self.new ≡ legs self.old ++ leg ∷ [] }
        ensures cuts { cuts self.new ≡ cuts self.old };
}

/// What a plan has except its order and its legs.
#[derive(Clone, Copy)]
pub struct Outcome {
    /// The version on which the plan was made, which is how many changes had been applied.
    pub version: u64,
    /// The shares of all legs.
    pub filled: u32,
    /// The cost of all legs with fees, in nanodollars.
    pub cost: Money,
}
