//! A plan with its certificate, as the planner makes them: `specs/Planned`.
ghost use Rattle.std.specs.Prelude.{◌≡◌, ◌≤◌, [], length};
ghost use Rattle.nms_board.specs.View.{Seen};
ghost use Rattle.nms_fee_book.specs.Fees.{Charges};
ghost use Rattle.nms_sweep.specs.Planned.{IsPlanned, IsTable};

use crate::cutoffs::Cutoffs;
use crate::plan_room::PlanRoom;
use crate::planning::fill;
use arrayvec::ArrayVec;
use nms_board::MOST_ROWS;
use nms_quote::{Certificate, Cut, CutKind, Leg, Order, Plan};
use nms_units::Money;

/// A plan and its certificate.
#[derive(Drop)]
pub(crate) struct Made {
    pub(crate) plan: Plan,
    pub(crate) cuts: Certificate,
}

impl Made {
    /// A plan that fills nothing for an order, with a certificate that has no cuts.
    pub(crate) fn of(order: &Order) -> Self
        ensures filled { result.plan.filled ≡ 0 }
        ensures legs { result.plan.legs.items ≡ [] }
        ensures cuts { result.cuts.items ≡ [] }
    {
        Made {
            plan: Plan {
                version: 0,
                order: *order,
                legs: ArrayVec::new_in(()),
                filled: 0,
                cost: Money::new(0),
            },
            cuts: ArrayVec::new_in(()),
        }
    }

    /// Makes the plan of an order, and its certificate, from the order's cutoffs at a version, none of which was given yet.
    /// They replace the plan and the certificate that were there.
    pub(crate) fn set(&mut self, version: u64, order: &Order, cutoffs: &Cutoffs)
        requires few { length cutoffs.now.to_come ≤ MOST_ROWS }
        requires table { (seen : Seen) × (fees : Charges) × IsTable seen order.now fees version cutoffs.now }
        ensures { (seen : Seen) (fees : Charges) → IsTable seen order.now fees version cutoffs.now
            → IsPlanned seen order.now fees self.new.plan self.new.cuts.items }
    {
        let outcome = fill(version, order, cutoffs, self);
        self.plan.version = outcome.version;
        self.plan.order = *order;
        self.plan.filled = outcome.filled;
        self.plan.cost = outcome.cost;
    }
}

impl PlanRoom for Made {
    ghost legs = { λ made. made.plan.legs.items };

    ghost cuts = { λ made. made.cuts.items };

    ghost IsFilled = { λ _. Unit {0} };

    fn clear(&mut self) {
        self.plan.legs.clear();
        self.cuts.clear();
    }

    #[inline(always)]
    fn put_cut(&mut self, cut: Cut) {
        // The prover has to see the type of a cut before a cut is pushed, so the code mentions it.
        let _seen: Option<CutKind> = None;
        self.cuts.push(cut);
    }

    #[inline(always)]
    fn put_leg(&mut self, leg: Leg) {
        self.plan.legs.push(leg);
    }
}
