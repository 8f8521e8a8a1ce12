//! A planner for one order after another: `specs/Planned`.
ghost use Rattle.std.specs.Prelude.{◌≡◌, ◌<◌, [], None, length};
ghost use Rattle.nms_board.specs.Shown.{seen_on};
ghost use Rattle.nms_rules.specs.Accepted.{IsAccepted};
ghost use Rattle.nms_rules.specs.Assignment.{IsOptimal, fillable};
ghost use Rattle.nms_rules.specs.Breach.{breach_of};
ghost use Rattle.nms_rules.specs.Faultless.{given_by};
ghost use Rattle.nms_rules.specs.Usable.{usable};
ghost use Rattle.nms_sweep.specs.Filling.{AreExact, FillsInOrder};
ghost use Rattle.nms_sweep.specs.Order.{AreInOrder};
ghost use Rattle.nms_sweep.specs.Planned.{IsPlanned};

use crate::cutoffs::Cutoffs;
use crate::made::Made;
use nms_board::{Boards, View};
use nms_fee_book::FeeBook;
use nms_quote::{Certificate, Order, OrderSide, PartSet, Plan, Sym};
use nms_units::{Price, Shares};
use std::marker::Model;

/// A planner for a caller who plans one order after another. Its rooms are made once, and no order clears or moves them.
pub struct Planner {
    cutoffs: Cutoffs,
    made: Made,
}

/// This type has its own `Drop`. So a function that holds such a value has one call at each exit, and not one for each part
/// (docs/GATE.md).
impl Drop for Planner {
    fn drop(self) {
        let Planner {
            cutoffs: _,
            made: _,
        } = self;
    }
}

impl Model for Planner {
    ghost use Rattle.nms_sweep.specs.Planned.{Planned};

    ghost Value = { Planned };

    ghost view = { λ p. record { plan = p.made.plan; cuts = p.made.cuts.items } };
}

impl Planner {
    /// A planner that has planned nothing, so that its plan fills nothing. Takes no memory.
    pub fn new() -> Self
        ensures filled { result.plan.filled ≡ 0 }
        ensures legs { result.plan.legs.items ≡ [] }
        ensures cuts { result.cuts ≡ [] }
    {
        let order = Order::new(
            OrderSide::Buy,
            Sym::new(0).unwrap(),
            Shares::new(1).unwrap(),
            Price::new(1).unwrap(),
            false,
            PartSet::none(),
        );
        Planner {
            cutoffs: Cutoffs::none(),
            made: Made::of(&order.unwrap()),
        }
    }

    /// Plans an order on what a look at a board shows for the order's symbol. The plan and its certificate replace the ones
    /// before. The rows are read off the board, without making a view. Takes no memory.
    pub fn plan_on(&mut self, board: &Boards, order: &Order, fees: &FeeBook)
        requires { order.now.sym < length board.now.sizes.lots }
        ensures lawful { breach_of (seen_on board.now order.now.sym) order.now fees.now self.new.plan ≡ None }
        ensures most { self.new.plan.filled ≡ fillable (usable (seen_on board.now order.now.sym) order.now fees.now) order.now.shares }
        ensures accepted { IsAccepted (seen_on board.now order.now.sym) order.now fees.now self.new.plan self.new.cuts }
        ensures optimal { IsOptimal (usable (seen_on board.now order.now.sym) order.now fees.now) order.now.shares (given_by self.new.plan.legs.items) }
        ensures ordered { AreInOrder order.now.side self.new.plan.legs.items }
        ensures filling { FillsInOrder (usable (seen_on board.now order.now.sym) order.now fees.now) (given_by self.new.plan.legs.items) }
        ensures exact { AreExact order.now.side (usable (seen_on board.now order.now.sym) order.now fees.now) self.new.plan.filled self.new.cuts }
    {
        let version = board.applied();
        board.shows_rows(order.sym);
        self.cutoffs.set_on(board, order, fees);
        self.made.set(version, order, &self.cutoffs);
    }

    /// Plans an order on a view. The plan and its certificate replace the ones before.
    pub fn plan_view(&mut self, view: &View, order: &Order, fees: &FeeBook)
        requires { order.now.sym ≡ view.now.sym }
        ensures planned { IsPlanned view.now order.now fees.now self.new.plan self.new.cuts }
    {
        let version = view.version();
        let cutoffs = Cutoffs::new(view, order, fees);
        self.made.set(version, order, &cutoffs);
    }

    /// The plan of the last order.
    pub fn plan(&self) -> &Plan
        ensures { result.now ≡ self.now.plan }
    {
        &self.made.plan
    }

    /// The certificate of the last order's plan.
    pub fn certificate(&self) -> &Certificate
        ensures { result.now.items ≡ self.now.cuts }
    {
        &self.made.cuts
    }
}
