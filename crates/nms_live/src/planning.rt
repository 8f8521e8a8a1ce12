//! How a desk plans: on the published board itself, in room that it keeps (specs/Planning).
ghost use Rattle.std.specs.Prelude.{◌≡◌};

use nms_board::Boards;
use nms_fees::Setup;
use nms_quote::Order;
use nms_sweep::Planner;
use nms_versions::Onlooker;

/// Plans an order on the board that a look shows.
#[derive(Drop)]
pub struct Planning<'s> {
    pub(crate) setup: &'s Setup,
    pub(crate) order: Order,
    pub(crate) planner: Planner,
}

impl<'s> Planning<'s> {
    /// The planning of a desk that has planned nothing yet. It takes no memory.
    pub(crate) fn new(setup: &'s Setup) -> Self
        ensures { result.setup.now ≡ setup.now }
    {
        let planner = Planner::new();
        Planning {
            setup,
            order: planner.plan().order,
            planner,
        }
    }
}

impl<'s> Onlooker for Planning<'s> {
    ghost use Rattle.nms_live.specs.Planning.{HasPlanned};

    type Sight = ();

    ghost Sees = { λ before board after sight. HasPlanned before board after };

    /// Plans the order on the board that is shown. A symbol that is not on the roster has no quotations.
    fn see(&mut self, board: &Boards) {
        if board.has_sym(self.order.sym) {
            self.planner.plan_on(board, &self.order, self.setup.fees());
        } else {
            let view = board.view(self.order.sym);
            self.planner
                .plan_view(&view, &self.order, self.setup.fees());
        }
    }
}
