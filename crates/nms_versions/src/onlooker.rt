//! One who is shown the published board.
ghost use Rattle.std.specs.Prelude.{◌≡◌};
ghost use Rattle.nms_board.specs.Cells.{Board};

use nms_board::{Boards, View};

/// One who is shown the published board in a look, and takes from it what it wants.
pub trait Onlooker {
    /// What the onlooker takes from the sight of the board.
    type Sight;

    /// What the sight of a board does: the onlooker before, the board, the onlooker after, and what it takes with it.
    ghost Sees: { Self → Board → Self → Self.Sight → Type 0 };

    /// The onlooker sees the published board. A publisher may wait until the onlooker has seen it.
    fn see(&mut self, board: &Boards) -> Self::Sight
        ensures { Sees self.old board.now self.new result };
}

/// A view is shown all that the board shows for its symbol.
impl Onlooker for View {
    ghost use Rattle.std.specs.Prelude.{◌≡◌};
    ghost use Rattle.nms_board.specs.Shown.{seen_on};

    type Sight = ();

    ghost Sees = { λ before board after sight. after ≡ seen_on board before.sym };

    fn see(&mut self, board: &Boards) {
        board.view_into(self.sym(), self);
    }
}
