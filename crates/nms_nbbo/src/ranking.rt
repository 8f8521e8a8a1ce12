//! The best row of a side, and the protected ones: `specs/Best`.
ghost use Rattle.std.specs.Prelude.{◌≡◌, ◌<◌, ◌≤◌, length, IfSome};
ghost use Rattle.nms_board.specs.Shown.{rows_held};
ghost use Rattle.nms_board.specs.View.{rows_on};
ghost use Rattle.nms_board.specs.Ranking.{protected_among};
ghost use Rattle.nms_nbbo.specs.Best.{IsBestOf};

use arrayvec::ArrayVec;
use nms_board::{Boards, MOST_ROWS, Row, View};
use nms_quote::{Side, Sym};

/// The best bid or the best offer (17 CFR 242.600, "national best bid and national best offer"). It is `None` if and only if
/// the side is empty. A manual quotation ranks like any other.
pub fn best(view: &View, side: Side) -> Option<Row>
    ensures { IsBestOf side (rows_on side view.now) result }
{
    view.ranked(side, 0)
}

/// The best bid or the best offer of a symbol on a board. It is that of its view, without making the view.
#[inline(always)]
pub fn best_on(board: &Boards, side: Side, sym: Sym) -> Option<Row>
    requires { sym < length board.now.sizes.lots }
    ensures best { IsBestOf side (rows_held board.now sym side) result }
    ensures part { IfSome result (λ row. row.part < board.now.sizes.parts) }
{
    board.best(side, sym)
}

/// The protected rows of a side by participant place (17 CFR 242.600, "protected bid or protected offer").
pub fn protected(view: &View, side: Side) -> ArrayVec<Row, MOST_ROWS>
    ensures { result.items ≡ protected_among (rows_on side view.now) }
{
    protected_among(view.rows(side))
}

/// The protected rows among the given ones, in their order.
fn protected_among(rows: &[Row]) -> ArrayVec<Row, MOST_ROWS>
    requires { length rows.now ≤ MOST_ROWS }
    ensures { result.items ≡ protected_among rows.now }
{
    let mut kept = ArrayVec::new_in(());
    for row in rows {
        if row.protected {
            kept.push(*row);
        }
    }
    kept
}
