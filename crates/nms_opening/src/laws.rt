//! Laws about the definitions. Each function does nothing: its contract is the law.
ghost use Rattle.std.specs.Prelude.{◌≡◌, ℕ, ◌<◌, length, true};
ghost use Rattle.nms_quote.specs.declared.change.Change.{Change};
ghost use Rattle.nms_quote.specs.declared.change.Change.TheVariants.{Lot};
ghost use Rattle.nms_board.specs.Cells.{Board, IsBoard, after, takes};
ghost use Rattle.nms_opening.specs.Alike.{ShowAlike, ShowSame};
ghost use Rattle.nms_opening.specs.Examples.{ExamplesHold};

/// Boards that show alike for a symbol show the same rows on both sides, in the same rank order. This holds now and in any
/// common round lot. Shares that no look shows are the same too.
pub fn alike_boards_show_the_same()
    ensures now { (one other : Board) (sym : ℕ) → ShowAlike one other sym → ShowSame one other sym }
    ensures in_any_lot { (one other : Board) (sym lot : ℕ) → ShowAlike one other sym
        → ShowSame (after one (Lot sym lot)) (after other (Lot sym lot)) sym }
{}

/// Boards that show alike for a symbol show alike after each change that both take.
pub fn alike_boards_stay_alike()
    ensures { (one other : Board) (sym : ℕ) (change : Change) → IsBoard one → IsBoard other
        → takes one change ≡ true → takes other change ≡ true → sym < length one.sizes.lots
        → ShowAlike one other sym → ShowAlike (after one change) (after other change) sym }
{}

/// The definitions give what the worked examples say.
pub fn worked_examples()
    ensures { ExamplesHold }
{}
