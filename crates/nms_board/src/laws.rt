//! Laws about the definitions of the board. Each function does nothing: its contract is the law.
ghost use Rattle.std.specs.Prelude.{◌≡◌, ◌≢◌, ℕ, ◌<◌, ◌≤◌, All, List, AllPairs, [], ◌∷◌, ◌++◌, length, true, false, Option, Some, None};
ghost use Rattle.nms_quote.specs.Content.{Content};
ghost use Rattle.nms_quote.specs.Roster.{Sizes, holds};
ghost use Rattle.nms_quote.specs.Tape.{Tape, participant_of};
ghost use Rattle.nms_quote.specs.declared.change.Change.{Change};
ghost use Rattle.nms_quote.specs.declared.change.Change.TheVariants.{Quote};
ghost use Rattle.nms_quote.specs.declared.side_quote.QState.{QState};
ghost use Rattle.nms_quote.specs.declared.side_quote.Side.{Side};
ghost use Rattle.nms_board.specs.Cells.{Board, after};
ghost use Rattle.nms_board.specs.Examples.{ExamplesHold};
ghost use Rattle.nms_board.specs.History.{concerns, content_at, on_side, receipt_of, said_of};
ghost use Rattle.nms_board.specs.Laws.{HidesAndKeeps, IsReceipt, KeepsReceipts, KeepsSide};
ghost use Rattle.nms_board.specs.Quotation.{quotation_of, quotations};
ghost use Rattle.nms_board.specs.Ranking.{IsRankOrder, ranked};
ghost use Rattle.nms_board.specs.Shown.{rows_held};
ghost use Rattle.nms_board.specs.View.{AreRows};
ghost use Rattle.nms_board.specs.declared.row.Row.{Row};

use crate::MOST_ROWS;

/// A side's receipt is the least version from which every version has the side's content.
pub fn receipt_is_least()
    ensures { (part sym : ℕ) (side : Side) (tape : Tape)
        → IsReceipt part sym side tape (receipt_of part sym side tape) }
{}

/// A change that says nothing about a side leaves its content and receipt. Every change of another participant is such a change.
pub fn others_keep_their_receipts()
    ensures unsaid { (part sym : ℕ) (side : Side) (tape : Tape) (change : Change)
        → said_of part sym side change ≡ None → KeepsSide part sym side tape change }
    ensures others { (part sym : ℕ) (side : Side) (tape : Tape) (change : Change)
        → participant_of change ≢ Some part → KeepsSide part sym side tape change }
{}

/// A quote that gives a side the price and shares that it has leaves its receipt.
pub fn repeated_side_keeps_its_receipt()
    ensures { (part sym : ℕ) (side : Side) (tape : Tape) (state : QState)
        (bid offer : Option Content)
        → content_at part sym side tape ≡ on_side side bid offer
        → KeepsSide part sym side tape (Quote part sym state bid offer) }
{}

/// A halt hides the participant's quotations in the symbol and alters nothing. After it they are shown again with their
/// receipts, in the lot of that time.
pub fn halting_hides_and_keeps()
    ensures { (sizes : Sizes) (part sym : ℕ) (tape : Tape) → HidesAndKeeps sizes part sym tape }
{}

/// A new round lot of a symbol alters no side. Its quotations are ranked in the new lot, and each row that appears or stays
/// keeps its receipt. Other symbols show the same as before.
pub fn new_lot_keeps_receipts()
    ensures { (sizes : Sizes) (sym lot : ℕ) (tape : Tape) → sym < length sizes.lots
        → KeepsReceipts sizes sym lot tape }
{}

/// Two participants' quotations in a symbol, on one side or on both, have different receipts. Each receipt is a change's
/// number, so one of them is the later.
pub fn receipts_differ()
    ensures participants { (sizes : Sizes) (tape : Tape) (sym : ℕ) (one other : Side)
        (p q : ℕ) (row second : Row) → p ≢ q
        → quotation_of sizes tape sym one p ≡ Some row
        → quotation_of sizes tape sym other q ≡ Some second
        → row.receipt ≢ second.receipt }
    ensures rows { (sizes : Sizes) (tape : Tape) (sym : ℕ) (side : Side)
        → AllPairs (λ row other. row.receipt ≢ other.receipt)
        (quotations sizes tape sym side) }
    ensures within { (sizes : Sizes) (tape : Tape) (sym : ℕ) (side : Side)
        → All (λ row. (1 ≤ row.receipt) × (row.receipt ≤ length tape))
        (quotations sizes tape sym side) }
{}

/// The quotations on a side of a symbol are by participant place, at most one for each. Each has some displayed shares and its
/// own receipt.
pub fn quotations_stand_by_participant()
    ensures { (sizes : Sizes) (tape : Tape) (sym : ℕ) (side : Side)
        → AreRows (quotations sizes tape sym side) }
{}

/// The quotations on a side of a symbol have one rank order: the same rows, each of which ranks above every
/// later one.
pub fn rows_have_one_rank_order()
    ensures in_order { (sizes : Sizes) (tape : Tape) (sym : ℕ) (side : Side)
        → IsRankOrder side (quotations sizes tape sym side)
        (ranked side (quotations sizes tape sym side)) }
    ensures one { (side : Side) (rows in_order : List Row) → IsRankOrder side rows in_order
        → in_order ≡ ranked side rows }
{}

/// The rank order of a side determines its rows: no other rows that a side could show have that order. So a view is no more
/// than its two rank orders.
pub fn a_rank_order_says_its_rows()
    ensures { (side : Side) (rows others in_order : List Row) → AreRows rows → AreRows others
        → IsRankOrder side rows in_order → IsRankOrder side others in_order → rows ≡ others }
{}

/// A change leaves the quotations of every symbol that it does not concern. A new round lot of another symbol is such a change.
pub fn other_symbols_stay()
    ensures { (board : Board) (change : Change) (sym : ℕ) (side : Side)
        → board.sizes.parts ≤ MOST_ROWS → holds board.sizes change ≡ true
        → concerns sym change ≡ false
        → rows_held (after board change) sym side ≡ rows_held board sym side }
{}

/// The definitions give what the worked examples say.
pub fn worked_examples()
    ensures { ExamplesHold }
{}
