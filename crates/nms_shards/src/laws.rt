//! Laws about a symbol across shards, on the tapes of a whole day and of its shards: `specs/OfSymbol`. No function changes
//! anything: its contract is the law.
ghost use Rattle.std.specs.Prelude.{◌≡◌, ℕ, ◌++◌};
ghost use Rattle.nms_quote.specs.Roster.{Sizes};
ghost use Rattle.nms_quote.specs.Tape.{Tape};
ghost use Rattle.nms_quote.specs.declared.side_quote.Side.{Side};
ghost use Rattle.nms_board.specs.Cells.{Board, StandsFor};
ghost use Rattle.nms_opening.specs.Alike.{shown_in_order};
ghost use Rattle.nms_shards.specs.OfSymbol.{IsCut, IsOfShard, of_symbol, shows};
ghost use Rattle.nms_shards.specs.ShardExamples.{ExamplesHold};

use nms_opening::alike_boards_show_the_same;

/// For a symbol, a shard shows the rows that the complete day shows, in the same rank order, with the same protection. The
/// premise is that the shard's tape says the same about the symbol as the day's tape. The receipts of a shard are other
/// numbers.
///
/// The clause `boards` says this about the boards that the program keeps.
pub fn a_shard_shows_what_the_whole_shows()
    ensures tapes { (whole shard : Sizes) (day part : Tape) (sym own : ℕ) → IsOfShard whole shard sym own
        → of_symbol sym day ≡ of_symbol own part
        → (side : Side) → shows whole day sym side ≡ shows shard part own side }
    ensures boards { (whole shard : Board) (day part : Tape) (sym own : ℕ) → StandsFor whole day → StandsFor shard part
        → IsOfShard whole.sizes shard.sizes sym own → of_symbol sym day ≡ of_symbol own part
        → (side : Side) → shown_in_order whole sym side ≡ shown_in_order shard own side }
{
    // Boards that show alike for a symbol show the same rows of it.
    alike_boards_show_the_same();
}

/// A shard may begin with a symbol's opening changes, and go on with the symbol's changes after the cut. After each of them it
/// shows for the symbol what the complete day shows.
pub fn a_cut_shows_what_the_whole_shows()
    ensures { (whole shard : Sizes) (before later opened after : Tape) (sym own : ℕ) → IsCut whole shard before opened sym own
        → of_symbol sym later ≡ of_symbol own after
        → (side : Side) → shows whole (before ++ later) sym side ≡ shows shard (opened ++ after) own side }
{
    alike_boards_show_the_same();
}

/// The definitions give the results of the worked examples.
pub fn worked_examples()
    ensures { ExamplesHold }
{}
