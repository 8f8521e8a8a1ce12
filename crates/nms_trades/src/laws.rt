//! Laws about the definitions. Each function does nothing: its contract is the law.
ghost use Rattle.std.specs.Prelude.{◌≡◌, ◌≤◌, ℕ, ◌*◌, All, Bool, List, None, Some, false, length, nat_lt, true};
ghost use Rattle.nms_quote.specs.Roster.{Listing, Sizes};
ghost use Rattle.nms_quote.specs.Tape.{Tape};
ghost use Rattle.nms_quote.specs.declared.side_quote.Side.TheVariants.{Bid, Offer};
ghost use Rattle.nms_board.specs.Ranking.{better_price};
ghost use Rattle.nms_trades.specs.Answers.{Answer, answer_records};
ghost use Rattle.nms_trades.specs.Around.{standing_over};
ghost use Rattle.nms_trades.specs.Columns.{column_names};
ghost use Rattle.nms_trades.specs.Day.{judged_among, of_day, once};
ghost use Rattle.nms_trades.specs.Examples.{ExamplesHold};
ghost use Rattle.nms_trades.specs.Found.{answer_in};
ghost use Rattle.nms_trades.specs.Judged.{whole_price};
ghost use Rattle.nms_trades.specs.Quoted.{is_unquoted};
ghost use Rattle.nms_trades.specs.Stretch.{owners, rise_from, stretches};
ghost use Rattle.nms_trades.specs.declared.execution.Execution.{Execution};
ghost use Rattle.nms_trades.specs.declared.said.Said.{Said};
ghost use Rattle.nms_trades.specs.declared.shape.Shape.TheVariants as shape;
ghost use Rattle.nms_trades.specs.declared.standing.Standing.TheVariants as standing;

/// For each price in 1/1,000,000 dollar, one price in 1/10,000 dollar decides for a side. A quotation is better than the one if
/// and only if it is better than the other.
pub fn a_whole_price_decides()
    ensures bids { (price millionths : ℕ) → better_price Bid price (whole_price Bid millionths) ≡ nat_lt millionths (price * 100) }
    ensures offers { (price millionths : ℕ) → better_price Offer price (whole_price Offer millionths) ≡ nat_lt (price * 100) millionths }
{}

/// An execution that trades through over the versions of its window does so on each of them, and a clean one on none.
pub fn a_window_is_all_or_none()
    ensures all { (through : ℕ → Bool) (first last : ℕ) → standing_over through first last ≡ standing.Through
        → (n : ℕ) → first ≤ n → n ≤ last → through n ≡ true }
    ensures none { (through : ℕ → Bool) (first last : ℕ) → standing_over through first last ≡ standing.Clean
        → (n : ℕ) → first ≤ n → n ≤ last → through n ≡ false }
{}

/// If the cuts of a symbol do not fall, exactly one of its shards judges an execution. This also holds at the time of a cut.
pub fn one_shard_judges()
    ensures { (before : Bool) (cuts : List ℕ) (t : ℕ) → rise_from 0 cuts ≡ true → length (owners before t (stretches None cuts)) ≡ 1 }
{}

/// Suppose that the shards of a day say something together about a record. Then exactly one of them judges it, if it is judged, and
/// else none. They say nothing only if two judge it.
pub fn a_day_judges_once()
    ensures once { (shards : List Said) (it : Said) → of_day shards ≡ Some it → judged_among shards ≡ once it }
    ensures twice { (shards : List Said) → of_day shards ≡ None → 2 ≤ judged_among shards }
{}

/// For a clean execution, its symbol had a quotation on each version of its window.
pub fn a_clean_one_was_quoted()
    ensures { (sizes : Sizes) (tape : Tape) (execution : Execution) → answer_in sizes tape execution ≡ standing.Clean
        → (n : ℕ) → execution.first ≤ n → is_unquoted tape execution.sym n ≡ false }
{}

/// Each line of columns has a field for each of their names.
pub fn each_column_has_a_name()
    ensures { (roster : Listing) (answer : Answer)
        → All (λ fields. length fields ≡ length column_names) (answer_records shape.Columns roster answer) }
{}

/// The definitions give what the worked examples say. They are those of quoted symbols, shards, sums, causes, columns, quality
/// and the order of answers.
pub fn worked_examples()
    ensures { ExamplesHold }
{}
