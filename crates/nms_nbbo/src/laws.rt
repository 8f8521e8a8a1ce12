//! Laws about the ranking, the market and the pairs. Each function does nothing: its contract is the law.
ghost use Rattle.std.specs.Prelude.{◌≡◌, ◌≢◌, ℕ, ◌<◌, true, List, [], Option};
ghost use Rattle.nms_quote.specs.Roster.{Sizes};
ghost use Rattle.nms_quote.specs.Tape.{Tape};
ghost use Rattle.nms_quote.specs.declared.side_quote.Side.{Side};
ghost use Rattle.nms_quote.specs.declared.side_quote.Side.TheVariants.{Bid, Offer};
ghost use Rattle.nms_board.specs.Quotation.{quotations};
ghost use Rattle.nms_board.specs.View.{Seen};
ghost use Rattle.nms_board.specs.declared.row.Row.{Row};
ghost use Rattle.nms_nbbo.specs.Examples.{ExamplesHold};
ghost use Rattle.nms_nbbo.specs.Laws.{IsOfRoster, IsStrictTotalOrder, ListsPairs, SaysOf};
ghost use Rattle.nms_nbbo.specs.Market.{market_of};
ghost use Rattle.nms_board.specs.Ranking.{ranks_above};
ghost use Rattle.nms_nbbo.specs.Best.{IsBest, IsBestOf};

/// At most one row is best on a side of a symbol, on any tape.
pub fn one_best_row()
    ensures { (sizes : Sizes) (tape : Tape) (sym : ℕ) (side : Side) (row other : Row)
        → IsBest side (quotations sizes tape sym side) row → IsBest side (quotations sizes tape sym side) other → row ≡ other }
{}

/// A side with rows has a best row, and an empty side has none.
pub fn some_row_is_best()
    ensures some { (side : Side) (rows : List Row) → rows ≢ [] → (row : Row) × IsBest side rows row }
    ensures none { (side : Side) (row : Row) → ¬ IsBest side [] row }
{}

/// A higher bid and a lower offer rank first, with any sizes and times.
pub fn better_price_ranks_first()
    ensures bid { (row other : Row) → other.price < row.price → ranks_above Bid row other ≡ true }
    ensures offer { (row other : Row) → row.price < other.price → ranks_above Offer row other ≡ true }
{}

/// At equal prices the larger displayed size ranks first, even if it came later.
pub fn larger_size_ranks_first_at_equal_price()
    ensures { (side : Side) (row other : Row) → row.price ≡ other.price → other.size < row.size → ranks_above side row other ≡ true }
{}

/// At equal prices and sizes the earlier receipt ranks first.
pub fn earlier_receipt_ranks_first_at_equal_size()
    ensures { (side : Side) (row other : Row) → row.price ≡ other.price → row.size ≡ other.size → row.receipt < other.receipt → ranks_above side row other ≡ true }
{}

/// The ranking is a strict order, and total on rows that differ in price, size or receipt.
pub fn ranking_is_a_strict_total_order()
    ensures { (side : Side) → IsStrictTotalOrder side }
{}

/// The state of a market, found from the two best rows, is right for all bids and offers.
pub fn market_speaks_of_all_rows()
    ensures { (bids offers : List Row) (bid offer : Option Row) → IsBestOf Bid bids bid → IsBestOf Offer offers offer → SaysOf (market_of bid offer) bids offers }
{}

/// The pairs of a view, place by place, are those of its rows that lock or cross, and no other.
pub fn pairs_are_those_that_lock_or_cross()
    ensures { (seen : Seen) → IsOfRoster seen.bids → IsOfRoster seen.offers → ListsPairs seen }
{}

/// The definitions give what the worked examples say.
pub fn worked_examples()
    ensures { ExamplesHold }
{}
