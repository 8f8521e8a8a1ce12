//! Laws about the definitions of the stream. Each function does nothing: its contract is the law.
ghost use Rattle.std.specs.Prelude.{◌≡◌, ℕ, [], None};
ghost use Rattle.nms_quote.specs.Roster.{Listing, Sizes};
ghost use Rattle.nms_quote.specs.Tape.{Tape};
ghost use Rattle.nms_quote.specs.declared.change.Change.{Change};
ghost use Rattle.nms_stream.specs.Laws.{TellsOf};
ghost use Rattle.nms_stream.specs.Quoted.{quoted_at};

/// A symbol has no line if its best bid and best offer look as before, and one line if they do not. So it has one
/// whenever its market changes.
pub fn a_line_tells_each_market_that_changes()
    ensures { (roster : Listing) (tape : Tape) (change : Change) (sym : ℕ) → TellsOf roster tape change sym }
{}

/// At version 0 no symbol has a quotation.
pub fn nothing_is_quoted_at_first()
    ensures { (sizes : Sizes) (sym : ℕ) → quoted_at sizes [] sym ≡ record { bid = None; offer = None } }
{}
