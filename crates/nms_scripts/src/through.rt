//! The protected quotations that a trade at a price trades through, as a desk's answer lists them.
ghost use Rattle.std.specs.Prelude.{◌≡◌, ◌<◌, ◌++◌, All, length, false, OnOk, IfSome};
ghost use Rattle.nms_lines.specs.Text.{text_of};
ghost use Rattle.nms_quote.specs.declared.side_quote.Side.{Side};
ghost use Rattle.nms_quote.specs.declared.side_quote.Side.TheVariants.{Bid, Offer};
ghost use Rattle.nms_board.specs.Ranking.{better_price};
ghost use Rattle.nms_board.specs.View.{rows_on};
ghost use Rattle.nms_rules.specs.Through.{traded_through_at};
ghost use Rattle.nms_text.specs.Answers.{through_records};

use nms_board::View;
use nms_flow::BestRows;
use nms_quote::Roster;
use nms_rules::traded_through;
use nms_text::{tell_through_head, tell_through_rows};
use nms_units::Price;
use std::alloc::AllocError;

/// Whether a price is below the best bid, or above the best offer.
pub fn is_beyond(best: &BestRows, price: Price) -> bool
    ensures bid { result ≡ false → IfSome best.now.bid (λ row. better_price Bid row.price price ≡ false) }
    ensures offer { result ≡ false → IfSome best.now.offer (λ row. better_price Offer row.price price ≡ false) }
{
    let bid = match &best.bid {
        Some(row) => row.price > price,
        None => false,
    };
    let offer = match &best.offer {
        Some(row) => row.price < price,
        None => false,
    };
    bid || offer
}

/// Appends the protected quotations that a desk saw and that a trade at the price trades through.
pub fn tell_through(
    out: &mut Vec<u8>,
    roster: &Roster,
    desk: u8,
    view: &View,
    price: Price,
) -> Result<(), AllocError>
    requires sym { view.now.sym < length roster.now.syms }
    requires parts { (side : Side) → All (λ row. row.part < length roster.now.parts) (rows_on side view.now) }
    ensures { OnOk result (out.new.items ≡ out.old.items
        ++ text_of (through_records roster.now desk view.now price (traded_through_at view.now price))) }
{
    let quotations = traded_through(view, price);
    let count = quotations.len();
    tell_through_head(out, roster, desk, view.sym(), view.version(), price, count)?;
    tell_through_rows(out, roster, quotations.as_slice())
}
