//! The state of a market: `specs/Market`.
ghost use Rattle.std.specs.Prelude.{◌≡◌, Option};
ghost use Rattle.nms_quote.specs.declared.side_quote.Side.TheVariants.{Bid, Offer};
ghost use Rattle.nms_board.specs.View.{rows_on};
ghost use Rattle.nms_board.specs.declared.row.Row.{Row};
ghost use Rattle.nms_nbbo.specs.Market.{market_of};
ghost use Rattle.nms_nbbo.specs.Best.{IsBestOf};

use crate::market_kind::Market;
use crate::ranking::best;
use nms_board::{Row, View};
use nms_quote::Side;

/// The relation of the best bid and best offer of a view, even if both are of one participant.
pub fn market(view: &View) -> Market
    ensures { (bid offer : Option Row) → IsBestOf Bid (rows_on Bid view.now) bid → IsBestOf Offer (rows_on Offer view.now) offer → result ≡ market_of bid offer }
{
    market_between(best(view, Side::Bid), best(view, Side::Offer))
}

/// The state of the market with the given best bid and best offer.
pub fn market_between(bid: Option<Row>, offer: Option<Row>) -> Market
    ensures { result ≡ market_of bid offer }
{
    let (bid, offer) = match (bid, offer) {
        (None, None) => return Market::Empty,
        (Some(bid), Some(offer)) => (bid.price, offer.price),
        _ => return Market::OneSided,
    };
    if bid < offer {
        Market::Normal
    } else if bid == offer {
        Market::Locked
    } else {
        Market::Crossed
    }
}
