//! What a price trades through: `specs/Through`.
ghost use Rattle.std.specs.Prelude.{◌≡◌, ◌+◌, ◌≤◌, ◌++◌, length};
ghost use Rattle.nms_rules.specs.Through.{through_on, traded_through_at};

use arrayvec::ArrayVec;
use nms_board::{Row, View, is_better_price};
use nms_quote::Side;
use nms_units::Price;

/// The protected quotations that a trade at a price trades through: the protected bids above it, then the
/// protected offers below it, each by participant place (17 CFR 242.600, "trade-through"; 242.611(a)).
///
/// Takes no memory.
pub fn traded_through(view: &View, price: Price) -> ArrayVec<(Side, Row), 64>
    ensures { result.items ≡ traded_through_at view.now price }
{
    let mut through = ArrayVec::new_in(());
    push_through(&mut through, Side::Bid, view.rows(Side::Bid), price);
    push_through(&mut through, Side::Offer, view.rows(Side::Offer), price);
    through
}

/// Adds the rows of a side that the price trades through.
fn push_through(through: &mut ArrayVec<(Side, Row), 64>, side: Side, rows: &[Row], price: Price)
    requires { length through.old.items + length rows.now ≤ 64 }
    ensures items { through.new.items ≡ through.old.items ++ through_on side rows.now price }
    ensures within { length through.new.items ≤ length through.old.items + length rows.now }
{
    for row in rows {
        if row.protected && is_better_price(side, row.price, price) {
            through.push((side, *row));
        }
    }
}
