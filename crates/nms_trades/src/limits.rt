//! Which quotations a price of six decimals trades through: `specs/Judged`.
ghost use Rattle.std.specs.Prelude.{◌≡◌, ◌+◌, ◌<◌, ◌≤◌, ◌++◌, [], length};
ghost use Rattle.std.specs.List.{cons_option};
ghost use Rattle.nms_board.specs.Ranking.{better_price, ranked};
ghost use Rattle.nms_board.specs.View.{rows_on};
ghost use Rattle.nms_rules.specs.Through.{is_through};
ghost use Rattle.nms_trades.specs.Judged.{best_protected, is_crossed, whole_price};

use arrayvec::ArrayVec;
use nms_board::{MOST_ROWS, Row, View};
use nms_quote::Side;
use nms_units::Price;

/// A price rounded to 1/10,000 dollar, so that it can be compared with quotations. It is rounded down for bids and up for
/// offers.
pub(crate) fn whole_price(side: Side, millionths: u64) -> u64
    requires { millionths ≤ 9999999999999 }
    ensures { result ≡ whole_price side millionths }
{
    match side {
        Side::Bid => millionths / 100,
        Side::Offer => (millionths + 99) / 100,
    }
}

/// The rows of a side in rank order.
pub(crate) fn rows_ranked(view: &View, side: Side) -> ArrayVec<Row, MOST_ROWS>
    ensures rows { result.items ≡ ranked side (rows_on side view.now) }
{
    let mut rows = ArrayVec::new_in(());
    for at in 0..view.count(side) as u8 {
        push_some(&mut rows, view.ranked(side, at));
    }
    rows
}

/// Adds a row, if there is one.
fn push_some(rows: &mut ArrayVec<Row, MOST_ROWS>, row: Option<Row>)
    requires { length rows.old.items < MOST_ROWS }
    ensures items { rows.new.items ≡ rows.old.items ++ cons_option row [] }
    ensures within { length rows.new.items ≤ length rows.old.items + 1 }
{
    if let Some(row) = row {
        rows.push(row);
    }
}

/// Whether a row is protected and at a better price than the given one, in 1/10,000 dollar.
pub(crate) fn is_through(side: Side, price: u64, row: &Row) -> bool
    ensures { result ≡ is_through side price row.now }
{
    row.protected && is_beyond(side, price, row.price)
}

/// Whether a price is better than another one, in 1/10,000 dollar: a higher bid, or a lower offer.
fn is_beyond(side: Side, price: u64, own: Price) -> bool
    ensures { result ≡ better_price side own price }
{
    match side {
        Side::Bid => own.get() > price,
        Side::Offer => own.get() < price,
    }
}

/// The protected row that ranks first.
fn best_protected(rows: &[Row]) -> Option<Row>
    ensures { result ≡ best_protected rows.now }
{
    for row in rows {
        if row.protected {
            return Some(*row);
        }
    }
    None
}

/// Whether the best protected bid is above the best protected offer (17 CFR 242.611(b)(4)).
pub(crate) fn is_crossed(bids: &[Row], offers: &[Row]) -> bool
    ensures { result ≡ is_crossed bids.now offers.now }
{
    match (best_protected(bids), best_protected(offers)) {
        (Some(bid), Some(offer)) => bid.price > offer.price,
        (_, _) => false,
    }
}
