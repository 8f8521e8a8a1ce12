//! Reading a view from the numbers that a look wrote: `specs/ViewSaid`.
ghost use Rattle.std.specs.Prelude.{◌≡◌, ◌<◌, ◌≤◌, ◌↔◌, IfSome, IsSome, List, true};
ghost use Rattle.nms_board.specs.declared.row.Row.{Row};
ghost use Rattle.nms_calls.specs.RowNumbers.{IsRowAt, market_between, some_row};
ghost use Rattle.nms_calls.specs.RowsSaid.{AreAt, AreSums};
ghost use Rattle.nms_calls.specs.ViewSaid.{IsOfLook, IsSaid};

use crate::row_numbers::{NmsRows, NmsView, market_number};
use arrayvec::ArrayVec;
use nms_board::{Row, View};
use nms_nbbo::market_between;
use nms_quote::{Part, Side, Sym};
use nms_units::Price;

/// The view that numbers say, with the rows of n participants. `None` if no look shows them, because a copy was torn or no look
/// wrote them.
pub(crate) fn view_of(parts: usize, numbers: &NmsView) -> Option<View>
    requires { parts ≤ 32 }
    ensures { IsSaid parts numbers.now result }
{
    let Some(sym) = Sym::new(numbers.sym) else {
        return None;
    };
    let Some(bids) = rows_of(parts, numbers.version, &numbers.bid) else {
        return None;
    };
    let Some(offers) = rows_of(parts, numbers.version, &numbers.offer) else {
        return None;
    };
    let Some(view) = View::of_ranked(numbers.version, sym, bids.as_slice(), offers.as_slice())
    else {
        return None;
    };
    if !are_sums(numbers, &view) {
        return None;
    }
    Some(view)
}

/// Whether the numbers of a look agree with its rows: the total shares of both sides, and the state of the market.
fn are_sums(numbers: &NmsView, view: &View) -> bool
    ensures { result ≡ true ↔ AreSums numbers.now view.now }
{
    numbers.bid.total == view.total(Side::Bid)
        && numbers.offer.total == view.total(Side::Offer)
        && numbers.market == market_in(view)
}

/// The number of the state of a view's market.
fn market_in(view: &View) -> u32
    ensures { result ≡ market_between view.now.bids view.now.offers }
{
    market_number(market_between(view.ranked(Side::Bid, 0), view.ranked(Side::Offer, 0)))
}

/// The rows that the arrays of a side give, in the arrays' order. `None` if a number is out of its range.
fn rows_of(parts: usize, version: u64, numbers: &NmsRows) -> Option<ArrayVec<Row, 32>>
    requires { parts ≤ 32 }
    ensures rows { IfSome result (λ rows. AreAt parts version numbers.now rows.items) }
    ensures all { (rows : List Row) → AreAt parts version numbers.now rows → IsSome result }
{
    if numbers.count > 32 {
        return None;
    }
    let mut rows = ArrayVec::new_in(());
    for place in 0..numbers.count as usize {
        let Some(row) = row_of(parts, version, numbers, place) else {
            return None;
        };
        rows.push(row);
    }
    Some(rows)
}

/// The row at a place of a side's arrays. `None` if a number is out of its range.
fn row_of(parts: usize, version: u64, numbers: &NmsRows, place: usize) -> Option<Row>
    requires parts { parts ≤ 32 }
    requires place { place < 32 }
    ensures row { IfSome result (λ row. IsOfLook parts version row × IsRowAt numbers.now place (some_row row)) }
    ensures all { (row : Row) → IsOfLook parts version row → IsRowAt numbers.now place (some_row row) → IsSome result }
{
    let Some(price) = Price::new(numbers.price[place]) else {
        return None;
    };
    let part = numbers.part[place];
    let receipt = numbers.receipt[place];
    let flag = numbers.is_protected[place];
    if usize::from(part) >= parts || receipt < 1 || receipt > version || flag > 1 {
        return None;
    }
    Some(Row {
        price,
        receipt,
        size: numbers.size[place],
        part: Part::new(part).unwrap(),
        protected: flag == 1,
    })
}
