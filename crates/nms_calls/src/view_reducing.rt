//! Reduces a view: each participant keeps at most a given number of shares on one side (`specs/ViewReduced`). The call takes no
//! memory, and stores only its answer.
ghost use Rattle.std.specs.Prelude.{◌≡◌, ◌≤◌, OnErr, length};
ghost use Rattle.std.specs.Result.{result_err};
ghost use Rattle.nms_board.specs.Ranking.{ranked_at};
ghost use Rattle.nms_board.specs.View.{AreRows};
ghost use Rattle.nms_calls.specs.RowNumbers.{AreRanked};
ghost use Rattle.nms_calls.specs.ViewReduced.{AreInOrder, AreOfView, IsReduced, reduced_row, reduced_rows};

use crate::call_fault::CallFault;
use crate::row_calls::market_side_of;
use crate::row_numbers::{NmsRows, NmsView, market_number};
use crate::row_ranking::in_rank_order;
use crate::side_writing::{put_at, row_at};
use crate::view_reading::view_of;
use arrayvec::ArrayVec;
use nms_board::{Row, View};
use nms_nbbo::market_between;
use nms_quote::Side;

/// Writes the view that numbers say, with at most `most[n]` shares of participant n on a side: 0 leaves no quotation of it, and
/// its size or more leaves it as it is. Rows are ranked by what is left. The version, the symbol and the other side stay as
/// they are. It is for a caller whose own orders have taken shares that the feeds still show.
///
/// What is left of a quotation may be less than a round lot. It stays a quotation, protected as it was, so that a plan takes it
/// too. An order that swept a part of a displayed size owes the rest.
///
/// Errors, the first that holds: `NoView`, `Range` of the side.
pub fn reduce_view(
    numbers: &NmsView,
    side: u8,
    most: &[u32; 32],
    out: &mut NmsView,
) -> Result<(), CallFault>
    ensures reduced { IsReduced numbers.now side most.now (result_err result) out.new }
    ensures unwritten { OnErr result (out.new ≡ out.old) }
{
    let Some(view) = view_of(32, numbers) else {
        return Err(CallFault::NoView);
    };
    let Some(side) = market_side_of(side) else {
        return Err(CallFault::Range);
    };
    let left = reduced_rows(view.rows(side), most);
    match side {
        Side::Bid => put_view(&view, left.as_slice(), view.rows(Side::Offer), out),
        Side::Offer => put_view(&view, view.rows(Side::Bid), left.as_slice(), out),
    }
    Ok(())
}

/// The rows of a side after a reduction. Each keeps the lesser of its size and its participant's limit, and is dropped at 0
/// shares.
fn reduced_rows(rows: &[Row], most: &[u32; 32]) -> ArrayVec<Row, 32>
    requires rows { AreRows rows.now }
    requires few { length rows.now ≤ 32 }
    ensures items { result.items ≡ reduced_rows most.now rows.now }
    ensures rows { AreRows result.items }
{
    let mut left = ArrayVec::new_in(());
    for row in rows {
        if let Some(row) = reduced_row(row, most) {
            left.push(row);
        }
    }
    left
}

/// A row after a reduction: its size is at most its participant's limit. `None` if no share is left.
fn reduced_row(row: &Row, most: &[u32; 32]) -> Option<Row>
    ensures { result ≡ reduced_row most.now row.now }
{
    let size = row.size.min(most[usize::from(row.part.get())]);
    if size == 0 {
        return None;
    }
    Some(Row { size, ..*row })
}

/// Writes the numbers of a view in which other rows replace the bids and the offers.
fn put_view(view: &View, bids: &[Row], offers: &[Row], out: &mut NmsView)
    requires bids { AreRows bids.now }
    requires offers { AreRows offers.now }
    requires few { (length bids.now ≤ 32) × (length offers.now ≤ 32) }
    ensures { AreOfView (record view.now { bids = bids.now; offers = offers.now }) out.new }
{
    out.version = view.version();
    out.sym = view.sym().get();
    out.spare = 0;
    let bid = put_ranked(Side::Bid, bids, &mut out.bid);
    let offer = put_ranked(Side::Offer, offers, &mut out.offer);
    out.market = market_number(market_between(bid, offer));
}

/// Writes the rows of a side in rank order, with their total size. Returns the best one.
fn put_ranked(side: Side, rows: &[Row], out: &mut NmsRows) -> Option<Row>
    requires rows { AreRows rows.now }
    requires few { length rows.now ≤ 32 }
    ensures rows { AreRanked side rows.now out.new }
    ensures best { result ≡ ranked_at side rows.now 0 }
{
    let in_order = in_rank_order(side, rows);
    put_order(in_order.as_slice(), out);
    in_order.as_slice().first().copied()
}

/// Writes rows that are in rank order, with their total size.
fn put_order(in_order: &[Row], out: &mut NmsRows)
    requires { length in_order.now ≤ 32 }
    ensures { AreInOrder in_order.now out.new }
{
    let mut total = 0;
    for row in in_order {
        total += u64::from(row.size);
    }
    for place in 0..32 {
        put_at(out, place, &row_at(in_order, place));
    }
    out.total = total;
    out.count = in_order.len() as u32;
    out.spare = 0;
}
