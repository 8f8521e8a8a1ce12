//! Writing the rows of a side as arrays: `specs/RowNumbers`.
ghost use Rattle.std.specs.Prelude.{◌≡◌, ◌+◌, ◌++◌, ◌<◌, ◌≤◌, true, List, [], length, slice_get};
ghost use Rattle.std.specs.List.{cons_option};
ghost use Rattle.nms_board.specs.Shown.{row_held, rows_held};
ghost use Rattle.nms_board.specs.declared.row.Row.{Row};
ghost use Rattle.nms_calls.specs.RowNumbers.{AreRanked, AreRowsAt, row_numbers, through_at, is_through_at, is_beyond, with_row};

use crate::row_numbers::{NmsRow, NmsRows};
use arrayvec::ArrayVec;
use nms_board::{Boards, Row};
use nms_nbbo::best_on;
use nms_quote::{Part, Side, Sym};
use nms_units::Price;

/// Writes the rows of a side in rank order, with their total size.
pub(crate) fn put_side(board: &Boards, side: Side, sym: Sym, out: &mut NmsRows)
    requires { sym < length board.now.sizes.lots }
    ensures { AreRanked side (rows_held board.now sym side) out.new }
{
    // The prover has to see that there are at most 32 participants, so that a side has at most 32 rows.
    let _parts = board.parts();
    let mut count = 0;
    for place in 0..32 {
        let row = board.ranked(side, sym, place);
        if row.is_some() {
            count += 1;
        }
        put_at(out, usize::from(place), &NmsRow::of(&row));
    }
    out.total = board.total(side, sym);
    out.count = count;
    out.spare = 0;
}

/// Writes the numbers of a row at a place.
pub(crate) fn put_at(out: &mut NmsRows, place: usize, row: &NmsRow)
    requires { place < 32 }
    ensures { out.new ≡ with_row out.old place row.now }
{
    out.price[place] = row.price;
    out.receipt[place] = row.receipt;
    out.size[place] = row.size;
    out.part[place] = row.part;
    out.is_protected[place] = row.is_protected;
}

/// Writes rows to the first places of an array, and empty rows to the other places.
pub(crate) fn put_rows(rows: &[Row], places: &mut [NmsRow; 32])
    ensures { AreRowsAt places.new rows.now }
{
    for place in 0..32 {
        places[place] = row_at(rows, place);
    }
}

/// The numbers of the row at a place, all 0 if there is none.
pub(crate) fn row_at(rows: &[Row], place: usize) -> NmsRow
    ensures { result ≡ row_numbers (slice_get rows.now place) }
{
    match rows.get(place) {
        Some(row) => NmsRow::some(row),
        None => NmsRow::none(),
    }
}

/// The protected rows that a price in 1/1,000,000 dollar trades through.
pub(crate) fn through_at(side: Side, millionths: u64, rows: &[Row]) -> ArrayVec<Row, 32>
    requires { length rows.now ≤ 32 }
    ensures { result.items ≡ through_at side millionths rows.now }
{
    let mut through = ArrayVec::new_in(());
    for row in rows {
        if is_through(side, millionths, row) {
            through.push(*row);
        }
    }
    through
}

/// Writes the protected rows of a side that a price in 1/1,000,000 dollar trades through. The other places of the array become
/// empty rows. It reads the board without making a view. If the best row is not beyond the price, it reads no other. Returns how
/// many rows it wrote.
#[inline(always)]
pub(crate) fn put_through(
    board: &Boards,
    side: Side,
    sym: Sym,
    millionths: u64,
    places: &mut [NmsRow; 32],
) -> u32
    requires { sym < length board.now.sizes.lots }
    ensures count { result ≡ length (through_at side millionths (rows_held board.now sym side)) }
    ensures rows { AreRowsAt places.new (through_at side millionths (rows_held board.now sym side)) }
{
    places.fill(NmsRow::none());
    if has_none_beyond(board, side, sym, millionths) {
        return 0;
    }
    let mut count = 0;
    for place in 0..board.parts() {
        let row = row_beyond(board, side, Part::new(place).unwrap(), sym, millionths);
        count = put_next(side, millionths, row, count, places);
    }
    count as u32
}

/// Whether the best row of a side is not beyond a price in 1/1,000,000 dollar, so that no row of the side is.
#[inline(always)]
fn has_none_beyond(board: &Boards, side: Side, sym: Sym, millionths: u64) -> bool
    requires { sym < length board.now.sizes.lots }
    ensures { result ≡ true → through_at side millionths (rows_held board.now sym side) ≡ [] }
{
    match best_on(board, side, sym) {
        Some(best) => !is_beyond(side, millionths, best.price),
        None => true,
    }
}

/// The quotation of a participant if its price is beyond a given price in 1/1,000,000 dollar. Most quotations are not, and their
/// price takes less time to read than the quotation.
#[inline(always)]
#[tactic(auto, using(crate::proofs::ThroughLemmas::not_beyond_is_none))]
fn row_beyond(board: &Boards, side: Side, part: Part, sym: Sym, millionths: u64) -> Option<Row>
    requires part { part < board.now.sizes.parts }
    requires sym { sym < length board.now.sizes.lots }
    ensures { through_at side millionths (cons_option result [])
        ≡ through_at side millionths (cons_option (row_held board.now sym side part) []) }
{
    if is_beyond(side, millionths, board.price(side, part, sym)) {
        board.row(side, part, sym)
    } else {
        None
    }
}

/// Adds a row after the first n places of an array if a price in 1/1,000,000 dollar trades through it. Returns how many places
/// have rows then.
#[inline(always)]
fn put_next(
    side: Side,
    millionths: u64,
    row: Option<Row>,
    count: usize,
    places: &mut [NmsRow; 32],
) -> usize
    requires { count < 32 }
    ensures count { result ≡ count + length (through_at side millionths (cons_option row [])) }
    ensures within { result ≤ count + 1 }
    ensures rows { (rows : List Row) → length rows ≡ count → AreRowsAt places.old rows
        → AreRowsAt places.new (rows ++ through_at side millionths (cons_option row [])) }
{
    let Some(row) = row else {
        return count;
    };
    if !is_through(side, millionths, &row) {
        return count;
    }
    places[count] = NmsRow::some(&row);
    count + 1
}

/// Whether a row is protected and beyond a price in 1/1,000,000 dollar.
fn is_through(side: Side, millionths: u64, row: &Row) -> bool
    ensures { result ≡ is_through_at side millionths row.now }
{
    row.protected && is_beyond(side, millionths, row.price)
}

/// Whether a quotation's price is better than a given one in 1/1,000,000 dollar: above it for a bid, below it for an offer.
#[inline(always)]
fn is_beyond(side: Side, millionths: u64, price: Price) -> bool
    ensures { result ≡ is_beyond side millionths price }
{
    match side {
        Side::Bid => millionths < price.get() * 100,
        Side::Offer => price.get() * 100 < millionths,
    }
}
