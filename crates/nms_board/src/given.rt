//! Testing rows that a caller brings, best first, and putting them by participant place: `specs/Given`.
ghost use Rattle.std.specs.Prelude.{◌≡◌, ◌≤◌, ◌↔◌, IfSome, IsSome, List, length, true};
ghost use Rattle.nms_board.specs.Given.{are_rows, falls, precedes, precedes_all, ranks_above_all};
ghost use Rattle.nms_board.specs.Ranking.{IsRankOrder};
ghost use Rattle.nms_board.specs.View.{AreRows};
ghost use Rattle.nms_board.specs.declared.row.Row.{Row};

use crate::MOST_ROWS;
use crate::row::Row;
use arrayvec::ArrayVec;
use nms_quote::Side;

/// The rows of a side by participant place, made from rows in rank order. `None` if these are not rows that a side can show.
/// Then a row does not rank above each later one, has no share, or has the participant or the receipt of another.
pub(crate) fn by_place(side: Side, in_order: &[Row]) -> Option<ArrayVec<Row, MOST_ROWS>>
    requires { length in_order.now ≤ MOST_ROWS }
    ensures rows { IfSome result (λ rows. AreRows rows.items) }
    ensures order { IfSome result (λ rows. IsRankOrder side rows.items in_order.now) }
    ensures all { (rows : List Row) → AreRows rows → IsRankOrder side rows in_order.now → IsSome result }
{
    if !falls(side, in_order) {
        return None;
    }
    let mut rows: ArrayVec<Row, MOST_ROWS> = ArrayVec::try_from(in_order).unwrap();
    rows.as_mut_slice()
        .sort_unstable_by_key(|row| row.part.get());
    if are_rows(rows.as_slice()) {
        Some(rows)
    } else {
        None
    }
}

/// Whether each row ranks above every later one.
#[tactic(auto, unfolding(crate::specs::Given::falls))]
fn falls(side: Side, rows: &[Row]) -> bool
    ensures { result ≡ falls side rows.now }
{
    let mut behind = rows;
    while let Some((row, more)) = behind.split_first() {
        if !ranks_above_all(side, row, more) {
            return false;
        }
        behind = more;
    }
    true
}

/// Whether a row ranks above each row of a list.
fn ranks_above_all(side: Side, row: &Row, more: &[Row]) -> bool
    ensures { result ≡ ranks_above_all side row.now more.now }
{
    more.iter().all(|other| row.ranks_above(side, other))
}

/// Whether rows are by participant place, each of at least one share, and no two with the same receipt.
fn are_rows(rows: &[Row]) -> bool
    ensures { result ≡ true ↔ AreRows rows.now }
{
    test_rows(rows)
}

/// Whether rows are by participant place, each of at least one share, and no two with the same receipt. The contract names the
/// definition that computes the answer.
#[tactic(auto, unfolding(crate::specs::Given::are_rows))]
fn test_rows(rows: &[Row]) -> bool
    ensures { result ≡ are_rows rows.now }
{
    let mut behind = rows;
    while let Some((row, more)) = behind.split_first() {
        if row.size == 0 || !precedes_all(row, more) {
            return false;
        }
        behind = more;
    }
    true
}

/// Whether a row comes before each row of a list by participant place, and has another receipt than each of them.
fn precedes_all(row: &Row, more: &[Row]) -> bool
    ensures { result ≡ precedes_all row.now more.now }
{
    more.iter().all(|other| precedes(row, other))
}

/// Whether a row comes before another by participant place, and has another receipt.
fn precedes(row: &Row, other: &Row) -> bool
    ensures { result ≡ precedes row.now other.now }
{
    row.part < other.part && row.receipt != other.receipt
}
