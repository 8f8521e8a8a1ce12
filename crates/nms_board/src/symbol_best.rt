//! The best row of each side of a symbol, kept next to its rank orders: `specs/Bests`.
ghost use Rattle.std.specs.Prelude.{◌≡◌, ◌≤◌, All, IfOk, length};
ghost use Rattle.nms_quote.specs.declared.side_quote.Side.{Side};
ghost use Rattle.nms_board.specs.Bests.{HasNone, IsUnlessOf, best_on, first_row, row_if_any};
ghost use Rattle.nms_board.specs.History.{on_side};
ghost use Rattle.nms_board.specs.Kept.{order_on};
ghost use Rattle.nms_board.specs.Ranks.{row_among};

use crate::MOST_ROWS;
use crate::cell::Cell;
use crate::ranks::Ranks;
use crate::row::Row;
use crate::symbol_ranks::{Firsts, SymbolRanks};
use nms_quote::{MOST_SYMBOLS, Part, Side};
use nms_units::Lot;
use std::alloc::{AllocError, Global};

/// The best bid and the best offer of a symbol, so that a look at them reads nothing else. A row of no shares means that there
/// is none.
#[derive(Clone, Copy)]
pub(crate) struct SymbolBest {
    pub(crate) bid: Row,
    pub(crate) offer: Row,
}

impl SymbolBest {
    /// The best rows of a symbol that has no rows.
    fn none() -> Self
        ensures { HasNone result }
    {
        SymbolBest {
            bid: Row::nothing(),
            offer: Row::nothing(),
        }
    }

    /// The best bid and the best offer of a symbol, which are first in its rank orders. Sizes are in round lots of the given
    /// size.
    pub(crate) fn of(lot: Lot, orders: &SymbolRanks, cells: &[Cell]) -> Self
        requires { length cells.now ≤ MOST_ROWS }
        ensures { (side : Side) → best_on side result ≡ first_row (row_among lot cells.now side) (order_on side orders.now) }
    {
        SymbolBest {
            bid: row_of(Side::Bid, lot, orders.bids.first(), cells),
            offer: row_of(Side::Offer, lot, orders.offers.first(), cells),
        }
    }

    /// The best row of a side, if it has a row.
    #[inline(always)]
    pub(crate) fn on(&self, side: Side) -> Option<Row>
        ensures { result ≡ best_on side self.now }
    {
        let row = match side {
            Side::Bid => self.bid,
            Side::Offer => self.offer,
        };
        if row.size == 0 { None } else { Some(row) }
    }

    /// Follows a change of a participant's cell: sets each side's best row to the first of its rank order. The caller gives the
    /// participants that were first before the change. A best row stays if its participant is still first, and is not the one
    /// that changed. So a cell is seldom read.
    #[inline(always)]
    pub(crate) fn follow(
        &mut self,
        part: Part,
        lot: Lot,
        was: Firsts,
        orders: &SymbolRanks,
        cells: &[Cell],
    )
        requires parts { length cells.now ≤ MOST_ROWS }
        requires others { (side : Side) → IsUnlessOf part (row_among lot cells.now side) (on_side side was.bid was.offer) (best_on side self.old) }
        ensures { (side : Side) → best_on side self.new ≡ first_row (row_among lot cells.now side) (order_on side orders.now) }
    {
        follow_side(
            Side::Bid,
            &mut self.bid,
            part,
            lot,
            was.bid,
            &orders.bids,
            cells,
        );
        follow_side(
            Side::Offer,
            &mut self.offer,
            part,
            lot,
            was.offer,
            &orders.offers,
            cells,
        );
    }
}

/// Follows a change of a participant's cell: sets a side's best row to the first of its rank order. The caller gives the
/// participant that was first before the change.
#[inline(always)]
fn follow_side(
    side: Side,
    best: &mut Row,
    part: Part,
    lot: Lot,
    was: u8,
    order: &Ranks,
    cells: &[Cell],
)
    requires parts { length cells.now ≤ MOST_ROWS }
    requires others { IsUnlessOf part (row_among lot cells.now side) was (row_if_any best.old) }
    ensures { row_if_any best.new ≡ first_row (row_among lot cells.now side) order.now }
{
    let first = order.first();
    // There is one branch, which is seldom taken, and a call in it, so that the common way keeps its registers.
    if (first != was) | (first == part.get()) {
        *best = row_of(side, lot, first, cells);
    }
}

/// The row of the participant at a place, from its cell; a row of no shares if there is none.
#[inline(never)]
fn row_of(side: Side, lot: Lot, place: u8, cells: &[Cell]) -> Row
    requires { length cells.now ≤ MOST_ROWS }
    ensures { row_if_any result ≡ row_among lot cells.now side place }
{
    match find_row(side, lot, place, cells) {
        Some(row) => row,
        None => Row::nothing(),
    }
}

/// The row of the participant at a place, if it has one.
#[inline(always)]
fn find_row(side: Side, lot: Lot, place: u8, cells: &[Cell]) -> Option<Row>
    requires { length cells.now ≤ MOST_ROWS }
    ensures { result ≡ row_among lot cells.now side place }
{
    let cell = cells.get(usize::from(place))?;
    cell.row(side, Part::new(place)?, lot)
}

/// Resets the best rows of symbols, so that no side has one.
pub(crate) fn clear_bests(bests: &mut [SymbolBest])
    ensures len { length bests.new ≡ length bests.old }
    ensures empty { All HasNone bests.new }
{
    for place in 0..bests.len() {
        bests[place] = SymbolBest::none();
    }
}

/// The best rows of a number of symbols that have no rows.
pub(crate) fn empty_bests(alloc: Global, syms: usize) -> Result<Vec<SymbolBest>, AllocError>
    requires { syms ≤ MOST_SYMBOLS }
    ensures symbols { IfOk result (λ bests. length bests.items ≡ syms) }
    ensures empty { IfOk result (λ bests. All HasNone bests.items) }
{
    let mut bests = Vec::with_capacity(alloc, syms)?;
    for _ in 0..syms {
        bests.push(SymbolBest::none())?;
    }
    Ok(bests)
}
