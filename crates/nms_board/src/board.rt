//! Every participant's quotations in every symbol, and the changes that alter them: `specs/Cells`.
ghost use Rattle.std.specs.Prelude.{◌≡◌, ℕ, ◌+◌, ◌*◌, ◌<◌, ◌≤◌, All, List, [], ◌∷◌, ◌++◌, length, map, vec_len, true, fold, IfOk, IfSome, MatchOption, Some, nat_lt, slice_get, slice_set};
ghost use Rattle.std.specs.List.{cons_option};
ghost use Rattle.std.specs.Option.{option_and_then};
ghost use Rattle.nms_quote.specs.Roster.{holds, sizes_of};
ghost use Rattle.nms_quote.specs.Tape.{Tape};
ghost use Rattle.nms_quote.specs.declared.side_quote.Side.{Side};
ghost use Rattle.nms_quote.specs.declared.side_quote.Side.TheVariants.{Bid, Offer};
ghost use Rattle.nms_board.specs.Bests.{AreBests};
ghost use Rattle.nms_board.specs.Carried.{AreCarried};
ghost use Rattle.nms_board.specs.Cells.{altered, change_cell, place_of, withdraw_from};
ghost use Rattle.nms_board.specs.Kept.{AreRanks, row_shown, symbol_cells};
ghost use Rattle.nms_board.specs.Ranks.{AreOwn};
ghost use Rattle.nms_board.specs.Ranking.{ranked_at, total_size};

use crate::MOST_ROWS;
use crate::board_fault::BoardFault;
use crate::cell::{Cell, clear_cells, empty_cells};
use crate::row::Row;
use crate::symbol_best::{SymbolBest, clear_bests, empty_bests};
use crate::symbol_ranks::{SymbolRanks, clear_ranks, empty_ranks};
use crate::view::View;
use arrayvec::ArrayVec;
use nms_quote::{Change, MOST_CHANGES, MOST_SYMBOLS, Part, Roster, Side, Sym};
use nms_units::{Lot, Price};
use std::alloc::{AllocError, Global};
use std::marker::Model;

/// What every participant quotes in every symbol of a roster after the changes applied so far. The cells are made once; the
/// changes are not kept.
pub struct Boards {
    parts: u8,
    /// The round lot with which each symbol opened.
    opening: Vec<Lot>,
    /// The round lot that each symbol has now.
    lots: Vec<Lot>,
    /// The cells of all symbols, symbol by symbol: `MOST_ROWS` (32) for each symbol, by participant place.
    cells: Vec<Cell>,
    /// The rank orders of each symbol, by place, so that a look ranks nothing.
    ranks: Vec<SymbolRanks>,
    /// The best rows of each symbol, by place, so that a look at them reads no cell.
    bests: Vec<SymbolBest>,
    applied: u64,
}

/// This type has its own `Drop`. So a function that holds such a value has one call at each exit, and not one for each part
/// (docs/GATE.md).
impl Drop for Boards {
    fn drop(self) {
        let Boards {
            parts: _,
            opening: _,
            lots: _,
            cells: _,
            ranks: _,
            bests: _,
            applied: _,
        } = self;
    }
}

impl Model for Boards {
    ghost use Rattle.nms_board.specs.Cells.{Board, IsBoard};
    ghost use Rattle.nms_board.specs.Kept.{AreRanks};
    ghost use Rattle.nms_board.specs.Bests.{AreBests};

    ghost Value = { Board };

    ghost view = { λ b. record {
      sizes = record { parts = b.parts; lots = b.opening.items };
      lots = b.lots.items;
      cells = b.cells.items;
      applied = b.applied;
    } };

    ghost invariant = { λ b. IsBoard (record {
      sizes = record { parts = b.parts; lots = b.opening.items };
      lots = b.lots.items;
      cells = b.cells.items;
      applied = b.applied;
    }) × AreRanks (record { parts = b.parts; lots = b.lots.items }) b.cells.items b.ranks.items
        × AreBests (record { parts = b.parts; lots = b.lots.items }) b.cells.items b.ranks.items b.bests.items };
}

impl Boards {
    ghost use Rattle.nms_board.specs.Cells.{Board, IsBoard, StandsFor, after, opening, takes};
    ghost use Rattle.nms_board.specs.Shown.{row_held, rows_held, seen_on};
    ghost use Rattle.nms_board.specs.View.{AreRows, rows_on, seen_nothing, view_of};

    /// The board of a roster with nothing on it. Every cell of every symbol is made here.
    pub fn new(alloc: Global, roster: &Roster) -> Result<Self, BoardFault>
        ensures opening { IfOk result (λ board. board ≡ opening (sizes_of roster.now)) }
        ensures stands { IfOk result (λ board. StandsFor board []) }
        ensures narrow { length roster.now.parts ≤ MOST_ROWS }
    {
        let parts = roster.parts() as u8;
        let Ok(opening) = lots_of(alloc, roster) else {
            return Err(BoardFault::NoMemory);
        };
        let Ok(lots) = lots_of(alloc, roster) else {
            return Err(BoardFault::NoMemory);
        };
        let Ok(cells) = empty_cells(alloc, lots.len()) else {
            return Err(BoardFault::NoMemory);
        };
        let Ok(ranks) = empty_ranks(alloc, lots.len()) else {
            return Err(BoardFault::NoMemory);
        };
        let Ok(bests) = empty_bests(alloc, lots.len()) else {
            return Err(BoardFault::NoMemory);
        };
        Ok(Boards {
            parts,
            opening,
            lots,
            cells,
            ranks,
            bests,
            applied: 0,
        })
    }

    /// Takes everything off the board, so that it is as it was when it was made. It takes no memory.
    pub fn clear(&mut self)
        ensures { self.new ≡ opening self.old.sizes }
    {
        self.lots.copy_from_slice(&self.opening);
        clear_cells(&mut self.cells);
        clear_ranks(&mut self.ranks);
        clear_bests(&mut self.bests);
        self.applied = 0;
    }

    /// Whether a change can be applied. Its participant and symbol are on the roster, and fewer than `MOST_CHANGES`
    /// (10,000,000) changes were applied.
    pub fn takes(&self, change: &Change) -> bool
        ensures { result ≡ takes self.now change.now }
    {
        self.holds(change) && self.applied < MOST_CHANGES
    }

    /// Whether a change names only participants and symbols of the board's roster.
    pub fn holds(&self, change: &Change) -> bool
        ensures { result ≡ holds self.now.sizes change.now }
    {
        match *change {
            Change::Quote { part, sym, .. } => self.has_part(part) && self.has_sym(sym),
            Change::State { part, sym, .. } => self.has_part(part) && self.has_sym(sym),
            Change::Withdraw { part } => self.has_part(part),
            Change::Lot { sym, .. } => self.has_sym(sym),
        }
    }

    fn has_part(&self, part: Part) -> bool
        ensures { result ≡ nat_lt part self.now.sizes.parts }
    {
        part.get() < self.parts
    }

    /// Whether a symbol is on the board's roster.
    pub fn has_sym(&self, sym: Sym) -> bool
        ensures { result ≡ nat_lt sym (length self.now.sizes.lots) }
    {
        usize::from(sym.get()) < self.opening.len()
    }

    /// How many participants the roster has.
    pub fn parts(&self) -> u8
        ensures count { result ≡ self.now.sizes.parts }
        ensures within { result ≤ MOST_ROWS }
    {
        self.parts
    }

    /// The quotation of a participant of the roster on a side of one of its symbols, if there is one. It is one of the rows of
    /// that symbol's view.
    #[inline(always)]
    pub fn row(&self, side: Side, part: Part, sym: Sym) -> Option<Row>
        requires part { part < self.now.sizes.parts }
        requires sym { sym < length self.now.sizes.lots }
        ensures { result ≡ row_held self.now sym side part }
    {
        let lot = self.lots[usize::from(sym.get())];
        self.cells[place_of(part, sym)].row(side, part, lot)
    }

    /// The price of a participant's quotation on a side of a symbol. It has no meaning if there is no quotation. It takes less
    /// work than the quotation, whose size is in round lots.
    #[inline(always)]
    pub fn price(&self, side: Side, part: Part, sym: Sym) -> Price
        requires part { part < self.now.sizes.parts }
        requires sym { sym < length self.now.sizes.lots }
        ensures { IfSome (row_held self.now sym side part) (λ row. row.price ≡ result) }
    {
        self.cells[place_of(part, sym)].price(side)
    }

    /// The row at place `at` of a side's rank order in a symbol, counted from 0. Exactly `at` of the symbol's rows on the side
    /// rank above it. `None` if and only if `at` is their number or more.
    #[inline(always)]
    pub fn ranked(&self, side: Side, sym: Sym, at: u8) -> Option<Row>
        requires { sym < length self.now.sizes.lots }
        ensures ranked { result ≡ ranked_at side (rows_held self.now sym side) at }
        ensures there { MatchOption result (length (rows_held self.now sym side) ≤ at)
            (λ row. at < length (rows_held self.now sym side)) }
        ensures part { IfSome result (λ row. row.part < self.now.sizes.parts) }
    {
        match self.part_ranked(side, sym, at) {
            Some(part) => self.row(side, part, sym),
            None => None,
        }
    }

    /// The participant at a place of a side's rank order in a symbol.
    fn part_ranked(&self, side: Side, sym: Sym, at: u8) -> Option<Part>
        requires { sym < length self.now.sizes.lots }
        ensures ranked { ranked_at side (rows_held self.now sym side) at
            ≡ option_and_then (row_held self.now sym side) result }
        ensures there { MatchOption (ranked_at side (rows_held self.now sym side) at)
            (length (rows_held self.now sym side) ≤ at)
            (λ row. at < length (rows_held self.now sym side)) }
        ensures within { IfSome result (λ part. part < self.now.sizes.parts) }
    {
        let orders = &self.ranks[usize::from(sym.get())];
        match orders.place(side, at) {
            Some(place) => Part::new(place),
            None => None,
        }
    }

    /// The row that ranks first on a side of a symbol of the roster, which is that of `ranked` at place 0. It is kept, so no
    /// cell is read.
    #[inline(always)]
    pub fn best(&self, side: Side, sym: Sym) -> Option<Row>
        requires { sym < length self.now.sizes.lots }
        ensures best { result ≡ ranked_at side (rows_held self.now sym side) 0 }
        ensures there { MatchOption result (length (rows_held self.now sym side) ≤ 0)
            (λ row. 0 < length (rows_held self.now sym side)) }
        ensures part { IfSome result (λ row. row.part < self.now.sizes.parts) }
    {
        self.bests[usize::from(sym.get())].on(side)
    }

    /// The sum of the sizes that a side of a symbol of the roster displays, in shares.
    pub fn total(&self, side: Side, sym: Sym) -> u64
        requires { sym < length self.now.sizes.lots }
        ensures total { result ≡ total_size (rows_held self.now sym side) }
        ensures within { result ≤ MOST_ROWS * 4294967295 }
    {
        self.orders_of(sym).total(side)
    }

    /// What a participant of the roster has in a symbol: its state and both sides. A side may be one that no look shows (less
    /// than a round lot, or halted).
    pub fn cell(&self, part: Part, sym: Sym) -> Cell
        requires part { part < self.now.sizes.parts }
        requires sym { sym < length self.now.sizes.lots }
        ensures { slice_get self.now.cells (place_of part sym) ≡ Some result }
    {
        self.cells[place_of(part, sym)]
    }

    /// The round lot with which a symbol opened; `None` for a symbol that is not on the roster.
    pub fn opening_lot(&self, sym: Sym) -> Option<Lot>
        ensures { result ≡ slice_get self.now.sizes.lots sym }
    {
        self.opening.get(usize::from(sym.get())).copied()
    }

    /// The present round lot of a symbol; `None` for a symbol that is not on the roster.
    pub fn lot_of(&self, sym: Sym) -> Option<Lot>
        ensures { result ≡ slice_get self.now.lots sym }
    {
        self.lots.get(usize::from(sym.get())).copied()
    }

    /// Applies one more change. The work is constant for a quote or a state. For a withdrawal it grows with the symbols, for a
    /// new round lot with the participants.
    #[inline(always)]
    pub fn apply(&mut self, change: Change)
        requires { takes self.old change ≡ true }
        ensures after { self.new ≡ after self.old change }
        ensures stands { (tape : Tape) → StandsFor self.old tape
            → StandsFor self.new (tape ++ change ∷ []) }
    {
        self.applied += 1;
        let number = self.applied as u32;
        match change {
            Change::Quote { part, sym, .. } | Change::State { part, sym, .. } => alter(
                number,
                &change,
                part,
                usize::from(sym.get()),
                self.parts,
                &self.lots,
                &mut self.cells,
                &mut self.ranks,
                &mut self.bests,
            ),
            Change::Withdraw { part } => withdraw_from(
                number,
                part,
                self.parts,
                &self.lots,
                &mut self.cells,
                &mut self.ranks,
                &mut self.bests,
            ),
            Change::Lot { sym, lot } => set_lot(
                usize::from(sym.get()),
                lot,
                self.parts,
                &mut self.lots,
                &self.cells,
                &mut self.ranks,
                &mut self.bests,
            ),
        }
    }

    /// Applies changes in order.
    pub fn apply_all(&mut self, changes: &[Change])
        requires held { All (λ change. holds self.old.sizes change ≡ true) changes.now }
        requires room { self.old.applied + length changes.now ≤ MOST_CHANGES }
        ensures after { self.new ≡ fold after self.old changes.now }
        ensures stands { (tape : Tape) → StandsFor self.old tape
            → StandsFor self.new (tape ++ changes.now) }
        ensures sizes { self.new.sizes ≡ self.old.sizes }
        ensures applied { self.new.applied ≡ self.old.applied + length changes.now }
    {
        for change in changes {
            self.apply(*change);
        }
    }

    /// How many changes were applied.
    pub fn applied(&self) -> u64
        ensures count { result ≡ self.now.applied }
        ensures within { result ≤ MOST_CHANGES }
    {
        self.applied
    }

    /// A law: a look shows each side's rows by participant place. Each has at least one share, and no two have the same receipt.
    pub fn shows_rows(&self, sym: Sym)
        ensures bids { AreRows (rows_held self.now sym Bid) }
        ensures offers { AreRows (rows_held self.now sym Offer) }
    {
        let _ = (self.applied, sym);
    }

    /// A law: a board shows what some tape says. So each receipt is a change's number, and participants' quoted sides in a
    /// symbol have different ones.
    pub fn stands_for_a_tape(&self)
        ensures { IsBoard self.now }
    {
        // A field is read so that the prover sees the invariant.
        let _applied = self.applied;
    }

    /// The quotations of one symbol; no rows for a symbol that is not on the roster.
    pub fn view(&self, sym: Sym) -> View
        ensures cells { result ≡ seen_on self.now sym }
        ensures shows { (tape : Tape) → StandsFor self.now tape
            → result ≡ view_of self.now.sizes tape sym }
        ensures parts { (side : Side) → All (λ row. row.part < self.now.sizes.parts) (rows_on side result) }
    {
        let mut view = View::of_nothing(self.applied, sym);
        self.fill(sym, &mut view);
        view
    }

    /// Writes the quotations of one symbol into a view, in place of all that the view shows.
    pub fn view_into(&self, sym: Sym, view: &mut View)
        ensures { view.new ≡ seen_on self.now sym }
    {
        view.clear(self.applied, sym);
        self.fill(sym, view);
    }

    /// Fills the empty view of a symbol with the symbol's quotations.
    fn fill(&self, sym: Sym, view: &mut View)
        requires { view.old ≡ seen_nothing self.now.applied sym }
        ensures { view.new ≡ seen_on self.now sym }
    {
        // A field is read so that the prover sees the invariant.
        let _applied = self.applied;
        if let Some(lot) = self.lot_of(sym) {
            view.orders = self.orders_of(sym).copied();
            self.show(sym, lot, &mut view.bids, &mut view.offers);
        }
    }

    /// The rank orders of a symbol of the roster, which a view carries.
    fn orders_of(&self, sym: Sym) -> &SymbolRanks
        requires { sym < length self.now.sizes.lots }
        ensures { AreCarried (rows_held self.now sym Bid) (rows_held self.now sym Offer) result.now }
    {
        &self.ranks[usize::from(sym.get())]
    }

    /// Appends the quotations of a symbol, in lots of the given size, to the rows of the sides.
    fn show(
        &self,
        sym: Sym,
        lot: Lot,
        bids: &mut ArrayVec<Row, MOST_ROWS>,
        offers: &mut ArrayVec<Row, MOST_ROWS>,
    )
        requires lot { slice_get self.now.lots sym ≡ Some lot }
        requires bids { bids.old.items ≡ [] }
        requires offers { offers.old.items ≡ [] }
        ensures bids { bids.new.items ≡ rows_held self.now sym Bid }
        ensures offers { offers.new.items ≡ rows_held self.now sym Offer }
    {
        let mut place = 0;
        for cell in symbol_cells(&self.cells, usize::from(sym.get()), self.parts) {
            let part = Part::new(place).unwrap();
            push_some(bids, cell.row(Side::Bid, part, lot));
            push_some(offers, cell.row(Side::Offer, part, lot));
            place += 1;
        }
    }
}

/// Appends a row to a list of rows, if there is a row to append.
fn push_some(rows: &mut ArrayVec<Row, MOST_ROWS>, row: Option<Row>)
    requires { length rows.old.items < MOST_ROWS }
    ensures { rows.new.items ≡ rows.old.items ++ cons_option row [] }
{
    if let Some(row) = row {
        rows.push(row);
    }
}

/// The round lots of a roster's symbols, by place.
fn lots_of(alloc: Global, roster: &Roster) -> Result<Vec<Lot>, AllocError>
    ensures lots { IfOk result (λ lots. lots.items ≡ (sizes_of roster.now).lots) }
    ensures within { IfOk result (λ lots. length lots.items ≤ MOST_SYMBOLS) }
{
    let mut lots = Vec::with_capacity(alloc, roster.syms())?;
    for place in 0..roster.syms() as u16 {
        lots.push(roster.lot_of(Sym::new(place).unwrap()))?;
    }
    Ok(lots)
}

/// The place of a participant's cell in a symbol.
fn place_of(part: Part, sym: Sym) -> usize
    ensures place { result ≡ place_of part sym }
    ensures within { result < 32000 }
{
    MOST_ROWS * usize::from(sym.get()) + usize::from(part.get())
}

/// Withdraws a participant's quotations in each symbol, by the change of the given number. A cell without a quotation stays as
/// it is, and so do the rank orders of its symbol.
fn withdraw_from(
    number: u32,
    part: Part,
    parts: u8,
    lots: &[Lot],
    cells: &mut [Cell],
    ranks: &mut [SymbolRanks],
    bests: &mut [SymbolBest],
)
    requires part { part < parts }
    requires parts { parts ≤ MOST_ROWS }
    requires room { MOST_ROWS * length lots.now ≤ length cells.old }
    requires ranks { AreRanks (record { parts = parts; lots = lots.now }) cells.old ranks.old }
    requires bests { AreBests (record { parts = parts; lots = lots.now }) cells.old ranks.old bests.old }
    ensures cells { cells.new ≡ withdraw_from number part (length lots.now) cells.old }
    ensures ranks { AreRanks (record { parts = parts; lots = lots.now }) cells.new ranks.new }
    ensures bests { AreBests (record { parts = parts; lots = lots.now }) cells.new ranks.new bests.new }
{
    for sym in 0..lots.len() {
        if cells[MOST_ROWS * sym + usize::from(part.get())].has_quote() {
            alter(
                number,
                &Change::Withdraw { part },
                part,
                sym,
                parts,
                lots,
                cells,
                ranks,
                bests,
            );
        }
    }
}

/// Alters a participant's cell in a symbol as a change of the given number says. The symbol's rank orders and best rows follow.
fn alter(
    number: u32,
    change: &Change,
    part: Part,
    sym: usize,
    parts: u8,
    lots: &[Lot],
    cells: &mut [Cell],
    ranks: &mut [SymbolRanks],
    bests: &mut [SymbolBest],
)
    requires part { part < parts }
    requires parts { parts ≤ MOST_ROWS }
    requires sym { sym < length lots.now }
    requires room { MOST_ROWS * length lots.now ≤ length cells.old }
    requires ranks { AreRanks (record { parts = parts; lots = lots.now }) cells.old ranks.old }
    requires bests { AreBests (record { parts = parts; lots = lots.now }) cells.old ranks.old bests.old }
    requires own { (side : Side) → AreOwn (row_shown (record { parts = parts; lots = lots.now })
        (change_cell cells.old (place_of part sym) (altered number change.now)) sym side) }
    ensures cells { cells.new ≡ change_cell cells.old (place_of part sym) (altered number change.now) }
    ensures ranks { AreRanks (record { parts = parts; lots = lots.now }) cells.new ranks.new }
    ensures bests { AreBests (record { parts = parts; lots = lots.now }) cells.new ranks.new bests.new }
{
    let lot = lots[sym];
    let cell = &mut cells[MOST_ROWS * sym + usize::from(part.get())];
    let was = *cell;
    cell.alter(number, change);
    let shown = symbol_cells(cells, sym, parts);
    let orders = &mut ranks[sym];
    let firsts = orders.firsts();
    orders.settle(part, lot, &was, shown);
    bests[sym].follow(part, lot, firsts, orders, shown);
}

/// Gives a symbol another round lot, in which both its sides are ranked again.
fn set_lot(
    sym: usize,
    lot: Lot,
    parts: u8,
    lots: &mut [Lot],
    cells: &[Cell],
    ranks: &mut [SymbolRanks],
    bests: &mut [SymbolBest],
)
    requires parts { parts ≤ MOST_ROWS }
    requires sym { sym < length lots.old }
    requires room { MOST_ROWS * length lots.old ≤ length cells.now }
    requires ranks { AreRanks (record { parts = parts; lots = lots.old }) cells.now ranks.old }
    requires bests { AreBests (record { parts = parts; lots = lots.old }) cells.now ranks.old bests.old }
    requires own { (side : Side) → AreOwn (row_shown (record { parts = parts; lots = slice_set lots.old sym lot })
        cells.now sym side) }
    ensures lots { lots.new ≡ slice_set lots.old sym lot }
    ensures ranks { AreRanks (record { parts = parts; lots = lots.new }) cells.now ranks.new }
    ensures bests { AreBests (record { parts = parts; lots = lots.new }) cells.now ranks.new bests.new }
{
    let shown = symbol_cells(cells, sym, parts);
    let orders = &mut ranks[sym];
    orders.rank_anew(lot, shown);
    bests[sym] = SymbolBest::of(lot, orders, shown);
    lots[sym] = lot;
}

/// The cells of a symbol's participants.
fn symbol_cells(cells: &[Cell], sym: usize, parts: u8) -> &[Cell]
    requires { MOST_ROWS * sym + parts ≤ length cells.now }
    ensures { result.now ≡ symbol_cells parts sym cells.now }
{
    let first = MOST_ROWS * sym;
    &cells[first..first + usize::from(parts)]
}
