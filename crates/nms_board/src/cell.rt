//! What one participant has in one symbol, which is a cell of `specs/Cells`.
ghost use Rattle.std.specs.Prelude.{◌≡◌, ℕ, ◌*◌, ◌≤◌, IfOk, IfSome, Some, false, length, true, replicate};
ghost use Rattle.std.specs.Option.{is_some};
ghost use Rattle.nms_board.specs.Cells.{empty_cell};
ghost use Rattle.nms_board.specs.History.{on_side};

use crate::MOST_ROWS;
use crate::row::Row;
use nms_quote::{Change, MOST_SYMBOLS, Part, QState, Side, SideQuote};
use nms_units::{Lot, Price, Shares};
use std::alloc::{AllocError, Global};
use std::marker::Model;

/// What a participant quotes on one side of a symbol, and the number of the change that last altered it. It takes 16 bytes, so
/// that the cells of a symbol, which are read one after another, are close together.
#[derive(Clone, Copy, PartialEq, Eq)]
pub struct Held {
    /// The price, in 1/10,000 dollar; the least price if nothing is quoted.
    price: Price,
    /// The shares; 0 if nothing is quoted.
    shares: Shares,
    /// The number of the change that last altered the side, 1 to 10,000,000; 0 if no change altered it.
    receipt: u32,
}

impl Model for Held {
    ghost use Rattle.std.specs.Prelude.{◌≡◌};
    ghost use Rattle.nms_board.specs.Holding.{Holding, price_back, price_of, quote_of, shares_back, shares_of};

    ghost Value = { Holding };

    ghost view = { λ h. record { quote = quote_of h.price h.shares; receipt = h.receipt } };

    ghost invariant = { λ h. h.shares ≡ 0 → h.price ≡ 1 };

    ghost inverse = { λ h. record { price = price_of h.quote; shares = shares_of h.quote; receipt = h.receipt } };

    ghost inverse_ok = { λ a h i. record {
      price = price_back a.price a.shares h i;
      shares = shares_back a.price a.shares i;
      receipt = a.receipt;
    } };
}

impl Held {
    ghost use Rattle.nms_board.specs.Cells.{held_after, nothing_held};

    /// The side of a participant that never quoted.
    pub(crate) fn nothing() -> Self
        ensures { result ≡ nothing_held }
    {
        Held {
            price: Price::new(1).unwrap(),
            shares: Shares::new(0).unwrap(),
            receipt: 0,
        }
    }

    /// A side to which the change of the given number gave this quotation.
    fn of(number: u32, quote: Option<SideQuote>) -> Self
        ensures quote { result.quote ≡ quote }
        ensures receipt { result.receipt ≡ number }
    {
        match quote {
            Some(quote) => Held {
                price: quote.price,
                shares: quote.shares,
                receipt: number,
            },
            None => Held {
                price: Price::new(1).unwrap(),
                shares: Shares::new(0).unwrap(),
                receipt: number,
            },
        }
    }

    /// The quotation of the side, if there is one.
    pub fn quote(&self) -> Option<SideQuote>
        ensures { result ≡ self.now.quote }
    {
        SideQuote::new(self.price, self.shares)
    }

    /// The quotation of a side that has one.
    pub(crate) fn quoted(&self) -> SideQuote
        requires { is_some self.now.quote ≡ true }
        ensures { Some result ≡ self.now.quote }
    {
        SideQuote {
            price: self.price,
            shares: self.shares,
        }
    }

    /// The number of the change that last altered the side.
    pub fn receipt(&self) -> u64
        ensures { result ≡ self.now.receipt }
    {
        u64::from(self.receipt)
    }

    /// Whether the side has a quotation.
    fn is_quoted(&self) -> bool
        ensures { result ≡ is_some self.now.quote }
    {
        self.shares.get() > 0
    }

    /// Gives the side the quotation of a change, with the number of the change. The older number stays if the price and the
    /// shares stay. All fields are always written, because a branch here would be taken at random.
    pub(crate) fn take(&mut self, number: u32, quote: Option<SideQuote>)
        ensures { self.new ≡ held_after number quote self.old }
    {
        let mut taken = Held::of(number, quote);
        if (self.price == taken.price) & (self.shares == taken.shares) {
            taken.receipt = self.receipt;
        }
        *self = taken;
    }
}

/// What a participant has in a symbol: the state of its quotations, its bid and its offer.
#[derive(Clone, Copy)]
pub struct Cell {
    /// The state of the participant's quotations in the symbol; `None` if the participant never sent a state.
    pub state: Option<QState>,
    /// The participant's bid, hidden while the state is `Halted`.
    pub bid: Held,
    /// The participant's offer, hidden while the state is `Halted`.
    pub offer: Held,
}

impl Cell {
    ghost use Rattle.nms_board.specs.Cells.{altered, empty_cell, quoted, restated, withdrawn};
    ghost use Rattle.nms_board.specs.Ranks.{size_of};
    ghost use Rattle.nms_board.specs.Shown.{row_of_cell};

    /// The cell of a participant that never quoted in the symbol.
    pub(crate) fn empty() -> Self
        ensures { result ≡ empty_cell }
    {
        Cell {
            state: None,
            bid: Held::nothing(),
            offer: Held::nothing(),
        }
    }

    /// Takes the state and both sides of a quotation, by the change of the given number.
    pub(crate) fn quote(
        &mut self,
        number: u32,
        state: QState,
        bid: Option<SideQuote>,
        offer: Option<SideQuote>,
    )
        ensures { self.new ≡ quoted number state bid offer self.old }
    {
        self.state = Some(state);
        self.bid.take(number, bid);
        self.offer.take(number, offer);
    }

    /// Takes a new state, and leaves both sides as they are.
    pub(crate) fn restate(&mut self, state: QState)
        ensures { self.new ≡ restated state self.old }
    {
        self.state = Some(state);
    }

    /// Takes what a change of the given number says about the participant in the symbol. A new round lot leaves the cell as it
    /// is.
    pub(crate) fn alter(&mut self, number: u32, change: &Change)
        ensures { self.new ≡ altered number change.now self.old }
    {
        match *change {
            Change::Quote {
                state,
                bid,
                offer,
                ..
            } => self.quote(number, state, bid, offer),
            Change::State { state, .. } => self.restate(state),
            Change::Withdraw { .. } => self.withdraw(number),
            Change::Lot { .. } => {}
        }
    }

    /// Removes the quotations of both sides, by the change of the given number. The state stays.
    pub(crate) fn withdraw(&mut self, number: u32)
        ensures { self.new ≡ withdrawn number self.old }
    {
        self.bid.take(number, None);
        self.offer.take(number, None);
    }

    /// Whether either side has a quote. If none has, a withdrawal alters nothing.
    pub(crate) fn has_quote(&self) -> bool
        ensures { result ≡ false → (number : ℕ) → withdrawn number self.now ≡ self.now }
    {
        self.bid.is_quoted() | self.offer.is_quoted()
    }

    /// What the participant quotes on a side, and the number of the change that last altered it.
    pub(crate) fn held(&self, side: Side) -> &Held
        ensures { result.now ≡ on_side side self.now.bid self.now.offer }
    {
        match side {
            Side::Bid => &self.bid,
            Side::Offer => &self.offer,
        }
    }

    /// Whether a side has the same quotation, receipt and state as in another cell of the participant. Then it shows the same
    /// in any round lot.
    pub(crate) fn shows_as(&self, was: &Cell, side: Side) -> bool
        ensures { result ≡ true → (lot part : ℕ) → row_of_cell lot part side was.now ≡ row_of_cell lot part side self.now }
    {
        let held = self.held(side);
        let held_before = was.held(side);
        held.receipt == held_before.receipt && held == held_before && self.state == was.state
    }

    /// The size that a side shows in shares, rounded down to round lots of the given size. It is 0 if the side shows no
    /// quotation.
    pub(crate) fn size(&self, side: Side, lot: Lot) -> u32
        ensures { (part : ℕ) → result ≡ size_of (row_of_cell lot part side self.now) }
    {
        if self.state == Some(QState::Halted) {
            return 0;
        }
        lot.displayed(self.held(side).shares)
    }

    /// The price of a side's quotation. It has no meaning if the side has no quotation.
    #[inline(always)]
    #[tactic(auto, using(crate::proofs::RowLemmas::quotation_price))]
    pub(crate) fn price(&self, side: Side) -> Price
        ensures { (lot part : ℕ) → IfSome (row_of_cell lot part side self.now) (λ row. row.price ≡ result) }
    {
        self.held(side).price
    }

    /// The quotation that a side shows in round lots of the given size. `None` if it is halted or is less than a round lot.
    #[inline(always)]
    pub(crate) fn row(&self, side: Side, part: Part, lot: Lot) -> Option<Row>
        ensures { result ≡ row_of_cell lot part side self.now }
    {
        let size = self.size(side, lot);
        if size == 0 {
            return None;
        }
        let held = self.held(side);
        Some(Row {
            price: held.price,
            receipt: held.receipt(),
            size,
            part,
            protected: self.state == Some(QState::Automated),
        })
    }
}

/// Resets cells to those of participants that never quoted.
pub(crate) fn clear_cells(cells: &mut [Cell])
    ensures { cells.new ≡ replicate (length cells.old) empty_cell }
{
    cells.fill(Cell::empty());
}

/// The cells of a number of symbols, `MOST_ROWS` (32) for each, of participants that never quoted.
pub(crate) fn empty_cells(alloc: Global, syms: usize) -> Result<Vec<Cell>, AllocError>
    requires { syms ≤ MOST_SYMBOLS }
    ensures { IfOk result (λ cells. cells.items ≡ replicate (MOST_ROWS * syms) empty_cell) }
{
    let of_symbol = [Cell::empty(); MOST_ROWS];
    let mut cells = Vec::with_capacity(alloc, MOST_ROWS * syms)?;
    for _ in 0..syms {
        cells.extend_from_slice(&of_symbol)?;
    }
    Ok(cells)
}
