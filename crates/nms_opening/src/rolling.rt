//! A board that takes changes without end: `specs/Rolling`.
ghost use Rattle.std.specs.Prelude.{◌≡◌, ℕ, ◌+◌, ◌<◌, ◌≤◌, IfOk, length, nat_lt, true};
ghost use Rattle.nms_quote.specs.Roster.{holds, sizes_of};
ghost use Rattle.nms_quote.specs.declared.TheConstants.{MOST_CHANGES};
ghost use Rattle.nms_board.specs.Cells.{after, opening};
ghost use Rattle.nms_opening.specs.Alike.{ShowAlike};
ghost use Rattle.nms_opening.specs.Rolling.{HasRoom, HasTaken, IsCarrying, IsReady, is_followed, version};
ghost use Rattle.nms_opening.specs.declared.TheConstants.{MOST_BEFORE, MOST_OPENING};

use crate::ROLLS_AT;
use crate::opening_list::opening_of;
use nms_board::{BoardFault, Boards};
use nms_quote::{Change, Roster, Sym};
use std::alloc::Global;
use std::marker::Model;
use std::mem;

/// A board that takes changes without end. Each change takes about as long as on a plain board. Near the limit of its changes,
/// each change also brings one symbol to the next board. When the next board has all symbols, it replaces the old one.
#[derive(Drop)]
pub struct RollingBoard {
    board: Boards,
    next: Boards,
    /// How many symbols the next board has. `None` while it is not being filled.
    carried: Option<u16>,
    before: u64,
}

impl Model for RollingBoard {
    ghost use Rattle.std.specs.Prelude.{◌≤◌};
    ghost use Rattle.nms_opening.specs.Rolling.{IsReady, Rolled};

    ghost Value = { Rolled };

    ghost view = { λ r. record { board = r.board; before = r.before } };

    ghost invariant = { λ r. IsReady r.board r.next r.carried };
}

impl RollingBoard {
    /// An empty board of a roster. It takes all memory now, so no later call takes any.
    pub fn new(alloc: Global, roster: &Roster) -> Result<Self, BoardFault>
        ensures opening { IfOk result (λ rolling. rolling.board ≡ opening (sizes_of roster.now)) }
        ensures before { IfOk result (λ rolling. rolling.before ≡ 0) }
    {
        let board = Boards::new(alloc, roster)?;
        let next = Boards::new(alloc, roster)?;
        Ok(RollingBoard {
            board,
            next,
            carried: None,
            before: 0,
        })
    }

    /// The present board, for all looks. Its receipts count from the last time that a new board replaced the old one. They are in
    /// the order of the changes.
    pub fn board(&self) -> &Boards
        ensures { result.now ≡ self.now.board }
    {
        &self.board
    }

    /// How many changes were taken since the start, by all boards.
    pub fn version(&self) -> u64
        requires { self.now.before ≤ MOST_BEFORE }
        ensures { result ≡ version self.now }
    {
        self.before + self.board.applied()
    }

    /// Takes a change, in the time that a plain board needs. While the next board is being filled, one symbol's opening changes
    /// are added to it too.
    #[inline(always)]
    pub fn apply(&mut self, change: Change)
        requires held { holds self.old.board.sizes change ≡ true }
        requires before { self.old.before ≤ MOST_BEFORE }
        ensures { HasTaken self.old self.new change }
    {
        self.board.stands_for_a_tape();
        match self.carried {
            None => {
                self.board.apply(change);
                if self.board.applied() == ROLLS_AT {
                    self.carried = begin(&mut self.board, &mut self.next, &mut self.before);
                }
            }
            Some(carried) => {
                // The next call receives a copy, so that the compiler keeps a usual change in registers.
                let lent = change;
                self.carried = carry_on(
                    &mut self.board,
                    &mut self.next,
                    lent,
                    carried,
                    &mut self.before,
                );
            }
        }
    }
}

/// Begins to fill the next board, which is empty at first. It returns how many symbols that board has. `None` if the next board
/// has replaced the old one already.
///
/// It is not inlined, so that a usual change, which does not need it, does not become slower.
#[inline(never)]
fn begin(board: &mut Boards, next: &mut Boards, before: &mut u64) -> Option<u16>
    requires roster { board.old.sizes ≡ next.old.sizes }
    requires many { board.old.applied ≡ ROLLS_AT }
    requires before { before.old ≤ MOST_BEFORE }
    ensures ready { IsReady board.new next.new result }
    ensures counted { before.new + board.new.applied ≡ before.old + board.old.applied }
    ensures roster { board.new.sizes ≡ board.old.sizes }
    ensures alike { (sym : ℕ) → sym < length board.old.sizes.lots → ShowAlike board.old board.new sym }
{
    board.stands_for_a_tape();
    next.clear();
    go_over(board, next, 0, before)
}

/// Takes a change while the next board is being filled, and brings one more symbol to it. It returns how many symbols that board
/// has then. `None` if the next board has replaced the old one.
#[inline(never)]
fn carry_on(
    board: &mut Boards,
    next: &mut Boards,
    change: Change,
    carried: u16,
    before: &mut u64,
) -> Option<u16>
    requires held { holds board.old.sizes change ≡ true }
    requires carrying { IsCarrying board.old next.old carried }
    requires room { HasRoom board.old next.old carried }
    requires within { carried < length board.old.sizes.lots }
    requires before { before.old ≤ MOST_BEFORE }
    ensures ready { IsReady board.new next.new result }
    ensures counted { before.new + board.new.applied ≡ before.old + board.old.applied + 1 }
    ensures roster { board.new.sizes ≡ board.old.sizes }
    ensures alike { (sym : ℕ) → sym < length board.old.sizes.lots → ShowAlike (after board.old change) board.new sym }
{
    board.stands_for_a_tape();
    apply_both(board, next, change, carried);
    bring(board, next, carried);
    go_over(board, next, carried + 1, before)
}

/// Applies a change to the board, and to the next one if it has the change's symbol.
fn apply_both(board: &mut Boards, next: &mut Boards, change: Change, carried: u16)
    requires held { holds board.old.sizes change ≡ true }
    requires carrying { IsCarrying board.old next.old carried }
    requires board_room { board.old.applied < MOST_CHANGES }
    requires next_room { next.old.applied < MOST_CHANGES }
    ensures after { board.new ≡ after board.old change }
    ensures carrying { IsCarrying board.new next.new carried }
    ensures few { next.new.applied ≤ next.old.applied + 1 }
{
    board.stands_for_a_tape();
    next.stands_for_a_tape();
    board.apply(change);
    if is_followed(&change, carried) {
        next.apply(change);
    }
}

/// Whether a change also applies to the next board. It does if the next board has the symbol already, or the change is of all
/// symbols.
fn is_followed(change: &Change, carried: u16) -> bool
    ensures { result ≡ is_followed change.now carried }
{
    match *change {
        Change::Quote { sym, .. } | Change::State { sym, .. } | Change::Lot { sym, .. } => {
            sym.get() < carried
        }
        Change::Withdraw { .. } => true,
    }
}

/// Brings the opening changes of one more symbol to the next board.
///
/// It is not inlined, because each change would then need the room of its list on the stack.
#[inline(never)]
fn bring(board: &Boards, next: &mut Boards, carried: u16)
    requires carrying { IsCarrying board.now next.old carried }
    requires within { carried < length board.now.sizes.lots }
    requires room { next.old.applied + MOST_OPENING ≤ MOST_CHANGES }
    ensures carrying { IsCarrying board.now next.new (carried + 1) }
    ensures few { next.new.applied ≤ next.old.applied + MOST_OPENING }
{
    board.stands_for_a_tape();
    let changes = opening_of(board, Sym::new(carried).unwrap());
    next.apply_all(changes.as_slice());
}

/// Replaces the board by the next one if that has all symbols. If not, returns how many it has.
fn go_over(board: &mut Boards, next: &mut Boards, carried: u16, before: &mut u64) -> Option<u16>
    requires carrying { IsCarrying board.old next.old carried }
    requires room { HasRoom board.old next.old carried }
    requires within { carried ≤ length board.old.sizes.lots }
    requires before { before.old ≤ MOST_BEFORE }
    ensures ready { IsReady board.new next.new result }
    ensures counted { before.new + board.new.applied ≡ before.old + board.old.applied }
    ensures roster { board.new.sizes ≡ board.old.sizes }
    ensures alike { (sym : ℕ) → sym < length board.old.sizes.lots → ShowAlike board.old board.new sym }
{
    board.stands_for_a_tape();
    if has_place(board, carried) {
        return Some(carried);
    }
    *before += board.applied() - next.applied();
    mem::swap(board, next);
    None
}

/// Whether the board has a symbol at a place.
fn has_place(board: &Boards, place: u16) -> bool
    ensures { result ≡ nat_lt place (length board.now.sizes.lots) }
{
    board.stands_for_a_tape();
    match Sym::new(place) {
        Some(sym) => board.has_sym(sym),
        None => false,
    }
}
