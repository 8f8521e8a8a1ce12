//! A board that moves along a tape, with what was last shown for each symbol: `specs/Following`.
ghost use Rattle.std.specs.Prelude.{◌≡◌, ◌<◌, ◌++◌, ◌∷◌, [], length, true, None, Some, IfOk, IfSome, OnOk, slice_get, slice_set};
ghost use Rattle.nms_quote.specs.Roster.{sizes_of};
ghost use Rattle.nms_quote.specs.Tape.{Tape};
ghost use Rattle.nms_board.specs.Cells.{StandsFor, takes};
ghost use Rattle.nms_board.specs.Shown.{seen_on};
ghost use Rattle.nms_lines.specs.Text.{text_of};
ghost use Rattle.nms_stream.specs.Following.{Follows, IsOf, Shows, symbol_of};
ghost use Rattle.nms_stream.specs.Quoted.{quoted_in};
ghost use Rattle.nms_stream.specs.Stream.{line_between, line_of, lines_between};
ghost use Rattle.nms_stream.specs.declared.quoted.Quoted.{Quoted};

use crate::line::tell_line;
use crate::quoted::{Quoted, quoted_on};
use nms_board::{BoardFault, Boards, Row, other_symbols_stay};
use nms_quote::{Change, Roster, Sym};
use std::alloc::{AllocError, Global};

/// A board that moves along a tape, and what was last shown for each symbol, by place.
#[derive(Drop)]
pub(crate) struct Follower {
    pub(crate) board: Boards,
    pub(crate) shown: Vec<Quoted>,
}

/// A board before the first change of a tape, with what it shows for each symbol.
pub(crate) fn open(alloc: Global, roster: &Roster) -> Result<Follower, BoardFault>
    ensures of { IfOk result (IsOf (sizes_of roster.now)) }
    ensures first { IfOk result (λ follower. Follows (sizes_of roster.now) None follower []) }
{
    let board = Boards::new(alloc, roster)?;
    match shown_on(alloc, roster, &board) {
        Ok(shown) => Ok(Follower { board, shown }),
        Err(_) => Err(BoardFault::NoMemory),
    }
}

/// What a board shows for each symbol, by place.
fn shown_on(alloc: Global, roster: &Roster, board: &Boards) -> Result<Vec<Quoted>, AllocError>
    requires { board.now.sizes ≡ sizes_of roster.now }
    ensures places { IfOk result (λ shown. length shown.items ≡ length roster.now.syms) }
    ensures shown { (tape : Tape) → StandsFor board.now tape
        → IfOk result (λ shown. Shows (sizes_of roster.now) None shown.items tape) }
{
    // The prover has to see the type of a row before rows move, so the code mentions it.
    let _seen: Option<Row> = None;
    let mut shown = Vec::with_capacity(alloc, roster.syms())?;
    for place in 0..roster.syms() as u16 {
        shown.push(quoted_on(board, Sym::new(place).unwrap()))?;
    }
    Ok(shown)
}

/// Moves the board on by one change, and appends the lines of the symbols that are asked for. Symbols that the change does not
/// concern are not looked at.
pub(crate) fn follow(
    follower: &mut Follower,
    roster: &Roster,
    change: &Change,
    asked: &Option<Sym>,
    out: &mut Vec<u8>,
) -> Result<(), AllocError>
    requires of { IsOf (sizes_of roster.now) follower.old }
    requires takes { takes follower.old.board change.now ≡ true }
    requires asked { IfSome asked.now (λ sym. sym < length roster.now.syms) }
    ensures of { IsOf (sizes_of roster.now) follower.new }
    ensures follows { (tape : Tape) → Follows (sizes_of roster.now) asked.now follower.old tape
        → OnOk result (Follows (sizes_of roster.now) asked.now follower.new (tape ++ change.now ∷ [])) }
    ensures told { (tape : Tape) → Follows (sizes_of roster.now) asked.now follower.old tape
        → OnOk result (out.new.items ≡ out.old.items ++ text_of (lines_between roster.now asked.now tape (tape ++ change.now ∷ []))) }
{
    match asked {
        None => follow_all(follower, roster, change, out),
        Some(sym) => follow_one(follower, roster, change, *sym, out),
    }
}

/// Moves the board on by one change. It appends the line of one symbol if its best bid or best offer does not look as last
/// shown.
fn follow_one(
    follower: &mut Follower,
    roster: &Roster,
    change: &Change,
    sym: Sym,
    out: &mut Vec<u8>,
) -> Result<(), AllocError>
    requires of { IsOf (sizes_of roster.now) follower.old }
    requires takes { takes follower.old.board change.now ≡ true }
    requires sym { sym < length roster.now.syms }
    ensures of { IsOf (sizes_of roster.now) follower.new }
    ensures follows { (tape : Tape) → Follows (sizes_of roster.now) (Some sym) follower.old tape
        → OnOk result (Follows (sizes_of roster.now) (Some sym) follower.new (tape ++ change.now ∷ [])) }
    ensures told { (tape : Tape) → Follows (sizes_of roster.now) (Some sym) follower.old tape
        → OnOk result (out.new.items ≡ out.old.items ++ text_of (line_between roster.now tape (tape ++ change.now ∷ []) sym)) }
{
    other_symbols_stay();
    follower.board.apply(*change);
    if let Some(own) = symbol_of(change) {
        if own != sym {
            return Ok(());
        }
    }
    show(follower, roster, sym, out)
}

/// Moves the board on by one change. It appends a line for each symbol whose best bid or best offer does not look as last
/// shown.
fn follow_all(
    follower: &mut Follower,
    roster: &Roster,
    change: &Change,
    out: &mut Vec<u8>,
) -> Result<(), AllocError>
    requires of { IsOf (sizes_of roster.now) follower.old }
    requires takes { takes follower.old.board change.now ≡ true }
    ensures of { IsOf (sizes_of roster.now) follower.new }
    ensures follows { (tape : Tape) → Follows (sizes_of roster.now) None follower.old tape
        → OnOk result (Follows (sizes_of roster.now) None follower.new (tape ++ change.now ∷ [])) }
    ensures told { (tape : Tape) → Follows (sizes_of roster.now) None follower.old tape
        → OnOk result (out.new.items ≡ out.old.items ++ text_of (lines_between roster.now None tape (tape ++ change.now ∷ []))) }
{
    other_symbols_stay();
    follower.board.apply(*change);
    match symbol_of(change) {
        Some(sym) => show(follower, roster, sym, out),
        None => show_each(follower, roster, out),
    }
}

/// The only symbol that a change is about; none for a withdrawal, which is about all.
fn symbol_of(change: &Change) -> Option<Sym>
    ensures { result ≡ symbol_of change.now }
{
    match *change {
        Change::Quote { sym, .. } | Change::State { sym, .. } | Change::Lot { sym, .. } => {
            Some(sym)
        }
        Change::Withdraw { .. } => None,
    }
}

/// Appends the line of a symbol if its board does not look like what was last shown. Then the board's rows are kept as shown.
fn show(
    follower: &mut Follower,
    roster: &Roster,
    sym: Sym,
    out: &mut Vec<u8>,
) -> Result<(), AllocError>
    requires of { IsOf (sizes_of roster.now) follower.old }
    requires sym { sym < length roster.now.syms }
    ensures board { follower.new.board ≡ follower.old.board }
    ensures shown { follower.new.shown.items ≡ slice_set follower.old.shown.items sym (quoted_in (seen_on follower.old.board sym)) }
    ensures told { (was : Quoted) → slice_get follower.old.shown.items sym ≡ Some was
        → OnOk result (out.new.items ≡ out.old.items ++ text_of (line_of roster.now follower.old.board.applied sym was (quoted_in (seen_on follower.old.board sym)))) }
{
    let place = usize::from(sym.get());
    let quoted = quoted_on(&follower.board, sym);
    let was = follower.shown[place];
    follower.shown[place] = quoted;
    if was.is_like(&quoted) {
        return Ok(());
    }
    tell_line(out, roster, follower.board.applied(), sym, &quoted)
}

/// Appends a line for each symbol whose best bid or best offer does not look as last shown. Then the best rows are kept as
/// shown.
fn show_each(follower: &mut Follower, roster: &Roster, out: &mut Vec<u8>) -> Result<(), AllocError>
    requires of { IsOf (sizes_of roster.now) follower.old }
    ensures board { follower.new.board ≡ follower.old.board }
    ensures of { IsOf (sizes_of roster.now) follower.new }
    ensures shows { (before now : Tape) → StandsFor follower.old.board now → Shows (sizes_of roster.now) None follower.old.shown.items before
        → OnOk result (Shows (sizes_of roster.now) None follower.new.shown.items now) }
    ensures told { (before now : Tape) → StandsFor follower.old.board now → Shows (sizes_of roster.now) None follower.old.shown.items before
        → OnOk result (out.new.items ≡ out.old.items ++ text_of (lines_between roster.now None before now)) }
{
    for place in 0..roster.syms() as u16 {
        show(follower, roster, Sym::new(place).unwrap(), out)?;
    }
    Ok(())
}
