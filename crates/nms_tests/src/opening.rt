//! Reopening a board: a new board takes the opening changes of another one. Reopened boards with random changes are judged
//! through the library (`tests/judge_ranks.py`).
ghost use Rattle.std.specs.Prelude.{◌≡◌};
ghost use Rattle.nms_quote.specs.Roster.{sizes_of};

use crate::rank_order::{offer, sym_at};
use crate::same::same;
use nms_board::Boards;
use nms_fees::{SETUP_K, read_setup};
use nms_opening::reopened;
use nms_quote::{Change, Roster, Side, SideQuote};
use nms_units::Lot;
use std::alloc::Global;
use std::process::Abort;

/// A board with one quotation is reopened. The new board took one change, and shows the same shares.
#[test]
fn a_board_is_reopened(rt: HostRuntime) {
    same(&rt, reopened_in_all(&rt, rt.alloc()), Some((1, 300)));
}

/// The version of a reopened board under the built-in setup, and the shares of its offers.
fn reopened_in_all<R: Abort>(rt: &R, alloc: Global) -> Option<(u64, u64)> {
    let setup = read_setup(alloc, SETUP_K).expect(rt, "a setup");
    reopened_under(rt, alloc, setup.roster())
}

/// The version of a reopened board of a roster, and the shares of its offers. The board before it had one offer of 300 shares.
fn reopened_under<R: Abort>(rt: &R, alloc: Global, roster: &Roster) -> Option<(u64, u64)> {
    // The prover has to see the types of a change before it is held, so the code mentions them.
    let _seen: (Option<SideQuote>, Option<Lot>) = (None, None);
    let change = offer(rt, 0, 300);
    match Boards::new(alloc, roster) {
        Ok(mut board) => reopened_after(rt, alloc, roster, &mut board, &change),
        Err(_) => None,
    }
}

/// Applies a change to a board, and reopens it. Returns how many changes the new board took, and the shares that it shows as
/// offered. `None` if the first board does not take the change.
fn reopened_after<R: Abort>(
    rt: &R,
    alloc: Global,
    roster: &Roster,
    board: &mut Boards,
    change: &Change,
) -> Option<(u64, u64)>
    requires { board.old.sizes ≡ sizes_of roster.now }
{
    if !board.takes(change) {
        return None;
    }
    board.apply(*change);
    match reopened(alloc, roster, board) {
        Ok(again) => Some((
            again.applied(),
            again.view(sym_at(rt, 0)).total(Side::Offer),
        )),
        Err(_) => None,
    }
}
