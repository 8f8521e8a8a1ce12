//! Taking a handle's board for one call, and putting it back.
ghost use Rattle.std.specs.Prelude.{◌≡◌, ◌≢◌, Some, None, MatchOption};
ghost use Rattle.nms_c.specs.Held.{open_mark};

use crate::handle::{NmsBoard, OPEN};
use core::mem::replace_with;
use nms_calls::OpenBoard;
use std::alloc::Global;

/// The code of a handle that is not open.
pub(crate) const CLOSED: u32 = 15;
/// The code of a handle that is open already.
pub(crate) const OPEN_ALREADY: u32 = 17;

fn put(_closed: NmsBoard, kept: Box<OpenBoard>) -> (NmsBoard, ())
    ensures { (result.0.mark ≡ open_mark) × (result.0.value ≡ Some kept.value) }
{
    (NmsBoard::of(kept), ())
}

fn out_of(board: NmsBoard, alloc: Global) -> (NmsBoard, Box<OpenBoard>)
    requires { board.mark ≡ open_mark }
    ensures left { (result.0.mark ≡ 0) × (result.0.value ≡ None) }
    ensures value { Some result.1.value ≡ board.value }
{
    let kept = board.into_box();
    (NmsBoard::shut(alloc), kept)
}

/// Takes the board of an open handle, which is closed until the board is back. `None` leaves a closed handle as it was.
#[inline(always)]
pub(crate) fn take(alloc: Global, board: &mut NmsBoard) -> Option<Box<OpenBoard>>
    ensures { MatchOption result ((board.old.mark ≢ open_mark) × (board.new ≡ board.old))
        (λ kept. (board.old.mark ≡ open_mark) × (Some kept.value ≡ board.old.value) × (board.new.mark ≡ 0)) }
{
    if board.mark() != OPEN {
        return None;
    }
    Some(replace_with(board, alloc, out_of))
}

/// Puts the board back into its handle, which opens the handle.
#[inline(always)]
pub(crate) fn give(board: &mut NmsBoard, kept: Box<OpenBoard>)
    ensures { (board.new.mark ≡ open_mark) × (board.new.value ≡ Some kept.value) }
{
    replace_with(board, kept, put);
}
