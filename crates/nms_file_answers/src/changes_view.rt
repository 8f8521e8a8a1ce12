//! The view of a symbol after the changes of a file.
ghost use Rattle.std.specs.Prelude.{◌≡◌, ◌<◌, ◌≤◌, All, length, true, IfErr, IfOk};
ghost use Rattle.nms_quote.specs.Roster.{holds, sizes_of};
ghost use Rattle.nms_quote.specs.declared.side_quote.Side.{Side};
ghost use Rattle.nms_quote.specs.declared.TheConstants.{MOST_CHANGES};
ghost use Rattle.nms_board.specs.View.{rows_on, view_of};
ghost use Rattle.nms_files.specs.ChangeFile.{IsFileFault, IsFileTape};
ghost use Rattle.nms_quote.specs.Tape.{Tape};

use nms_board::{BoardFault, Boards, View};
use nms_fees::Setup;
use nms_files::{ChangesFault, read_changes};
use nms_quote::{Change, Roster, Sym};
use std::alloc::Global;
use std::io::Read;

/// Why there is no view after a file of changes.
#[derive(Clone, Copy)]
pub(crate) enum ViewFault {
    /// The file of changes is no tape.
    Changes(ChangesFault),
    /// There was no memory for a board.
    Board(BoardFault),
}

/// The view of a symbol after all the changes of a file.
pub(crate) fn view_of_file<R: Read + Drop>(
    alloc: Global,
    setup: &Setup,
    source: R,
    sym: Sym,
) -> Result<View, ViewFault>
    requires { sym < length setup.now.roster.syms }
    ensures shown { IfOk result (λ view. (tape : Tape) × IsFileTape setup.now (R.remaining source) tape × (view ≡ view_of (sizes_of setup.now.roster) tape sym)) }
    ensures parts { IfOk result (λ view. (side : Side) → All (λ row. row.part < length setup.now.roster.parts) (rows_on side view)) }
    ensures refused { IfErr result (λ fault. (why : ChangesFault) → fault ≡ ViewFault.Changes why → IsFileFault setup.now (R.remaining source) why) }
{
    let changes = match read_changes(alloc, setup, source) {
        Ok(changes) => changes,
        Err(fault) => return Err(ViewFault::Changes(fault)),
    };
    match view_after(alloc, setup.roster(), &changes, sym) {
        Ok(view) => Ok(view),
        Err(fault) => Err(ViewFault::Board(fault)),
    }
}

/// The view of a symbol after these changes.
pub(crate) fn view_after(
    alloc: Global,
    roster: &Roster,
    changes: &[Change],
    sym: Sym,
) -> Result<View, BoardFault>
    requires sym { sym < length roster.now.syms }
    requires held { All (λ change. holds (sizes_of roster.now) change ≡ true) changes.now }
    requires few { length changes.now ≤ MOST_CHANGES }
    ensures shown { IfOk result (λ view. view ≡ view_of (sizes_of roster.now) changes.now sym) }
    ensures parts { IfOk result (λ view. (side : Side) → All (λ row. row.part < length roster.now.parts) (rows_on side view)) }
{
    let mut board = Boards::new(alloc, roster)?;
    board.apply_all(changes);
    Ok(board.view(sym))
}
