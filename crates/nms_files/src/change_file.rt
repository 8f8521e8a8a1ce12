//! Reading files of changes. Their lines `Q`, `S`, `X` and `R` together are one tape (specs/ChangeFile).
ghost use Rattle.std.specs.Prelude.{◌≡◌, ◌≤◌, All, length, true, IfErr, IfOk};
ghost use Rattle.nms_quote.specs.Roster.{holds, sizes_of};
ghost use Rattle.nms_quote.specs.declared.TheConstants.{MOST_CHANGES};
ghost use Rattle.nms_files.specs.ChangeFile.{IsFileFault, IsFileTape};

use crate::changes_fault::ChangesFault;
use crate::line_file::{FileItem, outcome, read_items};
use nms_fees::Setup;
use nms_lines::{ByteRecord, RecordFault, read_change};
use nms_quote::{Change, SideQuote};
use std::alloc::Global;
use std::io::Read;

/// Reads the changes of a file, or returns the fault of its first refused line. `TapeFull` is the fault of the first accepted
/// line beyond the tape's limit.
///
/// The file is always read to its end. If it can't be read, that is the fault, even if a line is refused.
pub fn read_changes<R: Read + Drop>(
    alloc: Global,
    setup: &Setup,
    source: R,
) -> Result<Vec<Change>, ChangesFault>
    ensures tape { IfOk result (λ changes. IsFileTape setup.now (R.remaining source) changes.items) }
    ensures held { IfOk result (λ changes. All (λ change. holds (sizes_of setup.now.roster) change ≡ true) changes.items) }
    ensures few { IfOk result (λ changes. length changes.items ≤ MOST_CHANGES) }
    ensures refused { IfErr result (IsFileFault setup.now (R.remaining source)) }
{
    match read_items::<R, Change>(alloc, setup, source) {
        Ok(taken) => outcome(taken),
        Err(fault) => Err(ChangesFault::Record(fault)),
    }
}

impl FileItem for Change {
    ghost use Rattle.nms_files.specs.ChangeFile.{AreChangesOf, IsLineFault};

    type Fault = ChangesFault;

    ghost are_taken = { AreChangesOf };

    ghost is_refused = { IsLineFault };

    fn take_line(
        changes: &mut Vec<Change>,
        setup: &Setup,
        row: &ByteRecord,
    ) -> Result<(), ChangesFault> {
        let change = match read_change(row, setup.roster()) {
            Ok(change) => change,
            Err(fault) => return Err(ChangesFault::Line(fault)),
        };
        if changes.len() as u64 >= setup.tape_limit() {
            return Err(ChangesFault::TapeFull);
        }
        // The prover has to see the types in a change before the change moves, so the code mentions them.
        let _seen: Option<SideQuote> = None;
        match changes.push(change) {
            Ok(()) => Ok(()),
            Err(_) => Err(ChangesFault::Record(RecordFault::NoMemory)),
        }
    }
}
