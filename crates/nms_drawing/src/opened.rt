//! The opening changes of a version, as a file of changes.
ghost use Rattle.std.specs.Prelude.{◌≡◌, List, IfErr, IfOk, None, OnOk, false};
ghost use Rattle.nms_quote.specs.declared.change.Change.{Change};
ghost use Rattle.nms_change_text.specs.ChangeText.{changes_text};
ghost use Rattle.nms_opening.specs.Opening.{Opens};
ghost use Rattle.nms_drawing.specs.Faults.{is_begun};
ghost use Rattle.nms_drawing.specs.Versions.{IsVersionFault, WritesOpening};

use crate::drawing_fault::DrawingFault;
use crate::version::board_at;
use nms_board::Boards;
use nms_change_text::append_changes;
use nms_fees::Setup;
use nms_lines::write_text;
use nms_opening::opening;
use nms_quote::Roster;
use nms_show::Ending;
use std::alloc::{AllocError, Global};
use std::io::{Read, Write};

/// Writes the opening changes of version n, the first n changes of a file, as a file of changes. A new board that takes them
/// shows what the version shows, with new receipts in the same order.
///
/// `VersionBeyondTape` if the file has fewer changes; then nothing is written. The output is not flushed.
pub fn write_opening<R: Read + Drop, W: Write>(
    alloc: Global,
    setup: &Setup,
    source: R,
    version: u64,
    answers: &mut W,
) -> Result<Ending, DrawingFault>
    ensures written { OnOk result (WritesOpening setup.now (R.remaining source) version (W.contents answers.old) (W.contents answers.new)) }
    ensures refused { IfErr result (IsVersionFault setup.now (R.remaining source) None version) }
    ensures unwritten { IfErr result (λ fault. is_begun fault ≡ false → W.contents answers.new ≡ W.contents answers.old) }
{
    let board = board_at(alloc, setup, source, None, version)?;
    let Ok(text) = opening_text(alloc, setup.roster(), &board) else {
        return Err(DrawingFault::NoMemory);
    };
    match write_text(answers, &text) {
        Ok(()) => Ok(Ending::Done),
        Err(_) => Err(DrawingFault::WriteFault),
    }
}

/// The text of the opening changes of a board, with one record for each change.
fn opening_text(alloc: Global, roster: &Roster, board: &Boards) -> Result<Vec<u8>, AllocError>
    ensures { IfOk result (λ text. (changes : List Change) × Opens board.now changes
        × (text.items ≡ changes_text roster.now changes)) }
{
    let changes = opening(alloc, board)?;
    let mut text = Vec::new(alloc);
    append_changes(&mut text, roster, &changes)?;
    Ok(text)
}
