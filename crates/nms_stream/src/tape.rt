//! The changes of a file, with what is known about them.
ghost use Rattle.std.specs.Prelude.{◌≡◌, ◌≤◌, All, IfErr, IfOk, length, true};
ghost use Rattle.nms_quote.specs.Roster.{holds, sizes_of};
ghost use Rattle.nms_quote.specs.declared.TheConstants.{MOST_CHANGES};
ghost use Rattle.nms_files.specs.ChangeFile.{IsFileFault, IsFileTape};

use nms_fees::Setup;
use nms_files::{ChangesFault, read_changes};
use nms_quote::{Change, Roster};
use std::alloc::Global;
use std::io::Read;

/// Changes of a setup's participants and symbols, and no more than a board takes. So a function that is given a tape need not
/// require that.
#[derive(Drop)]
pub struct Tape<'a> {
    /// The setup under which the changes were read.
    pub setup: &'a Setup,
    /// The roster of the setup, which lists its participants and symbols.
    pub roster: &'a Roster,
    /// The changes, from first to last.
    pub changes: Vec<Change>,
    pub ghost own: { roster.now ≡ setup.now.roster },
    pub ghost held: { All (λ change. holds (sizes_of roster.now) change ≡ true) changes.items },
    pub ghost few: { length changes.items ≤ MOST_CHANGES },
}

impl<'a> Tape<'a> {
    /// Reads all changes of a file as a tape under this setup. A fault says why the file is no tape.
    pub fn read<R: Read + Drop>(
        alloc: Global,
        setup: &'a Setup,
        source: R,
    ) -> Result<Self, ChangesFault>
        ensures file { IfOk result (λ tape. IsFileTape setup.now (R.remaining source) tape.changes.items) }
        ensures setup { IfOk result (λ tape. tape.setup.now ≡ setup.now) }
        ensures roster { IfOk result (λ tape. tape.roster.now ≡ setup.now.roster) }
        ensures refused { IfErr result (IsFileFault setup.now (R.remaining source)) }
    {
        match read_changes(alloc, setup, source) {
            Ok(changes) => Ok(Tape {
                setup,
                roster: setup.roster(),
                changes,
            }),
            Err(fault) => Err(fault),
        }
    }
}
