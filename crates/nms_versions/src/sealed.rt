//! A board with its history, which the pair shows (specs/Rule).
ghost use Rattle.std.specs.Prelude.{◌≡◌, fold};
ghost use Rattle.nms_versions.specs.Rule.{absorbed, after_taken};

use crate::batch::Batch;
use crate::history::Token;
use left_right::Absorb;
use nms_board::Boards;
use nms_quote::Change;
use std::alloc::AllocError;

/// A board with its history. The pair has two, and readers take one of them.
#[derive(Drop)]
pub struct Sealed {
    pub(crate) boards: Boards,
    pub(crate) seen: Token,
}

impl Absorb<Batch> for Sealed {
    type State = Sealed;

    ghost state = { λ sealed. sealed };

    ghost applied = { absorbed };

    ghost never_fails = { Unit {0} };

    fn absorb_first(&mut self, operation: &Batch, _other: &Sealed) -> Result<(), AllocError> {
        apply_taken(&mut self.boards, operation.changes.as_slice());
        self.seen = operation.seen.again();
        Ok(())
    }
}

/// Applies changes in order. A change that the board does not take is skipped.
fn apply_taken(boards: &mut Boards, changes: &[Change])
    ensures { boards.new ≡ fold after_taken boards.old changes.now }
{
    for change in changes {
        apply_one(boards, change);
    }
}

/// Applies a change, if the board takes it.
fn apply_one(boards: &mut Boards, change: &Change)
    ensures { boards.new ≡ after_taken boards.old change.now }
{
    if boards.takes(change) {
        boards.apply(*change);
    }
}
