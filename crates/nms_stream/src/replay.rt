//! Moving a board to any version of a tape: `specs/Replays`.
ghost use Rattle.std.specs.Prelude.{◌≡◌, ◌≤◌, IfOk, MatchOption, length, slice_get, take};
ghost use Rattle.nms_board.specs.View.{view_of};
ghost use Rattle.nms_board.specs.declared.TheConstants.{MOST_ROWS};
ghost use Rattle.nms_stream.specs.Replays.{IsAt, IsStep};
ghost use Rattle.nms_stream.specs.Tapes.{sizes_in};

use crate::tape::Tape;
use nms_board::{BoardFault, Boards, View};
use nms_quote::{Change, Sym};
use std::alloc::Global;

/// A board at a version of a tape.
#[derive(Drop)]
pub struct Replay<'a> {
    /// The tape along which the board moves.
    pub tape: &'a Tape<'a>,
    /// The board, to which the first changes of the tape have been applied.
    pub board: Boards,
    pub ghost at: { IsAt (sizes_in tape.now) tape.now.changes.items board },
}

impl<'a> Replay<'a> {
    /// The board before the first change.
    pub fn open(alloc: Global, tape: &'a Tape<'a>) -> Result<Self, BoardFault>
        ensures tape { IfOk result (λ replay. replay.tape.now ≡ tape.now) }
        ensures first { IfOk result (λ replay. replay.board.applied ≡ 0) }
        ensures narrow { length tape.now.roster.now.parts ≤ MOST_ROWS }
    {
        match Boards::new(alloc, tape.roster) {
            Ok(board) => Ok(Replay { tape, board }),
            Err(fault) => Err(fault),
        }
    }

    /// What the board shows for a symbol.
    pub fn view(&self, sym: Sym) -> View
        ensures { result ≡ view_of (sizes_in self.now.tape.now) (take self.now.board.applied self.now.tape.now.changes.items) sym }
    {
        self.board.view(sym)
    }

    /// Moves the board over one more change, and returns the change; `None` after the last one.
    pub fn step(&mut self) -> Option<Change>
        ensures tape { self.new.tape ≡ self.old.tape }
        ensures step { MatchOption result (self.old.board.applied ≡ length self.old.tape.now.changes.items)
            (IsStep (sizes_in self.old.tape.now) self.old.tape.now.changes.items self.old.board self.new.board) }
    {
        match self.next() {
            Some(change) => {
                // The change is copied before it is passed on, because the borrow checker treats a passed value as moved.
                let taken = change;
                self.board.apply(change);
                Some(taken)
            }
            None => None,
        }
    }

    /// The next change, if there is one.
    fn next(&self) -> Option<Change>
        ensures { result ≡ slice_get self.now.tape.now.changes.items self.now.board.applied }
    {
        self.tape
            .changes
            .get(self.board.applied() as usize)
            .copied()
    }

    /// Moves the board to a version: forward, or from the start if it is past the version. It takes no memory.
    pub fn move_to(&mut self, version: u64)
        requires within { version ≤ length self.old.tape.now.changes.items }
        ensures tape { self.new.tape ≡ self.old.tape }
        ensures moved { self.new.board.applied ≡ version }
    {
        self.rewind(version);
        let (version, _) = self.tape.changes.split_at(version as usize);
        let (_, later) = version.split_at(self.board.applied() as usize);
        self.board.apply_all(later);
    }

    /// Takes everything off the board if it is past a version.
    fn rewind(&mut self, version: u64)
        ensures tape { self.new.tape ≡ self.old.tape }
        ensures behind { self.new.board.applied ≤ version }
    {
        if self.board.applied() <= version {
            return;
        }
        self.board.clear();
    }
}
