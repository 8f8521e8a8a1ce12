//! What a call receives in order to read a board: `specs/Looked`.
ghost use Rattle.std.specs.Prelude.{◌≡◌, Option, None, Some, ℕ};
ghost use Rattle.nms_c.specs.Held.{open_mark};
ghost use Rattle.nms_calls.specs.Opened.{Opened};

use crate::handle::OPEN;
use crate::lease::Lease;
use nms_calls::OpenBoard;
use std::marker::Model;
use std::ptr::null;

/// A copy of a handle's 16 bytes, for one look. If the handle is open, the copy has a share of the right to read the board. There
/// may be any number of looks while no call writes to the board. A look changes only its own two words on its caller's stack, and
/// its answer.
#[repr(C)]
#[derive(Drop)]
pub struct NmsLook {
    pub(crate) mark: u64,
    at: *const u8,
    pub(crate) ghost value: { Option Opened },
    pub(crate) ghost round: { ℕ },
    pub(crate) ghost count: { ℕ },
}

impl Model for NmsLook {
    ghost use Rattle.nms_c.specs.Looked.{looked};

    ghost also_owns = { λ l. looked l.mark l.at l.value l.round l.count };
}

impl NmsLook {
    /// An open look, with a share of the right to read a board.
    pub(crate) fn from_lease(lease: Lease<OpenBoard>) -> NmsLook
        ensures { (result.mark ≡ open_mark) × (result.value ≡ Some lease.value) × (result.round ≡ lease.round) × (result.count ≡ lease.count) }
    {
        let Lease { ptr } = lease;
        let at = ptr as *const u8;
        NmsLook { mark: OPEN, at }
    }

    /// The share of the right to read the board that a look at an open board has.
    pub(crate) fn into_lease(self) -> Lease<OpenBoard>
        requires { self.mark ≡ open_mark }
        ensures { (Some result.value ≡ self.value) × (result.round ≡ self.round) × (result.count ≡ self.count) }
    {
        let NmsLook { mark: _, at } = self;
        let ptr = at as *const OpenBoard;
        Lease { ptr }
    }

    /// A closed look, which has no board to read.
    pub(crate) fn shut() -> NmsLook
        ensures { (result.mark ≡ 0) × (result.value ≡ None) }
    {
        NmsLook {
            mark: 0,
            at: null(),
        }
    }

    /// The number that says whether the look is open.
    pub(crate) fn mark(&mut self) -> u64
        ensures { (result ≡ self.old.mark) × (self.new ≡ self.old) }
    {
        self.mark
    }
}
