ghost use Rattle.std.specs.Prelude.{◌≡◌, Option, None, Some};
ghost use Rattle.nms_calls.specs.Opened.{Opened};
ghost use Rattle.nms_c.specs.Held.{open_mark};

use crate::loose::Loose;
use nms_calls::OpenBoard;
use std::alloc::Global;
use std::marker::Model;
use std::ptr::null_mut;

/// The number that marks a handle as open. A closed handle has the mark 0.
pub const OPEN: u64 = 78;

#[repr(C)]
#[derive(Drop)]
pub struct NmsBoard {
    pub(crate) mark: u64,
    at: *mut u8,
    alloc: Global,
    pub(crate) ghost value: { Option Opened },
}

impl Model for NmsBoard {
    ghost use Rattle.nms_c.specs.Held.{held};

    ghost also_owns = { λ h. held h.mark h.at h.alloc h.value };
}

impl NmsBoard {
    fn from_loose(loose: Loose<OpenBoard, Global>) -> NmsBoard
        ensures { (result.mark ≡ open_mark) × (result.value ≡ Some loose.value) }
    {
        let Loose { at, alloc } = loose;
        let at = at as *mut u8;
        NmsBoard {
            mark: OPEN,
            at,
            alloc,
        }
    }

    fn into_loose(self) -> Loose<OpenBoard, Global>
        requires { self.mark ≡ open_mark }
        ensures { Some result.value ≡ self.value }
    {
        let NmsBoard { mark: _, at, alloc } = self;
        let at = at as *mut OpenBoard;
        Loose { at, alloc }
    }

    /// A closed handle, which has no board.
    pub(crate) fn shut(alloc: Global) -> NmsBoard
        ensures { (result.mark ≡ 0) × (result.value ≡ None) }
    {
        NmsBoard {
            mark: 0,
            at: null_mut(),
            alloc,
        }
    }

    /// The number that says whether the handle is open.
    pub(crate) fn mark(&mut self) -> u64
        ensures { (result ≡ self.old.mark) × (self.new ≡ self.old) }
    {
        self.mark
    }

    pub(crate) fn of(value: Box<OpenBoard>) -> NmsBoard
        ensures open { result.mark ≡ open_mark }
        ensures value { result.value ≡ Some value.value }
    {
        NmsBoard::from_loose(Loose::of(value))
    }

    pub(crate) fn into_box(self) -> Box<OpenBoard>
        requires { self.mark ≡ open_mark }
        ensures { Some result.value ≡ self.value }
    {
        self.into_loose().into_box()
    }
}
