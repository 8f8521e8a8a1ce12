ghost use Rattle.std.specs.Prelude.{◌≡◌, Option, None, Some};
ghost use Rattle.nms_fees.specs.Settings.{Settings};
ghost use Rattle.nms_c.specs.TermsHeld.{terms_mark};

use crate::loose::Loose;
use nms_fees::Setup;
use std::alloc::Global;
use std::marker::Model;
use std::ptr::null_mut;

/// The number that marks terms as open. The mark of a board differs, so that a call can't take one for the other.
pub(crate) const TERMS_OPEN: u64 = 84;

/// The roster and the fees of a setup, which are constant from opening to closing.
#[repr(C)]
#[derive(Drop)]
pub struct NmsTerms {
    pub(crate) mark: u64,
    at: *mut u8,
    alloc: Global,
    pub(crate) ghost value: { Option Settings },
}

impl Model for NmsTerms {
    ghost use Rattle.nms_c.specs.TermsHeld.{terms_held};

    ghost also_owns = { λ h. terms_held h.mark h.at h.alloc h.value };
}

impl NmsTerms {
    fn from_loose(loose: Loose<Setup, Global>) -> NmsTerms
        ensures { (result.mark ≡ terms_mark) × (result.value ≡ Some loose.value) }
    {
        let Loose { at, alloc } = loose;
        let at = at as *mut u8;
        NmsTerms {
            mark: TERMS_OPEN,
            at,
            alloc,
        }
    }

    fn into_loose(self) -> Loose<Setup, Global>
        requires { self.mark ≡ terms_mark }
        ensures { Some result.value ≡ self.value }
    {
        let NmsTerms { mark: _, at, alloc } = self;
        let at = at as *mut Setup;
        Loose { at, alloc }
    }

    /// Closed terms, which have no setup.
    pub(crate) fn shut(alloc: Global) -> NmsTerms
        ensures { (result.mark ≡ 0) × (result.value ≡ None) }
    {
        NmsTerms {
            mark: 0,
            at: null_mut(),
            alloc,
        }
    }

    /// The number that says whether the terms are open.
    pub(crate) fn mark(&mut self) -> u64
        ensures { (result ≡ self.old.mark) × (self.new ≡ self.old) }
    {
        self.mark
    }

    pub(crate) fn of(value: Box<Setup>) -> NmsTerms
        ensures open { result.mark ≡ terms_mark }
        ensures value { result.value ≡ Some value.value }
    {
        NmsTerms::from_loose(Loose::of(value))
    }

    pub(crate) fn into_box(self) -> Box<Setup>
        requires { self.mark ≡ terms_mark }
        ensures { Some result.value ≡ self.value }
    {
        self.into_loose().into_box()
    }
}
