//! What a call receives in order to read terms: `specs/TermsLooked`.
ghost use Rattle.std.specs.Prelude.{◌≡◌, Option, None, Some, ℕ};
ghost use Rattle.nms_c.specs.TermsHeld.{terms_mark};
ghost use Rattle.nms_fees.specs.Settings.{Settings};

use crate::lease::Lease;
use crate::terms::TERMS_OPEN;
use nms_fees::Setup;
use std::marker::Model;
use std::ptr::null;

/// A copy of the 16 bytes of a handle of terms, for one call. If the handle is open, the copy has a share of the right to read
/// the terms.
#[repr(C)]
#[derive(Drop)]
pub struct NmsTermsLook {
    pub(crate) mark: u64,
    at: *const u8,
    pub(crate) ghost value: { Option Settings },
    pub(crate) ghost round: { ℕ },
    pub(crate) ghost count: { ℕ },
}

impl Model for NmsTermsLook {
    ghost use Rattle.nms_c.specs.TermsLooked.{terms_looked};

    ghost also_owns = { λ l. terms_looked l.mark l.at l.value l.round l.count };
}

impl NmsTermsLook {
    /// An open look, with a share of the right to read terms.
    pub(crate) fn from_lease(lease: Lease<Setup>) -> NmsTermsLook
        ensures { (result.mark ≡ terms_mark) × (result.value ≡ Some lease.value) × (result.round ≡ lease.round) × (result.count ≡ lease.count) }
    {
        let Lease { ptr } = lease;
        let at = ptr as *const u8;
        NmsTermsLook {
            mark: TERMS_OPEN,
            at,
        }
    }

    /// The share of the right to read the terms that a look at open terms has.
    pub(crate) fn into_lease(self) -> Lease<Setup>
        requires { self.mark ≡ terms_mark }
        ensures { (Some result.value ≡ self.value) × (result.round ≡ self.round) × (result.count ≡ self.count) }
    {
        let NmsTermsLook { mark: _, at } = self;
        let ptr = at as *const Setup;
        Lease { ptr }
    }

    /// A closed look, which has no terms to read.
    pub(crate) fn shut() -> NmsTermsLook
        ensures { (result.mark ≡ 0) × (result.value ≡ None) }
    {
        NmsTermsLook {
            mark: 0,
            at: null(),
        }
    }

    /// The number that says whether the look is open.
    pub(crate) fn mark(&mut self) -> u64
        ensures { (result ≡ self.old.mark) × (self.new ≡ self.old) }
    {
        self.mark
    }
}
