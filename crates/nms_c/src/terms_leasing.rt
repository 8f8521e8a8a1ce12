//! Taking a look's share of the right to read its terms for one call, and putting it back.
ghost use Rattle.std.specs.Prelude.{◌≡◌, ◌≢◌, Some, None, MatchOption};
ghost use Rattle.nms_c.specs.TermsHeld.{terms_mark};

use crate::lease::Lease;
use crate::terms::TERMS_OPEN;
use crate::terms_look::NmsTermsLook;
use core::mem::replace_with;
use nms_fees::Setup;

fn put_share(_closed: NmsTermsLook, lease: Lease<Setup>) -> (NmsTermsLook, ())
    ensures { (result.0.mark ≡ terms_mark) × (result.0.value ≡ Some lease.value) × (result.0.round ≡ lease.round) × (result.0.count ≡ lease.count) }
{
    (NmsTermsLook::from_lease(lease), ())
}

fn share_of(look: NmsTermsLook, _nothing: ()) -> (NmsTermsLook, Lease<Setup>)
    requires { look.mark ≡ terms_mark }
    ensures left { (result.0.mark ≡ 0) × (result.0.value ≡ None) }
    ensures value { (Some result.1.value ≡ look.value) × (result.1.round ≡ look.round) × (result.1.count ≡ look.count) }
{
    (NmsTermsLook::shut(), look.into_lease())
}

/// Takes the share out of a look at open terms. The look is closed until the share is back. `None` leaves a closed look as it was.
#[inline(always)]
pub(crate) fn take_share(look: &mut NmsTermsLook) -> Option<Lease<Setup>>
    ensures { MatchOption result ((look.old.mark ≢ terms_mark) × (look.new ≡ look.old))
        (λ lease. (look.old.mark ≡ terms_mark) × (Some lease.value ≡ look.old.value) × (lease.round ≡ look.old.round) × (lease.count ≡ look.old.count) × (look.new.mark ≡ 0)) }
{
    if look.mark() != TERMS_OPEN {
        return None;
    }
    Some(replace_with(look, (), share_of))
}

/// Puts the share back into the look that it came from, which opens the look.
#[inline(always)]
pub(crate) fn give_share(look: &mut NmsTermsLook, lease: Lease<Setup>)
    ensures { (look.new.mark ≡ terms_mark) × (look.new.value ≡ Some lease.value) × (look.new.round ≡ lease.round) × (look.new.count ≡ lease.count) }
{
    replace_with(look, lease, put_share);
}
