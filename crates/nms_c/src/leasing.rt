//! Taking a look's share of the right to read its board for one call, and putting it back.
ghost use Rattle.std.specs.Prelude.{◌≡◌, ◌≢◌, Some, None, MatchOption};
ghost use Rattle.nms_c.specs.Held.{open_mark};

use crate::handle::OPEN;
use crate::lease::Lease;
use crate::look::NmsLook;
use core::mem::replace_with;
use nms_calls::OpenBoard;

fn put_share(_closed: NmsLook, lease: Lease<OpenBoard>) -> (NmsLook, ())
    ensures { (result.0.mark ≡ open_mark) × (result.0.value ≡ Some lease.value) × (result.0.round ≡ lease.round) × (result.0.count ≡ lease.count) }
{
    (NmsLook::from_lease(lease), ())
}

fn share_of(look: NmsLook, _nothing: ()) -> (NmsLook, Lease<OpenBoard>)
    requires { look.mark ≡ open_mark }
    ensures left { (result.0.mark ≡ 0) × (result.0.value ≡ None) }
    ensures value { (Some result.1.value ≡ look.value) × (result.1.round ≡ look.round) × (result.1.count ≡ look.count) }
{
    (NmsLook::shut(), look.into_lease())
}

/// Takes the share out of a look at an open board. The look is closed until the share is back. `None` leaves a closed look as
/// it was.
#[inline(always)]
pub(crate) fn take_share(look: &mut NmsLook) -> Option<Lease<OpenBoard>>
    ensures { MatchOption result ((look.old.mark ≢ open_mark) × (look.new ≡ look.old))
        (λ lease. (look.old.mark ≡ open_mark) × (Some lease.value ≡ look.old.value) × (lease.round ≡ look.old.round) × (lease.count ≡ look.old.count) × (look.new.mark ≡ 0)) }
{
    if look.mark() != OPEN {
        return None;
    }
    Some(replace_with(look, (), share_of))
}

/// Puts the share back into the look that it came from, which opens the look.
#[inline(always)]
pub(crate) fn give_share(look: &mut NmsLook, lease: Lease<OpenBoard>)
    ensures { (look.new.mark ≡ open_mark) × (look.new.value ≡ Some lease.value) × (look.new.round ≡ lease.round) × (look.new.count ≡ lease.count) }
{
    replace_with(look, lease, put_share);
}
