//! Which fault a run answers with if there are several (specs/Faults).
ghost use Rattle.std.specs.Prelude.{◌≡◌, ◌⊎◌, None};
ghost use Rattle.nms_live.specs.Faults.{first_fault};

use crate::live_fault::LiveFault;

/// Returns the fault that has the lower rank, or the first one if the ranks are equal. If only one is a fault, that one is
/// returned.
pub(crate) fn first_of(one: Option<LiveFault>, other: Option<LiveFault>) -> Option<LiveFault>
    ensures first { result ≡ first_fault one other }
    ensures either { (result ≡ one) ⊎ (result ≡ other) }
    ensures none { result ≡ None → (one ≡ None) × (other ≡ None) }
{
    let Some(first) = one else {
        return other;
    };
    let Some(second) = other else {
        return one;
    };
    if second.rank() < first.rank() {
        other
    } else {
        one
    }
}
