//! The audit of a plan on the changes on which it was made (specs/Audit).
ghost use Rattle.std.specs.Prelude.{◌≡◌, ◌<◌, ◌≤◌, All, OnOk, length, true};
ghost use Rattle.nms_quote.specs.Roster.{holds, sizes_of};
ghost use Rattle.nms_quote.specs.declared.TheConstants.{MOST_CHANGES};
ghost use Rattle.nms_file_answers.specs.Audit.{IsBest, IsFinding};

use crate::audit_fault::AuditFault;
use crate::changes_view::view_after;
use nms_cert::confirm;
use nms_fees::Setup;
use nms_quote::{Certificate, Change, Plan};
use std::alloc::Global;

/// Confirms a plan by its certificate on the version that it names, the first `version` of these changes. The plan's own order
/// and the fees of the setup are taken.
///
/// `Ok` means that the plan is lawful on that version, that no lawful plan fills more shares, and that none fills as many for
/// less. `VersionBeyondTape` comes if and only if the version has more changes than there are. Else `Doubt` says why `confirm`
/// does not confirm the plan. `NoMemory` comes only if there is no memory for a board, which is made once. Each change of the
/// version is read once. The audit takes 0 to 10,000,000 changes of the setup's roster, and the order's symbol is on that
/// roster.
pub fn audit(
    alloc: Global,
    setup: &Setup,
    changes: &[Change],
    plan: &Plan,
    certificate: &Certificate,
) -> Result<(), AuditFault>
    requires sym { plan.now.order.sym < length setup.now.roster.syms }
    requires held { All (λ change. holds (sizes_of setup.now.roster) change ≡ true) changes.now }
    requires few { length changes.now ≤ MOST_CHANGES }
    ensures found { IsFinding setup.now changes.now plan.now certificate.now.items result }
    ensures best { OnOk result (IsBest setup.now changes.now plan.now) }
{
    if plan.version > changes.len() as u64 {
        return Err(AuditFault::VersionBeyondTape);
    }
    let version = &changes[..plan.version as usize];
    let view = match view_after(alloc, setup.roster(), version, plan.order.sym) {
        Ok(view) => view,
        Err(_) => return Err(AuditFault::NoMemory),
    };
    match confirm(&view, &plan.order, setup.fees(), plan, certificate) {
        Ok(()) => Ok(()),
        Err(doubt) => Err(AuditFault::Doubt(doubt)),
    }
}
