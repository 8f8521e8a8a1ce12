//! Judging plans on the versions that they name, by one board that moves forward: `specs/Verdicts`.
ghost use Rattle.std.specs.Prelude.{◌≡◌, false};
ghost use Rattle.nms_verdicts.specs.Listed.{is_beyond};
ghost use Rattle.nms_verdicts.specs.Verdicts.{IsVerdict, IsVerdictOn};

use crate::plan_places::doubt_place;
use crate::verdict::Verdict;
use nms_board::View;
use nms_cert::confirm;
use nms_fees::FeeBook;
use nms_quote::{Certificate, Plan};
use nms_stream::Replay;

/// Judges a plan on the version that it names, after the board has moved to that version. The verdict includes the place of a
/// doubt.
pub(crate) fn judge(replay: &mut Replay<'_>, plan: &Plan, certificate: &Certificate) -> Verdict
    ensures tape { replay.new.tape ≡ replay.old.tape }
    ensures moved { is_beyond result ≡ false → replay.new.board.applied ≡ plan.now.version }
    ensures judged { IsVerdict replay.old.tape.now.setup.now replay.old.tape.now.changes.items plan.now certificate.now.items result }
{
    let changes = replay.tape.changes.len() as u64;
    if plan.version > changes {
        return Verdict::Beyond { changes };
    }
    replay.move_to(plan.version);
    let view = replay.view(plan.order.sym);
    judge_on(replay.tape.setup.fees(), &view, plan, certificate)
}

/// Judges a plan on the quotations of one version, and finds the place of a doubt.
fn judge_on(fees: &FeeBook, view: &View, plan: &Plan, certificate: &Certificate) -> Verdict
    ensures { IsVerdictOn view.now fees.now plan.now certificate.now.items result }
{
    match confirm(view, &plan.order, fees, plan, certificate) {
        Ok(()) => Verdict::Confirmed,
        Err(doubt) => {
            // The doubt is copied before it is passed on, because the borrow checker treats a passed value as moved.
            let told = doubt;
            let place = doubt_place(view, &plan.order, plan, fees, certificate, doubt);
            Verdict::Doubted { doubt: told, place }
        }
    }
}
