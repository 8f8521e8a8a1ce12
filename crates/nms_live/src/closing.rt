//! The closing answers. Each desk answers its orders again on the complete tape, and is settled (specs/Answering).
ghost use Rattle.std.specs.Prelude.{◌≡◌, ℕ, ◌<◌, ◌≤◌, length, slice_index_or, None, IfErr, IfOk};
ghost use Rattle.nms_versions.specs.Taped.{tape_of};
ghost use Rattle.nms_live.specs.Answering.{IsClosed};
ghost use Rattle.nms_live.specs.Crew.{AreBack, IsBack};
ghost use Rattle.nms_live.specs.Rows.{AreRows};
ghost use Rattle.nms_live.specs.declared.desk_work.Desked.{Desked};
ghost use Rattle.nms_live.specs.Faults.{IsNoLine};
ghost use Rattle.nms_live.specs.Keeping.{IsWhole};

use crate::answers::Answers;
use crate::desk_work::{Desked, answer_orders};
use crate::gate::OpenGate;
use crate::given::{Given, Means};
use crate::keeper::Keeper;
use crate::live_fault::LiveFault;
use std::sync::Wait;

/// A desk's answers.
#[derive(Drop)]
pub struct DeskRow {
    /// The answers that the desk made while the feeds were running.
    pub(crate) answers: Answers,
    /// The answers that the desk made on the complete tape.
    pub(crate) closing: Answers,
}

/// Lets each desk answer its orders again on the complete tape, and settles it.
pub(crate) fn close_desks<R: Wait, G>(
    means: &Means<'_, R, G>,
    given: &Given<'_>,
    keeper: &mut Keeper,
    desks: Vec<Desked>,
) -> Result<Vec<DeskRow>, LiveFault>
    requires whole { IsWhole keeper.old }
    requires back { AreBack given.now.setup.now given.now.orders.items keeper.old.taped.opening desks.items }
    requires ended { (k : ℕ) (d : Desked) → k < length desks.items → (slice_index_or desks.items k d).stop ≡ None }
    requires all { length desks.items ≡ given.now.setup.now.desks }
    ensures unchanged { keeper.new ≡ keeper.old }
    ensures all { IfOk result (λ rows. length rows.items ≡ length desks.items) }
    ensures rows { IfOk result (λ rows. AreRows given.now.setup.now given.now.orders.items (tape_of keeper.old.taped) keeper.old.listed rows.items) }
    ensures fault { IfErr result IsNoLine }
{
    // The prover has to see that there are few enough desks for their numbers.
    let _most = given.setup.desks();
    let mut rows = Vec::new(means.alloc);
    let mut number = 0u8;
    for desked in desks {
        let row = match close_desk(means, given, keeper, number, desked) {
            Ok(row) => row,
            Err(fault) => return Err(fault),
        };
        match rows.push(row) {
            Ok(()) => {}
            Err(_) => return Err(LiveFault::NoMemory),
        }
        number += 1;
    }
    Ok(rows)
}

/// Lets a desk answer its orders again on the complete tape, and settles it.
fn close_desk<R: Wait, G>(
    means: &Means<'_, R, G>,
    given: &Given<'_>,
    keeper: &mut Keeper,
    number: u8,
    desked: Desked,
) -> Result<DeskRow, LiveFault>
    requires whole { IsWhole keeper.old }
    requires place { number < given.now.setup.now.desks }
    requires back { IsBack given.now.setup.now given.now.orders.items keeper.old.taped.opening number desked }
    requires ended { desked.stop ≡ None }
    ensures unchanged { keeper.new ≡ keeper.old }
    ensures row { IfOk result (IsClosed given.now.setup.now number given.now.orders.items (tape_of keeper.old.taped) keeper.old.listed) }
    ensures fault { IfErr result IsNoLine }
{
    let Desked {
        mut desk,
        answers,
        stop: _,
    } = desked;
    desk.learn(keeper.receipt());
    let open = Means {
        rt: means.rt,
        alloc: means.alloc,
        gate: &OpenGate,
    };
    let closing = match answer_orders(
        &open,
        given.setup,
        &given.by_desk[usize::from(number)].orders,
        number,
        &mut desk,
    ) {
        Ok(closing) => closing,
        Err(fault) => return Err(fault),
    };
    match desk.settle(keeper.receipt()) {
        Ok(_) => Ok(DeskRow { answers, closing }),
        Err(_) => Err(LiveFault::Desk),
    }
}
