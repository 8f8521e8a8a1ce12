//! A desk's worker. It answers the desk's orders, each on what is published by then (specs/Answering).
ghost use Rattle.std.specs.Prelude.{◌≡◌, ◌≤◌, ◌++◌, ◌∷◌, List, length, IfErr, IfOk, OnErr};
ghost use Rattle.std.specs.List.{AllByRecursion};
ghost use Rattle.nms_quote.specs.Roster.{sizes_of};
ghost use Rattle.nms_quote.specs.Tape.{Tape};
ghost use Rattle.nms_versions.specs.Taped.{AllBegin, longest_of};
ghost use Rattle.nms_live.specs.Answering.{IsBestOn, IsDesked, IsFor, IsWorked, versions};
ghost use Rattle.nms_live.specs.Faults.{IsNoLine};
ghost use Rattle.nms_live.specs.Planning.{answer_to};

use crate::answers::Answers;
use crate::gate::{Gate, GatePoint, passes};
use crate::given::Means;
use crate::live_fault::LiveFault;
use crate::own_orders::OwnOrders;
use crate::planning::Planning;
use nms_fees::Setup;
use nms_quote::DeskOrder;
use nms_versions::Desk;
use std::snapshot::Snapshot;
use std::sync::Wait;
use std::thread::Promise;

/// What a desk's worker gives back: the desk, its answers, and why it stopped early, if it did.
#[derive(Drop)]
pub struct Desked {
    pub(crate) desk: Desk,
    pub(crate) answers: Answers,
    pub(crate) stop: Option<LiveFault>,
}

/// What went into a desk's worker. It exists only in proofs.
#[derive(Drop)]
pub struct DeskJob {
    pub(crate) setup: Snapshot<Setup>,
    pub(crate) mine: Snapshot<OwnOrders>,
    pub(crate) desk: Snapshot<Desk>,
}

impl Promise<Desked> for DeskJob {
    ghost use Rattle.nms_live.specs.Crew.{KeepsJob};

    ghost kept_by = { KeepsJob };
}

/// Answers the orders of the desk with this number.
pub(crate) fn work<R: Wait, G: Gate>(
    means: &Means<'_, R, G>,
    setup: &Setup,
    mine: &OwnOrders,
    number: u8,
    mut desk: Desk,
) -> Desked
    requires sizes { desk.sizes ≡ sizes_of setup.now.roster }
    ensures { IsDesked setup.now mine.now.orders.items desk result }
{
    match answer_orders(means, setup, &mine.orders, number, &mut desk) {
        Ok(answers) => Desked {
            desk,
            answers,
            stop: None,
        },
        Err(fault) => Desked {
            desk,
            answers: Answers::none(means.alloc),
            stop: Some(fault),
        },
    }
}

/// Answers the orders of the desk with this number in order, each once.
pub(crate) fn answer_orders<R: Wait, G: Gate>(
    means: &Means<'_, R, G>,
    setup: &Setup,
    orders: &[(usize, DeskOrder)],
    number: u8,
    desk: &mut Desk,
) -> Result<Answers, LiveFault>
    requires sizes { desk.old.sizes ≡ sizes_of setup.now.roster }
    ensures same { (desk.new.opening ≡ desk.old.opening) × (desk.new.sizes ≡ desk.old.sizes) }
    ensures worked { IfOk result (λ answers. IsWorked setup.now orders.now desk.new.known answers.items) }
    ensures knows { (more : List Tape) × (desk.new.known ≡ more ++ desk.old.known) }
    ensures later { IfOk result (λ answers. AllByRecursion (λ version. longest_of desk.old.known ≤ version) (versions answers.items)) }
    ensures fault { IfErr result IsNoLine }
{
    let mut answers = Answers::none(means.alloc);
    let mut planning = Planning::new(setup);
    for (place, wanted) in orders.iter().enumerate() {
        let at = GatePoint::Look {
            desk: number,
            k: place as u64,
        };
        match plan_one(means, at, desk, wanted, &mut planning) {
            Ok(()) => {}
            Err(fault) => return Err(fault),
        }
        match answers.push(wanted, &planning.planner) {
            Ok(()) => {}
            Err(_) => return Err(LiveFault::NoMemory),
        }
    }
    Ok(answers)
}

/// Lets the desk look at what is published, and plans an order on what the look shows.
fn plan_one<R: Wait, G: Gate>(
    means: &Means<'_, R, G>,
    at: GatePoint,
    desk: &mut Desk,
    wanted: &(usize, DeskOrder),
    planning: &mut Planning<'_>,
) -> Result<(), LiveFault>
    requires sizes { desk.old.sizes ≡ sizes_of planning.old.setup.now.roster }
    ensures same { (desk.new.opening ≡ desk.old.opening) × (desk.new.sizes ≡ desk.old.sizes) }
    ensures setup { planning.new.setup.now ≡ planning.old.setup.now }
    ensures order { IfOk result (λ _. IsFor wanted.now (answer_to wanted.now planning.new.planner)) }
    ensures best { IfOk result (λ _. (tape : Tape) × (desk.new.known ≡ tape ∷ desk.old.known) × AllBegin tape desk.old.known
        × (planning.new.planner.plan.version ≡ length tape) × IsBestOn planning.old.setup.now tape (answer_to wanted.now planning.new.planner)) }
    ensures unchanged { OnErr result (desk.new ≡ desk.old) }
    ensures fault { IfErr result IsNoLine }
{
    if !passes(means.rt, means.gate, at) {
        return Err(LiveFault::GateLimit);
    }
    planning.order = wanted.1.order;
    match desk.look_with(planning) {
        Ok(()) => {}
        Err(_) => return Err(LiveFault::Desk),
    }
    means.gate.done(at);
    Ok(())
}
