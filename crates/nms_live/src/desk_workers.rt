//! The desks' workers: how they are started, and what they returned (specs/Crew).
ghost use Rattle.std.specs.Prelude.{◌≡◌, ℕ, ◌<◌, ◌≤◌, ◌⊎◌, ◌++◌, ◌∷◌, [], length, slice_index_or, None, IfErr, IfOk, IfSome};
ghost use Rattle.std.specs.Vec.{vec_len, vec_capacity};
ghost use Rattle.std.specs.declared.thread.PromisedHandle.{PromisedHandle};
ghost use Rattle.nms_quote.specs.Roster.{sizes_of};
ghost use Rattle.nms_versions.specs.Taped.{Knowing};
ghost use Rattle.nms_live.specs.Answering.{IsDesked, numbered, own};
ghost use Rattle.nms_live.specs.Crew.{AreStarted, KeepsJob, WillBeDesked};
ghost use Rattle.nms_live.specs.Faults.{IsNoLine, IsNoLineIfAny, first_among};
ghost use Rattle.nms_live.specs.declared.desk_work.DeskJob.{DeskJob};
ghost use Rattle.nms_live.specs.declared.desk_work.Desked.{Desked};

use crate::desk_work::{DeskJob, Desked, work};
use crate::first_fault::first_of;
use crate::gate::Gate;
use crate::given::{Given, Means};
use crate::live_fault::LiveFault;
use nms_versions::Desk;
use std::snapshot::Snapshot;
use std::sync::Wait;
use std::thread::{PromisedHandle, Scope, Threads};

/// Makes room for what the desks' workers return, and starts them.
pub(crate) fn start_crew<'s, E, R: Threads + Wait + Sync, G: Gate>(
    scope: &'s Scope<'s, E>,
    means: &'s Means<'s, R, G>,
    given: &'s Given<'s>,
    desks: Vec<Desk>,
) -> Result<(Vec<PromisedHandle<Desked, DeskJob>>, Vec<Desked>), LiveFault>
    requires all { length desks.items ≡ given.now.setup.now.desks }
    requires sizes { (k : ℕ) (d : Knowing) → k < length desks.items → (slice_index_or desks.items k d).sizes ≡ sizes_of given.now.setup.now.roster }
    ensures all { IfOk result (λ crew. length crew.0.items ≡ length desks.items) }
    ensures started { IfOk result (λ crew. AreStarted given.now.setup.now given.now.orders.items desks.items crew.0.items) }
    ensures empty { IfOk result (λ crew. crew.1.items ≡ []) }
    ensures room { IfOk result (λ crew. vec_len crew.0 ≤ vec_capacity crew.1) }
    ensures fault { IfErr result IsNoLine }
{
    let mut back = Vec::new(means.alloc);
    if back.reserve(desks.len()).is_err() {
        return Err(LiveFault::NoMemory);
    }
    match start_desks(scope, means, given, desks) {
        Ok(handles) => Ok((handles, back)),
        Err(fault) => Err(fault),
    }
}

/// Starts a worker for each desk, in order of number. If one can't be started, those before it are waited for.
fn start_desks<'s, E, R: Threads + Wait + Sync, G: Gate>(
    scope: &'s Scope<'s, E>,
    means: &'s Means<'s, R, G>,
    given: &'s Given<'s>,
    desks: Vec<Desk>,
) -> Result<Vec<PromisedHandle<Desked, DeskJob>>, LiveFault>
    requires all { length desks.items ≡ given.now.setup.now.desks }
    requires sizes { (k : ℕ) (d : Knowing) → k < length desks.items → (slice_index_or desks.items k d).sizes ≡ sizes_of given.now.setup.now.roster }
    ensures all { IfOk result (λ handles. length handles.items ≡ length desks.items) }
    ensures started { IfOk result (λ handles. AreStarted given.now.setup.now given.now.orders.items desks.items handles.items) }
    ensures fault { IfErr result IsNoLine }
{
    // The prover has to see that there are few enough desks for their numbers.
    let _most = given.setup.desks();
    let mut handles = Vec::new(means.alloc);
    // There is room first, because a worker that was started must be waited for.
    if handles.reserve(desks.len()).is_err() {
        return Err(LiveFault::NoMemory);
    }
    let mut number = 0u8;
    for desk in desks {
        match start_desk(scope, means, given, number, desk) {
            Some(handle) => {
                let Ok(()) = handles.push(handle) else {
                    unreachable!()
                };
            }
            None => {
                join_started(means.rt, handles);
                return Err(LiveFault::Open);
            }
        }
        number += 1;
    }
    Ok(handles)
}

/// Starts the worker of a desk, if it can be started.
fn start_desk<'s, E, R: Wait + Sync, G: Gate>(
    scope: &'s Scope<'s, E>,
    means: &'s Means<'s, R, G>,
    given: &'s Given<'s>,
    number: u8,
    desk: Desk,
) -> Option<PromisedHandle<Desked, DeskJob>>
    requires place { number < given.now.setup.now.desks }
    requires sizes { desk.sizes ≡ sizes_of given.now.setup.now.roster }
    ensures started { IfSome result (WillBeDesked given.now.setup.now (own number (numbered given.now.orders.items)) desk) }
{
    let (rt, alloc, gate) = (means.rt, means.alloc, means.gate);
    let (setup, mine) = (given.setup, &given.by_desk[usize::from(number)]);
    let job = DeskJob {
        setup: Snapshot::of(setup),
        mine: Snapshot::of(mine),
        desk: Snapshot::of(&desk),
    };
    let Ok(handle) = scope.spawn_with(
        job,
        move || -> Desked
            requires { desk.sizes ≡ sizes_of setup.now.roster }
            ensures { IsDesked setup.entry.now mine.entry.now.orders.items desk result }
        { work(&Means { rt, alloc, gate }, setup, mine, number, desk) },
    ) else {
        return None;
    };
    Some(handle)
}

/// Waits for the desks' workers that were started, if not all could be. Their results are dropped here, because a handle that
/// is dropped would keep them for ever.
fn join_started<R: Threads>(rt: &R, handles: Vec<PromisedHandle<Desked, DeskJob>>) {
    for handle in handles {
        let _worked = handle.join(rt);
    }
}

/// Waits for the desks' workers. There is room for their results, so none of their faults is lost.
pub(crate) fn join_desks<R: Threads>(
    rt: &R,
    handles: Vec<PromisedHandle<Desked, DeskJob>>,
    mut back: Vec<Desked>,
) -> Vec<Desked>
    requires empty { back.items ≡ [] }
    requires room { vec_len handles ≤ vec_capacity back }
    ensures all { length result.items ≡ length handles.items }
    ensures kept { (k : ℕ) (d : Desked) (h : PromisedHandle Desked DeskJob) → k < length result.items
        → KeepsJob (slice_index_or handles.items k h).promise (slice_index_or result.items k d) }
{
    for handle in handles {
        let Ok(()) = back.push(handle.join(rt)) else {
            unreachable!()
        };
    }
    back
}

/// The fault with which the run answers, from the faults of the desks' workers and one more.
pub(crate) fn fault_among(fault: Option<LiveFault>, desks: &[Desked]) -> Option<LiveFault>
    requires no_line { (k : ℕ) (d : Desked) → k < length desks.now → IsNoLineIfAny (slice_index_or desks.now k d).stop }
    ensures first { result ≡ first_among (λ d. d.stop) fault desks.now }
    ensures none { result ≡ None → (fault ≡ None) × ((k : ℕ) (d : Desked) → k < length desks.now → (slice_index_or desks.now k d).stop ≡ None) }
    ensures some { (result ≡ fault) ⊎ IsNoLineIfAny result }
{
    let mut first = fault;
    for desk in desks {
        first = first_of(first, desk.stop);
    }
    first
}
