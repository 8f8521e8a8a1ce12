//! The threads of a live run, and what they all did (specs/Crew).
ghost use Rattle.std.specs.Prelude.{◌≡◌, [], length, IfErr, IfOk};
ghost use Rattle.nms_versions.specs.Taped.{tape_of};
ghost use Rattle.nms_live.specs.Crew.{AreFreshEnds, AreReady, IsDone, texts_of};
ghost use Rattle.nms_live.specs.Keeping.{IsSameKeeping};
ghost use Rattle.nms_live.specs.Reading.{IsLiveFault};

use crate::desk_work::Desked;
use crate::desk_workers::{fault_among, join_desks, start_crew};
use crate::feed_workers::run_feeds;
use crate::first_fault::first_of;
use crate::gate::Gate;
use crate::given::{Given, Means};
use crate::keeper::Keeper;
use crate::live_fault::LiveFault;
use nms_feed::{Sender, Taker};
use nms_versions::Desk;
use std::sync::Wait;
use std::thread;
use std::thread::{Scope, Threads};

/// Runs the workers of all feeds and desks in a scope of threads, and waits for them.
pub(crate) fn run_in_threads<R: Threads + Wait + Sync, G: Gate>(
    means: &Means<'_, R, G>,
    given: &Given<'_>,
    keeper: &mut Keeper,
    ends: (Vec<Sender>, Taker),
    desks: Vec<Desk>,
) -> Result<Vec<Desked>, LiveFault>
    requires ends { AreFreshEnds (texts_of given.now) ends.1 ends.0.items }
    requires empty { tape_of keeper.old.taped ≡ [] }
    requires desks { length desks.items ≡ given.now.setup.now.desks }
    requires ready { AreReady given.now.setup.now keeper.old.taped.opening desks.items }
    ensures same { IsSameKeeping keeper.old keeper.new }
    ensures done { IfOk result (λ desks. IsDone given.now keeper.new desks.items) }
    ensures fault { IfErr result (IsLiveFault given.now.setup.now.roster (texts_of given.now)) }
{
    let (back, desks) = thread::scope(
        thread::scope_env(),
        means.rt,
        move |scope| -> (&mut Keeper, Result<Vec<Desked>, LiveFault>)
            requires ends { AreFreshEnds (texts_of given.now) ends.1 ends.0.items }
            requires empty { tape_of keeper.now.taped ≡ [] }
            requires desks { length desks.items ≡ given.now.setup.now.desks }
            requires ready { AreReady given.now.setup.now keeper.now.taped.opening desks.items }
            ensures name { result.0.ghost_name ≡ keeper.entry.ghost_name }
            ensures same { IsSameKeeping keeper.entry.now result.0.now }
            ensures done { IfOk result.1 (λ desks. IsDone given.entry.now result.0.now desks.items) }
            ensures fault { IfErr result.1 (IsLiveFault given.entry.now.setup.now.roster (texts_of given.entry.now)) }
        {
            let desks = run_workers(scope, means, given, keeper, ends, desks);
            (keeper, desks)
        },
    );
    take_back(back);
    desks
}

/// Starts all workers and waits for them. Returns the desks, unless a worker stopped early.
fn run_workers<'s, E, R: Threads + Wait + Sync, G: Gate>(
    scope: &'s Scope<'s, E>,
    means: &'s Means<'s, R, G>,
    given: &'s Given<'s>,
    keeper: &mut Keeper,
    ends: (Vec<Sender>, Taker),
    desks: Vec<Desk>,
) -> Result<Vec<Desked>, LiveFault>
    requires ends { AreFreshEnds (texts_of given.now) ends.1 ends.0.items }
    requires empty { tape_of keeper.old.taped ≡ [] }
    requires desks { length desks.items ≡ given.now.setup.now.desks }
    requires ready { AreReady given.now.setup.now keeper.old.taped.opening desks.items }
    ensures same { IsSameKeeping keeper.old keeper.new }
    ensures done { IfOk result (λ desks. IsDone given.now keeper.new desks.items) }
    ensures fault { IfErr result (IsLiveFault given.now.setup.now.roster (texts_of given.now)) }
{
    let (handles, back) = match start_crew(scope, means, given, desks) {
        Ok(crew) => crew,
        Err(fault) => return Err(fault),
    };
    let fed = run_feeds(scope, means, given, keeper, ends);
    let desks = join_desks(means.rt, handles, back);
    match fault_among(first_of(fed, keeper.stop()), desks.as_slice()) {
        None => Ok(desks),
        Some(fault) => Err(fault),
    }
}

/// Ends a loan, so that what is known about the keeper that was lent is known from here on.
fn take_back(keeper: &mut Keeper)
    ensures { keeper.new ≡ keeper.old }
{
    let _keeper = keeper;
}
