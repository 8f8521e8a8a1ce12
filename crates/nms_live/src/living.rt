//! The live run (specs/Living).
ghost use Rattle.std.specs.Prelude.{◌≡◌, ◌<◌, All, length, map, IfErr, IfOk};
ghost use Rattle.nms_live.specs.Crew.{IsDone, texts_of};
ghost use Rattle.nms_live.specs.Faults.{IsNoLine};
ghost use Rattle.nms_live.specs.Closed.{IsClosedRun};
ghost use Rattle.nms_live.specs.Living.{IsLive};
ghost use Rattle.nms_live.specs.Reading.{IsLiveFault};

use crate::closing::{DeskRow, close_desks};
use crate::desk_work::Desked;
use crate::ended::Ended;
use crate::gate::Gate;
use crate::gathering::{Gathered, gather};
use crate::given::{Given, Means};
use crate::keeper::Keeper;
use crate::live::Live;
use crate::live_fault::LiveFault;
use crate::own_orders::part_by_desk;
use crate::workers::run_in_threads;
use nms_feed::open_lane;
use nms_fees::Setup;
use nms_quote::{Change, DeskOrder};
use nms_versions::open_tape;
use std::alloc::Global;
use std::sync::Wait;
use std::thread::Threads;

/// Reads the setup's feeds, given in order of letter, each in its own thread, and appends their changes to one tape. The tape
/// is published from time to time. Meanwhile each desk answers its orders in its own thread, on what is published. Then each
/// desk answers them again on the complete tape.
///
/// Each answer is the best lawful plan on its version of the tape, which was published, and no desk goes back to an older
/// version. `Line` names the first refused record of a feed. After a fault all threads have ended.
pub fn run_live<R: Threads + Wait + Sync, G: Gate>(
    rt: &R,
    alloc: Global,
    setup: &Setup,
    feeds: Vec<Vec<u8>>,
    orders: Vec<DeskOrder>,
    gate: &G,
) -> Result<Live, LiveFault>
    requires feeds { length feeds.items ≡ setup.now.feeds }
    requires desks { All (λ order. order.desk < setup.now.desks) orders.items }
    ensures live { IfOk result (IsLive setup.now (map (λ text. text.items) feeds.items) orders.items) }
    ensures refused { IfErr result (IsLiveFault setup.now.roster (map (λ text. text.items) feeds.items)) }
{
    let Some(by_desk) = part_by_desk(alloc, setup.desks(), &orders) else {
        return Err(LiveFault::NoMemory);
    };
    let given = Given {
        setup,
        feeds,
        ended: Ended::none(),
        orders,
        by_desk,
    };
    let closed = match run_over(&Means { rt, alloc, gate }, &given) {
        Ok(closed) => closed,
        Err(fault) => return Err(fault),
    };
    // The feeds' texts are freed before the answers are put in the order of the orders, since that takes the most memory of a run.
    let orders = given.into_orders();
    let Closed {
        tape,
        published,
        rows,
    } = closed;
    let Gathered { answers, closing } = gather(alloc, setup, &orders, &tape, &published, rows)?;
    Ok(Live {
        tape,
        published,
        answers,
        closing,
    })
}

/// A run whose threads have ended.
#[derive(Drop)]
pub struct Closed {
    /// All changes of all feeds, in the order in which they were taken.
    pub(crate) tape: Vec<Change>,
    /// The length of the tape at each publishing, in order.
    pub(crate) published: Vec<u64>,
    /// The answers of each desk, in order of its number.
    pub(crate) rows: Vec<DeskRow>,
}

/// Makes a live run over the given texts and orders. All its threads have ended when it returns.
fn run_over<R: Threads + Wait + Sync, G: Gate>(
    means: &Means<'_, R, G>,
    given: &Given<'_>,
) -> Result<Closed, LiveFault>
    requires feeds { length given.now.feeds.items ≡ given.now.setup.now.feeds }
    ensures closed { IfOk result (IsClosedRun given.now.setup.now (texts_of given.now) given.now.orders.items) }
    ensures refused { IfErr result (IsLiveFault given.now.setup.now.roster (texts_of given.now)) }
{
    let Ok(ends) = open_lane(means.alloc, given.setup.queue(), given.setup.feeds()) else {
        return Err(LiveFault::Open);
    };
    let Ok((publisher, desks)) = open_tape(means.alloc, means.rt, given.setup) else {
        return Err(LiveFault::Open);
    };
    let mut keeper = Keeper::new(means.alloc, publisher, given.most_changes());
    match run_in_threads(means, given, &mut keeper, ends, desks) {
        Ok(desks) => close_all(means, given, keeper, desks),
        Err(fault) => {
            let _ended = keeper.end(means.rt);
            Err(fault)
        }
    }
}

/// Lets the desks make their closing answers, and returns all answers with the tape and the published lengths.
fn close_all<R: Wait, G>(
    means: &Means<'_, R, G>,
    given: &Given<'_>,
    mut keeper: Keeper,
    desks: Vec<Desked>,
) -> Result<Closed, LiveFault>
    requires limit { keeper.taped.limit ≡ given.now.setup.now.tape_limit }
    requires done { IsDone given.now keeper desks.items }
    ensures closed { IfOk result (IsClosedRun given.now.setup.now (texts_of given.now) given.now.orders.items) }
    ensures fault { IfErr result IsNoLine }
{
    match close_desks(means, given, &mut keeper, desks) {
        Ok(rows) => {
            let (tape, published) = keeper.end(means.rt);
            Ok(Closed {
                tape,
                published,
                rows,
            })
        }
        Err(fault) => {
            let _ended = keeper.end(means.rt);
            Err(fault)
        }
    }
}
