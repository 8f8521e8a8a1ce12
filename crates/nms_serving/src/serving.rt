//! The threads of a run: one for each feed and each client, and the caller's thread, which takes the feeds' changes.
ghost use Rattle.std.specs.Prelude.{◌≡◌, ◌<◌, ◌≤◌, ℕ, [], length, slice_index_or, IfErr};
ghost use Rattle.std.specs.List.{AllByRecursion};
ghost use Rattle.nms_quote.specs.Roster.{sizes_of};
ghost use Rattle.nms_serving.specs.declared.TheConstants.{MOST_EPOCHS};
ghost use Rattle.nms_versions.specs.Taped.{Knowing, tape_of};

use crate::beside::Beside;
use crate::client::{Client, ClientEnd, ClientStreams, serve_client};
use crate::door::Door;
use crate::epochs::{EpochFiles, Epochs, NextEpoch, hand_over};
use crate::feeding::{FeedEnd, feed_all};
use crate::handover::{House, HouseDesk, Sizing, Slot, SlotOf};
use crate::keeper::Keeper;
use crate::run::Run;
use crate::serve_fault::ServeFault;
use crate::taking::{Doors, take_all};
use crate::text::Text;
use crate::watching::watch;
use nms_answers::LaterDesks;
use nms_board::Boards;
use nms_feed::{Sender, Taker, open_lane};
use nms_versions::{Desk, open_tape};
use std::alloc::{AllocError, Global};
use std::io::Write;
use std::marker::Brand;
use std::sync::Wait;
use std::thread;
use std::thread::{JoinHandle, Scope, Threads};

/// The means that every thread of a run uses.
#[derive(Drop)]
pub struct Means<'a, R> {
    pub rt: &'a R,
    pub host: &'a HostRuntime,
    pub alloc: Global,
    pub run: &'a Run<'a>,
}

/// The ends of a board that was opened, by which its threads send, take and look.
#[derive(Drop)]
pub(crate) struct Ends {
    /// A sender for each feed, in order.
    senders: Vec<Sender>,
    /// The end of the feeds' lane from which changes are taken.
    taker: Taker,
    /// At least one desk for each client.
    desks: Vec<Desk>,
}

/// The epoch with which a run begins.
struct FirstEpoch<'a, X: Write, Y: Write> {
    keeper: Keeper<'a, X, Y>,
    /// The number of the epoch.
    epoch: u64,
    /// At least one desk for each client, if the clients go over to this epoch. If the list is empty, the clients begin on this
    /// epoch.
    desks: Vec<Desk>,
}

/// What an earlier run has left, with which a new run goes on.
#[derive(Drop)]
pub struct GoingOn<'a> {
    /// The board of all that was published.
    pub board: &'a Boards,
    /// The epoch in which the run goes on: 1 or more.
    pub epoch: u64,
    /// The beginning of the line that reports what was left. The number of opening changes is added to it.
    pub report: Text,
}

/// The results of a run's threads.
#[derive(Drop)]
pub struct Served {
    /// The feeds, in order.
    pub feeds: Vec<FeedEnd>,
    /// The clients, in order.
    pub clients: Vec<ClientEnd>,
    /// How many changes of feeds were taken.
    pub changes: u64,
    /// How often changes were published.
    pub publishings: u64,
    /// The number of the last epoch; that of the first one is 0.
    pub epochs: u64,
}

/// Opens a board, and serves feeds and clients, each in its own thread. This goes on until all of them have ended or a fault
/// ends the run (`Run::fault`). Meanwhile what the feeds send is taken, written to the tape's file and published. If the tape
/// has as many changes as it may, a new epoch goes on in its own files. All threads have ended when it returns.
///
/// There is a door for each feed of the setup, in order; clients beyond the desks of the setup are not served. `tape` and
/// `lengths` are the files of the first epoch, `files` opens those of later ones. `NotBegun` if no board was opened. It returns
/// no other fault: those of a run that began are `Run::fault`.
pub fn serve<
    R: Threads + Wait + Sync,
    X: Write + Drop,
    Y: Write + Drop,
    F: EpochFiles<X, Y>,
    O: Beside + Sync,
>(
    means: &Means<'_, R>,
    doors: &Doors<'_, O>,
    tape: X,
    lengths: Y,
    files: &F,
) -> Result<Served, ServeFault>
    ensures begun { IfErr result (λ fault. fault ≡ ServeFault.NotBegun) }
{
    let setup = means.run.setup;
    let Ok((senders, taker)) = open_lane(means.alloc, setup.queue(), setup.feeds()) else {
        return Err(ServeFault::NotBegun);
    };
    let Ok(board) = Boards::new(means.alloc, setup.roster()) else {
        return Err(ServeFault::NotBegun);
    };
    let _limit = setup.tape_limit();
    let Ok((publisher, desks)) = open_tape(means.alloc, means.rt, setup) else {
        return Err(ServeFault::NotBegun);
    };
    let keeper = Keeper::new(means.alloc, setup.roster(), publisher, board, tape, lengths);
    let ends = Ends {
        senders,
        taker,
        desks,
    };
    let first = FirstEpoch {
        keeper,
        epoch: 0,
        desks: Vec::new(means.alloc),
    };
    serve_board::<Brand, R, X, Y, F, O>(means, doors, files, first, ends)
}

/// Serves feeds and clients from the board that an earlier run has left (`left_board`), until all have ended or a fault ends
/// the run. `files` opens the epoch's files. They begin with the opening changes of the board, written and published
/// (`Keeper::begin`), which is reported. Each client goes over to the epoch at its first request, as from an earlier one.
///
/// `NotBegun` if no board was opened; or the fault of the epoch's files, or of writing its opening changes.
pub fn resume<
    R: Threads + Wait + Sync,
    X: Write + Drop,
    Y: Write + Drop,
    F: EpochFiles<X, Y>,
    O: Beside + Sync,
>(
    means: &Means<'_, R>,
    doors: &Doors<'_, O>,
    left: GoingOn<'_>,
    files: &F,
) -> Result<Served, ServeFault>
    requires sizes { left.board.now.sizes ≡ sizes_of means.now.run.now.setup.now.roster }
    requires within { left.epoch ≤ MOST_EPOCHS }
{
    let setup = means.run.setup;
    let GoingOn {
        board,
        epoch,
        report,
    } = left;
    let Ok((senders, taker)) = open_lane(means.alloc, setup.queue(), setup.feeds()) else {
        return Err(ServeFault::NotBegun);
    };
    let _limit = setup.tape_limit();
    // The clients are on the desks of this epoch, which show nothing, until they go over.
    let Ok((ended, before)) = open_tape(means.alloc, means.rt, setup) else {
        return Err(ServeFault::NotBegun);
    };
    let _none = ended.close(means.rt);
    let Ok((publisher, desks)) = open_tape(means.alloc, means.rt, setup) else {
        return Err(ServeFault::NotBegun);
    };
    let Ok(empty) = Boards::new(means.alloc, setup.roster()) else {
        let _none = publisher.close(means.rt);
        return Err(ServeFault::NotBegun);
    };
    let (tape, lengths) = match files.open(epoch) {
        Ok(files) => files,
        Err(fault) => {
            let _none = publisher.close(means.rt);
            return Err(fault);
        }
    };
    let mut keeper = Keeper::new(means.alloc, setup.roster(), publisher, empty, tape, lengths);
    match keeper.begin(means.alloc, means.rt, board) {
        Ok(()) => {}
        Err(fault) => {
            keeper.end(means.rt);
            return Err(fault);
        }
    }
    let report = report.with(keeper.changes()).with(" opening changes");
    means.run.teller.keep(means.rt, report);
    let ends = Ends {
        senders,
        taker,
        desks: before,
    };
    let first = FirstEpoch {
        keeper,
        epoch,
        desks,
    };
    serve_board::<Brand, R, X, Y, F, O>(means, doors, files, first, ends)
}

/// Serves feeds and clients on a board that was just opened, from an epoch on. Its body is only one call, since the prover's
/// search for what may go from thread to thread reads all that is around a call.
fn serve_board<
    B: Sizing + Send + Sync,
    R: Threads + Wait + Sync,
    X: Write + Drop,
    Y: Write + Drop,
    F: EpochFiles<X, Y>,
    O: Beside + Sync,
>(
    means: &Means<'_, R>,
    doors: &Doors<'_, O>,
    files: &F,
    first: FirstEpoch<'_, X, Y>,
    ends: Ends,
) -> Result<Served, ServeFault>
    requires house { B.sizes ≡ sizes_of means.now.run.now.setup.now.roster }
    requires keeper { first.keeper.publisher.sizes ≡ B.sizes }
    requires within { first.epoch ≤ MOST_EPOCHS }
    requires opening { (k : ℕ) (d : Knowing) → k < length first.desks.items → (slice_index_or first.desks.items k d).opening ≡ first.keeper.publisher.opening }
    requires laid { (k : ℕ) (d : Knowing) → k < length first.desks.items → (slice_index_or first.desks.items k d).sizes ≡ B.sizes }
    requires fresh { AllByRecursion (λ sender. sender.sent ≡ []) ends.senders.items }
    requires sizes { (k : ℕ) (d : Knowing) → k < length ends.desks.items → (slice_index_or ends.desks.items k d).sizes ≡ sizes_of means.now.run.now.setup.now.roster }
    ensures begun { IfErr result (λ fault. fault ≡ ServeFault.NotBegun) }
{
    serve_on::<HouseDesk<B>, R, X, Y, F, O>(means, doors, files, first, ends)
}

/// Serves feeds and clients on a board that was just opened, from an epoch on. Desks may have any type that belongs to the
/// run's roster.
fn serve_on<
    H: House + Send,
    R: Threads + Wait + Sync,
    X: Write + Drop,
    Y: Write + Drop,
    F: EpochFiles<X, Y>,
    O: Beside + Sync,
>(
    means: &Means<'_, R>,
    doors: &Doors<'_, O>,
    files: &F,
    first: FirstEpoch<'_, X, Y>,
    ends: Ends,
) -> Result<Served, ServeFault>
    requires house { H.sizes ≡ sizes_of means.now.run.now.setup.now.roster }
    requires keeper { first.keeper.publisher.sizes ≡ H.sizes }
    requires within { first.epoch ≤ MOST_EPOCHS }
    requires opening { (k : ℕ) (d : Knowing) → k < length first.desks.items → (slice_index_or first.desks.items k d).opening ≡ first.keeper.publisher.opening }
    requires laid { (k : ℕ) (d : Knowing) → k < length first.desks.items → (slice_index_or first.desks.items k d).sizes ≡ H.sizes }
    requires fresh { AllByRecursion (λ sender. sender.sent ≡ []) ends.senders.items }
    requires sizes { (k : ℕ) (d : Knowing) → k < length ends.desks.items → (slice_index_or ends.desks.items k d).sizes ≡ sizes_of means.now.run.now.setup.now.roster }
    ensures begun { IfErr result (λ fault. fault ≡ ServeFault.NotBegun) }
{
    let FirstEpoch {
        mut keeper,
        epoch,
        desks,
    } = first;
    let slots: Vec<Slot<H>> = match slots_of(means.alloc, doors.clients.len()) {
        Ok(slots) => slots,
        Err(_) => {
            keeper.end(means.rt);
            return Err(ServeFault::NotBegun);
        }
    };
    let next = NextEpoch {
        files,
        slots: &slots,
    };
    hand_over(means.rt, &slots, epoch, &mut keeper, desks);
    means.run.progress.note(epoch, keeper.changes(), 0);
    let mut epochs = Epochs::new(keeper, epoch);
    let served = serve_epochs(means, doors, &next, &mut epochs, ends);
    epochs.end(means.rt);
    Ok(served)
}

/// An empty slot for each client.
fn slots_of<H: House>(alloc: Global, clients: usize) -> Result<Vec<Slot<H>>, AllocError> {
    let mut slots = Vec::new(alloc);
    for _ in 0..clients {
        slots.push(Slot::new())?;
    }
    Ok(slots)
}

/// Serves feeds and clients, epoch after epoch.
fn serve_epochs<
    H: House + Send,
    R: Threads + Wait + Sync,
    X: Write + Drop,
    Y: Write + Drop,
    F: EpochFiles<X, Y>,
    O: Beside + Sync,
>(
    means: &Means<'_, R>,
    doors: &Doors<'_, O>,
    next: &NextEpoch<'_, F, H>,
    epochs: &mut Epochs<'_, H, X, Y>,
    ends: Ends,
) -> Served
    requires house { H.sizes ≡ sizes_of means.now.run.now.setup.now.roster }
    requires fresh { AllByRecursion (λ sender. sender.sent ≡ []) ends.senders.items }
    requires sizes { (k : ℕ) (d : Knowing) → k < length ends.desks.items → (slice_index_or ends.desks.items k d).sizes ≡ sizes_of means.now.run.now.setup.now.roster }
{
    let (_epochs, served) = thread::scope(
        thread::scope_env(),
        means.rt,
        move |scope| -> (&mut Epochs<'_, H, X, Y>, Served)
            requires house { H.sizes ≡ sizes_of means.now.run.now.setup.now.roster }
            requires fresh { AllByRecursion (λ sender. sender.sent ≡ []) ends.senders.items }
            requires sizes { (k : ℕ) (d : Knowing) → k < length ends.desks.items → (slice_index_or ends.desks.items k d).sizes ≡ sizes_of means.now.run.now.setup.now.roster }
        {
            let served = run_threads(scope, means, doors, next, epochs, ends);
            (epochs, served)
        },
    );
    served
}

/// Starts a thread for each feed and each client, takes what the feeds send until all have ended, and collects their results.
fn run_threads<
    's,
    E,
    H: House + Send,
    R: Threads + Wait + Sync,
    X: Write + Drop,
    Y: Write + Drop,
    F: EpochFiles<X, Y>,
    O: Beside + Sync,
>(
    scope: &'s Scope<'s, E>,
    means: &'s Means<'s, R>,
    doors: &'s Doors<'s, O>,
    next: &'s NextEpoch<'s, F, H>,
    epochs: &mut Epochs<'_, H, X, Y>,
    ends: Ends,
) -> Served
    requires house { H.sizes ≡ sizes_of means.now.run.now.setup.now.roster }
    requires fresh { AllByRecursion (λ sender. sender.sent ≡ []) ends.senders.items }
    requires sizes { (k : ℕ) (d : Knowing) → k < length ends.desks.items → (slice_index_or ends.desks.items k d).sizes ≡ sizes_of means.now.run.now.setup.now.roster }
{
    let Ends {
        senders,
        mut taker,
        desks,
    } = ends;
    let mut feeds = Vec::new(means.alloc);
    let mut clients = Vec::new(means.alloc);
    // All clients have begun before the first feed checks whether they have ended.
    start_clients(scope, means, doors, next.slots, desks, &mut clients);
    start_feeds(scope, means, doors.feeds, senders, &mut feeds);
    start_watch(scope, means, doors, next.slots);
    if !means.run.is_stopped() {
        means.run.teller.keep(means.rt, Text::of("serving"));
    }
    take_all(means, doors, next, epochs, &mut taker);
    means.run.finish();
    Served {
        feeds: join_all(means, feeds),
        clients: join_all(means, clients),
        changes: epochs.changes(),
        publishings: epochs.publishings(),
        epochs: epochs.number(),
    }
}

/// Starts a thread for each sender's feed.
fn start_feeds<'s, E, R: Wait + Sync>(
    scope: &'s Scope<'s, E>,
    means: &'s Means<'s, R>,
    doors: &'s [Door<'s>],
    senders: Vec<Sender>,
    handles: &mut Vec<JoinHandle<FeedEnd>>,
)
    requires fresh { AllByRecursion (λ sender. sender.sent ≡ []) senders.items }
{
    for sender in senders {
        let Some(door) = doors.get(usize::from(sender.feed().place())) else {
            means.run.fail(ServeFault::NotBegun);
            continue;
        };
        start_feed(scope, means, door, sender, handles);
    }
}

/// Starts the thread of a sender's feed.
fn start_feed<'s, E, R: Wait + Sync>(
    scope: &'s Scope<'s, E>,
    means: &'s Means<'s, R>,
    door: &'s Door<'s>,
    sender: Sender,
    handles: &mut Vec<JoinHandle<FeedEnd>>,
)
    requires fresh { sender.sent ≡ [] }
{
    let run = means.run;
    run.begin_feed();
    let started = scope.spawn(
        move || -> FeedEnd
            requires fresh { sender.sent ≡ [] }
        { feed_all(means, door, sender) },
    );
    keep(run, started.ok(), handles);
}

/// Starts a thread for each client.
fn start_clients<'s, E, H: House + Send, R: Threads + Wait + Sync, O: Beside + Sync>(
    scope: &'s Scope<'s, E>,
    means: &'s Means<'s, R>,
    doors: &'s Doors<'s, O>,
    slots: &'s [Slot<H>],
    desks: Vec<Desk>,
    handles: &mut Vec<JoinHandle<ClientEnd>>,
)
    requires house { H.sizes ≡ sizes_of means.now.run.now.setup.now.roster }
    requires sizes { (k : ℕ) (d : Knowing) → k < length desks.items → (slice_index_or desks.items k d).sizes ≡ sizes_of means.now.run.now.setup.now.roster }
{
    let own = doors.beside;
    let recording = own.recording();
    let mut number = 0u8;
    for desk in desks {
        let place = usize::from(number);
        let (Some(streams), Some(slot)) = (doors.clients.get(place), slots.get(place)) else {
            return;
        };
        let Some(next) = number.checked_add(1) else {
            means.run.fail(ServeFault::NotBegun);
            return;
        };
        number = next;
        let client = Client {
            number,
            streams,
            later: SlotOf {
                means,
                slot,
                number,
                recording,
            },
            tally: &slot.tally,
        };
        start_client(scope, means, client, desk, handles);
    }
}

/// Starts the thread of a client.
fn start_client<'s, E, L: LaterDesks + Send + Drop + 's, R: Threads + Wait + Sync>(
    scope: &'s Scope<'s, E>,
    means: &'s Means<'s, R>,
    client: Client<'s, L>,
    desk: Desk,
    handles: &mut Vec<JoinHandle<ClientEnd>>,
)
    requires house { L.sizes ≡ sizes_of means.now.run.now.setup.now.roster }
    requires sizes { desk.sizes ≡ sizes_of means.now.run.now.setup.now.roster }
{
    let run = means.run;
    run.begin_client();
    let started = scope.spawn(
        move || -> ClientEnd
            requires house { L.sizes ≡ sizes_of means.now.run.now.setup.now.roster }
            requires sizes { desk.sizes ≡ sizes_of means.now.run.now.setup.now.roster }
        { serve_client(means, &client, desk) },
    );
    keep(run, started.ok(), handles);
}

/// Starts the thread that watches the run, if there is something to watch for. The scope waits for its end.
fn start_watch<'s, E, H: House + Send, R: Wait + Sync, O: Beside + Sync>(
    scope: &'s Scope<'s, E>,
    means: &'s Means<'s, R>,
    doors: &'s Doors<'s, O>,
    slots: &'s [Slot<H>],
) {
    let own = doors.beside;
    let (signs, disk) = (own.signs(), own.disk());
    let is_idle = means.run.ways.stale.is_none() && disk.is_none() && signs.status.is_none();
    if is_idle && signs.ready.is_none() {
        return;
    }
    if scope
        .spawn(move || watch(means, signs, disk, slots))
        .is_err()
    {
        means.run.fail_to_start();
    }
}

/// Keeps the handle of a thread that was started. If it was not started, or there is no memory for its handle, the run ends.
fn keep<T: Drop>(run: &Run<'_>, started: Option<JoinHandle<T>>, handles: &mut Vec<JoinHandle<T>>) {
    match started {
        Some(handle) => if handles.push(handle).is_err() {
            run.fail(ServeFault::NoMemory);
        },
        None => {
            run.end_stream();
            run.fail_to_start();
        }
    }
}

/// The results of the threads, in order. A result for which there is no memory is left out.
fn join_all<R: Threads, T: Drop>(means: &Means<'_, R>, handles: Vec<JoinHandle<T>>) -> Vec<T> {
    let mut ends = Vec::new(means.alloc);
    for handle in handles {
        let _kept = ends.push(handle.join(means.rt));
    }
    ends
}
