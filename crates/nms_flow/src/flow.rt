//! The machine (specs/Flow): a published board, the changes sent since, and how many of these were taken.
ghost use Rattle.std.specs.Prelude.{◌≡◌, ◌≢◌, ℕ, ◌+◌, ◌-◌, ◌<◌, ◌≤◌, ◌++◌, ◌∷◌, List, [], All, length, take, drop, nat_lt, slice_get, true, IfOk, IfErr, OnOk, OnErr, Ok, Err};
ghost use Rattle.std.specs.VecDeque.{deque_len, deque_capacity};
ghost use Rattle.nms_quote.specs.Roster.{holds};
ghost use Rattle.nms_quote.specs.Tape.{Tape};
ghost use Rattle.nms_quote.specs.declared.side_quote.Side.{Side};
ghost use Rattle.nms_quote.specs.declared.side_quote.Side.TheVariants.{Bid, Offer};
ghost use Rattle.nms_board.specs.Cells.{StandsFor};
ghost use Rattle.nms_board.specs.Shown.{seen_on};
ghost use Rattle.nms_board.specs.View.{rows_on};
ghost use Rattle.nms_nbbo.specs.Best.{IsBestOf};
ghost use Rattle.nms_flow.specs.Run.{Event, changes_in, replied};
ghost use Rattle.nms_flow.specs.Shape.{HasShape, holds_step};
ghost use Rattle.nms_flow.specs.declared.step.Step.TheVariants as step;
ghost use Rattle.nms_flow.specs.declared.reply.Reply.TheVariants as reply;

use crate::best_rows::BestRows;
use crate::flow_fault::FlowFault;
use crate::reply::Reply;
use crate::step::Step;
use crate::step_fault::StepFault;
use nms_board::{Boards, View};
use nms_fees::Setup;
use nms_nbbo::best_on;
use nms_quote::{Change, Feed, MOST_CHANGES, Marked, Side, SideQuote, Sym};
use nms_units::Lot;
use std::alloc::{AllocError, Global};
use std::collections::VecDeque;
use std::marker::Model;

/// The machine that consolidates, in one thread. This product's own rule.
///
/// The room for the board's rows and for the queue is made with the machine. Later only a taking can be out of memory.
#[derive(Drop)]
pub struct Flow {
    /// The published version.
    board: Boards,
    /// The changes sent since the last publishing, each with its feed. First come those taken to the tape, then the queue.
    changes: VecDeque<Marked>,
    /// How many of these changes were taken to the tape.
    pending: usize,
    most_queued: usize,
    most_taken: u64,
}

impl Model for Flow {
    ghost use Rattle.std.specs.VecDeque.{deque_capacity};
    ghost use Rattle.nms_flow.specs.Flow.{State, IsSound};

    ghost Value = { State };

    ghost view = { λ f. record { board = f.board; changes = f.changes.items; pending = f.pending; most_queued = f.most_queued; most_taken = f.most_taken } };

    ghost invariant = { λ f. IsSound (record { board = f.board; changes = f.changes.items; pending = f.pending; most_queued = f.most_queued; most_taken = f.most_taken }) (deque_capacity f.changes) };
}

impl Flow {
    ghost use Rattle.nms_flow.specs.Flow.{IsAfter, StandsAt, WentOn, room_of, room_under, start};
    ghost use Rattle.nms_flow.specs.Run.{Standing, after};
    ghost use Rattle.nms_flow.specs.Takes.{TakesUntil};

    /// A machine to which nothing was sent, with the room that the setup gives. After `NoMemory` nothing is kept.
    pub fn new(alloc: Global, setup: &Setup) -> Result<Self, FlowFault>
        ensures starts { IfOk result (λ flow. StandsAt flow start) }
        ensures run { IfOk result (λ flow. IsAfter flow []) }
        ensures room { IfOk result (λ flow. room_of flow ≡ room_under setup.now) }
    {
        let roster = setup.roster();
        let most_queued = setup.queue();
        let (Ok(board), Ok(changes)) = (
            Boards::new(alloc, roster),
            VecDeque::with_capacity(alloc, most_queued),
        ) else {
            return Err(FlowFault::NoMemory);
        };
        Ok(Flow {
            board,
            changes,
            pending: 0,
            most_queued,
            most_taken: setup.tape_limit(),
        })
    }

    /// Whether a change is only about participants and symbols of the setup's roster.
    pub fn holds(&self, change: &Change) -> bool
        ensures { result ≡ holds self.now.board.sizes change.now }
    {
        self.board.holds(change)
    }

    /// Whether a symbol is on the setup's roster.
    pub fn has_sym(&self, sym: Sym) -> bool
        ensures { result ≡ nat_lt sym (length self.now.board.sizes.lots) }
    {
        self.board.has_sym(sym)
    }

    /// Sends a change to the queue, on the feed that brought it. Takes no memory. `QueueFull` leaves the
    /// machine as it was.
    pub fn send(&mut self, feed: Feed, change: Change) -> Result<(), StepFault>
        requires { holds self.old.board.sizes change ≡ true }
        ensures went { WentOn self.old self.new (step.Send feed change, replied (λ sent. reply.Sent) result) }
        ensures full { IfErr result (λ fault. fault ≡ StepFault.QueueFull) }
        ensures unchanged { OnErr result (self.new ≡ self.old) }
    {
        if self.changes.len() - self.pending == self.most_queued {
            return Err(StepFault::QueueFull);
        }
        put_back(&mut self.changes, Marked { feed, change });
        Ok(())
    }

    /// Takes the change at the queue's front to the tape, and returns the tape's length. A fault leaves the machine as
    /// it was: `QueueEmpty`, `TapeFull`, or `NoMemory` if the taking would have succeeded.
    pub fn take(&mut self) -> Result<u64, StepFault>
        ensures went { WentOn self.old self.new (step.Take, replied (λ version. reply.Taken version) result) }
        ensures sends_nothing { result ≢ Err StepFault.QueueFull }
        ensures unchanged { OnErr result (self.new ≡ self.old) }
        ensures taken { OnOk result (self.new ≡ record self.old { pending = self.old.pending + 1 }) }
        ensures within { OnOk result (self.new.pending ≤ length self.new.changes) }
    {
        if self.pending == self.changes.len() {
            return Err(StepFault::QueueEmpty);
        }
        let version = self.taken();
        if version == self.most_taken {
            return Err(StepFault::TapeFull);
        }
        let most = self.pending + 1 + self.most_queued;
        if make_room(&mut self.changes, most).is_err() {
            return Err(StepFault::NoMemory);
        }
        self.pending += 1;
        Ok(version + 1)
    }

    /// Takes changes from the queue's front to the tape until a taking is refused, and returns the fault of that taking. It
    /// raises one count for all of these changes together. `NoMemory` leaves the machine as it was. It comes before the first
    /// taking, if that would have succeeded.
    pub fn take_all(&mut self) -> StepFault
        ensures run { TakesUntil result self.old self.new }
        ensures sends_nothing { result ≢ StepFault.QueueFull }
        ensures room { room_of self.new ≡ room_of self.old }
        ensures empty { result ≡ StepFault.QueueEmpty → self.new ≡ record self.old { pending = length self.old.changes } }
        ensures full { result ≡ StepFault.TapeFull → self.new ≡ record self.old { pending = self.old.most_taken - self.old.board.applied } }
        ensures unchanged { result ≡ StepFault.NoMemory → self.new ≡ self.old }
    {
        let queued = self.changes.len() - self.pending;
        let more = (queued as u64).min(self.most_taken - self.taken()) as usize;
        let most = self.pending + more + self.most_queued;
        let Ok(()) = make_room(&mut self.changes, most) else {
            return StepFault::NoMemory;
        };
        self.pending += more;
        if more == queued {
            return StepFault::QueueEmpty;
        }
        StepFault::TapeFull
    }

    /// Makes all of the tape the published version, and returns its number. Takes no memory: each change taken since the last
    /// publishing is applied to the board.
    pub fn publish(&mut self) -> u64
        ensures went { WentOn self.old self.new (step.Publish, Ok (reply.Published result)) }
    {
        apply_first(&mut self.board, &self.changes, self.pending);
        drop_front(&mut self.changes, self.pending);
        self.pending = 0;
        self.board.applied()
    }

    /// The published version's number, which a desk may learn.
    pub fn published(&self) -> u64
        ensures told { (desk : ℕ) → WentOn self.now self.now (step.Tell desk, Ok (reply.Told desk result)) }
        ensures at { (at : Standing) → StandsAt self.now at → result ≡ at.published }
        ensures count { result ≡ self.now.board.applied }
    {
        self.board.applied()
    }

    /// How many changes the tape has.
    pub fn taken(&self) -> u64
        ensures at { (at : Standing) → StandsAt self.now at → result ≡ at.taken }
        ensures count { result ≡ self.now.board.applied + self.now.pending }
        ensures within { result ≤ MOST_CHANGES }
    {
        self.board.applied() + self.pending as u64
    }

    /// The change that was sent at a place, counted from 0, if it was sent since the last publishing.
    pub fn sent_at(&self, place: u64) -> Option<Change>
        ensures { (at : Standing) → StandsAt self.now at → at.published ≤ place
            → result ≡ slice_get (changes_in at.sent) place }
    {
        let since = place.checked_sub(self.board.applied())?;
        match self.changes.get(since as usize) {
            Some(marked) => Some(marked.change),
            None => None,
        }
    }

    /// What a look at a symbol shows: its quotations in the published version; no rows for a symbol that is not on the roster.
    pub fn look(&self, sym: Sym) -> View
        ensures went { (desk : ℕ) → WentOn self.now self.now (step.Look desk sym, Ok (reply.Seen result)) }
        ensures sym { result.sym ≡ sym }
        ensures parts { (side : Side) → All (λ row. row.part < self.now.board.sizes.parts) (rows_on side result) }
    {
        self.board.view(sym)
    }

    /// The published version's board, for a caller that reads a look off it without making a view.
    pub fn board(&self) -> &Boards
        ensures board { result.now ≡ self.now.board }
        ensures went { (desk sym : ℕ) → WentOn self.now self.now (step.Look desk sym, Ok (reply.Seen (seen_on self.now.board sym))) }
    {
        &self.board
    }

    /// The best bid and the best offer that a look at a symbol of the roster shows, without making a view.
    #[inline(always)]
    pub fn best(&self, sym: Sym) -> BestRows
        requires { sym < length self.now.board.sizes.lots }
        ensures went { (desk : ℕ) → WentOn self.now self.now (step.Look desk sym, Ok (reply.Seen (seen_on self.now.board sym))) }
        ensures bid { IsBestOf Bid (seen_on self.now.board sym).bids result.bid }
        ensures offer { IsBestOf Offer (seen_on self.now.board sym).offers result.offer }
    {
        BestRows {
            bid: best_on(&self.board, Side::Bid, sym),
            offer: best_on(&self.board, Side::Offer, sym),
        }
    }

    /// Makes one step, which is one event. A fault leaves the machine as it was. `NoMemory` comes only at a taking, and only if
    /// it would have succeeded.
    pub fn step(&mut self, step: Step) -> Result<Reply, StepFault>
        requires { holds_step self.old.board.sizes step ≡ true }
        ensures went { WentOn self.old self.new (step, result) }
        ensures run { (before : List Event) → IsAfter self.old before → IsAfter self.new (before ++ (step, result) ∷ []) }
        ensures shape { HasShape step result }
        ensures unchanged { OnErr result (self.new ≡ self.old) }
    {
        self.answer(step)
    }

    /// Makes one step, through the function for this kind of step.
    fn answer(&mut self, step: Step) -> Result<Reply, StepFault>
        requires { holds_step self.old.board.sizes step ≡ true }
        ensures went { WentOn self.old self.new (step, result) }
        ensures shape { HasShape step result }
        ensures unchanged { OnErr result (self.new ≡ self.old) }
    {
        match step {
            Step::Send(feed, change) => match self.send(feed, change) {
                Ok(()) => Ok(Reply::Sent),
                Err(fault) => Err(fault),
            },
            Step::Take => match self.take() {
                Ok(version) => Ok(Reply::Taken { version }),
                Err(fault) => Err(fault),
            },
            Step::Publish => Ok(Reply::Published {
                version: self.publish(),
            }),
            Step::Tell { desk } => Ok(Reply::Told {
                desk,
                version: self.published(),
            }),
            Step::Look { sym, .. } => Ok(Reply::Seen(self.look(sym))),
        }
    }
}

/// Applies the first changes of a queue to a board, in order.
fn apply_first(board: &mut Boards, queue: &VecDeque<Marked>, count: usize)
    requires held { All (λ marked. holds board.old.sizes marked.change ≡ true) queue.now.items }
    requires there { count ≤ deque_len queue.now }
    requires room { board.old.applied + count ≤ MOST_CHANGES }
    ensures stands { (tape : Tape) → StandsFor board.old tape → StandsFor board.new (tape ++ changes_in (take count queue.now.items)) }
    ensures sizes { board.new.sizes ≡ board.old.sizes }
    ensures applied { board.new.applied ≡ board.old.applied + count }
{
    let (front, back) = queue.as_slices();
    let first = count.min(front.len());
    apply_all(board, &front[..first]);
    apply_all(board, &back[..count - first]);
}

/// Applies changes to a board, in order.
fn apply_all(board: &mut Boards, changes: &[Marked])
    requires held { All (λ marked. holds board.old.sizes marked.change ≡ true) changes.now }
    requires room { board.old.applied + length changes.now ≤ MOST_CHANGES }
    ensures stands { (tape : Tape) → StandsFor board.old tape → StandsFor board.new (tape ++ changes_in changes.now) }
    ensures sizes { board.new.sizes ≡ board.old.sizes }
    ensures applied { board.new.applied ≡ board.old.applied + length changes.now }
{
    for marked in changes {
        board.apply(marked.change);
    }
}

/// Makes room for n changes in a queue. It can fail only if there was less room before.
fn make_room(queue: &mut VecDeque<Marked>, most: usize) -> Result<(), AllocError>
    requires { deque_len queue.old ≤ most }
    ensures items { queue.new.items ≡ queue.old.items }
    ensures capacity { deque_capacity queue.old ≤ deque_capacity queue.new }
    ensures room { OnOk result (most ≤ deque_capacity queue.new) }
    ensures full { OnErr result (deque_capacity queue.old < most) }
{
    queue.reserve(most - queue.len())
}

/// Puts a change at the end of a queue that has room for it.
fn put_back(queue: &mut VecDeque<Marked>, marked: Marked)
    requires { deque_len queue.old < deque_capacity queue.old }
    ensures items { queue.new.items ≡ queue.old.items ++ marked ∷ [] }
    ensures capacity { deque_capacity queue.new ≡ deque_capacity queue.old }
{
    // The prover has to see the types in a marked change before it moves, so the code mentions them.
    let _seen: (Option<Change>, Option<SideQuote>, Option<Lot>) = (None, None, None);
    queue.push_back_reserved(marked);
}

/// Drops the first changes of a queue.
fn drop_front(queue: &mut VecDeque<Marked>, count: usize)
    requires { count ≤ deque_len queue.old }
    ensures items { queue.new.items ≡ drop count queue.old.items }
    ensures capacity { deque_capacity queue.new ≡ deque_capacity queue.old }
{
    if count == queue.len() {
        return queue.clear();
    }
    for _ in 0..count {
        let _dropped = queue.pop_front();
    }
}
