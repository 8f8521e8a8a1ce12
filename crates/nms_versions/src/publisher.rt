//! The publisher, which appends changes to the tape and publishes it (specs/Taped).
ghost use Rattle.std.specs.Prelude.{◌≡◌, ◌+◌, ◌≤◌, ◌⊎◌, ◌∷◌, ◌++◌, ◌↔◌, ℕ, [], All, length, drop, true, Err, OnErr, OnOk};
ghost use Rattle.std.specs.List.{Contains};
ghost use Rattle.std.specs.Vec.{vec_len, vec_capacity};
ghost use Rattle.nms_quote.specs.Roster.{holds};
ghost use Rattle.nms_quote.specs.declared.TheConstants.{MOST_CHANGES};
ghost use Rattle.nms_versions.specs.Published.{NoneEmpty, changes, committed, publications};
ghost use Rattle.nms_versions.specs.Publishing.{Follows};
ghost use Rattle.nms_versions.specs.Taped.{tape_of};

use crate::append_fault::AppendFault;
use crate::batch::Batch;
use crate::fresh::Fresh;
use crate::history::History;
use crate::receipt::Receipt;
use crate::rule::{PairWriter, Showing, publish_pair};
use core::mem::replace_with;
use nms_quote::{Change, SideQuote};
use nms_units::Lot;
use std::alloc::Global;
use std::marker::Model;
use std::sync::Wait;
use std::thread::Parker;
use std::time::Duration;

/// How many microseconds the publisher rests if there is no memory for a batch, before it tries again. This product's own rule.
const REST: u64 = 1_000;

/// Appends changes to the tape, and publishes it to the desks of its opening. It is not `Drop`, so end it by `close`.
pub struct Publisher {
    pub(crate) alloc: Global,
    pub(crate) writer: PairWriter,
    pub(crate) history: History,
    /// All changes that were appended.
    pub(crate) tape: Vec<Change>,
    /// The changes that were appended since the last publishing.
    pub(crate) fresh: Fresh,
    /// How many changes the published version has.
    pub(crate) published: u64,
    pub(crate) limit: u64,
}

impl Model for Publisher {
    ghost use Rattle.std.specs.Prelude.{drop};
    ghost use Rattle.nms_versions.specs.Publishing.{IsSound, IsTaped};
    ghost use Rattle.nms_versions.specs.Taped.{Taped};

    ghost Value = { Taped };

    ghost view = { λ p. record {
      opening = p.history.opening;
      published = p.history.published;
      pending = p.fresh;
      sizes = p.writer.desk.shown.value.boards.sizes;
      limit = p.limit;
    } };

    ghost invariant = { λ p. IsSound p.writer.desk.shown.value (drop p.writer.behind p.writer.log.items) p.history
        × IsTaped p.history p.tape.items p.fresh p.published p.limit p.writer.desk.shown.value.boards.sizes };
}

impl Publisher {
    /// Whether a change is only about participants and symbols of the setup's roster.
    pub fn holds(&self, change: &Change) -> bool
        ensures { result ≡ holds self.now.sizes change.now }
    {
        self.writer.published().boards.holds(change)
    }

    /// Appends a change of the roster to the tape. It is published by the next `publish`. `TapeFull` if the tape has as many
    /// changes as it may, else `NoMemory`. Both leave everything as it was.
    pub fn append(&mut self, change: Change) -> Result<(), AppendFault>
        requires held { holds self.old.sizes change ≡ true }
        ensures added { OnOk result (self.new ≡ record self.old { pending = self.old.pending ++ change ∷ [] }) }
        ensures unchanged { OnErr result (self.new ≡ self.old) }
        ensures full { (result ≡ Err AppendFault.TapeFull) ↔ (length (tape_of self.old) ≡ self.old.limit) }
    {
        if self.tape.len() as u64 == self.limit {
            return Err(AppendFault::TapeFull);
        }
        if self.tape.reserve(1).is_err() {
            return Err(AppendFault::NoMemory);
        }
        if !self.history.be_open() {
            return Err(AppendFault::NoMemory);
        }
        let change = &change;
        if !self.fresh.push(self.alloc, change) {
            return Err(AppendFault::NoMemory);
        }
        put(&mut self.tape, *change);
        Ok(())
    }

    /// Makes all of the tape the published version, in one step. Waits for looks at the version before the last.
    pub fn publish<R: Wait>(&mut self, rt: &R)
        ensures published { self.new ≡ record self.old { published = committed self.old.published self.old.pending; pending = [] } }
        ensures whole { changes self.new.published ≡ tape_of self.old }
        ensures publications { (n : ℕ) → Contains (publications self.new.published) n
            ↔ Contains (publications self.old.published) n ⊎ (n ≡ length (tape_of self.old)) }
    {
        if self.fresh.is_empty() {
            return;
        }
        let changes = self.fresh.lend();
        self.history.close(&changes);
        let batch = Batch {
            changes,
            seen: self.history.token(),
        };
        show(rt, &mut self.writer, batch);
        self.fresh.begin();
        self.published = self.tape.len() as u64;
    }

    /// Makes room for n more changes, within the tape's limit and the memory there is. So none of them waits until the tape has
    /// moved. If out of memory, the tape grows with each change.
    pub fn make_room(&mut self, changes: usize)
        ensures { self.new ≡ self.old }
    {
        let most = self.limit - self.tape.len() as u64;
        let _room = self.tape.reserve(changes.min(most as usize));
    }

    /// A receipt of the published version and all publications, for a desk.
    pub fn receipt(&mut self) -> Receipt
        ensures opening { result.opening ≡ self.old.opening }
        ensures published { result.published ≡ self.old.published }
        ensures unchanged { self.new ≡ self.old }
    {
        Receipt {
            seen: self.history.token(),
            version: self.published,
        }
    }

    /// All changes that were appended. For every publisher they are within its limit, and no publishing was empty.
    pub fn tape(&self) -> &[Change]
        ensures tape { result.now ≡ tape_of self.now }
        ensures within { length (tape_of self.now) ≤ self.now.limit }
        ensures batches { NoneEmpty self.now.published }
    {
        self.tape.as_slice()
    }

    /// Ends the publishing, and returns all changes that were appended. Waits for looks. From then on desks show nothing.
    pub fn close<R: Wait>(self, rt: &R) -> Vec<Change>
        ensures { result.items ≡ tape_of self }
    {
        let Publisher {
            alloc: _,
            writer,
            history: _history,
            tape,
            fresh: _fresh,
            published: _,
            limit: _,
        } = self;
        writer.take(rt);
        tape
    }
}

/// Appends a change to the tape if there is room for it.
fn put(tape: &mut Vec<Change>, change: Change)
    requires { vec_len tape.old + 1 ≤ vec_capacity tape.old }
    ensures { tape.new.items ≡ tape.old.items ++ change ∷ [] }
{
    // The prover has to see the types in a change before the change moves, so the code mentions them.
    let _seen: (Option<SideQuote>, Option<Lot>) = (None, None);
    let _put = tape.push(change);
}

/// Gives a batch of changes to the pair of boards, and shows the board that has it.
fn show<R: Wait>(rt: &R, writer: &mut PairWriter, batch: Batch)
    requires idle { drop writer.old.behind writer.old.log.items ≡ [] }
    requires follows { Follows writer.old.desk.shown.value batch }
    ensures idle { drop writer.new.behind writer.new.log.items ≡ [] }
    ensures shown { writer.new.desk.shown.value.seen ≡ batch.seen }
    ensures sizes { writer.new.desk.shown.value.boards.sizes ≡ writer.old.desk.shown.value.boards.sizes }
{
    replace_with(writer, (rt, batch), publish_batch);
}

/// Gives a batch of changes to the pair of boards, shows the board that has it, and returns the pair's writer.
fn publish_batch<R: Wait>(writer: PairWriter, with: (&R, Batch)) -> (PairWriter, ())
    requires idle { drop writer.behind writer.log.items ≡ [] }
    requires follows { Follows writer.desk.shown.value with.1 }
    ensures idle { drop result.0.behind result.0.log.items ≡ [] }
    ensures shown { result.0.desk.shown.value.seen ≡ with.entry.1.seen }
    ensures sizes { result.0.desk.shown.value.boards.sizes ≡ writer.desk.shown.value.boards.sizes }
{
    let (rt, batch) = with;
    let mut writer = writer;
    give(rt, &mut writer, batch);
    (publish_pair::<Showing, R>(rt, writer), ())
}

/// Gives a batch of changes to the pair of boards. The pair has had room for it since the opening; else the publisher would
/// wait for memory.
fn give<R: Wait>(rt: &R, writer: &mut PairWriter, batch: Batch)
    ensures desk { writer.new.desk ≡ writer.old.desk }
    ensures pending { drop writer.new.behind writer.new.log.items ≡ drop writer.old.behind writer.old.log.items ++ batch ∷ [] }
{
    let mut batch = batch;
    for _ in rt.forever() {
        match writer.append(batch) {
            Ok(()) => return,
            Err(back) => batch = back,
        }
        Parker::new().park_timeout(rt, Duration::from_micros(REST));
    }
    unreachable!()
}
