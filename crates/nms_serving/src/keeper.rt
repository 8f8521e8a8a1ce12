//! The taker's side of the board: each batch of changes is on the tape's file before it is published (specs/Keeping).
ghost use Rattle.std.specs.Prelude.{◌≡◌, ℕ, ◌+◌, ◌<◌, ◌≤◌, ◌++◌, ◌∷◌, ◌⊎◌, [], drop, fold, length, IfErr, IfOk, OnErr, OnOk, Err, ◌↔◌};
ghost use Rattle.std.specs.Io.KnownBytes.{Appends};
ghost use Rattle.nms_change_text.specs.ChangeText.{changes_text};
ghost use Rattle.nms_quote.specs.Roster.{sizes_of};
ghost use Rattle.nms_quote.specs.declared.TheConstants.{MOST_CHANGES};
ghost use Rattle.nms_board.specs.Cells.{after, opening};
ghost use Rattle.nms_lines.specs.Written.{AppendsPart};
ghost use Rattle.nms_opening.specs.Alike.{ShowAlike};
ghost use Rattle.nms_opening.specs.Opening.{Opens};
ghost use Rattle.nms_serving.specs.declared.TheConstants.{MOST_BATCH};
ghost use Rattle.nms_serving.specs.Keeping.{IsKept, IsOfWriting, IsRefused, IsWritten, LeavesPart, with_all_published, with_change, with_writers};
ghost use Rattle.nms_serving.specs.Lengths.{length_line, opening_lines};
ghost use Rattle.nms_versions.specs.Published.{changes};
ghost use Rattle.nms_versions.specs.Taped.{tape_of};

use crate::MOST_BATCH;
use crate::serve_fault::ServeFault;
use crate::stream::Stream;
use itoa::Buffer;
use nms_board::Boards;
use nms_change_text::append_changes;
use nms_lines::write_text;
use nms_opening::opening;
use nms_quote::{Change, Roster};
use nms_versions::{AppendFault, Publisher, Receipt};
use std::alloc::{AllocError, Global};
use std::io::Write;
use std::marker::Model;
use std::sync::Wait;

/// The taker of a board that runs: it takes the changes of an epoch in, writes each batch, and then publishes it. It is not
/// `Drop`, so end it by `end`.
///
/// The function `serve` runs a keeper in threads, over paths. Another server calls a keeper in its own thread that takes
/// changes, with any two writers. It gives the desks of the same opening to its threads that look.
///
/// If a publishing fails, a file may have a prefix of a text, or all of it. A later batch would follow that part, so end the
/// keeper.
pub struct Keeper<'a, X: Write, Y: Write> {
    roster: &'a Roster,
    publisher: Publisher,
    /// The board of the tape, from which the next epoch begins.
    board: Boards,
    /// The file of the tape.
    tape: X,
    /// The file of the lengths that were published.
    lengths: Y,
    /// Room for the text of a batch.
    text: Vec<u8>,
    /// How many changes were published.
    published: u64,
    /// How often changes were published.
    publishings: u64,
    ghost counted: { published ≡ length (changes publisher.published) },
    ghost often: { publishings ≤ published },
    ghost limited: { publisher.limit ≤ MOST_CHANGES },
    ghost rostered: { publisher.sizes ≡ sizes_of roster.now },
    ghost sized: { board.sizes ≡ publisher.sizes },
    ghost standing: { board ≡ fold after (opening publisher.sizes) (tape_of publisher) },
}

impl<'a, X: Write, Y: Write> Model for Keeper<'a, X, Y> {
    ghost use Rattle.nms_serving.specs.Keeping.{Keeping};

    ghost Value = { Keeping X Y };

    ghost view = { λ k. record {
      roster = k.roster.now;
      publisher = k.publisher;
      board = k.board;
      tape = k.tape;
      lengths = k.lengths;
      published = k.published;
      publishings = k.publishings;
    } };
}

impl<'a, X: Write, Y: Write> Keeper<'a, X, Y> {
    /// A keeper of a tape that was just opened (`open_tape` of `nms_versions`), with a board that has nothing on it. The
    /// writers are those of the tape and of its lengths. Nothing is written yet.
    #[tactic(auto, using(crate::proofs::KeeperFacts::stands_empty))]
    pub fn new(
        alloc: Global,
        roster: &'a Roster,
        publisher: Publisher,
        board: Boards,
        tape: X,
        lengths: Y,
    ) -> Self
        requires limit { publisher.limit ≤ MOST_CHANGES }
        requires sizes { publisher.sizes ≡ sizes_of roster.now }
        requires empty { tape_of publisher ≡ [] }
        requires board { board ≡ opening publisher.sizes }
        ensures begins { result ≡ record { roster = roster.now; publisher = publisher; board = board; tape = tape; lengths = lengths; published = 0; publishings = 0 } }
    {
        let mut publisher = publisher;
        let published = publisher.receipt().version();
        Keeper {
            roster,
            publisher,
            board,
            tape,
            lengths,
            text: Vec::new(alloc),
            published,
            publishings: 0,
        }
    }

    /// The keeper of the next epoch, over a tape that was just opened and its files. It begins from this keeper's board
    /// (`begin`), so a look shows the same before and after.
    ///
    /// This keeper stays as it is, also at a fault. The faults are those of `begin`. After a fault, the publishing of the new
    /// tape has ended, and its files may have a prefix of a text.
    pub fn next<R: Wait>(
        &self,
        alloc: Global,
        rt: &R,
        publisher: Publisher,
        tape: X,
        lengths: Y,
    ) -> Result<Self, ServeFault>
    where
        X: Drop,
        Y: Drop,
        requires limit { publisher.limit ≤ MOST_CHANGES }
        requires empty { tape_of publisher ≡ [] }
        requires sizes { publisher.sizes ≡ self.now.publisher.sizes }
        ensures opening { IfOk result (λ next. next.publisher.opening ≡ publisher.opening) }
        ensures sizes { IfOk result (λ next. next.publisher.sizes ≡ publisher.sizes) }
        ensures roster { IfOk result (λ next. next.roster ≡ self.now.roster) }
        ensures opens { IfOk result (λ next. Opens self.now.board (tape_of next.publisher)) }
        ensures published { IfOk result (λ next. changes next.publisher.published ≡ tape_of next.publisher) }
        ensures recorded { IfOk result (λ next. Appends (X.contents tape) (X.contents next.tape) (changes_text self.now.roster (tape_of next.publisher))) }
        ensures listed { IfOk result (λ next. Appends (Y.contents lengths) (Y.contents next.lengths) (opening_lines (tape_of next.publisher))) }
        ensures alike { IfOk result (λ next. (sym : ℕ) → sym < length self.now.board.sizes.lots → ShowAlike self.now.board next.board sym) }
    {
        let Ok(empty) = Boards::new(alloc, self.roster) else {
            let _changes = publisher.close(rt);
            return Err(ServeFault::NoMemory);
        };
        let mut next = Keeper::new(alloc, self.roster, publisher, empty, tape, lengths);
        match next.begin(alloc, rt, &self.board) {
            Ok(()) => Ok(next),
            Err(fault) => {
                next.end(rt);
                Err(fault)
            }
        }
    }

    /// Begins a tape that has no changes yet with the opening changes of a board: they are written to its file and then
    /// published. So a look shows the same on that board and in the epoch. This holds at a full tape, and at the end of a
    /// process.
    ///
    /// `NoMemory`, `TapeFull` if the tape has no room for the opening changes, or `NotWritten`. Then end the keeper: its files
    /// may have a prefix of a text.
    #[tactic(auto, using(crate::proofs::KeeperFacts::none_published))]
    pub fn begin<R: Wait>(
        &mut self,
        alloc: Global,
        rt: &R,
        board: &Boards,
    ) -> Result<(), ServeFault>
        requires empty { tape_of self.old.publisher ≡ [] }
        requires sizes { self.old.publisher.sizes ≡ board.now.sizes }
        ensures opening { OnOk result (self.new.publisher.opening ≡ self.old.publisher.opening) }
        ensures sizes { OnOk result (self.new.publisher.sizes ≡ self.old.publisher.sizes) }
        ensures roster { OnOk result (self.new.roster ≡ self.old.roster) }
        ensures opens { OnOk result (Opens board.now (tape_of self.new.publisher)) }
        ensures published { OnOk result (changes self.new.publisher.published ≡ tape_of self.new.publisher) }
        ensures recorded { OnOk result (Appends (X.contents self.old.tape) (X.contents self.new.tape) (changes_text self.old.roster (tape_of self.new.publisher))) }
        ensures listed { OnOk result (Appends (Y.contents self.old.lengths) (Y.contents self.new.lengths) (opening_lines (tape_of self.new.publisher))) }
        ensures alike { OnOk result ((sym : ℕ) → sym < length board.now.sizes.lots → ShowAlike board.now self.new.board sym) }
    {
        // The call shows the prover that nothing of an empty tape is published.
        let _none = self.changes();
        let Ok(first) = opening(alloc, board) else {
            return Err(ServeFault::NoMemory);
        };
        match self.open_with(rt, &first) {
            Ok(()) => {
                // The call shows the prover that the keeper's board is the board of its tape.
                let _kept = self.changes();
                Ok(())
            }
            Err(fault) => Err(fault),
        }
    }

    /// Takes the opening changes of an epoch in, writes them and then publishes them, all together.
    #[tactic(auto, using(crate::proofs::KeeperFacts::none_published, crate::proofs::KeeperFacts::none_waiting, crate::proofs::KeeperFacts::appends_nothing, crate::proofs::KeeperFacts::taken_whole, crate::proofs::KeeperFacts::some_waiting, crate::proofs::KeeperFacts::recorded_whole, crate::proofs::KeeperFacts::lists_nothing, crate::proofs::KeeperFacts::listed_whole))]
    fn open_with<R: Wait>(&mut self, rt: &R, first: &[Change]) -> Result<(), ServeFault>
        requires empty { tape_of self.old.publisher ≡ [] }
        requires begins { self.old.published ≡ 0 }
        ensures opening { OnOk result (self.new.publisher.opening ≡ self.old.publisher.opening) }
        ensures sizes { OnOk result (self.new.publisher.sizes ≡ self.old.publisher.sizes) }
        ensures roster { OnOk result (self.new.roster ≡ self.old.roster) }
        ensures taken { OnOk result (tape_of self.new.publisher ≡ first.now) }
        ensures published { OnOk result (changes self.new.publisher.published ≡ tape_of self.new.publisher) }
        ensures recorded { OnOk result (Appends (X.contents self.old.tape) (X.contents self.new.tape) (changes_text self.old.roster first.now)) }
        ensures listed { OnOk result (Appends (Y.contents self.old.lengths) (Y.contents self.new.lengths) (opening_lines first.now)) }
    {
        if first.is_empty() {
            return Ok(());
        }
        match self.append_all(first) {
            Ok(()) => {}
            Err(fault) => return Err(fault),
        }
        self.publish(rt)
    }

    /// Appends changes to the tape, in order.
    fn append_all(&mut self, first: &[Change]) -> Result<(), ServeFault>
        ensures added { OnOk result (self.new.publisher ≡ record self.old.publisher { pending = self.old.publisher.pending ++ first.now }) }
        ensures kept { (self.new.tape ≡ self.old.tape) × (self.new.lengths ≡ self.old.lengths) × (self.new.roster ≡ self.old.roster) × (self.new.published ≡ self.old.published) }
    {
        for change in first {
            match self.append(change) {
                Ok(()) => {}
                Err(fault) => return Err(fault),
            }
        }
        Ok(())
    }

    /// The message about what is published, for a desk.
    pub fn receipt(&mut self) -> Receipt
        ensures opening { result.opening ≡ self.old.publisher.opening }
        ensures published { result.published ≡ self.old.publisher.published }
        ensures same { self.new ≡ self.old }
    {
        self.publisher.receipt()
    }

    /// How many changes the tape has. This holds for every keeper: its counts are those of the tape, and its board is the tape's.
    pub fn changes(&self) -> u64
        ensures count { result ≡ length (tape_of self.now.publisher) }
        ensures within { result ≤ MOST_CHANGES }
        ensures kept { IsKept self.now }
    {
        self.publisher.tape().len() as u64
    }

    /// How often changes were published, each time at least one.
    #[tactic(auto, using(crate::proofs::KeeperFacts::published_within))]
    pub fn publishings(&self) -> u64
        ensures count { result ≡ self.now.publishings }
        ensures within { result ≤ length (tape_of self.now.publisher) }
    {
        self.publishings
    }

    /// How many changes wait to be published.
    #[tactic(auto, using(crate::proofs::KeeperFacts::published_within))]
    pub fn waiting(&self) -> u64
        ensures count { result + self.now.published ≡ length (tape_of self.now.publisher) }
        ensures pending { result ≡ length self.now.publisher.pending }
    {
        self.changes() - self.published
    }

    /// Takes a change in. Once `MOST_BATCH` changes wait, they are written to the tape's file and then published.
    ///
    /// `TapeFull` if and only if the tape has as many changes as it may, or the change is not of the roster. `TapeFull` leaves
    /// everything as it was, and so does `NoMemory` if the tape can't grow. If the publishing fails, the change is on the tape,
    /// and no desk sees it. The count of changes (`changes`) distinguishes the two cases.
    #[tactic(auto, using(crate::proofs::KeeperFacts::longer_appended))]
    pub fn take_in<R: Wait>(&mut self, rt: &R, change: &Change) -> Result<(), ServeFault>
        ensures shown { OnOk result ((self.new ≡ with_change self.old change.now)
            ⊎ ((self.new ≡ with_all_published (with_change self.old change.now) self.new.tape self.new.lengths) × IsWritten X.contents Y.contents self.old self.new)) }
        ensures few { OnOk result (length (tape_of self.new.publisher) < self.new.published + MOST_BATCH) }
        ensures unpublished { OnErr result ((self.new ≡ self.old) ⊎ (self.new ≡ with_writers (with_change self.old change.now) self.new.tape self.new.lengths)) }
        ensures taken { OnOk result (tape_of self.new.publisher ≡ tape_of self.old.publisher ++ change.now ∷ []) }
        ensures full { (result ≡ Err ServeFault.TapeFull) ↔ IsRefused self.old.publisher change.now }
        ensures sizes { self.new.publisher.sizes ≡ self.old.publisher.sizes }
        ensures longer { length (tape_of self.old.publisher) ≤ length (tape_of self.new.publisher) }
    {
        match self.append(change) {
            Ok(()) => {}
            Err(fault) => return Err(fault),
        }
        if self.waiting() < MOST_BATCH {
            return Ok(());
        }
        self.publish(rt)
    }

    /// Appends a change to the tape.
    #[tactic(auto, using(crate::proofs::KeeperFacts::stands_on, crate::proofs::KeeperFacts::sized_on))]
    fn append(&mut self, change: &Change) -> Result<(), ServeFault>
        ensures added { OnOk result (self.new ≡ with_change self.old change.now) }
        ensures unchanged { OnErr result (self.new ≡ self.old) }
        ensures full { (result ≡ Err ServeFault.TapeFull) ↔ IsRefused self.old.publisher change.now }
    {
        // The prover has to see that the tape is within its limit.
        let _within = self.publisher.tape();
        if !self.board.takes(change) {
            return Err(ServeFault::TapeFull);
        }
        match self.publisher.append(*change) {
            Ok(()) => {}
            Err(AppendFault::NoMemory) => return Err(ServeFault::NoMemory),
            Err(AppendFault::TapeFull) => return Err(ServeFault::TapeFull),
        }
        self.board.apply(*change);
        Ok(())
    }

    /// Writes the waiting changes to the tape's file and the tape's length to the file of lengths, and then publishes the
    /// changes. If either can't be written, nothing is published. So both writes have succeeded before any desk sees the
    /// changes. `waiting` returns how many changes wait.
    ///
    /// `NotWritten` if a writer fails, which may have taken a prefix, or `NoMemory`. Then the changes still wait, and no desk
    /// sees them. Nothing is added to the file of lengths unless the tape's file has the complete text.
    #[tactic(auto, using(crate::proofs::KeeperFacts::stands_still, crate::proofs::KeeperFacts::as_long_published))]
    pub fn publish<R: Wait>(&mut self, rt: &R) -> Result<(), ServeFault>
        requires some { self.old.published < length (tape_of self.old.publisher) }
        ensures listed { OnOk result (Appends (Y.contents self.old.lengths) (Y.contents self.new.lengths) (length_line (length (tape_of self.old.publisher)))) }
        ensures recorded { OnOk result (Appends (X.contents self.old.tape) (X.contents self.new.tape) (changes_text self.old.roster (drop self.old.published (tape_of self.old.publisher)))) }
        ensures published { OnOk result (changes self.new.publisher.published ≡ tape_of self.old.publisher) }
        ensures unpublished { OnErr result (self.new ≡ with_writers self.old self.new.tape self.new.lengths) }
        ensures recorded_part { OnErr result (AppendsPart (X.contents self.old.tape) (X.contents self.new.tape) (changes_text self.old.roster (drop self.old.published (tape_of self.old.publisher)))) }
        ensures listed_part { OnErr result (AppendsPart (Y.contents self.old.lengths) (Y.contents self.new.lengths) (length_line (length (tape_of self.old.publisher)))) }
        ensures left { OnErr result (LeavesPart X.contents Y.contents self.old self.new) }
        ensures writes { IfErr result (λ fault. IsOfWriting fault) }
        ensures whole { OnOk result (self.new ≡ with_all_published self.old self.new.tape self.new.lengths) }
        ensures sizes { self.new.publisher.sizes ≡ self.old.publisher.sizes }
        ensures longer { length (tape_of self.old.publisher) ≤ length (tape_of self.new.publisher) }
    {
        match self.record() {
            Ok(()) => {}
            Err(fault) => return Err(fault),
        }
        self.publisher.publish(rt);
        self.published = self.publisher.receipt().version();
        self.publishings += 1;
        Ok(())
    }

    /// Writes the waiting changes to the tape's file, and the tape's length to the file of lengths.
    #[tactic(auto, using(crate::proofs::KeeperFacts::no_part, crate::proofs::KeeperFacts::whole_part, crate::proofs::KeeperFacts::leaves_first))]
    fn record(&mut self) -> Result<(), ServeFault>
        ensures same { self.new ≡ with_writers self.old self.new.tape self.new.lengths }
        ensures listed { OnOk result (Appends (Y.contents self.old.lengths) (Y.contents self.new.lengths) (length_line (length (tape_of self.old.publisher)))) }
        ensures recorded { OnOk result (Appends (X.contents self.old.tape) (X.contents self.new.tape) (changes_text self.old.roster (drop self.old.published (tape_of self.old.publisher)))) }
        ensures recorded_part { OnErr result (AppendsPart (X.contents self.old.tape) (X.contents self.new.tape) (changes_text self.old.roster (drop self.old.published (tape_of self.old.publisher)))) }
        ensures listed_part { OnErr result (AppendsPart (Y.contents self.old.lengths) (Y.contents self.new.lengths) (length_line (length (tape_of self.old.publisher)))) }
        ensures left { OnErr result (LeavesPart X.contents Y.contents self.old self.new) }
        ensures writes { IfErr result (λ fault. IsOfWriting fault) }
    {
        let tape = self.publisher.tape();
        let batch = batch_of(tape, self.published);
        self.text.clear();
        if append_changes(&mut self.text, self.roster, batch).is_err() {
            return Err(ServeFault::NoMemory);
        }
        if write_text(&mut self.tape, &self.text).is_err() {
            return Err(ServeFault::NotWritten(Stream::Tape));
        }
        if set_length_line(&mut self.text, tape.len() as u64).is_err() {
            return Err(ServeFault::NoMemory);
        }
        if write_text(&mut self.lengths, &self.text).is_err() {
            return Err(ServeFault::NotWritten(Stream::Lengths));
        }
        Ok(())
    }

    /// Ends the publishing. Desks show nothing from then on.
    pub fn end<R: Wait>(self, rt: &R)
    where
        X: Drop,
        Y: Drop,
    {
        let Keeper {
            roster: _,
            publisher,
            board: _board,
            tape: _tape,
            lengths: _lengths,
            text: _text,
            published: _,
            publishings: _,
        } = self;
        let _changes = publisher.close(rt);
    }
}

/// The changes of a tape after those that were published.
fn batch_of(tape: &[Change], published: u64) -> &[Change]
    ensures { result.now ≡ drop published tape.now }
{
    let from = tape.len().min(published as usize);
    &tape[from..]
}

/// Replaces a text by the line of a length.
fn set_length_line(text: &mut Vec<u8>, length: u64) -> Result<(), AllocError>
    ensures { OnOk result (text.new.items ≡ length_line length) }
{
    text.clear();
    let mut digits = Buffer::new();
    text.extend_from_slice(digits.format(length).as_bytes())?;
    text.push(b'\n')?;
    Ok(())
}
