//! The history of an opening, which is the batches that were published (specs/History). It exists only in proofs. At run time
//! it is a word that only the publisher reaches.
ghost use Rattle.std.specs.Prelude.{◌≡◌, ◌<◌, ◌++◌, ◌∷◌, [], true, false, length, MatchBool};
ghost use Rattle.nms_quote.specs.declared.TheConstants.{MOST_CHANGES};
ghost use Rattle.nms_versions.specs.Fresh.{items_of};

use logbook::{Gain, Offer, Pen, Plain, Play, Rule, Seen, Start, Word};
use nms_quote::Change;
use std::collections::LinkedList;
use std::marker::Model;
use std::sync::Arc;

/// What was seen of a history. It has no bytes.
pub type Token = Seen<LinkedList<Change>, u64, OneHistory>;

/// The rule of a history.
pub struct OneHistory;

impl Rule<LinkedList<Change>, u64> for OneHistory {
    ghost use Rattle.std.specs.Prelude.{[]};
    ghost use base.Fml.{ftrue};
    ghost use Rattle.nms_versions.specs.History.{IsKept};

    ghost holds = { λ words log. IsKept words log };

    ghost first = { [] };

    ghost hinted = { λ n log. Unit {0} };

    ghost shows = { λ log. [] };

    ghost keeps = { λ names log. ftrue };

    ghost moves = { λ ask before after answer. Unit {0} };
}

/// A step of a history in which nothing is traded.
pub struct Nothing;

impl Gain<LinkedList<Change>, u64> for Nothing {
    ghost use base.Fml.{ftrue};

    ghost after = { λ names about answer. ftrue };
}

/// A step of a history that opens a batch.
pub struct Opening;

impl Play<LinkedList<Change>, u64> for Opening {
    ghost use Rattle.nms_versions.specs.History.{Opens};

    ghost then = { Opens };
}

/// A step of a history that publishes the open batch.
pub struct Closing;

impl Play<LinkedList<Change>, u64> for Closing {
    ghost use Rattle.nms_versions.specs.History.{Closes};

    ghost then = { Closes };
}

/// A history requires nothing in order to open a batch.
impl Plain<u64, LinkedList<Change>, u64> for Opening {
    ghost use Rattle.std.specs.Prelude.{None, []};

    ghost ask = { λ _. [] };

    ghost state = { λ _. None };
}

/// A history requires the changes of a batch in order to publish it.
impl Plain<Arc<Vec<Change>>, LinkedList<Change>, u64> for Closing {
    ghost use Rattle.std.specs.Prelude.{None};
    ghost use Rattle.nms_versions.specs.Fresh.{items_of};

    ghost ask = { λ batch. items_of batch };

    ghost state = { λ batch. None };
}

/// A history, as its publisher holds it.
#[derive(Drop)]
pub struct History {
    word: Word<LinkedList<Change>, u64, OneHistory>,
    pen: Pen,
    seen: Token,
    /// How many batches were published.
    batches: u64,
    is_open: bool,
}

impl Model for History {
    ghost use Rattle.std.specs.Prelude.{◌≡◌, length, true};
    ghost use Rattle.nms_versions.specs.History.{Chronicle, count_of, pen_behind};
    ghost use Rattle.nms_versions.specs.Published.{NoneEmpty};

    ghost Value = { Chronicle };

    ghost view = { λ h. record { opening = h.seen.book; published = h.seen.log; is_open = h.is_open } };

    ghost invariant = { λ h. (h.word ≡ count_of h.seen.book) × (h.batches ≡ length h.seen.log) × NoneEmpty h.seen.log
        × (h.is_open ≡ true → (h.pen.book ≡ h.seen.book) × (h.pen.nib ≡ pen_behind (length h.seen.log))) };
}

impl History {
    /// A history with no batch. It takes no memory.
    pub(crate) fn new() -> Self
        ensures empty { result.published ≡ [] }
        ensures closed { result.is_open ≡ false }
    {
        let (seen, mut first, second) = Seen::open(Start::alone(), 0, 0);
        History {
            word: Word::tracked(0, &mut first),
            pen: second,
            seen,
            batches: 0,
            is_open: false,
        }
    }

    /// What was published, and of which history.
    pub(crate) fn token(&self) -> Token
        ensures book { result.book ≡ self.now.opening }
        ensures log { result.log ≡ self.now.published }
    {
        self.seen.again()
    }

    /// Makes sure that a batch is open, and returns whether one is. It could fail only if another holder had opened a batch,
    /// but there is no other holder.
    pub(crate) fn be_open(&mut self) -> bool
        requires room { length self.old.published < MOST_CHANGES }
        ensures opened { MatchBool result (self.new ≡ record self.old { is_open = true }) (self.new ≡ self.old) }
    {
        if self.is_open {
            return true;
        }
        let mut seen = self.seen.again();
        let mut pen = self.seen.no_pen();
        let mut offer: Offer<LinkedList<Change>, u64, OneHistory, Nothing> = self
            .seen
            .plain::<Nothing, u64, Opening>(&0);
        let batches = self.batches;
        let found = self
            .word
            .compare_exchange::<Opening, Nothing>(
                batches,
                batches + 1,
                &mut seen,
                &mut offer,
                &mut pen,
            );
        if found != batches {
            return false;
        }
        let _word: Word<LinkedList<Change>, u64, OneHistory> = Word::tracked(0, &mut pen);
        self.pen = pen;
        self.is_open = true;
        true
    }

    /// Publishes the open batch, which has these changes.
    pub(crate) fn close(&mut self, batch: &Arc<Vec<Change>>)
        requires open { self.old.is_open ≡ true }
        requires some { 0 < length (items_of batch.now) }
        requires room { length self.old.published < MOST_CHANGES }
        ensures { self.new ≡ record self.old { published = self.old.published ++ items_of batch.now ∷ []; is_open = false } }
    {
        let mut offer: Offer<LinkedList<Change>, u64, OneHistory, Nothing> = self
            .seen
            .plain::<Nothing, Arc<Vec<Change>>, Closing>(batch);
        let open = self.batches + 1;
        self.word
            .compare_exchange::<Closing, Nothing>(
                open,
                open,
                &mut self.seen,
                &mut offer,
                &mut self.pen,
            );
        self.batches = open;
        self.is_open = false;
    }
}
