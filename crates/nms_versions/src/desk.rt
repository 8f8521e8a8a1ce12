//! A desk, which looks at what is published (specs/Taped).
ghost use Rattle.std.specs.Prelude.{◌≡◌, ◌<◌, ◌∷◌, ◌↔◌, length, IfErr, IfOk, IsErr, OnErr, OnOk};
ghost use Rattle.std.specs.List.{AllByRecursion, Contains};
ghost use Rattle.nms_quote.specs.Tape.{Tape};
ghost use Rattle.nms_board.specs.Cells.{Board};
ghost use Rattle.nms_board.specs.View.{seen_nothing, view_of};
ghost use Rattle.nms_versions.specs.Published.{changes, publications};
ghost use Rattle.nms_versions.specs.Taped.{AllBegin, IsShown, longest_of};
ghost use Rattle.nms_versions.specs.declared.settled.Unsettled.TheVariants as unsettled;

use crate::history::Token;
use crate::memory::Memory;
use crate::no_reading::NoReading;
use crate::onlooker::Onlooker;
use crate::receipt::Receipt;
use crate::rule::{PairReader, Reading};
use crate::settled::{Settled, Unsettled};
use nms_board::View;
use nms_quote::Sym;
use std::marker::Model;

/// A desk looks at what is published, and never at a version older than one that it saw or learned of.
pub struct Desk {
    /// The desk's reader of the pair of boards. A look takes the reader out and puts it back.
    pub(crate) reader: Option<PairReader>,
    pub(crate) memory: Memory,
    /// The longest version that the desk knows, and how many changes that version has.
    pub(crate) newest: Token,
    pub(crate) longest: u64,
}

/// A desk has its own `Drop`. So a function that holds a desk has one call at each exit, and not one for each part
/// (docs/GATE.md).
impl Drop for Desk {
    fn drop(self) {
        let Desk {
            reader: _,
            memory: _,
            newest: _,
            longest: _,
        } = self;
    }
}

impl Model for Desk {
    ghost use Rattle.std.specs.Prelude.{map, IfSome, IsSome};
    ghost use Rattle.std.specs.Option.{option_and_then};
    ghost use Rattle.nms_versions.specs.Memory.{Remembers};
    ghost use Rattle.nms_versions.specs.Published.{changes};
    ghost use Rattle.nms_versions.specs.Rule.{IsNamed, sizes_shown};
    ghost use Rattle.nms_versions.specs.Taped.{Knowing};

    ghost Value = { Knowing };

    ghost view = { λ d. record { opening = d.newest.book; sizes = sizes_shown (option_and_then (λ r. r.place.me.0.client.opening) d.reader); known = map changes d.memory } };

    ghost invariant = { λ d. IsSome d.reader × IfSome d.reader (λ r. IsNamed r.place.me.0.client d.newest.book) × Remembers d.newest.log d.longest d.memory };
}

impl Desk {
    /// Learns the version of a receipt of its own opening. From then on no look shows an older one.
    pub fn learn(&mut self, receipt: Receipt)
        requires opening { receipt.opening ≡ self.old.opening }
        ensures { self.new ≡ record self.old { known = changes receipt.published ∷ self.old.known } }
    {
        let Receipt { seen, version } = receipt;
        let mut both = self.newest.again();
        both.learn(&seen);
        self.memory = self.memory.with(seen.again());
        if version <= self.longest {
            return;
        }
        self.longest = version;
        self.newest = seen;
    }

    /// What the published version shows for a symbol; no rows for a symbol that is not on the roster. It waits for no thread
    /// and takes no memory. `NoReading` leaves the desk as it was.
    pub fn look(&mut self, sym: Sym) -> Result<View, NoReading>
        ensures shown { IfOk result (λ view. (version : Tape) × (view ≡ view_of self.old.sizes version sym)
            × AllBegin version self.old.known × (self.new ≡ record self.old { known = version ∷ self.old.known })) }
        ensures unchanged { OnErr result (self.new ≡ self.old) }
    {
        let mut view = View::of_nothing(0, sym);
        match self.look_into(sym, &mut view) {
            Ok(()) => Ok(view),
            Err(none) => Err(none),
        }
    }

    /// Writes what the published version shows for a symbol over an earlier view. So a desk that looks often copies no view.
    /// `NoReading` leaves the desk as it was, and the view shows nothing.
    pub fn look_into(&mut self, sym: Sym, view: &mut View) -> Result<(), NoReading>
        ensures shown { OnOk result ((version : Tape) × (view.new ≡ view_of self.old.sizes version sym)
            × AllBegin version self.old.known × (self.new ≡ record self.old { known = version ∷ self.old.known })) }
        ensures unchanged { OnErr result (self.new ≡ self.old) }
        ensures unseen { OnErr result (view.new ≡ seen_nothing 0 sym) }
    {
        view.clear(0, sym);
        self.look_with(view)
    }

    /// Shows the published board to an onlooker. It waits for no thread and takes no memory, unless the onlooker does.
    /// `NoReading` leaves the desk and the onlooker as they were.
    pub fn look_with<O: Onlooker>(&mut self, onlooker: &mut O) -> Result<O::Sight, NoReading>
        ensures shown { IfOk result (λ sight. (board : Board) × (version : Tape) × IsShown self.old self.new board version
            × O.Sees onlooker.old board onlooker.new sight) }
        ensures unchanged { OnErr result (self.new ≡ self.old) }
        ensures unshown { OnErr result (onlooker.new ≡ onlooker.old) }
    {
        let reader = self.reader.take().unwrap();
        let reading = match reader.enter_as::<Reading>() {
            Ok(reading) => reading,
            Err(reader) => {
                self.reader = Some(reader);
                return Err(NoReading);
            }
        };
        let sealed = reading.get();
        let version = sealed.boards.applied();
        let seen = sealed.seen.again();
        let mut both = self.newest.again();
        both.learn(&seen);
        if version < self.longest {
            self.reader = Some(reading.leave());
            return Err(NoReading);
        }
        self.memory = self.memory.with(seen.again());
        self.longest = version;
        self.newest = seen;
        let sight = onlooker.see(&sealed.boards);
        self.reader = Some(reading.leave());
        Ok(sight)
    }

    /// Ends the desk on a receipt of its own opening: each version that it knew is a beginning of the receipt's, and was
    /// published. `Newer` if it knows a longer version than the receipt's; then it comes back as it was.
    pub fn settle(self, receipt: Receipt) -> Result<Settled, Unsettled>
        requires opening { receipt.opening ≡ self.opening }
        ensures begins { OnOk result (AllBegin (changes receipt.published) self.known) }
        ensures published { OnOk result (AllByRecursion (λ version. Contains (publications receipt.published) (length version)) self.known) }
        ensures settled { IfOk result (λ settled. settled.version ≡ longest_of self.known) }
        ensures newer { IsErr result ↔ (length (changes receipt.published) < longest_of self.known) }
        ensures back { IfErr result (λ left. left ≡ unsettled.Newer self (longest_of self.known)) }
    {
        let version = self.longest;
        if version > receipt.version {
            return Err(Unsettled::Newer {
                desk: self,
                version,
            });
        }
        let mut both = self.newest.again();
        both.learn(&receipt.seen);
        Ok(Settled { version })
    }
}
