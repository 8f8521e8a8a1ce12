//! What each participant shows of each symbol, as rows of one side have said: `specs/SideRows`.
ghost use Rattle.std.specs.Prelude.{◌≡◌, ◌+◌, ◌*◌, ◌<◌};
ghost use Rattle.nms_quote.specs.declared.TheConstants.{MOST_PARTICIPANTS};

use crate::side_rows::Sides;
use nms_quote::{Change, MOST_PARTICIPANTS, Part, Sym};
use std::alloc::{AllocError, Global};
use std::marker::Model;

/// What each participant shows of each symbol of a roster.
#[derive(Drop)]
pub struct KeptSides {
    symbols: usize,
    /// The sides of each participant in each symbol, in the order of the symbols, and within a symbol of the participants.
    all: Vec<Sides>,
}

impl Model for KeptSides {
    ghost use Rattle.std.specs.Prelude.{◌≡◌, ◌≤◌, ◌*◌, length};
    ghost use Rattle.nms_quote.specs.declared.TheConstants.{MOST_PARTICIPANTS, MOST_SYMBOLS};
    ghost use Rattle.nms_import.specs.SideRows.{Stored};

    ghost Value = { Stored };

    ghost view = { λ k. record { symbols = k.symbols; all = k.all.items } };

    ghost invariant = { λ k. (length k.all.items ≡ k.symbols * MOST_PARTICIPANTS) × (k.symbols ≤ MOST_SYMBOLS) };
}

impl KeptSides {
    ghost use Rattle.std.specs.Prelude.{◌≡◌, ◌<◌, ◌≤◌, ℕ, OnOk};
    ghost use Rattle.nms_quote.specs.declared.TheConstants.{MOST_PARTICIPANTS, MOST_SYMBOLS};
    ghost use Rattle.nms_quote.specs.Roster.{Listing, holds, sizes_of};
    ghost use Rattle.std.specs.Prelude.{length, true};
    ghost use Rattle.nms_import.specs.SideRows.{kept_in, no_sides, put, without};

    /// The sides before any row, when no participant shows anything. They take no memory before there is room for a symbol.
    pub fn new(alloc: Global) -> KeptSides
        ensures symbols { result.symbols ≡ 0 }
        ensures nothing { (part sym : ℕ) → kept_in result.all part sym ≡ no_sides }
    {
        KeptSides {
            symbols: 0,
            all: Vec::new(alloc),
        }
    }

    /// Makes room for n symbols, if there is less. What is kept stays.
    #[tactic(auto, using(crate::proofs::SideFacts::kept_grown))]
    pub fn make_room(&mut self, symbols: usize) -> Result<(), AllocError>
        requires few { symbols ≤ MOST_SYMBOLS }
        ensures room { OnOk result (symbols ≤ self.new.symbols) }
        ensures kept { OnOk result ((part sym : ℕ) → kept_in self.new.all part sym ≡ kept_in self.old.all part sym) }
    {
        if self.symbols < symbols {
            self.all
                .resize(symbols * usize::from(MOST_PARTICIPANTS), Sides::none())?;
            self.symbols = symbols;
        }
        Ok(())
    }

    /// Lets no participant show anything. The room stays.
    pub fn clear(&mut self) -> Result<(), AllocError>
        ensures nothing { OnOk result ((part sym : ℕ) → kept_in self.new.all part sym ≡ no_sides) }
    {
        let symbols = self.symbols;
        self.symbols = 0;
        self.all.clear();
        self.make_room(symbols)
    }

    /// What a participant shows of a symbol.
    pub fn get(&self, part: Part, sym: Sym) -> Sides
        ensures { result ≡ kept_in self.now.all part sym }
    {
        let place = place_of(part, sym);
        if place < self.all.len() {
            self.all[place]
        } else {
            Sides::none()
        }
    }

    /// Records that a participant shows the given sides of a symbol, if there is room for the symbol.
    #[tactic(auto, using(crate::proofs::SideFacts::kept_put))]
    pub fn put(&mut self, part: Part, sym: Sym, sides: Sides)
        ensures symbols { self.new.symbols ≡ self.old.symbols }
        ensures put { sym < self.old.symbols → (other_part other_sym : ℕ)
            → kept_in self.new.all other_part other_sym ≡ put (kept_in self.old.all) part sym sides other_part other_sym }
    {
        let place = place_of(part, sym);
        if place < self.all.len() {
            self.all[place] = sides;
        }
    }

    /// Lets the participant of a withdrawal show nothing of its symbol.
    pub fn withdraw(&mut self, change: &Change)
        ensures symbols { self.new.symbols ≡ self.old.symbols }
        ensures without { (roster : Listing) → holds (sizes_of roster) change.now ≡ true → length roster.syms ≤ self.old.symbols
            → (other_part other_sym : ℕ) → kept_in self.new.all other_part other_sym ≡ without (kept_in self.old.all) change.now other_part other_sym }
    {
        match *change {
            Change::Quote { part, sym, .. } => self.put(part, sym, Sides::none()),
            Change::State { .. } | Change::Withdraw { .. } | Change::Lot { .. } => {}
        }
    }
}

/// The place of a participant's sides of a symbol.
fn place_of(part: Part, sym: Sym) -> usize
    ensures place { result ≡ sym * MOST_PARTICIPANTS + part }
    ensures few { part < MOST_PARTICIPANTS }
{
    usize::from(sym.get()) * usize::from(MOST_PARTICIPANTS) + usize::from(part.get())
}
