//! The participants and symbols of a roster: `specs/Roster`.
ghost use Rattle.std.specs.Prelude.{◌≡◌, ℕ, ◌<◌, ◌≤◌, ◌↔◌, [], ◌∷◌, ◌++◌, length, option_map, slice_get, nat_lt, true, IsTrue, IfSome, IfOk, IfErr, OnErr};
ghost use Rattle.nms_quote.specs.Roster.{part_text, place_in, symbol_text, is_part_name, is_symbol_name, part_refusal, sym_refusal, sizes_of, holds, feed_of_change};

use crate::change::Change;
use crate::feed::Feed;
use crate::name::{is_part_name, is_symbol_name};
use crate::name_table::NameTable;
use crate::participant::Part;
use crate::roster_fault::RosterFault;
use crate::symbol::Sym;
use crate::{MOST_PARTICIPANTS, MOST_SYMBOLS};
use nms_units::Lot;
use std::alloc::Global;
use std::marker::Model;

/// Participants with their feeds and symbols with their round lots, each name once. An entry's place is the number of
/// entries before it. The lots are those of the opening.
pub struct Roster {
    parts: NameTable<Feed>,
    syms: NameTable<Lot>,
}

/// This type has its own `Drop`. So a function that holds such a value has one call at each exit, and not one for each part
/// (docs/GATE.md).
impl Drop for Roster {
    fn drop(self) {
        let Roster { parts: _, syms: _ } = self;
    }
}

impl Model for Roster {
    ghost use Rattle.nms_quote.specs.Roster.{Listing, is_part_name, is_symbol_name, AreNames};
    ghost use Rattle.nms_quote.specs.declared.TheConstants.{MOST_PARTICIPANTS, MOST_SYMBOLS};

    ghost Value = { Listing };

    ghost view = { λ r. record { parts = r.parts; syms = r.syms } };

    ghost invariant = { λ r. AreNames is_part_name MOST_PARTICIPANTS r.parts × AreNames is_symbol_name MOST_SYMBOLS r.syms };
}

impl Roster {
    /// An empty roster. Its only refusal is `NoMemory`.
    pub fn new(alloc: Global) -> Result<Self, RosterFault>
        ensures empty { IfOk result (λ roster. (roster.parts ≡ []) × (roster.syms ≡ [])) }
        ensures memory { IfErr result (λ fault. fault ≡ RosterFault.NoMemory) }
    {
        Ok(Roster {
            parts: NameTable::new(alloc)?,
            syms: NameTable::new(alloc)?,
        })
    }

    /// Adds a participant as the last one, with a name of 1 to 4 of A to Z and 0 to 9. Returns its place.
    ///
    /// Errors, the first that holds: `BadName` (the form), `Duplicate`, `TooMany` (32 are there). `NoMemory` may come only
    /// instead of success. An error changes nothing.
    pub fn add_participant(&mut self, name: &[u8], feed: Feed) -> Result<Part, RosterFault>
        ensures added { IfOk result (λ part. (self.new.parts ≡ self.old.parts ++ (name.now, feed) ∷ []) × (self.new.syms ≡ self.old.syms) × (part ≡ length self.old.parts)) }
        ensures unchanged { OnErr result (self.new ≡ self.old) }
        ensures refused { (fault : RosterFault) → part_refusal self.old name.now ≡ Some fault → result ≡ Err fault }
        ensures memory { part_refusal self.old name.now ≡ None → IfErr result (λ fault. fault ≡ RosterFault.NoMemory) }
    {
        if let Some(fault) = self
            .parts
            .refusal(name, is_part_name(name), usize::from(MOST_PARTICIPANTS))
        {
            return Err(fault);
        }
        let place = self.parts.len();
        self.parts.push(name, feed)?;
        Ok(Part::at(place))
    }

    /// Adds a symbol as the last one, with a name of 1 to 8 of A to Z, 0 to 9 and the point. Returns its place.
    ///
    /// Errors, the first that holds: `BadName` (the form), `Duplicate`, `TooMany` (1,000 are there). `NoMemory` may come only
    /// instead of success. An error changes nothing.
    pub fn add_symbol(&mut self, name: &[u8], lot: Lot) -> Result<Sym, RosterFault>
        ensures added { IfOk result (λ sym. (self.new.syms ≡ self.old.syms ++ (name.now, lot) ∷ []) × (self.new.parts ≡ self.old.parts) × (sym ≡ length self.old.syms)) }
        ensures unchanged { OnErr result (self.new ≡ self.old) }
        ensures refused { (fault : RosterFault) → sym_refusal self.old name.now ≡ Some fault → result ≡ Err fault }
        ensures memory { sym_refusal self.old name.now ≡ None → IfErr result (λ fault. fault ≡ RosterFault.NoMemory) }
    {
        if let Some(fault) = self
            .syms
            .refusal(name, is_symbol_name(name), usize::from(MOST_SYMBOLS))
        {
            return Err(fault);
        }
        let place = self.syms.len();
        self.syms.push(name, lot)?;
        Ok(Sym::at(place))
    }

    /// The participant with that name; `None` if there is none.
    pub fn find_part(&self, name: &[u8]) -> Option<Part>
        ensures place { result ≡ place_in self.now.parts name.now }
        ensures within { IfSome result (λ part. part < length self.now.parts) }
    {
        let place = self.parts.find(name)?;
        Some(Part::at(place))
    }

    /// The symbol with that name; `None` if there is none.
    pub fn find_sym(&self, name: &[u8]) -> Option<Sym>
        ensures place { result ≡ place_in self.now.syms name.now }
        ensures within { IfSome result (λ sym. sym < length self.now.syms) }
    {
        let place = self.syms.find(name)?;
        Some(Sym::at(place))
    }

    /// The name of a participant of the roster, which no other has.
    pub fn part_name(&self, part: Part) -> &str
        requires { part < length self.now.parts }
        ensures name { option_map (λ entry. entry.0) (slice_get self.now.parts part) ≡ Some result.now }
        ensures found { place_in self.now.parts result.now ≡ Some part }
        ensures once { (other : ℕ) → option_map (λ entry. entry.0) (slice_get self.now.parts other) ≡ Some result.now → other ≡ part }
        ensures form { is_part_name result.now ≡ true }
    {
        self.parts.name_at(usize::from(part.get()))
    }

    /// The name of a symbol of the roster, which no other has.
    pub fn sym_name(&self, sym: Sym) -> &str
        requires { sym < length self.now.syms }
        ensures name { option_map (λ entry. entry.0) (slice_get self.now.syms sym) ≡ Some result.now }
        ensures found { place_in self.now.syms result.now ≡ Some sym }
        ensures once { (other : ℕ) → option_map (λ entry. entry.0) (slice_get self.now.syms other) ≡ Some result.now → other ≡ sym }
        ensures form { is_symbol_name result.now ≡ true }
    {
        self.syms.name_at(usize::from(sym.get()))
    }

    /// The feed of a participant of the roster.
    pub fn feed_of(&self, part: Part) -> Feed
        requires { part < length self.now.parts }
        ensures { option_map (λ entry. entry.1) (slice_get self.now.parts part) ≡ Some result }
    {
        self.parts.value_at(usize::from(part.get()))
    }

    /// The feed to which a change belongs. It is its participant's, and the first one for a new round lot.
    pub fn feed_of_change(&self, change: &Change) -> Feed
        requires { holds (sizes_of self.now) change.now ≡ true }
        ensures { feed_of_change self.now change.now ≡ Some result }
    {
        match *change {
            Change::Quote { part, .. } | Change::State { part, .. } | Change::Withdraw { part } =>
                self.feed_of(part),
            Change::Lot { .. } => Feed::A,
        }
    }

    /// The opening round lot of a symbol of the roster, in shares (17 CFR 242.600, "round lot").
    pub fn lot_of(&self, sym: Sym) -> Lot
        requires { sym < length self.now.syms }
        ensures { option_map (λ entry. entry.1) (slice_get self.now.syms sym) ≡ Some result }
    {
        self.syms.value_at(usize::from(sym.get()))
    }

    /// How many participants there are, at most 32.
    pub fn parts(&self) -> usize
        ensures count { result ≡ length self.now.parts }
        ensures within { result ≤ MOST_PARTICIPANTS }
    {
        self.parts.len()
    }

    /// How many symbols there are, at most 1,000.
    pub fn syms(&self) -> usize
        ensures count { result ≡ length self.now.syms }
        ensures within { result ≤ MOST_SYMBOLS }
    {
        self.syms.len()
    }

    /// A law: each participant and each symbol is found under its name.
    pub fn finds_each_name(&self)
        ensures parts { (part : ℕ) → part < length self.now.parts → place_in self.now.parts (part_text self.now part) ≡ Some part }
        ensures syms { (sym : ℕ) → sym < length self.now.syms → place_in self.now.syms (symbol_text self.now sym) ≡ Some sym }
    {
        self.parts.finds_each_name();
        self.syms.finds_each_name();
    }

    /// Whether a change names only participants and symbols of the roster.
    pub fn holds(&self, change: &Change) -> bool
        ensures { result ≡ holds (sizes_of self.now) change.now }
    {
        match *change {
            Change::Quote { part, sym, .. } | Change::State { part, sym, .. } => {
                self.has_part(part) && self.has_sym(sym)
            }
            Change::Withdraw { part } => self.has_part(part),
            Change::Lot { sym, .. } => self.has_sym(sym),
        }
    }

    /// Whether a symbol is on the roster.
    pub fn has_sym(&self, sym: Sym) -> bool
        ensures { IsTrue result ↔ (sym < length self.now.syms) }
    {
        usize::from(sym.get()) < self.syms.len()
    }

    fn has_part(&self, part: Part) -> bool
        ensures { result ≡ nat_lt part (length self.now.parts) }
    {
        usize::from(part.get()) < self.parts.len()
    }
}
