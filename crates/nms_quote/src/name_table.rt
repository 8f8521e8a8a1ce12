//! Entries under names, in order of adding: `specs/Names` and `specs/Roster`.
ghost use Rattle.std.specs.Prelude.{◌≡◌, ℕ, List, Some, ◌<◌, [], ◌∷◌, ◌++◌, length, option_map, slice_get, true, IfSome, IfNone, IfErr, IfOk, MatchBool, OnOk, OnErr};
ghost use Rattle.std.specs.Str.{IsUtf8};
ghost use Rattle.std.specs.String.{string_eq};
ghost use Rattle.indexmap.specs.IndexMap.{IsUnique};
ghost use Rattle.nms_quote.specs.Names.{named, word_of};
ghost use Rattle.nms_quote.specs.Roster.{place_in, refusal_in};

use crate::hints::Hints;
use crate::roster_fault::RosterFault;
use indexmap::IndexMap;
use std::alloc::Global;
use std::marker::Model;

/// Entries under names, each name once. An entry's place is the number of entries before it.
#[derive(Drop)]
pub(crate) struct NameTable<V: Copy> {
    entries: IndexMap<String, V>,
    words: Vec<u64>,
    /// A copy of the entries' values, because a record looks up two of them.
    values: Vec<V>,
    hints: Hints,
}

impl<V: Copy> Model for NameTable<V> {
    ghost use Rattle.std.specs.Prelude.{List, ℕ, ◌≡◌};
    ghost use Rattle.std.specs.String.{string_eq};
    ghost use Rattle.indexmap.specs.IndexMap.{IsUnique};
    ghost use Rattle.nms_quote.specs.Names.{named, values_of, words_of};

    ghost Value = { List (List ℕ × V) };

    ghost view = { λ t. named t.entries.entries };

    ghost invariant = { λ t. IsUnique string_eq t.entries × (t.words.items ≡ words_of (named t.entries.entries)) × (t.values.items ≡ values_of (named t.entries.entries)) };
}

impl<V: Copy> NameTable<V> {
    /// A table with no entry.
    pub(crate) fn new(alloc: Global) -> Result<Self, RosterFault>
        ensures empty { IfOk result (λ table. table ≡ []) }
        ensures memory { IfErr result (λ fault. fault ≡ RosterFault.NoMemory) }
    {
        let Ok(hints) = Hints::new(alloc) else {
            return Err(RosterFault::NoMemory);
        };
        Ok(NameTable {
            entries: IndexMap::new(alloc),
            words: Vec::new(alloc),
            values: Vec::new(alloc),
            hints,
        })
    }

    /// How many entries there are.
    pub(crate) fn len(&self) -> usize
        ensures { result ≡ length self.now }
    {
        self.entries.len()
    }

    /// The place of the entry with that name.
    pub(crate) fn find(&self, name: &[u8]) -> Option<usize>
        ensures place { result ≡ place_in self.now name.now }
        ensures within { IfSome result (λ place. place < length self.now) }
    {
        let word = word_of(name);
        let place = self.hints.place_for(word);
        if word != 0 && place < self.words.len() && self.words[place] == word {
            Some(place)
        } else {
            self.find_by_hash(name)
        }
    }

    /// The place of the entry with that name, found without a hint.
    #[cold]
    #[inline(never)]
    fn find_by_hash(&self, name: &[u8]) -> Option<usize>
        ensures place { result ≡ place_in self.now name.now }
        ensures within { IfSome result (λ place. place < length self.now) }
    {
        let entries = &self.entries;
        match std::str::from_utf8(name) {
            Ok(text) => entries.get_index_of(text),
            Err(_) => None,
        }
    }

    /// The name at a place, which no other place has.
    pub(crate) fn name_at(&self, place: usize) -> &str
        requires { place < length self.now }
        ensures name { option_map (λ entry. entry.0) (slice_get self.now place) ≡ Some result.now }
        ensures found { place_in self.now result.now ≡ Some place }
        ensures once { (other : ℕ) → option_map (λ entry. entry.0) (slice_get self.now other) ≡ Some result.now → other ≡ place }
    {
        let (name, _) = self.entries.get_index(place).unwrap();
        name.as_str()
    }

    /// The value at a place.
    pub(crate) fn value_at(&self, place: usize) -> V
        requires { place < length self.now }
        ensures { option_map (λ entry. entry.1) (slice_get self.now place) ≡ Some result }
    {
        self.values[place]
    }

    /// Why an entry may not be added, the first reason that holds. Its name does not have its form, its name is there already,
    /// or the table has the most entries that the caller allows.
    pub(crate) fn refusal(&self, name: &[u8], is_name: bool, most: usize) -> Option<RosterFault>
        ensures reason { result ≡ refusal_in (λ _. is_name) most self.now name.now }
        ensures formed { IfNone result (is_name ≡ true) }
    {
        if !is_name {
            Some(RosterFault::BadName)
        } else if self.find(name).is_some() {
            Some(RosterFault::Duplicate)
        } else if self.len() < most {
            None
        } else {
            Some(RosterFault::TooMany)
        }
    }

    /// A law: each entry is found under its name.
    pub(crate) fn finds_each_name(&self)
        ensures { (place : ℕ) (name : List ℕ) → option_map (λ entry. entry.0) (slice_get self.now place) ≡ Some name → place_in self.now name ≡ Some place }
    {
        let _ = self.entries.len();
    }

    /// Adds an entry as the last one, under a new name. If memory is short, nothing changes.
    pub(crate) fn push(&mut self, name: &[u8], value: V) -> Result<(), RosterFault>
        requires text { IsUtf8 name.now }
        requires absent { place_in self.old name.now ≡ None }
        ensures added { OnOk result (self.new ≡ self.old ++ (name.now, value) ∷ []) }
        ensures unchanged { OnErr result (self.new ≡ self.old) }
        ensures memory { IfErr result (λ fault. fault ≡ RosterFault.NoMemory) }
    {
        let word = word_of(name);
        let place = self.entries.len();
        let Ok(_) = self.words.push(word) else {
            return Err(RosterFault::NoMemory);
        };
        let Ok(_) = self.values.push(value) else {
            let _ = self.words.pop();
            return Err(RosterFault::NoMemory);
        };
        if !put_last(&mut self.entries, name, value) {
            let _ = self.words.pop();
            let _ = self.values.pop();
            return Err(RosterFault::NoMemory);
        }
        self.hints.set(word, place);
        Ok(())
    }
}

/// Adds an entry under a new name. Returns whether there was memory for it.
fn put_last<V: Copy>(entries: &mut IndexMap<String, V>, name: &[u8], value: V) -> bool
    requires unique { IsUnique string_eq entries.old }
    requires text { IsUtf8 name.now }
    requires absent { place_in (named entries.old.entries) name.now ≡ None }
    ensures added { MatchBool result (named entries.new.entries ≡ named entries.old.entries ++ (name.now, value) ∷ []) (entries.new.entries ≡ entries.old.entries) }
    ensures unique { IsUnique string_eq entries.new }
{
    let text = std::str::from_utf8(name).unwrap();
    let Ok(owned) = String::from_str(*entries.allocator(), text) else {
        return false;
    };
    let Ok(_) = entries.insert(owned, value) else {
        return false;
    };
    true
}

/// A text of at most eight bytes, none of them 0, as one number; 0 for any other text.
fn word_of(text: &[u8]) -> u64
    ensures { result ≡ word_of text.now }
{
    if text.len() > 8 {
        return 0;
    }
    let mut word = 0u64;
    for c in text {
        if *c == 0 {
            return 0;
        }
        word = word * 256 + u64::from(*c);
    }
    word
}
