//! The tables of a setup's document: `specs/Tables`.
ghost use Rattle.std.specs.Prelude.{◌≡◌};
ghost use Rattle.nms_setup_places.specs.Tables.{array_key, is_key_of, keys_of, row_table};

use crate::known_key::KnownKey;
use nms_fees::{is_participant_key, is_symbol_key, is_top_key};

/// The two arrays of tables in a setup.
#[derive(Clone, Copy)]
pub enum SetupArray {
    /// The array `participant`.
    Participant,
    /// The array `symbol`.
    Symbol,
}

/// A table of a setup's document.
#[derive(Clone, Copy, PartialEq, Eq)]
pub enum SetupTable {
    /// The document itself.
    Top,
    /// An element of the array `participant`, by its place, counted from 0.
    Participant(usize),
    /// An element of the array `symbol`, by its place, counted from 0.
    Symbol(usize),
}

impl SetupArray {
    /// The key of a document under which the array is found.
    pub fn key(self) -> KnownKey
        ensures { result ≡ array_key self }
    {
        match self {
            SetupArray::Participant => KnownKey::Participant,
            SetupArray::Symbol => KnownKey::Symbol,
        }
    }

    /// The element of the array at a place, counted from 0.
    pub fn element(self, place: usize) -> SetupTable
        ensures { result ≡ row_table self place }
    {
        match self {
            SetupArray::Participant => SetupTable::Participant(place),
            SetupArray::Symbol => SetupTable::Symbol(place),
        }
    }
}

impl SetupTable {
    /// The keys that are allowed in the table.
    pub fn keys(self) -> &'static [KnownKey]
        ensures { result.now ≡ keys_of self }
    {
        match self {
            SetupTable::Top => &[
                KnownKey::TapeLimit,
                KnownKey::Queue,
                KnownKey::Desks,
                KnownKey::Caps,
                KnownKey::Feeds,
                KnownKey::Participant,
                KnownKey::Symbol,
            ],
            SetupTable::Participant(_) => {
                &[
                    KnownKey::Name,
                    KnownKey::Feed,
                    KnownKey::Fee,
                    KnownKey::Rate,
                ]
            }
            SetupTable::Symbol(_) => &[KnownKey::Name, KnownKey::Lot],
        }
    }

    /// Whether a text is a key that is allowed in the table.
    pub fn has_key(self, key: &str) -> bool
        ensures { result ≡ is_key_of self key.now }
    {
        match self {
            SetupTable::Top => is_top_key(key),
            SetupTable::Participant(_) => is_participant_key(key),
            SetupTable::Symbol(_) => is_symbol_key(key),
        }
    }
}
