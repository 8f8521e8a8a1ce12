//! What a mapping's document has at each key: `specs/Drafts`.
ghost use Rattle.std.specs.Prelude.{◌≡◌, map, option_map};
ghost use Rattle.toml.specs.Data.{get_member};
ghost use Rattle.toml.specs.View.{table_view, view};
ghost use Rattle.nms_import.specs.Drafts.{items_in, name_of, table_in, written_as};

use crate::keys::{KEYS, Kind, Row};
use toml::{Table, Value};

/// A name in a document that is taken for a key, because that key is absent.
#[derive(Clone, Copy)]
pub struct Meant<'a> {
    /// The key's table, empty for the top.
    pub table: &'static str,
    /// The key.
    pub key: &'static str,
    /// The name that the document has in place of the key.
    pub written: &'a str,
}

/// A mapping's document, with the names in it that are taken for keys.
#[derive(Clone, Copy)]
pub struct Draft<'a> {
    /// The keys of all mappings.
    pub keys: &'static [Row],
    /// What the mapping is for: quotes, quotes of one side, trades or national bests.
    pub kind: Kind,
    /// The document that was read.
    pub document: &'a Table,
    /// The names in the document that are taken for absent keys.
    pub meant: &'a [Meant<'a>],
}

impl<'a> Draft<'a> {
    ghost use Rattle.std.specs.Prelude.{◌≡◌, map, option_map};
    ghost use Rattle.toml.specs.View.{table_view, view};
    ghost use Rattle.nms_import.specs.Drafts.{doc_of, is_flagged, items_at, members_at, plain, text_at, value_at};

    /// A document in which each name is taken as it is written, and none for another key.
    #[tactic(auto, unfolding(crate::specs::Keys::all_keys))]
    pub fn new(kind: Kind, document: &'a Table) -> Draft<'a>
        ensures { doc_of result ≡ plain kind (table_view document.now) }
    {
        Draft {
            keys: &KEYS,
            kind,
            document,
            meant: &[],
        }
    }

    /// The members of a table, if the document has it.
    pub fn members(self, table: &str) -> Option<&'a Table>
        ensures { option_map (λ it. table_view it.now) result ≡ members_at (doc_of self.entry) table.now }
    {
        if table.is_empty() {
            return Some(self.document);
        }
        table_in(self.document, written_as(self.meant, "", table))
    }

    /// The value at a key.
    pub fn value(self, table: &str, key: &str) -> Option<&'a Value>
        ensures { option_map (λ it. view it.now) result ≡ value_at (doc_of self.entry) table.now key.now }
    {
        match self.members(table) {
            Some(members) => value_in(members, written_as(self.meant, table, key)),
            None => None,
        }
    }

    /// The text at a key, if there is one.
    pub fn text(self, table: &str, key: &str) -> Option<&'a str>
        ensures { option_map (λ it. it.now) result ≡ text_at (doc_of self.entry) table.now key.now }
    {
        match self.value(table, key) {
            Some(value) => value.as_str(),
            None => None,
        }
    }

    /// Whether the value at a key is `true`.
    pub fn is_flagged(self, table: &str, key: &str) -> bool
        ensures { result ≡ is_flagged (doc_of self.entry) table.now key.now }
    {
        match self.value(table, key) {
            Some(value) => value.as_bool() == Some(true),
            None => false,
        }
    }

    /// The elements of the array at a key; none if there is no array.
    pub fn items(self, table: &str, key: &str) -> &'a [Value]
        ensures { map view result.now ≡ items_at (doc_of self.entry) table.now key.now }
    {
        let Some(value) = self.value(table, key) else {
            return &[];
        };
        match items_in(value) {
            Some(items) => items,
            None => &[],
        }
    }
}

/// The name that a document has for a key: the name that is taken for the key, or the key itself.
pub fn written_as<'a>(meant: &[Meant<'a>], table: &str, key: &'a str) -> &'a str
    ensures { result.now ≡ written_as (map name_of meant.now) table.now key.now }
{
    for it in meant {
        if it.table == table && it.key == key {
            return it.written;
        }
    }
    key
}

/// The value of a table at a key.
pub(crate) fn value_in<'a>(table: &'a Table, key: &str) -> Option<&'a Value>
    ensures { option_map (λ value. view value.now) result ≡ get_member key.now (table_view table.now) }
{
    table.get(key)
}

/// The table at a key, if there is one.
fn table_in<'a>(table: &'a Table, key: &str) -> Option<&'a Table>
    ensures { option_map (λ it. table_view it.now) result ≡ table_in key.now (table_view table.now) }
{
    match value_in(table, key) {
        Some(value) => value.as_table(),
        None => None,
    }
}

/// The elements of a value that is an array.
pub fn items_in(value: &Value) -> Option<&[Value]>
    ensures { option_map (λ items. map view items.now) result ≡ items_in (view value.now) }
{
    match value.as_array() {
        Some(items) => Some(items.as_slice()),
        None => None,
    }
}
