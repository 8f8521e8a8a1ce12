//! A mapping: how a vendor's file is laid out, which columns are read, and what their texts mean.
ghost use Rattle.std.specs.Prelude.{◌≡◌, ◌<◌, max, IfErr, IfOk, IfSome, OnErr, Some, true};
ghost use Rattle.csv.specs.Records.{field_at, fields_of};
ghost use Rattle.nms_import.specs.Placing.{IsPlaced, columns_needed};
ghost use Rattle.nms_import.specs.Refusals.{is_of_first_row};

use crate::column::{Column, Columns, RowColumns};
use crate::map_fault::MapFault;
use crate::meanings::Meanings;
use csv::ByteRecord;
use std::alloc::Global;

/// How a file is laid out.
#[derive(Clone, Copy)]
pub struct FileForm {
    /// The byte between fields.
    pub delimiter: u8,
    /// Whether the first row names the columns.
    pub header: bool,
    /// Whether a double quote quotes; else it is a byte like any other.
    pub quotes: bool,
    /// The place, counted from 0, of the field of a last line that counts the rows before it.
    pub count: Option<u16>,
}

/// What a mapping says about the order of a file's rows.
#[derive(Clone, Copy, PartialEq, Eq)]
pub enum Order {
    /// No time is before that of an earlier row.
    Given,
    /// No time is before that of an earlier row of the same symbol.
    Symbol,
    /// The order is not known: times may fall, and no version is found by its time.
    Free,
}

/// What a mapping says about a column.
pub enum Source {
    /// The column's place, counted from 0.
    Place(u16),
    /// The column's name in the first row.
    Named(Vec<u8>),
    /// The same text in every row.
    Fixed(Vec<u8>),
    /// Some bits of the number in the column at a place, counted from 0.
    PlaceBits(u16, u16),
    /// Some bits of the number in the column that has a name in the first row.
    NamedBits(Vec<u8>, u16),
}

/// A column has its own `Drop`. A function that holds one has one call at each exit, and not one for each part (docs/GATE.md).
impl Drop for Source {
    fn drop(self) {
        match self {
            Source::Place(_) => (),
            Source::Named(_) => (),
            Source::Fixed(_) => (),
            Source::PlaceBits(_, _) => (),
            Source::NamedBits(_, _) => (),
        }
    }
}

/// What a mapping says about the columns.
pub struct Sources {
    /// The key of the participant's column.
    pub(crate) participant_key: &'static str,
    /// The keys of the columns of the bid and of its size.
    pub(crate) bid_keys: (&'static str, &'static str),
    /// The keys of the columns of the offer and of its size.
    pub(crate) offer_keys: (&'static str, &'static str),
    pub(crate) time: Source,
    pub(crate) participant: Source,
    pub(crate) symbol: Source,
    pub(crate) bid: Source,
    pub(crate) bid_size: Source,
    pub(crate) offer: Source,
    pub(crate) offer_size: Source,
    pub(crate) side: Source,
    pub(crate) source: Source,
    pub(crate) condition: Source,
    pub(crate) skip: Source,
}

/// The columns have their own `Drop`. A function that holds them has one call at each exit, and not one for each column
/// (docs/GATE.md).
impl Drop for Sources {
    fn drop(self) {
        let Sources {
            participant_key: _,
            bid_keys: _,
            offer_keys: _,
            time: _,
            participant: _,
            symbol: _,
            bid: _,
            bid_size: _,
            offer: _,
            offer_size: _,
            side: _,
            source: _,
            condition: _,
            skip: _,
        } = self;
    }
}

/// A mapping: how the rows of a vendor's file are read.
pub struct Mapping {
    /// How the file is laid out.
    pub file: FileForm,
    /// The order of the file's rows.
    pub order: Order,
    /// What the texts of the file mean.
    pub meanings: Meanings,
    /// The columns of a row; those of a bid, if each row has one side.
    pub(crate) sources: Sources,
    /// The columns of an offer, if each row has one side.
    pub(crate) offers: Option<Sources>,
}

/// A mapping has its own `Drop`. A function that holds one has one call at each exit, and not one for each part (docs/GATE.md).
impl Drop for Mapping {
    fn drop(self) {
        let Mapping {
            file: _,
            order: _,
            meanings: _,
            sources: _,
            offers: _,
        } = self;
    }
}

/// What is expected of a column's name that the file's first line lacks.
const A_COLUMN: &str = "the name of a column of the file's first line, letter for letter";

const ONE_COLUMN: &str = "a name that the file's first line has once";

impl Source {
    ghost use Rattle.std.specs.Prelude.{◌≡◌, true};
    ghost use Rattle.nms_import.specs.Readings.{is_nothing, is_within};

    /// A column that is the empty text in every row.
    pub fn nothing(alloc: Global) -> Source
        ensures nothing { is_nothing result ≡ true }
        ensures within { is_within result ≡ true }
    {
        Source::Fixed(Vec::new(alloc))
    }
}

impl Mapping {
    ghost use Rattle.std.specs.Prelude.{◌≡◌, IfErr, IfOk, true};
    ghost use Rattle.csv.specs.Records.{fields_of};
    ghost use Rattle.nms_import.specs.Placing.{ArePlaced, AreRowsPlaced};
    ghost use Rattle.nms_import.specs.Refusals.{is_of_first_row};

    /// The columns of a file whose first row is `names`; `names` is empty if the file has no header.
    ///
    /// `NoColumn` is the first key of the table `column` whose name the row lacks.
    pub fn columns(&self, alloc: Global, names: &ByteRecord) -> Result<Columns, MapFault<'static>>
        ensures placed { IfOk result (λ columns. ArePlaced self.now.sources (fields_of names.now) columns) }
        ensures fault { IfErr result (λ fault. is_of_first_row fault ≡ true) }
    {
        self.sources.columns(alloc, names)
    }

    /// How the rows of a file whose first row is `names` are read: by one set of columns, or by one set for each side.
    pub fn row_columns(
        &self,
        alloc: Global,
        names: &ByteRecord,
    ) -> Result<RowColumns, MapFault<'static>>
        ensures placed { IfOk result (AreRowsPlaced self.now.sources self.now.offers (fields_of names.now)) }
        ensures fault { IfErr result (λ fault. is_of_first_row fault ≡ true) }
    {
        let own = self.sources.columns(alloc, names)?;
        match &self.offers {
            None => Ok(RowColumns::Both(own)),
            Some(offers) => match offers.columns(alloc, names) {
                Ok(offers) => Ok(RowColumns::One(own, offers)),
                Err(fault) => Err(fault),
            },
        }
    }
}

impl Sources {
    ghost use Rattle.std.specs.Prelude.{◌≡◌, IfErr, IfOk, true};
    ghost use Rattle.csv.specs.Records.{fields_of};
    ghost use Rattle.nms_import.specs.Placing.{ArePlaced};
    ghost use Rattle.nms_import.specs.Refusals.{is_of_first_row};

    /// The columns of a file whose first row is `names`.
    fn columns(&self, alloc: Global, names: &ByteRecord) -> Result<Columns, MapFault<'static>>
        ensures placed { IfOk result (λ columns. ArePlaced self.now (fields_of names.now) columns) }
        ensures fault { IfErr result (λ fault. is_of_first_row fault ≡ true) }
    {
        let mut all = Columns::none(alloc);
        let width = &mut all.width;
        all.time = place_of(alloc, &self.time, "time", names, width)?;
        all.participant = place_of(alloc, &self.participant, self.participant_key, names, width)?;
        all.symbol = place_of(alloc, &self.symbol, "symbol", names, width)?;
        all.side = place_of(alloc, &self.side, "side", names, width)?;
        let (bid, bid_size) = self.bid_keys;
        all.bid = place_of(alloc, &self.bid, bid, names, width)?;
        all.bid_size = place_of(alloc, &self.bid_size, bid_size, names, width)?;
        let (offer, offer_size) = self.offer_keys;
        all.offer = place_of(alloc, &self.offer, offer, names, width)?;
        all.offer_size = place_of(alloc, &self.offer_size, offer_size, names, width)?;
        all.source = place_of(alloc, &self.source, "condition", names, width)?;
        all.condition = place_of(alloc, &self.condition, "condition", names, width)?;
        all.skip = place_of(alloc, &self.skip, "skip", names, width)?;
        Ok(all)
    }
}

/// The place of a key's column in a file whose first row is `names`. `width`, the number of columns that a row needs, grows if
/// the column is beyond it. `NoColumn` comes if the first row lacks the column's name, or has it twice.
pub fn place_of(
    alloc: Global,
    source: &Source,
    key: &'static str,
    names: &ByteRecord,
    width: &mut usize,
) -> Result<Column, MapFault<'static>>
    ensures placed { IfOk result (λ column. IsPlaced source.now (fields_of names.now) column) }
    ensures width { IfOk result (λ column. width.new ≡ max width.old (columns_needed column)) }
    ensures kept { OnErr result (width.new ≡ width.old) }
    ensures fault { IfErr result (λ fault. is_of_first_row fault ≡ true) }
{
    match source {
        Source::Place(place) => {
            let place = usize::from(*place);
            *width = (*width).max(place + 1);
            Ok(Column::At(place))
        }
        Source::PlaceBits(place, bits) => {
            let place = usize::from(*place);
            *width = (*width).max(place + 1);
            Ok(Column::Bits(place, *bits))
        }
        Source::Fixed(text) => Ok(Column::Fixed(Vec::from_slice(alloc, text)?)),
        Source::Named(name) => {
            let place = only_named(names, name, key)?;
            *width = (*width).max(place + 1);
            Ok(Column::At(place))
        }
        Source::NamedBits(name, bits) => {
            let place = only_named(names, name, key)?;
            *width = (*width).max(place + 1);
            Ok(Column::Bits(place, *bits))
        }
    }
}

/// The place of the column of that name, if the row has it once.
fn only_named(
    names: &ByteRecord,
    name: &[u8],
    key: &'static str,
) -> Result<usize, MapFault<'static>>
    ensures place { IfOk result (λ place. place < 18446744073709551615) }
    ensures name { IfOk result (λ place. field_at (fields_of names.now) place ≡ Some name.now) }
    ensures fault { IfErr result (λ fault. is_of_first_row fault ≡ true) }
{
    match named(names, name) {
        Some(place) if is_later(names, name, place) => {
            let expected = ONE_COLUMN;
            Err(MapFault::NoColumn { key, expected })
        }
        Some(place) => Ok(place),
        None => {
            let expected = A_COLUMN;
            Err(MapFault::NoColumn { key, expected })
        }
    }
}

/// Whether a column after a place has the given name.
fn is_later(names: &ByteRecord, name: &[u8], place: usize) -> bool
    requires { place < 18446744073709551615 }
{
    for later in place + 1..names.len() {
        if names.get(later) == Some(name) {
            return true;
        }
    }
    false
}

/// The place of the first column with the given name.
fn named(names: &ByteRecord, name: &[u8]) -> Option<usize>
    ensures place { IfSome result (λ place. place < 18446744073709551615) }
    ensures name { IfSome result (λ place. field_at (fields_of names.now) place ≡ Some name.now) }
{
    for place in 0..names.len() {
        if names.get(place) == Some(name) {
            return Some(place);
        }
    }
    None
}
