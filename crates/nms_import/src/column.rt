//! The columns of a file: `specs/Mapping`.
ghost use Rattle.std.specs.Prelude.{◌≡◌};
ghost use Rattle.csv.specs.Records.{fields_of};
ghost use Rattle.nms_import.specs.Mapping.{bits_text, column_text, columns_of, columns_of_side, side_in};

use crate::meanings::Meanings;
use crate::words::side_in;
use csv::ByteRecord;
use nms_lines::field_at;
use nms_quote::Side;
use nms_units::parse_digits;
use std::alloc::Global;

/// The source of a text of a row.
#[derive(Drop)]
pub enum Column {
    /// The field at a place, counted from 0.
    At(usize),
    /// The same text in every row.
    Fixed(Vec<u8>),
    /// `1` if the number in the field at a place, counted from 0, has any of the given bits, and `0` if it has none.
    Bits(usize, u16),
}

/// The columns that a mapping reads, in one file.
pub struct Columns {
    /// How many columns a row needs: one more than the greatest place, counted from 0, of a column that is read.
    pub width: usize,
    /// The time of day.
    pub time: Column,
    /// The participant that quotes.
    pub participant: Column,
    /// The symbol that is quoted.
    pub symbol: Column,
    /// The price of the bid.
    pub bid: Column,
    /// The size of the bid.
    pub bid_size: Column,
    /// The price of the offer.
    pub offer: Column,
    /// The size of the offer.
    pub offer_size: Column,
    /// The word for the row's side, if each row has one side.
    pub side: Column,
    /// The first of the two texts of the condition. It is empty if the condition has only one column.
    pub source: Column,
    /// The second text of the condition, or its only one.
    pub condition: Column,
    /// The text that says whether a row is skipped. The mapping lists the words to skip.
    pub skip: Column,
}

/// The columns have their own `Drop`. A function that holds them has one call at each exit, and not one for each column
/// (docs/GATE.md).
impl Drop for Columns {
    fn drop(self) {
        let Columns {
            width: _,
            time: _,
            participant: _,
            symbol: _,
            bid: _,
            bid_size: _,
            offer: _,
            offer_size: _,
            side: _,
            source: _,
            condition: _,
            skip: _,
        } = self;
    }
}

impl Columns {
    /// Columns that read nothing: each of them gives the empty text in every row.
    pub(crate) fn none(alloc: Global) -> Columns
        ensures { result.width ≡ 0 }
    {
        Columns {
            width: 0,
            time: Column::Fixed(Vec::new(alloc)),
            participant: Column::Fixed(Vec::new(alloc)),
            symbol: Column::Fixed(Vec::new(alloc)),
            bid: Column::Fixed(Vec::new(alloc)),
            bid_size: Column::Fixed(Vec::new(alloc)),
            offer: Column::Fixed(Vec::new(alloc)),
            offer_size: Column::Fixed(Vec::new(alloc)),
            side: Column::Fixed(Vec::new(alloc)),
            source: Column::Fixed(Vec::new(alloc)),
            condition: Column::Fixed(Vec::new(alloc)),
            skip: Column::Fixed(Vec::new(alloc)),
        }
    }
}

/// How the rows of one file are read.
pub enum RowColumns {
    /// Each row has both sides.
    Both(Columns),
    /// Each row has one side. It is read by the columns of a bid or by those of an offer, where the other side is empty.
    One(Columns, Columns),
}

/// The columns have their own `Drop`. A function that holds them has one call at each exit, and not one for each column
/// (docs/GATE.md).
impl Drop for RowColumns {
    fn drop(self) {
        match self {
            RowColumns::Both(_) => (),
            RowColumns::One(_, _) => (),
        }
    }
}

impl RowColumns {
    /// The columns by which a row is read. If each row has one side, they are the columns of that side.
    pub fn of_row<'a>(&'a self, meanings: &Meanings, row: &ByteRecord) -> &'a Columns
        ensures { result.now ≡ columns_of self.now meanings.now (fields_of row.now) }
    {
        match self {
            RowColumns::Both(columns) => columns,
            RowColumns::One(bids, offers) => {
                columns_of_side(bids, offers, side_in(&meanings.sides, bids.side.text(row)))
            }
        }
    }
}

/// The columns of a side; those of a bid, if the side is not known.
fn columns_of_side<'a>(bids: &'a Columns, offers: &'a Columns, side: Option<Side>) -> &'a Columns
    ensures { result.now ≡ columns_of_side bids.now offers.now side }
{
    match side {
        Some(Side::Bid) | None => bids,
        Some(Side::Offer) => offers,
    }
}

impl Column {
    /// The text of the column in a row. It is empty if the row has no such field.
    pub fn text<'a>(&'a self, row: &'a ByteRecord) -> &'a [u8]
        ensures { result.now ≡ column_text self.now (fields_of row.now) }
    {
        match self {
            Column::At(place) => field_at(row, *place),
            Column::Fixed(text) => text.as_slice(),
            Column::Bits(place, bits) => bits_text(field_at(row, *place), *bits),
        }
    }
}

/// `1` if the text is a number of at most nine digits with any of the given bits, and `0` if it has none. Any other text stays
/// as it is.
fn bits_text(text: &[u8], bits: u16) -> &[u8]
    ensures { result.now ≡ bits_text bits text.now }
{
    match parse_digits(text, 9) {
        Some(number) if number & u64::from(bits) == 0 => b"0",
        Some(_) => b"1",
        None => text,
    }
}
