//! Reading the rows of a file, one after another: `specs/Rows`.
ghost use Rattle.std.specs.Prelude.{◌≡◌, ℕ, ◌++◌, ◌∷◌, [], List, Option, Bool, true, false, Ok};
ghost use Rattle.csv.specs.Records.{fields_of};
ghost use Rattle.csv.specs.declared.parser.Config.{Config};
ghost use Rattle.nms_lines.specs.Layout.{Record};
ghost use Rattle.nms_import.specs.Rows.{AreAllRows, RowsFrom, unread, row_config};

use crate::import_fault::ImportFault;
use crate::row_source::RowSource;
use csv::{ByteRecord, Reader, ReaderBuilder};
use std::alloc::Global;
use std::io::Read;

/// A reader of a file's rows: one delimiter, double quotes or none, rows of any length. Blank lines and a byte order mark
/// at the start are dropped.
pub fn open_rows<R: Read>(
    alloc: Global,
    delimiter: u8,
    quotes: bool,
    source: R,
) -> Reader<RowSource<R>>
    ensures { RowsFrom (row_config delimiter quotes) (unread R.remaining) result (R.remaining source) [] }
{
    let rows = RowSource::new(alloc, source);
    ReaderBuilder::new()
        .has_headers(false)
        .flexible(true)
        .delimiter(delimiter)
        .quoting(quotes)
        .from_reader(alloc, rows)
}

/// The line on which the last row that was read begins, as an editor counts lines, from 1. It is 0 before the first row.
pub fn line_of<R: Read>(reader: &Reader<RowSource<R>>, row: &ByteRecord) -> u64 {
    match row.position() {
        Some(position) => reader.get_ref().line(position.line()),
        None => 0,
    }
}

/// Reads the next row, and returns whether there was one. After `ReadFault` or `NoMemory` there are no further rows.
pub fn next_row<R: Read>(
    reader: &mut Reader<RowSource<R>>,
    row: &mut ByteRecord,
) -> Result<bool, ImportFault>
    ensures found { (config : Config) (bytes : Option (List ℕ)) (seen : List Record)
        → RowsFrom config (unread R.remaining) reader.old bytes seen → result ≡ Ok true
        → RowsFrom config (unread R.remaining) reader.new bytes (seen ++ fields_of row.new ∷ []) }
    ensures end { (config : Config) (bytes : Option (List ℕ)) (seen : List Record)
        → RowsFrom config (unread R.remaining) reader.old bytes seen → result ≡ Ok false → AreAllRows config bytes seen }
{
    reader.get_ref().begin_row(reader.position().byte);
    let next = reader.read_byte_record(row);
    if reader.get_ref().is_out_of_memory() {
        return Err(ImportFault::NoMemory);
    }
    match next {
        Ok(found) => Ok(found),
        Err(error) if error.is_io_error() => Err(ImportFault::ReadFault),
        Err(_) => Err(ImportFault::NoMemory),
    }
}
