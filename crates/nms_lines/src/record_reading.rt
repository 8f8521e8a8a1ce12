//! Reading the records of a text, one after another: `specs/Records`.
ghost use Rattle.std.specs.Prelude.{◌≡◌, ℕ, ◌++◌, ◌∷◌, [], IfOk, List, Option, Some, OnErr, true, false, Ok, Err};
ghost use Rattle.csv.specs.Reading.{error_kind, is_io};
ghost use Rattle.csv.specs.Records.{fields_of};
ghost use Rattle.nms_lines.specs.Layout.{Record};
ghost use Rattle.nms_lines.specs.Left.{AreLeft};
ghost use Rattle.nms_lines.specs.Records.{AreAllRecords, HasStopped, ReadsFrom};

use crate::record_fault::RecordFault;
use csv::{ByteRecord, Error, Reader, ReaderBuilder};
use std::alloc::{AllocError, Global};
use std::io::Read;

/// A reader of the records of a text. Fields are separated by a comma and may be in double quotes, there is no header row, and
/// records may have any length. No field is trimmed; blank lines and a byte order mark at the start are dropped.
///
/// It takes no memory before the first read.
pub fn open_records<R: Read>(alloc: Global, source: R) -> Reader<R>
    ensures reads { ReadsFrom R.remaining result (R.remaining source) [] }
    ensures left { (bytes : List ℕ) (records : List Record) → R.remaining source ≡ Some bytes
        → AreAllRecords (Some bytes) records → AreLeft R.remaining result records }
{
    ReaderBuilder::new()
        .has_headers(false)
        .flexible(true)
        .from_reader(alloc, source)
}

/// A buffer for one record of usual length: 64 fields, and 1,024 bytes. A buffer without room grows by doubling, and then the
/// reader takes most records in two parts. If out of memory, the buffer starts without room and takes memory as it grows.
pub fn open_row(alloc: Global) -> ByteRecord
    ensures { fields_of result ≡ [] }
{
    match ByteRecord::with_capacity(alloc, 1024, 64) {
        Ok(row) => row,
        Err(_) => ByteRecord::new(alloc),
    }
}

/// A reader of the records of a text, with an empty header row set before the first read. So the reader looks for no header and
/// keeps no copy of the first record. Then no read takes memory if the buffer has room for the record.
pub(crate) fn open_bare_records<R: Read + Drop>(
    alloc: Global,
    source: R,
) -> Result<Reader<R>, AllocError>
    ensures left { (bytes : List ℕ) (records : List Record) → R.remaining source ≡ Some bytes
        → AreAllRecords (Some bytes) records → IfOk result (λ reader. AreLeft R.remaining reader records) }
{
    let mut reader = ReaderBuilder::new()
        .has_headers(true)
        .flexible(true)
        .from_reader(alloc, source);
    match reader.set_byte_headers(ByteRecord::new(alloc)) {
        Ok(()) => Ok(reader),
        Err(_) => Err(AllocError),
    }
}

/// Reads the next record into `row`. Returns whether there was one.
///
/// `Failed` is an error of the source. `NoMemory` means that there was no memory for the row or the source's error. After
/// either the reader has stopped, so each later read returns that there is no record.
pub fn read_next<R: Read>(reader: &mut Reader<R>, row: &mut ByteRecord) -> Result<bool, RecordFault>
    ensures found { (bytes : Option (List ℕ)) (seen : List Record)
        → ReadsFrom R.remaining reader.old bytes seen → result ≡ Ok true
        → ReadsFrom R.remaining reader.new bytes (seen ++ fields_of row.new ∷ []) }
    ensures end { (bytes : Option (List ℕ)) (seen : List Record)
        → ReadsFrom R.remaining reader.old bytes seen → result ≡ Ok false → AreAllRecords bytes seen }

    // The record is the first of those that remained. If there is no record, none remained.
    ensures more { (left : List Record) → AreLeft R.remaining reader.old left → result ≡ Ok true
        → (more : List Record) × (left ≡ fields_of row.new ∷ more) × AreLeft R.remaining reader.new more }
    ensures none { (left : List Record) → AreLeft R.remaining reader.old left → result ≡ Ok false → left ≡ [] }

    // After a fault there are no further records, and what was read before is the beginning of the text.
    ensures stopped { (bytes : Option (List ℕ)) (seen : List Record)
        → ReadsFrom R.remaining reader.old bytes seen → OnErr result (HasStopped reader.new) }
    ensures over { HasStopped reader.old → result ≡ Ok false }
{
    match reader.read_byte_record(row) {
        Ok(found) => Ok(found),
        Err(error) => Err(fault_of(&error)),
    }
}

/// Whether the source failed. A reader of these layouts has no other error except out of memory.
fn fault_of(error: &Error) -> RecordFault
    ensures failed { is_io (error_kind error.now) ≡ true → result ≡ RecordFault.Failed }
    ensures memory { is_io (error_kind error.now) ≡ false → result ≡ RecordFault.NoMemory }
{
    if error.is_io_error() {
        RecordFault::Failed
    } else {
        RecordFault::NoMemory
    }
}
