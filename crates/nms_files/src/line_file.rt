//! Files with lines of one kind, taken up to the first line that is refused (specs/LineFile).
ghost use Rattle.std.specs.Prelude.{◌≡◌, ℕ, ◌++◌, ◌∷◌, [], List, Option, None, Some, IfErr, IfOk, OnErr, OnOk};
ghost use Rattle.csv.specs.Records.{fields_of};
ghost use Rattle.nms_fees.specs.Settings.{Settings};
ghost use Rattle.nms_lines.specs.Layout.{Record};
ghost use Rattle.nms_lines.specs.Records.{AreAllRecords, ReadsFrom};
ghost use Rattle.nms_files.specs.LineFile.{HaveCome};

use nms_fees::Setup;
use nms_lines::{ByteRecord, Reader, RecordFault, open_records, open_row, read_next};
use std::alloc::Global;
use std::io::Read;

/// A thing that each line of a file gives, such as a change or an order. All lines of one file give the same kind of thing.
pub trait FileItem: Sized + Drop {
    /// Why a line is refused.
    type Fault: Drop;

    // The relation that lines give these items, each at its place, and what else holds of them.
    ghost are_taken: { Settings → List Record → List Self → Type 0 };

    // Why one more line is refused after these items.
    ghost is_refused: { Settings → List Self → Record → Self.Fault → Type 0 };

    /// Takes what one more line gives, or refuses it.
    fn take_line(items: &mut Vec<Self>, setup: &Setup, row: &ByteRecord) -> Result<(), Self::Fault>
        ensures taken { (records : List Record) → are_taken setup.now records items.old.items
            → OnOk result (are_taken setup.now (records ++ fields_of row.now ∷ []) items.new.items) }
        ensures kept { OnErr result (items.new.items ≡ items.old.items) }
        ensures refused { IfErr result (is_refused setup.now items.old.items (fields_of row.now)) };
}

/// The result of the lines so far: the items that they give, and the fault of the first line that was refused.
#[derive(Drop)]
pub struct Taken<T, F> {
    items: Vec<T>,
    refused: Option<F>,
}

/// The items that the lines of a file give, up to the first refused line. The file is always read to its end.
pub(crate) fn read_items<R: Read + Drop, T: FileItem>(
    alloc: Global,
    setup: &Setup,
    source: R,
) -> Result<Taken<T, T::Fault>, RecordFault>
    requires { T.are_taken setup.now [] [] }
    ensures { IfOk result (λ taken. (records : List Record) × AreAllRecords (R.remaining source) records
        × HaveCome (T.are_taken setup.now) (T.is_refused setup.now) records taken.items.items taken.refused) }
{
    let mut reader = open_records(alloc, source);
    let mut row = open_row(alloc);
    let mut so_far = Taken {
        items: Vec::new(alloc),
        refused: None,
    };
    match take_lines(&mut reader, &mut row, setup, &mut so_far) {
        Ok(()) => Ok(so_far),
        Err(fault) => Err(fault),
    }
}

/// Takes the remaining lines.
fn take_lines<R: Read, T: FileItem>(
    reader: &mut Reader<R>,
    row: &mut ByteRecord,
    setup: &Setup,
    so_far: &mut Taken<T, T::Fault>,
) -> Result<(), RecordFault>
    ensures { (bytes : Option (List ℕ)) (seen : List Record) → ReadsFrom R.remaining reader.old bytes seen
        → HaveCome (T.are_taken setup.now) (T.is_refused setup.now) seen so_far.old.items.items so_far.old.refused
        → OnOk result ((records : List Record) × AreAllRecords bytes records
        × HaveCome (T.are_taken setup.now) (T.is_refused setup.now) records so_far.new.items.items so_far.new.refused) }
{
    for _ in 0..u64::MAX {
        match read_next(reader, row) {
            Ok(true) => take_next(so_far, setup, row),
            Ok(false) => return Ok(()),
            Err(fault) => return Err(fault),
        }
    }
    // This never happens, because no source has that number of records.
    Err(RecordFault::Failed)
}

/// Takes one more line. Lines after a refused one do not count.
fn take_next<T: FileItem>(so_far: &mut Taken<T, T::Fault>, setup: &Setup, row: &ByteRecord)
    ensures { (records : List Record) → HaveCome (T.are_taken setup.now) (T.is_refused setup.now) records so_far.old.items.items so_far.old.refused
        → HaveCome (T.are_taken setup.now) (T.is_refused setup.now) (records ++ fields_of row.now ∷ []) so_far.new.items.items so_far.new.refused }
{
    if so_far.refused.is_none() {
        so_far.refused = T::take_line(&mut so_far.items, setup, row).err();
    }
}

/// The items that the lines give, unless a line was refused.
pub(crate) fn outcome<T: Drop, F>(taken: Taken<T, F>) -> Result<Vec<T>, F>
    ensures items { IfOk result (λ items. (items ≡ taken.items) × (taken.refused ≡ None)) }
    ensures fault { IfErr result (λ fault. taken.refused ≡ Some fault) }
{
    let Taken { items, refused } = taken;
    match refused {
        None => Ok(items),
        Some(fault) => Err(fault),
    }
}
