//! The bytes of a field of a record.
ghost use Rattle.std.specs.Prelude.{◌≡◌};
ghost use Rattle.csv.specs.Records.{fields_of};
ghost use Rattle.nms_lines.specs.Layout.{field};

use nms_lines::ByteRecord;

/// The bytes of the field of a record after n others; none after the last field.
pub(crate) fn text_at(row: &ByteRecord, place: usize) -> &[u8]
    ensures { result.now ≡ field (fields_of row.now) place }
{
    nms_lines::field_at(row, place)
}
