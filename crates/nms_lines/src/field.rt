//! Reading a field of a record: `specs/Layout`.
ghost use Rattle.std.specs.Prelude.{◌≡◌};
ghost use Rattle.csv.specs.Records.{fields_of};
ghost use Rattle.nms_lines.specs.Layout.{field, is_text};

use csv::ByteRecord;

/// The field at a place of a record, counted from 0. It is empty if the record has no field there.
#[tactic(auto, using(crate::proofs::FieldFacts::field_at_lem))]
pub fn field(row: &ByteRecord, place: usize) -> &[u8]
    ensures { result.now ≡ field (fields_of row.now) place }
{
    match row.get(place) {
        Some(text) => text,
        None => &[],
    }
}

/// Whether a field is the given word.
pub(crate) fn is_word(text: &[u8], word: &[u8]) -> bool
    ensures { result ≡ is_text word.now text.now }
{
    text == word
}
