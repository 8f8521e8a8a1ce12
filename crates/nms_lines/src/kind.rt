//! The kind of a record, and the kinds that its source has: `specs/Layout` and `specs/Sources`.
ghost use Rattle.std.specs.Prelude.{◌≡◌, ◌∷◌, [], IfSome, true};
ghost use Rattle.csv.specs.Records.{fields_of};
ghost use Rattle.nms_lines.specs.Layout.{is_count, kind_named};
ghost use Rattle.nms_lines.specs.Sources.{brings, is_change_kind, kind_in};

use crate::field::field;
use crate::line::{Kind, Reading};
use csv::ByteRecord;

/// The kind that a record's first field names, if its source has it.
pub(crate) fn kind_in(row: &ByteRecord, from: Reading) -> Option<Kind>
    ensures kind { result ≡ kind_in from (fields_of row.now) }
    ensures brought { IfSome result (λ kind. brings from kind ≡ true) }
{
    match kind_named(field(row, 0)) {
        Some(kind) if brings(from, kind) => Some(kind),
        _ => None,
    }
}

/// The kind that a text names.
pub fn kind_named(text: &[u8]) -> Option<Kind>
    ensures { result ≡ kind_named text.now }
{
    match text {
        [letter] => kind_of_letter(*letter),
        _ => None,
    }
}

/// The kind that a letter names.
fn kind_of_letter(letter: u8) -> Option<Kind>
    ensures { result ≡ kind_named (letter ∷ []) }
{
    match letter {
        b'Q' => Some(Kind::Quote),
        b'S' => Some(Kind::State),
        b'X' => Some(Kind::Withdraw),
        b'R' => Some(Kind::Lot),
        b'T' => Some(Kind::TakeOne),
        b'F' => Some(Kind::TakeAll),
        b'P' => Some(Kind::Publish),
        b'L' => Some(Kind::Tell),
        b'N' => Some(Kind::Best),
        b'E' => Some(Kind::Through),
        b'O' => Some(Kind::Sweep),
        _ => None,
    }
}

/// Whether a source may have records of a kind.
fn brings(from: Reading, kind: Kind) -> bool
    ensures { result ≡ brings from kind }
{
    match from {
        Reading::Script { .. } => true,
        Reading::FromFeed(_) | Reading::Changes => is_change_kind(kind),
        Reading::Orders { .. } => kind == Kind::Sweep,
    }
}

fn is_change_kind(kind: Kind) -> bool
    ensures { result ≡ is_change_kind kind }
{
    match kind {
        Kind::Quote | Kind::State | Kind::Withdraw | Kind::Lot => true,
        Kind::TakeOne
        | Kind::TakeAll
        | Kind::Publish
        | Kind::Tell
        | Kind::Best
        | Kind::Through
        | Kind::Sweep => false,
    }
}

/// Whether a record of a kind may have this number of fields.
pub(crate) fn is_count(kind: Kind, fields: usize) -> bool
    ensures { result ≡ is_count kind fields }
{
    match kind {
        Kind::TakeOne | Kind::TakeAll | Kind::Publish => fields == 1,
        Kind::Withdraw | Kind::Tell => fields == 2,
        Kind::Best => fields == 3,
        Kind::Lot => fields == 3 || fields == 4,
        Kind::State | Kind::Through => fields == 4,
        Kind::Sweep => fields == 6 || fields == 7 || fields == 8,
        Kind::Quote => fields == 8,
    }
}
