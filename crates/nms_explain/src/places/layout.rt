//! The layouts of records, kind by kind: the names of their fields (`specs/FieldNames`), and the texts about them for people.
ghost use Rattle.std.specs.Prelude.{◌≡◌, ◌≤◌, length, true};
ghost use Rattle.csv.specs.Records.{fields_of};
ghost use Rattle.nms_lines.specs.Layout.{field, is_count, kind_named};
ghost use Rattle.nms_explain.specs.FieldNames.{field_named, names_due, names_in, names_of, plan_names};

use super::field_name::FieldName;
use super::place::FieldPlace;
use super::record_field::text_at;
use nms_lines::{ByteRecord, Kind, PlanRecord, Reading, kind_named};

/// The kind that a record's first field names, whatever kinds its source allows.
pub(crate) fn kind_of(row: &ByteRecord) -> Option<Kind>
    ensures { result ≡ kind_named (field (fields_of row.now) 0) }
{
    kind_named(text_at(row, 0))
}

/// The field of a record after n others, with the name that such a field has in a record of that kind.
pub(crate) fn field_in(row: &ByteRecord, place: u8) -> FieldPlace
    ensures { result ≡ field_named (names_in (fields_of row.now)) place }
{
    match kind_of(row) {
        Some(kind) => field_named(names_of(kind, row.len()), place),
        None => field_named(&[], place),
    }
}

/// The field after n others of the record of a plan that is due next, with its name.
pub(crate) fn plan_field_in(due: Option<PlanRecord>, place: u8) -> FieldPlace
    ensures { result ≡ field_named (names_due due) place }
{
    match due {
        Some(sort) => field_named(plan_names(sort), place),
        None => field_named(&[], place),
    }
}

/// The field after n others of a record whose fields have the given names. A field past the last name is called a kind.
fn field_named(names: &[FieldName], place: u8) -> FieldPlace
    ensures { result ≡ field_named names.now place }
{
    let place = place as usize;
    match names.get(place) {
        Some(name) => FieldPlace::at(place, *name),
        None => FieldPlace::at(place, FieldName::Kind),
    }
}

/// The most fields that a record of its kind has; none if it has no kind.
pub(crate) fn most_fields(row: &ByteRecord) -> usize {
    kind_of(row).map_or(0, |kind| names_of(kind, row.len()).len())
}

/// The names of the fields of a record of a kind with `count` fields. If the kind never has `count` fields, they are the names
/// of its longest record.
fn names_of(kind: Kind, count: usize) -> &'static [FieldName]
    ensures names { result.now ≡ names_of kind count }
    ensures each { is_count kind count ≡ true → count ≤ length result.now }
{
    match kind {
        Kind::Quote => &[
            FieldName::Kind,
            FieldName::Participant,
            FieldName::Symbol,
            FieldName::State,
            FieldName::Bid,
            FieldName::BidShares,
            FieldName::Offer,
            FieldName::OfferShares,
        ],
        Kind::State => &[
            FieldName::Kind,
            FieldName::Participant,
            FieldName::Symbol,
            FieldName::State,
        ],
        Kind::Withdraw => &[FieldName::Kind, FieldName::Participant],
        Kind::Lot if count == 3 => &[FieldName::Kind, FieldName::Symbol, FieldName::Lot],
        Kind::Lot => &[
            FieldName::Kind,
            FieldName::Symbol,
            FieldName::Average,
            FieldName::Price,
        ],
        Kind::TakeOne | Kind::TakeAll | Kind::Publish => &[FieldName::Kind],
        Kind::Tell => &[FieldName::Kind, FieldName::Desk],
        Kind::Best => &[FieldName::Kind, FieldName::Desk, FieldName::Symbol],
        Kind::Through => &[
            FieldName::Kind,
            FieldName::Desk,
            FieldName::Symbol,
            FieldName::Price,
        ],
        Kind::Sweep => &[
            FieldName::Kind,
            FieldName::Desk,
            FieldName::Side,
            FieldName::Symbol,
            FieldName::Shares,
            FieldName::Limit,
            FieldName::Flag,
            FieldName::Names,
        ],
    }
}

/// The names of the fields of a plan's record.
fn plan_names(sort: PlanRecord) -> &'static [FieldName]
    ensures { result.now ≡ plan_names sort }
{
    match sort {
        PlanRecord::Plan => &[
            FieldName::Kind,
            FieldName::Version,
            FieldName::Side,
            FieldName::Symbol,
            FieldName::Shares,
            FieldName::Limit,
            FieldName::Flag,
            FieldName::Filled,
            FieldName::Cost,
            FieldName::Names,
        ],
        PlanRecord::Leg => &[
            FieldName::Kind,
            FieldName::Participant,
            FieldName::Price,
            FieldName::Shares,
        ],
        PlanRecord::Cut => &[
            FieldName::Kind,
            FieldName::Price,
            FieldName::Says,
            FieldName::Value,
        ],
        PlanRecord::End => &[FieldName::Kind],
    }
}

/// The kinds that the source allows, in words.
pub(crate) fn expected_kind(from: Reading) -> &'static str {
    match from {
        Reading::Script { .. } => "a kind of a script: Q, S, X, R, T, F, P, L, N, E or O",
        Reading::FromFeed(_) | Reading::Changes => "a kind of a change: Q, S, X or R",
        Reading::Orders { .. } => "the kind of an order: O",
    }
}

/// The fields of a record of the kind, in words.
pub(crate) fn layout_of(kind: Option<Kind>) -> &'static str {
    match kind {
        Some(Kind::Quote) => "8: Q,part,sym,state,bid,bidshares,offer,offershares",
        Some(Kind::State) => "4: S,part,sym,state",
        Some(Kind::Withdraw) => "2: X,part",
        Some(Kind::Lot) => "3: R,sym,lot, or 4: R,sym,AVG,price",
        Some(Kind::TakeOne) => "1: T",
        Some(Kind::TakeAll) => "1: F",
        Some(Kind::Publish) => "1: P",
        Some(Kind::Tell) => "2: L,desk",
        Some(Kind::Best) => "3: N,desk,sym",
        Some(Kind::Through) => "4: E,desk,sym,price",
        Some(Kind::Sweep) => "6 to 8: O,desk,side,sym,shares,limit, then a flag, then names",
        None => "a kind",
    }
}
