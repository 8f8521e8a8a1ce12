//! The kind of a mapping, by its content: `specs/Kinds`.
ghost use Rattle.std.specs.Prelude.{◌≡◌};
ghost use Rattle.toml.specs.View.{table_view};
ghost use Rattle.nms_explain_toml.specs.Kinds.{has_column, has_other_kind, kind_of};

use nms_import::{Draft, Kind, kind_said};
use nms_import_trades::is_of_trades;
use toml::Table;

/// The kind of the mapping of a document. It is of sides if the document says so, and of trades if it says so, or has their price
/// and another kind than quotes. It is of national bests if it has one of their columns.
pub(crate) fn kind_of(document: &Table) -> Kind
    ensures { result ≡ kind_of (table_view document.now) }
{
    if kind_said(document) == Kind::Sides {
        Kind::Sides
    } else if is_of_trades(document) || has_other_kind(document) && has_column(document, "price") {
        Kind::Trades
    } else if has_column(document, "bid_participant")
        || has_column(document, "offer_participant")
        || has_column(document, "ask_participant")
    {
        Kind::Bests
    } else {
        Kind::Quotes
    }
}

/// Whether a document names a kind that is not that of quotes.
fn has_other_kind(document: &Table) -> bool
    ensures { result ≡ has_other_kind (table_view document.now) }
{
    match Draft::new(Kind::Quotes, document).value("file", "kind") {
        Some(kind) => kind.as_str() != Some("quotes"),
        None => false,
    }
}

/// Whether a mapping names a column of the vendor's file under the given key.
fn has_column(document: &Table, key: &str) -> bool
    ensures { result ≡ has_column key.now (table_view document.now) }
{
    Draft::new(Kind::Quotes, document)
        .value("column", key)
        .is_some()
}
