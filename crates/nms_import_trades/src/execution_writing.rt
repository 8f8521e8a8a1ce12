//! Writing the record of an execution: `specs/Executions`.
ghost use Rattle.std.specs.Prelude.{◌≡◌, ◌++◌, ◌∷◌, [], OnOk, codes};
ghost use Rattle.std.specs.Fmt.{decimal};
ghost use Rattle.csv.specs.Records.{fields_of};
ghost use Rattle.nms_quote.specs.Roster.{symbol_text};
ghost use Rattle.nms_lines.specs.Text.{text_of};
ghost use Rattle.nms_import.specs.Imported.{fifteen_digits};
ghost use Rattle.nms_import.specs.Mapping.{column_text};
ghost use Rattle.nms_import_trades.specs.Executions.{deal_text, execution_record, flags_text, venue_text};
ghost use Rattle.nms_import_trades.specs.TradeRow.{id_text};

use crate::condition::append_flags;
use crate::trade::Trade;
use crate::trade_columns::TradeColumns;
use crate::trade_meanings::TradeMeanings;
use csv::ByteRecord;
use nms_import::{Column, append_clock};
use nms_lines::{end_record, name_of_part, name_of_sym, push_number, push_text};
use nms_quote::{Part, Roster, Sym};
use nms_trades::{Deal, push_millionths};
use nms_units::Shares;
use std::alloc::AllocError;

/// Appends the record of the execution that a row makes. `number` is the row's number among the rows of all files, counted from
/// 1. `flags` is room that a caller keeps from row to row.
pub(crate) fn append_execution(
    out: &mut Vec<u8>,
    columns: &TradeColumns,
    meanings: &TradeMeanings,
    roster: &Roster,
    number: u64,
    row: &ByteRecord,
    trade: &Trade,
    flags: &mut Vec<u8>,
) -> Result<(), AllocError>
    ensures { OnOk result (out.new.items ≡ out.old.items
        ++ text_of (execution_record columns.now meanings.now roster.now number (fields_of row.now) trade.now ∷ [])) }
{
    push_kind(out)?;
    push_id(out, &columns.id, number, row)?;
    push_sym(out, roster, trade.sym)?;
    push_millionths(out, trade.millionths)?;
    push_shares(out, trade.shares)?;
    push_deal(out, trade.deal)?;
    push_when(out, trade.time)?;
    push_venue(out, roster, trade.part)?;
    push_flags(out, columns, meanings, row, trade.marked, flags)?;
    end_record(out)
}

/// Appends `D`, the kind of the record of an execution.
fn push_kind(out: &mut Vec<u8>) -> Result<(), AllocError>
    ensures { OnOk result (out.new.items ≡ out.old.items ++ codes "D") }
{
    out.extend_from_slice(b"D")
}

/// Appends a comma and the name of the execution.
fn push_id(
    out: &mut Vec<u8>,
    id: &Option<Column>,
    number: u64,
    row: &ByteRecord,
) -> Result<(), AllocError>
    ensures { OnOk result (out.new.items ≡ out.old.items ++ 44 ∷ id_text id.now number (fields_of row.now)) }
{
    match id {
        None => push_number(out, number),
        Some(column) => {
            out.push(b',')?;
            out.extend_from_slice(column.text(row))
        }
    }
}

/// Appends a comma, `@` and a time.
fn push_when(out: &mut Vec<u8>, time: u64) -> Result<(), AllocError>
    ensures { OnOk result (out.new.items ≡ out.old.items ++ 44 ∷ 64 ∷ fifteen_digits time) }
{
    out.extend_from_slice(b",@")?;
    append_clock(out, time)
}

/// Appends a comma and the symbol.
fn push_sym(out: &mut Vec<u8>, roster: &Roster, sym: Sym) -> Result<(), AllocError>
    ensures { OnOk result (out.new.items ≡ out.old.items ++ 44 ∷ symbol_text roster.now sym) }
{
    push_text(out, name_of_sym(roster, sym))
}

/// Appends a comma and the shares.
fn push_shares(out: &mut Vec<u8>, shares: Shares) -> Result<(), AllocError>
    ensures { OnOk result (out.new.items ≡ out.old.items ++ 44 ∷ decimal shares) }
{
    push_number(out, u64::from(shares.get()))
}

/// Appends a comma and the side: `B` for a purchase, `S` for a sale, and nothing if the side is not known.
fn push_deal(out: &mut Vec<u8>, deal: Option<Deal>) -> Result<(), AllocError>
    ensures { OnOk result (out.new.items ≡ out.old.items ++ 44 ∷ deal_text deal) }
{
    push_text(out, deal_text(deal))
}

/// Appends a comma and the name of the exchange on which the trade was executed. The name is empty for a trade off an exchange.
fn push_venue(out: &mut Vec<u8>, roster: &Roster, part: Option<Part>) -> Result<(), AllocError>
    ensures { OnOk result (out.new.items ≡ out.old.items ++ 44 ∷ venue_text roster.now part) }
{
    push_text(out, venue_text(roster, part))
}

/// Appends a comma and the flags.
fn push_flags(
    out: &mut Vec<u8>,
    columns: &TradeColumns,
    meanings: &TradeMeanings,
    row: &ByteRecord,
    marked: bool,
    flags: &mut Vec<u8>,
) -> Result<(), AllocError>
    ensures { OnOk result (out.new.items ≡ out.old.items
        ++ 44 ∷ flags_text meanings.now.claims.items (column_text columns.now.condition (fields_of row.now)) marked) }
{
    out.push(b',')?;
    let condition = columns.condition.text(row);
    append_flags(out, &meanings.claims, condition, marked, flags)
}

/// The letter for a purchase, `B`, or for a sale, `S`. It is empty if the side is not known.
fn deal_text(deal: Option<Deal>) -> &'static str
    ensures { result.now ≡ deal_text deal }
{
    match deal {
        None => "",
        Some(Deal::Bought) => "B",
        Some(Deal::Sold) => "S",
    }
}

/// The name of the exchange on which a trade was executed. It is empty for a trade off an exchange.
fn venue_text(roster: &Roster, part: Option<Part>) -> &str
    ensures { result.now ≡ venue_text roster.now part }
{
    match part {
        None => "",
        Some(part) => name_of_part(roster, part),
    }
}
