//! Reading a row of trades: `specs/TradeRow`.
ghost use Rattle.std.specs.Prelude.{◌≡◌, IfOk};
ghost use Rattle.csv.specs.Records.{fields_of};
ghost use Rattle.nms_import.specs.Mapping.{column_text, symbol_in};
ghost use Rattle.nms_import_trades.specs.TradeRow.{deal_of, first_of, is_other, is_unknown_word, mark_of, no_symbol, only_on, trade_of, venue_of};

use crate::condition::{are_known, is_no_trade};
use crate::trade::Trade;
use crate::trade_cause::TradeCause;
use crate::trade_columns::{TradeColumns, has_name};
use crate::trade_meanings::TradeMeanings;
use crate::trade_price::millionths_of;
use csv::ByteRecord;
use nms_import::{Meanings, clock_of, day_of, is_listed, name_of, symbol_in, without_zeros};
use nms_lines::{field_at, some_shares_of};
use nms_quote::{Part, Roster, Sym};
use nms_trades::Deal;
use std::alloc::AllocError;

/// The execution that a row makes, or the first cause why it makes none. `scratch` is room that a caller keeps from row to row.
pub fn read_trade(
    columns: &TradeColumns,
    meanings: &TradeMeanings,
    roster: &Roster,
    row: &ByteRecord,
    scratch: &mut Vec<u8>,
) -> Result<Result<Trade, TradeCause>, AllocError>
    ensures trade { IfOk result (λ outcome. outcome ≡ trade_of columns.now meanings.now roster.now (fields_of row.now)) }
{
    let sym = symbol_in(&meanings.common, roster, columns.symbol.text(row), scratch)?;
    Ok(trade_with(columns, meanings, roster, row, sym))
}

/// The execution that a row makes, or the first cause why it makes none. The row's symbol was looked up on the roster before.
fn trade_with(
    columns: &TradeColumns,
    meanings: &TradeMeanings,
    roster: &Roster,
    row: &ByteRecord,
    sym: Option<Sym>,
) -> Result<Trade, TradeCause>
    ensures { sym ≡ symbol_in meanings.now.common roster.now (column_text columns.now.symbol (fields_of row.now))
        → result ≡ trade_of columns.now meanings.now roster.now (fields_of row.now) }
{
    let common = &meanings.common;
    if is_listed(&common.ends, field_at(row, 0)) {
        return Err(TradeCause::Trailer);
    }
    if row.len() < columns.width {
        return Err(TradeCause::TooFewColumns);
    }
    if is_listed(&common.skips, columns.skip.text(row)) {
        return Err(TradeCause::Listed);
    }
    if is_unknown_word(meanings, columns.skip.text(row)) {
        return Err(TradeCause::UnknownWord);
    }
    if is_no_trade(meanings, columns.condition.text(row)) {
        return Err(TradeCause::NoTrade);
    }
    if !has_name(&columns.id, row) {
        return Err(TradeCause::BadName);
    }
    let Some(time) = clock_of(common.time_form, common.zone, columns.time.text(row)) else {
        return Err(TradeCause::BadTime);
    };
    let part = venue_of(meanings, roster, columns.participant.text(row))?;
    let Some(sym) = sym else {
        return Err(no_symbol(common));
    };
    let Some(millionths) = millionths_of(common.price_unit, columns.price.text(row)) else {
        return Err(TradeCause::BadPrice);
    };
    let Some(shares) = some_shares_of(without_zeros(0, columns.shares.text(row))) else {
        return Err(TradeCause::BadShares);
    };
    let deal = deal_of(meanings, columns.side.text(row))?;
    if !are_known(meanings, columns.condition.text(row)) {
        return Err(TradeCause::UnknownCondition);
    }
    let marked = mark_of(meanings, columns.exempt.text(row))?;
    Ok(Trade {
        time,
        day: day_of(common.time_form, common.zone, columns.time.text(row)),
        part,
        sym,
        millionths,
        shares,
        deal,
        marked,
    })
}

/// The execution that a row makes, if it is not on another day than the first one. `day` is the day of the first execution, if
/// there was one that has a date.
pub(crate) fn only_on(
    day: Option<u64>,
    made: Result<Trade, TradeCause>,
) -> Result<Trade, TradeCause>
    ensures { result ≡ only_on day made }
{
    let trade = made?;
    if is_other(day, trade.day) {
        Err(TradeCause::OtherDay)
    } else {
        Ok(trade)
    }
}

/// The day of the first execution: the first of two days, if it is given.
pub(crate) fn first_of(day: Option<u64>, other: Option<u64>) -> Option<u64>
    ensures { result ≡ first_of day other }
{
    match day {
        Some(day) => Some(day),
        None => other,
    }
}

/// Whether both days are given, and are not the same.
fn is_other(day: Option<u64>, other: Option<u64>) -> bool
    ensures { result ≡ is_other day other }
{
    match (day, other) {
        (Some(day), Some(other)) => day != other,
        (Some(_), None) | (None, _) => false,
    }
}

/// Whether the mapping lists the words of rows to keep, and a row's word is none of them.
fn is_unknown_word(meanings: &TradeMeanings, text: &[u8]) -> bool
    ensures { result ≡ is_unknown_word meanings.now text.now }
{
    !meanings.kept.is_empty() && !is_listed(&meanings.kept, text)
}

/// The exchange on which a trade was executed; `None` off an exchange.
fn venue_of(
    meanings: &TradeMeanings,
    roster: &Roster,
    word: &[u8],
) -> Result<Option<Part>, TradeCause>
    ensures { result ≡ venue_of meanings.now roster.now word.now }
{
    let Some(name) = name_of(&meanings.common, word) else {
        return Err(TradeCause::UnknownParticipant);
    };
    if name.is_empty() {
        return Ok(None);
    }
    match roster.find_part(name) {
        Some(part) => Ok(Some(part)),
        None => Err(TradeCause::UnknownParticipant),
    }
}

/// Why a row whose symbol is not on the roster makes no execution.
fn no_symbol(meanings: &Meanings) -> TradeCause
    ensures { result ≡ no_symbol meanings.now }
{
    if meanings.skips_symbols {
        TradeCause::OtherSymbol
    } else {
        TradeCause::UnknownSymbol
    }
}

/// Whether a trade was a purchase or a sale; `None` if the row does not say.
fn deal_of(meanings: &TradeMeanings, text: &[u8]) -> Result<Option<Deal>, TradeCause>
    ensures { result ≡ deal_of meanings.now text.now }
{
    if text.is_empty() || is_listed(&meanings.neither, text) {
        Ok(None)
    } else if is_listed(&meanings.bought, text) {
        Ok(Some(Deal::Bought))
    } else if is_listed(&meanings.sold, text) {
        Ok(Some(Deal::Sold))
    } else {
        Err(TradeCause::UnknownSide)
    }
}

/// Whether a trade is marked exempt.
fn mark_of(meanings: &TradeMeanings, text: &[u8]) -> Result<bool, TradeCause>
    ensures { result ≡ mark_of meanings.now text.now }
{
    if text.is_empty() || is_listed(&meanings.unmarked, text) {
        Ok(false)
    } else if is_listed(&meanings.marked, text) {
        Ok(true)
    } else {
        Err(TradeCause::UnknownMark)
    }
}
