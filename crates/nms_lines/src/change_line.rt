//! Reading the records of changes, `Q`, `S`, `X` and `R`: `specs/Lines`.
ghost use Rattle.std.specs.Prelude.{◌≡◌, IfOk, Some, true};
ghost use Rattle.csv.specs.Records.{fields_of};
ghost use Rattle.nms_lines.specs.LineOf.{IsLineOf};
ghost use Rattle.nms_lines.specs.Lines.{lot_reading, quote_reading, state_reading, withdraw_reading};
ghost use Rattle.nms_lines.specs.Sources.{brings, is_foreign};

use crate::letter::state_at;
use crate::line::{Kind, Line, Reading};
use crate::line_fault::{LineFault, PlacedFault};
use crate::lot_field::{average_in, lot_in};
use crate::name::{part_at, symbol_at};
use crate::side::sides_in;
use csv::ByteRecord;
use nms_quote::{Change, Feed, Roster};

/// Reads the record of a participant's bid and offer in a symbol: `Q,part,sym,state,bid,bidshares,offer,offershares`.
pub(crate) fn quote_line(
    row: &ByteRecord,
    roster: &Roster,
    from: Reading,
) -> Result<Line, PlacedFault>
    ensures line { result ≡ quote_reading roster.now from (fields_of row.now) }
    ensures of { brings from Kind.Quote ≡ true → IfOk result (IsLineOf roster.now from) }
{
    let part = part_at(roster, row, 1)?;
    let sym = symbol_at(roster, row, 2)?;
    let state = state_at(row, 3)?;
    let (bid, offer) = sides_in(row)?;
    if is_foreign(from, roster.feed_of(part)) {
        return Err(PlacedFault::at(LineFault::WrongFeed, 1));
    }
    Ok(Line::Change(Change::Quote {
        part,
        sym,
        state,
        bid,
        offer,
    }))
}

/// Reads the record of a new state of a participant's quotations in a symbol: `S,part,sym,state`.
pub(crate) fn state_line(
    row: &ByteRecord,
    roster: &Roster,
    from: Reading,
) -> Result<Line, PlacedFault>
    ensures line { result ≡ state_reading roster.now from (fields_of row.now) }
    ensures of { brings from Kind.State ≡ true → IfOk result (IsLineOf roster.now from) }
{
    let part = part_at(roster, row, 1)?;
    let sym = symbol_at(roster, row, 2)?;
    let state = state_at(row, 3)?;
    if is_foreign(from, roster.feed_of(part)) {
        return Err(PlacedFault::at(LineFault::WrongFeed, 1));
    }
    Ok(Line::Change(Change::State { part, sym, state }))
}

/// Reads the record of a participant that withdraws all its quotations: `X,part`.
pub(crate) fn withdraw_line(
    row: &ByteRecord,
    roster: &Roster,
    from: Reading,
) -> Result<Line, PlacedFault>
    ensures line { result ≡ withdraw_reading roster.now from (fields_of row.now) }
    ensures of { brings from Kind.Withdraw ≡ true → IfOk result (IsLineOf roster.now from) }
{
    let part = part_at(roster, row, 1)?;
    if is_foreign(from, roster.feed_of(part)) {
        return Err(PlacedFault::at(LineFault::WrongFeed, 1));
    }
    Ok(Line::Change(Change::Withdraw { part }))
}

/// Reads the record of a symbol's new round lot: `R,sym,lot` or `R,sym,AVG,price`. A round lot belongs to the first feed. The
/// lot is checked last.
pub(crate) fn lot_line(
    row: &ByteRecord,
    roster: &Roster,
    from: Reading,
) -> Result<Line, PlacedFault>
    ensures line { result ≡ lot_reading roster.now from (fields_of row.now) }
    ensures of { brings from Kind.Lot ≡ true → IfOk result (IsLineOf roster.now from) }
{
    let sym = symbol_at(roster, row, 1)?;
    let average = average_in(row)?;
    if is_foreign(from, Feed::A) {
        return Err(PlacedFault::at(LineFault::WrongFeed, 0));
    }
    let lot = lot_in(row, average)?;
    Ok(Line::Change(Change::Lot { sym, lot }))
}

/// Whether a record comes from a feed, and belongs to another feed.
fn is_foreign(from: Reading, owner: Feed) -> bool
    ensures { result ≡ is_foreign from (Some owner) }
{
    match from {
        Reading::FromFeed(feed) => owner != feed,
        Reading::Script { .. } | Reading::Changes | Reading::Orders { .. } => false,
    }
}
