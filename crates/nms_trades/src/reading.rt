//! Reading a record of an execution: `specs/Reading`.
ghost use Rattle.std.specs.Prelude.{◌≡◌, ◌<◌, IfOk, IfSome, length, true};
ghost use Rattle.std.specs.List.{list_all};
ghost use Rattle.csv.specs.Records.{fields_of};
ghost use Rattle.nms_trades.specs.Reading.{IsInWindow, IsOn, IsReadFrom, deal_in, is_name, is_name_byte, part_of};
ghost use Rattle.nms_trades.specs.When.{AreOfChanges};

use crate::clock::Clock;
use crate::execution::{Deal, Execution, MOST_NAME};
use crate::flags::claims_in;
use crate::millionths::millionths_in;
use crate::trade_fault::TradeFault;
use arrayvec::ArrayVec;
use nms_lines::{ByteRecord, field_at, some_shares_of};
use nms_quote::{Part, Roster};

/// The execution that a record gives, or the record's first fault. The clock finds its version.
pub(crate) fn read_execution(
    row: &ByteRecord,
    roster: &Roster,
    clock: &Clock<'_>,
    number: u64,
) -> Result<Execution, TradeFault>
    requires { AreOfChanges clock.now.changes clock.now.rising.items }
    ensures on { IfOk result (IsOn roster.now clock.now.changes) }
    ensures read { IfOk result (IsReadFrom roster.now clock.now (fields_of row.now)) }
    ensures number { IfOk result (λ execution. execution.number ≡ number) }
    ensures window { IfOk result IsInWindow }
{
    if field_at(row, 0) != b"D".as_slice() {
        return Err(TradeFault::UnknownKind);
    }
    if row.len() != 9 {
        return Err(TradeFault::FieldCount);
    }
    if !is_name(field_at(row, 1)) {
        return Err(TradeFault::BadName);
    }
    let Some(sym) = roster.find_sym(field_at(row, 2)) else {
        return Err(TradeFault::UnknownSymbol);
    };
    let Some(millionths) = millionths_in(field_at(row, 3)) else {
        return Err(TradeFault::BadPrice);
    };
    let Some(shares) = some_shares_of(field_at(row, 4)) else {
        return Err(TradeFault::BadShares);
    };
    let deal = deal_in(field_at(row, 5))?;
    let when = clock.when_in(field_at(row, 6), sym)?;
    let part = part_in(field_at(row, 7), roster)?;
    let Some(claims) = claims_in(field_at(row, 8), roster) else {
        return Err(TradeFault::BadFlags);
    };
    Ok(Execution {
        number,
        name: name_of(field_at(row, 1)),
        sym,
        millionths,
        shares,
        deal,
        version: when.version,
        first: when.first,
        last: when.last,
        second_before: when.second_before,
        time: when.time,
        other: when.other,
        part,
        claims,
    })
}

/// Whether a text is a name: 1 to 32 of letters, digits, `.`, `-` and `_`.
pub fn is_name(text: &[u8]) -> bool
    ensures { result ≡ is_name text.now }
{
    !text.is_empty() && text.len() <= MOST_NAME && are_name_bytes(text)
}

/// Whether each byte is allowed in a name.
fn are_name_bytes(text: &[u8]) -> bool
    ensures { result ≡ list_all is_name_byte text.now }
{
    text.iter().all(|byte| is_name_byte(*byte))
}

/// A copy of a name.
fn name_of(text: &[u8]) -> ArrayVec<u8, MOST_NAME>
    requires { is_name text.now ≡ true }
    ensures { result.items ≡ text.now }
{
    let mut name = ArrayVec::new_in(());
    let _ = name.try_extend_from_slice(text);
    name
}

/// Whether a byte is allowed in a name.
fn is_name_byte(byte: u8) -> bool
    ensures { result ≡ is_name_byte byte }
{
    byte.is_ascii_alphanumeric() || byte == b'.' || byte == b'-' || byte == b'_'
}

/// Whether an execution bought or sold, as a text says.
fn deal_in(text: &[u8]) -> Result<Option<Deal>, TradeFault>
    ensures { result ≡ deal_in text.now }
{
    match text {
        b"" => Ok(None),
        b"B" => Ok(Some(Deal::Bought)),
        b"S" => Ok(Some(Deal::Sold)),
        _ => Err(TradeFault::BadSide),
    }
}

/// The participant that a text names; none if it is empty.
fn part_in(text: &[u8], roster: &Roster) -> Result<Option<Part>, TradeFault>
    ensures part { result ≡ part_of roster.now text.now }
    ensures there { IfOk result (λ part. IfSome part (λ place. place < length roster.now.parts)) }
{
    if text.is_empty() {
        return Ok(None);
    }
    match roster.find_part(text) {
        Some(part) => Ok(Some(part)),
        None => Err(TradeFault::UnknownParticipant),
    }
}
