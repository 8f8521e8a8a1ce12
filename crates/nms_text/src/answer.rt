//! The answers that a desk gets, one record at a time (specs/Answers).
ghost use Rattle.std.specs.Prelude.{◌≡◌, ◌+◌, ◌<◌, ◌≤◌, ◌++◌, ◌∷◌, [], All, drop, length, map, false, OnOk, IfSome, Ok, Err};
ghost use Rattle.nms_lines.specs.Text.{later_fields, text_of};
ghost use Rattle.nms_board.specs.View.{Seen};
ghost use Rattle.nms_text.specs.Answers.{best_fields, best_record, look_text, market_word, published_record, refusal, rows_text, taken_record, through_head, through_row, told_record};

use nms_board::Row;
use nms_lines::{
    end_record, number_before, price_before, push_number, push_price, push_text, text_before,
    word_before, word_of_side,
};
use nms_nbbo::{Market, market_between};
use nms_quote::{Roster, Side, Sym};
use nms_units::Price;
use std::alloc::AllocError;

/// The room, in bytes, for the record of a best bid and offer, which takes at most 147 bytes after its market and 66 before.
const BEST_ROOM: usize = 224;

/// Appends an `ERR` record, which refuses the record of the given number.
pub fn tell_refusal(out: &mut Vec<u8>, number: u64, code: &str) -> Result<(), AllocError>
    ensures { OnOk result (out.new.items ≡ out.old.items ++ text_of (refusal number code.now ∷ [])) }
{
    out.extend_from_slice(b"ERR")?;
    push_number(out, number)?;
    push_text(out, code)?;
    end_record(out)
}

/// Appends a `TAKEN` record: a change was taken to the tape, which now has the given length.
pub fn tell_taken(out: &mut Vec<u8>, version: u64) -> Result<(), AllocError>
    ensures { OnOk result (out.new.items ≡ out.old.items ++ text_of (taken_record version ∷ [])) }
{
    out.extend_from_slice(b"TAKEN")?;
    push_number(out, version)?;
    end_record(out)
}

/// Appends a `PUB` record: a version was published.
pub fn tell_published(out: &mut Vec<u8>, version: u64) -> Result<(), AllocError>
    ensures { OnOk result (out.new.items ≡ out.old.items ++ text_of (published_record version ∷ [])) }
{
    out.extend_from_slice(b"PUB")?;
    push_number(out, version)?;
    end_record(out)
}

/// Appends a `TOLD` record: a desk has learned of a version.
pub fn tell_told(out: &mut Vec<u8>, desk: u8, version: u64) -> Result<(), AllocError>
    ensures { OnOk result (out.new.items ≡ out.old.items ++ text_of (told_record desk version ∷ [])) }
{
    out.extend_from_slice(b"TOLD")?;
    push_number(out, u64::from(desk))?;
    push_number(out, version)?;
    end_record(out)
}

/// The word for the state of a market, as in the answers of a script.
pub fn word_of_market(market: Market) -> &'static str
    ensures word { result.now ≡ market_word market }
    ensures short { length result.now ≤ 8 }
{
    match market {
        Market::Empty => "EMPTY",
        Market::OneSided => "ONESIDED",
        Market::Normal => "NORMAL",
        Market::Locked => "LOCKED",
        Market::Crossed => "CROSSED",
    }
}

/// Appends the best bid and offer that a desk saw.
pub fn tell_best(
    out: &mut Vec<u8>,
    roster: &Roster,
    desk: u8,
    sym: Sym,
    version: u64,
    bid: &Option<Row>,
    offer: &Option<Row>,
) -> Result<(), AllocError>
    requires sym { sym < length roster.now.syms }
    requires bid { IfSome bid.now (λ row. row.part < length roster.now.parts) }
    requires offer { IfSome offer.now (λ row. row.part < length roster.now.parts) }
    ensures { (seen : Seen) → seen.sym ≡ sym → seen.version ≡ version
        → OnOk result (out.new.items ≡ out.old.items ++ text_of (best_record roster.now desk seen bid.now offer.now ∷ [])) }
{
    let market = word_of_market(market_between(*bid, *offer));
    let mut buf = [0; BEST_ROOM];
    let rows = rows_before(&mut buf, roster, bid, offer);
    let start = look_before(&mut buf, rows, desk, roster.sym_name(sym), version, market);
    out.extend_from_slice(&buf[start..])
}

/// Writes the first fields of a best bid and offer before the rows: the desk, the symbol, the version, the market.
fn look_before(buf: &mut [u8], end: usize, desk: u8, sym: &str, version: u64, market: &str) -> usize
    requires room { 66 ≤ end }
    requires within { end ≤ length buf.old }
    requires sym { length sym.now ≤ 8 }
    requires market { length market.now ≤ 8 }
    ensures within { result ≤ end }
    ensures written { drop result buf.new ≡ look_text desk sym.now version market.now ++ drop end buf.old }
{
    let end = text_before(buf, end, market);
    let end = number_before(buf, end, version);
    let end = text_before(buf, end, sym);
    let end = number_before(buf, end, u64::from(desk));
    word_before(buf, end, "BEST")
}

/// Writes a best bid's and a best offer's fields, and the end of the record, at the end of a buffer.
fn rows_before(buf: &mut [u8], roster: &Roster, bid: &Option<Row>, offer: &Option<Row>) -> usize
    requires bid { IfSome bid.now (λ row. row.part < length roster.now.parts) }
    requires offer { IfSome offer.now (λ row. row.part < length roster.now.parts) }
    requires room { 147 ≤ length buf.old }
    ensures room { length buf.old ≤ result + 147 }
    ensures within { result ≤ length buf.old }
    ensures written { drop result buf.new ≡ rows_text roster.now bid.now offer.now }
{
    let end = buf.len() - 1;
    buf[end] = b'\n';
    let end = row_before(buf, end, roster, offer);
    row_before(buf, end, roster, bid)
}

/// Writes a best row's four fields, which take at most 73 bytes, so that they end at a place, and returns the place at which
/// they start.
fn row_before(buf: &mut [u8], end: usize, roster: &Roster, row: &Option<Row>) -> usize
    requires row { IfSome row.now (λ row. row.part < length roster.now.parts) }
    requires room { 73 ≤ end }
    requires within { end ≤ length buf.old }
    ensures room { end ≤ result + 73 }
    ensures within { result ≤ end }
    ensures written { drop result buf.new ≡ later_fields (best_fields roster.now row.now) ++ drop end buf.old }
{
    match row {
        None => word_before(buf, end, ",,,,"),
        Some(row) => {
            let end = number_before(buf, end, row.receipt);
            let end = number_before(buf, end, u64::from(row.size));
            let end = price_before(buf, end, row.price);
            text_before(buf, end, roster.part_name(row.part))
        }
    }
}

/// Appends how many quotations a trade at a price trades through, at that version.
pub fn tell_through_head(
    out: &mut Vec<u8>,
    roster: &Roster,
    desk: u8,
    sym: Sym,
    version: u64,
    price: Price,
    count: usize,
) -> Result<(), AllocError>
    requires { sym < length roster.now.syms }
    ensures { (seen : Seen) → seen.sym ≡ sym → seen.version ≡ version
        → OnOk result (out.new.items ≡ out.old.items ++ text_of (through_head roster.now desk seen price count ∷ [])) }
{
    out.extend_from_slice(b"THRU")?;
    push_number(out, u64::from(desk))?;
    push_text(out, roster.sym_name(sym))?;
    push_number(out, version)?;
    push_price(out, price)?;
    push_number(out, count as u64)?;
    end_record(out)
}

/// Appends quotations that are traded through, a record each.
pub fn tell_through_rows(
    out: &mut Vec<u8>,
    roster: &Roster,
    quotations: &[(Side, Row)],
) -> Result<(), AllocError>
    requires { All (λ quotation. quotation.1.part < length roster.now.parts) quotations.now }
    ensures { OnOk result (out.new.items ≡ out.old.items ++ text_of (map (through_row roster.now) quotations.now)) }
{
    for (side, row) in quotations {
        tell_through_row(out, roster, *side, row)?;
    }
    Ok(())
}

/// Appends a quotation that is traded through.
fn tell_through_row(
    out: &mut Vec<u8>,
    roster: &Roster,
    side: Side,
    row: &Row,
) -> Result<(), AllocError>
    requires { row.now.part < length roster.now.parts }
    ensures { OnOk result (out.new.items ≡ out.old.items ++ text_of (through_row roster.now (side, row.now) ∷ [])) }
{
    out.extend_from_slice(b"ROW")?;
    push_text(out, word_of_side(side))?;
    push_text(out, roster.part_name(row.part))?;
    push_price(out, row.price)?;
    push_number(out, u64::from(row.size))?;
    end_record(out)
}
