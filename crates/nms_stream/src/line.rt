//! One line of a stream, and the header (`specs/Stream`).
ghost use Rattle.std.specs.Prelude.{◌≡◌, ◌+◌, ◌<◌, ◌≤◌, ◌++◌, ◌∷◌, [], drop, length, IfSome, OnOk};
ghost use Rattle.std.specs.Fmt.{decimal};
ghost use Rattle.nms_lines.specs.Text.{later_fields, text_of};
ghost use Rattle.nms_stream.specs.Stream.{header, line_record, side_fields};

use crate::quoted::Quoted;
use itoa::write_digits;
use nms_board::Row;
use nms_lines::{number_before, price_before, text_before, word_before};
use nms_nbbo::market_between;
use nms_quote::{Roster, Sym};
use nms_text::word_of_market;
use std::alloc::AllocError;

/// Room for a line, which takes at most 105 bytes for its rows and 38 before them.
const LINE_ROOM: usize = 144;

/// Appends the names of the columns.
pub(crate) fn tell_header(out: &mut Vec<u8>) -> Result<(), AllocError>
    ensures { OnOk result (out.new.items ≡ out.old.items ++ text_of (header ∷ [])) }
{
    out.extend_from_slice(
        b"version,symbol,market,bid_participant,bid_price,bid_shares,offer_participant,offer_price,offer_shares\n",
    )
}

/// Appends the line of a symbol at a version.
pub(crate) fn tell_line(
    out: &mut Vec<u8>,
    roster: &Roster,
    number: u64,
    sym: Sym,
    quoted: &Quoted,
) -> Result<(), AllocError>
    requires sym { sym < length roster.now.syms }
    requires bid { IfSome quoted.now.bid (λ row. row.part < length roster.now.parts) }
    requires offer { IfSome quoted.now.offer (λ row. row.part < length roster.now.parts) }
    ensures { OnOk result (out.new.items ≡ out.old.items ++ text_of (line_record roster.now number sym quoted.now ∷ [])) }
{
    let market = word_of_market(market_between(quoted.bid, quoted.offer));
    let mut buf = [0; LINE_ROOM];
    let rows = rows_before(&mut buf, roster, quoted);
    let start = head_before(&mut buf, rows, number, roster.sym_name(sym), market);
    out.extend_from_slice(&buf[start..])
}

/// Writes the first fields of a line before its rows: the version, the symbol, and the market.
fn head_before(buf: &mut [u8], end: usize, number: u64, sym: &str, market: &str) -> usize
    requires room { 38 ≤ end }
    requires within { end ≤ length buf.old }
    requires sym { length sym.now ≤ 8 }
    requires market { length market.now ≤ 8 }
    ensures within { result ≤ end }
    ensures written { drop result buf.new ≡ decimal number ++ later_fields (sym.now ∷ market.now ∷ []) ++ drop end buf.old }
{
    let end = text_before(buf, end, market);
    let end = text_before(buf, end, sym);
    write_digits(number, buf, end)
}

/// Writes both rows' fields, and the end of the line, at the end of a buffer.
fn rows_before(buf: &mut [u8], roster: &Roster, quoted: &Quoted) -> usize
    requires bid { IfSome quoted.now.bid (λ row. row.part < length roster.now.parts) }
    requires offer { IfSome quoted.now.offer (λ row. row.part < length roster.now.parts) }
    requires room { 105 ≤ length buf.old }
    ensures room { length buf.old ≤ result + 105 }
    ensures within { result ≤ length buf.old }
    ensures written { drop result buf.new ≡ later_fields (side_fields roster.now quoted.now.bid) ++ later_fields (side_fields roster.now quoted.now.offer) ++ 10 ∷ [] }
{
    let end = buf.len() - 1;
    buf[end] = b'\n';
    let end = row_before(buf, end, roster, &quoted.offer);
    row_before(buf, end, roster, &quoted.bid)
}

/// Writes the three fields of a best row, which take at most 52 bytes, so that they end at a place. Returns the place at which
/// they start.
fn row_before(buf: &mut [u8], end: usize, roster: &Roster, row: &Option<Row>) -> usize
    requires row { IfSome row.now (λ row. row.part < length roster.now.parts) }
    requires room { 52 ≤ end }
    requires within { end ≤ length buf.old }
    ensures room { end ≤ result + 52 }
    ensures within { result ≤ end }
    ensures written { drop result buf.new ≡ later_fields (side_fields roster.now row.now) ++ drop end buf.old }
{
    match row {
        None => word_before(buf, end, ",,,"),
        Some(row) => {
            let end = number_before(buf, end, u64::from(row.size));
            let end = price_before(buf, end, row.price);
            text_before(buf, end, roster.part_name(row.part))
        }
    }
}
