//! Writing changes as records: `specs/ChangeText`.
ghost use Rattle.std.specs.Prelude.{◌≡◌, ◌+◌, ◌<◌, ◌≤◌, ◌++◌, ◌∷◌, [], drop, length, OnOk};
ghost use Rattle.nms_lines.specs.Text.{later_fields, text_of};
ghost use Rattle.nms_change_text.specs.ChangeText.{change_record, changes_text, kind_letter, said_fields, side_fields, state_letter};

use nms_lines::{name_of_part, name_of_sym, number_before, price_before, text_before, word_before};
use nms_quote::{Change, QState, Roster, SideQuote};
use std::alloc::AllocError;

/// Appends the records of changes, in order. After an error a prefix of these records may be there.
pub fn append_changes(
    out: &mut Vec<u8>,
    roster: &Roster,
    changes: &[Change],
) -> Result<(), AllocError>
    ensures { OnOk result (out.new.items ≡ out.old.items ++ changes_text roster.now changes.now) }
{
    for change in changes {
        append_change(out, roster, change)?;
    }
    Ok(())
}

/// Appends the record of a change: `Q`, `S`, `X` or `R` with its fields, prices with four decimals, and a line feed. A
/// participant or a symbol that is not on the roster has an empty name. After an error nothing was appended.
pub fn append_change(out: &mut Vec<u8>, roster: &Roster, change: &Change) -> Result<(), AllocError>
    ensures { OnOk result (out.new.items ≡ out.old.items ++ text_of (change_record roster.now change.now ∷ [])) }
{
    let mut buf = [0; 128];
    buf[127] = b'\n';
    let start = change_before(&mut buf, 127, roster, change);
    out.extend_from_slice(&buf[start..])
}

/// Writes the fields of a change, which take at most 111 bytes, so that they end at a place. Returns the place at which they
/// start.
fn change_before(buf: &mut [u8], end: usize, roster: &Roster, change: &Change) -> usize
    requires room { 111 ≤ end }
    requires within { end ≤ length buf.old }
    ensures within { result ≤ end }
    ensures written { drop result buf.new ≡ kind_letter change.now ++ later_fields (said_fields roster.now change.now) ++ drop end buf.old }
{
    match *change {
        Change::Quote {
            part,
            sym,
            state,
            bid,
            offer,
        } => {
            let end = side_before(buf, end, &offer);
            let end = side_before(buf, end, &bid);
            let end = text_before(buf, end, letter_of(state));
            let end = text_before(buf, end, name_of_sym(roster, sym));
            let end = text_before(buf, end, name_of_part(roster, part));
            word_before(buf, end, "Q")
        }
        Change::State { part, sym, state } => {
            let end = text_before(buf, end, letter_of(state));
            let end = text_before(buf, end, name_of_sym(roster, sym));
            let end = text_before(buf, end, name_of_part(roster, part));
            word_before(buf, end, "S")
        }
        Change::Withdraw { part } => {
            let end = text_before(buf, end, name_of_part(roster, part));
            word_before(buf, end, "X")
        }
        Change::Lot { sym, lot } => {
            let end = number_before(buf, end, u64::from(lot.get()));
            let end = text_before(buf, end, name_of_sym(roster, sym));
            word_before(buf, end, "R")
        }
    }
}

/// Writes a side's price and shares, which take at most 47 bytes, so that they end at a place. Returns the place at which they
/// start.
fn side_before(buf: &mut [u8], end: usize, side: &Option<SideQuote>) -> usize
    requires room { 47 ≤ end }
    requires within { end ≤ length buf.old }
    ensures start { end ≤ result + 47 }
    ensures before { result < end }
    ensures written { drop result buf.new ≡ later_fields (side_fields side.now) ++ drop end buf.old }
{
    match side {
        Some(quote) => {
            let end = number_before(buf, end, u64::from(quote.shares.get()));
            price_before(buf, end, quote.price)
        }
        None => {
            let end = text_before(buf, end, "");
            text_before(buf, end, "")
        }
    }
}

/// The letter for the state of a quotation: `A`, `M` or `H`.
fn letter_of(state: QState) -> &'static str
    ensures letter { result.now ≡ state_letter state }
    ensures short { length result.now ≡ 1 }
{
    match state {
        QState::Automated => "A",
        QState::Manual => "M",
        QState::Halted => "H",
    }
}
