//! Reading the national best of a row of a vendor's file: `specs/National`.
ghost use Rattle.std.specs.Prelude.{◌≡◌, ◌<◌, length, true, IfOk, IfSome};
ghost use Rattle.csv.specs.Records.{fields_of};
ghost use Rattle.nms_quote.specs.Roster.{Sizes, holds};
ghost use Rattle.nms_compare.specs.National.{best_with, national_in, national_of, offer_in};

use csv::ByteRecord;
use nms_import::{Cause, Columns, Meanings, read_row};
use nms_quote::{Change, Part, Roster, SideQuote, Sym};
use nms_units::{Price, Shares};
use std::alloc::AllocError;

/// One side of a vendor's national best.
#[derive(Clone, Copy, PartialEq, Eq)]
pub struct Best {
    /// The participant that quotes it.
    pub part: Part,
    /// Its price in 1/10,000 dollar.
    pub price: Price,
    /// Its size in shares.
    pub shares: Shares,
}

/// A vendor's national best of a symbol.
#[derive(Clone, Copy, PartialEq, Eq)]
pub struct National {
    /// The time of day as digits, `HHMMSSnnnnnnnnn`.
    pub time: u64,
    /// The symbol of which this is the national best.
    pub sym: Sym,
    /// The best bid; `None` if there is no bid.
    pub bid: Option<Best>,
    /// The best offer; `None` if there is no offer.
    pub offer: Option<Best>,
}

/// The national best of a row, or the first cause why it has none. `scratch` is room that a caller keeps from row to row.
pub fn read_national(
    bids: &Columns,
    offers: &Columns,
    meanings: &Meanings,
    roster: &Roster,
    row: &ByteRecord,
    scratch: &mut Vec<u8>,
) -> Result<Result<National, Cause>, AllocError>
    ensures national { IfOk result (λ outcome. outcome ≡ national_of bids.now offers.now meanings.now roster.now (fields_of row.now)) }
    ensures there { IfOk result (λ outcome. IfOk outcome (λ theirs. theirs.sym < length roster.now.syms)) }
{
    // The prover has to see the type of sides before they move, so the code mentions it.
    let _seen: Option<SideQuote> = None;
    let bid = match read_row(bids, meanings, roster, row, scratch)? {
        Ok(bid) => bid,
        Err(cause) => return Ok(Err(cause)),
    };
    let offer = match read_row(offers, meanings, roster, row, scratch)? {
        Ok(offer) => offer,
        Err(cause) => return Ok(Err(cause)),
    };
    match national_in(bid.time, &bid.change, &offer.change) {
        Some(theirs) => Ok(Ok(theirs)),
        None => Ok(Err(Cause::TooFewColumns)),
    }
}

/// A national best with the bid of one quotation and the offer of another one; `None` if the first change is no quotation.
fn national_in(time: u64, bids: &Change, offers: &Change) -> Option<National>
    ensures national { result ≡ national_in time bids.now offers.now }
    ensures there { (sizes : Sizes) → holds sizes bids.now ≡ true → IfSome result (λ theirs. theirs.sym < length sizes.lots) }
{
    let Change::Quote { part, sym, bid, .. } = *bids else {
        return None;
    };
    Some(National {
        time,
        sym,
        bid: best_with(part, bid),
        offer: offer_in(offers),
    })
}

/// The offer of a quotation.
fn offer_in(change: &Change) -> Option<Best>
    ensures { result ≡ offer_in change.now }
{
    let Change::Quote { part, offer, .. } = *change else {
        return None;
    };
    best_with(part, offer)
}

/// A side's price and shares, quoted by a participant.
fn best_with(part: Part, side: Option<SideQuote>) -> Option<Best>
    ensures { result ≡ best_with part side }
{
    match side {
        Some(quote) => Some(Best {
            part,
            price: quote.price,
            shares: quote.shares,
        }),
        None => None,
    }
}
