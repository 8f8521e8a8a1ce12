//! Reading the two sides of a quotation: `specs/Sides`.
ghost use Rattle.std.specs.Prelude.{◌≡◌, ◌<◌, ◌+◌};
ghost use Rattle.std.specs.Option.{option_or};
ghost use Rattle.nms_units.specs.Price.{price_number};
ghost use Rattle.csv.specs.Records.{fields_of};
ghost use Rattle.nms_lines.specs.Faults.{wrong_at};
ghost use Rattle.nms_lines.specs.Numbers.{is_zero, shares_number};
ghost use Rattle.nms_lines.specs.Sides.{half_at, is_bad_price, is_bad_shares, is_half, is_unfit, side_content, side_word, sides_in};

use crate::field::field;
use crate::line_fault::{LineFault, PlacedFault};
use crate::number::{price_of, some_shares_of};
use csv::ByteRecord;
use nms_quote::{Side, SideQuote};
use nms_units::{Price, Shares, UnitFault};

/// The bid and the offer of a record, or the fault of the least number on either side. If both sides have quotations, there is
/// no fault.
pub(crate) fn sides_in(
    row: &ByteRecord,
) -> Result<(Option<SideQuote>, Option<SideQuote>), PlacedFault>
    ensures { result ≡ sides_in (fields_of row.now) }
{
    let bid = quote_in(field(row, 4), field(row, 5));
    let offer = quote_in(field(row, 6), field(row, 7));
    if bid.is_some() && offer.is_some() {
        Ok((bid, offer))
    } else {
        other_sides_in(row)
    }
}

/// The bid and the offer of a record, or the fault of the least number on either side. Either side may have no quotation.
#[cold]
#[inline(never)]
fn other_sides_in(row: &ByteRecord) -> Result<(Option<SideQuote>, Option<SideQuote>), PlacedFault>
    ensures { result ≡ sides_in (fields_of row.now) }
{
    let (bid, bid_shares) = (field(row, 4), field(row, 5));
    let (offer, offer_shares) = (field(row, 6), field(row, 7));
    let bad_price = first_at(
        4,
        is_bad_price(bid, bid_shares),
        is_bad_price(offer, offer_shares),
    );
    if let Some(place) = bad_price {
        return Err(PlacedFault::at(LineFault::BadPrice, place));
    }
    let bad_shares = first_at(5, is_bad_shares(bid_shares), is_bad_shares(offer_shares));
    if let Some(place) = bad_shares {
        return Err(PlacedFault::at(LineFault::BadShares, place));
    }
    let half = half_at(4, bid, bid_shares).or(half_at(6, offer, offer_shares));
    if let Some(place) = half {
        return Err(PlacedFault::at(LineFault::HalfSide, place));
    }
    Ok((quote_in(bid, bid_shares), quote_in(offer, offer_shares)))
}

/// The number of the first wrong field, of the bid or of the offer. The bid's field has the given number, and the offer's is
/// two further.
fn first_at(before: u8, is_bid: bool, is_offer: bool) -> Option<u8>
    requires { before < 8 }
    ensures { result ≡ option_or (wrong_at before is_bid) (wrong_at (before + 2) is_offer) }
{
    if is_bid {
        return Some(before);
    }
    if is_offer {
        return Some(before + 2);
    }
    None
}

/// The number of the empty field of a side that has only a price or only shares. The price's field has the given number, and
/// the shares' field the next one.
fn half_at(before: u8, price_text: &[u8], shares_text: &[u8]) -> Option<u8>
    requires { before < 8 }
    ensures { result ≡ half_at before price_text.now shares_text.now }
{
    if !is_half(price_text, shares_text) {
        return None;
    }
    Some(if price_text.is_empty() {
        before
    } else {
        before + 1
    })
}

/// The quote that a price and at least one share give.
fn quote_in(price_text: &[u8], shares_text: &[u8]) -> Option<SideQuote>
    ensures { result ≡ side_content price_text.now shares_text.now }
{
    let price = price_of(price_text)?;
    let shares = some_shares_of(shares_text)?;
    SideQuote::new(price, shares)
}

/// Whether a price field is not empty and is wrong. Its text is not a price, or it is zero although the shares are not zero.
fn is_bad_price(price_text: &[u8], shares_text: &[u8]) -> bool
    ensures { result ≡ is_bad_price price_text.now shares_text.now }
{
    !price_text.is_empty() && is_unfit(price_text, shares_text)
}

/// Whether a shares field is not empty, and its text is not a number of shares.
fn is_bad_shares(text: &[u8]) -> bool
    ensures { result ≡ is_bad_shares text.now }
{
    !text.is_empty() && Shares::parse(text).is_err()
}

fn is_half(price_text: &[u8], shares_text: &[u8]) -> bool
    ensures { result ≡ is_half price_text.now shares_text.now }
{
    let (no_price, no_shares) = (price_text.is_empty(), shares_text.is_empty());
    (no_price && !no_shares) || (!no_price && no_shares)
}

/// Whether a price field is wrong. Its text is not a price, or it is zero although the shares are not zero.
fn is_unfit(price_text: &[u8], shares_text: &[u8]) -> bool
    ensures { result ≡ is_unfit (price_number price_text.now) (shares_number shares_text.now) }
{
    match Price::parse(price_text) {
        Ok(_) => false,
        Err(UnitFault::ZeroPrice) => !is_zero(shares_text),
        Err(UnitFault::BadPrice | UnitFault::BadShares | UnitFault::BadMoney) => true,
    }
}

/// Whether a text gives zero shares.
fn is_zero(text: &[u8]) -> bool
    ensures { result ≡ is_zero (shares_number text.now) }
{
    match Shares::parse(text) {
        Ok(shares) => shares.get() == 0,
        Err(_) => false,
    }
}

/// The word for a side of the market: `BID` or `OFFER`.
pub fn word_of_side(side: Side) -> &'static str
    ensures { result.now ≡ side_word side }
{
    match side {
        Side::Bid => "BID",
        Side::Offer => "OFFER",
    }
}
