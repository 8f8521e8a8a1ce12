//! The finding on a vendor's national best and ours: `specs/Finding`.
ghost use Rattle.std.specs.Prelude.{◌≡◌, ◌==◌};
ghost use Rattle.nms_compare.specs.Finding.{agrees, both_agree, finding_of, is_nothing};

use crate::national::{Best, National};
use nms_board::Row;
use nms_stream::Quoted;

/// The finding on a row, on the version at its time.
#[derive(Clone, Copy, PartialEq, Eq)]
pub enum Finding {
    /// Prices, displayed sizes and venues are the same on both sides.
    Equal,
    /// A price differs, or only the vendor or only the tape has a side.
    OtherPrice,
    /// The prices are the same, but a displayed size differs.
    OtherSize,
    /// Prices and sizes are the same, but a venue differs.
    OtherVenue,
    /// Either the vendor or the tape has neither a bid nor an offer, but the other one has a quotation.
    NoCounterpart,
}

/// The finding on a vendor's national best and that of the tape.
pub fn find_between(ours: &Quoted, theirs: &National) -> Finding
    ensures { result ≡ finding_of ours.now theirs.now }
{
    if is_nothing(&ours.bid, &ours.offer) != is_none(&theirs.bid, &theirs.offer) {
        return Finding::NoCounterpart;
    }
    if !(same_price(&ours.bid, &theirs.bid) && same_price(&ours.offer, &theirs.offer)) {
        return Finding::OtherPrice;
    }
    if !(same_size(&ours.bid, &theirs.bid) && same_size(&ours.offer, &theirs.offer)) {
        return Finding::OtherSize;
    }
    if !(same_venue(&ours.bid, &theirs.bid) && same_venue(&ours.offer, &theirs.offer)) {
        return Finding::OtherVenue;
    }
    Finding::Equal
}

/// Whether the tape has neither a bid nor an offer.
fn is_nothing(bid: &Option<Row>, offer: &Option<Row>) -> bool
    ensures { result ≡ is_nothing bid.now offer.now }
{
    bid.is_none() && offer.is_none()
}

/// Whether a vendor has neither a bid nor an offer.
fn is_none(bid: &Option<Best>, offer: &Option<Best>) -> bool
    ensures { result ≡ is_nothing bid.now offer.now }
{
    bid.is_none() && offer.is_none()
}

/// Whether the vendor and the tape have the same price on a side, or both have no quotation there.
fn same_price(ours: &Option<Row>, theirs: &Option<Best>) -> bool
    ensures { result ≡ agrees (λ row best. row.price == best.price) ours.now theirs.now }
{
    match (ours, theirs) {
        (None, None) => true,
        (Some(row), Some(best)) => row.price == best.price,
        (None, Some(_)) | (Some(_), None) => false,
    }
}

/// Whether the vendor and the tape have the same displayed size on a side, or both have no quotation there.
fn same_size(ours: &Option<Row>, theirs: &Option<Best>) -> bool
    ensures { result ≡ agrees (λ row best. row.size == best.shares) ours.now theirs.now }
{
    match (ours, theirs) {
        (None, None) => true,
        (Some(row), Some(best)) => row.size == best.shares.get(),
        (None, Some(_)) | (Some(_), None) => false,
    }
}

/// Whether the vendor and the tape have the same venue on a side, or both have no quotation there.
fn same_venue(ours: &Option<Row>, theirs: &Option<Best>) -> bool
    ensures { result ≡ agrees (λ row best. row.part == best.part) ours.now theirs.now }
{
    match (ours, theirs) {
        (None, None) => true,
        (Some(row), Some(best)) => row.part == best.part,
        (None, Some(_)) | (Some(_), None) => false,
    }
}
