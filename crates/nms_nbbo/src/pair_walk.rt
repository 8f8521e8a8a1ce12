//! Finding the pairs of a view, one after another: `specs/Pairs` and `specs/Walk`.
ghost use Rattle.std.specs.Prelude.{◌≡◌, ◌+◌, ◌<◌, [], ◌∷◌, IfSome, MatchOption};
ghost use Rattle.nms_nbbo.specs.Pairs.{pairs_from, place_of};
ghost use Rattle.nms_nbbo.specs.Walk.{AreByPart, IsFirstPairOf};

use crate::pair::{Pair, pair_between};
use crate::pair_place::PairPlace;
use nms_board::{Row, View};
use nms_quote::Side;

/// The first pair at or after a place, and the place from which to go on. From place 0 on, each pair of two participants whose
/// quotations lock or cross comes once.
pub fn next_pair(view: &View, from: PairPlace) -> Option<(Pair, PairPlace)>
    ensures pairs { MatchOption result (pairs_from from view.now ≡ []) (λ found. pairs_from from view.now ≡ found.0 ∷ pairs_from found.1 view.now) }
    ensures place { IfSome result (λ found. found.1 ≡ place_of found.0.bid found.0.offer + 1) }
    ensures higher { IfSome result (λ found. from < found.1) }
{
    let bids = view.rows(Side::Bid);
    let offers = view.rows(Side::Offer);
    let pair = first_pair(bids, offers, from)?;
    let behind = place_behind(&pair);
    Some((pair, behind))
}

/// The place after a pair.
fn place_behind(pair: &Pair) -> PairPlace
    ensures { result ≡ place_of pair.now.bid pair.now.offer + 1 }
{
    PairPlace::of(pair.bid.part, pair.offer.part).next()
}

/// The first pair that locks or crosses, at the given place of the walk or after it.
fn first_pair(bids: &[Row], offers: &[Row], from: PairPlace) -> Option<Pair>
    requires bids { AreByPart bids.now }
    requires offers { AreByPart offers.now }
    ensures { IsFirstPairOf bids.now offers.now from result }
{
    for bid in bids {
        if let Some(pair) = first_pair_of(bid, offers, from) {
            return Some(pair);
        }
    }
    None
}

/// The first pair of a bid that locks or crosses, at the given place of the walk or after it. A bid whose pairs all come before
/// that place is skipped.
fn first_pair_of(bid: &Row, offers: &[Row], from: PairPlace) -> Option<Pair>
    requires { AreByPart offers.now }
    ensures { IsFirstPairOf (bid.now ∷ []) offers.now from result }
{
    let last = offers.last()?;
    if PairPlace::of(bid.part, last.part) < from {
        return None;
    }
    for offer in offers {
        if let Some(pair) = pair_from(bid, offer, from) {
            return Some(pair);
        }
    }
    None
}

/// The pair of a bid and an offer that lock or cross, if it is at the given place of the walk or after it.
fn pair_from(bid: &Row, offer: &Row, from: PairPlace) -> Option<Pair>
    ensures { IsFirstPairOf (bid.now ∷ []) (offer.now ∷ []) from result }
{
    if PairPlace::of(bid.part, offer.part) < from {
        return None;
    }
    pair_between(bid, offer)
}
