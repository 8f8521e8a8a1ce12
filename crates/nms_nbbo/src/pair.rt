//! Two quotations that lock or cross each other: `specs/Pairs`.
ghost use Rattle.std.specs.Prelude.{◌≡◌, Some, IfSome};
ghost use Rattle.nms_nbbo.specs.Pairs.{clause_of, pair_of, pair_between};

use nms_board::Row;
use nms_quote::Part;

/// The clause that the later quotation of a pair breaks (17 CFR 242.610(d) as adopted in 2005).
#[derive(Clone, Copy)]
pub enum Clause {
    /// The earlier quotation is protected.
    Protected,
    /// The earlier quotation is not protected, and the later one is manual.
    Manual,
    /// The earlier quotation is not protected, and the later one is automated.
    Neither,
}

/// A bid and an offer of two participants that lock or cross each other.
#[derive(Clone, Copy)]
pub struct Pair {
    /// One participant's bid, at the offer's price or above.
    pub bid: Row,
    /// The other participant's offer.
    pub offer: Row,
    /// Whether the bid is above the offer. If it is not, they lock.
    pub crossed: bool,
    /// The participant whose quotation was received later, and so locks or crosses.
    pub later: Part,
    /// The clause that the later quotation breaks.
    pub clause: Clause,
}

/// The pair of a bid and an offer, if two participants quote them and the bid is at the offer or above.
pub(crate) fn pair_between(bid: &Row, offer: &Row) -> Option<Pair>
    ensures pair { result ≡ pair_between (Some bid.now) (Some offer.now) }
    ensures bid { IfSome result (λ pair. pair.bid ≡ bid.now) }
    ensures offer { IfSome result (λ pair. pair.offer ≡ offer.now) }
{
    if bid.part == offer.part || bid.price < offer.price {
        return None;
    }
    let (earlier, later) = if offer.receipt < bid.receipt {
        (offer, bid)
    } else {
        (bid, offer)
    };
    Some(Pair {
        bid: *bid,
        offer: *offer,
        crossed: offer.price < bid.price,
        later: later.part,
        clause: clause_of(earlier, later),
    })
}

/// The clause that the later of two quotations that lock or cross breaks.
fn clause_of(earlier: &Row, later: &Row) -> Clause
    ensures { result ≡ clause_of earlier.now later.now }
{
    if earlier.protected {
        Clause::Protected
    } else if !later.protected {
        Clause::Manual
    } else {
        Clause::Neither
    }
}
