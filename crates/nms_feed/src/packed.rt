//! A change with its mark, as it is in the lane's queue: `specs/Packed`.
ghost use Rattle.std.specs.Prelude.{◌≡◌};
ghost use Rattle.nms_feed.specs.Packed.{content_in};

use nms_quote::{Change, Feed, Part, QState, SideQuote, Sym};
use nms_units::{Lot, Price, Shares};
use std::marker::Model;

/// A change with its mark in 32 bytes. That is half of what `Marked` takes, because a full queue is moved from one processor to
/// another. Fields that a change of its kind does not have are ignored.
#[derive(Drop)]
pub struct Packed {
    bid: Price,
    offer: Price,
    /// The shares of the bid; 0 if no bid is quoted.
    bid_shares: Shares,
    /// The shares of the offer; 0 if no offer is quoted.
    offer_shares: Shares,
    sym: Sym,
    lot: Lot,
    part: Part,
    state: QState,
    kind: Kind,
    feed: Feed,
}

/// The kind of a change in the lane's queue.
#[derive(Clone, Copy)]
pub(crate) enum Kind {
    Quote,
    State,
    Withdraw,
    Lot,
}

impl Model for Packed {
    ghost use Rattle.nms_feed.specs.Packed.{change_in, content_in};
    ghost use Rattle.nms_quote.specs.declared.marked.Marked.{Marked};

    ghost Value = { Marked };

    ghost view = { λ p. record {
      feed = p.feed;
      change = change_in p.kind p.part p.sym p.state p.lot (content_in p.bid p.bid_shares) (content_in p.offer p.offer_shares);
    } };
}

impl Packed {
    /// A change with the mark of its feed.
    pub(crate) fn of(feed: Feed, change: &Change) -> Packed
        ensures packed { result ≡ record { feed = feed; change = change.now } }
    {
        let bare = Packed::bare(feed);
        match *change {
            Change::Quote {
                part,
                sym,
                state,
                bid,
                offer,
            } => {
                let (bid, bid_shares) = numbers_of(bid);
                let (offer, offer_shares) = numbers_of(offer);
                Packed {
                    bid,
                    offer,
                    bid_shares,
                    offer_shares,
                    sym,
                    part,
                    state,
                    kind: Kind::Quote,
                    ..bare
                }
            }
            Change::State { part, sym, state } => Packed {
                sym,
                part,
                state,
                kind: Kind::State,
                ..bare
            },
            Change::Withdraw { part } => Packed {
                part,
                kind: Kind::Withdraw,
                ..bare
            },
            Change::Lot { sym, lot } => Packed {
                sym,
                lot,
                kind: Kind::Lot,
                ..bare
            },
        }
    }

    /// A change of the feed before its fields are set: each field has the least number.
    fn bare(feed: Feed) -> Packed
        ensures { result.feed ≡ feed }
    {
        let price = Price::new(1).unwrap();
        let shares = Shares::new(0).unwrap();
        Packed {
            bid: price,
            offer: price,
            bid_shares: shares,
            offer_shares: shares,
            sym: Sym::new(0).unwrap(),
            lot: Lot::new(1).unwrap(),
            part: Part::new(0).unwrap(),
            state: QState::Automated,
            kind: Kind::Withdraw,
            feed,
        }
    }

    /// The change without the mark of its feed.
    pub(crate) fn change(&self) -> Change
        ensures change { result ≡ self.now.change }
    {
        let (part, sym, state) = (self.part, self.sym, self.state);
        match self.kind {
            Kind::Quote => Change::Quote {
                part,
                sym,
                state,
                bid: SideQuote::new(self.bid, self.bid_shares),
                offer: SideQuote::new(self.offer, self.offer_shares),
            },
            Kind::State => Change::State { part, sym, state },
            Kind::Withdraw => Change::Withdraw { part },
            Kind::Lot => Change::Lot { sym, lot: self.lot },
        }
    }
}

/// The price and the shares of a side; 0 shares if nothing is quoted.
fn numbers_of(side: Option<SideQuote>) -> (Price, Shares)
    ensures { content_in result.0 result.1 ≡ side }
{
    match side {
        Some(quote) => (quote.price, quote.shares),
        None => (Price::new(1).unwrap(), Shares::new(0).unwrap()),
    }
}
