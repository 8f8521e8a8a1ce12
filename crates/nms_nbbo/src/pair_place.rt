//! The place of a walk over the pairs: `specs/Walk`.
ghost use Rattle.std.specs.Prelude.{◌≡◌, ℕ, ◌+◌, ◌*◌, ◌<◌, ◌≤◌};
ghost use Rattle.std.specs.Option.{SomeIff};

use nms_quote::Part;
use std::marker::Model;

/// The place of a walk over a symbol's pairs, 0 to 1,024 (this product's own rule). A pair is at 32 times the bid's
/// place on the roster plus the offer's; 1,024 is after the last.
#[derive(Clone, Copy, PartialEq, Eq, PartialOrd)]
pub struct PairPlace {
    place: u16,
}

impl Model for PairPlace {
    ghost Value = { ℕ };

    ghost view = { λ p. p.place };

    ghost invariant = { λ p. p.place ≤ 1024 };

    ghost inverse = { λ n. record { place = n } };
}

impl PairPlace {
    /// The place with that number; `None` above 1,024.
    pub fn new(place: u16) -> Option<Self>
        ensures { SomeIff result (place ≤ 1024) place }
    {
        if place <= 1024 {
            Some(PairPlace { place })
        } else {
            None
        }
    }

    /// The number of the place, 0 to 1,024.
    pub fn get(self) -> u16
        ensures place { result ≡ self }
        ensures within { result ≤ 1024 }
    {
        self.place
    }

    /// The place of the pair of a bid and an offer of two participants.
    pub(crate) fn of(bid: Part, offer: Part) -> Self
        ensures place { result ≡ 32 * bid + offer }
        ensures before_end { result < 1024 }
        ensures narrow { offer < 32 }
    {
        PairPlace {
            place: 32 * u16::from(bid.get()) + u16::from(offer.get()),
        }
    }

    /// The place after this one.
    pub(crate) fn next(self) -> Self
        requires { self < 1024 }
        ensures { result ≡ self + 1 }
    {
        PairPlace {
            place: self.get() + 1,
        }
    }
}
