//! A participant's place, a number below `MOST_PARTICIPANTS`.
ghost use Rattle.std.specs.Prelude.{◌≡◌, ℕ, ◌<◌};
ghost use Rattle.std.specs.Option.{SomeIff};

use crate::MOST_PARTICIPANTS;
use std::marker::Model;

/// A participant's place on the roster, 0 to 31, in order of adding.
#[derive(Clone, Copy, Debug, PartialEq, Eq, PartialOrd)]
pub struct Part {
    place: u8,
}

impl Model for Part {
    ghost use Rattle.std.specs.Prelude.{ℕ, ◌<◌};
    ghost use Rattle.nms_quote.specs.declared.TheConstants.{MOST_PARTICIPANTS};

    ghost Value = { ℕ };

    ghost view = { λ p. p.place };

    ghost invariant = { λ p. p.place < MOST_PARTICIPANTS };

    ghost inverse = { λ n. record { place = n } };
}

impl Part {
    /// The participant at a place; `None` from `MOST_PARTICIPANTS` on.
    pub fn new(place: u8) -> Option<Self>
        ensures { SomeIff result (place < MOST_PARTICIPANTS) place }
    {
        if place < MOST_PARTICIPANTS {
            Some(Part { place })
        } else {
            None
        }
    }

    /// The participant at a place that is known to be one.
    pub(crate) fn at(place: usize) -> Self
        requires { place < MOST_PARTICIPANTS }
        ensures { result ≡ place }
    {
        Part { place: place as u8 }
    }

    /// The place, 0 to 31.
    pub fn get(self) -> u8
        ensures place { result ≡ self }
        ensures below { result < MOST_PARTICIPANTS }
    {
        self.place
    }
}
