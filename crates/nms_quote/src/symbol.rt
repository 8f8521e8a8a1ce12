//! A symbol's place, a number below `MOST_SYMBOLS`.
ghost use Rattle.std.specs.Prelude.{◌≡◌, ℕ, ◌<◌};
ghost use Rattle.std.specs.Option.{SomeIff};

use crate::MOST_SYMBOLS;
use std::marker::Model;

/// A symbol's place on the roster, 0 to 999, in order of adding.
#[derive(Clone, Copy, Debug, PartialEq, Eq)]
pub struct Sym {
    place: u16,
}

impl Model for Sym {
    ghost use Rattle.std.specs.Prelude.{ℕ, ◌<◌};
    ghost use Rattle.nms_quote.specs.declared.TheConstants.{MOST_SYMBOLS};

    ghost Value = { ℕ };

    ghost view = { λ s. s.place };

    ghost invariant = { λ s. s.place < MOST_SYMBOLS };

    ghost inverse = { λ n. record { place = n } };
}

impl Sym {
    /// The symbol at a place; `None` from `MOST_SYMBOLS` on.
    pub fn new(place: u16) -> Option<Self>
        ensures { SomeIff result (place < MOST_SYMBOLS) place }
    {
        if place < MOST_SYMBOLS {
            Some(Sym { place })
        } else {
            None
        }
    }

    /// The symbol at a place that is known to be one.
    pub(crate) fn at(place: usize) -> Self
        requires { place < MOST_SYMBOLS }
        ensures { result ≡ place }
    {
        Sym {
            place: place as u16,
        }
    }

    /// The place, 0 to 999.
    pub fn get(self) -> u16
        ensures place { result ≡ self }
        ensures below { result < MOST_SYMBOLS }
    {
        self.place
    }
}
