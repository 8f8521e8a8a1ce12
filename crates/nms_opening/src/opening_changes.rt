//! The opening changes of one symbol, as a list inside the value.
ghost use Rattle.std.specs.Prelude.{◌≡◌, ◌<◌, ◌≤◌, [], ◌∷◌, ◌++◌, length};

use crate::MOST_OPENING;
use nms_quote::{Change, Part};
use std::marker::Model;

/// The opening changes of one symbol, in the order in which they apply: at most `MOST_OPENING`. The list needs no memory of its
/// own.
#[derive(Drop)]
pub struct OpeningChanges {
    places: [Change; MOST_OPENING],
    count: usize,
}

impl Model for OpeningChanges {
    ghost use Rattle.std.specs.Prelude.{◌≡◌, ◌≤◌, List, length, take};
    ghost use Rattle.nms_quote.specs.declared.change.Change.{Change};
    ghost use Rattle.nms_opening.specs.declared.TheConstants.{MOST_OPENING};

    ghost Value = { List Change };

    ghost view = { λ c. take c.count c.places };

    ghost invariant = { λ c. (c.count ≤ MOST_OPENING) × (length c.places ≡ MOST_OPENING) };
}

impl OpeningChanges {
    /// An empty list. The unused places hold a withdrawal, because there is no change that means nothing.
    pub(crate) fn none() -> Self
        ensures { result ≡ [] }
    {
        let unused = Change::Withdraw {
            part: Part::new(0).unwrap(),
        };
        OpeningChanges {
            places: [unused; MOST_OPENING],
            count: 0,
        }
    }

    /// Appends a change to the list.
    pub(crate) fn push(&mut self, change: Change)
        requires { length self.old < MOST_OPENING }
        ensures { self.new ≡ self.old ++ change ∷ [] }
    {
        let count = self.count;
        self.places[count] = change;
        self.count = count + 1;
    }

    /// The changes, at most `MOST_OPENING`.
    pub fn as_slice(&self) -> &[Change]
        ensures changes { result.now ≡ self.now }
        ensures few { length result.now ≤ MOST_OPENING }
    {
        &self.places[..self.count]
    }
}
