//! Sets of participants: `specs/Members`.
ghost use Rattle.std.specs.Prelude.{◌≡◌, ℕ, ◌==◌, ◌||◌, false};
ghost use Rattle.nms_quote.specs.Members.{AreSetsByMembers, has_part, nobody, with_part};

use crate::participant::Part;
use std::marker::Model;

/// A set of participants' places. It takes no memory.
#[derive(Clone, Copy, Debug, PartialEq, Eq)]
pub struct PartSet {
    mask: u32,
}

impl Model for PartSet {
    ghost use Rattle.std.specs.Prelude.{ℕ, ◌<◌, ◌^◌};

    ghost Value = { ℕ };

    ghost view = { λ s. s.mask };

    ghost invariant = { λ s. s.mask < 2 ^ 32 };

    ghost inverse = { λ n. record { mask = n } };
}

impl PartSet {
    /// The empty set.
    pub fn none() -> Self
        ensures set { result ≡ nobody }
        ensures members { (place : ℕ) → has_part result place ≡ false }
    {
        PartSet { mask: 0 }
    }

    /// The set by a number's binary digits: the participant at a place is in it if that digit is 1.
    pub fn of(digits: u32) -> Self
        ensures { result ≡ digits }
    {
        PartSet { mask: digits }
    }

    /// The set as a number, a binary digit for each place.
    pub fn digits(self) -> u32
        ensures { result ≡ self }
    {
        self.mask
    }

    /// The set together with this participant. A participant that is in it already counts once.
    pub fn with(self, part: Part) -> Self
        ensures set { result ≡ with_part self part }
        ensures members { (place : ℕ) → has_part result place ≡ (place == part || has_part self place) }
    {
        PartSet {
            mask: self.mask | 1 << part.get(),
        }
    }

    /// Whether the participant is in the set.
    pub fn has(self, part: Part) -> bool
        ensures { result ≡ has_part self part }
    {
        self.mask >> part.get() & 1 == 1
    }

    /// Whether the set is empty.
    pub fn is_empty(self) -> bool
        ensures { result ≡ (self == nobody) }
    {
        self.mask == 0
    }

    /// A law: two sets with the same members are equal.
    pub fn sets_are_their_members()
        ensures { AreSetsByMembers }
    {}
}
