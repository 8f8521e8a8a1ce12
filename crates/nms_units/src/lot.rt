//! Round lots: `specs/Lot`.
ghost use Rattle.std.specs.Prelude.{◌≡◌, ℕ, ◌≤◌};
ghost use Rattle.std.specs.Option.{SomeIff};
ghost use Rattle.nms_units.specs.Lot.{average_lot, displayed_size};

use crate::MOST_LOT;
use crate::price::Price;
use crate::shares::Shares;
use std::fmt;
use std::marker::Model;

/// A round lot: 1 to `MOST_LOT` (1,000) shares (17 CFR 242.600, "round lot").
#[derive(Clone, Copy, PartialEq, Eq, PartialOrd, Ord)]
pub struct Lot {
    shares: u16,
    /// 2^64 - 1 divided by the shares. By it a size is rounded down to whole lots without a division.
    reciprocal: u64,
}

impl Model for Lot {
    ghost use Rattle.std.specs.Prelude.{ℕ, ◌≡◌, ◌≤◌};
    ghost use Rattle.nms_units.specs.Lot.{reciprocal_of};
    ghost use Rattle.nms_units.specs.declared.TheConstants.{MOST_LOT};

    ghost Value = { ℕ };

    ghost view = { λ l. l.shares };

    ghost invariant = { λ l. (1 ≤ l.shares) × (l.shares ≤ MOST_LOT) × (l.reciprocal ≡ reciprocal_of l.shares) };

    ghost inverse = { λ n. record { shares = n; reciprocal = reciprocal_of n } };
}

impl Lot {
    /// A lot of `shares`; `None` if that is not 1 to `MOST_LOT`.
    pub fn new(shares: u16) -> Option<Self>
        ensures { SomeIff result ((1 ≤ shares) × (shares ≤ MOST_LOT)) shares }
    {
        if 1 <= shares && shares <= MOST_LOT {
            Some(Lot::of(shares))
        } else {
            None
        }
    }

    /// The round lot by an average closing price (17 CFR 242.600, "round lot"): 100 shares up to
    /// 250.0000 dollars, 40 up to 1,000.0000, 10 up to 10,000.0000, and 1 above. A price between two
    /// tiers belongs to the higher-priced one (this product's own rule).
    pub fn by_average(average: Price) -> Self
        ensures { result ≡ average_lot average }
    {
        let shares = match average.get() {
            0..=2_500_000 => 100,
            2_500_001..=10_000_000 => 40,
            10_000_001..=100_000_000 => 10,
            _ => 1,
        };
        Lot::of(shares)
    }

    /// The lot of a number of shares from 1 to `MOST_LOT`.
    fn of(shares: u16) -> Self
        requires low { 1 ≤ shares }
        requires high { shares ≤ MOST_LOT }
        ensures { result ≡ shares }
    {
        let reciprocal = u64::MAX / u64::from(shares);
        Lot { shares, reciprocal }
    }

    /// The number of shares in a lot, 1 to `MOST_LOT`.
    pub fn get(self) -> u16
        ensures number { result ≡ self }
        ensures low { 1 ≤ result }
        ensures high { result ≤ MOST_LOT }
    {
        self.shares
    }

    /// The displayed size of a side in shares, which is its message's shares, rounded down to whole lots. Each change and each
    /// row of a look computes it.
    pub fn displayed(self, shares: Shares) -> u32
        ensures size { result ≡ displayed_size self shares }
        ensures within { result ≤ shares }
    {
        let more = u128::from(shares.get()) + 1;
        let lots = (u128::from(self.reciprocal) * more >> 64) as u32;
        lots * u32::from(self.shares)
    }
}

impl fmt::Debug for Lot {
    /// Writes only the shares, as `Lot { shares: 100 }`, because the reciprocal follows from them.
    fn fmt<W: fmt::Write>(&self, f: &mut fmt::Formatter<W>) -> fmt::Result {
        f.debug_struct("Lot").field("shares", &self.shares).finish()
    }
}
