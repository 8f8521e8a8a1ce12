//! Share counts: `specs/Shares`.
ghost use Rattle.std.specs.Prelude.{◌≡◌, ℕ, ◌≤◌};
ghost use Rattle.std.specs.Option.{SomeIff};
ghost use Rattle.nms_units.specs.Shares.{shares_reading};

use crate::MOST_SHARES;
use crate::digits::parse_digits;
use crate::unit_fault::UnitFault;
use std::marker::Model;

/// A number of shares, 0 to `MOST_SHARES`, 999,999,999 (this product's own rule).
#[derive(Clone, Copy, Debug, PartialEq, Eq, PartialOrd, Ord)]
pub struct Shares {
    count: u32,
}

impl Model for Shares {
    ghost use Rattle.std.specs.Prelude.{ℕ, ◌≤◌};
    ghost use Rattle.nms_units.specs.declared.TheConstants.{MOST_SHARES};

    ghost Value = { ℕ };

    ghost view = { λ s. s.count };

    ghost invariant = { λ s. s.count ≤ MOST_SHARES };

    ghost inverse = { λ n. record { count = n } };
}

impl Shares {
    /// `count` shares; `None` if that is more than `MOST_SHARES`.
    pub fn new(count: u32) -> Option<Self>
        ensures { SomeIff result (count ≤ MOST_SHARES) count }
    {
        if count <= MOST_SHARES {
            Some(Shares { count })
        } else {
            None
        }
    }

    /// The number of shares, 0 to `MOST_SHARES`.
    pub fn get(self) -> u32
        ensures number { result ≡ self }
        ensures high { result ≤ MOST_SHARES }
    {
        self.count
    }

    /// Reads 1 to 9 digits, with leading zeros allowed. Any other text is `BadShares`.
    pub fn parse(text: &[u8]) -> Result<Self, UnitFault>
        ensures { result ≡ shares_reading text.now }
    {
        let number = parse_digits(text, 9).ok_or(UnitFault::BadShares)?;
        Ok(Shares {
            count: number as u32,
        })
    }
}
