//! Why a text is refused: the faults of `specs/Price`, `specs/Shares` and `specs/Money`.
use std::fmt;
use thiserror::Error;

/// Why a text is not a price, a share count or money.
#[derive(Clone, Copy, Debug, PartialEq, Eq, Error)]
pub enum UnitFault {
    /// U1: the text is not 1 to 7 digits with at most a point and 1 to 4 digits after it.
    BadPrice,
    /// U2: the price is zero.
    ZeroPrice,
    /// U3: the text is not 1 to 9 digits.
    BadShares,
    /// U4: the text is not an optional minus, 1 to 20 digits, a point and nine digits.
    BadMoney,
}

impl fmt::Display for UnitFault {
    fn fmt<W: fmt::Write>(&self, f: &mut fmt::Formatter<W>) -> fmt::Result {
        f.write_str(match self {
            UnitFault::BadPrice => "U1: not a price",
            UnitFault::ZeroPrice => "U2: the price is zero",
            UnitFault::BadShares => "U3: not a share count",
            UnitFault::BadMoney => "U4: not an amount of money",
        })
    }
}
