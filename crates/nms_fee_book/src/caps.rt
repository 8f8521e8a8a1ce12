//! The caps of access fees: `specs/Fees`.
ghost use Rattle.std.specs.Prelude.{◌≡◌};
ghost use Rattle.nms_fee_book.specs.Fees.{fee_cap, rate_cap};

use crate::{FEE_CAP_OF_2005, FEE_CAP_OF_2024, RATE_CAP_OF_2005, RATE_CAP_OF_2024};

/// The caps of access fees of 17 CFR 242.610(c): as adopted in 2005, or as amended in 2024.
///
/// Which of them is in force, and from when, is not claimed: the caller who makes a `FeeBook` chooses.
#[derive(Clone, Copy)]
pub enum Caps {
    /// As adopted in 2005: $0.003 a share at a price of one dollar or more, else 0.3 percent of the price.
    Of2005,
    /// As amended in 2024: $0.001 a share at a price of one dollar or more, else 0.1 percent of the price.
    Of2024,
}

impl Caps {
    /// The cap of a fee at a price of one dollar or more, in nanodollars a share.
    pub fn fee(self) -> u32
        ensures { result ≡ fee_cap self }
    {
        match self {
            Caps::Of2005 => FEE_CAP_OF_2005,
            Caps::Of2024 => FEE_CAP_OF_2024,
        }
    }

    /// The cap of a fee at a price below one dollar, in hundred-thousandths of the price.
    pub fn rate(self) -> u32
        ensures { result ≡ rate_cap self }
    {
        match self {
            Caps::Of2005 => RATE_CAP_OF_2005,
            Caps::Of2024 => RATE_CAP_OF_2024,
        }
    }
}
