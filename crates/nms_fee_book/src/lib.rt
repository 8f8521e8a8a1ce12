//! The cost of a share with the participants' access fees, and the caps that these fees keep (17 CFR 242.610(c) as adopted in
//! 2005, or as amended in 2024).
#![tactic(auto)]

mod caps;
mod fee_book;
mod fee_schedule;

pub use caps::Caps;
pub use fee_book::FeeBook;
pub use fee_schedule::FeeSchedule;

/// The most that a fee or a rebate may be at a price of one dollar or more, in nanodollars for a share.
pub const MOST_FEE: u32 = 10_000_000;
/// The cap of a fee at a price of one dollar or more, in nanodollars for a share: $0.003 (17 CFR 242.610(c),
/// as adopted in 2005).
pub const FEE_CAP_OF_2005: u32 = 3_000_000;
/// The cap of a fee at a price of one dollar or more, in nanodollars: $0.001 a share (17 CFR 242.610(c), as amended in 2024).
pub const FEE_CAP_OF_2024: u32 = 1_000_000;
/// The most that a fee or a rebate may be at a lower price, in hundred-thousandths of the price.
pub const MOST_RATE: u32 = 1000;
/// The cap of a fee at a lower price, in hundred-thousandths of the price: 0.3 percent (17 CFR 242.610(c), as
/// adopted in 2005).
pub const RATE_CAP_OF_2005: u32 = 300;
/// The cap of a fee at a lower price, in hundred-thousandths of the price: 0.1 percent (17 CFR 242.610(c), as amended in 2024).
pub const RATE_CAP_OF_2024: u32 = 100;
