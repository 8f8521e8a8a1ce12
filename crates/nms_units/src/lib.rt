//! Prices, share counts, round lots and money, as numbers and as text.
//!
//! A price is counted in 1/10,000 dollar, a size in shares and money in nanodollars. Nothing here
//! allocates.
#![tactic(auto)]

mod digits;
mod lot;
mod money;
mod price;
mod shares;
mod unit_fault;

/// The highest price in 1/10,000 dollar: 9,999,999.9999 dollars. This product's own rule.
pub const MOST_PRICE: u64 = 99_999_999_999;
/// The most shares of a quotation or an order. This product's own rule.
pub const MOST_SHARES: u32 = 999_999_999;
/// The most shares of a round lot. This product's own rule.
pub const MOST_LOT: u16 = 1000;

pub use digits::{digits_read_as_printed, parse_digits};
pub use lot::Lot;
pub use money::Money;
pub use price::Price;
pub use shares::Shares;
pub use unit_fault::UnitFault;
