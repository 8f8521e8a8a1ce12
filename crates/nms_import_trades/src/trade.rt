//! The execution that an accepted row of a file of trades makes.
use nms_quote::{Part, Sym};
use nms_trades::Deal;
use nms_units::Shares;

/// The execution that an accepted row makes, without its name and its condition.
#[derive(Clone, Copy)]
pub struct Trade {
    /// The time of day as digits, `HHMMSSnnnnnnnnn`.
    pub time: u64,
    /// The day, if the row has a date: `nms_import::day_of`.
    pub day: Option<u64>,
    /// The exchange on which the trade was executed; `None` for a trade off an exchange.
    pub part: Option<Part>,
    /// The symbol that was traded.
    pub sym: Sym,
    /// The price in 1/1,000,000 dollar, at least 1.
    pub millionths: u64,
    /// The shares, at least 1.
    pub shares: Shares,
    /// Whether the trade was a purchase or a sale; `None` if the row does not say.
    pub deal: Option<Deal>,
    /// Whether the row marks the trade exempt.
    pub marked: bool,
}
