//! The access fees of one participant.

/// The access fees of a participant (17 CFR 242.610(c)). A negative number is a rebate. The caps of the fee book apply.
#[derive(Clone, Copy)]
pub struct FeeSchedule {
    /// Nanodollars for a share, at a price of one dollar or more: -`MOST_FEE` to `Caps::fee`.
    pub fee: i64,
    /// Hundred-thousandths of the price for a share, at a lower price: -`MOST_RATE` to `Caps::rate`.
    pub rate: i64,
}
