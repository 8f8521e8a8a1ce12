//! The best bid and the best offer of a symbol.
use nms_board::Row;

/// The best bid and the best offer of a symbol (17 CFR 242.600, "national best bid and national best offer"). A side is `None`
/// if it is empty.
#[derive(Clone, Copy)]
pub struct BestRows {
    /// The row that ranks first among the bids.
    pub bid: Option<Row>,
    /// The row that ranks first among the offers.
    pub offer: Option<Row>,
}
