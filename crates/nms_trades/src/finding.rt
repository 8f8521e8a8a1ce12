//! What is found about an execution.
ghost use Rattle.std.specs.Prelude.{◌≡◌, not};
ghost use Rattle.nms_trades.specs.Counts.{flickers_at, passes};

use crate::standing::Standing;
use nms_board::Row;
use nms_quote::Side;

/// The best bid and the best offer of an execution's version in its symbol (17 CFR 242.600, "national best bid and national
/// best offer"). A side is `None` if it has no quotation. A best quotation need not be protected.
#[derive(Clone, Copy)]
pub struct Best {
    /// The bid that ranks first.
    pub bid: Option<Row>,
    /// The offer that ranks first.
    pub offer: Option<Row>,
}

/// What is found about an execution on its version.
#[derive(Drop)]
pub struct Finding {
    /// The protected quotations that it trades through: the bids, then the offers, each in rank order.
    pub passed: Vec<(Side, Row)>,
    /// Whether the best protected bid was above the best protected offer (17 CFR 242.611(b)(4)).
    pub crossed: bool,
    /// The best quotations of its version.
    pub best: Best,
    /// Whether it trades through on the versions of its window. Without a window, on its version.
    pub standing: Standing,
    /// For each of the quotations, in their order, whether it flickered. It did if, within one second before, its participant's
    /// protected quotation on that side was at the price or inferior to it (242.611(b)(8)). Empty if flickers were not looked
    /// for.
    pub flickers: Vec<bool>,
}

impl Finding {
    /// Whether no protected quotation of its version is traded through.
    pub fn is_clean(&self) -> bool
        ensures { result ≡ not (passes self.now) }
    {
        self.passed.is_empty()
    }

    /// Whether a quotation that was traded through flickered. It is given by its place in the list of these quotations.
    pub fn is_flickering(&self, place: usize) -> bool
        ensures { result ≡ flickers_at self.now place }
    {
        self.flickers.get(place).copied().unwrap_or(false)
    }
}
