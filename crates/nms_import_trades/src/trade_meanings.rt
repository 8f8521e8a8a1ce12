//! What the texts of a file of trades mean: `specs/TradeRow`.
use crate::claim::Claim;
use nms_import::{Meanings, Word};

/// What the texts of a file of trades mean.
pub struct TradeMeanings {
    /// The meanings that files of quotes have too: times, the unit of prices, names, symbols, the last line and the words to
    /// skip. A participant's name may be empty, which means off an exchange.
    pub common: Meanings,
    /// The words for a purchase.
    pub bought: Vec<Word>,
    /// The words for a sale.
    pub sold: Vec<Word>,
    /// The words that name neither a purchase nor a sale.
    pub neither: Vec<Word>,
    /// Each flag with the letters of a condition that claim it.
    pub claims: Vec<Claim>,
    /// The letters of a condition that claim no flag.
    pub nothing: Vec<u8>,
    /// The letters of rows that are no trades, and are skipped.
    pub no_trade: Vec<u8>,
    /// The words of the column `skip` whose rows are kept. If there are none, all rows are kept that are not skipped.
    pub kept: Vec<Word>,
    /// The words of a trade that is marked exempt.
    pub marked: Vec<Word>,
    /// The words of a trade that is not marked exempt.
    pub unmarked: Vec<Word>,
}

/// The meanings have their own `Drop`. A function that holds them has one call at each exit, and not one for each part
/// (docs/GATE.md).
impl Drop for TradeMeanings {
    fn drop(self) {
        let TradeMeanings {
            common: _,
            bought: _,
            sold: _,
            neither: _,
            claims: _,
            nothing: _,
            no_trade: _,
            kept: _,
            marked: _,
            unmarked: _,
        } = self;
    }
}
