//! Why a row makes no execution: `specs/TradeCauses`.
ghost use Rattle.std.specs.Prelude.{◌≡◌};
ghost use Rattle.nms_import_trades.specs.TradeCauses.{is_skipped};

/// Why a row makes no execution: the first that holds, as `specs/TradeRow` orders them. The last four skip the row, the
/// others refuse it.
#[derive(Clone, Copy)]
pub enum TradeCause {
    /// Fewer columns than the mapping names.
    TooFewColumns,
    /// The name is not 1 to 32 of letters, digits, `.`, `-` and `_`.
    BadName,
    /// The time is not of the mapping's form, or is no time of day.
    BadTime,
    /// The participant is not on the roster.
    UnknownParticipant,
    /// The symbol is not on the roster, and the mapping refuses such rows.
    UnknownSymbol,
    /// The price is not of the mapping's unit, has more than 6 decimals, is zero, or is above 9,999,999.999999 dollars.
    BadPrice,
    /// The shares are not a number of 1 to 9 digits, or are zero.
    BadShares,
    /// The mapping does not list the row's word for its side.
    UnknownSide,
    /// The row's condition has a letter that the mapping does not list.
    UnknownCondition,
    /// The mapping does not list the row's mark of an exempt trade.
    UnknownMark,
    /// The mapping lists words of rows to keep. The row's word is neither among them nor among those to skip.
    UnknownWord,
    /// The row's date is not that of the first execution.
    OtherDay,
    /// The row is the last line of the file, as the mapping says: `END|20240102|..`.
    Trailer,
    /// The mapping lists the row's word among those to skip.
    Listed,
    /// A letter of the row's condition says that it is no trade.
    NoTrade,
    /// The symbol is not on the roster, and the mapping skips such rows.
    OtherSymbol,
}

impl TradeCause {
    /// Whether the row is skipped instead of refused.
    pub fn skips(self) -> bool
        ensures { result ≡ is_skipped self }
    {
        match self {
            TradeCause::TooFewColumns
            | TradeCause::BadName
            | TradeCause::BadTime
            | TradeCause::UnknownParticipant
            | TradeCause::UnknownSymbol
            | TradeCause::BadPrice
            | TradeCause::BadShares
            | TradeCause::UnknownSide
            | TradeCause::UnknownCondition
            | TradeCause::UnknownMark
            | TradeCause::UnknownWord
            | TradeCause::OtherDay => false,
            TradeCause::Trailer
            | TradeCause::Listed
            | TradeCause::NoTrade
            | TradeCause::OtherSymbol => true,
        }
    }
}
