//! Why a row makes no change: `specs/Causes`.
ghost use Rattle.std.specs.Prelude.{◌≡◌};
ghost use Rattle.nms_import.specs.Causes.{is_skipped};

use nms_quote::Side;

/// Why a row makes no change: the first cause that is found. The first ten of these causes refuse the row, and the last three
/// skip it.
#[derive(Clone, Copy, PartialEq, Eq)]
pub enum Cause {
    /// Fewer columns than the mapping names.
    TooFewColumns,
    /// The time is not of the mapping's form, or is no time of day.
    BadTime,
    /// The participant is not on the roster.
    UnknownParticipant,
    /// The symbol is not on the roster, and the mapping refuses such rows.
    UnknownSymbol,
    /// The mapping does not list the row's condition.
    UnknownCondition,
    /// The condition makes only the given side manual. No record can say that, and the mapping refuses such rows.
    OneSided(Side),
    /// Each row has one side, and the mapping does not list this row's word for it.
    UnknownSide,
    /// The price of a side is not of the mapping's unit, or above 9,999,999.9999 dollars.
    BadPrice(Side),
    /// The size of a side is not 1 to 9 digits, or more than 999,999,999 shares.
    BadSize(Side),
    /// A side has shares and no price.
    HalfSide(Side),
    /// The row is the last line of the file, as the mapping says: `END|20240102|..`.
    Trailer,
    /// The mapping lists the row's word among those to skip.
    Listed,
    /// The symbol is not on the roster, and the mapping skips such rows.
    OtherSymbol,
}

impl Cause {
    /// Whether the row is skipped instead of refused.
    pub fn skips(self) -> bool
        ensures { result ≡ is_skipped self }
    {
        match self {
            Cause::TooFewColumns
            | Cause::BadTime
            | Cause::UnknownParticipant
            | Cause::UnknownSymbol
            | Cause::UnknownCondition
            | Cause::OneSided(_)
            | Cause::UnknownSide
            | Cause::BadPrice(_)
            | Cause::BadSize(_)
            | Cause::HalfSide(_) => false,
            Cause::Trailer | Cause::Listed | Cause::OtherSymbol => true,
        }
    }
}
