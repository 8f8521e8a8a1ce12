//! Why an execution's record is refused: `specs/Faults`.
ghost use Rattle.std.specs.Prelude.{◌≡◌};
ghost use Rattle.nms_trades.specs.Faults.{code_of, column_of};

/// Why an execution's record is refused: the first that holds, in this order.
#[derive(Clone, Copy)]
pub enum TradeFault {
    /// X1: the first field is not `D`.
    UnknownKind,
    /// X2: the record does not have nine fields.
    FieldCount,
    /// X3: the name is not 1 to 32 of letters, digits, `.`, `-` and `_`.
    BadName,
    /// X4: the symbol is not on the roster.
    UnknownSymbol,
    /// X5: the text is no price, or the price is zero.
    BadPrice,
    /// X6: the text is no number of shares, or it is zero.
    BadShares,
    /// X7: the side is not `B`, `S` or empty.
    BadSide,
    /// X8: the text is neither a version of 1 to 9 digits, nor `@` and a time.
    BadVersion,
    /// X9: there are fewer changes than the version says.
    Beyond,
    /// X10: the participant is neither empty nor on the roster.
    UnknownParticipant,
    /// X11: a text is no flag, names a participant that is not on the roster, or is a name itself after the names of self-help.
    BadFlags,
    /// X12: there is a time instead of a version, and the changes have no times.
    NoTimes,
    /// X13: the file of symbols has no changes of the symbol, so that its times are not known.
    NoChanges,
}

impl TradeFault {
    /// The code of the fault, `X1` to `X13`.
    pub(crate) fn code(self) -> &'static str
        ensures { result.now ≡ code_of self }
    {
        match self {
            TradeFault::UnknownKind => "X1",
            TradeFault::FieldCount => "X2",
            TradeFault::BadName => "X3",
            TradeFault::UnknownSymbol => "X4",
            TradeFault::BadPrice => "X5",
            TradeFault::BadShares => "X6",
            TradeFault::BadSide => "X7",
            TradeFault::BadVersion => "X8",
            TradeFault::Beyond => "X9",
            TradeFault::UnknownParticipant => "X10",
            TradeFault::BadFlags => "X11",
            TradeFault::NoTimes => "X12",
            TradeFault::NoChanges => "X13",
        }
    }

    /// The column that the fault is about, counted from 1. A wrong number of fields is reported at the first column.
    pub(crate) fn column(self) -> u64
        ensures { result ≡ column_of self }
    {
        match self {
            TradeFault::UnknownKind | TradeFault::FieldCount => 1,
            TradeFault::BadName => 2,
            TradeFault::UnknownSymbol | TradeFault::NoChanges => 3,
            TradeFault::BadPrice => 4,
            TradeFault::BadShares => 5,
            TradeFault::BadSide => 6,
            TradeFault::BadVersion | TradeFault::Beyond | TradeFault::NoTimes => 7,
            TradeFault::UnknownParticipant => 8,
            TradeFault::BadFlags => 9,
        }
    }
}
