//! The flags that the letters of a trade's condition claim.
ghost use Rattle.std.specs.Prelude.{◌≡◌};
ghost use Rattle.nms_import_trades.specs.Executions.{flag_letter};
ghost use Rattle.nms_import_trades.specs.TradeRow.{is_exempt, is_reason};

/// A flag of an execution, which is written as one letter. The command `trades` reads that letter.
#[derive(Clone, Copy)]
pub enum Flag {
    /// `C`: not regular way (17 CFR 242.611(b)(2)).
    NotRegular,
    /// `O`: a single-priced opening, reopening or closing (17 CFR 242.611(b)(3)).
    SinglePriced,
    /// `I`: an intermarket sweep order (17 CFR 242.611(b)(5)).
    Sweep,
    /// `J`: the trading center sent intermarket sweep orders at the same time (17 CFR 242.611(b)(6)).
    Swept,
    /// `K`: a benchmark price (17 CFR 242.611(b)(7)).
    Benchmark,
    /// `P`: a stopped order (17 CFR 242.611(b)(9)).
    Stopped,
    /// `Q`: a qualified contingent trade.
    Contingent,
    /// `E`: marked exempt, without a reason.
    Exempt,
    /// `T`: outside regular trading hours.
    OutsideHours,
    /// `Z`: out of sequence.
    OutOfSequence,
}

/// A flag, and the letters of a condition that claim it.
#[derive(Drop)]
pub struct Claim {
    /// The flag.
    pub flag: Flag,
    /// The letters of a condition that claim the flag, one byte each.
    pub letters: Vec<u8>,
}

impl Flag {
    /// The flag's letter.
    pub(crate) fn letter(self) -> u8
        ensures { result ≡ flag_letter self }
    {
        match self {
            Flag::NotRegular => b'C',
            Flag::SinglePriced => b'O',
            Flag::Sweep => b'I',
            Flag::Swept => b'J',
            Flag::Benchmark => b'K',
            Flag::Stopped => b'P',
            Flag::Contingent => b'Q',
            Flag::Exempt => b'E',
            Flag::OutsideHours => b'T',
            Flag::OutOfSequence => b'Z',
        }
    }

    /// Whether the flag names a reason for an exemption.
    pub(crate) fn is_reason(self) -> bool
        ensures { result ≡ is_reason self }
    {
        match self {
            Flag::NotRegular
            | Flag::SinglePriced
            | Flag::Sweep
            | Flag::Swept
            | Flag::Benchmark
            | Flag::Stopped
            | Flag::Contingent => true,
            Flag::Exempt | Flag::OutsideHours | Flag::OutOfSequence => false,
        }
    }

    /// Whether the flag marks an exemption without a reason.
    pub(crate) fn is_exempt(self) -> bool
        ensures { result ≡ is_exempt self }
    {
        match self {
            Flag::Exempt => true,
            Flag::NotRegular
            | Flag::SinglePriced
            | Flag::Sweep
            | Flag::Swept
            | Flag::Benchmark
            | Flag::Stopped
            | Flag::Contingent
            | Flag::OutsideHours
            | Flag::OutOfSequence => false,
        }
    }
}
