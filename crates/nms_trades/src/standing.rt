//! Whether an execution trades through on the versions of its window.
ghost use Rattle.std.specs.Prelude.{◌≡◌};
ghost use Rattle.nms_trades.specs.Around.{standing_of};
ghost use Rattle.nms_trades.specs.Counts.{is_other, passes_some};
ghost use Rattle.nms_trades.specs.Quoted.{answered_as};

/// Whether an execution trades through a protected quotation on the versions of its window.
#[derive(Clone, Copy, PartialEq, Eq)]
pub enum Standing {
    /// The execution trades through on no version of its window, and its symbol had been quoted on each.
    Clean,
    /// The execution trades through on no version of its window. On the first version no participant had quoted its symbol yet,
    /// so the answer is not known.
    Unquoted,
    /// The execution trades through on some versions of its window, and not on others.
    Perhaps,
    /// The execution trades through on every version of its window.
    Through,
    /// The execution is not judged here, because another shard has the changes of its symbol at its time.
    Other,
}

impl Standing {
    /// The standing by whether it trades through on some of the versions, and whether it trades through nothing on some.
    pub(crate) fn of(some_through: bool, some_clean: bool) -> Standing
        ensures { result ≡ standing_of some_through some_clean }
    {
        match (some_through, some_clean) {
            (false, _) => Standing::Clean,
            (true, false) => Standing::Through,
            (true, true) => Standing::Perhaps,
        }
    }

    /// Whether the execution traded through, or perhaps did.
    pub(crate) fn passes_some(self) -> bool
        ensures { result ≡ passes_some self }
    {
        match self {
            Standing::Clean | Standing::Unquoted | Standing::Other => false,
            Standing::Perhaps | Standing::Through => true,
        }
    }

    /// Whether another shard judges the execution.
    pub(crate) fn is_other(self) -> bool
        ensures { result ≡ is_other self }
    {
        self == Standing::Other
    }

    /// The corrected standing of an execution. It is `Other` if another shard judges the execution. Else a clean execution
    /// whose symbol had not been quoted becomes `Unquoted`.
    pub(crate) fn answered(self, other: bool, unquoted: bool) -> Standing
        ensures { result ≡ answered_as other unquoted self }
    {
        if other {
            return Standing::Other;
        }
        match self {
            Standing::Clean if unquoted => Standing::Unquoted,
            Standing::Clean => Standing::Clean,
            Standing::Unquoted => Standing::Unquoted,
            Standing::Perhaps => Standing::Perhaps,
            Standing::Through => Standing::Through,
            Standing::Other => Standing::Other,
        }
    }
}
