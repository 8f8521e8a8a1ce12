//! What the shards of a day say about a record of a file of executions: `specs/Day`.
ghost use Rattle.std.specs.Prelude.{◌≡◌, false, is_some};
ghost use Rattle.nms_trades.specs.Day.{both, is_here, is_refused};

use crate::trade_fault::TradeFault;
use nms_times::TimeOfDay;

/// Where the line of an execution is in the text of a day.
#[derive(Clone, Copy)]
pub(crate) struct Line {
    /// The time of the execution.
    pub(crate) time: TimeOfDay,
    /// The place of the line's first byte in the text of the day.
    pub(crate) from: usize,
    /// The place after the line's last byte in the text of the day.
    pub(crate) to: usize,
}

/// What one shard says about a record, or several shards together.
#[derive(Clone, Copy)]
pub(crate) enum Said {
    /// The symbol of the record is on the roster of no shard so far.
    Unknown,
    /// The record is refused.
    Refused(TradeFault),
    /// The shard leaves the record to another shard.
    Elsewhere,
    /// The shard judged the record as an execution, and this is its line.
    Here(Line),
}

impl Said {
    /// What two shards together say about a record; `None` if both judge it.
    pub(crate) fn with(self, more: Said) -> Option<Said>
        ensures { result ≡ both self more }
    {
        match (self, more) {
            (Said::Here(_), Said::Here(_)) => None,
            (Said::Here(line), _) => Some(Said::Here(line)),
            (Said::Unknown, said) => Some(said),
            (said, Said::Unknown) => Some(said),
            (Said::Elsewhere, Said::Refused(_)) => Some(Said::Elsewhere),
            (Said::Refused(_) | Said::Elsewhere, said) => Some(said),
        }
    }

    /// What a shard says about a record that it refuses.
    pub(crate) fn of_refusal(fault: TradeFault) -> Said
        ensures { is_here result ≡ false }
    {
        match fault {
            TradeFault::UnknownSymbol => Said::Unknown,
            TradeFault::UnknownKind
            | TradeFault::FieldCount
            | TradeFault::BadName
            | TradeFault::BadPrice
            | TradeFault::BadShares
            | TradeFault::BadSide
            | TradeFault::BadVersion
            | TradeFault::Beyond
            | TradeFault::UnknownParticipant
            | TradeFault::BadFlags
            | TradeFault::NoTimes
            | TradeFault::NoChanges => Said::Refused(fault),
        }
    }

    /// Why the record is refused, if it is.
    pub(crate) fn refusal(self) -> Option<TradeFault>
        ensures { is_some result ≡ is_refused self }
    {
        match self {
            Said::Unknown => Some(TradeFault::UnknownSymbol),
            Said::Refused(fault) => Some(fault),
            Said::Elsewhere | Said::Here(_) => None,
        }
    }
}
