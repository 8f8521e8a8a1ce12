//! Why the executions of a day were not judged.
use crate::trades_fault::TradesFault;
use nms_show::ShowFault;
use std::alloc::AllocError;

/// Why the executions of a day were not judged.
#[derive(Clone, Copy)]
pub enum DayFault {
    /// The files of a shard, the file of executions or the output is at fault, as when one file of changes is judged.
    Trades(TradesFault),
    /// The execution with this number names a version, which means nothing without its shard.
    Untimed(u64),
    /// Two shards judge the execution with this number.
    Twice(u64),
    /// The execution with this number is left to another shard, and none judges it.
    Nowhere(u64),
    /// A shard has other participants than the first, or has them in another order.
    OtherParts,
}

impl From<TradesFault> for DayFault {
    fn from(fault: TradesFault) -> Self {
        DayFault::Trades(fault)
    }
}

impl From<AllocError> for DayFault {
    fn from(_: AllocError) -> Self {
        DayFault::Trades(TradesFault::Show(ShowFault::NoMemory))
    }
}
