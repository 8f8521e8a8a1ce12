//! The law about reading a setup: `specs/Laws`. The function does nothing: its contract is the law.
ghost use Rattle.nms_fees.specs.Laws.{ReadsLeastFault};

/// A text is read as a fault if and only if that fault is the least that holds, and as a setup if none does.
/// `specs/FaultTable` says when each fault holds.
pub fn the_least_fault_is_read()
    ensures { ReadsLeastFault }
{}
