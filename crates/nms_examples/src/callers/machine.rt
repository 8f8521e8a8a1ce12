//! The machine: changes are sent, taken and published, and a look shows the published version.
use nms_fees::Setup;
use nms_flow::{BestRows, Flow, FlowFault, StepFault};
use nms_quote::{Change, Feed, Sym};
use std::alloc::Global;

/// Why a run of the machine gives no answer.
#[derive(Clone, Copy, Debug, PartialEq, Eq)]
pub(crate) enum ConsolidateFault {
    /// There is no memory for a machine.
    Opening(FlowFault),
    /// The machine refused a change: the queue or the tape is full, or there is no memory.
    Step(StepFault),
    /// A change, or the symbol, is not of the roster.
    Stranger,
}

/// The version that is published after all the changes of a feed, and the best rows that it shows of a symbol.
pub(crate) fn consolidate(
    alloc: Global,
    setup: &Setup,
    feed: Feed,
    changes: &[Change],
    sym: Sym,
) -> Result<(u64, BestRows), ConsolidateFault> {
    let mut flow = match Flow::new(alloc, setup) {
        Ok(flow) => flow,
        Err(fault) => return Err(ConsolidateFault::Opening(fault)),
    };
    for change in changes {
        send_and_take(&mut flow, feed, change)?;
    }
    let version = flow.publish();
    if !flow.has_sym(sym) {
        return Err(ConsolidateFault::Stranger);
    }
    Ok((version, flow.best(sym)))
}

/// Sends a change on the feed, and takes it to the tape.
fn send_and_take(flow: &mut Flow, feed: Feed, change: &Change) -> Result<(), ConsolidateFault> {
    if !flow.holds(change) {
        return Err(ConsolidateFault::Stranger);
    }
    let sent = flow.send(feed, *change);
    let taken = sent.and_then(|_| flow.take().map(|_| ()));
    taken.map_err(ConsolidateFault::Step)
}
