//! The machine that consolidates, in one thread. Changes are sent to a queue, taken to the tape, and published. Desks learn of
//! the published version and look at it.
#![tactic(auto)]

mod best_rows;
mod flow;
mod flow_fault;
mod laws;
mod reply;
mod step;
mod step_fault;

pub use best_rows::BestRows;
pub use flow::Flow;
pub use flow_fault::FlowFault;
pub use laws::{
    desks_versions_never_fall, looks_show_the_published_version, tape_and_queue_are_a_merge,
};
pub use reply::Reply;
pub use step::Step;
pub use step_fault::StepFault;
