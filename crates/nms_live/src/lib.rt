//! The live run. One to eight feeds send, a taker publishes, and desks plan on what is published, each in its own thread. It is
//! proved what they all did together.
#![tactic(auto)]

mod answers;
mod closing;
mod desk_work;
mod desk_workers;
mod ended;
mod fed_feed;
mod feed_workers;
mod first_fault;
mod gate;
mod gathering;
mod given;
mod keeper;
mod laws;
mod live;
mod live_fault;
mod living;
mod own_orders;
mod planning;
mod taking;
mod workers;

/// The most changes that are appended before the tape is published. This product's own rule.
pub const MOST_WAITING: u64 = 64;
/// How many turns a thread waits at a gate. This product's own rule.
pub const MOST_TURNS: u32 = 1_000_000;
/// In how many of the first turns it may rest, so that a gate that never opens ends a run within seconds. This product's own rule.
pub const MOST_RESTS: u32 = 1_024;

pub use gate::{Gate, GatePoint, OpenGate};
pub use laws::{a_live_run_is_a_run_of_the_machine, each_answer_is_the_best_of_its_version};
pub use live::Live;
pub use live_fault::LiveFault;
pub use living::run_live;
pub use nms_quote::{Answer, DeskOrder};
