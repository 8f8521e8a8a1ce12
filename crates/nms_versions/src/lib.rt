//! The published versions. One publisher appends changes and publishes them in batches. Each desk looks at the version that was
//! published last, never an older one than it saw or learned of.
#![tactic(auto)]

mod append_fault;
mod batch;
mod desk;
mod fresh;
mod history;
mod known;
mod laws;
mod memory;
mod no_reading;
mod onlooker;
mod open_fault;
mod opening;
mod publisher;
mod receipt;
mod rule;
mod sealed;
mod settled;

pub use append_fault::AppendFault;
pub use desk::Desk;
pub use laws::publications_are_what_changes_bear;
pub use no_reading::NoReading;
pub use onlooker::Onlooker;
pub use open_fault::OpenFault;
pub use opening::open_tape;
pub use publisher::Publisher;
pub use receipt::Receipt;
pub use settled::{Settled, Unsettled};
