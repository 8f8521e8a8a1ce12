//! A product's setup, read from a TOML document: the roster, access fees, and limits.
#![tactic(auto)]

mod check;
mod choices;
mod feed_name;
mod laws;
mod level;
mod repeat;
mod section;
mod setup;
mod setup_fault;
mod setup_k;
mod setup_reading;
mod toml_table;

pub use check::{cap_fault, range_fault};
pub use choices::{Choices, choices_in, year_fault};
pub use feed_name::{feed_fault, feed_named};
pub use laws::the_least_fault_is_read;
pub use nms_fee_book::{Caps, FeeBook, FeeSchedule, MOST_FEE, MOST_RATE};
pub use setup::Setup;
pub use setup_fault::SetupFault;
pub use setup_k::SETUP_K;
pub use setup_reading::{read_setup, read_setup_bytes};
pub use toml_table::{is_participant_key, is_symbol_key, is_top_key, rows_at, rows_in, value_at};

/// The fewest changes that a setup's queue may hold.
pub const LEAST_QUEUE: usize = 2;
/// The most changes that a setup's queue may hold.
pub const MOST_QUEUE: usize = 1024;
/// The number of feeds of a setup that does not say how many it has.
pub const USUAL_FEEDS: u8 = 2;
/// The most desks that a setup may have.
pub const MOST_DESKS: u8 = 16;
