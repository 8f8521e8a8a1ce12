//! Times of day of the changes of a tape, and versions found by them. This crate knows no boards and no files.
#![tactic(auto)]

mod laws;
mod reading;
mod rising;
mod symbols;
mod time_of_day;
mod times;
mod times_fault;

pub use laws::{the_version_splits_the_times, versions_rise_with_time, worked_examples};
pub use reading::{read_times, source_row};
pub use rising::Rising;
pub use symbols::{Span, find_span};
pub use time_of_day::TimeOfDay;
pub use times::Times;
pub use times_fault::TimesFault;
