//! A change as text: a record of a file of changes that is read as that change.
#![tactic(auto)]

mod change_writing;
mod laws;

pub use change_writing::{append_change, append_changes};
pub use laws::{a_change_is_in_range, changes_read_as_written};
