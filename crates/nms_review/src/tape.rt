//! The tape of a script: the changes that its machine takes, in order, and their text.
mod taking;
mod writing;

pub use taking::taken_by_script;
pub use writing::write_tape;
