//! Explaining why a setup or a mapping is refused, in a report for people. Both are TOML texts. It has each fault with its
//! line, its table and its key, what was found and what is expected.
#![tactic(auto)]

mod blanks;
mod line_start;
mod map;
mod marked;
mod marking;
mod named;
mod near;
mod nest;
mod setup;
mod told;
mod toml_line;

pub use map::explain_map;
pub use marked::{Marked, mark_at};
pub use marking::{write_finding, write_marked};
pub use named::locate_named;
pub use setup::explain_setup;
pub use toml_line::Pair;
