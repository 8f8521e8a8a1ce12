//! A reader that passes on only the complete lines of a stream.
#![tactic(auto)]

mod held;
mod whole_lines;

/// The most bytes of a line before its line feed. This product's own rule.
pub const MOST_LINE: usize = 4_096;
/// How many bytes of a stream are read at once. This product's own rule.
const MOST_READ: usize = 4_096;
/// Room for a line that was begun, for the bytes that are read at once, and for the replacement of a refused line.
const ROOM: usize = 8_256;

pub use whole_lines::WholeLines;
