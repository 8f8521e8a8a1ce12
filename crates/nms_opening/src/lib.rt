//! The opening changes of a board, which are a short list that makes a new board of its roster show the same.
#![tactic(auto)]

mod laws;
mod next;
mod opening_changes;
mod opening_list;
mod rolling;

/// The most opening changes of a symbol: its round lot, and two sides of each of 32 participants.
pub const MOST_OPENING: usize = 65;

/// The number of changes of a board at which a `RollingBoard` begins to fill the next one. The room that is left has one change
/// for each symbol.
pub const ROLLS_AT: u64 = 9_990_000;

/// The most changes that a `RollingBoard` counts from earlier boards, in addition to those of its present board.
pub const MOST_BEFORE: u64 = 9_223_372_036_854_775_808;

pub use laws::{alike_boards_show_the_same, alike_boards_stay_alike, worked_examples};
pub use opening_changes::OpeningChanges;
pub use opening_list::{opening, opening_of, reopened};
pub use rolling::RollingBoard;
