//! Cutting a market's rows, sorted by symbol, into shards. Each shard fits one tape, and has its own setup.
#![tactic(auto)]

mod adding;
mod begun;
mod cutting;
mod laws;
mod rosters;
mod setup_text;
mod sharding;

/// The fewest changes that a setup's tape must take if a market is cut into shards. It is one more than the most opening
/// changes of a symbol.
pub const LEAST_LIMIT: u64 = 66;

pub use adding::{add_symbols, roster_of};
pub use cutting::{Cutting, Listed};
pub use laws::{
    a_cut_shows_what_the_whole_shows, a_shard_shows_what_the_whole_shows, worked_examples,
};
pub use setup_text::{write_added, write_listed, write_setup};
pub use sharding::{Shard, begin_shard, import_shard};
