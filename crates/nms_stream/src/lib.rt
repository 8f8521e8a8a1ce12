//! The stream of a tape. It has a line if and only if a symbol's best bid, best offer or market changes.
#![tactic(auto)]

mod following;
mod laws;
mod line;
mod quoted;
mod replay;
mod stream_fault;
mod streaming;
mod tape;

pub use laws::{a_line_tells_each_market_that_changes, nothing_is_quoted_at_first};
pub use quoted::{Quoted, quoted_on};
pub use replay::Replay;
pub use stream_fault::StreamFault;
pub use streaming::{stream, stream_file};
pub use tape::Tape;
