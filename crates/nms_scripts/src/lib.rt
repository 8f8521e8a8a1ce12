//! Scripts over the quote board, which turn records into answers.
#![tactic(auto)]

mod counts;
mod script;
mod script_record;
mod through;

/// The most records of a script. This product's own rule.
pub const MOST_RECORDS: u64 = 10_000_000;

pub use counts::Counts;
pub use nms_text::ScriptFault;
pub use script::{read as read_record, run_script};
pub use script_record::serve;
pub use through::tell_through;
