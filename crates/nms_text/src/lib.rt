//! All that is written about the quote board: records of answers and of plans, the result of a live run, and the reviewer's
//! report. A record is appended to a buffer, and an answer is written in one write.
#![tactic(auto)]

mod answer;
mod live_text;
mod report_text;
mod script_fault;
mod text_fault;
mod writing;

pub use answer::{
    tell_best, tell_published, tell_refusal, tell_taken, tell_through_head, tell_through_rows,
    tell_told, word_of_market,
};
pub use live_text::write_live;
pub use report_text::{report, word_of_clause, word_of_pair};
pub use script_fault::ScriptFault;
pub use text_fault::TextFault;
pub use writing::tell;
