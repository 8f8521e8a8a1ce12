//! Explaining what is wrong with the records of a file, in a report for people. It has each refusal with its line and column,
//! what was found and what is expected there, and what to do.
#![tactic(auto)]

mod changes;
mod code_words;
mod execution_code;
mod executions;
mod expectation;
mod explain_fault;
mod hints;
mod line_count;
mod other_codes;
mod places;
mod plan_text;
mod quoting;
mod record_source;
mod refusal;
mod refusal_code;
mod remedies;
mod span;
mod tally;
mod times_text;

pub use changes::{explain_changes, explain_feed, explain_orders, explain_script};
pub use code_words::explain_code;
pub use execution_code::ExecutionCode;
pub use executions::{RefusedExecution, explain_executions};
pub use explain_fault::ExplainFault;
pub use places::{a_plan_is_read_where_no_record_is_wrong, the_worked_plans_hold};
pub use plan_text::explain_plan;
pub use times_text::explain_times;
