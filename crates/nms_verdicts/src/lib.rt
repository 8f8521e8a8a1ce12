//! Reports on plans. There is a verdict on each plan of the answers of a script or of a live run. Another report says why a
//! plan is, or is not, the best lawful one.
#![tactic(auto)]

mod checking;
mod cuts;
mod finding;
mod judging;
mod names;
mod pieces;
mod plan_places;
mod plan_report;
mod plan_telling;
mod rows;
mod telling;
mod verdict;
mod verdict_fault;
mod why;

pub use checking::check_answers;
pub use plan_report::{Quotation, Said, report_plan};
pub use rows::Note;
pub use verdict_fault::VerdictFault;
pub use why::explain_why;
