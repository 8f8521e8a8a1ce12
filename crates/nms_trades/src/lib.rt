//! A day's executions, each judged on the version of the changes that it names. It is found which traded through a protected
//! quotation, whose and by how much, and which exceptions it claims (17 CFR 242.611(a), (b)). Each is compared with the best
//! bid and offer.
#![tactic(auto)]

mod bests;
mod cause;
mod claims;
mod clock;
mod columns;
mod day;
mod day_fault;
mod execution;
mod execution_file;
mod finding;
mod flags;
mod flickering;
mod judging;
mod laws;
mod limits;
mod line;
mod lines;
mod millionths;
mod money_through;
mod object;
mod order;
mod parts;
mod quality;
mod quality_table;
mod quoted;
mod reading;
mod said;
mod shape;
mod showing;
mod standing;
mod stretch;
mod table;
mod tally;
mod track;
mod trade_fault;
mod trades;
mod trades_fault;
mod window;
mod worth;

/// The most records that a file of executions may have.
pub const MOST_EXECUTIONS: u64 = 10_000_000;

pub use cause::{CAUSES, Cause};
pub use claims::Claims;
pub use clock::Timing;
pub use day::Day;
pub use day_fault::DayFault;
pub use execution::{Deal, Execution};
pub use execution_file::{Records, Refusal};
pub use finding::{Best, Finding};
pub use judging::judge_all;
pub use laws::{
    a_clean_one_was_quoted, a_day_judges_once, a_whole_price_decides, a_window_is_all_or_none,
    each_column_has_a_name, one_shard_judges, worked_examples,
};
pub use lines::{write_answers, write_columns};
pub use millionths::{MOST_MILLIONTHS, millionths_in, push_millionths};
pub use money_through::{Sums, difference, is_helped, sums_of};
pub use quality::{Place, Quality, quality_of};
pub use quality_table::write_quality;
pub use reading::is_name;
pub use shape::Shape;
pub use standing::Standing;
pub use table::write_table;
pub use trade_fault::TradeFault;
pub use trades::{Layout, judge_file, read_timed, write_findings};
pub use trades_fault::TradesFault;
