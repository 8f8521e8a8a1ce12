//! Reading vendors' delimited files of trades as executions, by a mapping: what each row makes, the text that is written, and
//! the counts of every outcome.
#![tactic(auto)]

mod claim;
mod condition;
mod execution_writing;
mod importing;
mod laws;
mod trade;
mod trade_cause;
mod trade_columns;
mod trade_map;
mod trade_meanings;
mod trade_price;
mod trade_row;
mod trade_tally;
mod trade_telling;

pub use claim::{Claim, Flag};
pub use importing::{TradeWork, import_trades};
pub use laws::worked_examples;
pub use trade::Trade;
pub use trade_cause::TradeCause;
pub use trade_columns::TradeColumns;
pub use trade_map::{TradeMapping, is_of_trades, trade_mapping_of};
pub use trade_meanings::TradeMeanings;
pub use trade_row::read_trade;
pub use trade_tally::{TradeSums, TradeTally};
pub use trade_telling::{TradeTold, write_trade_tally};
