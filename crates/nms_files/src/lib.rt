//! The files that the quote board reads: files of changes, of orders and of a feed. The arguments of a call that give an order
//! are read too.
#![tactic(auto)]

mod change_file;
mod changes_fault;
mod feed_fault;
mod feed_file;
mod line_file;
mod order_file;
mod order_words;
mod orders_fault;

pub use change_file::read_changes;
pub use changes_fault::ChangesFault;
pub use feed_fault::FeedFault;
pub use feed_file::read_within;
pub use order_file::read_orders;
pub use order_words::order_of;
pub use orders_fault::OrdersFault;
