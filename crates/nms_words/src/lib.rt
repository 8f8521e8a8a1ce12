//! The arguments of the quote board's command line: what they ask for, or why they are refused.
#![tactic(auto)]

mod command_line;
mod command_words;
mod help_text;
mod option_word;
mod request;
mod shown;
mod subcommand;
mod words_fault;

pub use command_words::read_words;
pub use request::Request;
pub use subcommand::Sub;
pub use words_fault::WordsFault;
