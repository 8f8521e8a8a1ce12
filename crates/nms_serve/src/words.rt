//! The arguments of the command line: the request that they make, or why they are refused.
mod command_line;
mod command_words;
mod help_text;
mod option_word;
mod request;
mod words_fault;

pub use command_words::read_words;
pub use request::{ClientPaths, FeedPath, Request};
pub use words_fault::WordsFault;
