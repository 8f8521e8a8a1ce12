//! The arguments of the command line, or why they are refused.
mod command_line;
mod command_words;
mod given;
mod help_text;
mod subcommand;
mod words_fault;

pub(crate) use command_words::read_words;
pub(crate) use given::Words;
pub(crate) use subcommand::{Kind, RecordKind, Sub, TextKind};
pub(crate) use words_fault::WordsFault;
