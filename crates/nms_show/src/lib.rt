//! Printing for people and for their programs: lines, tables and JSON, in which no harmful byte of a file reaches a terminal.
#![tactic(auto)]

mod closed_streams;
mod columns;
mod ending;
mod form;
mod item;
mod lines;
mod object;
mod report;
mod safe_text;
mod show_fault;
mod shown;
mod under;
mod written;

pub use closed_streams::open_closed_streams;
pub use ending::Ending;
pub use form::Form;
pub use item::{Column, Item};
pub use lines::{write_line, write_row};
pub use object::write_object;
pub use report::{
    Location, WrongPart, item_if_any, item_of, words_before, words_round, write_advice,
    write_found, write_plain_line, write_plain_object, write_refused,
};
pub use safe_text::SafeText;
pub use show_fault::ShowFault;
pub use shown::write_shown;
pub use under::write_under;
