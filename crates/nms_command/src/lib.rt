//! The quote board's command line without live runs. It takes arguments, files and streams, and gives answers and an ending.
#![tactic(auto)]

mod check;
mod command_fault;
mod ending;
mod files;
mod line;
mod live_input;
mod planning;
mod process_words;
mod serving;
mod step;
mod words_serving;

pub use command_fault::CommandFault;
pub use ending::Ending;
pub use files::open_file;
pub use line::{write_line, write_whole};
pub use live_input::{LiveInput, read_live_input};
pub use nms_words::{Request, Sub, WordsFault, read_words};
pub use process_words::{lend_words, own_words};
pub use serving::{serve, setup_of, show_help};
pub use step::Step;
pub use words_serving::serve_words;
