//! The changes of a day for people: at a version, as its opening changes, as a stream, and as a page. Also the day's
//! executions, on the page of a day and on their own page.
#![tactic(auto)]

mod boards_lines;
mod content;
mod days;
mod drawing;
mod drawing_fault;
mod executions;
mod json_lines;
mod opened;
mod page;
mod page_data;
mod page_text;
mod passed_lines;
mod plans;
mod report;
mod rows;
mod spelling;
mod streamed;
mod texts;
mod trades;
mod version;

pub use drawing::{About, Frame, draw_changes};
pub use drawing_fault::DrawingFault;
pub use executions::{Asked, PageFault, draw_executions, write_page};
pub use opened::write_opening;
pub use streamed::{stream_boards, stream_changes};
pub use texts::no_data_ends_its_element;
pub use version::show_version;
