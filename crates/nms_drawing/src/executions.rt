//! A day's executions: on the page of a day, and on their own page.
mod judged;
mod on_page;
mod page_fault;
mod trades_page;

pub(crate) use judged::Judged;
pub use on_page::draw_executions;
pub use page_fault::PageFault;
pub use trades_page::{Asked, write_page};
