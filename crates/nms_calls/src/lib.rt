//! The calls of the library that other languages link: numbers in, numbers out, and a code for each refusal. This crate handles
//! no pointers.
#![tactic(auto)]

/// The highest price in 1/1,000,000 dollar: 9,999,999.999999 dollars.
pub const MOST_MILLIONTHS: u64 = 9_999_999_999_999;
/// The most bytes that the text of one record may have.
pub const MOST_RECORD: usize = 255;
/// The most bytes that the text of a plan may have. Every plan that the library writes has fewer.
pub const MOST_PLAN_TEXT: usize = 8192;

mod call_fault;
mod change_calls;
mod change_numbers;
mod change_reading;
mod change_writing;
mod code_texts;
mod doubt_numbers;
mod laws;
mod lines_calls;
mod many_calls;
mod open_board;
mod opening_numbers;
mod order_numbers;
mod order_reading;
mod plan_numbers;
mod plan_reading;
mod plan_writing;
mod reduced_laws;
mod roster_calls;
mod row_calls;
mod row_numbers;
mod row_ranking;
mod setup_place;
mod side_calls;
mod side_writing;
mod text_calls;
mod text_writing;
mod view_calls;
mod view_reading;
mod view_reducing;

pub use call_fault::{CallFault, answer};
pub use change_numbers::NmsChange;
pub use code_texts::{put_code, put_version};
pub use doubt_numbers::NmsDoubt;
pub use open_board::OpenBoard;
pub use opening_numbers::NmsOpening;
pub use order_numbers::NmsOrder;
pub use plan_numbers::{NmsCut, NmsLeg, NmsPlan};
pub use reduced_laws::{
    a_lawful_plan_takes_no_more, a_plan_is_on_the_reduced_view, numbers_say_one_view,
    reduced_numbers_say_the_view, worked_example,
};
pub use roster_calls::{NmsCounts, find_part, find_sym, part_name, sym_name};
pub use row_numbers::{NmsBest, NmsRow, NmsRows, NmsThrough, NmsView};
pub use setup_place::{NmsPlace, put_setup_place};
pub use view_calls::{confirm_view, plan_view, through_view};
pub use view_reducing::reduce_view;
