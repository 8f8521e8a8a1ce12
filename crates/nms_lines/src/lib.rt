//! The layout of records: what a record means, or why it is refused.
#![tactic(auto)]

mod change_line;
mod change_reading;
mod desk_line;
mod field;
mod field_before;
mod field_writing;
mod kind;
mod laws;
mod letter;
mod line;
mod line_fault;
mod line_reading;
mod lot_field;
mod name;
mod named;
mod number;
mod plan_reading;
mod plan_record;
mod plan_text_fault;
mod plan_writing;
mod record_fault;
mod record_reading;
mod side;
mod text_writing;

pub use change_reading::{read_change, read_feed_change};
pub use csv::{ByteRecord, Reader};
pub use field::field as field_at;
pub use field_before::{number_before, price_before, text_before, word_before};
pub use field_writing::{end_record, push_money, push_number, push_price, push_text};
pub use kind::kind_named;
pub use laws::{
    a_plan_reads_as_written, a_text_has_one_list_of_records, no_field_of_a_plan_needs_a_quote,
    part_names_are_formed, symbol_names_are_formed, the_least_fault_is_read,
    the_worked_places_hold,
};
pub use letter::side_of;
pub use line::{Kind, Line, Reading};
pub use line_fault::{FaultPlace, LineFault, PlacedFault};
pub use line_reading::{read_line, read_line_at};
pub use named::read_names;
pub use number::{price_of, some_shares_of};
pub use plan_reading::{read_plan, read_plan_by};
pub use plan_record::{PlanRecord, wrong_place};
pub use plan_text_fault::PlanTextFault;
pub use plan_writing::{append_plan, name_of_part, name_of_sym, write_plan};
pub use record_fault::RecordFault;
pub use record_reading::{open_records, open_row, read_next};
pub use side::word_of_side;
pub use text_writing::write_text;
