//! Reading vendors' delimited files as changes, by a mapping: what each row makes, the texts that are written, and the counts
//! of every outcome.
#![tactic(auto)]

mod cause;
mod column;
mod draft;
mod entry;
mod faults;
mod guard;
mod import_fault;
mod importing;
mod kept_sides;
mod keys;
mod last_lines;
mod laws;
mod left;
mod map_fault;
mod mapping;
mod mapping_reading;
mod meanings;
mod noting;
mod number;
mod reading;
mod right;
mod row;
mod row_source;
mod rows;
mod side_rows;
mod tally;
mod telling;
mod time;
mod words;

pub use cause::Cause;
pub use column::{Column, Columns, RowColumns};
pub use draft::{Draft, Meant, written_as};
pub use entry::Entry;
pub use faults::{check, find_faults};
pub use guard::Guard;
pub use import_fault::ImportFault;
pub use importing::{Work, give, import_rows, note_cause, write_entry};
pub use kept_sides::KeptSides;
pub use keys::{Kind, Row, is_key, is_of, keys_text};
pub use last_lines::LastLines;
pub use laws::{worked_examples, worked_faults, worked_sides};
pub use left::Left;
pub use map_fault::{Finding, MapFault, Wrong};
pub use mapping::{FileForm, Mapping, Order, Source, place_of};
pub use mapping_reading::{document_of, key_of, kind_said, mapping_by, mapping_of};
pub use meanings::{
    Half, Meaning, Meanings, PriceUnit, Renamed, Replaced, Said, SideWords, TimeForm, Word, Zone,
};
pub use noting::Notes;
pub use number::without_zeros;
pub use reading::{add_words, byte_in, common_in, file_in, source_at};
pub use row::{entry_with, left_in, left_with, read_row, symbol_in};
pub use row_source::RowSource;
pub use rows::{line_of, next_row, open_rows};
pub use side_rows::{
    OneSide, SideRow, SideStep, Sides, quote_after, side_row, side_said, sides_after, step_of,
};
pub use tally::{MOST_ROWS, Sums, Tally, sum_of};
pub use telling::{
    RowPlace, Telling, Told, column_of, most_of, no_time, sentence_of, show_row, write_symbols,
    write_tally,
};
pub use time::{append_clock, append_line, clock_of, day_of};
pub use toml::Table;
pub use words::{is_listed, name_of, side_in, side_named};

/// How many rows that make no change are shown, for all files together.
pub const MOST_TOLD: u64 = 100;
