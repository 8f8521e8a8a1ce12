//! The rows that changes give: what each participant quotes in each symbol.
#![tactic(auto)]

mod board;
mod board_fault;
mod cell;
mod given;
mod laws;
mod passing;
mod ranks;
mod row;
mod symbol_best;
mod symbol_ranks;
mod view;

/// The most rows of a side of a symbol: one for each participant's place. This product's own rule.
pub const MOST_ROWS: usize = 32;

pub use board::Boards;
pub use board_fault::BoardFault;
pub use cell::{Cell, Held};
pub use laws::{
    a_rank_order_says_its_rows, halting_hides_and_keeps, new_lot_keeps_receipts,
    other_symbols_stay, others_keep_their_receipts, quotations_stand_by_participant,
    receipt_is_least, receipts_differ, repeated_side_keeps_its_receipt, rows_have_one_rank_order,
    worked_examples,
};
pub use row::{Row, is_better_price};
pub use view::View;
