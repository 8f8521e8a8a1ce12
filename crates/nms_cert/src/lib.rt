//! The checker of plans: it confirms by a certificate that a plan is optimal. It does not know how the plan was found.
#![tactic(auto)]

mod board_confirming;
mod confirming;
mod cuts;
mod doubt;
mod walking;

pub use board_confirming::confirm_on;
pub use confirming::confirm;
pub use cuts::{has_cut, has_row, is_out_of_range, is_wrong_kind};
pub use doubt::Doubt;
