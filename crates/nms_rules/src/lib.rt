//! The rules for a lawful plan of an intermarket sweep order: what breaks one, and what a price trades through. Also what must
//! be swept, and may be taken, at a price.
#![tactic(auto)]

mod breach_finding;
mod breach_kind;
mod cutoff;
mod laws;
mod leg_test;
mod rank;
mod self_help;
mod through;
mod usable_row;

/// The most shares that a row's size can count, which is the most that its type holds.
pub const MOST_SIZE: u32 = 4_294_967_295;

pub use breach_finding::breach;
pub use breach_kind::Breach;
pub use cutoff::{fillable, is_pooled, is_swept, least_cost, pool, swept};
pub use laws::{
    a_lawful_plan_never_trades_through, a_lawful_plan_passes_over_the_named,
    an_accepted_plan_is_best, an_accepted_plan_is_optimal, naming_nobody_changes_nothing,
    naming_one_leaves_the_others,
};
pub use leg_test::{
    contra, cost_of, given_to, has_other_price, has_repeat, is_better, is_over_size,
    is_traded_through, lacks_quotation, row_for, row_for_on, sum_of,
};
pub use rank::Rank;
pub use self_help::is_allowed;
pub use through::traded_through;
pub use usable_row::{UsableRow, is_usable, put_usable_rows, usable_rows};
