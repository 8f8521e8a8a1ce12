//! The national best bid and offer, the state of a market, and the quotations that lock or cross.
#![tactic(auto)]

mod laws;
mod market_kind;
mod market_state;
mod pair;
mod pair_place;
mod pair_walk;
mod ranking;

pub use laws::{
    better_price_ranks_first, earlier_receipt_ranks_first_at_equal_size,
    larger_size_ranks_first_at_equal_price, market_speaks_of_all_rows, one_best_row,
    pairs_are_those_that_lock_or_cross, ranking_is_a_strict_total_order, some_row_is_best,
    worked_examples,
};
pub use market_kind::Market;
pub use market_state::{market, market_between};
pub use pair::{Clause, Pair};
pub use pair_place::PairPlace;
pub use pair_walk::next_pair;
pub use ranking::{best, best_on, protected};
