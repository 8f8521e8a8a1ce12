//! The planner of intermarket sweep orders. It finds a lawful plan that fills the most shares, and among those one of least
//! cost, fees included. It also writes the certificate that shows it.
#![tactic(auto)]

mod by_cost;
mod choice;
mod cutoffs;
mod cutting;
mod laws;
mod legs;
mod made;
mod plan_room;
mod planner;
mod planning;
mod priced_row;
mod row_order;
mod taking;

pub use cutoffs::{Cutoff, Cutoffs};
pub use laws::an_accepted_plan_is_within_bounds;
pub use plan_room::{Outcome, PlanRoom};
pub use planner::Planner;
pub use planning::{plan, plan_into, plan_on};
