//! The place of a breach or a doubt in a plan: its leg or its cut, what was found there and what was expected.
mod breach_places;
mod cut_place;
mod cut_tests;
mod doubt_places;
mod leg_place;
mod leg_tests;
mod passed_over;

pub(crate) use breach_places::BreachPlace;
pub(crate) use cut_place::{CutPlace, CutSums};
pub(crate) use doubt_places::{DoubtPlace, doubt_place};
pub(crate) use leg_place::LegPlace;
pub(crate) use passed_over::PassedOver;
