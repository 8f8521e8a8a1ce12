//! The tests of the lower crates that need threads, or calls that no program makes. They are of the lane, published versions,
//! live runs, the rank order of a board and its opening changes. The planner is compared with a plain slow one. Other facts
//! that no clause states are tested in `nms_examples`, and the program's answers to a call in `examples/` and `tests/`.
//!
//! The tests are in a separate crate, because the gate proves a crate a second time for the tests in it.
#![tactic(auto)]

#[cfg(test)]
mod chance;
#[cfg(test)]
mod compared;
#[cfg(test)]
mod feed;
#[cfg(test)]
mod live;
#[cfg(test)]
mod opening;
#[cfg(test)]
mod plain;
#[cfg(test)]
mod plans;
#[cfg(test)]
mod rank_order;
#[cfg(test)]
mod same;
#[cfg(test)]
mod versions;
