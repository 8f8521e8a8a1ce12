//! The codes of faults. For each it is known how it is printed, with which status a call ends, what it means and what to do
//! about it.
#![tactic(auto)]

mod code;
mod conversions;
mod matter;
mod remedies;
mod sentences;

pub use code::Code;
pub use matter::Matter;
