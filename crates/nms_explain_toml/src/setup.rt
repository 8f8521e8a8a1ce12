//! Why a setup is refused.
mod expected;
mod explaining;
mod findings;
mod hints;
mod in_braces;
mod locating;
mod nearest;
mod report;
mod sentences;
mod telling;

pub use explaining::explain_setup;
pub(crate) use in_braces::element_in;
