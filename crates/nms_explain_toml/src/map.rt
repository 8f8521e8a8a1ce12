//! Why a mapping of a vendor's files is refused.
mod explaining;
mod kind;
mod nearest;
mod telling;

pub use explaining::explain_map;
