//! Quotation changes, orders, plans, certificates and the roster.
#![tactic(auto)]

mod answer;
mod certificate;
mod change;
mod desk_order;
mod feed;
mod hints;
mod marked;
mod name;
mod name_table;
mod order;
mod part_set;
mod participant;
mod plan;
mod roster;
mod roster_fault;
mod side_quote;
mod symbol;

/// The most participants of a roster: their places are 0 to 31. This product's own rule.
pub const MOST_PARTICIPANTS: u8 = 32;
/// The most symbols of a roster: their places are 0 to 999. This product's own rule.
pub const MOST_SYMBOLS: u16 = 1000;
/// The most feeds: their places are 0 to 7. This product's own rule.
pub const MOST_FEEDS: u8 = 8;
/// The most changes of a tape. This product's own rule.
pub const MOST_CHANGES: u64 = 10_000_000;

pub use answer::Answer;
pub use certificate::{Certificate, Cut, CutKind};
pub use change::Change;
pub use desk_order::DeskOrder;
pub use feed::Feed;
pub use marked::Marked;
pub use name::{is_part_name, is_symbol_name};
pub use order::{Order, OrderSide};
pub use part_set::PartSet;
pub use participant::Part;
pub use plan::{Leg, Plan};
pub use roster::Roster;
pub use roster_fault::RosterFault;
pub use side_quote::{QState, Side, SideQuote};
pub use symbol::Sym;
