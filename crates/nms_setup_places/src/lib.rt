//! The faults of a setup, each with its place: the table, its place in its array, the key, and the value there.
#![tactic(auto)]

mod finding;
mod form;
mod known_key;
mod laws;
mod naming;
mod noting;
mod reading;
mod setup_table;

pub use finding::{Finding, Spot};
pub use form::{Form, form_of};
pub use known_key::KnownKey;
pub use laws::the_least_finding_is_read;
pub use naming::name_in;
pub use nms_fees::{Choices, choices_in, rows_at};
pub use noting::find_faults;
pub use reading::{Examined, NoToml, examine};
pub use setup_table::{SetupArray, SetupTable};
