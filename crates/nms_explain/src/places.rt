//! The fields of records by their names, and the record of a plan's text that is due.
mod field_name;
mod laws;
mod layout;
mod name_list;
mod place;
mod plan_walk;
mod record_field;

pub(crate) use field_name::FieldName;
pub use laws::{a_plan_is_read_where_no_record_is_wrong, the_worked_plans_hold};
pub(crate) use layout::{expected_kind, field_in, kind_of, layout_of, most_fields, plan_field_in};
pub(crate) use name_list::unknown_name;
pub(crate) use place::FieldPlace;
pub(crate) use plan_walk::{PlanDue, PlanTrouble, PlanWalk, record_due};
pub(crate) use record_field::text_at;
