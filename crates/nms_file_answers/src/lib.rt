//! Answers from a file of changes: the report of a symbol, the plan of an order, the audit of a plan.
#![tactic(auto)]

mod audit_fault;
mod auditing;
mod changes_view;
mod laws;
mod plan_fault;
mod plan_file;
mod report_fault;
mod report_file;

pub use audit_fault::AuditFault;
pub use auditing::audit;
pub use laws::{a_planned_order_reads_as_written, an_accepted_plan_reads_as_written};
pub use plan_fault::PlanFault;
pub use plan_file::plan_changes;
pub use report_fault::ReportFault;
pub use report_file::report_changes;
