//! All that a caller of text needs, under one name: scripts, files of changes and orders, reports, plans, audits, and the live
//! run. Each item comes from a lower crate, and this crate adds nothing.
#![tactic(auto)]

pub use nms_fees::SETUP_K;
pub use nms_file_answers::{
    AuditFault, PlanFault, ReportFault, a_planned_order_reads_as_written,
    an_accepted_plan_reads_as_written, audit, plan_changes, report_changes,
};
pub use nms_files::{
    ChangesFault, FeedFault, OrdersFault, order_of, read_changes, read_orders, read_within,
};
pub use nms_live::{Answer, DeskOrder, Gate, GatePoint, Live, LiveFault, OpenGate, run_live};
pub use nms_scripts::{Counts, MOST_RECORDS, run_script};
pub use nms_text::{ScriptFault, TextFault, report, write_live};
