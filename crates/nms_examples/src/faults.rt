//! The texts of the faults that no run of a program shows.

use crate::Failed;
use crate::lines::{gap_after, or_failed};
use nms_board::BoardFault;
use nms_engine::{
    AuditFault, ChangesFault, FeedFault, LiveFault, OrdersFault, ReportFault, ScriptFault,
    TextFault,
};
use nms_fees::SetupFault;
use nms_flow::{FlowFault, StepFault};
use nms_lines::{LineFault, PlanTextFault, RecordFault};
use nms_quote::{Feed, RosterFault};
use nms_units::UnitFault;
use nms_words::WordsFault;
use std::fmt::Display;
use std::io::Write;

/// Adds to the answer the text of each fault of one part of the library.
pub(crate) fn give_faults(part: &str, given: &mut Vec<u8>) -> Result<(), Failed> {
    match part {
        "numbers" => tell_numbers(given),
        "records" => tell_records(given),
        "setups" => tell_setups(given),
        "machine" => tell_machine(given),
        "files" => tell_files(given),
        "live" => tell_live(given),
        _ => Err(Failed),
    }
}

/// Adds to the answer the texts of the given faults.
fn tell<V: Display>(given: &mut Vec<u8>, faults: &[V]) -> Result<(), Failed> {
    for fault in faults {
        or_failed(write!(given, "{}{fault}", gap_after(given)))?;
    }
    Ok(())
}

/// Adds the texts of faults of numbers, of rosters and of the arguments of a call.
fn tell_numbers(given: &mut Vec<u8>) -> Result<(), Failed> {
    tell(given, &[UnitFault::BadPrice, UnitFault::ZeroPrice])?;
    tell(given, &[UnitFault::BadShares, UnitFault::BadMoney])?;
    tell(given, &[RosterFault::BadName, RosterFault::Duplicate])?;
    tell(given, &[RosterFault::TooMany, RosterFault::NoMemory])?;
    tell(given, &[WordsFault::NoMemory])
}

/// Adds the texts of faults of records, their lines and the texts of plans.
fn tell_records(given: &mut Vec<u8>) -> Result<(), Failed> {
    tell(given, &[RecordFault::Failed, RecordFault::NoMemory])?;
    tell(given, &[LineFault::UnknownKind, LineFault::FieldCount])?;
    tell(given, &[LineFault::UnknownParticipant])?;
    tell(given, &[LineFault::UnknownSymbol, LineFault::BadState])?;
    tell(given, &[LineFault::BadPrice, LineFault::BadShares])?;
    tell(given, &[LineFault::HalfSide, LineFault::WrongFeed])?;
    tell(given, &[LineFault::BadDesk, LineFault::BadLot])?;
    tell(given, &[PlanTextFault::BadPlanText])?;
    tell(given, &[PlanTextFault::NoMemory, PlanTextFault::WriteFault])
}

/// Adds the texts of faults of setups.
fn tell_setups(given: &mut Vec<u8>) -> Result<(), Failed> {
    tell(given, &[SetupFault::NotToml, SetupFault::Missing])?;
    tell(given, &[SetupFault::UnknownKey, SetupFault::BadName])?;
    tell(given, &[SetupFault::WrongType, SetupFault::OutOfRange])?;
    tell(given, &[SetupFault::OverCap, SetupFault::TooMany])?;
    tell(given, &[SetupFault::NoMemory])
}

/// Adds the texts of faults of the machine and of its scripts.
fn tell_machine(given: &mut Vec<u8>) -> Result<(), Failed> {
    tell(given, &[FlowFault::NoMemory])?;
    tell(given, &[StepFault::QueueFull, StepFault::QueueEmpty])?;
    tell(given, &[StepFault::TapeFull, StepFault::NoMemory])?;
    tell(given, &[ScriptFault::ReadFault, ScriptFault::WriteFault])?;
    tell(given, &[ScriptFault::TooLong, ScriptFault::NoMemory])
}

/// Adds the texts of faults of files of changes, reports and audits.
fn tell_files(given: &mut Vec<u8>) -> Result<(), Failed> {
    for fault in [
        ChangesFault::Record(RecordFault::Failed),
        ChangesFault::Line(LineFault::UnknownKind),
        ChangesFault::TapeFull,
        ChangesFault::Record(RecordFault::NoMemory),
    ] {
        tell(given, &[ReportFault::Changes(fault)])?;
    }
    tell(given, &[ReportFault::Board(BoardFault::NoMemory)])?;
    tell(given, &[ReportFault::WriteFault, ReportFault::NoMemory])?;
    tell(
        given,
        &[AuditFault::VersionBeyondTape, AuditFault::NoMemory],
    )
}

/// Adds the texts of faults of live runs and their files.
fn tell_live(given: &mut Vec<u8>) -> Result<(), Failed> {
    for fault in [RecordFault::Failed, RecordFault::NoMemory] {
        tell(given, &[OrdersFault::Record(fault)])?;
        tell(given, &[FeedFault::Record(fault)])?;
    }
    tell(given, &[OrdersFault::Line(LineFault::BadDesk)])?;
    tell(given, &[FeedFault::TooLong])?;
    let refused = LiveFault::Line {
        feed: Feed::B,
        number: 7,
        fault: LineFault::WrongFeed,
    };
    tell(given, &[refused, LiveFault::Open, LiveFault::Append])?;
    tell(given, &[LiveFault::Desk, LiveFault::GateLimit])?;
    tell(given, &[LiveFault::NoMemory])?;
    tell(given, &[TextFault::NoMemory, TextFault::WriteFault])
}
