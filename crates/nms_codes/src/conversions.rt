//! The code of each fault of the lower crates. A new fault has none until it is named here.
ghost use Rattle.std.specs.Prelude.{codes};
ghost use Rattle.nms_codes.specs.Codes.{IsToldAs, code_of_show, code_of_times, status_of_show, status_of_times};
ghost use Rattle.nms_fees.specs.Faults as setup_faults;
ghost use Rattle.nms_files.specs.Faults as file_faults;
ghost use Rattle.nms_lines.specs.Faults as line_faults;
ghost use Rattle.nms_lines.specs.PlanFaults as plan_faults;
ghost use Rattle.nms_lines.specs.RecordFaults as record_faults;

use crate::code::Code;
use nms_board::BoardFault;
use nms_fees::SetupFault;
use nms_files::ChangesFault;
use nms_lines::{LineFault, PlanTextFault, RecordFault};
use nms_show::ShowFault;
use nms_times::TimesFault;

impl Code {
    /// The code of a refused record.
    pub fn of_line(fault: LineFault) -> Code
        ensures { IsToldAs result (line_faults.code_of fault) record_faults.refused_status }
    {
        match fault {
            LineFault::UnknownKind => Code::L1,
            LineFault::FieldCount => Code::L2,
            LineFault::UnknownParticipant => Code::L3,
            LineFault::UnknownSymbol => Code::L4,
            LineFault::BadState => Code::L5,
            LineFault::BadPrice => Code::L6,
            LineFault::BadShares => Code::L7,
            LineFault::HalfSide => Code::L8,
            LineFault::WrongFeed => Code::L9,
            LineFault::BadDesk => Code::L10,
            LineFault::BadLot => Code::L14,
        }
    }

    /// The code of a file that was not read.
    pub fn of_record(fault: RecordFault) -> Code
        ensures { IsToldAs result (record_faults.code_of fault) (record_faults.status_of fault) }
    {
        match fault {
            RecordFault::Failed => Code::E1,
            RecordFault::NoMemory => Code::E4,
        }
    }

    /// The code of a file that is no tape.
    pub fn of_changes(fault: ChangesFault) -> Code
        ensures { IsToldAs result (file_faults.code_of_changes fault) (file_faults.status_of_changes fault) }
    {
        match fault {
            ChangesFault::Record(fault) => Code::of_record(fault),
            ChangesFault::Line(fault) => Code::of_line(fault),
            ChangesFault::TapeFull => Code::F4,
        }
    }

    /// The code of a text that is no plan.
    pub fn of_plan_text(fault: PlanTextFault) -> Code
        ensures { IsToldAs result (plan_faults.code_of fault) (plan_faults.status_of fault) }
    {
        match fault {
            PlanTextFault::BadPlanText => Code::L11,
            PlanTextFault::NoMemory => Code::L12,
            PlanTextFault::WriteFault => Code::L13,
        }
    }

    /// The code of a setup that was refused.
    pub fn of_setup(fault: SetupFault) -> Code
        ensures { IsToldAs result (setup_faults.code_of fault) (setup_faults.status_of fault) }
    {
        match fault {
            SetupFault::NotToml => Code::C1,
            SetupFault::Missing => Code::C2,
            SetupFault::UnknownKey => Code::C3,
            SetupFault::BadName => Code::C4,
            SetupFault::WrongType => Code::C5,
            SetupFault::OutOfRange => Code::C6,
            SetupFault::OverCap => Code::C7,
            SetupFault::TooMany => Code::C8,
            SetupFault::NoMemory => Code::C9,
        }
    }

    /// The code of a board that was not made.
    pub fn of_board(fault: BoardFault) -> Code
        ensures { IsToldAs result (codes "B1") 5 }
    {
        match fault {
            BoardFault::NoMemory => Code::B1,
        }
    }

    /// The code of an answer that was not printed.
    pub fn of_show(fault: ShowFault) -> Code
        ensures { IsToldAs result (code_of_show fault) (status_of_show fault) }
    {
        match fault {
            ShowFault::WriteFault => Code::E2,
            ShowFault::NoMemory => Code::E4,
        }
    }

    /// The code of a fault of times, or of the file of symbols.
    pub fn of_times(fault: TimesFault) -> Code
        ensures { IsToldAs result (code_of_times fault) (status_of_times fault) }
    {
        match fault {
            TimesFault::NotTime { .. } => Code::H1,
            TimesFault::TimesFall { .. } => Code::H2,
            TimesFault::OtherLength => Code::H3,
            TimesFault::NotSymbol { .. } => Code::H4,
            TimesFault::NoMemory => Code::E4,
        }
    }
}
