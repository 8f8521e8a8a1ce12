//! Why an answer was not written completely: `specs/Faults`.
ghost use Rattle.nms_codes.specs.Codes.{IsToldAs};
ghost use Rattle.nms_drawing.specs.Faults.{code_of, status_of};

use nms_board::BoardFault;
use nms_codes::Code;
use nms_files::ChangesFault;
use nms_lines::PlanTextFault;
use nms_show::ShowFault;
use nms_stream::StreamFault;
use nms_times::TimesFault;
use std::fmt;
use thiserror::Error;

/// Why an answer was not written completely.
#[derive(Clone, Copy, Debug, PartialEq, Eq, Error)]
pub enum DrawingFault {
    /// The file of changes is no tape. Nothing was written.
    Changes(ChangesFault),
    /// B1: no board was made. Nothing was written.
    Board(BoardFault),
    /// A1: there are fewer changes than the version has. Nothing was written.
    VersionBeyondTape,
    /// L11 or L12: the text is no plan, or out of memory. Nothing was written.
    Plan(PlanTextFault),
    /// H2 or H3: the times fall, or their number is not that of the changes. Nothing was written.
    Times(TimesFault),
    /// E2: the writer failed. A prefix of the answer was written.
    WriteFault,
    /// E4: out of memory. A prefix of the answer was written, which may be none.
    NoMemory,
}

impl DrawingFault {
    /// The code of the fault: that of the changes, the plan or the times, `B1`, `A1`, `E2` or `E4`.
    pub fn code(self) -> Code
        ensures { IsToldAs result (code_of self) (status_of self) }
    {
        match self {
            DrawingFault::Changes(fault) => Code::of_changes(fault),
            DrawingFault::Board(fault) => Code::of_board(fault),
            DrawingFault::VersionBeyondTape => Code::A1,
            DrawingFault::Plan(fault) => Code::of_plan_text(fault),
            DrawingFault::Times(fault) => Code::of_times(fault),
            DrawingFault::WriteFault => Code::E2,
            DrawingFault::NoMemory => Code::E4,
        }
    }
}

impl From<ShowFault> for DrawingFault {
    ghost use Rattle.std.specs.Prelude.{◌≡◌};
    ghost use Rattle.nms_drawing.specs.Faults.{of_show};

    ghost from_gives = { λ own fault. fault ≡ of_show own };

    fn from(fault: ShowFault) -> Self {
        match fault {
            ShowFault::WriteFault => DrawingFault::WriteFault,
            ShowFault::NoMemory => DrawingFault::NoMemory,
        }
    }
}

impl From<StreamFault> for DrawingFault {
    ghost use Rattle.std.specs.Prelude.{◌≡◌};
    ghost use Rattle.nms_drawing.specs.Faults.{of_stream};

    ghost from_gives = { λ own fault. fault ≡ of_stream own };

    fn from(fault: StreamFault) -> Self {
        match fault {
            StreamFault::Changes(fault) => DrawingFault::Changes(fault),
            StreamFault::Board(fault) => DrawingFault::Board(fault),
            StreamFault::WriteFault => DrawingFault::WriteFault,
            StreamFault::NoMemory => DrawingFault::NoMemory,
        }
    }
}

impl From<TimesFault> for DrawingFault {
    ghost use Rattle.std.specs.Prelude.{◌≡◌};
    ghost use Rattle.nms_drawing.specs.declared.drawing_fault.DrawingFault.TheVariants.{Times};

    ghost from_gives = { λ own fault. fault ≡ Times own };

    fn from(fault: TimesFault) -> Self {
        DrawingFault::Times(fault)
    }
}

impl fmt::Display for DrawingFault {
    fn fmt<W: fmt::Write>(&self, f: &mut fmt::Formatter<W>) -> fmt::Result {
        match self {
            DrawingFault::Changes(fault) => fmt::Display::fmt(fault, f),
            DrawingFault::Board(fault) => fmt::Display::fmt(fault, f),
            DrawingFault::VersionBeyondTape => f.write_str(
                "A1: the version has more changes than there are",
            ),
            DrawingFault::Plan(fault) => fmt::Display::fmt(fault, f),
            DrawingFault::Times(fault) => fmt::Display::fmt(fault, f),
            DrawingFault::WriteFault => f.write_str("E2: the output could not be written"),
            DrawingFault::NoMemory => f.write_str("E4: out of memory"),
        }
    }
}
