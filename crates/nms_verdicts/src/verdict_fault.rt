//! Why plans were not judged: `specs/Faults`.
ghost use Rattle.nms_codes.specs.Codes.{IsToldAs};
ghost use Rattle.nms_verdicts.specs.Faults.{code_of, status_of};

use nms_board::BoardFault;
use nms_codes::Code;
use nms_files::ChangesFault;
use nms_lines::PlanTextFault;
use nms_show::ShowFault;
use nms_times::TimesFault;
use std::fmt;
use thiserror::Error;

/// The reason why no plan was judged, or why the judging of plans stopped early.
#[derive(Clone, Copy, Debug, PartialEq, Eq, Error)]
pub enum VerdictFault {
    /// The file of changes is no tape. Nothing was written.
    Changes(ChangesFault),
    /// H3: the number of times is not that of the changes. Nothing was written.
    Times(TimesFault),
    /// B1: there was no memory for a board. Text that was already written remains.
    Board(BoardFault),
    /// L11 or L12: the text is no plan, or there was no memory to read it. In a file with many plans, a plan that can't be read
    /// is reported in the answers, and is no fault.
    Plan(PlanTextFault),
    /// E2 or E4: the output could not be written, or memory ran out. The first part of the output may have been written.
    Show(ShowFault),
}

impl VerdictFault {
    /// The code of the fault: that of the file, `B1`, `L11`, `L12`, `E2` or `E4`.
    pub fn code(&self) -> Code
        ensures { IsToldAs result (code_of self.now) (status_of self.now) }
    {
        match self {
            VerdictFault::Changes(fault) => Code::of_changes(*fault),
            VerdictFault::Times(fault) => Code::of_times(*fault),
            VerdictFault::Board(fault) => Code::of_board(*fault),
            VerdictFault::Plan(fault) => Code::of_plan_text(*fault),
            VerdictFault::Show(fault) => Code::of_show(*fault),
        }
    }
}

impl From<BoardFault> for VerdictFault {
    fn from(fault: BoardFault) -> Self {
        VerdictFault::Board(fault)
    }
}

impl From<ShowFault> for VerdictFault {
    fn from(fault: ShowFault) -> Self {
        VerdictFault::Show(fault)
    }
}

impl From<TimesFault> for VerdictFault {
    fn from(fault: TimesFault) -> Self {
        VerdictFault::Times(fault)
    }
}

impl fmt::Display for VerdictFault {
    fn fmt<W: fmt::Write>(&self, f: &mut fmt::Formatter<W>) -> fmt::Result {
        match self {
            VerdictFault::Changes(fault) => fmt::Display::fmt(fault, f),
            VerdictFault::Times(fault) => fmt::Display::fmt(fault, f),
            VerdictFault::Board(fault) => fmt::Display::fmt(fault, f),
            VerdictFault::Plan(fault) => fmt::Display::fmt(fault, f),
            VerdictFault::Show(fault) => fmt::Display::fmt(fault, f),
        }
    }
}
