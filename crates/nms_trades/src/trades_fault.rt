//! Why executions were not judged: `specs/FileFaults`.
ghost use Rattle.std.specs.Prelude.{◌≡◌};
ghost use Rattle.nms_codes.specs.Codes.{IsToldAs};
ghost use Rattle.nms_codes.specs.declared.code.Code.TheVariants as code;
ghost use Rattle.nms_trades.specs.FileFaults.{file_code, file_status, is_of_executions};

use nms_board::BoardFault;
use nms_codes::Code;
use nms_files::ChangesFault;
use nms_lines::RecordFault;
use nms_show::ShowFault;
use nms_times::TimesFault;
use std::fmt;
use thiserror::Error;

/// Why executions were not judged, or not all of them.
#[derive(Clone, Copy, Debug, PartialEq, Eq, Error)]
pub enum TradesFault {
    /// The file of changes is no tape. Nothing was written.
    Changes(ChangesFault),
    /// E1 or E4: the file of executions could not be read, or out of memory for it. Nothing was written.
    Executions(RecordFault),
    /// H2 or H3: the times do not rise, or their number is not that of the changes. Nothing was written.
    Times(TimesFault),
    /// H4: the file of symbols is not one. Nothing was written.
    Symbols(TimesFault),
    /// B1: no memory for the board or for what is found. Nothing was written.
    Board(BoardFault),
    /// E3: there are more than 10,000,000 executions. Nothing was written.
    TooLong,
    /// E2 or E4: the output could not be written, or out of memory. A prefix of it may have been written.
    Show(ShowFault),
}

impl TradesFault {
    /// The code of the fault: that of a file, `H2` to `H4`, `B1`, `E2`, `E3` or `E4`.
    pub fn code(&self) -> Code
        ensures code { IsToldAs result (file_code self.now) (file_status self.now) }
        ensures records { self.now ≡ TradesFault.TooLong → result ≡ code.E3 }
    {
        match self {
            TradesFault::Changes(fault) => Code::of_changes(*fault),
            TradesFault::Executions(fault) => Code::of_record(*fault),
            TradesFault::Times(fault) | TradesFault::Symbols(fault) => Code::of_times(*fault),
            TradesFault::Board(fault) => Code::of_board(*fault),
            TradesFault::TooLong => Code::E3,
            TradesFault::Show(fault) => Code::of_show(*fault),
        }
    }

    /// Whether the fault is about the file of executions, and not about that of the changes.
    pub fn is_of_executions(&self) -> bool
        ensures { result ≡ is_of_executions self.now }
    {
        match self {
            TradesFault::Executions(_) | TradesFault::TooLong => true,
            TradesFault::Changes(_)
            | TradesFault::Times(_)
            | TradesFault::Symbols(_)
            | TradesFault::Board(_)
            | TradesFault::Show(_) => false,
        }
    }
}

impl From<ShowFault> for TradesFault {
    fn from(fault: ShowFault) -> Self {
        TradesFault::Show(fault)
    }
}

impl From<BoardFault> for TradesFault {
    fn from(fault: BoardFault) -> Self {
        TradesFault::Board(fault)
    }
}

impl fmt::Display for TradesFault {
    fn fmt<W: fmt::Write>(&self, f: &mut fmt::Formatter<W>) -> fmt::Result {
        match self {
            TradesFault::Changes(fault) => fmt::Display::fmt(fault, f),
            TradesFault::Executions(fault) => fmt::Display::fmt(fault, f),
            TradesFault::Times(fault) => fmt::Display::fmt(fault, f),
            TradesFault::Symbols(fault) => fmt::Display::fmt(fault, f),
            TradesFault::Board(fault) => fmt::Display::fmt(fault, f),
            TradesFault::TooLong => f.write_str("E3: more than 10,000,000 executions"),
            TradesFault::Show(fault) => fmt::Display::fmt(fault, f),
        }
    }
}
