//! Why the program ends with a status other than 0 and 6.
use crate::tape_fault::TapeFault;
use crate::words::WordsFault;
use nms_fees::SetupFault;
use nms_serving::ServeFault;
use std::fmt;
use thiserror::Error;

/// Why the program ends with a status other than 0 and 6.
#[derive(Debug, Drop, Error)]
pub(crate) enum ProgramFault {
    /// The arguments are no request.
    Words(WordsFault),
    /// An argument is not UTF-8.
    NoText,
    /// A standard stream is closed, and nothing could replace it.
    NoNull,
    /// The paths are not those of the setup's feeds.
    WrongFeeds,
    /// There are more clients than desks.
    MoreClients,
    /// The file of the setup could not be read.
    NoSetup,
    /// The setup is refused.
    Setup(SetupFault),
    /// A file of the tape is there already.
    TapeThere,
    /// The tape is held by another run, or a run can't go on with it.
    Tape(TapeFault),
    /// Two paths of the call name one file.
    OneFile,
    /// A file of the run's state, or of its record, can't be made.
    NoFile,
    /// There is something else at the path of a file of the run's state.
    NoState,
    /// The value of `--times` is no zone.
    ZoneForm,
    /// The value of `--sync` is none of the three words.
    SyncForm,
    /// There is a record already.
    RecordThere,
    /// The tape's limit in the setup leaves no room for epochs. The number is the least `tape_limit` that leaves room.
    ShortTape(u64),
    /// A thread of the process could not be started.
    NoThread,
    /// The run ended early, or did not begin.
    Serving(ServeFault),
}

impl ProgramFault {
    /// The exit status.
    pub(crate) fn status(&self) -> u8 {
        match self {
            ProgramFault::Words(fault) => fault.status(),
            ProgramFault::NoText
            | ProgramFault::WrongFeeds
            | ProgramFault::MoreClients
            | ProgramFault::TapeThere
            | ProgramFault::Tape(_)
            | ProgramFault::OneFile
            | ProgramFault::NoState
            | ProgramFault::ZoneForm
            | ProgramFault::SyncForm
            | ProgramFault::RecordThere => 2,
            ProgramFault::NoSetup | ProgramFault::NoNull | ProgramFault::NoFile => 1,
            ProgramFault::ShortTape(_) => 3,
            ProgramFault::NoThread => ServeFault::NotBegun.status(),
            ProgramFault::Setup(fault) => fault.status(),
            ProgramFault::Serving(fault) => fault.status(),
        }
    }
}

impl fmt::Display for ProgramFault {
    fn fmt<W: fmt::Write>(&self, f: &mut fmt::Formatter<W>) -> fmt::Result {
        match self {
            ProgramFault::Words(fault) => fmt::Display::fmt(fault, f),
            ProgramFault::NoNull => f.write_str("E1: /dev/null could not be opened"),
            ProgramFault::NoText => f.write_str("usage: a word of the call is no UTF-8"),
            ProgramFault::WrongFeeds => f.write_str(
                "usage: --feed has to name each feed of the setup, and no other",
            ),
            ProgramFault::MoreClients => f.write_str(
                "usage: more clients than the setup has desks",
            ),
            ProgramFault::NoSetup => f.write_str("E1: the setup could not be read"),
            ProgramFault::Setup(fault) => fmt::Display::fmt(fault, f),
            ProgramFault::TapeThere => f.write_str("usage: a file of the tape is there already"),
            ProgramFault::Tape(fault) => fmt::Display::fmt(fault, f),
            ProgramFault::OneFile => f.write_str("usage: two paths name one file"),
            ProgramFault::NoFile => f.write_str("E1: a file of the run could not be made"),
            ProgramFault::NoState => f.write_str(
                "usage: there is something else than the state of a run",
            ),
            ProgramFault::ZoneForm => f.write_str(
                "usage: --times takes a sign and HHMM, as --times=-0500",
            ),
            ProgramFault::SyncForm => f.write_str("usage: --sync takes publish, second or none"),
            ProgramFault::RecordThere => f.write_str("usage: the record is there already"),
            ProgramFault::ShortTape(least) => write!(
                f,
                "E6: tape_limit has to be {least} at least: twice the most opening changes, 2 a participant and 1, for each symbol"
            ),
            ProgramFault::NoThread => write!(
                f,
                "{}: a thread could not be started",
                ServeFault::NotBegun
            ),
            ProgramFault::Serving(fault) => fmt::Display::fmt(fault, f),
        }
    }
}
