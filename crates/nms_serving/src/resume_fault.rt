//! Why a run can't go on with an epoch's files.
use nms_files::ChangesFault;
use std::fmt;
use thiserror::Error;

/// Why a run can't go on with the two files of an epoch. Apart from a lack of memory, no run under this setup leaves such
/// files, whenever its process ends.
#[derive(Clone, Copy, Debug, PartialEq, Eq, Error)]
pub enum ResumeFault {
    /// A line of the lengths is no length, or is no greater than the one before it.
    BadLengths,
    /// The tape has fewer lines than its last length says.
    ShortTape,
    /// After its last published length, the tape has more lines than a run writes before it publishes.
    TooMuch,
    /// The tape has blank lines, or several lines that form one record.
    NotLines,
    /// The setup refuses a record of the tape, or has no room for it.
    Refused(ChangesFault),
    /// Out of memory.
    NoMemory,
}

impl fmt::Display for ResumeFault {
    fn fmt<W: fmt::Write>(&self, f: &mut fmt::Formatter<W>) -> fmt::Result {
        match self {
            ResumeFault::BadLengths => f.write_str(
                "a line of its lengths is none that a run writes",
            ),
            ResumeFault::ShortTape => f.write_str("it has fewer changes than its lengths say"),
            ResumeFault::TooMuch => {
                f.write_str("more changes are after its last length than a run leaves")
            }
            ResumeFault::NotLines => f.write_str("its records are not one a line"),
            ResumeFault::Refused(fault) => write!(f, "this setup refuses a record of it: {fault}"),
            ResumeFault::NoMemory => f.write_str("E4: out of memory"),
        }
    }
}
