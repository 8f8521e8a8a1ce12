//! Why a run can't go on with the tape of an earlier one.
use nms_serving::ResumeFault;
use std::fmt;
use thiserror::Error;

/// Why a run can't have a tape, or can't go on with what an earlier run has left of it.
#[derive(Clone, Copy, Debug, PartialEq, Eq, Error)]
pub(crate) enum TapeFault {
    /// Another run holds the tape.
    Held,
    /// There are files of the tape, but none of its setup.
    NoSetup,
    /// The tape was made under another setup.
    OtherSetup,
    /// A file of an epoch is missing.
    Missing,
    /// A file of the tape can't be cut because it is no plain file, or no epoch has its number.
    NoEpoch,
    /// Nothing of an epoch was published, and there is a later one.
    Unpublished,
    /// What is left of an epoch is not what a run leaves.
    Left(ResumeFault),
}

impl fmt::Display for TapeFault {
    fn fmt<W: fmt::Write>(&self, f: &mut fmt::Formatter<W>) -> fmt::Result {
        match self {
            TapeFault::Held => f.write_str("usage: another run has the tape"),
            TapeFault::NoSetup => f.write_str("usage: the setup of the tape is missing"),
            TapeFault::OtherSetup => f.write_str("usage: the tape is of another setup"),
            TapeFault::Missing => f.write_str("usage: a file of the tape is missing"),
            TapeFault::NoEpoch => f.write_str("usage: this is no file of a tape"),
            TapeFault::Unpublished => f.write_str(
                "usage: an epoch published nothing, and is not the last",
            ),
            TapeFault::Left(fault) => write!(f, "usage: the tape can't be resumed: {fault}"),
        }
    }
}
