//! The answer of a full lane.
use nms_quote::Change;
use std::fmt;
use thiserror::Error;

/// N2: the lane is full. The change was not sent, and comes back.
#[derive(Clone, Copy, Debug, PartialEq, Eq, Error)]
pub struct Full {
    /// The change that was to be sent.
    pub change: Change,
}

impl fmt::Display for Full {
    fn fmt<W: fmt::Write>(&self, f: &mut fmt::Formatter<W>) -> fmt::Result {
        f.write_str("N2: the lane is full")
    }
}
