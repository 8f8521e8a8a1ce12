//! Why a look shows nothing.
use std::fmt;
use thiserror::Error;

/// V5: the pair of boards gave no reading.
#[derive(Clone, Copy, Debug, PartialEq, Eq, Error)]
pub struct NoReading;

impl fmt::Display for NoReading {
    fn fmt<W: fmt::Write>(&self, f: &mut fmt::Formatter<W>) -> fmt::Result {
        f.write_str("V5: no reading")
    }
}
