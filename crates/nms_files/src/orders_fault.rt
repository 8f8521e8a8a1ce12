//! Why a file of orders is refused.
ghost use Rattle.std.specs.Prelude.{◌≡◌};
ghost use Rattle.nms_files.specs.Faults.{code_of_orders, status_of_orders};

use nms_lines::{LineFault, RecordFault};
use std::fmt;
use thiserror::Error;

/// Why a file of orders is refused. No order of it is kept.
#[derive(Clone, Copy, Debug, PartialEq, Eq, Error)]
pub enum OrdersFault {
    /// E1 or E4: the file could not be read, or out of memory.
    Record(RecordFault),
    /// L1 to L10: the first line that is refused; every line before it was taken.
    Line(LineFault),
}

impl OrdersFault {
    /// The code of the fault: `E1`, `L1` to `L10` or `E4`.
    pub fn code(self) -> &'static str
        ensures { result.now ≡ code_of_orders self }
    {
        match self {
            OrdersFault::Record(fault) => fault.code(),
            OrdersFault::Line(fault) => fault.code(),
        }
    }

    /// The exit status of a program that ends with this fault: the status of the file's fault, or 6 for a line.
    pub fn status(self) -> u8
        ensures { result ≡ status_of_orders self }
    {
        match self {
            OrdersFault::Record(fault) => fault.status(),
            OrdersFault::Line(fault) => fault.status(),
        }
    }
}

impl fmt::Display for OrdersFault {
    fn fmt<W: fmt::Write>(&self, f: &mut fmt::Formatter<W>) -> fmt::Result {
        match self {
            OrdersFault::Record(fault) => fmt::Display::fmt(fault, f),
            OrdersFault::Line(fault) => fmt::Display::fmt(fault, f),
        }
    }
}
