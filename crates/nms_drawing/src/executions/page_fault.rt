//! Why executions were not drawn, or their page not written: `specs/PageFaults`.
ghost use Rattle.nms_codes.specs.Codes.{IsToldAs};
ghost use Rattle.nms_drawing.specs.PageFaults.{code_of, status_of};

use crate::drawing_fault::DrawingFault;
use nms_codes::Code;
use nms_trades::TradesFault;
use std::fmt;
use thiserror::Error;

/// Why executions were not drawn, or their page not written.
#[derive(Clone, Copy, Debug, PartialEq, Eq, Error)]
pub enum PageFault {
    /// The day was not drawn.
    Drawing(DrawingFault),
    /// The executions were not judged.
    Trades(TradesFault),
}

impl PageFault {
    /// The code of the fault: that of drawing the day, or that of judging the executions.
    pub fn code(self) -> Code
        ensures { IsToldAs result (code_of self) (status_of self) }
    {
        match self {
            PageFault::Drawing(fault) => fault.code(),
            PageFault::Trades(fault) => fault.code(),
        }
    }
}

impl fmt::Display for PageFault {
    fn fmt<W: fmt::Write>(&self, f: &mut fmt::Formatter<W>) -> fmt::Result {
        match self {
            PageFault::Drawing(fault) => fmt::Display::fmt(fault, f),
            PageFault::Trades(fault) => fmt::Display::fmt(fault, f),
        }
    }
}
