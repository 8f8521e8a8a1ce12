//! Why the machine refuses a step (specs/Run).
ghost use Rattle.std.specs.Prelude.{◌≡◌};
ghost use Rattle.nms_flow.specs.Faults.{code_of};

use std::fmt;
use thiserror::Error;

/// Why the machine refused a step, least number first. The machine is left as it was.
#[derive(Clone, Copy, Debug, PartialEq, Eq, Error)]
pub enum StepFault {
    /// F2: a change was sent to a full queue.
    QueueFull,
    /// F3: there was nothing in the queue to take.
    QueueEmpty,
    /// F4: the tape has as many changes as the setup's limit.
    TapeFull,
    /// F5: a taking that would have succeeded was out of memory.
    NoMemory,
}

impl StepFault {
    /// The code of the fault, `F2` to `F5`.
    pub fn code(self) -> &'static str
        ensures { result.now ≡ code_of self }
    {
        match self {
            StepFault::QueueFull => "F2",
            StepFault::QueueEmpty => "F3",
            StepFault::TapeFull => "F4",
            StepFault::NoMemory => "F5",
        }
    }
}

impl fmt::Display for StepFault {
    fn fmt<W: fmt::Write>(&self, f: &mut fmt::Formatter<W>) -> fmt::Result {
        f.write_str(match self {
            StepFault::QueueFull => "F2: the queue is full",
            StepFault::QueueEmpty => "F3: the queue is empty",
            StepFault::TapeFull => "F4: the tape is full",
            StepFault::NoMemory => "F5: out of memory",
        })
    }
}
