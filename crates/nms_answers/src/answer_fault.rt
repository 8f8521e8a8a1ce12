//! Why a request got no answer, and why a client's stream got no more answers.
ghost use Rattle.std.specs.Prelude.{◌≡◌};
ghost use Rattle.nms_answers.specs.Faults.{code_of};

use std::fmt;
use thiserror::Error;

/// Why a request, or the rest of a stream, got no answer. What was answered before stays.
#[derive(Clone, Copy, Debug, PartialEq, Eq, Error)]
pub enum AnswerFault {
    /// E1: the requests could not be read.
    ReadFault,
    /// E2: an answer could not be written. A prefix of the answer may have been written.
    WriteFault,
    /// E3: there are more than 2^40 requests.
    TooLong,
    /// E4: out of memory.
    NoMemory,
    /// E8: the desk had no reading. It knows what it knew before.
    NoReading,
}

impl AnswerFault {
    /// The code of the fault, `E1` to `E4` or `E8`.
    pub fn code(self) -> &'static str
        ensures { result.now ≡ code_of self }
    {
        match self {
            AnswerFault::ReadFault => "E1",
            AnswerFault::WriteFault => "E2",
            AnswerFault::TooLong => "E3",
            AnswerFault::NoMemory => "E4",
            AnswerFault::NoReading => "E8",
        }
    }
}

impl fmt::Display for AnswerFault {
    fn fmt<W: fmt::Write>(&self, f: &mut fmt::Formatter<W>) -> fmt::Result {
        f.write_str(match self {
            AnswerFault::ReadFault => "E1: the requests could not be read",
            AnswerFault::WriteFault => "E2: the answers could not be written",
            AnswerFault::TooLong => "E3: there are too many requests",
            AnswerFault::NoMemory => "E4: out of memory",
            AnswerFault::NoReading => "E8: the desk had no reading",
        })
    }
}
