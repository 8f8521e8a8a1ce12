//! Why a text is not a setup: `specs/Faults`, and `specs/Places` for when each fault is found.
ghost use Rattle.std.specs.Prelude.{◌≡◌};
ghost use Rattle.nms_fees.specs.Faults.{code_of, number_of, status_of};

use std::fmt;
use thiserror::Error;

/// Why a text is not a setup: the fault of least number anywhere in it.
#[derive(Clone, Copy, Debug, PartialEq, Eq, Error)]
pub enum SetupFault {
    /// C1: the text is not a TOML document.
    NotToml,
    /// C2: a required key is absent, at the top or in a table of the two arrays.
    Missing,
    /// C3: there is a key that a setup does not know.
    UnknownKey,
    /// C4: a name is a text that does not have its form, or is repeated in its array.
    BadName,
    /// C5: a value does not have its kind.
    WrongType,
    /// C6: a value is out of range, or one of the two arrays is empty.
    OutOfRange,
    /// C7: a fee or a rate is over its cap.
    OverCap,
    /// C8: there are more than `MOST_PARTICIPANTS` (32) participants, or `MOST_SYMBOLS` (1,000) symbols.
    TooMany,
    /// C9: out of memory.
    NoMemory,
}

impl SetupFault {
    /// The code in messages, `C1` to `C9`.
    pub fn code(self) -> &'static str
        ensures { result.now ≡ code_of self }
    {
        match self {
            SetupFault::NotToml => "C1",
            SetupFault::Missing => "C2",
            SetupFault::UnknownKey => "C3",
            SetupFault::BadName => "C4",
            SetupFault::WrongType => "C5",
            SetupFault::OutOfRange => "C6",
            SetupFault::OverCap => "C7",
            SetupFault::TooMany => "C8",
            SetupFault::NoMemory => "C9",
        }
    }

    /// The exit status of a program that ends with this fault: 3 for the setup, 5 for memory.
    pub fn status(self) -> u8
        ensures { result ≡ status_of self }
    {
        match self {
            SetupFault::NotToml
            | SetupFault::Missing
            | SetupFault::UnknownKey
            | SetupFault::BadName
            | SetupFault::WrongType
            | SetupFault::OutOfRange
            | SetupFault::OverCap
            | SetupFault::TooMany => 3,
            SetupFault::NoMemory => 5,
        }
    }

    /// The number of the fault's code, 1 to 9.
    pub(crate) fn number(self) -> u8
        ensures { result ≡ number_of self }
    {
        match self {
            SetupFault::NotToml => 1,
            SetupFault::Missing => 2,
            SetupFault::UnknownKey => 3,
            SetupFault::BadName => 4,
            SetupFault::WrongType => 5,
            SetupFault::OutOfRange => 6,
            SetupFault::OverCap => 7,
            SetupFault::TooMany => 8,
            SetupFault::NoMemory => 9,
        }
    }

    /// The message: the code, and what is wrong.
    fn message(self) -> &'static str {
        match self {
            SetupFault::NotToml => "C1: not a TOML document",
            SetupFault::Missing => "C2: a key is missing",
            SetupFault::UnknownKey => "C3: an unknown key",
            SetupFault::BadName => "C4: a bad name, or the same name twice",
            SetupFault::WrongType => "C5: a value of another kind",
            SetupFault::OutOfRange => "C6: a value out of range",
            SetupFault::OverCap => "C7: a fee over its cap",
            SetupFault::TooMany => "C8: too many participants or symbols",
            SetupFault::NoMemory => "C9: out of memory",
        }
    }
}

impl fmt::Display for SetupFault {
    fn fmt<W: fmt::Write>(&self, f: &mut fmt::Formatter<W>) -> fmt::Result {
        f.write_str(self.message())
    }
}
