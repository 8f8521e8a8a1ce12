use std::alloc::AllocError;
use std::fmt;
use thiserror::Error;

/// Why the arguments of the command line are no request.
#[derive(Debug, Drop, Error)]
pub enum WordsFault {
    /// G1: the parser refuses the arguments, and has a text about it. If `help` is true, the text is the help or the version that
    /// was asked for.
    Parser { text: String, help: bool },
    /// G2: out of memory.
    NoMemory,
}

impl WordsFault {
    ghost use Rattle.std.specs.Prelude.{◌≡◌};
    ghost use Rattle.nms_words.specs.Faults.{status_of};

    /// The exit status of a program that ends with this fault: 2 for refused arguments, 5 for a lack of memory.
    pub fn status(&self) -> u8
        ensures { result ≡ status_of self.now }
    {
        match self {
            WordsFault::Parser { .. } => 2,
            WordsFault::NoMemory => 5,
        }
    }
}

impl From<AllocError> for WordsFault {
    ghost use Rattle.std.specs.Prelude.{◌≡◌};
    ghost use Rattle.nms_words.specs.declared.words_fault.WordsFault.TheVariants.{NoMemory};

    ghost from_gives = { λ _ fault. fault ≡ NoMemory };

    fn from(_error: AllocError) -> WordsFault {
        WordsFault::NoMemory
    }
}

impl fmt::Display for WordsFault {
    fn fmt<W: fmt::Write>(&self, f: &mut fmt::Formatter<W>) -> fmt::Result {
        match self {
            WordsFault::Parser { text, .. } => f.write_str(text.as_str()),
            WordsFault::NoMemory => f.write_str("G2: out of memory"),
        }
    }
}
