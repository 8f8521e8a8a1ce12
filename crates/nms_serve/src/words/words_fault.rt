//! Why the arguments of the command line are no request.
use std::alloc::AllocError;
use std::fmt;
use thiserror::Error;

/// Why the arguments of the command line are no request.
#[derive(Debug, Drop, Error)]
pub enum WordsFault {
    /// G1: the parser refuses the arguments, and has the text. If `help` holds, the text is the help or the version that was
    /// asked for.
    Parser { text: String, help: bool },
    /// G2: out of memory.
    NoMemory,
    /// The value of `--feed` is not a letter from `A` to `H`, an equals sign and a path.
    FeedForm,
    /// Two of the values of `--feed` have one letter.
    FeedTwice,
    /// The value of `--client` is not two paths with one comma between them.
    ClientForm,
    /// Two clients have the same input, or one path is written to twice: by two clients, or by a client and the tape.
    PathTwice,
    /// The value of `--stale` is not a whole number from 1 to 86,400, in digits only.
    StaleForm,
}

impl WordsFault {
    ghost use Rattle.std.specs.Prelude.{◌≡◌};
    ghost use Rattle.nms_serve.specs.Faults.{status_of};

    /// The exit status of a program that ends with this fault: 2 for arguments, 5 for memory.
    pub fn status(&self) -> u8
        ensures { result ≡ status_of self.now }
    {
        match self {
            WordsFault::Parser { .. }
            | WordsFault::FeedForm
            | WordsFault::FeedTwice
            | WordsFault::ClientForm
            | WordsFault::PathTwice
            | WordsFault::StaleForm => 2,
            WordsFault::NoMemory => 5,
        }
    }
}

impl From<AllocError> for WordsFault {
    ghost use Rattle.std.specs.Prelude.{◌≡◌};
    ghost use Rattle.nms_serve.specs.declared.words.words_fault.WordsFault.TheVariants.{NoMemory};

    ghost from_gives = { λ _ fault. fault ≡ NoMemory };

    fn from(_error: AllocError) -> WordsFault {
        WordsFault::NoMemory
    }
}

impl fmt::Display for WordsFault {
    fn fmt<W: fmt::Write>(&self, f: &mut fmt::Formatter<W>) -> fmt::Result {
        match self {
            WordsFault::Parser { text, .. } => f.write_str(text.as_str()),
            WordsFault::NoMemory => f.write_str("G2: out of memory"),
            WordsFault::FeedForm => f.write_str(
                "usage: --feed takes LETTER=PATH, with a letter from A to H",
            ),
            WordsFault::FeedTwice => f.write_str("usage: --feed names a feed twice"),
            WordsFault::ClientForm => f.write_str(
                "usage: --client takes IN,OUT: two paths, with no comma in them",
            ),
            WordsFault::PathTwice => f.write_str(
                "usage: a path is given to two clients, or to a client and --tape",
            ),
            WordsFault::StaleForm => f.write_str(
                "usage: --stale takes whole seconds, from 1 to 86400",
            ),
        }
    }
}
