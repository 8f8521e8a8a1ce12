//! Why the arguments of the command line are no request.
use std::alloc::AllocError;

/// Why the arguments of the command line are no request.
#[derive(Drop)]
pub(crate) enum WordsFault {
    /// G1: the parser refuses the arguments, and has the text. If `help` holds, the text is the help or the version that was
    /// asked for.
    Parser { text: String, help: bool },
    /// G2: out of memory.
    NoMemory,
}

impl From<AllocError> for WordsFault {
    fn from(_error: AllocError) -> WordsFault {
        WordsFault::NoMemory
    }
}
