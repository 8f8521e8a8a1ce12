//! Why a request was not served.
use nms_codes::Code;
use nms_show::ShowFault;
use nms_times::TimesFault;
use std::io;

/// Why a request was not served.
#[derive(Clone, Copy)]
pub(crate) struct Fault {
    /// The code of the fault, or `usage` for a wrong argument.
    pub(crate) code: Code,
    /// The argument or file that the fault is about.
    pub(crate) about: About,
    /// The system's reason, if a file could not be read.
    pub(crate) cause: Option<io::Error>,
    /// The form that is expected of an argument.
    pub(crate) expected: &'static str,
    /// The line of a file that the fault is about, counted from 1.
    pub(crate) line: Option<u64>,
}

/// The argument that a fault is about.
#[derive(Clone, Copy)]
pub(crate) enum About {
    /// The fault is about no argument of the call.
    Nothing,
    /// The subcommand's own argument at that place, counted from 0.
    Word(usize),
    /// The value of the option with that name.
    Value(&'static str),
    /// A file that is written under the value of `--out`.
    Out(Output),
}

/// A written file. Its path is made of the value of `--out`, the number of the shard, and an end.
#[derive(Clone, Copy)]
pub(crate) struct Output {
    /// The number of the file's shard, 0 if there are no shards.
    pub(crate) shard: u64,
    /// The end of the file's name, such as `.changes`. It is empty if any of the shard's files may be meant.
    pub(crate) end: &'static str,
}

impl Fault {
    /// A fault with a code of the library. It names the given argument, but a lack of memory or a fault of an output names none.
    pub(crate) fn of(code: Code, about: About) -> Self {
        let is_of_a_word = code.matter().is_of_a_word();
        Fault {
            code,
            about: if is_of_a_word { about } else { About::Nothing },
            cause: None,
            expected: "",
            line: None,
        }
    }

    /// A fault of times, in the file that an argument names.
    pub(crate) fn of_times(fault: TimesFault, about: About) -> Self {
        Fault {
            line: fault.line(),
            ..Fault::of(Code::of_times(fault), about)
        }
    }

    /// E1: a file could not be read.
    pub(crate) fn unread(error: io::Error, about: About) -> Self {
        if error.kind() == io::ErrorKind::OutOfMemory {
            return Fault::of(Code::E4, about);
        }
        Fault {
            cause: Some(error),
            ..Fault::of(Code::E1, about)
        }
    }

    /// E2: an output could not be written.
    pub(crate) fn unwritten(about: About) -> Self {
        Fault {
            about,
            ..Fault::of(Code::E2, About::Nothing)
        }
    }

    /// E4: out of memory.
    pub(crate) fn no_memory() -> Self {
        Fault::of(Code::E4, About::Nothing)
    }

    /// The same fault, but if an output could not be written, the fault names the given output.
    pub(crate) fn in_output(self, output: Output) -> Self {
        if self.code == Code::E2 {
            Fault::unwritten(About::Out(output))
        } else {
            self
        }
    }

    /// The same fault. If a file could not be read to its end, E1 gets the system's reason.
    pub(crate) fn with_reason(self, failed: Option<io::Error>) -> Self {
        match failed {
            Some(error) if self.code == Code::E1 => Fault::unread(error, self.about),
            Some(_) | None => self,
        }
    }

    /// An argument that does not have the form that it must have.
    pub(crate) fn usage(about: About, expected: &'static str) -> Self {
        Fault {
            expected,
            ..Fault::of(Code::Usage, about)
        }
    }
}

impl From<ShowFault> for Fault {
    fn from(fault: ShowFault) -> Fault {
        Fault::of(Code::of_show(fault), About::Nothing)
    }
}
