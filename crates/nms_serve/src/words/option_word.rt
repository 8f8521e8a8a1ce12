//! The options that the command line takes.
use clap::ArgAction;

/// An option, with its explanation in the help.
pub(crate) struct OptionWord {
    pub(crate) name: &'static str,
    /// The names of the option's values in the help; none for a flag.
    pub(crate) values: &'static [&'static str],
    /// What the parser does with the option; none if it has one value and is given once.
    pub(crate) action: Option<ArgAction>,
    /// Whether the option has to be given.
    pub(crate) required: bool,
    pub(crate) help: &'static str,
}

/// The options, in the order in which the help has them.
pub(crate) static OPTIONS: [OptionWord; 16] = [
    OptionWord {
        name: "setup",
        values: &["FILE"],
        action: None,
        required: false,
        help: "The file of the setup, in place of the built-in one",
    },
    OptionWord {
        name: "feed",
        values: &["LETTER=PATH"],
        action: Some(ArgAction::Append),
        required: true,
        help: "A feed and the path that it is read from; one for each feed of the setup",
    },
    OptionWord {
        name: "client",
        values: &["IN,OUT"],
        action: Some(ArgAction::Append),
        required: false,
        help: "A client: the path of its requests and the path of its answers",
    },
    OptionWord {
        name: "tape",
        values: &["FILE"],
        action: None,
        required: true,
        help: "The file that every accepted change is written to, in order",
    },
    OptionWord {
        name: "strict",
        values: &[],
        action: Some(ArgAction::SetTrue),
        required: false,
        help: "Ends the run at the first record of a feed that is refused",
    },
    OptionWord {
        name: "keep",
        values: &[],
        action: Some(ArgAction::SetTrue),
        required: false,
        help: "Reads the FIFOs of feeds and clients on after their other ends left",
    },
    OptionWord {
        name: "wait",
        values: &[],
        action: Some(ArgAction::SetTrue),
        required: false,
        help: "Holds requests until each feed has sent a change or ended",
    },
    OptionWord {
        name: "stale",
        values: &["SECONDS"],
        action: None,
        required: false,
        help: "Warns on standard error of a feed without a record for that long, 1 to 86400",
    },
    OptionWord {
        name: "resume",
        values: &[],
        action: Some(ArgAction::SetTrue),
        required: false,
        help: "Goes on with the tape that an earlier run has left, if there is one",
    },
    OptionWord {
        name: "check",
        values: &[],
        action: Some(ArgAction::SetTrue),
        required: false,
        help: "Tests the setup, the paths and the tape as a run would, and starts none",
    },
    OptionWord {
        name: "status",
        values: &["FILE"],
        action: None,
        required: false,
        help: "Writes the state of the run to this file once a second",
    },
    OptionWord {
        name: "ready",
        values: &["FILE"],
        action: None,
        required: false,
        help: "Makes this file once the run serves, and removes it at the end",
    },
    OptionWord {
        name: "log-time",
        values: &[],
        action: Some(ArgAction::SetTrue),
        required: false,
        help: "Begins each line on standard error with the time of day, UTC",
    },
    OptionWord {
        name: "times",
        values: &["ZONE"],
        action: None,
        required: false,
        help: "Writes the time of each change to FILE.times, in a zone, as -0500 or +0000",
    },
    OptionWord {
        name: "record",
        values: &["FILE"],
        action: None,
        required: false,
        help: "The file that each request and its answer are written to",
    },
    OptionWord {
        name: "sync",
        values: &["WHEN"],
        action: None,
        required: false,
        help: "What waits for the disk: each publish, each second, or none (as without it)",
    },
];
