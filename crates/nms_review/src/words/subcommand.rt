//! The subcommands, with their own arguments and options.

/// A request to the program. Each is a subcommand of the command line.
#[derive(Clone, Copy)]
pub(crate) enum Sub {
    /// Reports the place of the fault in each refused record of a file. Its own arguments are `KIND` and `FILE`.
    Explain,
    /// Writes the changes that a script takes, as a file of changes. Its own argument is `SCRIPT`.
    Tape,
    /// Shows any version. Its own arguments are `VERSION` and `CHANGES`, and `SYM` may follow them.
    At,
    /// Writes the opening changes of a version. Its own arguments are `VERSION` and `CHANGES`.
    Opening,
    /// Writes a line when a best bid, a best offer or a market changes. Its own argument is `CHANGES`, and `SYM` may follow it.
    Stream,
    /// Judges every plan in the output of a script or a live run. Its own arguments are `CHANGES` and `ANSWERS`.
    Check,
    /// Explains why a plan is as it is. Its own arguments are `CHANGES` and `PLAN`.
    Why,
    /// Draws a symbol's day. Its own arguments are `CHANGES` and `SYM`.
    Draw,
    /// Makes changes from a vendor's files. Its own arguments are `MAP` and one or more of `FILE`.
    Import,
    /// Finds versions by their times, or the time of a version. Its own arguments are `TIMES` and any number of `TIME`.
    When,
    /// Judges a file of executions. Its own arguments are `CHANGES` and `EXECUTIONS`.
    Trades,
    /// Judges a file of executions on the shards of a day. Its own arguments are one or more of `FOLDER`.
    Day,
    /// Compares a vendor's national bests with those of a file of changes. Its own arguments are `CHANGES` and `NBBO`.
    Compare,
}

/// What `explain` is asked about: a kind of file, or a code.
#[derive(Clone, Copy)]
pub(crate) enum Kind {
    /// A file whose records are explained.
    Records(RecordKind),
    /// A file that is read as one text.
    Text(TextKind),
    /// A file of executions.
    Executions,
    /// A code, given in the place of a file.
    Code,
}

/// The kinds of files of records.
#[derive(Clone, Copy)]
pub(crate) enum RecordKind {
    /// A script.
    Script,
    /// A file of changes.
    Changes,
    /// A file of orders.
    Orders,
    /// The file of one feed, which `--feed` names.
    Feed,
}

/// The kinds of files that are read as one text.
#[derive(Clone, Copy)]
pub(crate) enum TextKind {
    /// The text of a plan and its certificate.
    Plan,
    /// A setup.
    Setup,
    /// A mapping of a vendor's files.
    Map,
    /// A file of times.
    Times,
}

/// An argument or an option of a subcommand, with its explanation in the help.
#[derive(Clone, Copy)]
pub(crate) struct Word {
    pub(crate) name: &'static str,
    pub(crate) help: &'static str,
    pub(crate) form: WordForm,
}

/// The form of an argument in the command line.
#[derive(Clone, Copy)]
pub(crate) enum WordForm {
    /// An argument that the subcommand needs.
    Needed,
    /// The kind of a file, which the subcommand needs.
    OfKinds,
    /// The last argument of the subcommand. It may be repeated, and is needed once.
    Several,
    /// An argument that may follow the needed ones.
    Optional,
    /// The last argument of the subcommand. It may be repeated, or left out.
    AnyNumber,
    /// An option with a value. It has the name of the value in the help.
    Valued(&'static str),
    /// An option with a value that the subcommand needs.
    NeededValue(&'static str),
    /// An option without a value.
    Flag,
}

/// The arguments that name a kind of file.
pub(crate) static KINDS: [&'static str; 10] = [
    "script",
    "changes",
    "orders",
    "feed",
    "plan",
    "setup",
    "map",
    "executions",
    "times",
    "code",
];

const CHANGES: Word = Word {
    name: "CHANGES",
    help: "The file of the quotation changes",
    form: WordForm::Needed,
};

const SETUP: Word = Word {
    name: "setup",
    help: "The file of the setup, in place of the built-in one",
    form: WordForm::Valued("FILE"),
};

const JSON: Word = Word {
    name: "json",
    help: "Prints one JSON object a line",
    form: WordForm::Flag,
};

const TIMES: Word = Word {
    name: "times",
    help: "The file of times that an import wrote, a line for each change",
    form: WordForm::Valued("FILE"),
};

const SYMBOLS: Word = Word {
    name: "symbols",
    help: "The file of symbols that an import wrote, to find versions within one symbol",
    form: WordForm::Valued("FILE"),
};

static EXPLAIN: [Word; 7] = [
    Word {
        name: "KIND",
        help: "What the file is",
        form: WordForm::OfKinds,
    },
    Word {
        name: "FILE",
        help: "The file to explain; after `code` the code, as X12",
        form: WordForm::Needed,
    },
    Word {
        name: "feed",
        help: "Of a feed: its letter, A if it is not given",
        form: WordForm::Valued("LETTER"),
    },
    Word {
        name: "times",
        help: "Of executions: the file of the changes' times, to find versions by time",
        form: WordForm::Valued("FILE"),
    },
    Word {
        name: "symbols",
        help: "Of executions: the file of symbols that an import wrote, with --times",
        form: WordForm::Valued("FILE"),
    },
    SETUP,
    JSON,
];

static TAPE: [Word; 2] = [
    Word {
        name: "SCRIPT",
        help: "The file of the script",
        form: WordForm::Needed,
    },
    SETUP,
];

static AT: [Word; 7] = [
    Word {
        name: "VERSION",
        help: "The number of the version: how many changes it has; or @ and a time, with --times",
        form: WordForm::Needed,
    },
    CHANGES,
    Word {
        name: "SYM",
        help: "The symbol; all of them in a table if it is not given",
        form: WordForm::Optional,
    },
    TIMES,
    SYMBOLS,
    SETUP,
    JSON,
];

static OPENING: [Word; 3] = [
    Word {
        name: "VERSION",
        help: "The number of the version: how many changes it has",
        form: WordForm::Needed,
    },
    CHANGES,
    SETUP,
];

static STREAM: [Word; 6] = [
    CHANGES,
    Word {
        name: "SYM",
        help: "The symbol; all of them if it is not given",
        form: WordForm::Optional,
    },
    Word {
        name: "boards",
        help: "Prints each participant's quotations after every change that may alter them, with --json",
        form: WordForm::Flag,
    },
    TIMES,
    SETUP,
    JSON,
];

/// The flag that leaves the boards out of a page.
const BESTS: Word = Word {
    name: "bests",
    help: "The page has best quotations only, and no boards: it is less than half as long",
    form: WordForm::Flag,
};

static CHECK: [Word; 5] = [
    CHANGES,
    Word {
        name: "ANSWERS",
        help: "The file of what a script, a live run or `plan` answered",
        form: WordForm::Needed,
    },
    TIMES,
    SETUP,
    JSON,
];

static WHY: [Word; 5] = [
    CHANGES,
    Word {
        name: "PLAN",
        help: "The file of the plan and its certificate",
        form: WordForm::Needed,
    },
    TIMES,
    SETUP,
    JSON,
];

static DRAW: [Word; 11] = [
    CHANGES,
    Word {
        name: "SYM",
        help: "The symbol of the page",
        form: WordForm::Needed,
    },
    Word {
        name: "plan",
        help: "The file of a plan, which the page shows at its version",
        form: WordForm::Valued("PLAN"),
    },
    Word {
        name: "trades",
        help: "The file of executions, shown at their versions; with --times at their times",
        form: WordForm::Valued("EXECUTIONS"),
    },
    Word {
        name: "from",
        help: "The first version of the page; or @ and a time, with --times",
        form: WordForm::Valued("VERSION"),
    },
    Word {
        name: "to",
        help: "The last version of the page; or @ and a time, with --times",
        form: WordForm::Valued("VERSION"),
    },
    Word {
        name: "own",
        help: "Counts versions, also with --times",
        form: WordForm::Flag,
    },
    BESTS,
    TIMES,
    SYMBOLS,
    SETUP,
];

static IMPORT: [Word; 8] = [
    Word {
        name: "MAP",
        help: "The file of the mapping: how the vendor's files are laid out",
        form: WordForm::Needed,
    },
    Word {
        name: "FILE",
        help: "The vendor's files, read in this order as one",
        form: WordForm::Several,
    },
    Word {
        name: "out",
        help: "Writes NAME.changes, NAME.times and NAME.symbols",
        form: WordForm::NeededValue("NAME"),
    },
    Word {
        name: "rows",
        help: "Writes the number of its row after each time",
        form: WordForm::Flag,
    },
    Word {
        name: "shards",
        help: "Writes NAME.1.changes, NAME.2.changes and so on, each with at most 1,000 symbols and its setup",
        form: WordForm::Flag,
    },
    Word {
        name: "add-symbols",
        help: "Also writes NAME.toml, the setup with the symbols that it lacks, each with the round lot 100",
        form: WordForm::Flag,
    },
    Word {
        name: "refused",
        help: "Writes every refused row to FILE, as one JSON object a line, in place of showing the first 100",
        form: WordForm::Valued("FILE"),
    },
    SETUP,
];

static WHEN: [Word; 7] = [
    Word {
        name: "TIMES",
        help: "The file of times that an import wrote",
        form: WordForm::Needed,
    },
    Word {
        name: "TIME",
        help: "The times to find: six digits HHMMSS, and up to nine after them",
        form: WordForm::AnyNumber,
    },
    Word {
        name: "before",
        help: "Finds the version before a time, without the changes of that time",
        form: WordForm::Flag,
    },
    Word {
        name: "version",
        help: "Prints the time of this version, in place of finding any",
        form: WordForm::Valued("VERSION"),
    },
    SYMBOLS,
    Word {
        name: "symbol",
        help: "The symbol that they are found for",
        form: WordForm::Valued("SYM"),
    },
    JSON,
];

const BEFORE: Word = Word {
    name: "before",
    help: "Judges an execution with a time on the version before it, without the changes of that time",
    form: WordForm::Flag,
};

static TRADES: [Word; 13] = [
    CHANGES,
    Word {
        name: "EXECUTIONS",
        help: "The file of the executions",
        form: WordForm::Needed,
    },
    Word {
        name: "table",
        help: "Prints counts and sums in place of a line for each execution",
        form: WordForm::Flag,
    },
    Word {
        name: "quality",
        help: "Prints sums of spreads and price improvement in place of a line for each execution",
        form: WordForm::Flag,
    },
    Word {
        name: "columns",
        help: "Prints one line of columns for each record, as CSV with a header",
        form: WordForm::Flag,
    },
    Word {
        name: "html",
        help: "Also writes a page for the file: the days of its symbols, with each execution",
        form: WordForm::Valued("PAGE"),
    },
    BESTS,
    Word {
        name: "window",
        help: "Judges each execution on all versions within NS nanoseconds of its time, with --times",
        form: WordForm::Valued("NS"),
    },
    BEFORE,
    TIMES,
    SYMBOLS,
    SETUP,
    JSON,
];

static DAY: [Word; 6] = [
    Word {
        name: "FOLDER",
        help: "The folders of the shards, or of folders with them",
        form: WordForm::Several,
    },
    Word {
        name: "trades",
        help: "The file of the executions, each with its time",
        form: WordForm::NeededValue("EXECUTIONS"),
    },
    Word {
        name: "out",
        help: "Writes NAME.findings.csv, a line of columns for each record, by time",
        form: WordForm::NeededValue("NAME"),
    },
    Word {
        name: "window",
        help: "Judges each execution on all versions within NS nanoseconds of its time",
        form: WordForm::Valued("NS"),
    },
    BEFORE,
    JSON,
];

static COMPARE: [Word; 7] = [
    CHANGES,
    Word {
        name: "NBBO",
        help: "The vendor's file of national best bids and offers",
        form: WordForm::Needed,
    },
    Word {
        name: "map",
        help: "The file of the mapping: how the vendor's file is laid out",
        form: WordForm::NeededValue("MAP"),
    },
    Word {
        name: "times",
        help: "The file of the changes' times, as `import` writes it",
        form: WordForm::NeededValue("TIMES"),
    },
    Word {
        name: "refused",
        help: "Writes every row that differs or is refused to FILE, as one JSON object a line, in place of showing the first 100",
        form: WordForm::Valued("FILE"),
    },
    SETUP,
    JSON,
];

impl Sub {
    /// All subcommands.
    pub(crate) const ALL: [Sub; 13] = [
        Sub::Explain,
        Sub::Tape,
        Sub::At,
        Sub::Opening,
        Sub::Stream,
        Sub::Check,
        Sub::Why,
        Sub::Draw,
        Sub::Import,
        Sub::When,
        Sub::Trades,
        Sub::Day,
        Sub::Compare,
    ];

    /// The name of the subcommand.
    pub(crate) fn name(self) -> &'static str {
        match self {
            Sub::Explain => "explain",
            Sub::Tape => "tape",
            Sub::At => "at",
            Sub::Opening => "opening",
            Sub::Stream => "stream",
            Sub::Check => "check",
            Sub::Why => "why",
            Sub::Draw => "draw",
            Sub::Import => "import",
            Sub::When => "when",
            Sub::Trades => "trades",
            Sub::Day => "day",
            Sub::Compare => "compare",
        }
    }

    /// The line about the subcommand in the help.
    pub(crate) fn about(self) -> &'static str {
        match self {
            Sub::Explain =>
                "Says of each refused record, of a setup or a code, what is wrong and what to do",
            Sub::Tape => "Writes the changes that a script takes, as a file of changes",
            Sub::At => "Shows a version: a symbol's report, or all symbols in a table",
            Sub::Opening => "Writes a short file of changes that shows what a version shows",
            Sub::Stream =>
                "Writes a line of CSV wherever a best bid, a best offer or a market changes",
            Sub::Check => "Judges every plan in what a script, a live run or `plan` answered",
            Sub::Why =>
                "Says why a plan is as it is: its rows, what it takes, and what each cut shows",
            Sub::Draw => "Writes the page of a symbol's day, to open in a browser",
            Sub::Import => "Makes a file of changes of a vendor's files, by a mapping",
            Sub::When => "Finds versions by time, or the time of a version",
            Sub::Trades => "Says which executions traded through a protected quotation, and whose",
            Sub::Day =>
                "Says the same of a day that is cut into shards: a table, and a file of findings",
            Sub::Compare => "Compares a vendor's national bests with those of a file of changes",
        }
    }

    /// The subcommand's own arguments in order, and then its options.
    pub(crate) fn words(self) -> &'static [Word] {
        match self {
            Sub::Explain => EXPLAIN.as_slice(),
            Sub::Tape => TAPE.as_slice(),
            Sub::At => AT.as_slice(),
            Sub::Opening => OPENING.as_slice(),
            Sub::Stream => STREAM.as_slice(),
            Sub::Check => CHECK.as_slice(),
            Sub::Why => WHY.as_slice(),
            Sub::Draw => DRAW.as_slice(),
            Sub::Import => IMPORT.as_slice(),
            Sub::When => WHEN.as_slice(),
            Sub::Trades => TRADES.as_slice(),
            Sub::Day => DAY.as_slice(),
            Sub::Compare => COMPARE.as_slice(),
        }
    }

    /// The subcommand with that name.
    pub(crate) fn named(name: &str) -> Option<Sub> {
        Sub::ALL.iter().copied().find(|sub| sub.name() == name)
    }
}

impl Kind {
    /// The kind that an argument names.
    pub(crate) fn named(word: &str) -> Option<Kind> {
        match word {
            "script" => Some(Kind::Records(RecordKind::Script)),
            "changes" => Some(Kind::Records(RecordKind::Changes)),
            "orders" => Some(Kind::Records(RecordKind::Orders)),
            "feed" => Some(Kind::Records(RecordKind::Feed)),
            "plan" => Some(Kind::Text(TextKind::Plan)),
            "setup" => Some(Kind::Text(TextKind::Setup)),
            "map" => Some(Kind::Text(TextKind::Map)),
            "executions" => Some(Kind::Executions),
            "times" => Some(Kind::Text(TextKind::Times)),
            "code" => Some(Kind::Code),
            _ => None,
        }
    }

    /// Whether the kind is explained under a setup.
    pub(crate) fn is_under_setup(self) -> bool {
        match self {
            Kind::Records(_) | Kind::Text(TextKind::Plan) | Kind::Executions => true,
            Kind::Text(TextKind::Setup | TextKind::Map | TextKind::Times) | Kind::Code => false,
        }
    }
}
