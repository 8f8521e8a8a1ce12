use crate::option_word::OptionWord;

/// A thing that the program can do. Each is a subcommand of the command line.
#[derive(Clone, Copy, PartialEq, Eq)]
pub enum Sub {
    /// Answers a script from standard input. It has no arguments.
    Script,
    /// Reports on a file of changes. Its own arguments are `CHANGES` and `SYM`.
    Report,
    /// Plans an order on a file of changes. Its own arguments are `CHANGES`, `SIDE`, `SYM`, `SHARES` and `LIMIT`, and it may
    /// have `--manual` and `--self-help`.
    Plan,
    /// Says whether a plan is confirmed on a file of changes. Its own arguments are `CHANGES` and `PLANFILE`.
    Check,
    /// Runs the feeds, the tape and the desks together. Its own arguments are `ORDERS` and `FEED_A`, and one of `FEED_B` to
    /// `FEED_H` for each further feed.
    Live,
}

/// An argument that the parser takes for a subcommand, with its explanation in the help.
#[derive(Clone, Copy)]
pub(crate) struct Word {
    pub(crate) name: &'static str,
    pub(crate) help: &'static str,
    pub(crate) kind: WordKind,
}

/// The kind of an argument.
#[derive(Clone, Copy)]
pub(crate) enum WordKind {
    /// An argument that the subcommand needs.
    Needed,
    /// An argument that may follow the needed ones.
    Further,
    /// An option.
    Option(OptionWord),
}

const CHANGES: Word = Word {
    name: "CHANGES",
    help: "The file of the quotation changes",
    kind: WordKind::Needed,
};

const SETUP: Word = Word {
    name: "setup",
    help: "The file of the setup, in place of the built-in one",
    kind: WordKind::Option(OptionWord::Setup),
};

static SCRIPT_WORDS: [Word; 1] = [SETUP];

static REPORT_WORDS: [Word; 3] = [
    CHANGES,
    Word {
        name: "SYM",
        help: "The symbol that the report is on",
        kind: WordKind::Needed,
    },
    SETUP,
];

static PLAN_WORDS: [Word; 8] = [
    CHANGES,
    Word {
        name: "SIDE",
        help: "B to buy, S to sell",
        kind: WordKind::Needed,
    },
    Word {
        name: "SYM",
        help: "The symbol to trade",
        kind: WordKind::Needed,
    },
    Word {
        name: "SHARES",
        help: "How many shares, at least 1",
        kind: WordKind::Needed,
    },
    Word {
        name: "LIMIT",
        help: "The worst price",
        kind: WordKind::Needed,
    },
    SETUP,
    Word {
        name: "manual",
        help: "Also trades with manual quotations",
        kind: WordKind::Option(OptionWord::Manual),
    },
    Word {
        name: "self-help",
        help: "The participants, joined by +, against which self-help is declared",
        kind: WordKind::Option(OptionWord::SelfHelp),
    },
];

static CHECK_WORDS: [Word; 3] = [
    CHANGES,
    Word {
        name: "PLANFILE",
        help: "The file of the plan and its certificate",
        kind: WordKind::Needed,
    },
    SETUP,
];

static LIVE_WORDS: [Word; 10] = [
    Word {
        name: "ORDERS",
        help: "The file of the orders, each for a desk",
        kind: WordKind::Needed,
    },
    Word {
        name: "FEED_A",
        help: "The file of the changes of feed A",
        kind: WordKind::Needed,
    },
    Word {
        name: "FEED_B",
        help: "The file of the changes of feed B, where the setup has it",
        kind: WordKind::Further,
    },
    Word {
        name: "FEED_C",
        help: "The file of the changes of feed C, where the setup has it",
        kind: WordKind::Further,
    },
    Word {
        name: "FEED_D",
        help: "The file of the changes of feed D, where the setup has it",
        kind: WordKind::Further,
    },
    Word {
        name: "FEED_E",
        help: "The file of the changes of feed E, where the setup has it",
        kind: WordKind::Further,
    },
    Word {
        name: "FEED_F",
        help: "The file of the changes of feed F, where the setup has it",
        kind: WordKind::Further,
    },
    Word {
        name: "FEED_G",
        help: "The file of the changes of feed G, where the setup has it",
        kind: WordKind::Further,
    },
    Word {
        name: "FEED_H",
        help: "The file of the changes of feed H, where the setup has it",
        kind: WordKind::Further,
    },
    SETUP,
];

impl Sub {
    ghost use Rattle.std.specs.Prelude.{◌≡◌, ◌++◌, map};
    ghost use Rattle.nms_words.specs.CommandLine.{more_names, name_of, own_names, sub_named};
    ghost use Rattle.nms_words.specs.WordTable.{own_of, rule_for, rules_of_sub};

    /// Every subcommand.
    pub(crate) const ALL: [Self; 5] = [
        Self::Script,
        Self::Report,
        Self::Plan,
        Self::Check,
        Self::Live,
    ];

    /// The name of the subcommand.
    pub(crate) fn name(self) -> &'static str
        ensures { result.now ≡ name_of self }
    {
        match self {
            Sub::Script => "script",
            Sub::Report => "report",
            Sub::Plan => "plan",
            Sub::Check => "check",
            Sub::Live => "live",
        }
    }

    /// What the subcommand does, as the help says.
    pub(crate) fn about(self) -> &'static str {
        match self {
            Sub::Script => "Answers the script on standard input, as with no command",
            Sub::Report => "Reports what a file of changes leaves of a symbol",
            Sub::Plan => "Plans an order on a file of changes, with the certificate",
            Sub::Check => "Says whether a plan is lawful and none is better",
            Sub::Live =>
                "Runs the feeds and the desks at once, and plans each order on all changes",
        }
    }

    /// The arguments that the parser takes for the subcommand. Needed arguments come first, in order. Optional arguments follow
    /// in order, and each needs all arguments before it. Each option may be given once, and in any order.
    pub(crate) fn words(self) -> &'static [Word]
        ensures rules { map rule_for result.now ≡ rules_of_sub self }
        ensures own { own_of result.now ≡ own_names self ++ more_names self }
    {
        match self {
            Sub::Script => SCRIPT_WORDS.as_slice(),
            Sub::Report => REPORT_WORDS.as_slice(),
            Sub::Plan => PLAN_WORDS.as_slice(),
            Sub::Check => CHECK_WORDS.as_slice(),
            Sub::Live => LIVE_WORDS.as_slice(),
        }
    }

    /// The subcommand with that name.
    pub(crate) fn named(name: &str) -> Option<Self>
        ensures { result ≡ sub_named name.now }
    {
        Self::ALL.iter().copied().find(|sub| sub.name() == name)
    }
}
