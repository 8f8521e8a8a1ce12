//! What a call asks for: what the arguments of each subcommand mean. They are read only here.
//!
//! An argument with a wrong form is reported at once if no file is read before its test. Otherwise its fault is kept in its
//! field, and is reported after these files are read.
use crate::fault::{About, Fault};
use crate::words::{Kind, RecordKind, Sub, Words};
use nms_times::TimeOfDay;
use nms_trades::Layout;
use std::alloc::Global;

/// The longest window, in nanoseconds: a minute. An execution may look at each change of its symbol's best prices in its
/// window, so longer windows would take hours on a day. This product's own rule.
const LONGEST_WINDOW: u64 = 60_000_000_000;

/// A file that an argument names.
#[derive(Clone, Copy)]
pub(crate) struct Path<'a> {
    pub(crate) name: &'a str,
    pub(crate) about: About,
}

/// A symbol that an argument names.
#[derive(Clone, Copy)]
pub(crate) struct Symbol<'a> {
    pub(crate) name: &'a str,
    pub(crate) about: About,
}

/// A symbol and the file of symbols by which its changes are found. Versions are then found by time among its changes only.
#[derive(Clone, Copy)]
pub(crate) struct Within<'a> {
    /// The file of symbols that an import wrote.
    pub(crate) symbols: Path<'a>,
    pub(crate) symbol: Symbol<'a>,
}

/// A version that an argument names.
#[derive(Clone, Copy)]
pub(crate) enum Version {
    /// The version with this number.
    Number(u64),
    /// The last version at or before a time, which the argument has after `@`.
    At { time: TimeOfDay, about: About },
}

/// What a call asks for.
#[derive(Drop)]
pub(crate) enum Request<'a> {
    Explain(Explain<'a>),
    /// Asks for the tape of a script.
    Tape(Path<'a>),
    At(At<'a>),
    Opening(Opening<'a>),
    Stream(Stream<'a>),
    Plans(Plans<'a>),
    Draw(Draw<'a>),
    Import(Import<'a>),
    When(When<'a>),
    Trades(Trades<'a>),
    Day(DayOf<'a>),
    Compare(Compare<'a>),
}

/// What `explain` is asked for.
#[derive(Drop)]
pub(crate) struct Explain<'a> {
    pub(crate) kind: Kind,
    /// The file or the code that is explained.
    pub(crate) subject: Path<'a>,
    /// The letter of a feed.
    pub(crate) feed: Option<&'a str>,
    pub(crate) times: Option<Path<'a>>,
    pub(crate) symbols: Option<Path<'a>>,
}

/// What `at` is asked for.
#[derive(Drop)]
pub(crate) struct At<'a> {
    pub(crate) version: Result<Version, Fault>,
    pub(crate) changes: Path<'a>,
    /// The symbol; without one all symbols are shown.
    pub(crate) symbol: Option<Symbol<'a>>,
    pub(crate) times: Option<Path<'a>>,
    pub(crate) within: Option<Within<'a>>,
}

/// What `opening` is asked for.
#[derive(Drop)]
pub(crate) struct Opening<'a> {
    pub(crate) version: Result<u64, Fault>,
    pub(crate) changes: Path<'a>,
}

/// What `stream` is asked for.
#[derive(Drop)]
pub(crate) struct Stream<'a> {
    pub(crate) changes: Path<'a>,
    /// The symbol; without one all symbols are streamed.
    pub(crate) symbol: Option<Symbol<'a>>,
    /// Whether each participant's quotations are streamed instead of the best ones.
    pub(crate) boards: bool,
    pub(crate) times: Option<Path<'a>>,
}

/// What `check` or `why` is asked for.
#[derive(Drop)]
pub(crate) struct Plans<'a> {
    /// Whether the subcommand is `why`.
    pub(crate) is_why: bool,
    pub(crate) changes: Path<'a>,
    /// The file of answers, or of the plan.
    pub(crate) plans: Path<'a>,
    pub(crate) times: Option<Path<'a>>,
}

/// What `draw` is asked for.
#[derive(Drop)]
pub(crate) struct Draw<'a> {
    pub(crate) changes: Path<'a>,
    pub(crate) symbol: Symbol<'a>,
    pub(crate) plan: Option<Path<'a>>,
    /// The file of executions.
    pub(crate) trades: Option<Path<'a>>,
    pub(crate) from: Result<Option<Version>, Fault>,
    pub(crate) to: Result<Option<Version>, Fault>,
    /// Whether the page counts versions, although there are times.
    pub(crate) own: bool,
    /// Whether the page has only best quotations.
    pub(crate) bests: bool,
    pub(crate) times: Option<Path<'a>>,
    pub(crate) within: Option<Within<'a>>,
}

/// What `import` is asked for.
#[derive(Drop)]
pub(crate) struct Import<'a> {
    pub(crate) map: Path<'a>,
    /// The vendor's files, in order.
    pub(crate) files: Vec<Path<'a>>,
    /// The beginning of the written files' names.
    pub(crate) out: &'a str,
    /// Whether each time has the number of its row.
    pub(crate) rows: bool,
    pub(crate) shards: bool,
    /// Whether the import adds symbols that the setup lacks to a new setup.
    pub(crate) adds: bool,
    /// Where all refused rows are written.
    pub(crate) refused: Option<Path<'a>>,
    /// The path of the setup that `--setup` gives, if it was given.
    pub(crate) setup: Option<&'a str>,
}

/// What `when` is asked for.
#[derive(Drop)]
pub(crate) struct When<'a> {
    pub(crate) times: Path<'a>,
    pub(crate) wanted: Wanted<'a>,
}

/// What `when` finds.
#[derive(Drop)]
pub(crate) enum Wanted<'a> {
    /// The time of this version.
    Time(u64),
    /// The versions at some times.
    Versions(Versions<'a>),
}

/// The versions at some times.
#[derive(Drop)]
pub(crate) struct Versions<'a> {
    pub(crate) times: Vec<TimeOfDay>,
    /// Whether changes at exactly the given time are left out, so that the version before that time is found.
    pub(crate) before: bool,
    pub(crate) within: Option<Within<'a>>,
}

/// What `trades` is asked for.
#[derive(Drop)]
pub(crate) struct Trades<'a> {
    pub(crate) changes: Path<'a>,
    pub(crate) executions: Path<'a>,
    pub(crate) times: Option<Path<'a>>,
    pub(crate) symbols: Option<Path<'a>>,
    /// Whether changes at exactly the time of an execution are left out when it is judged.
    pub(crate) before: bool,
    /// The window, in nanoseconds.
    pub(crate) window: Result<Option<u64>, Fault>,
    pub(crate) layout: Result<Layout, Fault>,
    /// The page that is written in addition.
    pub(crate) html: Option<Path<'a>>,
    /// Whether the page has only best quotations.
    pub(crate) bests: bool,
}

/// What `day` is asked for.
#[derive(Drop)]
pub(crate) struct DayOf<'a> {
    /// The folders of the shards.
    pub(crate) folders: Vec<Path<'a>>,
    pub(crate) executions: Path<'a>,
    /// The beginning of the written file's name.
    pub(crate) out: &'a str,
    /// Whether changes at exactly the time of an execution are left out when it is judged.
    pub(crate) before: bool,
    /// The window, in nanoseconds.
    pub(crate) window: Option<u64>,
}

/// What `compare` is asked for.
#[derive(Drop)]
pub(crate) struct Compare<'a> {
    pub(crate) changes: Path<'a>,
    /// The vendor's file of national bests.
    pub(crate) national: Path<'a>,
    pub(crate) map: Path<'a>,
    pub(crate) times: Path<'a>,
    /// Where all rows that differ or are refused are written.
    pub(crate) refused: Option<Path<'a>>,
}

/// What the arguments ask for, or the first fault among the arguments that are tested before any file is read.
pub(crate) fn request_of<'a>(alloc: Global, words: &Words<'a>) -> Result<Request<'a>, Fault> {
    match words.command {
        Sub::Explain => explained(words),
        Sub::Tape => Ok(Request::Tape(own_file(words, 0))),
        Sub::At => Ok(Request::At(At {
            version: version_shown(words),
            changes: own_file(words, 1),
            symbol: own_symbol(words, 2),
            times: given_file(words, "times"),
            within: found_within(words, own_symbol(words, 2)),
        })),
        Sub::Opening => Ok(Request::Opening(Opening {
            version: number_in(own_word(words, 0), About::Word(0)),
            changes: own_file(words, 1),
        })),
        Sub::Stream => streamed(words),
        Sub::Check | Sub::Why => Ok(Request::Plans(Plans {
            is_why: words.command == Sub::Why,
            changes: own_file(words, 0),
            plans: own_file(words, 1),
            times: given_file(words, "times"),
        })),
        Sub::Draw => Ok(drawn(words)),
        Sub::Import => imported(alloc, words),
        Sub::When => sought(alloc, words),
        Sub::Trades => Ok(judged(words)),
        Sub::Day => judged_day(alloc, words),
        Sub::Compare => Ok(Request::Compare(Compare {
            changes: own_file(words, 0),
            national: own_file(words, 1),
            map: needed_file(words, "map"),
            times: needed_file(words, "times"),
            refused: given_file(words, "refused"),
        })),
    }
}

/// What `explain` is asked for. An option that has no effect on the kind is refused.
fn explained<'a>(words: &Words<'a>) -> Result<Request<'a>, Fault> {
    let Some(kind) = Kind::named(own_word(words, 0)) else {
        // The parser accepts only the names of kinds as the first argument, so this fault cannot occur.
        return Err(Fault::usage(About::Word(0), "it is no kind of file"));
    };
    let is_feed = matches!(kind, Kind::Records(RecordKind::Feed));
    let is_executions = matches!(kind, Kind::Executions);
    let options = [
        ("feed", is_feed, "--feed goes with the kind feed"),
        (
            "setup",
            kind.is_under_setup(),
            "--setup does not go with this kind",
        ),
        (
            "times",
            is_executions,
            "--times goes with the kind executions",
        ),
        (
            "symbols",
            is_executions,
            "--symbols goes with the kind executions",
        ),
    ];
    for (option, has_effect, expected) in options {
        if !has_effect && words.option(option).is_some() {
            return Err(Fault::usage(About::Value(option), expected));
        }
    }
    if words.option("symbols").is_some() && words.option("times").is_none() {
        return Err(Fault::usage(About::Nothing, "--symbols needs --times"));
    }
    Ok(Request::Explain(Explain {
        kind,
        subject: own_file(words, 1),
        feed: words.option("feed"),
        times: given_file(words, "times"),
        symbols: given_file(words, "symbols"),
    }))
}

/// The version that `at` shows. If it is found by time in a file of symbols, a symbol is needed.
fn version_shown(words: &Words<'_>) -> Result<Version, Fault> {
    let lacks_symbol = words.option("times").is_some()
        && words.option("symbols").is_some()
        && words.word(2).is_none();
    match version_in(own_word(words, 0), About::Word(0)) {
        Ok(Version::At { .. }) if lacks_symbol => {
            Err(Fault::usage(About::Nothing, "--symbols needs SYM"))
        }
        version => version,
    }
}

/// Reads the arguments of `stream`. Each participant's quotations can be printed as objects only, so text is refused for them.
fn streamed<'a>(words: &Words<'a>) -> Result<Request<'a>, Fault> {
    let boards = words.has("boards");
    if boards && !words.has("json") {
        return Err(Fault::usage(About::Nothing, "--boards needs --json"));
    }
    Ok(Request::Stream(Stream {
        changes: own_file(words, 0),
        symbol: own_symbol(words, 1),
        boards,
        times: given_file(words, "times"),
    }))
}

/// What `draw` is asked for.
fn drawn<'a>(words: &Words<'a>) -> Request<'a> {
    let symbol = Symbol {
        name: own_word(words, 1),
        about: About::Word(1),
    };
    Request::Draw(Draw {
        changes: own_file(words, 0),
        symbol,
        plan: given_file(words, "plan"),
        trades: given_file(words, "trades"),
        from: version_given(words, "from"),
        to: version_given(words, "to"),
        own: words.has("own"),
        bests: words.has("bests"),
        times: given_file(words, "times"),
        within: found_within(words, Some(symbol)),
    })
}

/// What `import` is asked for.
fn imported<'a>(alloc: Global, words: &Words<'a>) -> Result<Request<'a>, Fault> {
    let files = own_files(alloc, words, 1)?;
    if words.has("shards") && words.has("add-symbols") {
        let expected = "--shards adds symbols itself, and goes with no --add-symbols";
        return Err(Fault::usage(About::Nothing, expected));
    }
    Ok(Request::Import(Import {
        map: own_file(words, 0),
        files,
        out: words.option("out").unwrap_or(""),
        rows: words.has("rows"),
        shards: words.has("shards"),
        adds: words.has("add-symbols"),
        refused: given_file(words, "refused"),
        setup: words.option("setup"),
    }))
}

/// What `when` is asked for.
fn sought<'a>(alloc: Global, words: &Words<'a>) -> Result<Request<'a>, Fault> {
    let times = own_file(words, 0);
    match words.option("version") {
        Some(version) => match version_alone(words, version) {
            Ok(version) => Ok(Request::When(When {
                times,
                wanted: Wanted::Time(version),
            })),
            Err(fault) => Err(fault),
        },
        None => match versions_sought(alloc, words) {
            Ok(versions) => Ok(Request::When(When {
                times,
                wanted: Wanted::Versions(versions),
            })),
            Err(fault) => Err(fault),
        },
    }
}

/// Reads the version whose time `when` is to find. A time, `--before`, `--symbols` or `--symbol` is refused in such a call.
fn version_alone(words: &Words<'_>, version: &str) -> Result<u64, Fault> {
    if words.own.len() > 1
        || words.has("before")
        || words.option("symbols").is_some()
        || words.option("symbol").is_some()
    {
        return Err(Fault::usage(
            About::Nothing,
            "--version goes with no TIME, nor with --before, --symbols or --symbol",
        ));
    }
    number_in(version, About::Value("version"))
}

/// The times whose versions are asked for, at least one.
fn versions_sought<'a>(alloc: Global, words: &Words<'a>) -> Result<Versions<'a>, Fault> {
    if words.own.len() < 2 {
        return Err(Fault::usage(About::Nothing, "give a TIME, or --version"));
    }
    let mut times = Vec::new(alloc);
    for place in 1..words.own.len() {
        let Some(time) = TimeOfDay::parse(own_word(words, place).as_bytes()) else {
            return Err(no_time(About::Word(place)));
        };
        if times.push(time).is_err() {
            return Err(Fault::no_memory());
        }
    }
    let symbol = words.option("symbol").map(|name| Symbol {
        name,
        about: About::Value("symbol"),
    });
    if words.option("symbols").is_some() != symbol.is_some() {
        return Err(Fault::usage(About::Nothing, "--symbols and --symbol go together"));
    }
    Ok(Versions {
        times,
        before: words.has("before"),
        within: found_within(words, symbol),
    })
}

/// What `trades` is asked for.
fn judged<'a>(words: &Words<'a>) -> Request<'a> {
    Request::Trades(Trades {
        changes: own_file(words, 0),
        executions: own_file(words, 1),
        times: given_file(words, "times"),
        symbols: given_file(words, "symbols"),
        before: words.has("before"),
        window: window_given(words),
        layout: layout_given(words),
        html: given_file(words, "html"),
        bests: words.has("bests"),
    })
}

/// What `day` is asked for.
fn judged_day<'a>(alloc: Global, words: &Words<'a>) -> Result<Request<'a>, Fault> {
    Ok(Request::Day(DayOf {
        folders: own_files(alloc, words, 0)?,
        executions: needed_file(words, "trades"),
        out: words.option("out").unwrap_or(""),
        before: words.has("before"),
        window: window_in(words)?,
    }))
}

/// The layout that `trades` prints. At most one of `--columns`, `--table` and `--quality` may be given, and `--columns` excludes
/// `--json`.
fn layout_given(words: &Words<'_>) -> Result<Layout, Fault> {
    let columns = words.has("columns");
    if columns && words.has("json") {
        return Err(Fault::usage(About::Nothing, "--columns prints CSV, and takes no --json"));
    }
    match (columns, words.has("table"), words.has("quality")) {
        (false, false, false) => Ok(Layout::Lines),
        (true, false, false) => Ok(Layout::Columns),
        (false, true, false) => Ok(Layout::Table),
        (false, false, true) => Ok(Layout::Quality),
        (_, _, _) => Err(Fault::usage(
            About::Nothing,
            "--columns, --table and --quality exclude each other",
        )),
    }
}

/// The nanoseconds that `--window` gives in a call of `trades`. `--window`, `--before` and `--symbols` are refused without
/// `--times`.
fn window_given(words: &Words<'_>) -> Result<Option<u64>, Fault> {
    let window = words.option("window");
    let needs_times = window.is_some() || words.has("before") || words.option("symbols").is_some();
    if needs_times && words.option("times").is_none() {
        return Err(Fault::usage(
            About::Nothing,
            "--window, --before and --symbols need --times",
        ));
    }
    window_in(words)
}

/// The nanoseconds that `--window` gives.
fn window_in(words: &Words<'_>) -> Result<Option<u64>, Fault> {
    let Some(word) = words.option("window") else {
        return Ok(None);
    };
    match digits_in(word) {
        Some(nanoseconds) if nanoseconds <= LONGEST_WINDOW => Ok(Some(nanoseconds)),
        Some(_) | None => Err(Fault::usage(
            About::Nothing,
            "--window takes nanoseconds, at most 60000000000 (a minute)",
        )),
    }
}

/// The subcommand's own argument at a place, counted from 0. The parser makes sure that needed arguments are present.
fn own_word<'a>(words: &Words<'a>, place: usize) -> &'a str {
    words.word(place).unwrap_or("")
}

/// The file that the subcommand's own argument at a place names.
fn own_file<'a>(words: &Words<'a>, place: usize) -> Path<'a> {
    Path {
        name: own_word(words, place),
        about: About::Word(place),
    }
}

/// The files that the subcommand's own arguments name, from a place on.
fn own_files<'a>(alloc: Global, words: &Words<'a>, first: usize) -> Result<Vec<Path<'a>>, Fault> {
    let mut files = Vec::new(alloc);
    for place in first..words.own.len() {
        if files.push(own_file(words, place)).is_err() {
            return Err(Fault::no_memory());
        }
    }
    Ok(files)
}

/// The file that a needed option names. The parser makes sure that the option is given.
fn needed_file<'a>(words: &Words<'a>, option: &'static str) -> Path<'a> {
    Path {
        name: words.option(option).unwrap_or(""),
        about: About::Value(option),
    }
}

/// The file that an option names, if it was given.
fn given_file<'a>(words: &Words<'a>, option: &'static str) -> Option<Path<'a>> {
    Some(Path {
        name: words.option(option)?,
        about: About::Value(option),
    })
}

/// The symbol that the subcommand's own argument at a place names, if there is one.
fn own_symbol<'a>(words: &Words<'a>, place: usize) -> Option<Symbol<'a>> {
    Some(Symbol {
        name: words.word(place)?,
        about: About::Word(place),
    })
}

/// The symbol and the file of symbols that limit a search by time. Without both of them, the search has no such limit.
fn found_within<'a>(words: &Words<'a>, symbol: Option<Symbol<'a>>) -> Option<Within<'a>> {
    Some(Within {
        symbols: given_file(words, "symbols")?,
        symbol: symbol?,
    })
}

/// The version that an option names, if it was given.
fn version_given(words: &Words<'_>, option: &'static str) -> Result<Option<Version>, Fault> {
    let Some(word) = words.option(option) else {
        return Ok(None);
    };
    match version_in(word, About::Value(option)) {
        Ok(version) => Ok(Some(version)),
        Err(fault) => Err(fault),
    }
}

/// The version that an argument names.
fn version_in(word: &str, about: About) -> Result<Version, Fault> {
    let Some(time) = word.strip_prefix('@') else {
        return match number_in(word, about) {
            Ok(number) => Ok(Version::Number(number)),
            Err(fault) => Err(fault),
        };
    };
    match TimeOfDay::parse(time.as_bytes()) {
        Some(time) => Ok(Version::At { time, about }),
        None => Err(no_time(about)),
    }
}

/// The number of a version.
fn number_in(word: &str, about: About) -> Result<u64, Fault> {
    digits_in(word).ok_or(Fault::usage(about, "a version is a number, 0 or more"))
}

/// The fault of an argument that is no time.
fn no_time(about: About) -> Fault {
    Fault::usage(
        about,
        "a time is six digits HHMMSS, and up to nine after them",
    )
}

/// The number of a text that has only digits. `parse` would accept a plus before them too.
fn digits_in(word: &str) -> Option<u64> {
    if word.bytes().all(|byte| byte.is_ascii_digit()) {
        word.parse::<u64>().ok()
    } else {
        None
    }
}
