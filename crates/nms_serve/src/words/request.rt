//! The request that the arguments of the command line make.

/// The request that the arguments of the command line make.
#[derive(Drop)]
pub struct Request {
    /// The file that `--setup` names.
    pub setup: Option<String>,
    /// The feeds with their paths, as they were given. Each letter is there at most once.
    pub feeds: Vec<FeedPath>,
    /// The clients with their paths, as they were given; none for standard input and output. No path is given to two
    /// clients.
    pub clients: Vec<ClientPaths>,
    /// The file that `--tape` names.
    pub tape: String,
    /// Whether a refused record of a feed ends the run.
    pub strict: bool,
    /// Whether FIFOs of feeds and clients are read on after their other ends left.
    pub keep: bool,
    /// Whether requests are held until each feed has sent a change or ended.
    pub wait: bool,
    /// The seconds that `--stale` names, from 1 to 86,400.
    pub stale: Option<u32>,
    /// Whether the run goes on with the tape of an earlier one.
    pub resume: bool,
    /// Whether the call is only tested.
    pub check: bool,
    /// The file that `--status` names.
    pub status: Option<String>,
    /// The file that `--ready` names.
    pub ready: Option<String>,
    /// Whether each line on standard error has its time.
    pub log_time: bool,
    /// The zone that `--times` names, as it was written.
    pub times: Option<String>,
    /// The file that `--record` names.
    pub recorded: Option<String>,
    /// The value of `--sync`, as it was written.
    pub sync: Option<String>,
}

/// A feed's stream.
#[derive(Drop)]
pub struct FeedPath {
    /// The feed's place: 0 for `A` to 7 for `H`.
    pub place: u8,
    /// The path from which the feed is read.
    pub path: String,
}

/// A client's streams.
#[derive(Drop)]
pub struct ClientPaths {
    /// The path from which requests are read.
    pub input: String,
    /// The path to which answers are written.
    pub output: String,
}
