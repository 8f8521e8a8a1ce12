use crate::subcommand::Sub;

/// What the arguments of the command line ask for.
#[derive(Drop)]
pub struct Request {
    /// The subcommand that is asked for.
    pub command: Sub,
    /// The subcommand's own arguments, in order.
    pub words: Vec<String>,
    /// The file that `--setup` names.
    pub setup: Option<String>,
    /// Whether `--manual` was given.
    pub manual: bool,
    /// The names that `--self-help` gives, as they were written.
    pub self_help: Option<String>,
}
