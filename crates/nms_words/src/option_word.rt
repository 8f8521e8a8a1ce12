/// An option that a subcommand may take.
#[derive(Clone, Copy)]
pub(crate) enum OptionWord {
    /// `--setup FILE`: the file of the setup.
    Setup,
    /// `--manual`: manual quotations may be traded with too. The option has no value.
    Manual,
    /// `--self-help NAMES`: the participants against which self-help is declared (17 CFR 242.611(b)(1)).
    SelfHelp,
}
