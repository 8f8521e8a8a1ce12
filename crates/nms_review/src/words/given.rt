//! The arguments of a call.
use super::subcommand::Sub;

/// The arguments of a call: its subcommand, the subcommand's own arguments, and its options.
#[derive(Drop)]
pub(crate) struct Words<'a> {
    /// The subcommand.
    pub(crate) command: Sub,
    /// The subcommand's own arguments, in order.
    pub(crate) own: Vec<&'a str>,
    /// The options that have a value, each with its name. The value of a flag is `true` or `false`.
    pub(crate) options: Vec<(&'static str, &'a str)>,
}

impl<'a> Words<'a> {
    /// The subcommand's own argument at a place, counted from 0, if it has one there.
    pub(crate) fn word(&self, place: usize) -> Option<&'a str> {
        self.own.get(place).copied()
    }

    /// The value of the option with that name, if it was given.
    pub(crate) fn option(&self, name: &str) -> Option<&'a str> {
        for option in &self.options {
            if option.0 == name {
                return Some(option.1);
            }
        }
        None
    }

    /// Whether the flag with that name was given.
    pub(crate) fn has(&self, name: &str) -> bool {
        self.option(name) == Some("true")
    }
}
