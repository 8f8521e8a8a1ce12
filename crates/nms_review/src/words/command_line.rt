//! The command line as `clap` reads it.
use super::help_text::{ABOUT, AFTER_HELP, VERSION};
use super::subcommand::{KINDS, Sub, Word, WordForm};
use clap::{Arg, ArgAction, Command};
use std::alloc::{AllocError, Global};

/// The complete command line.
pub(crate) fn review_command<'a>(alloc: Global) -> Result<Command<'a>, AllocError> {
    let mut command = top_command(alloc)?;
    for sub in Sub::ALL {
        command = with_sub(alloc, command, sub)?;
    }
    Ok(command)
}

/// The command line with one more subcommand.
fn with_sub<'a>(alloc: Global, command: Command<'a>, sub: Sub) -> Result<Command<'a>, AllocError> {
    match sub_command(alloc, sub) {
        Ok(inner) => command.subcommand(inner),
        Err(fault) => Err(fault),
    }
}

/// The command line without its subcommands.
fn top_command<'a>(alloc: Global) -> Result<Command<'a>, AllocError> {
    Command::new(alloc, "nms_review")
        .about(ABOUT)
        .version(VERSION)
        .after_help(AFTER_HELP)
        .no_binary_name(true)
        .disable_help_subcommand(true)
        .subcommand_required(true)
        .arg_required_else_help(true)
        .bin_name("nms_review")
}

/// A subcommand with its own arguments and its options.
fn sub_command<'a>(alloc: Global, sub: Sub) -> Result<Command<'a>, AllocError> {
    let name: &'a str = sub.name();
    let about: &'a str = sub.about();
    let mut command = Command::new(alloc, name).about(about);
    for word in sub.words() {
        command = command.arg(arg_of(alloc, *word))?;
    }
    Ok(command)
}

/// An argument or an option of a subcommand.
fn arg_of<'a>(alloc: Global, word: Word) -> Arg<'a> {
    let arg = Arg::new(alloc, word.name).help(word.help);
    match word.form {
        WordForm::Needed => arg.required(true),
        WordForm::OfKinds => arg.required(true).value_parser(KINDS.as_slice()),
        WordForm::Several => arg.required(true).num_args(1..),
        WordForm::Optional => arg,
        WordForm::AnyNumber => arg.num_args(1..),
        WordForm::Valued(value) => arg.long(word.name).value_name(value),
        WordForm::NeededValue(value) => arg.long(word.name).value_name(value).required(true),
        WordForm::Flag => arg.long(word.name).action(ArgAction::SetTrue),
    }
}
