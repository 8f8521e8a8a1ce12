//! The command line as `clap` reads it.
ghost use Rattle.std.specs.Prelude.{◌≡◌, fold, map, IfOk, false};
ghost use Rattle.clap.specs.Words.{app_of, rule_of, with_rule};
ghost use Rattle.nms_serve.specs.CommandLine.{serve, without_options};
ghost use Rattle.nms_serve.specs.Options.{option_rule};

use super::help_text::{ABOUT, AFTER_HELP, VERSION};
use super::option_word::{OPTIONS, OptionWord};
use clap::{Arg, Command};
use std::alloc::{AllocError, Global};

/// The complete command line.
pub(crate) fn serve_command<'a>(alloc: Global) -> Result<Command<'a>, AllocError>
    ensures { IfOk result (λ command. app_of command ≡ serve) }
{
    match bare_command(alloc) {
        Ok(command) => with_options(alloc, command, OPTIONS.as_slice()),
        Err(error) => Err(error),
    }
}

/// A command that takes these options in addition.
fn with_options<'a>(
    alloc: Global,
    command: Command<'a>,
    options: &[OptionWord],
) -> Result<Command<'a>, AllocError>
    ensures { IfOk result (λ more. app_of more ≡ fold with_rule (app_of command.entry) (map option_rule options.now)) }
{
    let mut command = command;
    for option in options {
        command = command.arg(option_arg(alloc, option))?;
    }
    Ok(command)
}

/// The command line without its options.
fn bare_command<'a>(alloc: Global) -> Result<Command<'a>, AllocError>
    ensures { IfOk result (λ command. app_of command ≡ without_options) }
{
    Command::new(alloc, "nms_serve")
        .about(ABOUT)
        .version(VERSION)
        .after_help(AFTER_HELP)
        .no_binary_name(true)
        .arg_required_else_help(true)
        .bin_name("nms_serve")
}

/// An option with its explanation in the help.
fn option_arg<'a>(alloc: Global, option: &OptionWord) -> Arg<'a>
    ensures rule { rule_of result ≡ option_rule option.now }
    ensures local { result.global ≡ false }
{
    let arg = Arg::new(alloc, option.name)
        .long(option.name)
        .value_names(option.values)
        .required(option.required)
        .help(option.help);
    match option.action {
        Some(action) => arg.action(action),
        None => arg,
    }
}
