//! The command line as `clap` reads it.
ghost use Rattle.std.specs.Prelude.{◌≡◌, All, map, IfOk, false};
ghost use Rattle.clap.specs.Words.{app_of, rule_of};
ghost use Rattle.clap.specs.declared.builder.command.Command.TheViews.{out-Command as fields_of};
ghost use Rattle.nms_words.specs.CommandLine.{app_of_sub, subs, tool};
ghost use Rattle.nms_words.specs.WordTable.{rule_for};

use crate::help_text::{AFTER_HELP, VERSION};
use crate::option_word::OptionWord;
use crate::subcommand::{Sub, Word, WordKind};
use clap::{Arg, ArgAction, Command};
use std::alloc::{AllocError, Global};

const ABOUT: &str = "A consolidated quote board after Regulation NMS";

/// The complete command line.
pub(crate) fn tool_command<'a>(alloc: Global) -> Result<Command<'a>, AllocError>
    ensures { IfOk result (λ command. app_of command ≡ tool) }
{
    match sub_commands(alloc) {
        Ok(below) => with_subs(alloc, below),
        Err(fault) => Err(fault),
    }
}

// The command line with its subcommands.
fn with_subs<'a>(alloc: Global, below: Vec<Command<'a>>) -> Result<Command<'a>, AllocError>
    requires local { All (λ command. (fields_of command).has_globals ≡ false) below.items }
    requires apps { map app_of below.items ≡ map app_of_sub subs }
    ensures { IfOk result (λ command. app_of command ≡ tool) }
{
    Command::new(alloc, "nms_tool")
        .about(ABOUT)
        .version(VERSION)
        .after_help(AFTER_HELP)
        .no_binary_name(true)
        .disable_help_subcommand(true)
        .subcommands(below)?
        .bin_name("nms_tool")
}

// The subcommands.
fn sub_commands<'a>(alloc: Global) -> Result<Vec<Command<'a>>, AllocError>
    ensures local { IfOk result (λ below. All (λ command. (fields_of command).has_globals ≡ false) below.items) }
    ensures apps { IfOk result (λ below. map app_of below.items ≡ map app_of_sub subs) }
{
    let mut below = Vec::new(alloc);
    for sub in Sub::ALL {
        below.push(sub_command(alloc, sub)?)?;
    }
    Ok(below)
}

// A subcommand with its arguments.
fn sub_command<'a>(alloc: Global, sub: Sub) -> Result<Command<'a>, AllocError>
    ensures app { IfOk result (λ command. app_of command ≡ app_of_sub sub) }
    ensures local { IfOk result (λ command. (fields_of command).has_globals ≡ false) }
{
    let name: &'a str = sub.name();
    let about: &'a str = sub.about();
    let args = args_of(alloc, sub.words())?;
    Command::new(alloc, name).about(about).args(args)
}

// The arguments of a subcommand, in the form that the parser takes.
fn args_of<'a>(alloc: Global, words: &[Word]) -> Result<Vec<Arg<'a>>, AllocError>
    ensures rules { IfOk result (λ args. map rule_of args.items ≡ map rule_for words.now) }
    ensures local { IfOk result (λ args. All (λ arg. arg.global ≡ false) args.items) }
{
    let mut args = Vec::new(alloc);
    for word in words {
        args.push(arg_of(alloc, *word))?;
    }
    Ok(args)
}

// An argument as the parser takes it, with its explanation in the help.
fn arg_of<'a>(alloc: Global, word: Word) -> Arg<'a>
    ensures rule { rule_of result ≡ rule_for word }
    ensures local { result.global ≡ false }
{
    let arg = Arg::new(alloc, word.name).help(word.help);
    match word.kind {
        WordKind::Needed => arg.required(true),
        WordKind::Further => arg,
        WordKind::Option(OptionWord::Setup) => arg.long(word.name).value_name("FILE"),
        WordKind::Option(OptionWord::Manual) => arg.long(word.name).action(ArgAction::SetTrue),
        WordKind::Option(OptionWord::SelfHelp) => arg.long(word.name).value_name("NAMES"),
    }
}
