//! Reading the arguments of the command line.
use super::command_line::review_command;
use super::given::Words;
use super::subcommand::{Sub, WordForm};
use super::words_fault::WordsFault;
use clap::error::ErrorKind;
use clap::{ArgMatches, Error};
use std::alloc::{AllocError, Global};

/// The tip that follows the parser's text if an option comes before its subcommand.
const OPTION_TIP: &str = "
tip: give options after the subcommand: nms_review stream CHANGES --setup FILE
";

/// Reads the arguments that follow the program's name: a subcommand, its own arguments and its options.
///
/// `Parser` has the parser's text: a fault, or the help or the version that was asked for. `NoMemory` may replace any answer.
pub(crate) fn read_words<'a>(alloc: Global, words: &'a [&'a str]) -> Result<Words<'a>, WordsFault> {
    match review_command(alloc)?.try_get_matches_from(words) {
        Ok(matches) => Ok(words_in(alloc, &matches)?),
        Err(error) => Err(fault_of(alloc, words, &error)),
    }
}

/// The parser's text, or that it was out of memory.
fn fault_of(alloc: Global, words: &[&str], error: &Error) -> WordsFault {
    let kind = error.kind();
    if kind == ErrorKind::OutOfMemory {
        return WordsFault::NoMemory;
    }
    match text_of(alloc, words, error) {
        Ok(text) => WordsFault::Parser {
            text,
            help: matches!(kind, ErrorKind::DisplayHelp | ErrorKind::DisplayVersion),
        },
        Err(_) => WordsFault::NoMemory,
    }
}

/// The parser's text, with a tip for an option that comes before its subcommand.
fn text_of(alloc: Global, words: &[&str], error: &Error) -> Result<String, AllocError> {
    match words.first() {
        Some(word) if is_option(*word) => format!(in alloc; "{error}{OPTION_TIP}"),
        _ => format!(in alloc; "{error}"),
    }
}

/// Whether an argument is an option of a subcommand.
fn is_option(word: &str) -> bool {
    word == "--json" || word == "--setup" || word.starts_with("--setup=")
}

/// The arguments that the matches hold. The parser takes none without a subcommand.
fn words_in<'a>(alloc: Global, matches: &ArgMatches<'a>) -> Result<Words<'a>, AllocError> {
    let Some((name, inner)) = matches.subcommand() else {
        return Err(AllocError);
    };
    let Some(command) = Sub::named(name) else {
        return Err(AllocError);
    };
    let mut words = Words {
        command,
        own: Vec::new(alloc),
        options: Vec::new(alloc),
    };
    for word in command.words() {
        if is_option_form(word.form) {
            if let Some(value) = inner.get_str(word.name) {
                words.options.push((word.name, value))?;
            }
        } else if let Some(values) = inner.get_strs(word.name) {
            for value in values {
                words.own.push(*value)?;
            }
        }
    }
    Ok(words)
}

/// Whether an argument of this form is an option, and not one of the subcommand's own arguments.
fn is_option_form(form: WordForm) -> bool {
    match form {
        WordForm::Needed
        | WordForm::OfKinds
        | WordForm::Several
        | WordForm::Optional
        | WordForm::AnyNumber => false,
        WordForm::Valued(_) | WordForm::NeededValue(_) | WordForm::Flag => true,
    }
}
