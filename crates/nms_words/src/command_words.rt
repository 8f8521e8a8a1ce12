//! Reading the arguments of the command line as a request.
ghost use Rattle.std.specs.Prelude.{◌≡◌, map, true, is_some, option_map, Some, IfOk, IfErr, OnOk, MatchResult, vec_len, [], ◌∷◌, ◌++◌};
ghost use Rattle.std.specs.String.{string_bytes};
ghost use Rattle.clap.specs.Words.{first_of, found_of, kind_of, rows_of, subcommand_rows_of, takes};
ghost use Rattle.nms_words.specs.CommandLine.{AreCounted, Asked, IsRefusal, asked_by, asked_in, asked_of, asks_for_help, faults_in, is_flagged, script_alone, shown, tool};
ghost use Rattle.nms_words.specs.PlainCall.{IsPlainCall};
ghost use Rattle.nms_words.specs.WordTable.{own_value};
ghost use Rattle.std.specs.List.{filter_map};

use crate::command_line::tool_command;
use crate::request::Request;
use crate::shown::Shown;
use crate::subcommand::{Sub, Word, WordKind};
use crate::words_fault::WordsFault;
use clap::error::ErrorKind;
use clap::{ArgMatches, Error};
use std::alloc::{AllocError, Global};

const SETUP_TIP: &str = "
tip: give --setup after the subcommand: nms_tool script --setup FILE
";

/// Reads the arguments that follow the program's name: a subcommand, its own arguments and its options.
///
/// Without arguments, the script is asked for, with no setup. Arguments in which the parser finds no fault give a request.
/// Otherwise the answer is `Parser`, with one of the faults that it finds, or with the help or the version that was asked for.
/// `NoMemory` may replace any answer.
pub fn read_words<'a>(alloc: Global, words: &'a [&'a str]) -> Result<Request, WordsFault>
    ensures read { IfOk result (λ request. asked_by (map (λ word. word.now) words.entry.now) ≡ Some (shown request)) }
    ensures accepted { IfOk result (λ _. faults_in (map (λ word. word.now) words.entry.now) ≡ []) }
    ensures refused { IfErr result (IsRefusal (faults_in (map (λ word. word.now) words.entry.now))) }
    ensures counted { IfOk result (λ request. AreCounted request.command (vec_len request.words)) }
    ensures no_words { words.entry.now ≡ [] → MatchResult result (λ request. shown request ≡ script_alone) (λ fault. fault ≡ WordsFault.NoMemory) }
    ensures plain { (asked : Asked) → IsPlainCall (map (λ word. word.now) words.entry.now) asked
        → MatchResult result (λ request. shown request ≡ asked) (λ fault. fault ≡ WordsFault.NoMemory) }
{
    parse_words(alloc, words)
}

// Lets the parser read the arguments, and makes a request of what it finds.
fn parse_words<'a>(alloc: Global, words: &'a [&'a str]) -> Result<Request, WordsFault>
    ensures read { IfOk result (λ request. asked_by (map (λ word. word.now) words.entry.now) ≡ Some (shown request)) }
    ensures accepted { IfOk result (λ _. faults_in (map (λ word. word.now) words.entry.now) ≡ []) }
    ensures refused { IfErr result (IsRefusal (faults_in (map (λ word. word.now) words.entry.now))) }
    ensures taken { takes tool (map (λ word. word.now) words.entry.now) ≡ true → IfErr result (λ fault. fault ≡ WordsFault.NoMemory) }
{
    match tool_command(alloc)?.try_get_matches_from(words) {
        Ok(matches) => Ok(request_in(alloc, &matches)?),
        Err(error) => Err(fault_of(alloc, words, &error)),
    }
}

// Turns a fault of the parser into the parser's text, or into a lack of memory.
fn fault_of(alloc: Global, words: &[&str], error: &Error) -> WordsFault
    ensures memory { kind_of error.now ≡ ErrorKind.OutOfMemory → result ≡ WordsFault.NoMemory }
    ensures refused { IsRefusal (kind_of error.now ∷ []) result }
{
    let kind = error.kind();
    if kind == ErrorKind::OutOfMemory {
        return WordsFault::NoMemory;
    }
    match text_of(alloc, words, error) {
        Ok(text) => WordsFault::Parser {
            text,
            help: is_help(kind),
        },
        Err(_) => WordsFault::NoMemory,
    }
}

// The parser's text with escapes. A tip follows if `--setup` comes before the subcommand.
fn text_of(alloc: Global, words: &[&str], error: &Error) -> Result<String, AllocError> {
    let text = format!(in alloc; "{error}")?;
    let shown = Shown(text.as_str());
    let tip = match words.first() {
        Some(word) if is_setup_option(word) => SETUP_TIP,
        Some(_) | None => "",
    };
    format!(in alloc; "{shown}{tip}")
}

// Whether the argument is `--setup` or `--setup=FILE`.
fn is_setup_option(word: &str) -> bool {
    word == "--setup" || word.starts_with("--setup=")
}

// Whether the arguments ask for help, or for the version.
fn is_help(kind: ErrorKind) -> bool
    ensures { result ≡ asks_for_help kind }
{
    matches!(kind, ErrorKind::DisplayHelp | ErrorKind::DisplayVersion)
}

// Makes a request of the arguments that the parser has found. Without a subcommand the script is asked for.
fn request_in(alloc: Global, matches: &ArgMatches<'_>) -> Result<Request, AllocError>
    requires { is_some (asked_of (subcommand_rows_of matches.now)) ≡ true }
    ensures { IfOk result (λ request. asked_of (subcommand_rows_of matches.now) ≡ Some (shown request)) }
{
    let Some((name, inner)) = matches.subcommand() else {
        return Ok(Request {
            command: Sub::Script,
            words: Vec::new(alloc),
            setup: None,
            manual: false,
            self_help: None,
        });
    };
    match Sub::named(name) {
        Some(command) => request_of(alloc, command, inner),
        None => unreachable!(),
    }
}

// Makes a request of the arguments that the parser has found for a subcommand. The parser makes sure that needed ones are
// present.
fn request_of(alloc: Global, command: Sub, matches: &ArgMatches<'_>) -> Result<Request, AllocError>
    requires { is_some (asked_in (rows_of (found_of matches.now)) command) ≡ true }
    ensures { IfOk result (λ request. Some (shown request) ≡ asked_in (rows_of (found_of matches.now)) command) }
{
    let words = own_values(alloc, command.words(), matches)?;
    let setup = value_text(alloc, matches, "setup")?;
    let self_help = value_text(alloc, matches, "self-help")?;
    Ok(Request {
        command,
        words,
        setup,
        manual: is_flagged(matches),
        self_help,
    })
}

// The values of the subcommand's own arguments, in order. Options are not among them.
fn own_values(
    alloc: Global,
    words: &[Word],
    matches: &ArgMatches<'_>,
) -> Result<Vec<String>, AllocError>
    ensures { IfOk result (λ values. map string_bytes values.items ≡ filter_map (own_value (rows_of (found_of matches.now))) words.now) }
{
    let mut values = Vec::new(alloc);
    for word in words {
        if let Some(value) = own_value(matches, word) {
            values.push(String::from_str(alloc, value)?)?;
        }
    }
    Ok(values)
}

// The value of one of the subcommand's own arguments, if it was given. An option has none here.
fn own_value<'a>(matches: &ArgMatches<'a>, word: &Word) -> Option<&'a str>
    ensures { option_map (λ value. value.now) result ≡ own_value (rows_of (found_of matches.now)) word.now }
{
    match word.kind {
        WordKind::Needed | WordKind::Further => first_value(matches, word.name),
        WordKind::Option(_) => None,
    }
}

// The value of the option with the given name, as a new text, if it was given.
fn value_text(
    alloc: Global,
    matches: &ArgMatches<'_>,
    name: &str,
) -> Result<Option<String>, AllocError>
    ensures { IfOk result (λ text. option_map string_bytes text ≡ first_of name.now (rows_of (found_of matches.now))) }
{
    match first_value(matches, name) {
        Some(value) => Ok(Some(String::from_str(alloc, value)?)),
        None => Ok(None),
    }
}

// The first value that the parser has found for the argument with the given name.
fn first_value<'a>(matches: &ArgMatches<'a>, name: &str) -> Option<&'a str>
    ensures { option_map (λ value. value.now) result ≡ first_of name.now (rows_of (found_of matches.now)) }
{
    matches.get_str(name)
}

// Whether `--manual` was given. The parser gives this option the text `true` or `false`.
fn is_flagged(matches: &ArgMatches<'_>) -> bool
    ensures { result ≡ is_flagged (rows_of (found_of matches.now)) }
{
    first_value(matches, "manual").is_some_and(|value| value == "true")
}
