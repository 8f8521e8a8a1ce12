//! Reading the arguments of the command line as a request.
ghost use Rattle.std.specs.Prelude.{◌≡◌, ◌==◌, ◌||◌, ◌∷◌, ◌++◌, OnOk, [], map, Some, None, IfOk, IfErr, MatchResult, option_map};
ghost use Rattle.std.specs.Char.{is_ascii_digit};
ghost use Rattle.std.specs.List.{list_all, list_any};
ghost use Rattle.std.specs.Str.{bytes_eq};
ghost use Rattle.std.specs.String.{string_bytes};
ghost use Rattle.clap.specs.Words.{first_of, found_of, kind_of, rows_of};
ghost use Rattle.nms_serve.specs.CommandLine.{Asked, IsAsked, IsClientsFault, IsFaultOf, IsFeedsFault, IsParserFault, IsRefusal, asks_for_help, faults_in, given_by, given_in, is_flagged, shown, shown_client, shown_feed};
ghost use Rattle.nms_serve.specs.Values.{client_in, client_of, clients_of, feed_of, feeds_of, has_twice, in_a_day, is_same_input, is_same_output, place_of, seconds_of, stale_of};

use super::command_line::serve_command;
use super::request::{ClientPaths, FeedPath, Request};
use super::words_fault::WordsFault;
use clap::error::ErrorKind;
use clap::{ArgMatches, Error};
use std::alloc::{AllocError, Global};

/// The most seconds of `--stale`: a day. This product's own rule.
const MOST_SECONDS: u32 = 86_400;

/// Reads the arguments that follow the program's name.
///
/// `Parser` has the parser's text: a fault, or the help or the version that was asked for. The other faults are those that the
/// parser does not see. `NoMemory` may replace any answer.
pub fn read_words<'a>(alloc: Global, words: &'a [&'a str]) -> Result<Request, WordsFault>
    ensures read { IfOk result (λ request. IsAsked (given_by (map (λ word. word.now) words.entry.now)) (shown request)) }
    ensures accepted { IfOk result (λ _. faults_in (map (λ word. word.now) words.entry.now) ≡ []) }
    ensures refused { IfErr result (IsRefusal (map (λ word. word.now) words.entry.now)) }
    ensures answered { (asked : Asked) → faults_in (map (λ word. word.now) words.entry.now) ≡ []
        → IsAsked (given_by (map (λ word. word.now) words.entry.now)) asked
        → MatchResult result (λ request. shown request ≡ asked) (λ fault. fault ≡ WordsFault.NoMemory) }
{
    match serve_command(alloc) {
        Ok(command) => match command.try_get_matches_from(words) {
            Ok(matches) => request_in(alloc, &matches),
            Err(error) => Err(fault_of(alloc, &error)),
        },
        Err(_) => Err(WordsFault::NoMemory),
    }
}

/// The parser's text, or that it was out of memory.
fn fault_of(alloc: Global, error: &Error) -> WordsFault
    ensures memory { kind_of error.now ≡ ErrorKind.OutOfMemory → result ≡ WordsFault.NoMemory }
    ensures refused { IsParserFault (kind_of error.now ∷ []) result }
{
    let kind = error.kind();
    if kind == ErrorKind::OutOfMemory {
        return WordsFault::NoMemory;
    }
    match format!(in alloc; "{error}") {
        Ok(text) => WordsFault::Parser {
            text,
            help: is_help(kind),
        },
        Err(_) => WordsFault::NoMemory,
    }
}

/// Whether the arguments ask for help, or for the version.
fn is_help(kind: ErrorKind) -> bool
    ensures { result ≡ asks_for_help kind }
{
    matches!(kind, ErrorKind::DisplayHelp | ErrorKind::DisplayVersion)
}

/// The request that the parsed arguments make.
fn request_in(alloc: Global, matches: &ArgMatches<'_>) -> Result<Request, WordsFault>
    ensures read { IfOk result (λ request. IsAsked (given_in (rows_of (found_of matches.now))) (shown request)) }
    ensures refused { IfErr result (IsFaultOf (given_in (rows_of (found_of matches.now)))) }
{
    let feeds = feeds_in(alloc, matches.get_strs("feed").unwrap_or(&[]))?;
    let clients = clients_in(alloc, matches.get_strs("client").unwrap_or(&[]))?;
    let tape = first_value(matches, "tape").unwrap_or("");
    if shares_path(&clients, tape) {
        return Err(WordsFault::PathTwice);
    }
    let Some(stale) = stale_of(first_value(matches, "stale")) else {
        return Err(WordsFault::StaleForm);
    };
    Ok(Request {
        setup: value_text(alloc, matches, "setup")?,
        feeds,
        clients,
        tape: String::from_str(alloc, tape)?,
        strict: is_flagged(matches, "strict"),
        keep: is_flagged(matches, "keep"),
        wait: is_flagged(matches, "wait"),
        stale,
        resume: is_flagged(matches, "resume"),
        check: is_flagged(matches, "check"),
        status: value_text(alloc, matches, "status")?,
        ready: value_text(alloc, matches, "ready")?,
        log_time: is_flagged(matches, "log-time"),
        times: value_text(alloc, matches, "times")?,
        recorded: value_text(alloc, matches, "record")?,
        sync: value_text(alloc, matches, "sync")?,
    })
}

/// The first value of an option, if it has one.
fn first_value<'a>(matches: &ArgMatches<'a>, name: &str) -> Option<&'a str>
    ensures { option_map (λ value. value.now) result ≡ first_of name.now (rows_of (found_of matches.now)) }
{
    matches.get_str(name)
}

/// Whether a flag was given. The parser gives a flag the text `true` or `false`.
fn is_flagged(matches: &ArgMatches<'_>, name: &str) -> bool
    ensures { result ≡ is_flagged (rows_of (found_of matches.now)) name.now }
{
    first_value(matches, name).is_some_and(|value| value == "true")
}

/// The text of an option's value, if it has one.
fn value_text(
    alloc: Global,
    matches: &ArgMatches<'_>,
    name: &str,
) -> Result<Option<String>, AllocError>
    ensures { IfOk result (λ text. option_map string_bytes text ≡ first_of name.now (rows_of (found_of matches.now))) }
{
    match first_value(matches, name) {
        Some(value) => Ok(Some(String::from_str(alloc, value)?)),
        None => Ok(None),
    }
}

/// The seconds of `--stale`, if its value is right; none if it was not given.
fn stale_of(value: Option<&str>) -> Option<Option<u32>>
    ensures { result ≡ stale_of (option_map (λ value. value.now) value.entry) }
{
    match value {
        Some(value) => Some(Some(seconds_of(value)?)),
        None => Some(None),
    }
}

/// The seconds of a value of `--stale`: only digits, a number from 1 to 86,400.
fn seconds_of(value: &str) -> Option<u32>
    ensures { result ≡ seconds_of value.now }
{
    if !are_digits(value.as_bytes()) {
        return None;
    }
    match value.parse::<u32>() {
        Ok(seconds) => if_in_a_day(seconds),
        Err(_) => None,
    }
}

/// The seconds, if they are 1 or more and at most those of a day.
fn if_in_a_day(seconds: u32) -> Option<u32>
    ensures { result ≡ in_a_day seconds }
{
    if 1 <= seconds && seconds <= MOST_SECONDS {
        return Some(seconds);
    }
    None
}

/// Whether all bytes are digits.
fn are_digits(text: &[u8]) -> bool
    ensures { result ≡ list_all is_ascii_digit text.now }
{
    text.iter().all(|byte| byte.is_ascii_digit())
}

/// The feeds of the values of `--feed`. No letter may be there twice.
fn feeds_in(alloc: Global, values: &[&str]) -> Result<Vec<FeedPath>, WordsFault>
    ensures read { IfOk result (λ feeds. feeds_of (map (λ value. value.now) values.now) ≡ Some (map shown_feed feeds.items)) }
    ensures refused { IfErr result (IsFeedsFault (map (λ value. value.now) values.now)) }
{
    let mut feeds = Vec::new(alloc);
    for value in values {
        let Some(feed) = feed_of(alloc, *value)? else {
            return Err(WordsFault::FeedForm);
        };
        if has_place(&feeds, feed.place) {
            return Err(WordsFault::FeedTwice);
        }
        add(&mut feeds, feed)?;
    }
    Ok(feeds)
}

/// Whether one of the feeds already has the given place, which is 0 for `A` to 7 for `H`.
fn has_place(feeds: &[FeedPath], place: u8) -> bool
    ensures { result ≡ list_any (λ feed. feed.place == place) feeds.now }
{
    feeds.iter().any(|feed| feed.place == place)
}

/// The feed of a value of `--feed`, if it is one.
fn feed_of(alloc: Global, value: &str) -> Result<Option<FeedPath>, AllocError>
    ensures { IfOk result (λ feed. option_map shown_feed feed ≡ feed_of value.now) }
{
    let Some((letter, path)) = value.split_once('=') else {
        return Ok(None);
    };
    let Some(place) = place_of(letter) else {
        return Ok(None);
    };
    if path.is_empty() {
        return Ok(None);
    }
    Ok(Some(FeedPath {
        place,
        path: String::from_str(alloc, path)?,
    }))
}

/// The place of the feed that a letter names.
fn place_of(letter: &str) -> Option<u8>
    ensures { result ≡ place_of letter.now }
{
    let bytes = letter.as_bytes();
    match bytes {
        [byte @ b'A'..=b'H'] => Some(*byte - b'A'),
        _ => None,
    }
}

/// The clients of the values of `--client`.
fn clients_in(alloc: Global, values: &[&str]) -> Result<Vec<ClientPaths>, WordsFault>
    ensures read { IfOk result (λ clients. clients_of (map (λ value. value.now) values.now) ≡ Some (map shown_client clients.items)) }
    ensures refused { IfErr result (IsClientsFault (map (λ value. value.now) values.now)) }
{
    let mut clients = Vec::new(alloc);
    for value in values {
        let Some(client) = client_of(alloc, *value)? else {
            return Err(WordsFault::ClientForm);
        };
        add(&mut clients, client)?;
    }
    Ok(clients)
}

/// The client of a value of `--client`, if it is one.
fn client_of(alloc: Global, value: &str) -> Result<Option<ClientPaths>, AllocError>
    ensures { IfOk result (λ client. option_map shown_client client ≡ client_of value.now) }
{
    let Some((input, output)) = value.split_once(',') else {
        return Ok(None);
    };
    if output.contains(',') {
        return Ok(None);
    }
    client_in(alloc, input, output)
}

/// The client of two paths, if neither is empty.
fn client_in(alloc: Global, input: &str, output: &str) -> Result<Option<ClientPaths>, AllocError>
    ensures { IfOk result (λ client. option_map shown_client client ≡ client_in (input.now ∷ output.now ∷ [])) }
{
    if input.is_empty() || output.is_empty() {
        return Ok(None);
    }
    Ok(Some(ClientPaths {
        input: String::from_str(alloc, input)?,
        output: String::from_str(alloc, output)?,
    }))
}

/// Whether two clients have the same input, or one path is written to twice.
fn shares_path(clients: &[ClientPaths], tape: &str) -> bool
    ensures { result ≡ (has_twice (λ one other. is_same_input (shown_client one) (shown_client other)) clients.now
        || (has_twice (λ one other. is_same_output (shown_client one) (shown_client other)) clients.now
        || list_any (λ client. bytes_eq tape.now (string_bytes client.output)) clients.now)) }
{
    has_input_twice(clients) || has_output_twice(clients) || has_output(clients, tape)
}

/// Whether two clients have the same input.
fn has_input_twice(clients: &[ClientPaths]) -> bool
    ensures { result ≡ has_twice (λ one other. is_same_input (shown_client one) (shown_client other)) clients.now }
{
    let mut rest = clients;
    while let Some((client, more)) = rest.split_first() {
        if has_input(more, client.input.as_str()) {
            return true;
        }
        rest = more;
    }
    false
}

/// Whether two clients have the same output.
fn has_output_twice(clients: &[ClientPaths]) -> bool
    ensures { result ≡ has_twice (λ one other. is_same_output (shown_client one) (shown_client other)) clients.now }
{
    let mut rest = clients;
    while let Some((client, more)) = rest.split_first() {
        if has_output(more, client.output.as_str()) {
            return true;
        }
        rest = more;
    }
    false
}

/// Whether one of the clients has the input.
fn has_input(clients: &[ClientPaths], path: &str) -> bool
    ensures { result ≡ list_any (λ client. bytes_eq path.now (string_bytes client.input)) clients.now }
{
    clients.iter().any(|client| path == client.input.as_str())
}

/// Whether one of the clients has the output.
fn has_output(clients: &[ClientPaths], path: &str) -> bool
    ensures { result ≡ list_any (λ client. bytes_eq path.now (string_bytes client.output)) clients.now }
{
    clients.iter().any(|client| path == client.output.as_str())
}

/// Appends an item.
fn add<T: Drop>(items: &mut Vec<T>, item: T) -> Result<(), AllocError>
    ensures { OnOk result (items.new.items ≡ items.old.items ++ item ∷ []) }
{
    match items.push(item) {
        Ok(()) => Ok(()),
        Err(error) => Err(AllocError::from(error)),
    }
}
