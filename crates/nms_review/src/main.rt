//! The reviewer's program, which explains to people what the quote board refused, answered and planned.
#![tactic(auto)]

mod adding;
mod answers;
mod call;
mod comparing;
mod cutting;
mod day;
mod drawing;
mod explaining;
mod fault;
mod files;
mod importing;
mod importing_trades;
mod notices;
mod outputs;
mod paging;
mod progress;
mod refused_rows;
mod request;
mod screen;
mod serving;
mod shards;
mod source;
mod tape;
mod telling;
mod timing;
mod trading;
mod vendor;
mod words;

use crate::words::{Words, WordsFault, read_words};
use answers::Answers;
use call::Host;
use fault::Fault;
use nms_codes::Code;
use nms_show::{Ending, Form, Item, open_closed_streams, write_line};
use screen::Screen;
use serving::serve;
use std::alloc::Global;
use std::io::{ErrorKind, IsTerminal, Write};
use std::process::ExitCode;
use std::rt::Env;
use std::{env, io};
pub use tape::{taken_by_script, write_tape};
use telling::tell_fault;

fn main(rt: HostRuntime) -> ExitCode {
    if open_closed_streams(&rt).is_err() {
        return ExitCode::from(tell_early(
            &mut rt.stderr(),
            Code::E1,
            "/dev/null could not be opened",
        ));
    }
    let is_dumb = is_dumb(&rt);
    let screen = Screen {
        answers: rt.stdout().is_terminal() && !is_dumb && !wants_no_colours(&rt),
        errors: rt.stderr().is_terminal() && !is_dumb,
    };
    ExitCode::from(answer_words(&rt, screen, &mut rt.stderr()))
}

/// Whether `NO_COLOR` has a text, which means that the user wants no colours.
fn wants_no_colours<T: Host + Env>(rt: &T) -> bool {
    match env::var(rt, "NO_COLOR") {
        Ok(text) => !text.is_empty(),
        Err(_) => false,
    }
}

/// Whether the environment says that the terminal cannot show colours.
fn is_dumb<T: Host + Env>(rt: &T) -> bool {
    match env::var(rt, "TERM") {
        Ok(name) => name.as_str() == "dumb",
        Err(_) => false,
    }
}

/// Serves the arguments of the process, and gives the exit status.
fn answer_words<T: Host + Env + Print, E: Write>(rt: &T, screen: Screen, errors: &mut E) -> u8 {
    let own = match own_words(rt) {
        Ok(own) => own,
        Err(ErrorKind::OutOfMemory) => return tell_code(errors, Code::G2),
        Err(_) => return tell_early(errors, Code::Usage, "a word of the call is not UTF-8"),
    };
    match words_of(rt.alloc(), &own) {
        Some(words) => answer(rt, screen, &words, errors),
        None => tell_code(errors, Code::G2),
    }
}

/// Serves the given arguments, and gives the exit status.
fn answer<T: Host + Print, E: Write>(rt: &T, screen: Screen, words: &[&str], errors: &mut E) -> u8 {
    match read_words(rt.alloc(), words) {
        Ok(words) => match serve_whole(rt, screen, &words) {
            Ok(ending) => ending.status(),
            Err(fault) => tell_fault(&fault, &words, errors),
        },
        Err(WordsFault::Parser { text, help: true }) => tell_help(rt, text.as_str(), errors),
        Err(WordsFault::Parser { text, help: false }) => tell_refusal(errors, text.as_str()),
        Err(WordsFault::NoMemory) => tell_code(errors, Code::G2),
    }
}

/// Serves what the arguments ask for, and writes out all answers, even if the serving failed.
fn serve_whole<T: Host + Print>(
    rt: &T,
    screen: Screen,
    words: &Words<'_>,
) -> Result<Ending, Fault> {
    let both = screen.answers && screen.errors;
    let Ok(mut answers) = Answers::new(rt.alloc(), io::writer(rt), both) else {
        return Err(Fault::no_memory());
    };
    let served = serve(rt, screen, words, &mut answers);
    match answers.flush() {
        Ok(()) => served,
        Err(_) => served.and(Err(Fault::of(Code::E2, fault::About::Nothing))),
    }
}

/// Writes the help, or the version, to standard output.
fn tell_help<T: Print, E: Write>(rt: &T, help: &str, errors: &mut E) -> u8 {
    match io::writer(rt).write_all(help.as_bytes()) {
        Ok(()) => 0,
        Err(_) => tell_code(errors, Code::E2),
    }
}

/// Prints on standard error why the parser refuses the arguments, and returns the exit status. Control characters are escaped,
/// because the text quotes arguments of the call.
fn tell_refusal<E: Write>(errors: &mut E, text: &str) -> u8 {
    let bytes = text.as_bytes();
    let lines = bytes.strip_suffix(b"\n").unwrap_or(bytes);
    for line in lines.split(|byte| *byte == b'\n') {
        let items = [Item::Bytes(line)];
        if write_line(errors, Form::Text { colours: false }, &items).is_err() {
            break;
        }
    }
    2
}

/// Prints a code with its sentence on standard error, and gives the status.
fn tell_code<E: Write>(errors: &mut E, code: Code) -> u8 {
    tell_early(errors, code, code.sentence())
}

/// Prints a code and another sentence on standard error, and returns the exit status of the code. A failure to print does not
/// change it.
fn tell_early<E: Write>(errors: &mut E, code: Code, sentence: &str) -> u8 {
    let items = [
        Item::Text("nms_review: "),
        Item::Text(code.text()),
        Item::Text(": "),
        Item::Text(sentence),
    ];
    let _ = write_line(errors, Form::Text { colours: false }, &items);
    code.status()
}

/// The arguments as borrowed texts; `None` if out of memory.
fn words_of<'a>(alloc: Global, own: &'a [String]) -> Option<Vec<&'a str>> {
    let mut words = Vec::new(alloc);
    for word in own {
        words.push(word.as_str()).ok()?;
    }
    Some(words)
}

/// The arguments after the program's name, or why there are none.
fn own_words<T: AllocGlobal + Env>(rt: &T) -> Result<Vec<String>, ErrorKind> {
    let all = env::args(rt).map_err(|error| error.kind())?;
    let mut words = Vec::new(rt.alloc());
    for word in all.skip(1) {
        words.push(word).map_err(|_| ErrorKind::OutOfMemory)?;
    }
    Ok(words)
}
