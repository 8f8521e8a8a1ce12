//! The report on a request that was not served.
use crate::fault::{About, Fault};
use crate::notices::BUILT_IN;
use crate::words::{Sub, Words};
use nms_codes::{Code, Matter};
use nms_show::{Form, Item, ShowFault, write_line};
use std::io::{ErrorKind, Write};

/// Reports a fault of a request, and gives the exit status.
pub(crate) fn tell_fault<E: Write>(fault: &Fault, words: &Words<'_>, errors: &mut E) -> u8 {
    if write_fault(fault, words, errors).is_ok() && write_tip(fault, words, errors).is_ok() {
        let _ = write_setup_tip(fault, words, errors);
    }
    fault.code.status()
}

/// Writes the line of a fault: the file or the argument, the code, and a sentence.
fn write_fault<E: Write>(
    fault: &Fault,
    words: &Words<'_>,
    errors: &mut E,
) -> Result<(), ShowFault> {
    let name = word_of(fault.about, words);
    let colon = if name.is_empty() { "" } else { ": " };
    let (line, number) = match fault.line {
        Some(line) => (": line ", Item::Number(line)),
        None => ("", Item::Absent),
    };
    let (point, shard, end) = end_of(fault.about);
    let items = [
        Item::Text("nms_review: "),
        Item::Bytes(name.as_bytes()),
        Item::Text(point),
        shard,
        Item::Text(end),
        Item::Text(colon),
        Item::Text(fault.code.text()),
        Item::Text(": "),
        Item::Text(sentence_of(fault)),
        Item::Text(line),
        number,
    ];
    write_line(errors, Form::Text { colours: false }, &items)
}

/// Writes which call shows the place of the fault, if a file was refused.
fn write_tip<E: Write>(fault: &Fault, words: &Words<'_>, errors: &mut E) -> Result<(), ShowFault> {
    let Some(kind) = kind_of(fault, words.command) else {
        return Ok(());
    };
    let setup = if matches!(fault.about, About::Value("setup")) {
        None
    } else {
        words.option("setup")
    };
    let (option, setup) = match setup {
        Some(setup) => (" --setup ", setup),
        None => ("", ""),
    };
    let items = [
        Item::Text("nms_review: where: nms_review explain "),
        Item::Text(kind),
        Item::Text(" "),
        Item::Bytes(word_of(fault.about, words).as_bytes()),
        Item::Text(option),
        Item::Bytes(setup.as_bytes()),
    ];
    write_line(errors, Form::Text { colours: false }, &items)
}

/// Writes that the built-in setup was used, if a record names what its roster lacks. The subcommand `day` has a setup in each
/// folder.
fn write_setup_tip<E: Write>(
    fault: &Fault,
    words: &Words<'_>,
    errors: &mut E,
) -> Result<(), ShowFault> {
    let is_unknown = matches!(fault.code, Code::L3 | Code::L4);
    if is_unknown && words.command != Sub::Day && words.option("setup").is_none() {
        write_line(
            errors,
            Form::Text { colours: false },
            &[Item::Text(BUILT_IN)],
        )
    } else {
        Ok(())
    }
}

/// The kind of the refused file, as `explain` names it. There is none for the subcommands `explain` and `day`, nor for files
/// whose places `explain` does not show.
fn kind_of(fault: &Fault, command: Sub) -> Option<&'static str> {
    if matches!(command, Sub::Explain | Sub::Day) {
        return None;
    }
    match fault.code.matter() {
        Matter::Setup => Some("setup"),
        Matter::Record => kind_of_records(fault.about, command),
        Matter::Content
        | Matter::Mapping
        | Matter::Words
        | Matter::Input
        | Matter::Output
        | Matter::Memory
        | Matter::Import => None,
    }
}

/// The kind of a file of records that a call names, if it is one.
fn kind_of_records(about: About, command: Sub) -> Option<&'static str> {
    match about {
        About::Word(0) if command == Sub::Tape => Some("script"),
        About::Word(1) if command == Sub::Why => Some("plan"),
        About::Word(_) => Some("changes"),
        About::Value("plan") => Some("plan"),
        About::Nothing | About::Value(_) | About::Out(_) => None,
    }
}

/// The argument that a fault is about; empty if it is about none.
fn word_of<'a>(about: About, words: &Words<'a>) -> &'a str {
    let word = match about {
        About::Nothing => None,
        About::Word(place) => words.word(place),
        About::Value(option) => words.option(option),
        About::Out(_) => words.option("out"),
    };
    word.unwrap_or("")
}

/// The text after the argument that a fault is about: a point, the number of a shard, and the end of a file's name.
fn end_of(about: About) -> (&'static str, Item<'static>, &'static str) {
    match about {
        About::Out(output) if output.shard > 0 => (".", Item::Number(output.shard), output.end),
        About::Out(output) => ("", Item::Absent, output.end),
        About::Nothing | About::Word(_) | About::Value(_) => ("", Item::Absent, ""),
    }
}

/// The sentence for a fault.
fn sentence_of(fault: &Fault) -> &'static str {
    if let Some(error) = fault.cause {
        return cause_of(error.kind());
    }
    if fault.code == Code::Usage {
        return fault.expected;
    }
    fault.code.sentence()
}

/// The system's reason why a file could not be read.
fn cause_of(kind: ErrorKind) -> &'static str {
    match kind {
        ErrorKind::NotFound => "there is no such file (`-` is a file's name here too)",
        ErrorKind::PermissionDenied => "it may not be read by this user",
        ErrorKind::IsADirectory => "it is a folder",
        ErrorKind::NotADirectory => "a part of its path is no folder",
        ErrorKind::FilesystemLoop => "its links lead in a circle",
        ErrorKind::InvalidFilename => "its name is too long",
        ErrorKind::InvalidInput => "its name has a byte that no name may have",
        _ => "the system could not read it",
    }
}
