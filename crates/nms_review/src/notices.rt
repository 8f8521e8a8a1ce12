//! The lines that an import or a comparison writes on standard error.
use crate::call::{Call, Host};
use crate::fault::{About, Fault};
use crate::request::{Import, Path};
use csv::ByteRecord;
use nms_codes::Code;
use nms_import::{Kind, MapFault, Wrong, keys_text};
use nms_lines::field_at;
use nms_show::{Ending, Form, Item, write_line};
use std::str;

/// What is said if a call without a setup needs another one.
pub(crate) const BUILT_IN: &str =
    "nms_review: no --setup was given: the built-in setup has only N, P, Y, Z and ABC, PNY";

/// The most names of columns that a notice shows.
const MOST_NAMES: usize = 40;

/// Reports why a mapping of a kind is refused, in the file that has the mapping or lacks its columns. It shows the table, the
/// key and what is expected there.
pub(crate) fn refuse_map<T: Host>(
    call: &Call<'_, T>,
    file: Path<'_>,
    kind: Kind,
    fault: &MapFault<'_>,
) -> Result<Ending, Fault> {
    let code = code_of(fault);
    match fault {
        MapFault::NotToml { line } => show_line(
            call,
            &[
                Item::Text("nms_review: "),
                Item::Bytes(file.name.as_bytes()),
                Item::Text(": "),
                Item::Text(code.text()),
                Item::Text(": "),
                Item::Text(code.sentence()),
                Item::Text(": line "),
                Item::Number(*line),
            ],
        )?,
        MapFault::Refused(finding) if finding.wrong == Wrong::Unknown => {
            let others = keys_text(call.alloc(), kind, finding.table, finding.key).map_err(
                |_| Fault::no_memory(),
            )?;
            show_wrong(call, file, code, finding.table, finding.key, &others)?;
        }
        MapFault::Refused(finding) => {
            show_wrong(
                call,
                file,
                code,
                finding.table,
                finding.key,
                finding.expected,
            )?;
        }
        MapFault::NoColumn { key, expected } => {
            show_wrong(call, file, code, "column", key, expected)?;
        }
        MapFault::NoMemory => return Err(Fault::of(code, About::Nothing)),
    }
    Ok(Ending::SetupRefused)
}

/// The line of what is wrong in a mapping.
fn show_wrong<'x, T: Host>(
    call: &Call<'_, T>,
    file: Path<'x>,
    code: Code,
    table: &'x str,
    key: &'x str,
    expected: &'x str,
) -> Result<(), Fault> {
    let items = [
        Item::Text("nms_review: "),
        Item::Bytes(file.name.as_bytes()),
        Item::Text(": "),
        Item::Text(code.text()),
        Item::Text(": "),
        Item::Text(code.sentence()),
        Item::Text(": ["),
        Item::Text(table),
        Item::Text("] "),
        Item::Bytes(key.as_bytes()),
        Item::Text(": expected "),
        Item::Bytes(expected.as_bytes()),
    ];
    show_line(call, &items)
}

/// Reports a file that lacks the columns that its mapping names, and the columns that its first line has.
pub(crate) fn refuse_columns<T: Host>(
    call: &Call<'_, T>,
    file: Path<'_>,
    fault: &MapFault<'_>,
    names: &ByteRecord,
) -> Result<Ending, Fault> {
    let ending = refuse_map(call, file, Kind::Quotes, fault)?;
    let mut items = Vec::new(call.alloc());
    items
        .push(Item::Text("nms_review: its first line has"))
        .map_err(|_| Fault::no_memory())?;
    for place in 0..names.len().min(MOST_NAMES) {
        let mark = if place == 0 { " `" } else { "`, `" };
        items
            .push(Item::Text(mark))
            .map_err(|_| Fault::no_memory())?;
        items
            .push(Item::Bytes(field_at(names, place)))
            .map_err(|_| Fault::no_memory())?;
    }
    let end = match names.len() {
        0 => " nothing",
        1 => "` in one field: is `delimiter` under [file] right?",
        _ => "`",
    };
    items.push(Item::Text(end)).map_err(|_| Fault::no_memory())?;
    show_line(call, &items)?;
    Ok(ending)
}

/// Shows the first vendor's file whose last line is absent or counts other rows. It shows nothing if an earlier file was already
/// shown.
pub(crate) fn note_short<T: Host>(
    call: &Call<'_, T>,
    file: Path<'_>,
    was_short: bool,
    is_short: bool,
) -> Result<(), Fault> {
    if was_short || !is_short {
        return Ok(());
    }
    show_line(
        call,
        &[
            Item::Bytes(file.name.as_bytes()),
            Item::Text(": the first file whose last line is absent or counts other rows"),
        ],
    )
}

/// Says which setup was used, because some rows name participants or symbols that it lacks. It names a setup of the user only if
/// such rows were refused.
pub(crate) fn note_setup<T: Host>(
    call: &Call<'_, T>,
    import: &Import<'_>,
    some_refused: bool,
) -> Result<(), Fault> {
    match import.setup {
        None => show_line(call, &[Item::Text(BUILT_IN)]),
        Some(setup) if some_refused => {
            let words = "nms_review: participants and symbols are those of the setup ";
            show_line(call, &[Item::Text(words), Item::Bytes(setup.as_bytes())])
        }
        Some(_) => Ok(()),
    }
}

/// Says where the next reported fault is: in which file of a shard, or at which record.
pub(crate) fn note_place<'x, T: Host>(
    call: &Call<'_, T>,
    word: &'x str,
    place: Item<'x>,
) -> Result<(), Fault> {
    show_line(
        call,
        &[Item::Text("nms_review: at "), Item::Text(word), place],
    )
}

/// Says that the setup is full: it has 1,000 symbols, and rows of further symbols are not read.
pub(crate) fn note_full<T: Host>(call: &Call<'_, T>) -> Result<(), Fault> {
    let text =
        "nms_review: the setup has 1,000 symbols, and rows of others are not read: see --shards";
    show_line(call, &[Item::Text(text)])
}

/// Says which round lot the added symbols have, because a wrong one changes what is protected.
pub(crate) fn note_lots<T: Host>(call: &Call<'_, T>) -> Result<(), Fault> {
    let text =
        "nms_review: added symbols have the round lot 100: stocks above 250 dollars have smaller ones";
    show_line(call, &[Item::Text(text)])
}

/// Warns of times at which no market is open.
pub(crate) fn note_odd_hours<T: Host>(call: &Call<'_, T>) -> Result<(), Fault> {
    let text =
        "nms_review: most changes are before 04:00 or after 20:00: are time.form and the zone right?";
    show_line(call, &[Item::Text(text)])
}

/// Shows a line on standard error.
fn show_line<T: Host>(call: &Call<'_, T>, items: &[Item<'_>]) -> Result<(), Fault> {
    let mut text = Vec::new(call.alloc());
    match write_line(&mut text, Form::Text { colours: false }, items) {
        Ok(()) => {
            show_text(call, &text);
            Ok(())
        }
        Err(_) => Err(Fault::no_memory()),
    }
}

/// Shows what was kept for standard error, and clears it.
pub(crate) fn show_kept<T: Host>(call: &Call<'_, T>, text: &mut Vec<u8>) {
    show_text(call, text.as_slice());
    text.clear();
}

/// Shows a text on standard error. A failure to show it is ignored.
fn show_text<T: Host>(call: &Call<'_, T>, text: &[u8]) {
    if let Ok(text) = str::from_utf8(text) {
        let _ = call.rt.eprint(text);
    }
}

/// The code for what is wrong with a mapping.
fn code_of(fault: &MapFault<'_>) -> Code {
    match fault {
        MapFault::NotToml { .. } => Code::M1,
        MapFault::Refused(finding) => match finding.wrong {
            Wrong::Missing => Code::M2,
            Wrong::Unknown => Code::M3,
            Wrong::BadValue => Code::M4,
        },
        MapFault::NoColumn { .. } => Code::M5,
        MapFault::NoMemory => Code::M6,
    }
}
