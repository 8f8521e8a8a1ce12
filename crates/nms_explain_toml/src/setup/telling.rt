//! One refusal of a setup, and how it is reported.
ghost use Rattle.std.specs.Prelude.{◌≡◌, true};
ghost use Rattle.nms_show.specs.Plain.{is_own_plain, is_plain};

use crate::marked::Marked;
use crate::marking::place_in;
use nms_codes::Code;
use nms_fees::SetupFault;
use nms_setup_places::SetupTable;
use nms_show::{Item, SafeText, item_if_any, item_of, words_before, words_round};
use std::alloc::AllocError;

/// A refusal of a setup, with the report about it.
#[derive(Clone, Copy)]
pub(crate) struct Refusal<'a> {
    /// The file, as the call named it.
    pub(crate) file: &'a str,
    /// The line that is reported, with the part of it that is wrong.
    pub(crate) marked: Marked<'a>,
    /// The fault, and its words.
    pub(crate) fault: SetupFault,
    pub(crate) sentence: &'a str,
    /// The table; none if the text is no document.
    pub(crate) table: Option<SetupTable>,
    /// The name of the participant or the symbol in that table, if it has one.
    pub(crate) name: Option<&'a str>,
    /// The key that is wrong or absent, if one is.
    pub(crate) key: Option<&'a str>,
    /// What is found at the refused place, or how many tables are found; nothing if a key is absent.
    pub(crate) found: Item<'a>,
    /// What is expected at the refused place; or the parser's message, if the text is no document.
    pub(crate) expected: &'a str,
    /// What the refused text probably means, or an empty text.
    pub(crate) hint: &'a str,
}

/// Writes a refusal: its place in the file, the line with carets under what is wrong, what was found and what is expected. It
/// also writes what to do. If the text is no document, the parser's message replaces what is expected.
pub(crate) fn tell_refusal(refusal: &Refusal<'_>, out: &mut SafeText) -> Result<(), AllocError>
    requires sentence { is_plain refusal.now.sentence.now ≡ true }
    requires found { is_own_plain refusal.now.found ≡ true }
{
    if out.is_json() {
        return tell_object(refusal, out);
    }
    tell_place(refusal, out)?;
    let (found, expected) = (refusal.found, refusal.expected);
    if refusal.table.is_some() {
        out.found(words_round(found), found, expected)?;
    } else {
        out.advice(expected)?;
    }
    out.advice(Code::of_setup(refusal.fault).remedy())?;
    out.advice(refusal.hint)
}

/// Writes the line of a refusal's place, and the setup's line with carets under what is wrong.
fn tell_place(refusal: &Refusal<'_>, out: &mut SafeText) -> Result<(), AllocError>
    requires sentence { is_plain refusal.now.sentence.now ≡ true }
{
    let items = [
        Item::Text(table_words(refusal.table)),
        place_item(refusal.table),
        words_before(refusal.name, ", "),
        item_of(refusal.name),
        words_before(refusal.key, ", key "),
        item_of(refusal.key),
        Item::Text(": "),
        Item::Text(refusal.sentence),
    ];
    let (at, wrong) = place_in(refusal.file, refusal.marked);
    out.refused(at, Code::of_setup(refusal.fault).text(), &items, wrong)
}

/// The words for a table, before its place.
fn table_words(table: Option<SetupTable>) -> &'static str
    ensures { is_plain result.now ≡ true }
{
    match table {
        None => "",
        Some(SetupTable::Top) => ": top",
        Some(SetupTable::Participant(_)) => ": participant ",
        Some(SetupTable::Symbol(_)) => ": symbol ",
    }
}

/// A table's place in its array, counted from 1.
fn place_item<'a>(table: Option<SetupTable>) -> Item<'a>
    ensures { is_own_plain result ≡ true }
{
    match table {
        Some(SetupTable::Participant(before) | SetupTable::Symbol(before)) => {
            // The sum is never too great, because no memory has room for more elements.
            match (before as u64).checked_add(1) {
                Some(place) => Item::Number(place),
                None => Item::Absent,
            }
        }
        Some(SetupTable::Top) | None => Item::Absent,
    }
}

/// Writes a refusal as a JSON object.
fn tell_object(refusal: &Refusal<'_>, out: &mut SafeText) -> Result<(), AllocError>
    requires found { is_own_plain refusal.now.found ≡ true }
{
    let members = [
        ("what", Item::Text("refusal")),
        ("file", Item::Bytes(refusal.file.as_bytes())),
        ("line", Item::Number(refusal.marked.number)),
        ("column", Item::Number(refusal.marked.column())),
        ("code", Item::Text(Code::of_setup(refusal.fault).text())),
        ("table", table_item(refusal.table)),
        ("place", place_item(refusal.table)),
        ("name", item_of(refusal.name)),
        ("key", item_of(refusal.key)),
        ("text", Item::Bytes(refusal.marked.line)),
        ("found", refusal.found),
        ("expected", Item::Bytes(refusal.expected.as_bytes())),
        ("remedy", Item::Text(Code::of_setup(refusal.fault).remedy())),
        ("hint", item_if_any(refusal.hint)),
    ];
    out.object(&members)
}

/// The kind of a table, if there is one.
fn table_item(table: Option<SetupTable>) -> Item<'static>
    ensures { is_own_plain result ≡ true }
{
    match table {
        None => Item::Absent,
        Some(SetupTable::Top) => Item::Text("top"),
        Some(SetupTable::Participant(_)) => Item::Text("participant"),
        Some(SetupTable::Symbol(_)) => Item::Text("symbol"),
    }
}

/// The sum of a setup's faults.
#[derive(Clone, Copy)]
pub(crate) struct Summary {
    /// How many faults there are, and how many of them were reported.
    pub(crate) faults: usize,
    pub(crate) told: usize,
    /// The fault with the lowest code, by which the setup is refused; none if it has no fault.
    pub(crate) least: Option<SetupFault>,
}

/// Writes how many faults a setup has, the code by which it is refused, and whether some faults were only counted.
pub(crate) fn tell_summary(
    file: &str,
    summary: Summary,
    out: &mut SafeText,
) -> Result<(), AllocError> {
    let file = Item::Bytes(file.as_bytes());
    let faults = Item::Number(summary.faults as u64);
    let code = code_item(summary.least);
    if out.is_json() {
        return out.object(&[
            ("what", Item::Text("summary")),
            ("file", file),
            ("faults", faults),
            ("told", Item::Number(summary.told as u64)),
            ("code", code),
        ]);
    }
    out.line(&[
        file,
        Item::Text(": faults: "),
        faults,
        refused_by(summary.least),
        code,
    ])?;
    if summary.told == summary.faults {
        return Ok(());
    }
    out.line(&[
        Item::Text("the first "),
        Item::Number(summary.told as u64),
        Item::Text(" faults are reported, the others counted"),
    ])
}

/// The words before the code by which a setup is refused, if it is refused.
fn refused_by(least: Option<SetupFault>) -> Item<'static>
    ensures { is_own_plain result ≡ true }
{
    match least {
        Some(_) => Item::Text(", refused by "),
        None => Item::Absent,
    }
}

/// The code by which a setup is refused, if it is refused.
fn code_item(least: Option<SetupFault>) -> Item<'static>
    ensures { is_own_plain result ≡ true }
{
    match least {
        Some(fault) => Item::Text(Code::of_setup(fault).text()),
        None => Item::Absent,
    }
}
