//! The values that a mapping's document has at the keys that mappings of quotes and of trades share: `specs/Readings`. Only
//! allowed values are read. Instead of another value, the one of an absent key is taken.
ghost use Rattle.std.specs.Prelude.{◌≡◌, ◌<◌, ◌≤◌, IfOk, IfSome, OnOk, true};
ghost use Rattle.nms_import.specs.Drafts.{doc_of};
ghost use Rattle.nms_import.specs.Forms.{is_delimiter};
ghost use Rattle.nms_import.specs.Readings.{AreReadOf, form_in, form_named, is_in_a_day, is_within, moved_by, zone_of, unit_in, unit_named};

use crate::draft::{Draft, value_in};
use crate::mapping::{FileForm, Source};
use crate::meanings::{Half, Meanings, PriceUnit, Renamed, Replaced, TimeForm, Word, Zone};
use crate::right::{MOST_BITS, MOST_COLUMNS, fixed_text, is_delimiter, zone_in};
use std::alloc::{AllocError, Global};
use toml::Value;

/// How a file is laid out.
pub fn file_in(draft: Draft<'_>) -> FileForm
    ensures { is_delimiter result.delimiter ≡ true }
{
    FileForm {
        delimiter: delimiter_in(draft),
        header: draft.is_flagged("file", "header"),
        quotes: draft.is_flagged("file", "quotes"),
        count: count_in(draft),
    }
}

/// The place, counted from 0, of the field of a last line that counts the rows before it.
fn count_in(draft: Draft<'_>) -> Option<u16> {
    match number_in(draft, "file", "count", MOST_COLUMNS) {
        Some(number) => Some(number - 1),
        None => None,
    }
}

/// The byte between fields; a comma if the document names none.
fn delimiter_in(draft: Draft<'_>) -> u8
    ensures { is_delimiter result ≡ true }
{
    match draft.text("file", "delimiter") {
        Some(text) => match text.as_bytes() {
            [byte] if is_delimiter(*byte) => *byte,
            _ => b',',
        },
        None => b',',
    }
}

/// The number from 1 to `most` at a key, if there is one.
pub(crate) fn number_in(draft: Draft<'_>, table: &str, key: &str, most: u16) -> Option<u16>
    ensures { IfSome result (λ n. (0 < n) × (n ≤ most)) }
{
    number_of(draft.value(table, key)?, most)
}

/// The number from 1 to `most` that a value is, if it is one.
fn number_of(value: &Value, most: u16) -> Option<u16>
    ensures { IfSome result (λ n. (0 < n) × (n ≤ most)) }
{
    match u16::try_from(value.as_integer()?) {
        Ok(number) if 1 <= number && number <= most => Some(number),
        Ok(_) | Err(_) => None,
    }
}

/// What the texts of a file mean, as far as mappings of quotes and of trades share it.
pub fn common_in(alloc: Global, draft: Draft<'_>) -> Result<Meanings, AllocError>
    ensures { IfOk result (AreReadOf (doc_of draft.entry)) }
{
    let mut all = Meanings {
        time_form: form_in(draft),
        zone: zone_of(draft),
        price_unit: unit_in(draft),
        no_price: Vec::new(alloc),
        size_unit: 1,
        own_lots: false,
        names: Vec::new(alloc),
        same: is_same(draft),
        replaced: Vec::new(alloc),
        skips_symbols: draft.text("symbol", "unknown") == Some("skip"),
        said: Vec::new(alloc),
        half: Half::Refuse,
        sides: None,
        withdraws: false,
        ends: Vec::new(alloc),
        skips: Vec::new(alloc),
    };
    add_end(alloc, draft, &mut all.ends)?;
    add_names(alloc, draft, &mut all.names)?;
    add_replaced(draft, &mut all.replaced)?;
    add_words(alloc, draft, "skip", "words", &mut all.skips)?;
    Ok(all)
}

/// Whether a participant that the mapping does not list has the same name on the roster as in the file.
fn is_same(draft: Draft<'_>) -> bool {
    draft.members("participant").is_none() || draft.text("participant", "*") == Some("same")
}

/// How times are written: as `HHMMSSn` if the document does not say.
fn form_in(draft: Draft<'_>) -> TimeForm
    ensures { result ≡ form_in (doc_of draft.entry) }
{
    match draft.text("time", "form") {
        Some(text) => match form_named(text) {
            Some(form) => form,
            None => TimeForm::Clock,
        },
        None => TimeForm::Clock,
    }
}

/// The form of times that a text names.
fn form_named(text: &str) -> Option<TimeForm>
    ensures { result ≡ form_named text.now }
{
    match text {
        "HHMMSSn" => Some(TimeForm::Clock),
        "seconds" => Some(TimeForm::Seconds),
        "unix_ns" => Some(TimeForm::UnixNanoseconds),
        "iso" => Some(TimeForm::Iso),
        "HH:MM:SS" => Some(TimeForm::Colons),
        "unix_us" => Some(TimeForm::UnixMicroseconds),
        "unix_ms" => Some(TimeForm::UnixMilliseconds),
        _ => None,
    }
}

/// How times are moved to the clock of the market.
fn zone_of(draft: Draft<'_>) -> Zone
    ensures zone { result ≡ zone_of (doc_of draft.entry) }
    ensures day { is_in_a_day result ≡ true }
{
    match draft.text("time", "zone") {
        Some("America/New_York") => Zone::NewYork,
        Some(_) | None => match draft.text("time", "zone_offset") {
            Some(text) => moved_by(text),
            None => Zone::Unsaid,
        },
    }
}

/// The move of times by an offset of a sign and HHMM: they are moved on by its seconds, over midnight.
fn moved_by(text: &str) -> Zone
    ensures zone { result ≡ moved_by text.now }
    ensures day { is_in_a_day result ≡ true }
{
    match zone_in(text.as_bytes()) {
        Some(seconds) => Zone::Moved(seconds),
        None => Zone::Moved(0),
    }
}

/// The unit of prices: dollars if the document names none.
fn unit_in(draft: Draft<'_>) -> PriceUnit
    ensures { result ≡ unit_in (doc_of draft.entry) }
{
    match draft.text("price", "unit") {
        Some(text) => match unit_named(text) {
            Some(unit) => unit,
            None => PriceUnit::Dollars,
        },
        None => PriceUnit::Dollars,
    }
}

/// The unit of prices that a text names.
fn unit_named(text: &str) -> Option<PriceUnit>
    ensures { result ≡ unit_named text.now }
{
    match text {
        "dollars" => Some(PriceUnit::Dollars),
        "1e-4" => Some(PriceUnit::TenThousandths),
        "1e-9" => Some(PriceUnit::Nanodollars),
        _ => None,
    }
}

/// Adds the word that a last line begins with, if there is one.
fn add_end(alloc: Global, draft: Draft<'_>, words: &mut Vec<Word>) -> Result<(), AllocError> {
    match draft.text("file", "end") {
        Some(text) => add_word(alloc, text, words),
        None => Ok(()),
    }
}

/// Adds a word to a list.
fn add_word(alloc: Global, text: &str, words: &mut Vec<Word>) -> Result<(), AllocError> {
    let text = Vec::from_slice(alloc, text.as_bytes())?;
    words.push(Word { text })?;
    Ok(())
}

/// Adds the words that the document lists at a key.
pub fn add_words(
    alloc: Global,
    draft: Draft<'_>,
    table: &str,
    key: &str,
    words: &mut Vec<Word>,
) -> Result<(), AllocError> {
    for value in draft.items(table, key) {
        if let Some(text) = value.as_str() {
            add_word(alloc, text, words)?;
        }
    }
    Ok(())
}

/// Adds the participants that have another name on the roster.
fn add_names(alloc: Global, draft: Draft<'_>, names: &mut Vec<Renamed>) -> Result<(), AllocError> {
    let Some(members) = draft.members("participant") else {
        return Ok(());
    };
    for word in members.keys() {
        let word = word.as_str();
        if let Some(name) = draft.text("participant", word) {
            if word != "*" {
                add_name(alloc, word, name, names)?;
            }
        }
    }
    Ok(())
}

/// Adds a participant that has another name on the roster.
fn add_name(
    alloc: Global,
    word: &str,
    name: &str,
    names: &mut Vec<Renamed>,
) -> Result<(), AllocError> {
    let word = Vec::from_slice(alloc, word.as_bytes())?;
    let name = Vec::from_slice(alloc, name.as_bytes())?;
    names.push(Renamed { word, name })?;
    Ok(())
}

/// Adds the bytes that are replaced in symbols.
fn add_replaced(draft: Draft<'_>, replaced: &mut Vec<Replaced>) -> Result<(), AllocError> {
    for pair in draft.items("symbol", "replace").chunks(2) {
        if let [from, to] = pair {
            if let (Some(from), Some(to)) = (byte_in(from), byte_in(to)) {
                replaced.push(Replaced { from, to })?;
            }
        }
    }
    Ok(())
}

/// The byte of a text of one byte; `None` for any other value.
pub fn byte_in(value: &Value) -> Option<u8> {
    match value.as_str()?.as_bytes() {
        [byte] => Some(*byte),
        _ => None,
    }
}

/// The column at a key of the table `column`. If the key is absent, the column is the empty text in every row.
pub fn source_at(alloc: Global, draft: Draft<'_>, key: &str) -> Result<Source, AllocError>
    ensures { IfOk result (λ source. is_within source ≡ true) }
{
    match draft.value("column", key) {
        Some(value) => source_of(alloc, value),
        None => Ok(Source::nothing(alloc)),
    }
}

/// The column that a value says: a number, a name, or a table with the text for it or with the bits that are read.
pub(crate) fn source_of(alloc: Global, value: &Value) -> Result<Source, AllocError>
    ensures { IfOk result (λ source. is_within source ≡ true) }
{
    if let Some(number) = number_of(value, MOST_COLUMNS) {
        return Ok(Source::Place(number - 1));
    }
    if let Some(name) = value.as_str() {
        return Ok(Source::Named(Vec::from_slice(alloc, name.as_bytes())?));
    }
    match fixed_text(value) {
        Some(text) => Ok(Source::Fixed(Vec::from_slice(alloc, text.as_bytes())?)),
        None => bits_of(alloc, value),
    }
}

/// The column of which a value selects some bits. For any other value it is the empty text in every row.
fn bits_of(alloc: Global, value: &Value) -> Result<Source, AllocError>
    ensures { IfOk result (λ source. is_within source ≡ true) }
{
    let Some(members) = value.as_table() else {
        return Ok(Source::nothing(alloc));
    };
    let (Some(column), Some(bits)) = (value_in(members, "column"), value_in(members, "bits")) else {
        return Ok(Source::nothing(alloc));
    };
    let bits = match number_of(bits, MOST_BITS) {
        Some(bits) => bits,
        None => return Ok(Source::nothing(alloc)),
    };
    if let Some(name) = column.as_str() {
        let name = Vec::from_slice(alloc, name.as_bytes())?;
        return Ok(Source::NamedBits(name, bits));
    }
    match number_of(column, MOST_COLUMNS) {
        Some(number) => Ok(Source::PlaceBits(number - 1, bits)),
        None => Ok(Source::nothing(alloc)),
    }
}
