//! The table of the keys of a mapping: `specs/Keys`. It decides what is read, what is refused, and which key a wrong name may
//! mean. The table of docs/IMPORT.md is made from it.
ghost use Rattle.std.specs.Prelude.{◌≡◌, map};
ghost use Rattle.nms_import.specs.Keys.{has, is_columns, is_instead, is_key, is_list, is_name, is_of, is_one_column, is_others, see};

use std::alloc::{AllocError, Global};

/// What a mapping is for.
#[derive(Clone, Copy, PartialEq, Eq)]
pub enum Kind {
    /// A mapping of quotes, for `import`.
    Quotes,
    /// A mapping of quotes whose rows have one side each, for `import`.
    Sides,
    /// A mapping of trades, for `import`.
    Trades,
    /// A mapping of national bests, for `compare`.
    Bests,
}

/// What the value at a key must be.
#[derive(Clone, Copy, PartialEq, Eq)]
pub enum Form {
    /// A table.
    Table,
    /// One of the words that the key allows.
    Choice,
    /// A text of one byte that can be between fields.
    Delimiter,
    /// `true` or `false`.
    Flag,
    /// A text.
    Text,
    /// The number of a field, if the key `end` is there too.
    Count,
    /// A column.
    Column,
    /// A column, or an array of two.
    Columns,
    /// A column in place of the column of another key, which has to be absent.
    Instead,
    /// `shares`, or `lots` next to the key `lot`.
    SizeUnit,
    /// A number of shares, or `setup`.
    Lot,
    /// A sign and HHMM, if times have a date.
    Zone,
    /// A zone's name, one of the words of the key, next to times that have a date and no other zone.
    ZoneName,
    /// A participant's name. Its key can be any word of the file. The value at the key `*` is `same`.
    Name,
    /// Texts.
    Words,
    /// Pairs of texts of one byte.
    Pairs,
    /// Texts, each of which is once in the list, and in no other list of the table.
    Conditions,
    /// Texts of one byte.
    Letters,
    /// Texts of one byte, each in no earlier list of the table.
    Others,
}

impl Form {
    /// Whether the value is a participant's name.
    pub(crate) fn is_name(self) -> bool
        ensures { result ≡ is_name self }
    {
        matches!(self, Form::Name)
    }

    /// Whether the value is a column or two.
    pub(crate) fn is_columns(self) -> bool
        ensures { result ≡ is_columns self }
    {
        matches!(self, Form::Columns)
    }

    /// Whether the value is a column.
    pub(crate) fn is_column(self) -> bool
        ensures { result ≡ is_one_column self }
    {
        matches!(self, Form::Column)
    }

    /// Whether the value is a column in place of the column of another key.
    pub(crate) fn is_instead(self) -> bool
        ensures { result ≡ is_instead self }
    {
        matches!(self, Form::Instead)
    }

    /// Whether the value is a list of texts.
    pub(crate) fn is_list(self) -> bool
        ensures { result ≡ is_list self }
    {
        matches!(
            self,
            Form::Words | Form::Pairs | Form::Conditions | Form::Letters | Form::Others
        )
    }

    /// Whether the value is a list of letters that claim nothing.
    pub(crate) fn is_others(self) -> bool
        ensures { result ≡ is_others self }
    {
        matches!(self, Form::Others)
    }
}

/// Whether mappings of quotes, of sides, of trades and of national bests have a key.
pub type Kinds = (bool, bool, bool, bool);

/// The rule for a key: the form of its value; whether it is needed; its words; and what is expected, empty for a column. The
/// words of a choice are the allowed values, of which an absent key has the first. The words of a column are the keys that may
/// be in its place, or in whose place it may be.
pub type Rule = (Form, bool, &'static [&'static str], &'static str);

/// A key: its table, empty for the top; its name; the mappings that have it; and the rule for its value.
pub type Row = (&'static str, &'static str, Kinds, Rule);

const ALL: Kinds = (true, true, true, true);

const QUOTED: Kinds = (true, true, false, true);

const PAIRED: Kinds = (true, false, false, true);

const NAMED: Kinds = (true, true, true, false);

const SIDES: Kinds = (false, true, false, false);

const SINGLE: Kinds = (false, true, true, false);

const TRADES: Kinds = (false, false, true, false);

const BESTS: Kinds = (false, false, false, true);

const WHOLE: Kinds = (true, false, false, false);

const IN_PARTS: Kinds = (false, true, false, true);

const A_TABLE: &str = "a table, as after a line [file]";

const A_KIND: &str = "\"quotes\", or for import \"sides\" or \"trades\"";

const A_BYTE: &str = "a text of one byte other than a quote and the end of a line, as \"|\"";

const A_COUNT: &str = "the number of a field of the last line, 1 to 1000, next to end = \"TEXT\"";

const WITHDRAW: &str = "\"withdraw\" or \"keep\"";

const A_VENUE: &str = "the column of the venue, as for the other columns";

pub const ASKED: &str = "a column, in place of the key of the offer and not next to it";

const PRICES: &str = "\"dollars\", \"1e-4\" or \"1e-9\"";

const SIZES: &str = "\"shares\", or \"lots\" next to lot = \"setup\" or lot = 100";

const A_LOT: &str = "a whole number from 1 to 1000, or \"setup\": the setup's lot of each symbol";

const FORMS: &str =
    "\"HHMMSSn\", \"HH:MM:SS\", \"seconds\", \"unix_ns\", \"unix_us\", \"unix_ms\" or \"iso\"";

const A_ZONE: &str =
    "a sign and HHMM, as \"-0500\", next to form = \"unix_ns\", \"unix_us\", \"unix_ms\" or \"iso\"";

const A_ZONE_NAME: &str =
    "\"America/New_York\", in place of zone_offset, next to form = \"unix_ns\", \"unix_us\", \"unix_ms\" or \"iso\"";

const ORDERS: &str = "\"given\", \"symbol\" or \"free\"";

const TIMED: &str = "\"given\" or \"symbol\": such rows come by time";

const ON_ROSTER: &str = "the participant's name on the roster, as a text";

const A_PAIR: &str = "an array of pairs of texts of one byte, as [\" \", \".\"]";

const SKIPPED: &str = "\"skip\" or \"refuse\"";

const ONCE: &str = "conditions that stand in no other list, and once";

/// What is expected of the words for a side.
pub const IN_ONE_LIST: &str = "an array of words that stand in no other list, and once";

const HALVES: &str = "\"refuse\", \"manual\" or \"automated\"";

const LETTER: &str = "an array of texts of one letter, as [\"F\", \"4\"]";

const TIME_FORMS: &[&'static str] = &[
    "HHMMSSn", "HH:MM:SS", "seconds", "unix_ns", "unix_us", "unix_ms", "iso",
];

const HALF_WORDS: &[&'static str] = &["refuse", "manual", "automated"];

const TABLE: Rule = (Form::Table, false, &[], A_TABLE);

const OF_QUOTES: Rule = (Form::Choice, false, &["quotes"], A_KIND);

const OF_SIDES: Rule = (Form::Choice, true, &["sides"], A_KIND);

const OF_TRADES: Rule = (Form::Choice, true, &["trades"], A_KIND);

const DELIMITER: Rule = (Form::Delimiter, false, &[","], A_BYTE);

const FLAG: Rule = (Form::Flag, false, &["false"], "true or false");

const TEXT: Rule = (Form::Text, false, &[], "a text, as \"END\"");

const COUNT: Rule = (Form::Count, false, &[], A_COUNT);

const ON_REFUSED: Rule = (Form::Choice, false, &["withdraw", "keep"], WITHDRAW);

const NEEDED: Rule = (Form::Column, true, &[], "");

const COLUMN: Rule = (Form::Column, false, &[], "");

const COLUMNS: Rule = (Form::Columns, false, &[], "");

const VENUE: Rule = (Form::Column, true, &[], A_VENUE);

const OFFER_VENUE: Rule = (Form::Column, true, &["ask_participant"], A_VENUE);

const ASK_VENUE: Rule = (Form::Instead, false, &["offer_participant"], ASKED);

const OFFER: Rule = (Form::Column, true, &["ask"], "");

const ASK: Rule = (Form::Instead, false, &["offer"], ASKED);

const OFFER_SIZE: Rule = (Form::Column, true, &["ask_size"], "");

const ASK_SIZE: Rule = (Form::Instead, false, &["offer_size"], ASKED);

const PRICE_UNIT: Rule = (Form::Choice, false, &["dollars", "1e-4", "1e-9"], PRICES);

const SIZE_UNIT: Rule = (Form::SizeUnit, true, &[], SIZES);

const LOT: Rule = (Form::Lot, false, &[], A_LOT);

const TIME_FORM: Rule = (Form::Choice, false, TIME_FORMS, FORMS);

const ZONE: Rule = (Form::Zone, false, &[], A_ZONE);

const ZONE_NAME: Rule = (Form::ZoneName, false, &["America/New_York"], A_ZONE_NAME);

const ORDER: Rule = (Form::Choice, false, &["given", "symbol", "free"], ORDERS);

const IN_TIME: Rule = (Form::Choice, false, &["given", "symbol"], TIMED);

const NAME: Rule = (Form::Name, false, &[], ON_ROSTER);

const PAIRS: Rule = (Form::Pairs, false, &[], A_PAIR);

const UNKNOWN: Rule = (Form::Choice, false, &["refuse", "skip"], SKIPPED);

const CONDITIONS: Rule = (Form::Conditions, false, &[], ONCE);

const HALF: Rule = (Form::Choice, false, HALF_WORDS, HALVES);

const WORDS: Rule = (Form::Words, false, &[], A_LIST);

const SIDE_WORDS: Rule = (Form::Conditions, true, &[], IN_ONE_LIST);

const LETTERS: Rule = (Form::Letters, false, &[], LETTER);

const OTHERS: Rule = (Form::Others, false, &[], LETTER);

/// What is expected of a list.
pub const A_LIST: &str = "an array of texts, as [\"R\", \"O\"]";
/// What is expected of a letter that is in an earlier list.
pub const IN_NO_OTHER: &str = "letters that stand in no other list";
/// What is expected of two columns.
pub const ONE_OR_TWO: &str = "a column, or an array of two";
/// What is expected of the word `*`.
pub const SAME: &str = "\"same\": any other word is its own name";
/// What is expected of a column in a file whose first line names its columns.
pub const A_NAME: &str =
    "the name of a column, its number from 1 to 1000, { fixed = \"TEXT\" } or { column = \"flags\", bits = 128 }";
/// What is expected of a column in a file whose first line does not name its columns.
pub const A_NUMBER: &str =
    "the number of a column, 1 to 1000, { fixed = \"TEXT\" } or { column = 3, bits = 128 } (names need header = true)";

/// The keys of all mappings, table by table.
pub static KEYS: [Row; 84] = [
    ("", "file", ALL, TABLE),
    ("", "column", ALL, TABLE),
    ("", "price", ALL, TABLE),
    ("", "size", QUOTED, TABLE),
    ("", "time", ALL, TABLE),
    ("", "participant", ALL, TABLE),
    ("", "symbol", ALL, TABLE),
    ("", "state", QUOTED, TABLE),
    ("", "side", SINGLE, TABLE),
    ("", "flags", TRADES, TABLE),
    ("", "exempt", TRADES, TABLE),
    ("", "skip", ALL, TABLE),
    ("file", "kind", PAIRED, OF_QUOTES),
    ("file", "kind", SIDES, OF_SIDES),
    ("file", "kind", TRADES, OF_TRADES),
    ("file", "delimiter", ALL, DELIMITER),
    ("file", "header", ALL, FLAG),
    ("file", "end", ALL, TEXT),
    ("file", "count", ALL, COUNT),
    ("file", "quotes", ALL, FLAG),
    ("file", "on_refused", QUOTED, ON_REFUSED),
    ("column", "id", TRADES, COLUMN),
    ("column", "time", ALL, NEEDED),
    ("column", "participant", NAMED, NEEDED),
    ("column", "symbol", ALL, NEEDED),
    ("column", "bid_participant", BESTS, VENUE),
    ("column", "bid", PAIRED, NEEDED),
    ("column", "bid_size", PAIRED, NEEDED),
    ("column", "offer_participant", BESTS, OFFER_VENUE),
    ("column", "ask_participant", BESTS, ASK_VENUE),
    ("column", "offer", PAIRED, OFFER),
    ("column", "ask", PAIRED, ASK),
    ("column", "offer_size", PAIRED, OFFER_SIZE),
    ("column", "ask_size", PAIRED, ASK_SIZE),
    ("column", "side", SIDES, NEEDED),
    ("column", "price", SIDES, NEEDED),
    ("column", "size", SIDES, NEEDED),
    ("column", "price", TRADES, NEEDED),
    ("column", "shares", TRADES, NEEDED),
    ("column", "side", TRADES, COLUMN),
    ("column", "condition", QUOTED, COLUMNS),
    ("column", "condition", TRADES, COLUMN),
    ("column", "exempt", TRADES, COLUMN),
    ("column", "skip", ALL, COLUMN),
    ("price", "unit", ALL, PRICE_UNIT),
    ("price", "none", QUOTED, WORDS),
    ("size", "unit", QUOTED, SIZE_UNIT),
    ("size", "lot", QUOTED, LOT),
    ("time", "form", ALL, TIME_FORM),
    ("time", "zone_offset", ALL, ZONE),
    ("time", "zone", ALL, ZONE_NAME),
    ("time", "order", WHOLE, ORDER),
    ("time", "order", IN_PARTS, IN_TIME),
    ("participant", "*", ALL, NAME),
    ("symbol", "replace", ALL, PAIRS),
    ("symbol", "unknown", ALL, UNKNOWN),
    ("state", "automated", QUOTED, CONDITIONS),
    ("state", "manual", QUOTED, CONDITIONS),
    ("state", "manual_bid", PAIRED, CONDITIONS),
    ("state", "manual_offer", PAIRED, CONDITIONS),
    ("state", "halted", QUOTED, CONDITIONS),
    ("state", "none", QUOTED, CONDITIONS),
    ("state", "half", QUOTED, HALF),
    ("side", "bid", SIDES, SIDE_WORDS),
    ("side", "offer", SIDES, SIDE_WORDS),
    ("side", "bought", TRADES, WORDS),
    ("side", "sold", TRADES, WORDS),
    ("side", "neither", TRADES, WORDS),
    ("flags", "not_regular", TRADES, LETTERS),
    ("flags", "single_priced", TRADES, LETTERS),
    ("flags", "sweep", TRADES, LETTERS),
    ("flags", "swept", TRADES, LETTERS),
    ("flags", "benchmark", TRADES, LETTERS),
    ("flags", "stopped", TRADES, LETTERS),
    ("flags", "contingent", TRADES, LETTERS),
    ("flags", "exempt", TRADES, LETTERS),
    ("flags", "outside_hours", TRADES, LETTERS),
    ("flags", "out_of_sequence", TRADES, LETTERS),
    ("flags", "nothing", TRADES, OTHERS),
    ("flags", "no_trade", TRADES, OTHERS),
    ("exempt", "yes", TRADES, WORDS),
    ("exempt", "no", TRADES, WORDS),
    ("skip", "words", ALL, WORDS),
    ("skip", "kept", TRADES, WORDS),
];

/// Whether mappings of a kind have a key.
fn has(kinds: Kinds, kind: Kind) -> bool
    ensures { result ≡ has kind kinds }
{
    match kind {
        Kind::Quotes => kinds.0,
        Kind::Sides => kinds.1,
        Kind::Trades => kinds.2,
        Kind::Bests => kinds.3,
    }
}

/// Whether a key belongs to a table of mappings of a kind.
pub fn is_of(row: &Row, kind: Kind, table: &str) -> bool
    ensures { result ≡ is_of kind table.now (see row.now) }
{
    has(row.2, kind) && row.0 == table
}

/// Whether a table of mappings of a kind has a key with this name.
pub fn is_key(rows: &[Row], kind: Kind, table: &str, name: &str) -> bool
    ensures { result ≡ is_key (map see rows.now) kind table.now name.now }
{
    for row in rows {
        if is_of(row, kind, table) && (row.1 == name || row.1 == "*") {
            return true;
        }
    }
    false
}

/// The keys of a table of mappings of a kind, in words. One of them is expected instead of another key.
pub fn keys_text(
    alloc: Global,
    kind: Kind,
    table: &str,
    other: &str,
) -> Result<String, AllocError> {
    if kind == Kind::Bests && table == "column" && other == "participant" {
        return String::from_str(alloc, "bid_participant and offer_participant in its place");
    }
    if kind == Kind::Quotes && other == "side" {
        return String::from_str(
            alloc,
            "kind = \"sides\" or kind = \"trades\" in [file], next to it",
        );
    }
    let begun = if is_long(kind, table) { "one of " } else { "" };
    let mut text = String::from_str(alloc, begun)?;
    let mut has_one = false;
    for row in &KEYS {
        if is_of(row, kind, table) {
            if has_one {
                text.push_str(", ")?;
            }
            text.push_str(row.1)?;
            has_one = true;
        }
    }
    Ok(text)
}

/// Whether a table of mappings of a kind has several keys.
fn is_long(kind: Kind, table: &str) -> bool {
    let mut has_one = false;
    for row in &KEYS {
        if is_of(row, kind, table) {
            if has_one {
                return true;
            }
            has_one = true;
        }
    }
    false
}
