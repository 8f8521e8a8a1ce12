//! The data of a page as JSON (`specs/Data`).
ghost use Rattle.std.specs.Prelude.{◌≡◌, ◌++◌, ℕ, List, map, OnOk};
ghost use Rattle.nms_drawing.specs.Data.{Lists as TextLists, Tables as RowTables, day_tables_text, json_text, lists_text, plan_tables_text, trade_tables_text};
ghost use Rattle.nms_drawing.specs.PageData.{lists_of, tables_of};

use crate::spelling::append_table;
use crate::texts::append_texts;
use std::alloc::AllocError;

/// The lists of texts of a page.
#[derive(Clone, Copy)]
pub(crate) struct Lists<'l, 't> {
    /// The pairs of a key and its text that say what the page was made from.
    pub(crate) about: &'l [&'t [u8]],
    pub(crate) symbols: &'l [&'t [u8]],
    /// The participants, after an empty text.
    pub(crate) names: &'l [&'t [u8]],
    pub(crate) causes: &'l [&'t [u8]],
    /// The ids of the executions.
    pub(crate) ids: &'l [&'t [u8]],
    /// The texts that belong to a plan, after an empty one.
    pub(crate) words: &'l [&'t [u8]],
}

/// The rows of the tables of a page.
#[derive(Clone, Copy)]
pub(crate) struct Tables<'a> {
    pub(crate) days: &'a [[u64; 3]],
    pub(crate) lines: &'a [[u64; 9]],
    pub(crate) board: &'a [[u64; 11]],
    pub(crate) lots: &'a [[u64; 4]],
    pub(crate) executions: &'a [[u64; 13]],
    pub(crate) rows: &'a [[u64; 9]],
    pub(crate) aside: &'a [[u64; 2]],
    pub(crate) plans: &'a [[u64; 9]],
    pub(crate) legs: &'a [[u64; 4]],
    pub(crate) quotations: &'a [[u64; 8]],
    pub(crate) said: &'a [[u64; 3]],
}

const DAYS: [&str; 3] = ["first", "last", "timed"];

const LINES: [&str; 9] = [
    "day",
    "version",
    "time",
    "bid_by",
    "bid",
    "bid_shares",
    "offer_by",
    "offer",
    "offer_shares",
];

const BOARD: [&str; 11] = [
    "day",
    "version",
    "time",
    "by",
    "bid",
    "bid_shares",
    "bid_age",
    "offer",
    "offer_shares",
    "offer_age",
    "manual",
];

const LOTS: [&str; 4] = ["day", "version", "time", "lot"];

const EXECUTIONS: [&str; 13] = [
    "day", "time", "version", "kind", "price", "shares", "side", "by", "record", "count", "worst",
    "through", "cause",
];

const ROWS: [&str; 9] = [
    "execution",
    "offer",
    "by",
    "price",
    "shares",
    "age",
    "worse",
    "own",
    "flicker",
];

const ASIDE: [&str; 2] = ["refused", "other"];

const PLANS: [&str; 9] = [
    "day", "version", "time", "side", "shares", "limit", "filled", "name", "verdict",
];

const LEGS: [&str; 4] = ["plan", "by", "price", "shares"];

const QUOTATIONS: [&str; 8] = [
    "plan", "by", "price", "shares", "manual", "sent", "over", "note",
];

const SAID: [&str; 3] = ["plan", "part", "text"];

/// Appends the data of a page as JSON.
pub(crate) fn append_json(
    out: &mut Vec<u8>,
    lists: &Lists<'_, '_>,
    tables: &Tables<'_>,
) -> Result<(), AllocError>
    ensures { OnOk result (out.new.items ≡ out.old.items ++ json_text (lists_of lists.now) (tables_of tables.now)) }
{
    out.extend_from_slice(b"{\"format\":1")?;
    append_lists(out, lists)?;
    append_day_tables(out, tables)?;
    append_trade_tables(out, tables)?;
    append_plan_tables(out, tables)?;
    out.push(b'}')?;
    Ok(())
}

/// Appends the lists of texts.
#[tactic(auto, unfolding(crate::specs::Data::lists_text))]
fn append_lists(out: &mut Vec<u8>, lists: &Lists<'_, '_>) -> Result<(), AllocError>
    ensures { OnOk result (out.new.items ≡ out.old.items ++ lists_text (lists_of lists.now)) }
{
    append_texts(out, "about", lists.about)?;
    append_texts(out, "symbols", lists.symbols)?;
    append_texts(out, "names", lists.names)?;
    append_texts(out, "causes", lists.causes)?;
    append_texts(out, "ids", lists.ids)?;
    append_texts(out, "words", lists.words)
}

/// Appends the tables of the changes.
fn append_day_tables(out: &mut Vec<u8>, tables: &Tables<'_>) -> Result<(), AllocError>
    ensures { OnOk result (out.new.items ≡ out.old.items ++ day_tables_text (tables_of tables.now)) }
{
    append_table(out, "days", &DAYS, tables.days)?;
    append_table(out, "lines", &LINES, tables.lines)?;
    append_table(out, "board", &BOARD, tables.board)?;
    append_table(out, "lots", &LOTS, tables.lots)?;
    Ok(())
}

/// Appends the tables of executions.
fn append_trade_tables(out: &mut Vec<u8>, tables: &Tables<'_>) -> Result<(), AllocError>
    ensures { OnOk result (out.new.items ≡ out.old.items ++ trade_tables_text (tables_of tables.now)) }
{
    append_table(out, "executions", &EXECUTIONS, tables.executions)?;
    append_table(out, "rows", &ROWS, tables.rows)?;
    append_table(out, "aside", &ASIDE, tables.aside)?;
    Ok(())
}

/// Appends the tables of plans.
fn append_plan_tables(out: &mut Vec<u8>, tables: &Tables<'_>) -> Result<(), AllocError>
    ensures { OnOk result (out.new.items ≡ out.old.items ++ plan_tables_text (tables_of tables.now)) }
{
    append_table(out, "plans", &PLANS, tables.plans)?;
    append_table(out, "legs", &LEGS, tables.legs)?;
    append_table(out, "quotations", &QUOTATIONS, tables.quotations)?;
    append_table(out, "said", &SAID, tables.said)?;
    Ok(())
}
