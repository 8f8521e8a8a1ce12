//! What is printed about an import of trades: the rows that make no execution, and the counts (`specs/TradeTelling`).
ghost use Rattle.std.specs.Prelude.{◌≡◌, true};
ghost use Rattle.std.specs.List.{list_all};
ghost use Rattle.nms_show.specs.Plain.{is_own_plain, is_plain};
ghost use Rattle.nms_show.specs.Safe.{IsSafe};
ghost use Rattle.nms_show.specs.Written.{Writes};

use crate::trade_cause::TradeCause;
use crate::trade_columns::TradeColumns;
use crate::trade_tally::{TradeSums, TradeTally};
use csv::ByteRecord;
use nms_import::{Column, PriceUnit, RowPlace, Telling, most_of, no_time, show_row};
use nms_show::{Form, Item, ShowFault, write_line};
use std::io::Write;

/// The output on which rows that make no execution are shown.
#[derive(Drop)]
pub struct TradeTold<'a, E> {
    /// The writer on which the rows are shown.
    pub errors: E,
    telling: Telling,
    file: &'a str,
    line: u64,
    left: u64,
}

impl<'a, E: Write> TradeTold<'a, E> {
    ghost use Rattle.std.specs.Prelude.{◌≡◌, []};
    ghost use Rattle.nms_import.specs.Telling.{most_of};
    ghost use Rattle.nms_import_trades.specs.TradeTelling.{file_of, left_of};

    /// An output on a writer, before the first file. As JSON all refused rows are shown, else the first 100 rows that make no
    /// execution.
    pub fn new(telling: Telling, errors: E) -> TradeTold<'a, E>
        ensures writer { result.errors ≡ errors }
        ensures file { file_of result ≡ [] }
        ensures left { left_of result ≡ most_of telling }
    {
        TradeTold {
            errors,
            telling,
            file: "",
            line: 0,
            left: most_of(telling),
        }
    }

    /// Notes that the next rows are those of a file.
    pub fn enter(&mut self, file: &'a str)
        ensures writer { self.new.errors ≡ self.old.errors }
        ensures file { file_of self.new ≡ file.now }
        ensures left { left_of self.new ≡ left_of self.old }
    {
        self.file = file;
    }

    /// Notes that the present row begins on a line, counted from 1.
    pub(crate) fn at(&mut self, line: u64)
        ensures writer { self.new.errors ≡ self.old.errors }
        ensures file { file_of self.new ≡ file_of self.old }
        ensures left { left_of self.new ≡ left_of self.old }
    {
        self.line = line;
    }

    /// Shows a row that makes no execution: its file, line, column and text, and the cause. As JSON a row that is skipped is not
    /// shown. What the writer does not take is dropped: the counts have each row.
    pub(crate) fn tell(&mut self, columns: &TradeColumns, row: &ByteRecord, cause: TradeCause) {
        if self.left == 0 || matches!(cause, TradeCause::Trailer) {
            return;
        }
        self.left -= 1;
        if cause.skips() && self.telling.form.is_json() {
            return;
        }
        let what = if cause.skips() { "skipped" } else { "refused" };
        let _ = show_row(
            &mut self.errors,
            RowPlace {
                file: self.file,
                line: self.line,
                alloc: self.telling.alloc,
                form: self.telling.form,
            },
            row,
            column_of(columns, cause),
            what,
            sentence_of(self.telling, cause),
        );
    }
}

/// The column that a cause is about.
fn column_of(columns: &TradeColumns, cause: TradeCause) -> Option<&Column> {
    match cause {
        TradeCause::TooFewColumns | TradeCause::Trailer => None,
        TradeCause::BadName => columns.id.as_ref(),
        TradeCause::BadTime | TradeCause::OtherDay => Some(&columns.time),
        TradeCause::UnknownParticipant => Some(&columns.participant),
        TradeCause::UnknownSymbol | TradeCause::OtherSymbol => Some(&columns.symbol),
        TradeCause::BadPrice => Some(&columns.price),
        TradeCause::BadShares => Some(&columns.shares),
        TradeCause::UnknownSide => Some(&columns.side),
        TradeCause::UnknownCondition | TradeCause::NoTrade => Some(&columns.condition),
        TradeCause::UnknownMark => Some(&columns.exempt),
        TradeCause::UnknownWord | TradeCause::Listed => Some(&columns.skip),
    }
}

/// The words for a text that is no price in the given unit.
fn no_price(unit: PriceUnit) -> &'static str {
    match unit {
        PriceUnit::Dollars => "no price above zero in dollars with at most six decimals",
        PriceUnit::TenThousandths => "no price above zero in 1e-4 dollar",
        PriceUnit::Nanodollars => "no price above zero in 1e-9 dollar, which ends in 000",
    }
}

/// The words for the cause why a row makes no execution.
fn sentence_of(telling: Telling, cause: TradeCause) -> &'static str {
    match cause {
        TradeCause::TooFewColumns => "fewer columns than the mapping names",
        TradeCause::BadName =>
            "a name that is not 1 to 32 letters, digits, points, dashes or underscores",
        TradeCause::BadTime => no_time(telling.time_form, telling.zone),
        TradeCause::UnknownParticipant => "a participant that is not on the roster",
        TradeCause::UnknownSymbol | TradeCause::OtherSymbol => "a symbol that is not on the roster",
        TradeCause::BadPrice => no_price(telling.price_unit),
        TradeCause::BadShares => "no number of shares from 1 to 999,999,999",
        TradeCause::UnknownSide => "a side that the mapping does not list",
        TradeCause::UnknownCondition => "a condition with a letter that the mapping does not list",
        TradeCause::UnknownMark => "a mark of an exempt trade that the mapping does not list",
        TradeCause::UnknownWord => "a word that the mapping lists neither to skip nor to keep",
        TradeCause::OtherDay => "not on the day of the first execution",
        TradeCause::Trailer => "the last line of the file",
        TradeCause::Listed => "a word that the mapping skips",
        TradeCause::NoTrade => "a condition with a letter of rows that are no trades",
    }
}

/// Writes the counts: a line for each cause that came, and last the sum.
pub fn write_trade_tally<W: Write>(
    out: &mut W,
    tally: &TradeTally,
    sums: &TradeSums,
) -> Result<(), ShowFault>
    ensures safe { Writes IsSafe (W.contents out.old) (W.contents out.new) result }
{
    let counts = counts_of(tally);
    write_counts(out, &counts)?;
    line(
        out,
        &[
            Item::Number(sums.rows),
            Item::Text(" rows = "),
            Item::Number(sums.executions),
            Item::Text(" executions + "),
            Item::Number(sums.refused),
            Item::Text(" refused + "),
            Item::Number(sums.skipped),
            Item::Text(" skipped"),
        ],
    )
}

/// The counts that have their own lines, each with its text.
fn counts_of(tally: &TradeTally) -> [(u64, &'static str); 16]
    ensures { list_all (λ count. is_plain count.1.now) result ≡ true }
{
    [
        (tally.too_few_columns, " refused: too few columns"),
        (tally.bad_name, " refused: bad name"),
        (tally.bad_time, " refused: bad time"),
        (tally.unknown_participant, " refused: unknown participant"),
        (tally.unknown_symbol, " refused: unknown symbol"),
        (tally.bad_price, " refused: bad price"),
        (tally.bad_shares, " refused: bad shares"),
        (tally.unknown_side, " refused: unknown side"),
        (tally.unknown_condition, " refused: unknown condition"),
        (tally.unknown_mark, " refused: unknown mark"),
        (tally.unknown_word, " refused: unknown word"),
        (tally.other_day, " refused: another day"),
        (tally.trailer, " skipped: last line of a file"),
        (tally.listed, " skipped: word to skip"),
        (tally.no_trade, " skipped: no trade"),
        (tally.other_symbol, " skipped: other symbol"),
    ]
}

/// Writes a line for each count that is not zero.
fn write_counts<W: Write>(out: &mut W, counts: &[(u64, &'static str)]) -> Result<(), ShowFault>
    ensures { list_all (λ count. is_plain count.1.now) counts.now ≡ true → Writes IsSafe (W.contents out.old) (W.contents out.new) result }
{
    for count in counts {
        write_count(out, count.0, count.1)?;
    }
    Ok(())
}

/// Writes a line for a count that is not zero.
fn write_count<W: Write>(out: &mut W, count: u64, what: &'static str) -> Result<(), ShowFault>
    ensures { is_plain what.now ≡ true → Writes IsSafe (W.contents out.old) (W.contents out.new) result }
{
    if count == 0 {
        return Ok(());
    }
    line(out, &[Item::Number(count), Item::Text(what)])
}

/// Writes a line.
fn line<W: Write>(out: &mut W, items: &[Item<'_>]) -> Result<(), ShowFault>
    ensures { list_all is_own_plain items.now ≡ true → Writes IsSafe (W.contents out.old) (W.contents out.new) result }
{
    write_line(out, Form::Text { colours: false }, items)
}
