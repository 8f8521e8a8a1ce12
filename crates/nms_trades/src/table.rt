//! Writing the counts and sums of all executions, as tables.
ghost use Rattle.std.specs.Prelude.{◌≡◌, ◌+◌, [], IfErr, IfOk, OnSome, false, filter, if◌then◌else◌, length, true};
ghost use Rattle.std.specs.List.{list_all};
ghost use Rattle.nms_show.specs.Plain.{is_own_plain, is_plain};
ghost use Rattle.nms_show.specs.Safe.{IsSafe, own_text};
ghost use Rattle.nms_show.specs.Written.{Writes};
ghost use Rattle.nms_trades.specs.Counts.{is_judged, is_noquote, is_other, is_perhaps, is_through, stands};
ghost use Rattle.nms_trades.specs.Files.{IsWritingFault, is_begun};
ghost use Rattle.nms_trades.specs.declared.trades.Layout.TheVariants as layout;

use crate::cause::{CAUSES, Cause};
use crate::execution::Execution;
use crate::execution_file::Records;
use crate::finding::Finding;
use crate::quality_table::{write_quality_head, write_worth};
use crate::tally::{Amount, Count, HALF_HOURS, Names, Places, Tally};
use crate::trades_fault::TradesFault;
use nms_quote::Roster;
use nms_show::{Column, Form, Item, SafeText, ShowFault};
use nms_units::Money;
use std::alloc::{AllocError, Global};
use std::io::Write;

/// The number of columns of each table of counts.
pub(crate) const COLUMNS: usize = 10;

/// The least width of each column of a table of trade-throughs, in characters.
const WIDTHS: [usize; COLUMNS] = [18, 10, 8, 8, 8, 8, 8, 12, 20, 16];

/// The most symbols of a table, which shows those with the most shares.
const MOST_SYMBOLS_SHOWN: usize = 50;

/// Writes the counts and sums of all executions. What is written is safe to show on a terminal.
///
/// The fault `TooLong` is returned only if a sum is too large for the number that holds it. Then nothing is written.
#[tactic(auto, using(nms_show::proofs::Offered::no_part_added))]
pub fn write_table<W: Write>(
    alloc: Global,
    roster: &Roster,
    records: &Records,
    findings: &[Option<Finding>],
    form: Form,
    answers: &mut W,
) -> Result<(), TradesFault>
    requires { length findings.now ≡ length records.now.executions.items }
    ensures safe { Writes IsSafe (W.contents answers.old) (W.contents answers.new) result }
    ensures refused { IfErr result (IsWritingFault layout.Table) }
    ensures unwritten { IfErr result (λ fault. is_begun fault ≡ false → W.contents answers.new ≡ W.contents answers.old) }
{
    let tally = tally_of(alloc, roster, &records.executions, findings)?;
    let refused = records.refused.len() as u64;
    match print_tally(alloc, &tally, refused, form, answers) {
        Ok(()) => Ok(()),
        Err(fault) => Err(TradesFault::Show(fault)),
    }
}

/// Writes the counts and sums of all executions to the output, as tables or as JSON objects.
#[tactic(auto, using(nms_show::proofs::Offered::no_part_added))]
pub(crate) fn print_tally<W: Write>(
    alloc: Global,
    tally: &Tally,
    refused: u64,
    form: Form,
    answers: &mut W,
) -> Result<(), ShowFault>
    ensures { Writes IsSafe (W.contents answers.old) (W.contents answers.new) result }
{
    let mut out = SafeText::new(alloc, form);
    write_tally(tally, refused, &mut out)?;
    out.pass_on(answers)
}

/// The subject of a table.
#[derive(Clone, Copy)]
pub(crate) enum About {
    /// The table is about what executions traded through.
    Through,
    /// The table is about how well executions were done.
    Quality,
}

/// The records that are not among the executions judged.
#[derive(Clone, Copy)]
pub(crate) struct Aside {
    /// The number of records that are refused.
    pub(crate) refused: u64,
    /// The number of records that other shards judge.
    pub(crate) others: u64,
}

/// The counts and sums of these executions, from what was found about each. Each count of all executions is the number of
/// findings of its kind.
pub(crate) fn tally_of(
    alloc: Global,
    roster: &Roster,
    executions: &[Execution],
    findings: &[Option<Finding>],
) -> Result<Tally, TradesFault>
    requires { length findings.now ≡ length executions.now }
    ensures others { IfOk result (λ tally. tally.others ≡ length (filter (stands is_other) findings.now)) }
    ensures executions { IfOk result (λ tally. tally.all.executions ≡ length (filter (stands is_judged) findings.now)) }
    ensures unquoted { IfOk result (λ tally. tally.all.unquoted ≡ length (filter (stands is_noquote) findings.now)) }
    ensures perhaps { IfOk result (λ tally. tally.all.perhaps.executions ≡ length (filter (stands is_perhaps) findings.now)) }
    ensures through { IfOk result (λ tally. tally.all.through.executions ≡ length (filter (stands is_through) findings.now)) }
    ensures refused { IfErr result (IsWritingFault layout.Table) }
{
    let Ok(mut tally) = Tally::none(alloc, roster) else {
        return Err(TradesFault::Show(ShowFault::NoMemory));
    };
    let mut place = 0;
    for answer in findings {
        let Some(()) = count_one(&mut tally, &executions[place], answer) else {
            return Err(TradesFault::TooLong);
        };
        place += 1;
    }
    Ok(tally)
}

/// Counts an execution, if there is a finding about it. Returns `None` only if a sum is too large for the number that holds it.
fn count_one(tally: &mut Tally, execution: &Execution, answer: &Option<Finding>) -> Option<()>
    ensures others { OnSome result (tally.new.others ≡ tally.old.others + (if stands is_other answer.now then 1 else 0)) }
    ensures executions { OnSome result (tally.new.all.executions
        ≡ tally.old.all.executions + (if stands is_judged answer.now then 1 else 0)) }
    ensures unquoted { OnSome result (tally.new.all.unquoted
        ≡ tally.old.all.unquoted + (if stands is_noquote answer.now then 1 else 0)) }
    ensures perhaps { OnSome result (tally.new.all.perhaps.executions
        ≡ tally.old.all.perhaps.executions + (if stands is_perhaps answer.now then 1 else 0)) }
    ensures through { OnSome result (tally.new.all.through.executions
        ≡ tally.old.all.through.executions + (if stands is_through answer.now then 1 else 0)) }
{
    match answer {
        Some(finding) => tally.add(execution, finding),
        None => Some(()),
    }
}

/// Writes the counts of all executions, then the counts by cause, by participant, by symbol and by half hour.
fn write_tally(tally: &Tally, refused: u64, out: &mut SafeText) -> Result<(), AllocError> {
    let aside = Aside {
        refused,
        others: tally.others,
    };
    write_all(&tally.all, aside, out)?;
    write_causes(tally, out)?;
    write_places(&tally.names, &tally.places, out)
}

/// Writes the counts by participant, by symbol and by half hour.
fn write_places(names: &Names, places: &Places, out: &mut SafeText) -> Result<(), AllocError> {
    write_head(About::Through, "executed by", out)?;
    write_parts(About::Through, names, "executed", &places.executed, out)?;
    write_head(About::Through, "traded through", out)?;
    write_parts(About::Through, names, "passed", &places.passed, out)?;
    write_symbols(About::Through, names, &places.syms, out)?;
    write_half_hours(About::Through, &places.half_hours, out)
}

/// Writes, for each cause, the counts of the executions to which it applies.
fn write_causes(tally: &Tally, out: &mut SafeText) -> Result<(), AllocError> {
    write_head(About::Through, "cause", out)?;
    for place in 0..CAUSES {
        let name = Item::Text(Cause::ALL[place].word());
        write_count(
            About::Through,
            "cause",
            name,
            &tally.places.causes[place],
            out,
        )?;
    }
    Ok(())
}

/// Writes the counts of all executions.
fn write_all(all: &Count, aside: Aside, out: &mut SafeText) -> Result<(), AllocError> {
    if out.is_json() {
        return write_totals(all, aside, out);
    }
    out.line(&[
        Item::Number(all.executions),
        Item::Text(" executions = "),
        Item::Number(clean_of(all)),
        Item::Text(" clean + "),
        Item::Number(all.unquoted),
        Item::Text(" not quoted + "),
        Item::Number(all.perhaps.executions),
        Item::Text(" perhaps + "),
        Item::Number(all.through.executions),
        Item::Text(" through; "),
        Item::Number(aside.refused),
        Item::Text(" records refused, "),
        Item::Number(aside.others),
        Item::Text(" of other shards"),
    ])?;
    write_amount("through: ", &all.through, all.executions, out)?;
    write_amount("perhaps: ", &all.perhaps, all.executions, out)
}

/// Writes the counts of all executions as an object.
fn write_totals(all: &Count, aside: Aside, out: &mut SafeText) -> Result<(), AllocError> {
    out.object(&[
        ("what", Item::Text("totals")),
        ("executions", Item::Number(all.executions)),
        ("refused", Item::Number(aside.refused)),
        ("other", Item::Number(aside.others)),
        ("clean", Item::Number(clean_of(all))),
        ("noquote", Item::Number(all.unquoted)),
        ("perhaps", Item::Number(all.perhaps.executions)),
        ("through", Item::Number(all.through.executions)),
        ("no_cause", Item::Number(all.through.open)),
        ("per_10000", rate_of(&all.through, all.executions)),
        ("rows", Item::Number(all.through.rows)),
        ("shares", Item::Number(all.through.shares)),
        ("dollars", money_of(all.through.dollars)),
        ("perhaps_no_cause", Item::Number(all.perhaps.open)),
        ("perhaps_rows", Item::Number(all.perhaps.rows)),
        ("perhaps_shares", Item::Number(all.perhaps.shares)),
        ("perhaps_dollars", money_of(all.perhaps.dollars)),
    ])
}

/// Writes one line about the executions that traded through, or about those that perhaps did. It gives their rate, the number
/// without a cause, the shares and the dollars.
fn write_amount(
    word: &str,
    amount: &Amount,
    executions: u64,
    out: &mut SafeText,
) -> Result<(), AllocError>
    requires { is_plain word.now ≡ true }
{
    if executions == 0 {
        return out.line(&[Item::Text(word), Item::Text("no executions")]);
    }
    out.line(&[
        Item::Text(word),
        rate_of(amount, executions),
        Item::Text(" per 10,000 executions, "),
        Item::Number(amount.open),
        Item::Text(" without a cause, "),
        Item::Number(amount.shares),
        Item::Text(" shares, "),
        money_of(amount.dollars),
        Item::Text(" dollars"),
    ])
}

/// The number of clean executions, which are those that neither traded through nor perhaps did, and whose symbol had been
/// quoted.
fn clean_of(all: &Count) -> u64 {
    let rest = all.executions - all.through.executions.min(all.executions);
    let rest = rest - all.perhaps.executions.min(rest);
    rest - all.unquoted.min(rest)
}

/// The number of executions that traded through, or perhaps did, for each 10,000 executions. It is rounded down.
fn rate_of(amount: &Amount, executions: u64) -> Item<'static>
    ensures { own_text result ≡ [] }
{
    match amount.executions.checked_mul(10_000) {
        Some(many) if executions > 0 => Item::Number(many / executions),
        Some(_) | None => Item::Absent,
    }
}

/// An amount in 1/1,000,000 dollar as money.
fn money_of<'a>(millionths: i128) -> Item<'a>
    ensures { own_text result ≡ [] }
{
    match millionths.checked_mul(1000) {
        Some(nanodollars) => Item::of_money(Money::new(nanodollars)),
        None => Item::Absent,
    }
}

/// Writes an empty line and the names of a table's columns. Nothing is written for JSON objects, which have no head.
pub(crate) fn write_head(about: About, name: &str, out: &mut SafeText) -> Result<(), AllocError>
    requires { is_plain name.now ≡ true }
{
    if out.is_json() {
        return Ok(());
    }
    out.line(&[])?;
    match about {
        About::Through => write_through_head(name, out),
        About::Quality => write_quality_head(name, out),
    }
}

/// Writes the head of a table of what was traded through.
fn write_through_head(name: &str, out: &mut SafeText) -> Result<(), AllocError>
    requires { is_plain name.now ≡ true }
{
    let items = [
        Item::Strong(name),
        Item::Strong("executions"),
        Item::Strong("noquote"),
        Item::Strong("perhaps"),
        Item::Strong("through"),
        Item::Strong("no cause"),
        Item::Strong("rows"),
        Item::Strong("shares"),
        Item::Strong("dollars"),
        Item::Strong("worst"),
    ];
    write_row(&items, &WIDTHS, out)
}

/// Writes the counts of one participant, symbol, cause or half hour, unless there is nothing to count.
pub(crate) fn write_count<'a>(
    about: About,
    what: &'a str,
    name: Item<'a>,
    count: &Count,
    out: &mut SafeText,
) -> Result<(), AllocError>
    requires what { is_plain what.now ≡ true }
    requires name { is_own_plain name ≡ true }
{
    match about {
        About::Through => write_through(what, name, count, out),
        About::Quality => write_worth(what, name, count, out),
    }
}

/// Writes the trade-through counts of one participant, symbol, cause or half hour, unless there is nothing to count.
fn write_through<'a>(
    what: &'a str,
    name: Item<'a>,
    count: &Count,
    out: &mut SafeText,
) -> Result<(), AllocError>
    requires what { is_plain what.now ≡ true }
    requires name { is_own_plain name ≡ true }
{
    if count.is_empty() {
        return Ok(());
    }
    if out.is_json() {
        return write_count_object(what, name, count, out);
    }
    write_count_row(name, count, out)?;
    write_perhaps_row(&count.perhaps, out)
}

/// Writes the trade-through counts of one participant, symbol, cause or half hour as a JSON object.
fn write_count_object<'a>(
    what: &'a str,
    name: Item<'a>,
    count: &Count,
    out: &mut SafeText,
) -> Result<(), AllocError>
    requires what { is_plain what.now ≡ true }
    requires name { is_own_plain name ≡ true }
{
    out.object(&[
        ("what", Item::Text(what)),
        ("name", name),
        ("executions", Item::Number(count.executions)),
        ("noquote", Item::Number(count.unquoted)),
        ("perhaps", Item::Number(count.perhaps.executions)),
        ("through", Item::Number(count.through.executions)),
        ("no_cause", Item::Number(count.through.open)),
        ("rows", Item::Number(count.through.rows)),
        ("shares", Item::Number(count.through.shares)),
        ("dollars", money_of(count.through.dollars)),
        ("worst", money_of(i128::from(count.through.worst))),
        ("perhaps_no_cause", Item::Number(count.perhaps.open)),
        ("perhaps_rows", Item::Number(count.perhaps.rows)),
        ("perhaps_shares", Item::Number(count.perhaps.shares)),
        ("perhaps_dollars", money_of(count.perhaps.dollars)),
        ("perhaps_worst", money_of(i128::from(count.perhaps.worst))),
    ])
}

/// Writes the trade-through counts of one participant, symbol, cause or half hour as a row of a table.
fn write_count_row(name: Item<'_>, count: &Count, out: &mut SafeText) -> Result<(), AllocError>
    requires { is_own_plain name ≡ true }
{
    let items = [
        name,
        Item::Number(count.executions),
        Item::Number(count.unquoted),
        Item::Number(count.perhaps.executions),
        Item::Number(count.through.executions),
        Item::Number(count.through.open),
        Item::Number(count.through.rows),
        Item::Number(count.through.shares),
        money_of(count.through.dollars),
        money_of(i128::from(count.through.worst)),
    ];
    write_row(&items, &WIDTHS, out)
}

/// Writes the sums of executions that perhaps traded through, as a row below that of their count, if there are any.
fn write_perhaps_row(amount: &Amount, out: &mut SafeText) -> Result<(), AllocError> {
    if amount.executions == 0 && amount.rows == 0 {
        return Ok(());
    }
    let items = [
        Item::Text("  of perhaps"),
        Item::Absent,
        Item::Absent,
        Item::Absent,
        Item::Absent,
        Item::Number(amount.open),
        Item::Number(amount.rows),
        Item::Number(amount.shares),
        money_of(amount.dollars),
        money_of(i128::from(amount.worst)),
    ];
    write_row(&items, &WIDTHS, out)
}

/// Writes a row of a table, in columns of these widths. The first item is aligned left, and every other item is aligned right.
pub(crate) fn write_row(
    items: &[Item<'_>; COLUMNS],
    widths: &[usize; COLUMNS],
    out: &mut SafeText,
) -> Result<(), AllocError>
    requires { list_all is_own_plain items.now ≡ true }
{
    let mut columns = [Column {
        item: Item::Absent,
        width: 0,
        right: true,
    }; COLUMNS];
    for place in 0..COLUMNS {
        columns[place] = Column {
            item: items[place],
            width: widths[place],
            right: place > 0,
        };
    }
    out.row(&columns)
}

/// Writes the counts of each participant, and after them the count of executions off an exchange.
pub(crate) fn write_parts(
    about: About,
    names: &Names,
    what: &str,
    counts: &[Count],
    out: &mut SafeText,
) -> Result<(), AllocError>
    requires { is_plain what.now ≡ true }
{
    for place in 0..counts.len() {
        let name = part_item(names, place);
        write_count(about, what, name, &counts[place], out)?;
    }
    Ok(())
}

/// The name of the participant at this place. The place after the last participant has the name `(none)`, for executions off an
/// exchange.
fn part_item(names: &Names, place: usize) -> Item<'_>
    ensures { is_own_plain result ≡ true }
{
    match names.parts.get(place) {
        Some(name) => Item::Bytes(name.as_bytes()),
        None => Item::Text("(none)"),
    }
}

/// Writes the counts of symbols. A table shows the 50 symbols with the most shares, but JSON objects are written for all
/// symbols.
pub(crate) fn write_symbols(
    about: About,
    names: &Names,
    counts: &[Count],
    out: &mut SafeText,
) -> Result<(), AllocError> {
    write_head(about, "symbol", out)?;
    let order = match about {
        About::Through => by_shares(out.alloc(), counts)?,
        About::Quality => by_size(out.alloc(), counts)?,
    };
    let shown = if out.is_json() {
        order.len()
    } else {
        MOST_SYMBOLS_SHOWN
    };
    write_shown(about, names, counts, &order[..shown.min(order.len())], out)
}

/// Writes the counts of the symbols at the listed places, in the order of the list.
fn write_shown(
    about: About,
    names: &Names,
    counts: &[Count],
    order: &[usize],
    out: &mut SafeText,
) -> Result<(), AllocError> {
    for at in 0..order.len() {
        let place = order[at];
        if place < counts.len() {
            write_count(about, "symbol", sym_item(names, place), &counts[place], out)?;
        }
    }
    Ok(())
}

/// Writes the counts of half hours of the day, if any execution has a time.
pub(crate) fn write_half_hours(
    about: About,
    counts: &[Count; HALF_HOURS],
    out: &mut SafeText,
) -> Result<(), AllocError> {
    if counts.iter().all(|count| count.executions == 0) {
        return Ok(());
    }
    write_head(about, "half hour", out)?;
    for place in 0..HALF_HOURS {
        let name = name_of_half_hour(place as u8);
        write_count(
            about,
            "half_hour",
            Item::Bytes(name.as_slice()),
            &counts[place],
            out,
        )?;
    }
    Ok(())
}

/// The time at which a half hour of the day begins, in the form `09:30`.
fn name_of_half_hour(place: u8) -> [u8; 5] {
    let hour = place / 2;
    let half = if place % 2 == 0 { b'0' } else { b'3' };
    [b'0' + hour / 10, b'0' + hour % 10, b':', half, b'0']
}

/// The places of the symbols, ordered by the shares traded through, most first. Symbols for which these are equal are ordered
/// by the shares that were perhaps traded through.
fn by_shares(alloc: Global, counts: &[Count]) -> Result<Vec<usize>, AllocError> {
    let mut order = places_of(alloc, counts)?;
    order.sort_by_key(|place| u64::MAX
        - counts.get(*place).map_or(0, |count| count.perhaps.shares))?;
    order.sort_by_key(|place| u64::MAX
        - counts.get(*place).map_or(0, |count| count.through.shares))?;
    Ok(order)
}

/// The places of the symbols, ordered by the shares executed, most first.
fn by_size(alloc: Global, counts: &[Count]) -> Result<Vec<usize>, AllocError> {
    let mut order = places_of(alloc, counts)?;
    order.sort_by_key(|place| u64::MAX - counts.get(*place).map_or(0, |count| count.worth.shares))?;
    Ok(order)
}

/// The places of all symbols, from first to last.
fn places_of(alloc: Global, counts: &[Count]) -> Result<Vec<usize>, AllocError> {
    let mut order = Vec::with_capacity(alloc, counts.len())?;
    for place in 0..counts.len() {
        order.push(place)?;
    }
    Ok(order)
}

/// The name of the symbol at a place.
fn sym_item(names: &Names, place: usize) -> Item<'_>
    ensures { own_text result ≡ [] }
{
    match names.syms.get(place) {
        Some(name) => Item::Bytes(name.as_bytes()),
        None => Item::Absent,
    }
}
