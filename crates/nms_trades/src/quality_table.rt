//! Writing the counts and sums of execution quality, as tables.
ghost use Rattle.std.specs.Prelude.{◌≡◌, [], IfErr, false, length, true};
ghost use Rattle.nms_show.specs.Plain.{is_own_plain, is_plain};
ghost use Rattle.nms_show.specs.Safe.{IsSafe, own_text};
ghost use Rattle.nms_show.specs.Written.{Writes};
ghost use Rattle.nms_trades.specs.Files.{IsWritingFault, is_begun};
ghost use Rattle.nms_trades.specs.declared.trades.Layout.TheVariants as layout;

use crate::execution_file::Records;
use crate::finding::Finding;
use crate::table::{
    About, Aside, COLUMNS, tally_of, write_half_hours, write_head, write_parts, write_row,
    write_symbols,
};
use crate::tally::{Count, Names, Places, Tally};
use crate::trades_fault::TradesFault;
use crate::worth::{SIZES, Worth, name_of_size};
use nms_quote::Roster;
use nms_show::{Form, Item, SafeText, ShowFault};
use nms_units::Money;
use std::alloc::{AllocError, Global};
use std::io::Write;

/// The least width of each column of a table of execution quality, in characters.
const WIDTHS: [usize; COLUMNS] = [18, 10, 14, 9, 9, 9, 9, 16, 16, 20];

/// Writes the counts and sums of the quality of all executions. What is written is safe to show on a terminal.
///
/// The fault `TooLong` is returned only if a sum is too large for the number that holds it. Then nothing is written.
#[tactic(auto, using(nms_show::proofs::Offered::no_part_added))]
pub fn write_quality<W: Write>(
    alloc: Global,
    roster: &Roster,
    records: &Records,
    findings: &[Option<Finding>],
    form: Form,
    answers: &mut W,
) -> Result<(), TradesFault>
    requires { length findings.now ≡ length records.now.executions.items }
    ensures safe { Writes IsSafe (W.contents answers.old) (W.contents answers.new) result }
    ensures refused { IfErr result (IsWritingFault layout.Quality) }
    ensures unwritten { IfErr result (λ fault. is_begun fault ≡ false → W.contents answers.new ≡ W.contents answers.old) }
{
    let tally = tally_of(alloc, roster, &records.executions, findings)?;
    let aside = Aside {
        refused: records.refused.len() as u64,
        others: tally.others,
    };
    match print_quality(alloc, &tally, aside, form, answers) {
        Ok(()) => Ok(()),
        Err(fault) => Err(TradesFault::Show(fault)),
    }
}

/// Writes the quality of all executions, then the quality by participant, by symbol, by size and by half hour.
#[tactic(auto, using(nms_show::proofs::Offered::no_part_added))]
fn print_quality<W: Write>(
    alloc: Global,
    tally: &Tally,
    aside: Aside,
    form: Form,
    answers: &mut W,
) -> Result<(), ShowFault>
    ensures { Writes IsSafe (W.contents answers.old) (W.contents answers.new) result }
{
    let mut out = SafeText::new(alloc, form);
    write_all(&tally.all, aside, &mut out)?;
    write_places(&tally.names, &tally.places, &mut out)?;
    out.pass_on(answers)
}

/// Writes the quality of all executions.
fn write_all(all: &Count, aside: Aside, out: &mut SafeText) -> Result<(), AllocError> {
    if out.is_json() {
        return write_totals(all, aside, out);
    }
    out.line(&[
        Item::Number(all.executions),
        Item::Text(" executions; "),
        Item::Number(aside.refused),
        Item::Text(" records refused, "),
        Item::Number(aside.others),
        Item::Text(" of other shards"),
    ])?;
    write_head(About::Quality, "quality", out)?;
    write_quality_row(Item::Text("all"), all, out)
}

/// Writes the quality of all executions as an object.
fn write_totals(all: &Count, aside: Aside, out: &mut SafeText) -> Result<(), AllocError> {
    let worth = &all.worth;
    out.object(&[
        ("what", Item::Text("totals")),
        ("executions", Item::Number(all.executions)),
        ("refused", Item::Number(aside.refused)),
        ("other", Item::Number(aside.others)),
        ("shares", Item::Number(worth.shares)),
        ("measured", Item::Number(worth.measured)),
        ("improved", Item::Number(worth.improved)),
        ("at", Item::Number(worth.at)),
        ("outside", Item::Number(worth.outside)),
        ("effective_spread", average_of(worth, worth.effective)),
        ("quoted_spread", average_of(worth, worth.quoted)),
        ("improvement", dollars_of(worth.improvement)),
    ])
}

/// The average of an amount over the measured shares, as money. Nothing is shown if no share was measured.
fn average_of<'a>(worth: &Worth, amount: i128) -> Item<'a>
    ensures { own_text result ≡ [] }
{
    match worth.average(amount) {
        Some(nanodollars) => dollars_of(nanodollars),
        None => Item::Absent,
    }
}

/// An amount in nanodollars as money.
fn dollars_of<'a>(nanodollars: i128) -> Item<'a>
    ensures { own_text result ≡ [] }
{
    Item::of_money(Money::new(nanodollars))
}

/// Writes the head of a table of quality.
pub(crate) fn write_quality_head(name: &str, out: &mut SafeText) -> Result<(), AllocError>
    requires { is_plain name.now ≡ true }
{
    let items = [
        Item::Strong(name),
        Item::Strong("executions"),
        Item::Strong("shares"),
        Item::Strong("measured"),
        Item::Strong("improved"),
        Item::Strong("at"),
        Item::Strong("outside"),
        Item::Strong("effective"),
        Item::Strong("quoted"),
        Item::Strong("improvement"),
    ];
    write_row(&items, &WIDTHS, out)
}

/// Writes the execution quality of one participant, symbol, size or half hour, if it has any execution.
pub(crate) fn write_worth<'a>(
    what: &'a str,
    name: Item<'a>,
    count: &Count,
    out: &mut SafeText,
) -> Result<(), AllocError>
    requires what { is_plain what.now ≡ true }
    requires name { is_own_plain name ≡ true }
{
    if count.executions == 0 {
        return Ok(());
    }
    if out.is_json() {
        return write_object(what, name, count, out);
    }
    write_quality_row(name, count, out)
}

/// Writes the execution quality of one participant, symbol, size or half hour as a JSON object.
fn write_object<'a>(
    what: &'a str,
    name: Item<'a>,
    count: &Count,
    out: &mut SafeText,
) -> Result<(), AllocError>
    requires what { is_plain what.now ≡ true }
    requires name { is_own_plain name ≡ true }
{
    let worth = &count.worth;
    out.object(&[
        ("what", Item::Text(what)),
        ("name", name),
        ("executions", Item::Number(count.executions)),
        ("shares", Item::Number(worth.shares)),
        ("measured", Item::Number(worth.measured)),
        ("improved", Item::Number(worth.improved)),
        ("at", Item::Number(worth.at)),
        ("outside", Item::Number(worth.outside)),
        ("effective_spread", average_of(worth, worth.effective)),
        ("quoted_spread", average_of(worth, worth.quoted)),
        ("improvement", dollars_of(worth.improvement)),
    ])
}

/// Writes the execution quality of some executions as a row of a table.
fn write_quality_row(name: Item<'_>, count: &Count, out: &mut SafeText) -> Result<(), AllocError>
    requires { is_own_plain name ≡ true }
{
    let worth = &count.worth;
    let items = [
        name,
        Item::Number(count.executions),
        Item::Number(worth.shares),
        Item::Number(worth.measured),
        Item::Number(worth.improved),
        Item::Number(worth.at),
        Item::Number(worth.outside),
        average_of(worth, worth.effective),
        average_of(worth, worth.quoted),
        dollars_of(worth.improvement),
    ];
    write_row(&items, &WIDTHS, out)
}

/// Writes the quality by participant that executed, by symbol, by size and by half hour.
fn write_places(names: &Names, places: &Places, out: &mut SafeText) -> Result<(), AllocError> {
    write_head(About::Quality, "executed by", out)?;
    write_parts(About::Quality, names, "executed", &places.executed, out)?;
    write_symbols(About::Quality, names, &places.syms, out)?;
    write_head(About::Quality, "size", out)?;
    for place in 0..SIZES {
        write_worth(
            "size",
            Item::Text(name_of_size(place)),
            &places.sizes[place],
            out,
        )?;
    }
    write_half_hours(About::Quality, &places.half_hours, out)
}
