//! Writing the lines of one execution as JSON.
ghost use Rattle.std.specs.Prelude.{◌≡◌, true};
ghost use Rattle.nms_show.specs.Plain.{is_own_plain, is_plain};
ghost use Rattle.nms_show.specs.Safe.{IsSafe};
ghost use Rattle.nms_show.specs.Written.{Writes};

use crate::execution::{Deal, Execution};
use crate::execution_file::Refusal;
use crate::finding::Finding;
use crate::line::{append_causes, is_own};
use crate::millionths::push_millionths;
use crate::money_through::{Sums, difference, is_helped};
use crate::showing::show_object;
use crate::standing::Standing;
use nms_board::Row;
use nms_lines::{name_of_part, name_of_sym, word_of_side};
use nms_quote::{Roster, Side};
use nms_show::{Item, ShowFault};
use std::alloc::{AllocError, Global};
use std::io::Write;

/// Writes the object of a refused record.
pub(crate) fn write_refusal<W: Write>(
    alloc: Global,
    answers: &mut W,
    refusal: &Refusal,
) -> Result<(), ShowFault>
    ensures { Writes IsSafe (W.contents answers.old) (W.contents answers.new) result }
{
    show_object(
        alloc,
        answers,
        &[
            ("what", Item::Text("refused")),
            ("record", Item::Number(refusal.number)),
            ("column", Item::Number(refusal.fault.column())),
            ("code", Item::Text(refusal.fault.code())),
        ],
    )
}

/// Writes that an execution traded through nothing, because it is clean or its symbol had not been quoted.
#[tactic(auto, using(nms_show::proofs::Offered::no_part_added))]
pub(crate) fn write_quiet<W: Write>(
    alloc: Global,
    answers: &mut W,
    text: &mut Vec<u8>,
    roster: &Roster,
    execution: &Execution,
    finding: &Finding,
) -> Result<(), ShowFault>
    ensures { Writes IsSafe (W.contents answers.old) (W.contents answers.new) result }
{
    text.clear();
    let Ok(cut) = append_own(text, execution) else {
        return Err(ShowFault::NoMemory);
    };
    let (price, time) = text.split_at(cut.min(text.len()));
    let price = behind_comma(price);
    write_own(alloc, answers, roster, execution, finding, price, time)
}

/// Writes the object of an execution that traded through nothing, with these texts for its price and its time.
fn write_own<'a, W: Write>(
    alloc: Global,
    answers: &mut W,
    roster: &'a Roster,
    execution: &'a Execution,
    finding: &Finding,
    price: &'a [u8],
    time: &'a [u8],
) -> Result<(), ShowFault>
    ensures { Writes IsSafe (W.contents answers.old) (W.contents answers.new) result }
{
    let what = what_of(finding.standing);
    let bid = best_items(&finding.best.bid);
    let offer = best_items(&finding.best.offer);
    show_object(
        alloc,
        answers,
        &[
            ("what", Item::Text(what)),
            ("id", Item::Bytes(execution.name.as_slice())),
            ("version", Item::Number(execution.version)),
            ("record", Item::Number(execution.number)),
            (
                "symbol",
                Item::Bytes(name_of_sym(roster, execution.sym).as_bytes()),
            ),
            ("price", Item::Bytes(price)),
            ("executed", Item::Number(u64::from(execution.shares.get()))),
            ("side", deal_item(execution)),
            ("participant", part_item(roster, execution)),
            ("time", time_item(time)),
            ("bid", bid.0),
            ("bid_shares", bid.1),
            ("offer", offer.0),
            ("offer_shares", offer.1),
        ],
    )
}

/// Appends the price of an execution after a comma, and the digits of its time, if it has one. Returns the place at which the
/// digits begin.
fn append_own(text: &mut Vec<u8>, execution: &Execution) -> Result<usize, AllocError> {
    push_millionths(text, execution.millionths)?;
    let cut = text.len();
    if let Some(time) = execution.time {
        text.extend_from_slice(&time.text())?;
    }
    Ok(cut)
}

/// Writes that another shard judges an execution.
pub(crate) fn write_other<W: Write>(
    alloc: Global,
    answers: &mut W,
    execution: &Execution,
) -> Result<(), ShowFault>
    ensures { Writes IsSafe (W.contents answers.old) (W.contents answers.new) result }
{
    show_object(
        alloc,
        answers,
        &[
            ("what", Item::Text("other")),
            ("id", Item::Bytes(execution.name.as_slice())),
            ("record", Item::Number(execution.number)),
        ],
    )
}

/// The item for whether an execution bought or sold; nothing if its record does not say.
fn deal_item(execution: &Execution) -> Item<'static>
    ensures { is_own_plain result ≡ true }
{
    match execution.deal {
        Some(Deal::Bought) => Item::Text("B"),
        Some(Deal::Sold) => Item::Text("S"),
        None => Item::Absent,
    }
}

/// The item for the exchange of an execution; nothing off an exchange.
fn part_item<'a>(roster: &'a Roster, execution: &Execution) -> Item<'a>
    ensures { is_own_plain result ≡ true }
{
    match execution.part {
        Some(part) => Item::Bytes(name_of_part(roster, part).as_bytes()),
        None => Item::Absent,
    }
}

/// The digits of a time; nothing if there are none.
fn time_item(digits: &[u8]) -> Item<'_>
    ensures { is_own_plain result ≡ true }
{
    if digits.is_empty() {
        Item::Absent
    } else {
        Item::Bytes(digits)
    }
}

/// The price of a side's best quotation and its displayed shares; nothing if it has none.
fn best_items(best: &Option<Row>) -> (Item<'static>, Item<'static>)
    ensures price { is_own_plain result.0 ≡ true }
    ensures shares { is_own_plain result.1 ≡ true }
{
    match best {
        Some(row) => (Item::of_price(row.price), Item::Number(u64::from(row.size))),
        None => (Item::Absent, Item::Absent),
    }
}

/// Writes that an execution traded through, and then each row that self-help does not take out.
pub(crate) fn write_through<W: Write>(
    alloc: Global,
    answers: &mut W,
    text: &mut Vec<u8>,
    roster: &Roster,
    execution: &Execution,
    finding: &Finding,
    sums: &Sums,
) -> Result<(), ShowFault>
    ensures { Writes IsSafe (W.contents answers.old) (W.contents answers.new) result }
{
    text.clear();
    let Ok(cuts) = append_texts(text, execution, finding.crossed, sums) else {
        return Err(ShowFault::NoMemory);
    };
    let (left, causes) = text.split_at(cuts.causes.min(text.len()));
    let (left, time) = left.split_at(cuts.time.min(left.len()));
    let (worst, price) = left.split_at(cuts.price.min(left.len()));
    let texts = Texts {
        worst: behind_comma(worst),
        price: behind_comma(price),
        time,
        causes,
    };
    write_head(alloc, answers, roster, execution, finding, sums, &texts)?;
    write_rows(alloc, answers, text, roster, execution, finding)
}

/// Writes each row that an execution traded through, except those that self-help takes out.
fn write_rows<W: Write>(
    alloc: Global,
    answers: &mut W,
    text: &mut Vec<u8>,
    roster: &Roster,
    execution: &Execution,
    finding: &Finding,
) -> Result<(), ShowFault>
    ensures { Writes IsSafe (W.contents answers.old) (W.contents answers.new) result }
{
    for place in 0..finding.passed.len() {
        let (side, row) = &finding.passed[place];
        let flickers = finding.is_flickering(place);
        write_passed(
            alloc, answers, text, roster, execution, *side, row, flickers,
        )?;
    }
    Ok(())
}

/// The word that names an execution's standing, such as `through`.
fn what_of(standing: Standing) -> &'static str
    ensures { is_plain result.now ≡ true }
{
    match standing {
        Standing::Clean => "clean",
        Standing::Unquoted => "noquote",
        Standing::Perhaps => "perhaps",
        Standing::Through => "through",
        Standing::Other => "other",
    }
}

/// The texts of an execution: the greatest difference, the price, the digits of its time, and the causes.
#[derive(Clone, Copy)]
struct Texts<'a> {
    worst: &'a [u8],
    price: &'a [u8],
    time: &'a [u8],
    causes: &'a [u8],
}

/// The places in a text at which the price, the digits of the time and the causes of an execution begin.
#[derive(Clone, Copy)]
struct Cuts {
    price: usize,
    time: usize,
    causes: usize,
}

/// Writes the object of an execution that traded through. Its greatest difference, price, time and causes are given as texts.
fn write_head<'a, W: Write>(
    alloc: Global,
    answers: &mut W,
    roster: &'a Roster,
    execution: &'a Execution,
    finding: &Finding,
    sums: &Sums,
    texts: &Texts<'a>,
) -> Result<(), ShowFault>
    ensures { Writes IsSafe (W.contents answers.old) (W.contents answers.new) result }
{
    let what = what_of(finding.standing);
    let bid = best_items(&finding.best.bid);
    let offer = best_items(&finding.best.offer);
    show_object(
        alloc,
        answers,
        &[
            ("what", Item::Text(what)),
            ("id", Item::Bytes(execution.name.as_slice())),
            ("version", Item::Number(execution.version)),
            ("count", Item::Number(sums.count)),
            ("worst", Item::Bytes(texts.worst)),
            ("shares", Item::Number(u64::from(sums.shares))),
            ("cause", Item::Bytes(texts.causes)),
            ("record", Item::Number(execution.number)),
            (
                "symbol",
                Item::Bytes(name_of_sym(roster, execution.sym).as_bytes()),
            ),
            ("price", Item::Bytes(texts.price)),
            ("executed", Item::Number(u64::from(execution.shares.get()))),
            ("side", deal_item(execution)),
            ("participant", part_item(roster, execution)),
            ("time", time_item(texts.time)),
            ("bid", bid.0),
            ("bid_shares", bid.1),
            ("offer", offer.0),
            ("offer_shares", offer.1),
        ],
    )
}

/// Appends the greatest difference and the price, each after a comma, the digits of the time, and the causes.
fn append_texts(
    text: &mut Vec<u8>,
    execution: &Execution,
    crossed: bool,
    sums: &Sums,
) -> Result<Cuts, AllocError> {
    push_millionths(text, sums.worst)?;
    let price = text.len();
    let time = append_own(text, execution)?;
    let causes = text.len();
    append_causes(text, execution, crossed, sums)?;
    Ok(Cuts {
        price,
        time,
        causes,
    })
}

/// Writes a row that was traded through, if self-help does not take it out.
#[tactic(auto, using(nms_show::proofs::Offered::no_part_added, nms_show::proofs::Offered::nothing_added))]
fn write_passed<W: Write>(
    alloc: Global,
    answers: &mut W,
    text: &mut Vec<u8>,
    roster: &Roster,
    execution: &Execution,
    side: Side,
    row: &Row,
    flickers: bool,
) -> Result<(), ShowFault>
    ensures { Writes IsSafe (W.contents answers.old) (W.contents answers.new) result }
{
    if is_helped(execution, row) {
        return Ok(());
    }
    text.clear();
    if push_millionths(text, difference(row, execution.millionths)).is_err() {
        return Err(ShowFault::NoMemory);
    }
    write_row(
        alloc,
        answers,
        roster,
        execution,
        side,
        row,
        flickers,
        behind_comma(text),
    )
}

/// Writes the object of a row that was traded through. Its difference from the execution's price is given as a text.
fn write_row<'a, W: Write>(
    alloc: Global,
    answers: &mut W,
    roster: &'a Roster,
    execution: &'a Execution,
    side: Side,
    row: &Row,
    flickers: bool,
    by: &'a [u8],
) -> Result<(), ShowFault>
    ensures { Writes IsSafe (W.contents answers.old) (W.contents answers.new) result }
{
    let own = is_own(&execution.part, row.part);
    show_object(
        alloc,
        answers,
        &[
            ("what", Item::Text("row")),
            ("id", Item::Bytes(execution.name.as_slice())),
            ("side", Item::Text(word_of_side(side))),
            (
                "participant",
                Item::Bytes(name_of_part(roster, row.part).as_bytes()),
            ),
            ("price", Item::of_price(row.price)),
            ("shares", Item::Number(u64::from(row.size))),
            ("receipt", Item::Number(row.receipt)),
            ("by", Item::Bytes(by)),
            ("own", Item::Flag(own)),
            ("flicker", Item::Flag(flickers)),
        ],
    )
}

/// A text without the comma before it.
pub(crate) fn behind_comma(text: &[u8]) -> &[u8] {
    text.strip_prefix(b",").unwrap_or(text)
}
