//! The two small texts next to a shard: its symbols, and its setup.
ghost use Rattle.std.specs.Prelude.{◌<◌, ◌≡◌, ◌≤◌, ◌≤ℤ◌, length, negsuc, pos, true};
ghost use Rattle.std.specs.List.{list_all};
ghost use Rattle.nms_show.specs.Plain.{is_plain};

use crate::cutting::{Cutting, Listed};
use nms_fee_book::Caps;
use nms_fees::Setup;
use nms_import::append_clock;
use nms_quote::{Feed, OrderSide, Part, Roster, Sym};
use nms_show::{Item, SafeText};
use nms_units::{Lot, Price};
use std::alloc::AllocError;

/// Writes a line for each symbol of the shard: its name, and the versions after its first and its last change. For each cut of
/// a symbol, one more line follows. After the name it has ` from ` or ` until `, and the time of the first change after the
/// cut. What is written is safe to show on a terminal.
pub fn write_listed(out: &mut SafeText, cutting: &Cutting) -> Result<(), AllocError> {
    let mut time = Vec::new(cutting.alloc());
    for listed in cutting.listed() {
        write_lines(out, &mut time, listed)?;
    }
    Ok(())
}

/// Writes the lines of a symbol: one for its versions, and one for each cut.
fn write_lines(out: &mut SafeText, time: &mut Vec<u8>, listed: &Listed) -> Result<(), AllocError> {
    let none: &[u8] = &[];
    versions_line(out, listed, "", none)?;
    cut_line(out, time, listed, " from ", listed.from)?;
    cut_line(out, time, listed, " until ", listed.until)
}

/// Writes the line of a cut of a symbol between two shards, if there is such a cut.
fn cut_line(
    out: &mut SafeText,
    time: &mut Vec<u8>,
    listed: &Listed,
    word: &str,
    cut: Option<u64>,
) -> Result<(), AllocError>
    requires { is_plain word.now ≡ true }
{
    let Some(cut) = cut else {
        return Ok(());
    };
    time.clear();
    append_clock(time, cut)?;
    versions_line(out, listed, word, time.as_slice())
}

/// Writes the name of a symbol, a word and a time, and the versions after its first and its last change.
fn versions_line<'x>(
    out: &mut SafeText,
    listed: &'x Listed,
    word: &'x str,
    time: &'x [u8],
) -> Result<(), AllocError>
    requires { is_plain word.now ≡ true }
{
    out.line(&[
        Item::Bytes(listed.name.as_bytes()),
        Item::Text(word),
        Item::Bytes(time),
        Item::Text(","),
        Item::Number(listed.first),
        Item::Text(","),
        Item::Number(listed.last),
    ])
}

/// Writes the setup of the shard: the given one with the shard's symbols. A comment at its start says how
/// many opening changes the shard begins with. What is written is safe to show on a terminal.
pub fn write_setup(out: &mut SafeText, setup: &Setup, cutting: &Cutting) -> Result<(), AllocError> {
    number_line(out, "# opening changes: ", cutting.opened())?;
    write_top(out, setup)?;
    write_participants(out, setup)?;
    write_symbols(out, cutting)
}

/// Writes a setup with the symbols of a roster in place of its own. What is written is safe to show on a terminal.
pub fn write_added(out: &mut SafeText, setup: &Setup, roster: &Roster) -> Result<(), AllocError> {
    write_top(out, setup)?;
    write_participants(out, setup)?;
    for place in 0..roster.syms() as u16 {
        let sym = Sym::new(place).unwrap();
        write_symbol(out, roster.sym_name(sym), roster.lot_of(sym))?;
    }
    Ok(())
}

/// Writes the keys of a setup that come before its tables.
fn write_top(out: &mut SafeText, setup: &Setup) -> Result<(), AllocError> {
    let settings = [
        ("tape_limit = ", setup.tape_limit()),
        ("queue = ", setup.queue() as u64),
        ("desks = ", u64::from(setup.desks())),
        ("feeds = ", u64::from(setup.feeds())),
        ("caps = ", year_of(setup.caps())),
    ];
    write_settings(out, &settings)
}

/// Writes a line for each key, with its number.
fn write_settings(out: &mut SafeText, settings: &[(&'static str, u64)]) -> Result<(), AllocError>
    requires { list_all (λ setting. is_plain setting.0.now) settings.now ≡ true }
{
    for setting in settings {
        number_line(out, setting.0, setting.1)?;
    }
    Ok(())
}

/// The year of the rule with the caps, as a setup names it.
fn year_of(caps: Caps) -> u64 {
    match caps {
        Caps::Of2005 => 2005,
        Caps::Of2024 => 2024,
    }
}

/// Writes a table for each participant, in the order of the roster.
fn write_participants(out: &mut SafeText, setup: &Setup) -> Result<(), AllocError> {
    for place in 0..setup.roster().parts() as u8 {
        let part = Part::new(place).unwrap();
        write_participant(out, setup, part)?;
    }
    Ok(())
}

/// Writes the table of a participant.
fn write_participant(out: &mut SafeText, setup: &Setup, part: Part) -> Result<(), AllocError>
    requires { part < length setup.now.roster.parts }
{
    let roster = setup.roster();
    head_line(out, "[[participant]]")?;
    quoted_line(out, "name", roster.part_name(part))?;
    quoted_line(out, "feed", letter_of(roster.feed_of(part)))?;
    amount_line(out, "fee = ", fee_at(setup, part, 10_000))?;
    amount_line(out, "rate = ", fee_at(setup, part, 1))
}

/// A participant's fee for a share, in nanodollars, at a price in 1/10,000 dollar. The key `fee` of the participant's table is
/// the fee at one dollar. The key `rate` is the fee at 1/10,000 dollar.
fn fee_at(setup: &Setup, part: Part, price: u64) -> i128
    requires there { 0 < price }
    requires low_price { price ≤ 10000 }
    ensures low { negsuc 10000001010000000 ≤ℤ result }
    ensures high { result ≤ℤ pos 10000000010000000 }
{
    let quoted = Price::new(price).unwrap();
    let with_fee = setup.fees().unit_cost(part, OrderSide::Buy, quoted).get();
    with_fee - i128::from(price * 100_000)
}

/// The letter of a feed, `A` to `H`.
fn letter_of(feed: Feed) -> &'static str {
    match feed {
        Feed::A => "A",
        Feed::B => "B",
        Feed::C => "C",
        Feed::D => "D",
        Feed::E => "E",
        Feed::F => "F",
        Feed::G => "G",
        Feed::H => "H",
    }
}

/// Writes a table for each symbol of the shard.
fn write_symbols(out: &mut SafeText, cutting: &Cutting) -> Result<(), AllocError> {
    for listed in cutting.listed() {
        write_symbol(out, listed.name.as_str(), listed.lot)?;
    }
    Ok(())
}

/// Writes the table of a symbol.
fn write_symbol(out: &mut SafeText, name: &str, lot: Lot) -> Result<(), AllocError> {
    head_line(out, "[[symbol]]")?;
    quoted_line(out, "name", name)?;
    number_line(out, "lot = ", u64::from(lot.get()))
}

/// Writes an empty line, and the head of a table.
fn head_line(out: &mut SafeText, head: &str) -> Result<(), AllocError>
    requires { is_plain head.now ≡ true }
{
    out.line(&[])?;
    out.line(&[Item::Text(head)])
}

/// Writes a line with a key and its text in quotes.
fn quoted_line<'x>(out: &mut SafeText, key: &'x str, text: &'x str) -> Result<(), AllocError>
    requires { is_plain key.now ≡ true }
{
    out.line(&[
        Item::Text(key),
        Item::Text(" = \""),
        Item::Bytes(text.as_bytes()),
        Item::Text("\""),
    ])
}

/// Writes a line with a key and its number.
fn number_line(out: &mut SafeText, key: &str, number: u64) -> Result<(), AllocError>
    requires { is_plain key.now ≡ true }
{
    out.line(&[Item::Text(key), Item::Number(number)])
}

/// Writes a line with a key and its number, which may be negative.
fn amount_line(out: &mut SafeText, key: &str, amount: i128) -> Result<(), AllocError>
    requires low { negsuc 10000001010000000 ≤ℤ amount }
    requires high { amount ≤ℤ pos 10000000010000000 }
    requires plain { is_plain key.now ≡ true }
{
    let number = amount.unsigned_abs() as u64;
    if amount < 0 {
        return out.line(&[Item::Text(key), Item::Text("-"), Item::Number(number)]);
    }
    number_line(out, key, number)
}
