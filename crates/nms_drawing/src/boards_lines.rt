//! Each participant's quotations along the changes, as JSON objects. After each change, the quotations that it may alter are
//! written.
ghost use Rattle.std.specs.Prelude.{◌≡◌, ◌<◌, ◌≤◌, IfErr, false, length, true};
ghost use Rattle.std.specs.List.{list_all};
ghost use Rattle.nms_quote.specs.Roster.{holds};
ghost use Rattle.nms_show.specs.Plain.{is_own_plain, is_plain_member};
ghost use Rattle.nms_show.specs.Safe.{IsSafe};
ghost use Rattle.nms_show.specs.Written.{Writes};
ghost use Rattle.nms_stream.specs.Tapes.{sizes_in};
ghost use Rattle.nms_drawing.specs.Faults.{is_of_input};

use crate::drawing_fault::DrawingFault;
use nms_board::{Boards, Row};
use nms_lines::{name_of_part, name_of_sym};
use nms_quote::{Change, Part, Roster, Side, Sym};
use nms_show::{Item, ShowFault, write_object};
use nms_stream::{Replay, Tape};
use nms_times::{TimeOfDay, Times};
use std::alloc::Global;
use std::io::Write;

/// The number of members of the JSON object of a participant's quotations, if it has a time.
const MEMBERS: usize = 12;

/// The tape whose quotations are written, the symbols that are wanted, and the times of the versions.
#[derive(Clone, Copy)]
pub(crate) struct Wanted<'a> {
    pub(crate) alloc: Global,
    pub(crate) tape: &'a Tape<'a>,
    pub(crate) times: Option<&'a Times>,
    /// The only symbol whose quotations are written; `None` for all symbols.
    pub(crate) sym: Option<Sym>,
}

/// A participant's quotations in a symbol at a version.
#[derive(Clone, Copy)]
struct Quotation {
    version: u64,
    sym: Sym,
    part: Part,
    bid: Option<Row>,
    offer: Option<Row>,
}

/// Writes the quotations of a tape. After each change it writes those that the change may alter.
pub(crate) fn write_boards<W: Write>(
    wanted: &Wanted<'_>,
    answers: &mut W,
) -> Result<(), DrawingFault>
    ensures safe { Writes IsSafe (W.contents answers.old) (W.contents answers.new) result }
    ensures begun { IfErr result (λ fault. is_of_input fault ≡ false) }
{
    let mut replay = match Replay::open(wanted.alloc, wanted.tape) {
        Ok(replay) => replay,
        Err(fault) => return Err(DrawingFault::Board(fault)),
    };
    while let Some(change) = replay.step() {
        write_change(wanted, &replay.board, &change, answers)?;
    }
    Ok(())
}

/// Writes the quotations that a change may alter. A participant's withdrawal may alter its quotations in every symbol.
fn write_change<W: Write>(
    wanted: &Wanted<'_>,
    board: &Boards,
    change: &Change,
    answers: &mut W,
) -> Result<(), ShowFault>
    requires sizes { board.now.sizes ≡ sizes_in wanted.now.tape.now }
    requires held { holds board.now.sizes change.now ≡ true }
    ensures { Writes IsSafe (W.contents answers.old) (W.contents answers.new) result }
{
    match *change {
        Change::Quote { sym, .. } | Change::State { sym, .. } | Change::Lot { sym, .. } => {
            write_symbol(wanted, board, change, sym, answers)
        }
        Change::Withdraw { .. } => write_symbols(wanted, board, change, answers),
    }
}

/// Writes the quotations that a change may alter, in every symbol.
fn write_symbols<W: Write>(
    wanted: &Wanted<'_>,
    board: &Boards,
    change: &Change,
    answers: &mut W,
) -> Result<(), ShowFault>
    requires sizes { board.now.sizes ≡ sizes_in wanted.now.tape.now }
    requires held { holds board.now.sizes change.now ≡ true }
    ensures { Writes IsSafe (W.contents answers.old) (W.contents answers.new) result }
{
    for place in 0..wanted.tape.roster.syms() as u16 {
        write_symbol(wanted, board, change, Sym::new(place).unwrap(), answers)?;
    }
    Ok(())
}

/// Writes the quotations in one symbol that a change may alter, if that symbol is wanted.
fn write_symbol<W: Write>(
    wanted: &Wanted<'_>,
    board: &Boards,
    change: &Change,
    sym: Sym,
    answers: &mut W,
) -> Result<(), ShowFault>
    requires sym { sym < length board.now.sizes.lots }
    requires held { holds board.now.sizes change.now ≡ true }
    ensures { Writes IsSafe (W.contents answers.old) (W.contents answers.new) result }
{
    if !is_asked(&wanted.sym, sym) {
        return Ok(());
    }
    match *change {
        Change::Quote { part, .. } | Change::State { part, .. } | Change::Withdraw { part } => {
            write_part(wanted, board, sym, part, answers)
        }
        Change::Lot { .. } => write_parts(wanted, board, sym, answers),
    }
}

/// Whether a symbol is wanted: it is the one requested, or all symbols are wanted.
fn is_asked(asked: &Option<Sym>, sym: Sym) -> bool {
    match asked {
        Some(one) => *one == sym,
        None => true,
    }
}

/// Writes every participant's quotations in a symbol.
fn write_parts<W: Write>(
    wanted: &Wanted<'_>,
    board: &Boards,
    sym: Sym,
    answers: &mut W,
) -> Result<(), ShowFault>
    requires { sym < length board.now.sizes.lots }
    ensures { Writes IsSafe (W.contents answers.old) (W.contents answers.new) result }
{
    for place in 0..board.parts() {
        write_part(wanted, board, sym, Part::new(place).unwrap(), answers)?;
    }
    Ok(())
}

/// Writes a participant's quotations in a symbol.
fn write_part<W: Write>(
    wanted: &Wanted<'_>,
    board: &Boards,
    sym: Sym,
    part: Part,
    answers: &mut W,
) -> Result<(), ShowFault>
    requires sym { sym < length board.now.sizes.lots }
    requires part { part < board.now.sizes.parts }
    ensures { Writes IsSafe (W.contents answers.old) (W.contents answers.new) result }
{
    let quotation = Quotation {
        version: board.applied(),
        sym,
        part,
        bid: board.row(Side::Bid, part, sym),
        offer: board.row(Side::Offer, part, sym),
    };
    match time_in(wanted.times, quotation.version) {
        Some(time) => write_quotation(wanted, &quotation, &time.text(), MEMBERS, answers),
        None => write_quotation(wanted, &quotation, &[], MEMBERS - 1, answers),
    }
}

/// The time of a version, if there are times.
fn time_in(times: Option<&Times>, version: u64) -> Option<TimeOfDay> {
    times?.time_of(version)
}

/// Writes a participant's quotations as a JSON object. The time is its last member, which is left out if there is none.
fn write_quotation<W: Write>(
    wanted: &Wanted<'_>,
    quotation: &Quotation,
    time: &[u8],
    shown: usize,
    answers: &mut W,
) -> Result<(), ShowFault>
    requires { shown ≤ 12 }
    ensures { Writes IsSafe (W.contents answers.old) (W.contents answers.new) result }
{
    let members = members_of(wanted.tape.roster, quotation, time);
    write_object(wanted.alloc, answers, &members[..shown])
}

/// The members of the JSON object of a participant's quotations. The last member is the time.
fn members_of<'a>(
    roster: &'a Roster,
    quotation: &Quotation,
    time: &'a [u8],
) -> [(&'static str, Item<'a>); 12]
    ensures { list_all is_plain_member result ≡ true }
{
    let (bid, offer) = (&quotation.bid, &quotation.offer);
    [
        ("what", Item::Text("quotation")),
        ("version", Item::Number(quotation.version)),
        (
            "symbol",
            Item::Bytes(name_of_sym(roster, quotation.sym).as_bytes()),
        ),
        (
            "participant",
            Item::Bytes(name_of_part(roster, quotation.part).as_bytes()),
        ),
        ("bid_price", price_of(bid)),
        ("bid_shares", shares_of(bid)),
        ("bid_receipt", receipt_of(bid)),
        ("offer_price", price_of(offer)),
        ("offer_shares", shares_of(offer)),
        ("offer_receipt", receipt_of(offer)),
        ("manual", Item::Flag(is_manual(bid) || is_manual(offer))),
        ("time", Item::Bytes(time)),
    ]
}

/// The price of a side, if it has a quotation.
fn price_of(row: &Option<Row>) -> Item<'static>
    ensures { is_own_plain result ≡ true }
{
    match row {
        Some(row) => Item::of_price(row.price),
        None => Item::Absent,
    }
}

/// The displayed shares of a side, if it has a quotation.
fn shares_of(row: &Option<Row>) -> Item<'static>
    ensures { is_own_plain result ≡ true }
{
    match row {
        Some(row) => Item::Number(u64::from(row.size)),
        None => Item::Absent,
    }
}

/// The receipt of a side: the version from which it has its present price and size. It is absent without a quotation.
fn receipt_of(row: &Option<Row>) -> Item<'static>
    ensures { is_own_plain result ≡ true }
{
    match row {
        Some(row) => Item::Number(row.receipt),
        None => Item::Absent,
    }
}

/// Whether a quotation is manual.
fn is_manual(row: &Option<Row>) -> bool {
    match row {
        Some(row) => !row.protected,
        None => false,
    }
}
