//! Showing the state at any version: the report of one symbol, or a table of all symbols.
ghost use Rattle.std.specs.Prelude.{◌≡◌, ◌<◌, ◌≤◌, All, IfErr, IfOk, IfSome, List, OnOk, Option, length, option_copied, take, true, false};
ghost use Rattle.nms_quote.specs.Roster.{sizes_of};
ghost use Rattle.nms_quote.specs.declared.change.Change.{Change};
ghost use Rattle.nms_board.specs.Cells.{StandsFor};
ghost use Rattle.nms_quote.specs.declared.side_quote.Side.{Side};
ghost use Rattle.nms_board.specs.View.{rows_on, view_of};
ghost use Rattle.nms_stream.specs.Tapes.{sizes_in};
ghost use Rattle.nms_drawing.specs.Faults.{is_begun};
ghost use Rattle.nms_drawing.specs.Versions.{HasVersion, IsBoardOf, IsVersionBoard, IsVersionFault, Reports, ShowsVersion, is_text};

use crate::drawing_fault::DrawingFault;
use nms_board::{BoardFault, Boards, Row, View};
use nms_fees::Setup;
use nms_lines::{name_of_part, name_of_sym, word_of_side, write_text};
use nms_nbbo::{Pair, PairPlace, best, market, market_between, next_pair};
use nms_quote::{Roster, Side, Sym};
use nms_show::{Column, Ending, Form, Item, ShowFault, write_object, write_row};
use nms_stream::{Quoted, Tape, quoted_on};
use nms_text::{report, word_of_clause, word_of_market, word_of_pair};
use nms_times::Times;
use std::alloc::Global;
use std::io::{Read, Write};

/// Writes the state at version n, after the first n changes of a file. For one symbol it is the report, for all symbols a table
/// of their best bids and offers. As JSON, a report has an object for the symbol, for each quotation and for each pair that
/// locks or crosses. A table has an object for each symbol.
///
/// `VersionBeyondTape` if the file has fewer changes. `Times` if times are given, but not one for each change. After either
/// fault nothing is written. The output is not flushed.
pub fn show_version<R: Read + Drop, W: Write>(
    alloc: Global,
    setup: &Setup,
    source: R,
    times: Option<&Times>,
    version: u64,
    sym: Option<Sym>,
    form: Form,
    answers: &mut W,
) -> Result<Ending, DrawingFault>
    requires { IfSome sym (λ sym. sym < length setup.now.roster.syms) }
    ensures shown { is_text form ≡ true → IfSome sym (λ sym. OnOk result
        (ShowsVersion setup.now (R.remaining source) (option_copied times.entry) version sym (W.contents answers.old) (W.contents answers.new))) }
    ensures of { OnOk result ((tape : List Change) × HasVersion setup.now (R.remaining source) (option_copied times.entry) version tape) }
    ensures refused { IfErr result (IsVersionFault setup.now (R.remaining source) (option_copied times.entry) version) }
    ensures unwritten { IfErr result (λ fault. is_begun fault ≡ false → W.contents answers.new ≡ W.contents answers.old) }
{
    let board = board_at(alloc, setup, source, times, version)?;
    match show_board(alloc, setup.roster(), &board, sym, form, answers) {
        Ok(()) => Ok(Ending::Done),
        Err(fault) => Err(fault),
    }
}

/// Writes what a board shows for one symbol, or for all symbols.
fn show_board<W: Write>(
    alloc: Global,
    roster: &Roster,
    board: &Boards,
    sym: Option<Sym>,
    form: Form,
    answers: &mut W,
) -> Result<(), DrawingFault>
    requires sizes { board.now.sizes ≡ sizes_of roster.now }
    requires sym { IfSome sym (λ sym. sym < length roster.now.syms) }
    ensures shown { is_text form ≡ true → IfSome sym (λ sym. (tape : List Change) → StandsFor board.now tape → OnOk result
        (Reports roster.now (view_of (sizes_of roster.now) tape sym) (W.contents answers.old) (W.contents answers.new))) }
    ensures begun { IfErr result (λ fault. is_begun fault ≡ true) }
{
    match sym {
        Some(sym) => show_symbol(alloc, roster, board, sym, form, answers),
        None => match show_all(alloc, roster, board, form, answers) {
            Ok(()) => Ok(()),
            Err(fault) => Err(DrawingFault::from(fault)),
        },
    }
}

/// The board of a version, after the first n changes of a file.
///
/// `VersionBeyondTape` if the file has fewer changes. `Times` if times are given, but not one for each change.
pub(crate) fn board_at<R: Read + Drop>(
    alloc: Global,
    setup: &Setup,
    source: R,
    times: Option<&Times>,
    version: u64,
) -> Result<Boards, DrawingFault>
    ensures board { IfOk result (IsVersionBoard setup.now (R.remaining source) (option_copied times.entry) version) }
    ensures refused { IfErr result (λ fault. (is_begun fault ≡ false) × IsVersionFault setup.now (R.remaining source) (option_copied times.entry) version fault) }
{
    let tape = match Tape::read(alloc, setup, source) {
        Ok(tape) => tape,
        Err(fault) => return Err(DrawingFault::Changes(fault)),
    };
    if let Some(times) = times {
        times.check_len(tape.changes.len())?;
    }
    if version > tape.changes.len() as u64 {
        return Err(DrawingFault::VersionBeyondTape);
    }
    match board_after(alloc, &tape, version as usize) {
        Ok(board) => Ok(board),
        Err(fault) => Err(DrawingFault::Board(fault)),
    }
}

/// The board of a version of a tape.
fn board_after(alloc: Global, tape: &Tape<'_>, version: usize) -> Result<Boards, BoardFault>
    requires { version ≤ length tape.now.changes.items }
    ensures { IfOk result (IsBoardOf (sizes_in tape.now) (take version tape.now.changes.items)) }
{
    let mut board = Boards::new(alloc, tape.roster)?;
    let (before, _) = tape.changes.split_at(version);
    board.apply_all(before);
    Ok(board)
}

/// Writes the report of a symbol.
fn show_symbol<W: Write>(
    alloc: Global,
    roster: &Roster,
    board: &Boards,
    sym: Sym,
    form: Form,
    answers: &mut W,
) -> Result<(), DrawingFault>
    requires sizes { board.now.sizes ≡ sizes_of roster.now }
    requires sym { sym < length roster.now.syms }
    ensures shown { is_text form ≡ true → (tape : List Change) → StandsFor board.now tape → OnOk result
        (Reports roster.now (view_of (sizes_of roster.now) tape sym) (W.contents answers.old) (W.contents answers.new)) }
    ensures begun { IfErr result (λ fault. is_begun fault ≡ true) }
{
    let view = board.view(sym);
    match form {
        Form::Json => {
            show_view(alloc, roster, &view, answers)?;
            Ok(())
        }
        Form::Text { .. } => show_report(alloc, roster, &view, answers),
    }
}

/// Writes the report of one symbol, from a view, which is what a board shows for that symbol.
fn show_report<W: Write>(
    alloc: Global,
    roster: &Roster,
    view: &View,
    answers: &mut W,
) -> Result<(), DrawingFault>
    requires sym { view.now.sym < length roster.now.syms }
    requires parts { (side : Side) → All (λ row. row.part < length roster.now.parts) (rows_on side view.now) }
    ensures shown { OnOk result (Reports roster.now view.now (W.contents answers.old) (W.contents answers.new)) }
    ensures begun { IfErr result (λ fault. is_begun fault ≡ true) }
{
    let mut text = Vec::new(alloc);
    if report(view, roster, &mut text).is_err() {
        return Err(DrawingFault::NoMemory);
    }
    match write_text(answers, &text) {
        Ok(()) => Ok(()),
        Err(_) => Err(DrawingFault::WriteFault),
    }
}

/// Writes what a board shows for one symbol as JSON objects: the symbol, its quotations, and the pairs that lock or cross.
fn show_view<W: Write>(
    alloc: Global,
    roster: &Roster,
    view: &View,
    answers: &mut W,
) -> Result<(), ShowFault> {
    let symbol = name_of_sym(roster, view.sym());
    write_object(
        alloc,
        answers,
        &[
            ("what", Item::Text("symbol")),
            ("version", Item::Number(view.version())),
            ("symbol", Item::Text(symbol)),
            ("market", Item::Text(word_of_market(market(view)))),
        ],
    )?;
    show_side(alloc, roster, view, Side::Bid, answers)?;
    show_side(alloc, roster, view, Side::Offer, answers)?;
    show_pairs(alloc, roster, view, answers)
}

/// Writes the quotations of a side, bids or offers, as JSON objects.
fn show_side<W: Write>(
    alloc: Global,
    roster: &Roster,
    view: &View,
    side: Side,
    answers: &mut W,
) -> Result<(), ShowFault> {
    let first = best(view, side);
    for row in view.rows(side) {
        show_one(alloc, roster, side, row, first == Some(*row), answers)?;
    }
    Ok(())
}

/// Writes a quotation as a JSON object.
fn show_one<W: Write>(
    alloc: Global,
    roster: &Roster,
    side: Side,
    row: &Row,
    is_best: bool,
    answers: &mut W,
) -> Result<(), ShowFault> {
    write_object(
        alloc,
        answers,
        &[
            ("what", Item::Text("row")),
            ("side", Item::Text(word_of_side(side))),
            ("participant", Item::Text(name_of_part(roster, row.part))),
            ("price", Item::of_price(row.price)),
            ("shares", Item::Number(u64::from(row.size))),
            ("receipt", Item::Number(row.receipt)),
            ("protected", Item::Flag(row.protected)),
            ("best", Item::Flag(is_best)),
        ],
    )
}

/// Writes each pair of a bid and an offer that lock or cross, as a JSON object.
fn show_pairs<W: Write>(
    alloc: Global,
    roster: &Roster,
    view: &View,
    answers: &mut W,
) -> Result<(), ShowFault> {
    let mut from = PairPlace::new(0);
    // The loop ends, because two participants of 32 make at most 1,024 pairs.
    for _ in 0..1024 {
        let Some(place) = from else {
            return Ok(());
        };
        let Some((pair, next)) = next_pair(view, place) else {
            return Ok(());
        };
        show_pair(alloc, roster, &pair, answers)?;
        from = Some(next);
    }
    Ok(())
}

/// Writes a bid and an offer that lock or cross, as a JSON object.
fn show_pair<W: Write>(
    alloc: Global,
    roster: &Roster,
    pair: &Pair,
    answers: &mut W,
) -> Result<(), ShowFault> {
    write_object(
        alloc,
        answers,
        &[
            ("what", Item::Text("pair")),
            ("kind", Item::Text(word_of_pair(pair.crossed))),
            (
                "bid_participant",
                Item::Text(name_of_part(roster, pair.bid.part)),
            ),
            (
                "offer_participant",
                Item::Text(name_of_part(roster, pair.offer.part)),
            ),
            (
                "later_participant",
                Item::Text(name_of_part(roster, pair.later)),
            ),
            ("clause", Item::Text(word_of_clause(pair.clause))),
        ],
    )
}

/// Writes the best bid and offer of each symbol.
fn show_all<W: Write>(
    alloc: Global,
    roster: &Roster,
    board: &Boards,
    form: Form,
    answers: &mut W,
) -> Result<(), ShowFault> {
    if !form.is_json() {
        write_row(answers, form, &columns(HEADS.map(Item::Strong)))?;
    }
    for place in 0..roster.syms() as u16 {
        if let Some(sym) = Sym::new(place) {
            if board.has_sym(sym) {
                let quoted = quoted_on(board, sym);
                show_best(alloc, roster, board.applied(), sym, &quoted, form, answers)?;
            }
        }
    }
    Ok(())
}

/// The heads of the table of all symbols.
const HEADS: [&str; 8] = [
    "SYMBOL", "MARKET", "BID", "PRICE", "SHARES", "OFFER", "PRICE", "SHARES",
];

/// Writes the best bid and offer of a symbol: a row of the table, or an object.
fn show_best<W: Write>(
    alloc: Global,
    roster: &Roster,
    version: u64,
    sym: Sym,
    quoted: &Quoted,
    form: Form,
    answers: &mut W,
) -> Result<(), ShowFault> {
    let items = items_of(roster, sym, quoted);
    if form.is_json() {
        return show_object(alloc, version, items, answers);
    }
    // Trailing empty columns are left out, because they would be written as spaces.
    let shown = match (quoted.bid, quoted.offer) {
        (_, Some(_)) => 8,
        (Some(_), None) => 5,
        (None, None) => 2,
    };
    write_row(answers, form, &columns(items)[..shown])
}

/// A symbol, its market, and the participant, price and shares of its best bid and best offer.
fn items_of<'a>(roster: &'a Roster, sym: Sym, quoted: &Quoted) -> [Item<'a>; 8] {
    let market = word_of_market(market_between(quoted.bid, quoted.offer));
    let (bid, bid_price, bid_shares) = fields_of(roster, &quoted.bid);
    let (offer, offer_price, offer_shares) = fields_of(roster, &quoted.offer);
    [
        Item::Text(name_of_sym(roster, sym)),
        Item::Text(market),
        bid,
        bid_price,
        bid_shares,
        offer,
        offer_price,
        offer_shares,
    ]
}

/// The keys of the JSON object of a symbol, in the order of the columns of the table of all symbols.
const KEYS: [&str; 8] = [
    "symbol",
    "market",
    "bid_participant",
    "bid_price",
    "bid_shares",
    "offer_participant",
    "offer_price",
    "offer_shares",
];

/// Writes a symbol with its market, best bid and best offer as a JSON object.
fn show_object<W: Write>(
    alloc: Global,
    version: u64,
    items: [Item<'_>; 8],
    answers: &mut W,
) -> Result<(), ShowFault> {
    write_object(alloc, answers, &members_of(version, items))
}

/// The members of the JSON object of a symbol: the version, the symbol, its market, its best bid and its best offer.
fn members_of<'a>(version: u64, items: [Item<'a>; 8]) -> [(&'static str, Item<'a>); 10] {
    let mut members = [("", Item::Absent); 10];
    members[0] = ("what", Item::Text("symbol"));
    members[1] = ("version", Item::Number(version));
    for place in 0..8 {
        members[place + 2] = (KEYS[place], items[place]);
    }
    members
}

/// The participant, price and shares of a best quotation; absent if there is none.
fn fields_of<'a>(roster: &'a Roster, row: &Option<Row>) -> (Item<'a>, Item<'a>, Item<'a>) {
    match row {
        None => (Item::Absent, Item::Absent, Item::Absent),
        Some(row) => (
            Item::Text(name_of_part(roster, row.part)),
            Item::of_price(row.price),
            Item::Number(u64::from(row.size)),
        ),
    }
}

/// The columns of a row of the table of all symbols, with their widths in characters.
fn columns(items: [Item<'_>; 8]) -> [Column<'_>; 8] {
    let [
        symbol,
        market,
        bid,
        bid_price,
        bid_shares,
        offer,
        offer_price,
        offer_shares,
    ] = items;
    [
        left(symbol, 8),
        left(market, 8),
        left(bid, 5),
        right(bid_price, 12),
        right(bid_shares, 9),
        left(offer, 5),
        right(offer_price, 12),
        right(offer_shares, 9),
    ]
}

/// A column whose text begins at its left end.
fn left(item: Item<'_>, width: usize) -> Column<'_> {
    Column {
        item,
        width,
        right: false,
    }
}

/// A column of a number, which ends at its right end.
fn right(item: Item<'_>, width: usize) -> Column<'_> {
    Column {
        item,
        width,
        right: true,
    }
}
