//! The rows of a page that come from the changes (`specs/Rows`).
ghost use Rattle.std.specs.Prelude.{◌≡◌, ◌+◌, ◌<◌, ◌≤◌, ◌++◌, ◌∷◌, [], All, length, true, IfOk, OnOk};
ghost use Rattle.std.specs.List.{flat_map, range_with_len};
ghost use Rattle.nms_quote.specs.Roster.{holds};
ghost use Rattle.nms_quote.specs.declared.TheConstants.{MOST_CHANGES};
ghost use Rattle.nms_stream.specs.Tapes.{sizes_in};
ghost use Rattle.nms_drawing.specs.Rows.{AreRows, along, best_between, best_cells, best_row, best_rows, board_rows, day_of, is_manual, lot_row, lot_rows, lots_after, nanoseconds_in, of_symbols, on_day, opened_best, opened_board, opened_lots, part_if_shown, part_row, parts_after, side_cells, time_in};

use nms_board::{BoardFault, Boards, Row};
use nms_quote::{Change, Part, Side, Sym};
use nms_stream::{Quoted, Tape, quoted_on};
use nms_times::{TimeOfDay, Times};
use std::alloc::{AllocError, Global};

/// The part of a day that a page shows.
#[derive(Clone, Copy)]
pub(crate) struct Window<'a> {
    /// The day on the page of each symbol of the roster, if it has one.
    pub(crate) days: &'a [Option<u64>],
    /// The times of the versions.
    pub(crate) times: Option<&'a Times>,
    /// The version before the symbol's first change, in a file sorted by symbol; else 0. It has no time.
    pub(crate) opening: u64,
    /// The first version and the last one that are shown.
    pub(crate) from: u64,
    pub(crate) to: u64,
    /// The first time and the last one at which executions are shown, in nanoseconds since midnight.
    pub(crate) since: u64,
    pub(crate) until: u64,
    /// Whether the page counts times instead of versions.
    pub(crate) timed: bool,
    /// Whether the page leaves out the boards, and has only best quotations.
    pub(crate) bests: bool,
}

impl Window<'_> {
    /// The day of a symbol, if it has one.
    pub(crate) fn day_of(&self, sym: Sym) -> Option<u64>
        ensures { result ≡ day_of self.now sym }
    {
        match self.days.get(usize::from(sym.get())) {
            Some(day) => *day,
            None => None,
        }
    }

    /// The time of a version in nanoseconds since midnight; 0 if it has none.
    pub(crate) fn time_of(&self, version: u64) -> u64
        ensures { result ≡ time_in self.now version }
    {
        match self.times {
            Some(times) if version > self.opening => nanoseconds_in(times.time_of(version)),
            Some(_) | None => 0,
        }
    }
}

/// A time in nanoseconds since midnight; 0 if there is none.
fn nanoseconds_in(time: Option<TimeOfDay>) -> u64
    ensures { result ≡ nanoseconds_in time }
{
    match time {
        Some(time) => time.since_midnight(),
        None => 0,
    }
}

/// A change, with the board before it and the board after it.
#[derive(Clone, Copy)]
pub(crate) struct Step<'a> {
    pub(crate) was: &'a Boards,
    pub(crate) board: &'a Boards,
    pub(crate) change: &'a Change,
}

/// The rows of the tables that come from the changes.
#[derive(Drop)]
pub(crate) struct Rows {
    /// The best quotations.
    pub(crate) best: Vec<[u64; 9]>,
    /// Each participant's quotations.
    pub(crate) board: Vec<[u64; 11]>,
    /// The round lots.
    pub(crate) lots: Vec<[u64; 4]>,
}

/// The rows of changes, from one version to another.
pub(crate) fn rows_of(
    alloc: Global,
    tape: &Tape<'_>,
    window: &Window<'_>,
) -> Result<Rows, BoardFault>
    requires days { length window.now.days.now ≡ length tape.now.roster.now.syms }
    requires order { window.now.from ≤ window.now.to }
    requires within { window.now.to ≤ length tape.now.changes.items }
    ensures { IfOk result (AreRows window.now (sizes_in tape.now) tape.now.changes.items window.now.from window.now.to) }
{
    let opening = Boards::new(alloc, tape.roster)?;
    let mut was = Boards::new(alloc, tape.roster)?;
    let mut board = Boards::new(alloc, tape.roster)?;
    let (before, rest) = tape.changes.split_at(window.from as usize);
    let (shown, _) = rest.split_at((window.to - window.from) as usize);
    was.apply_all(before);
    board.apply_all(before);
    let mut rows = Rows {
        best: Vec::new(alloc),
        board: Vec::new(alloc),
        lots: Vec::new(alloc),
    };
    match add_all(&mut rows, window, &opening, &mut was, &mut board, shown) {
        Ok(()) => Ok(rows),
        Err(_) => Err(BoardFault::NoMemory),
    }
}

/// Adds what is in force at the first version that is shown, and the rows of the changes after it.
fn add_all(
    rows: &mut Rows,
    window: &Window<'_>,
    opening: &Boards,
    was: &mut Boards,
    board: &mut Boards,
    changes: &[Change],
) -> Result<(), AllocError>
    requires same { was.old ≡ board.old }
    requires sizes { opening.now.sizes ≡ board.old.sizes }
    requires days { length window.now.days.now ≡ length board.old.sizes.lots }
    requires held { All (λ change. holds board.old.sizes change ≡ true) changes.now }
    requires room { board.old.applied + length changes.now ≤ MOST_CHANGES }
    ensures best { OnOk result (rows.new.best.items ≡ rows.old.best.items
        ++ opened_best window.now opening.now board.old ++ along (best_rows window.now) board.old changes.now) }
    ensures board { OnOk result (rows.new.board.items ≡ rows.old.board.items
        ++ opened_board window.now board.old ++ along (board_rows window.now) board.old changes.now) }
    ensures lots { OnOk result (rows.new.lots.items ≡ rows.old.lots.items
        ++ opened_lots window.now board.old ++ along (lot_rows window.now) board.old changes.now) }
{
    add_opened(rows, window, opening, board)?;
    add_changes(rows, window, was, board, changes)
}

/// Adds what is in force on a board: each symbol's best quotations and participants' quotations, if any, and its round lot.
fn add_opened(
    rows: &mut Rows,
    window: &Window<'_>,
    opening: &Boards,
    board: &Boards,
) -> Result<(), AllocError>
    requires sizes { opening.now.sizes ≡ board.now.sizes }
    requires days { length window.now.days.now ≡ length board.now.sizes.lots }
    ensures best { OnOk result (rows.new.best.items ≡ rows.old.best.items ++ opened_best window.now opening.now board.now) }
    ensures board { OnOk result (rows.new.board.items ≡ rows.old.board.items ++ opened_board window.now board.now) }
    ensures lots { OnOk result (rows.new.lots.items ≡ rows.old.lots.items ++ opened_lots window.now board.now) }
{
    board.stands_for_a_tape();
    for place in 0..window.days.len() as u16 {
        add_opened_symbol(rows, window, opening, board, Sym::new(place).unwrap())?;
    }
    Ok(())
}

/// Adds the quotations and the round lot of a symbol that are in force on a board, if the page shows that symbol.
fn add_opened_symbol(
    rows: &mut Rows,
    window: &Window<'_>,
    opening: &Boards,
    board: &Boards,
    sym: Sym,
) -> Result<(), AllocError>
    requires sizes { opening.now.sizes ≡ board.now.sizes }
    requires sym { sym < length board.now.sizes.lots }
    ensures best { OnOk result (rows.new.best.items ≡ rows.old.best.items
        ++ on_day (λ day. best_between window.now opening.now board.now day sym) (day_of window.now sym)) }
    ensures board { OnOk result (rows.new.board.items ≡ rows.old.board.items
        ++ on_day (λ day. flat_map (part_if_shown window.now board.now day sym) (range_with_len 0 board.now.sizes.parts))
        (day_of window.now sym)) }
    ensures lots { OnOk result (rows.new.lots.items ≡ rows.old.lots.items
        ++ on_day (λ day. lot_row window.now board.now day sym ∷ []) (day_of window.now sym)) }
{
    match window.day_of(sym) {
        Some(day) => {
            add_best(&mut rows.best, window, opening, board, day, sym)?;
            add_shown_parts(&mut rows.board, window, board, day, sym)?;
            rows.lots.push(lot_row(window, board, day, sym))?;
            Ok(())
        }
        None => Ok(()),
    }
}

/// Adds the quotations of each participant that has any.
fn add_shown_parts(
    rows: &mut Vec<[u64; 11]>,
    window: &Window<'_>,
    board: &Boards,
    day: u64,
    sym: Sym,
) -> Result<(), AllocError>
    requires { sym < length board.now.sizes.lots }
    ensures { OnOk result (rows.new.items ≡ rows.old.items ++ flat_map (part_if_shown window.now board.now day sym) (range_with_len 0 board.now.sizes.parts)) }
{
    for place in 0..board.parts() {
        add_part_if_shown(rows, window, board, day, sym, Part::new(place).unwrap())?;
    }
    Ok(())
}

/// Adds the quotations of a participant, if it has any.
fn add_part_if_shown(
    rows: &mut Vec<[u64; 11]>,
    window: &Window<'_>,
    board: &Boards,
    day: u64,
    sym: Sym,
    part: Part,
) -> Result<(), AllocError>
    requires sym { sym < length board.now.sizes.lots }
    requires part { part < board.now.sizes.parts }
    ensures { OnOk result (rows.new.items ≡ rows.old.items ++ part_if_shown window.now board.now day sym part) }
{
    let bid = board.row(Side::Bid, part, sym);
    if bid.is_some() || board.row(Side::Offer, part, sym).is_some() {
        rows.push(part_row(window, board, day, sym, part))?;
    }
    Ok(())
}

/// Adds the rows of changes. Both boards are in the state before the changes.
fn add_changes(
    rows: &mut Rows,
    window: &Window<'_>,
    was: &mut Boards,
    board: &mut Boards,
    changes: &[Change],
) -> Result<(), AllocError>
    requires same { was.old ≡ board.old }
    requires days { length window.now.days.now ≡ length board.old.sizes.lots }
    requires held { All (λ change. holds board.old.sizes change ≡ true) changes.now }
    requires room { board.old.applied + length changes.now ≤ MOST_CHANGES }
    ensures best { OnOk result (rows.new.best.items ≡ rows.old.best.items ++ along (best_rows window.now) board.old changes.now) }
    ensures board { OnOk result (rows.new.board.items ≡ rows.old.board.items ++ along (board_rows window.now) board.old changes.now) }
    ensures lots { OnOk result (rows.new.lots.items ≡ rows.old.lots.items ++ along (lot_rows window.now) board.old changes.now) }
{
    for change in changes {
        board.apply(*change);
        add_change(
            rows,
            window,
            &Step {
                was: &*was,
                board: &*board,
                change,
            },
        )?;
        was.apply(*change);
    }
    Ok(())
}

/// Adds the rows of a change.
fn add_change(rows: &mut Rows, window: &Window<'_>, step: &Step<'_>) -> Result<(), AllocError>
    requires days { length window.now.days.now ≡ length step.now.board.now.sizes.lots }
    requires sizes { step.now.was.now.sizes ≡ step.now.board.now.sizes }
    requires held { holds step.now.board.now.sizes step.now.change.now ≡ true }
    ensures best { OnOk result (rows.new.best.items ≡ rows.old.best.items
        ++ best_rows window.now step.now.was.now step.now.board.now step.now.change.now) }
    ensures board { OnOk result (rows.new.board.items ≡ rows.old.board.items
        ++ board_rows window.now step.now.was.now step.now.board.now step.now.change.now) }
    ensures lots { OnOk result (rows.new.lots.items ≡ rows.old.lots.items
        ++ lot_rows window.now step.now.was.now step.now.board.now step.now.change.now) }
{
    match *step.change {
        Change::Quote { sym, .. } | Change::State { sym, .. } | Change::Lot { sym, .. } => {
            add_symbol(rows, window, step, sym)
        }
        Change::Withdraw { .. } => add_symbols(rows, window, step),
    }
}

/// Adds the rows of a change for each symbol.
fn add_symbols(rows: &mut Rows, window: &Window<'_>, step: &Step<'_>) -> Result<(), AllocError>
    requires days { length window.now.days.now ≡ length step.now.board.now.sizes.lots }
    requires sizes { step.now.was.now.sizes ≡ step.now.board.now.sizes }
    requires held { holds step.now.board.now.sizes step.now.change.now ≡ true }
    ensures best { OnOk result (rows.new.best.items ≡ rows.old.best.items
        ++ of_symbols window.now (best_between window.now step.now.was.now step.now.board.now)
        (range_with_len 0 (length window.now.days.now))) }
    ensures board { OnOk result (rows.new.board.items ≡ rows.old.board.items
        ++ of_symbols window.now (parts_after window.now step.now.board.now step.now.change.now)
        (range_with_len 0 (length window.now.days.now))) }
    ensures lots { OnOk result (rows.new.lots.items ≡ rows.old.lots.items
        ++ of_symbols window.now (lots_after window.now step.now.board.now step.now.change.now)
        (range_with_len 0 (length window.now.days.now))) }
{
    step.board.stands_for_a_tape();
    for place in 0..window.days.len() as u16 {
        add_symbol(rows, window, step, Sym::new(place).unwrap())?;
    }
    Ok(())
}

/// Adds the rows of a change for a symbol, if the page shows that symbol.
fn add_symbol(
    rows: &mut Rows,
    window: &Window<'_>,
    step: &Step<'_>,
    sym: Sym,
) -> Result<(), AllocError>
    requires sym { sym < length step.now.board.now.sizes.lots }
    requires sizes { step.now.was.now.sizes ≡ step.now.board.now.sizes }
    requires held { holds step.now.board.now.sizes step.now.change.now ≡ true }
    ensures best { OnOk result (rows.new.best.items ≡ rows.old.best.items
        ++ on_day (λ day. best_between window.now step.now.was.now step.now.board.now day sym) (day_of window.now sym)) }
    ensures board { OnOk result (rows.new.board.items ≡ rows.old.board.items
        ++ on_day (λ day. parts_after window.now step.now.board.now step.now.change.now day sym) (day_of window.now sym)) }
    ensures lots { OnOk result (rows.new.lots.items ≡ rows.old.lots.items
        ++ on_day (λ day. lots_after window.now step.now.board.now step.now.change.now day sym) (day_of window.now sym)) }
{
    match window.day_of(sym) {
        Some(day) => {
            add_best(&mut rows.best, window, step.was, step.board, day, sym)?;
            add_parts(&mut rows.board, window, step, day, sym)?;
            add_lot(&mut rows.lots, window, step, day, sym)
        }
        None => Ok(()),
    }
}

/// Adds the best bid and best offer of a symbol on a board, if they look different on the earlier board.
fn add_best(
    best: &mut Vec<[u64; 9]>,
    window: &Window<'_>,
    was: &Boards,
    board: &Boards,
    day: u64,
    sym: Sym,
) -> Result<(), AllocError>
    requires was { sym < length was.now.sizes.lots }
    requires board { sym < length board.now.sizes.lots }
    ensures { OnOk result (best.new.items ≡ best.old.items ++ best_between window.now was.now board.now day sym) }
{
    let quoted = quoted_on(board, sym);
    if quoted_on(was, sym).is_like(&quoted) {
        return Ok(());
    }
    best.push(best_row(window, day, board.applied(), &quoted))?;
    Ok(())
}

/// The row of the best quotations at a version.
fn best_row(window: &Window<'_>, day: u64, version: u64, quoted: &Quoted) -> [u64; 9]
    ensures { result ≡ best_row window.now day version quoted.now }
{
    let time = window.time_of(version);
    let (bid, offer) = (best_cells(&quoted.bid), best_cells(&quoted.offer));
    [
        day, version, time, bid[0], bid[1], bid[2], offer[0], offer[1], offer[2],
    ]
}

/// The participant, the price and the displayed shares of a best quotation.
fn best_cells(row: &Option<Row>) -> [u64; 3]
    ensures { result ≡ best_cells row.now }
{
    match row {
        Some(row) => [
            u64::from(row.part.get()) + 1,
            row.price.get(),
            u64::from(row.size),
        ],
        None => [0, 0, 0],
    }
}

/// Adds the quotations of the participants that a change concerns.
fn add_parts(
    rows: &mut Vec<[u64; 11]>,
    window: &Window<'_>,
    step: &Step<'_>,
    day: u64,
    sym: Sym,
) -> Result<(), AllocError>
    requires sym { sym < length step.now.board.now.sizes.lots }
    requires held { holds step.now.board.now.sizes step.now.change.now ≡ true }
    ensures { OnOk result (rows.new.items ≡ rows.old.items ++ parts_after window.now step.now.board.now step.now.change.now day sym) }
{
    match *step.change {
        Change::Quote { part, .. } | Change::State { part, .. } | Change::Withdraw { part } => {
            rows.push(part_row(window, step.board, day, sym, part))?;
            Ok(())
        }
        Change::Lot { .. } => add_all_parts(rows, window, step.board, day, sym),
    }
}

/// Adds the quotations of all participants.
fn add_all_parts(
    rows: &mut Vec<[u64; 11]>,
    window: &Window<'_>,
    board: &Boards,
    day: u64,
    sym: Sym,
) -> Result<(), AllocError>
    requires { sym < length board.now.sizes.lots }
    ensures { OnOk result (rows.new.items ≡ rows.old.items ++ flat_map (λ part. part_row window.now board.now day sym part ∷ []) (range_with_len 0 board.now.sizes.parts)) }
{
    for place in 0..board.parts() {
        rows.push(part_row(window, board, day, sym, Part::new(place).unwrap()))?;
    }
    Ok(())
}

/// The row of a participant's quotations on a board.
fn part_row(window: &Window<'_>, board: &Boards, day: u64, sym: Sym, part: Part) -> [u64; 11]
    requires sym { sym < length board.now.sizes.lots }
    requires part { part < board.now.sizes.parts }
    ensures { result ≡ part_row window.now board.now day sym part }
{
    let version = board.applied();
    let (bid, offer) = (
        board.row(Side::Bid, part, sym),
        board.row(Side::Offer, part, sym),
    );
    let (bought, sold) = (side_cells(version, &bid), side_cells(version, &offer));
    [
        day,
        version,
        window.time_of(version),
        u64::from(part.get()) + 1,
        bought[0],
        bought[1],
        bought[2],
        sold[0],
        sold[1],
        sold[2],
        u64::from(is_manual(&bid) || is_manual(&offer)),
    ]
}

/// The price, the displayed shares and the age of a quotation. The age counts the versions since it took this price and size.
fn side_cells(version: u64, row: &Option<Row>) -> [u64; 3]
    ensures { result ≡ side_cells version row.now }
{
    match row {
        Some(row) => [
            row.price.get(),
            u64::from(row.size),
            version - row.receipt.min(version),
        ],
        None => [0, 0, 0],
    }
}

/// Whether a quotation is manual.
fn is_manual(row: &Option<Row>) -> bool
    ensures { result ≡ is_manual row.now }
{
    match row {
        Some(row) => !row.protected,
        None => false,
    }
}

/// Adds the round lot of a symbol, if a change sets it.
fn add_lot(
    lots: &mut Vec<[u64; 4]>,
    window: &Window<'_>,
    step: &Step<'_>,
    day: u64,
    sym: Sym,
) -> Result<(), AllocError>
    ensures { OnOk result (lots.new.items ≡ lots.old.items ++ lots_after window.now step.now.board.now step.now.change.now day sym) }
{
    match *step.change {
        Change::Quote { .. } | Change::State { .. } | Change::Withdraw { .. } => Ok(()),
        Change::Lot { .. } => {
            lots.push(lot_row(window, step.board, day, sym))?;
            Ok(())
        }
    }
}

/// The row of a symbol's round lot on a board.
fn lot_row(window: &Window<'_>, board: &Boards, day: u64, sym: Sym) -> [u64; 4]
    ensures { result ≡ lot_row window.now board.now day sym }
{
    let version = board.applied();
    let lot = match board.lot_of(sym) {
        Some(lot) => u64::from(lot.get()),
        None => 0,
    };
    [day, version, window.time_of(version), lot]
}
