//! What is noted about the accepted rows: the span of each symbol, whether times fall, and whether any row shows a round lot
//! (`specs/Noted`).
ghost use Rattle.std.specs.Prelude.{◌≡◌, ◌<◌, ◌-◌, ◌^◌, None, IfOk, replicate, slice_get, slice_set, unwrap_or};
ghost use Rattle.nms_import.specs.Noted.{bound_by, is_lot_shown, is_outside, shares_shown, with_change, with_outside};

use crate::entry::Entry;
use crate::import_fault::ImportFault;
use crate::last_lines::LastLines;
use crate::mapping::Order;
use csv::ByteRecord;
use nms_quote::{Change, Roster, SideQuote, Sym};
use std::alloc::{AllocError, Global};
use std::marker::Model;

/// The changes of a symbol: the first and the last version that they made, and the time of the last.
#[derive(Clone, Copy)]
pub struct Span {
    /// The symbol.
    pub sym: Sym,
    /// The version after the symbol's first change.
    pub first: u64,
    /// The version after the symbol's last change.
    pub last: u64,
    /// The time of the symbol's last change.
    pub time: u64,
}

/// What is noted about the accepted rows.
#[derive(Drop)]
pub struct Notes {
    order: Order,
    changes: u64,
    outside: u64,
    time: u64,
    falls: bool,
    shows_lot: bool,
    spans: Vec<Option<Span>>,
    lasts: LastLines,
}

impl Model for Notes {
    ghost use Rattle.std.specs.Prelude.{◌≤◌};
    ghost use Rattle.nms_import.specs.Noted.{Noted};

    ghost Value = { Noted };

    ghost view = { λ n. record {
      order = n.order;
      changes = n.changes;
      outside = n.outside;
      time = n.time;
      falls = n.falls;
      shows_lot = n.shows_lot;
      spans = n.spans.items;
      lasts = n.lasts;
    } };

    ghost invariant = { λ n. n.outside ≤ n.changes };
}

impl Notes {
    ghost use Rattle.std.specs.Prelude.{◌≡◌, ◌<◌, ◌≤◌, ◌-◌, ◌^◌, ◌&&◌, not, length, None, IfErr, IfOk, OnErr, OnOk, slice_set};
    ghost use Rattle.csv.specs.Records.{fields_of};
    ghost use Rattle.nms_import.specs.LastLines.{after_file, after_last, in_file};
    ghost use Rattle.nms_import.specs.Noted.{after_entry, are_hours_odd, noted_nothing};

    /// The notes before any row. `count` is the place of the count in the last line of a file, counted from 0.
    pub fn new(
        alloc: Global,
        roster: &Roster,
        order: Order,
        count: Option<u16>,
    ) -> Result<Notes, AllocError>
        ensures { IfOk result (λ notes. notes ≡ noted_nothing order count (length roster.now.syms)) }
    {
        Notes::of_symbols(alloc, roster.syms(), order, count)
    }

    /// The notes before any row, with room for n symbols.
    pub fn of_symbols(
        alloc: Global,
        symbols: usize,
        order: Order,
        count: Option<u16>,
    ) -> Result<Notes, AllocError>
        ensures { IfOk result (λ notes. notes ≡ noted_nothing order count symbols) }
    {
        Ok(Notes {
            order,
            changes: 0,
            outside: 0,
            time: 0,
            falls: false,
            shows_lot: false,
            spans: no_spans(alloc, symbols)?,
            lasts: LastLines::new(count),
        })
    }

    /// How many changes there are, of accepted rows and of refused ones that withdraw.
    pub fn changes(&self) -> u64
        ensures { result ≡ self.now.changes }
    {
        self.changes
    }

    /// The time of the last change, 0 before the first.
    pub fn time(&self) -> u64
        ensures { result ≡ self.now.time }
    {
        self.time
    }

    /// Whether more than half of the changes are before 04:00 or after 20:00, when no market is open.
    pub fn are_hours_odd(&self) -> bool
        ensures { result ≡ are_hours_odd self.now }
    {
        self.outside > self.changes / 2
    }

    /// Whether the last line of a file has a wrong count of rows, or is absent, though the mapping names the count.
    pub fn is_short(&self) -> bool
        ensures { result ≡ self.now.lasts.short }
    {
        self.lasts.short
    }

    /// Begins a file, after n rows of earlier files.
    pub fn begin_file(&mut self, rows: u64)
        ensures { self.new ≡ record self.old { lasts = in_file self.old.lasts rows } }
    {
        self.lasts.begin_file(rows);
    }

    /// Notes the last line of a file. `number` is its number among the rows of all files, counted from 1.
    pub fn note_last(&mut self, row: &ByteRecord, number: u64)
        ensures { self.new ≡ record self.old { lasts = after_last self.old.lasts (fields_of row.now) number } }
    {
        self.lasts.note(row, number);
    }

    /// Ends a file, after n rows of all files.
    pub fn end_file(&mut self, rows: u64)
        ensures { self.new ≡ record self.old { lasts = after_file self.old.lasts rows } }
    {
        self.lasts.end_file(rows);
    }

    /// Whether a time is before that of an earlier row, though the mapping says that none is.
    pub(crate) fn falls(&self) -> bool
        ensures { result ≡ self.now.falls }
    {
        self.falls
    }

    /// Whether any row shows at least a round lot on a side.
    pub(crate) fn shows_lot(&self) -> bool
        ensures { result ≡ self.now.shows_lot }
    {
        self.shows_lot
    }

    /// The spans of the symbols, in the order of the roster.
    pub(crate) fn spans(&self) -> &[Option<Span>]
        ensures { result.now ≡ self.now.spans }
    {
        &self.spans
    }

    /// Begins another symbol in the first place of the roster. It has no changes yet.
    pub fn begin_symbol(&mut self)
        ensures { self.new ≡ record self.old { spans = slice_set self.old.spans 0 None } }
    {
        put(&mut self.spans, 0, None);
    }

    /// Notes a change, and returns whether its time is the first that is before an earlier one. `TooLong` comes after 2^64 - 1
    /// changes.
    pub fn note(&mut self, roster: &Roster, entry: &Entry) -> Result<bool, ImportFault>
        ensures noted { OnOk result (self.new ≡ after_entry roster.now self.old entry.now) }
        ensures first { IfOk result (λ first. first ≡ (not self.old.falls && self.new.falls)) }
        ensures full { IfErr result (λ fault. (fault ≡ ImportFault.TooLong) × (2 ^ 64 - 1 ≤ self.old.changes)) }
        ensures kept { OnErr result (self.new ≡ self.old) }
    {
        let Some(version) = self.changes.checked_add(1) else {
            return Err(ImportFault::TooLong);
        };
        let last = self.time;
        self.changes = version;
        self.outside = with_outside(self.outside, entry.time);
        self.time = entry.time;
        let Change::Quote {
            sym,
            bid,
            offer,
            ..
        } = entry.change
        else {
            return Ok(false);
        };
        let place = usize::from(sym.get());
        let span = span_at(&self.spans, place);
        let falls = entry.time < bound_by(self.order, last, &span);
        let is_first = !self.falls && falls;
        self.falls = self.falls || falls;
        self.shows_lot = self.shows_lot || is_lot_shown(roster, sym, &bid, &offer);
        put(
            &mut self.spans,
            place,
            Some(with_change(&span, sym, version, entry.time)),
        );
        Ok(is_first)
    }
}

/// The changes of n symbols, none of which has any yet.
fn no_spans(alloc: Global, symbols: usize) -> Result<Vec<Option<Span>>, AllocError>
    ensures { IfOk result (λ spans. spans.items ≡ replicate symbols None) }
{
    let mut spans = Vec::new(alloc);
    spans.resize(symbols, None)?;
    Ok(spans)
}

/// The changes of the symbol at a place; `None` past the last.
fn span_at(spans: &[Option<Span>], place: usize) -> Option<Span>
    ensures { result ≡ unwrap_or (slice_get spans.now place) None }
{
    if place < spans.len() {
        spans[place]
    } else {
        None
    }
}

/// Puts the changes of the symbol at a place. Past the last place it does nothing.
fn put(spans: &mut [Option<Span>], place: usize, span: Option<Span>)
    ensures { spans.new ≡ slice_set spans.old place span }
{
    if place < spans.len() {
        spans[place] = span;
    }
}

/// The given count, with one more if a time is before 04:00 or after 20:00.
fn with_outside(count: u64, time: u64) -> u64
    requires { count < 2 ^ 64 - 1 }
    ensures { result ≡ with_outside count time }
{
    if is_outside(time) { count + 1 } else { count }
}

/// Whether a time is before 04:00 or after 20:00.
fn is_outside(time: u64) -> bool
    ensures { result ≡ is_outside time }
{
    time < 40_000_000_000_000 || time > 200_000_000_000_000
}

/// The earliest time that a row may have, in the order that the mapping says. It follows from the last row, or from the last
/// change of the row's symbol.
fn bound_by(order: Order, time: u64, span: &Option<Span>) -> u64
    ensures { result ≡ bound_by order time span.now }
{
    match order {
        Order::Given => time,
        Order::Symbol => match span {
            Some(span) => span.time,
            None => 0,
        },
        Order::Free => 0,
    }
}

/// The span of a symbol's changes after one more change.
fn with_change(span: &Option<Span>, sym: Sym, version: u64, time: u64) -> Span
    ensures { result ≡ with_change span.now sym version time }
{
    let first = match span {
        Some(span) => span.first,
        None => version,
    };
    Span {
        sym,
        first,
        last: version,
        time,
    }
}

/// Whether a side shows at least the symbol's round lot.
fn is_lot_shown(
    roster: &Roster,
    sym: Sym,
    bid: &Option<SideQuote>,
    offer: &Option<SideQuote>,
) -> bool
    ensures { result ≡ is_lot_shown roster.now sym bid.now offer.now }
{
    if !roster.has_sym(sym) {
        return false;
    }
    let lot = u32::from(roster.lot_of(sym).get());
    lot <= shares_shown(bid) || lot <= shares_shown(offer)
}

/// The shares of a side, 0 if there is no quotation.
fn shares_shown(side: &Option<SideQuote>) -> u32
    ensures { result ≡ shares_shown side.now }
{
    match side {
        Some(quote) => quote.shares.get(),
        None => 0,
    }
}
