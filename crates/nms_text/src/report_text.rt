ghost use Rattle.std.specs.Prelude.{◌≡◌, ◌<◌, All, Some, length, List, ℕ, IfErr, OnOk};
ghost use Rattle.std.specs.List.{flat_map};
ghost use Rattle.std.specs.Io.KnownBytes.{Appends};
ghost use Rattle.nms_units.specs.Price.{price_text};
ghost use Rattle.nms_quote.specs.declared.side_quote.Side.{Side};
ghost use Rattle.nms_board.specs.View.{rows_on};
ghost use Rattle.nms_nbbo.specs.Pairs.{pairs_from};
ghost use Rattle.nms_text.specs.Report.{IsReport, at_right, clause_word, header_line, is_best, mark_word, pair_line, pair_word, pairs_text, row_line, side_text, state_word};

use crate::answer::word_of_market;
use crate::script_fault::ScriptFault;
use nms_board::{Row, View};
use nms_lines::word_of_side;
use nms_nbbo::{Clause, Market, Pair, PairPlace, best, market_between, next_pair};
use nms_quote::{Roster, Side};
use nms_units::Price;
use std::io::Write;
use std::{fmt, io};

/// Writes the report of one symbol. It has the version and market, the bids and the offers by participant place, and the pairs
/// that lock or cross in order of place. Each row and each pair has its own line.
///
/// Takes no memory, and makes many small writes: pass a buffered writer. `WriteFault` is its only fault, and does not say how
/// much was written.
pub fn report<W: Write>(view: &View, roster: &Roster, writer: &mut W) -> Result<(), ScriptFault>
    requires sym { view.now.sym < length roster.now.syms }
    requires parts { (side : Side) → All (λ row. row.part < length roster.now.parts) (rows_on side view.now) }
    ensures written { OnOk result ((text : List ℕ) × IsReport roster.now view.now text × Appends (W.contents writer.old) (W.contents writer.new) text) }
    ensures refused { IfErr result (λ fault. fault ≡ ScriptFault.WriteFault) }
{
    match write_report(view, roster, writer) {
        Ok(()) => Ok(()),
        Err(_) => Err(ScriptFault::WriteFault),
    }
}

/// Writes the header, both sides and the pairs.
fn write_report<W: Write>(view: &View, roster: &Roster, writer: &mut W) -> io::Result<()>
    requires sym { view.now.sym < length roster.now.syms }
    requires parts { (side : Side) → All (λ row. row.part < length roster.now.parts) (rows_on side view.now) }
    ensures { OnOk result ((text : List ℕ) × IsReport roster.now view.now text × Appends (W.contents writer.old) (W.contents writer.new) text) }
{
    let bid = best(view, Side::Bid);
    let offer = best(view, Side::Offer);
    write_header(writer, roster, view, market_between(bid, offer))?;
    write_side(writer, roster, view, Side::Bid, &bid)?;
    write_side(writer, roster, view, Side::Offer, &offer)?;
    write_pairs(writer, roster, view)
}

/// Writes the symbol, the version and the market.
fn write_header<W: Write>(
    writer: &mut W,
    roster: &Roster,
    view: &View,
    market: Market,
) -> io::Result<()>
    requires { view.now.sym < length roster.now.syms }
    ensures { OnOk result (Appends (W.contents writer.old) (W.contents writer.new) (header_line roster.now view.now market)) }
{
    let sym = roster.sym_name(view.sym());
    let version = view.version();
    let market = word_of_market(market);
    writeln!(writer, "{sym:<8} {version:>8} {market}")
}

/// Writes the rows of a side by participant place.
fn write_side<W: Write>(
    writer: &mut W,
    roster: &Roster,
    view: &View,
    side: Side,
    best: &Option<Row>,
) -> io::Result<()>
    requires { All (λ row. row.part < length roster.now.parts) (rows_on side view.now) }
    ensures { OnOk result (Appends (W.contents writer.old) (W.contents writer.new) (side_text roster.now view.now side best.now)) }
{
    for row in view.rows(side) {
        write_row(writer, roster, side, best, row)?;
    }
    Ok(())
}

/// Writes a row of a side, with a star if its participant is that of the side's best row.
fn write_row<W: Write>(
    writer: &mut W,
    roster: &Roster,
    side: Side,
    best: &Option<Row>,
    row: &Row,
) -> io::Result<()>
    requires { row.now.part < length roster.now.parts }
    ensures { OnOk result (Appends (W.contents writer.old) (W.contents writer.new) (row_line roster.now side best.now row.now)) }
{
    let side = word_of_side(side);
    let part = roster.part_name(row.part);
    let price = PriceColumn(row.price);
    let size = row.size;
    let receipt = row.receipt;
    let state = word_of_state(row.protected);
    let mark = mark_of(is_best(best, row));
    write!(writer, "{side:<5} {part:<4} {price} ")?;
    writeln!(writer, "{size:>9} {receipt:>8} {state} {mark}")
}

/// Writes the pairs that lock or cross, each once.
fn write_pairs<W: Write>(writer: &mut W, roster: &Roster, view: &View) -> io::Result<()>
    requires { (side : Side) → All (λ row. row.part < length roster.now.parts) (rows_on side view.now) }
    ensures { OnOk result (Appends (W.contents writer.old) (W.contents writer.new) (pairs_text roster.now view.now)) }
{
    let first = PairPlace::new(0).unwrap();
    write_pairs_from(writer, roster, view, first)
}

/// Writes the pairs that lock or cross, from a place of the walk over the pairs on.
fn write_pairs_from<W: Write>(
    writer: &mut W,
    roster: &Roster,
    view: &View,
    from: PairPlace,
) -> io::Result<()>
    requires { (side : Side) → All (λ row. row.part < length roster.now.parts) (rows_on side view.now) }
    ensures { OnOk result (Appends (W.contents writer.old) (W.contents writer.new) (flat_map (pair_line roster.now) (pairs_from from view.now))) }
{
    let mut place = from;
    while let Some((pair, behind)) = next_pair(view, place) {
        write_pair(writer, roster, &pair)?;
        place = behind;
    }
    Ok(())
}

/// Writes a pair that locks or crosses.
fn write_pair<W: Write>(writer: &mut W, roster: &Roster, pair: &Pair) -> io::Result<()>
    requires bid { pair.now.bid.part < length roster.now.parts }
    requires offer { pair.now.offer.part < length roster.now.parts }
    requires later { pair.now.later < length roster.now.parts }
    ensures { OnOk result (Appends (W.contents writer.old) (W.contents writer.new) (pair_line roster.now pair.now)) }
{
    let word = word_of_pair(pair.crossed);
    let bid = roster.part_name(pair.bid.part);
    let offer = roster.part_name(pair.offer.part);
    let later = roster.part_name(pair.later);
    let clause = word_of_clause(pair.clause);
    writeln!(writer, "{word:<5} {bid:<4} {offer:<4} {later:<4} {clause}")
}

/// A price at the right of a column with 12 characters.
#[derive(Clone, Copy)]
struct PriceColumn(Price);

impl fmt::Display for PriceColumn {
    ghost output = { λ column. Some (at_right 12 (price_text column.0)) };

    /// Writes seven places for the dollars, the point, and four decimals.
    fn fmt<W: fmt::Write>(&self, f: &mut fmt::Formatter<W>) -> fmt::Result {
        let number = self.0.get();
        let dollars = number / 10_000;
        let (a, b) = (number / 1000 % 10, number / 100 % 10);
        let (c, d) = (number / 10 % 10, number % 10);
        write!(f, "{dollars:>7}.{a}{b}{c}{d}")
    }
}

/// Whether a row is that of the best row's participant.
fn is_best(best: &Option<Row>, row: &Row) -> bool
    ensures { result ≡ is_best best.now row.now }
{
    match best {
        None => false,
        Some(best) => best.part == row.part,
    }
}

fn word_of_state(protected: bool) -> &'static str
    ensures { result.now ≡ state_word protected }
{
    if protected { "P" } else { "M" }
}

fn mark_of(best: bool) -> &'static str
    ensures { result.now ≡ mark_word best }
{
    if best { "*" } else { "-" }
}

/// The word for a pair of quotations: whether they cross or lock.
pub fn word_of_pair(crossed: bool) -> &'static str
    ensures { result.now ≡ pair_word crossed }
{
    if crossed { "CROSS" } else { "LOCK" }
}

/// The word for the clause of a pair: the earlier quotation is protected, or the later one manual, or neither.
pub fn word_of_clause(clause: Clause) -> &'static str
    ensures { result.now ≡ clause_word clause }
{
    match clause {
        Clause::Protected => "PROTECTED",
        Clause::Manual => "MANUAL",
        Clause::Neither => "NEITHER",
    }
}
