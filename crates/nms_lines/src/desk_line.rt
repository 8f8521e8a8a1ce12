//! Reading the records of desks, `L`, `N`, `E` and `O`: `specs/Lines`.
ghost use Rattle.std.specs.Prelude.{◌≡◌, IfOk, true};
ghost use Rattle.csv.specs.Records.{fields_of};
ghost use Rattle.nms_quote.specs.Roster.{Listing};
ghost use Rattle.nms_lines.specs.LineOf.{IsLineOf};
ghost use Rattle.nms_lines.specs.Lines.{best_reading, sweep_reading, tell_reading, through_reading};
ghost use Rattle.nms_lines.specs.Sources.{brings, desks_of};

use crate::letter::{flag_in, side_at};
use crate::line::{Kind, Line, Reading};
use crate::line_fault::PlacedFault;
use crate::name::symbol_at;
use crate::named::self_help_in;
use crate::number::{desk_at, price_at, shares_at};
use csv::ByteRecord;
use nms_quote::{Order, Roster};

/// Reads the record that reports the published version to a desk: `L,desk`.
pub(crate) fn tell_line(row: &ByteRecord, from: Reading) -> Result<Line, PlacedFault>
    ensures line { result ≡ tell_reading from (fields_of row.now) }
    ensures of { brings from Kind.Tell ≡ true → (roster : Listing) → IfOk result (IsLineOf roster from) }
{
    let desk = desk_at(desks_of(from), row, 1)?;
    Ok(Line::Tell { desk })
}

/// Reads the record of a desk that asks for the national best bid and offer of a symbol: `N,desk,sym`.
pub(crate) fn best_line(
    row: &ByteRecord,
    roster: &Roster,
    from: Reading,
) -> Result<Line, PlacedFault>
    ensures line { result ≡ best_reading roster.now from (fields_of row.now) }
    ensures of { brings from Kind.Best ≡ true → IfOk result (IsLineOf roster.now from) }
{
    let sym = symbol_at(roster, row, 2)?;
    let desk = desk_at(desks_of(from), row, 1)?;
    Ok(Line::Best { desk, sym })
}

/// Reads the record of a desk that asks what a trade at a price trades through: `E,desk,sym,price`.
pub(crate) fn through_line(
    row: &ByteRecord,
    roster: &Roster,
    from: Reading,
) -> Result<Line, PlacedFault>
    ensures line { result ≡ through_reading roster.now from (fields_of row.now) }
    ensures of { brings from Kind.Through ≡ true → IfOk result (IsLineOf roster.now from) }
{
    let sym = symbol_at(roster, row, 2)?;
    let price = price_at(row, 3)?;
    let desk = desk_at(desks_of(from), row, 1)?;
    Ok(Line::Through { desk, sym, price })
}

/// Reads the record of an order that a desk plans: `O,desk,side,sym,shares,limit`, then the flag `M`, then the participants
/// that the order names.
pub(crate) fn sweep_line(
    row: &ByteRecord,
    roster: &Roster,
    from: Reading,
) -> Result<Line, PlacedFault>
    ensures line { result ≡ sweep_reading roster.now from (fields_of row.now) }
    ensures of { brings from Kind.Sweep ≡ true → IfOk result (IsLineOf roster.now from) }
{
    let self_help = self_help_in(row, roster)?;
    let sym = symbol_at(roster, row, 3)?;
    let side = side_at(row, 2)?;
    let manual = flag_in(row)?;
    let limit = price_at(row, 5)?;
    let shares = shares_at(row, 4)?;
    let desk = desk_at(desks_of(from), row, 1)?;
    let order = Order::new(side, sym, shares, limit, manual, self_help).unwrap();
    Ok(Line::Sweep { desk, order })
}

/// The number of desks that the records of a source may name. It is 0 for a feed and for a file of changes, which have no
/// records of desks.
fn desks_of(from: Reading) -> u8
    ensures { result ≡ desks_of from }
{
    match from {
        Reading::Script { desks } | Reading::Orders { desks } => desks,
        Reading::FromFeed(_) | Reading::Changes => 0,
    }
}
