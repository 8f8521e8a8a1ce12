//! Rows that each quote one side, a bid or an offer: `specs/SideRows`.
ghost use Rattle.std.specs.Prelude.{◌≡◌, ◌<◌, IfSome, IsSome, is_some, length, true};
ghost use Rattle.csv.specs.Records.{fields_of};
ghost use Rattle.nms_quote.specs.Roster.{Listing, holds, sizes_of};
ghost use Rattle.nms_import.specs.Imported.{entry_in, given_as, given_in, made_as, side_said};
ghost use Rattle.nms_import.specs.SideRows.{agreed, both_state, content_at, content_of, half_as, is_mixed, other_side, own_side, quote_after, quote_of, side_row, sides_after, step_of, unless_halted};

use crate::cause::Cause;
use crate::column::Columns;
use crate::entry::Entry;
use crate::meanings::{Half, Meanings};
use crate::words::side_in;
use csv::ByteRecord;
use nms_quote::{Change, Part, QState, Side, SideQuote, Sym};

/// What a row of one side says.
#[derive(Clone, Copy)]
pub struct SideRow {
    /// The time of day as digits, `HHMMSSnnnnnnnnn`.
    pub time: u64,
    /// The participant that quotes.
    pub part: Part,
    /// The symbol that is quoted.
    pub sym: Sym,
    /// The side that the row quotes.
    pub side: Side,
    /// The state that the row gives its side: automated, manual or halted.
    pub state: QState,
    /// The price and the shares; `None` if the participant shows no quotation on this side.
    pub content: Option<SideQuote>,
}

/// The bid or the offer of a participant in a symbol, if it is shown.
#[derive(Clone, Copy)]
pub struct OneSide {
    /// The price and the shares.
    pub content: SideQuote,
    /// The state of the side: automated, manual or halted.
    pub state: QState,
}

/// The bid and the offer that a participant shows of a symbol.
#[derive(Clone, Copy)]
pub struct Sides {
    /// The bid, if it is shown.
    pub bid: Option<OneSide>,
    /// The offer, if it is shown.
    pub offer: Option<OneSide>,
}

impl Sides {
    ghost use Rattle.std.specs.Prelude.{◌≡◌};
    ghost use Rattle.nms_import.specs.SideRows.{is_half, no_sides};

    /// No bid and no offer.
    pub fn none() -> Sides
        ensures { result ≡ no_sides }
    {
        Sides {
            bid: None,
            offer: None,
        }
    }

    /// Whether both sides are shown, one of them manual and the other automated.
    fn is_half(&self) -> bool
        ensures { result ≡ is_half self.now.bid self.now.offer }
    {
        match (&self.bid, &self.offer) {
            (Some(bid), Some(offer)) => is_mixed(bid.state, offer.state),
            (None, _) | (Some(_), None) => false,
        }
    }
}

/// Whether only one of two states is manual, and the other automated.
fn is_mixed(bid: QState, offer: QState) -> bool
    ensures { result ≡ is_mixed bid offer }
{
    match bid {
        QState::Automated => offer == QState::Manual,
        QState::Manual => offer == QState::Automated,
        QState::Halted => false,
    }
}

impl SideRow {
    ghost use Rattle.std.specs.Prelude.{◌≡◌};
    ghost use Rattle.std.specs.Prelude.{None};
    ghost use Rattle.nms_quote.specs.declared.change.Change.TheVariants as change;
    ghost use Rattle.nms_quote.specs.declared.side_quote.QState.TheVariants.{Automated};
    ghost use Rattle.nms_import.specs.SideRows.{entry_at};

    /// A change with the row's time, and whether only one of the sides that the participant then shows is manual.
    pub fn entry(&self, sides: &Sides, change: Change) -> Entry
        ensures { result ≡ entry_at self.now sides.now change }
    {
        Entry {
            time: self.time,
            change,
            one_sided: sides.is_half(),
        }
    }

    /// The change that withdraws what the row's participant shows of the row's symbol.
    pub fn withdrawal(&self) -> Change
        ensures { result ≡ change.Quote self.now.part self.now.sym Automated None None }
    {
        Change::Quote {
            part: self.part,
            sym: self.sym,
            state: QState::Automated,
            bid: None,
            offer: None,
        }
    }
}

/// What a row of one side does to the quotation of its participant.
#[derive(Clone, Copy)]
pub struct SideStep {
    /// The change that the row makes, with its time, or why it makes none.
    pub made: Result<Entry, Cause>,
    /// The withdrawal that a refused row leaves; `None` if the row makes a change, or withdraws nothing.
    pub left: Option<Entry>,
    /// What the row's participant shows of the symbol after the row.
    pub sides: Sides,
}

/// What a row does if its participant showed the given sides of its symbol before. If refused rows withdraw, a refused row
/// leaves nothing shown.
pub fn step_of(half: Half, withdraws: bool, sides: &Sides, row: &SideRow) -> SideStep
    ensures made { entry_in result.made ≡ made_as row.now (sides_after sides.now row.now) (quote_after half sides.now row.now) }
    ensures given { given_in result.made result.left ≡ given_as row.now (step_of half withdraws sides.now row.now) }
    ensures sides { result.sides ≡ (step_of half withdraws sides.now row.now).sides }
{
    match quote_after(half, sides, row) {
        Ok(change) => {
            let after = sides_after(sides, row);
            SideStep {
                made: Ok(row.entry(&after, change)),
                left: None,
                sides: after,
            }
        }
        Err(cause) if withdraws => SideStep {
            made: Err(cause),
            left: Some(row.entry(&Sides::none(), row.withdrawal())),
            sides: Sides::none(),
        },
        Err(cause) => SideStep {
            made: Err(cause),
            left: None,
            sides: *sides,
        },
    }
}

/// What an accepted row says of its side; `None` if the file's rows have both sides. `entry` is the row, read by the columns of
/// its side.
pub fn side_said(
    columns: &Columns,
    meanings: &Meanings,
    row: &ByteRecord,
    entry: &Entry,
) -> Option<SideRow>
    ensures said { result ≡ side_said columns.now meanings.now (fields_of row.now) entry.now }
    ensures sided { IsSome result → is_some meanings.now.sides ≡ true }
    ensures there { (roster : Listing) → holds (sizes_of roster) entry.now.change ≡ true → IfSome result (λ row. row.sym < length roster.syms) }
{
    match side_in(&meanings.sides, columns.side.text(row)) {
        Some(side) => side_row(side, entry.time, &entry.change),
        None => None,
    }
}

/// What a change says of a side. The change comes from a row of one side, so that its other side is empty.
pub fn side_row(side: Side, time: u64, change: &Change) -> Option<SideRow>
    ensures row { result ≡ side_row side time change.now }
    ensures there { (roster : Listing) → holds (sizes_of roster) change.now ≡ true → IfSome result (λ row. row.sym < length roster.syms) }
{
    let Change::Quote {
        part,
        sym,
        state,
        bid,
        offer,
    } = *change
    else {
        return None;
    };
    Some(SideRow {
        time,
        part,
        sym,
        side,
        state,
        content: content_at(side, bid, offer),
    })
}

/// The bid or the offer, as the given side says.
fn content_at(side: Side, bid: Option<SideQuote>, offer: Option<SideQuote>) -> Option<SideQuote>
    ensures { result ≡ content_at side bid offer }
{
    match side {
        Side::Bid => bid,
        Side::Offer => offer,
    }
}

/// The bid and the offer that a row's participant shows of the row's symbol after the row.
pub fn sides_after(sides: &Sides, row: &SideRow) -> Sides
    ensures { result ≡ sides_after sides.now row.now }
{
    match row.side {
        Side::Bid => Sides {
            bid: own_side(row),
            offer: other_side(row.state, &sides.offer),
        },
        Side::Offer => Sides {
            bid: other_side(row.state, &sides.bid),
            offer: own_side(row),
        },
    }
}

/// The side that a row quotes; `None` if the row shows no quotation on it.
fn own_side(row: &SideRow) -> Option<OneSide>
    ensures { result ≡ own_side row.now }
{
    match row.content {
        Some(content) => Some(OneSide {
            content,
            state: row.state,
        }),
        None => None,
    }
}

/// The side that a row does not quote, after the row. A halted row halts it. After any other row it is not shown if it was
/// halted.
fn other_side(own: QState, side: &Option<OneSide>) -> Option<OneSide>
    ensures { result ≡ other_side own side.now }
{
    let Some(side) = side else {
        return None;
    };
    match own {
        QState::Halted => Some(OneSide {
            content: side.content,
            state: QState::Halted,
        }),
        QState::Automated | QState::Manual => unless_halted(side),
    }
}

/// The given side; `None` if it is halted.
fn unless_halted(side: &OneSide) -> Option<OneSide>
    ensures { result ≡ unless_halted side.now side.now.state }
{
    match side.state {
        QState::Halted => None,
        QState::Automated | QState::Manual => Some(*side),
    }
}

/// The quotation of both sides after a row, or why the row is refused.
pub fn quote_after(half: Half, sides: &Sides, row: &SideRow) -> Result<Change, Cause>
    ensures { result ≡ quote_after half sides.now row.now }
{
    quote_of(half, row, &sides_after(sides, row))
}

/// The quotation of a row's participant that shows the given sides, or why the row is refused.
fn quote_of(half: Half, row: &SideRow, sides: &Sides) -> Result<Change, Cause>
    ensures { result ≡ quote_of half row.now sides.now }
{
    match both_state(half, row.state, sides) {
        Ok(state) => Ok(Change::Quote {
            part: row.part,
            sym: row.sym,
            state,
            bid: content_of(&sides.bid),
            offer: content_of(&sides.offer),
        }),
        Err(cause) => Err(cause),
    }
}

/// The price and the shares of a side that is shown.
fn content_of(side: &Option<OneSide>) -> Option<SideQuote>
    ensures { result ≡ content_of side.now }
{
    match side {
        Some(side) => Some(side.content),
        None => None,
    }
}

/// The state of the sides that are shown. If none is shown, it is the state that the row gives.
fn both_state(half: Half, own: QState, sides: &Sides) -> Result<QState, Cause>
    ensures { result ≡ both_state half own sides.now.bid sides.now.offer }
{
    match (&sides.bid, &sides.offer) {
        (None, None) => Ok(own),
        (Some(bid), None) => Ok(bid.state),
        (None, Some(offer)) => Ok(offer.state),
        (Some(bid), Some(offer)) => agreed(half, bid.state, offer.state),
    }
}

/// The state of a quotation whose two sides have the given states. The mapping decides if one is manual and the other
/// automated.
fn agreed(half: Half, bid: QState, offer: QState) -> Result<QState, Cause>
    ensures { result ≡ agreed half bid offer }
{
    match bid {
        QState::Automated => match offer {
            QState::Automated | QState::Halted => Ok(QState::Automated),
            QState::Manual => half_as(half, Side::Offer),
        },
        QState::Manual => match offer {
            QState::Automated => half_as(half, Side::Bid),
            QState::Manual | QState::Halted => Ok(QState::Manual),
        },
        QState::Halted => Ok(QState::Halted),
    }
}

/// The state of both sides if only the given side is manual, or the cause if the mapping refuses such a row.
fn half_as(half: Half, side: Side) -> Result<QState, Cause>
    ensures { result ≡ half_as half side }
{
    match half {
        Half::Refuse => Err(Cause::OneSided(side)),
        Half::Manual => Ok(QState::Manual),
        Half::Automated => Ok(QState::Automated),
    }
}
