//! The law of the text of changes: `specs/ReadBack`. The functions have no effect: their contracts are the laws.
ghost use Rattle.std.specs.Prelude.{◌≡◌};
ghost use Rattle.nms_change_text.specs.ReadBack.{ChangesReadAsWritten, IsInRange, IsSideInRange};

use nms_lines::{part_names_are_formed, symbol_names_are_formed};
use nms_quote::{Change, Roster, SideQuote};
use nms_units::{Money, Price, digits_read_as_printed};

/// `append_changes` writes changes of the roster as a text of their records and no others. Each record is read as its change
/// from a script, a file of changes, and its own feed.
pub fn changes_read_as_written(roster: &Roster)
    ensures { ChangesReadAsWritten roster.now }
{
    part_names_are_formed(roster);
    symbol_names_are_formed(roster);
    digits_read_as_printed();
    Price::reads_what_it_prints();
    Money::reads_what_it_prints();
    roster.finds_each_name();
}

/// The numbers of each change are in the ranges that a record can hold, by its types.
pub fn a_change_is_in_range(change: &Change)
    ensures { IsInRange change.now }
{
    match *change {
        Change::Quote { bid, offer, .. } => {
            a_side_is_in_range(&bid);
            a_side_is_in_range(&offer);
        }
        Change::State { .. } | Change::Withdraw { .. } => {}
        Change::Lot { lot, .. } => {
            lot.get();
        }
    }
}

/// The numbers of a side are in the ranges that its fields can hold.
fn a_side_is_in_range(side: &Option<SideQuote>)
    ensures { IsSideInRange side.now }
{
    if let Some(quote) = *side {
        quote.price.get();
        quote.shares.get();
    }
}
