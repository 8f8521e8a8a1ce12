//! The laws about reading a record and about a plan's text: `specs/Laws`, `specs/PlaceExamples`, `specs/PlanLaws` and
//! `specs/TextLaws`. The functions have no effect: their contracts are the laws.
ghost use Rattle.std.specs.Prelude.{◌≡◌, ◌<◌, ℕ, List, length, true};
ghost use Rattle.nms_quote.specs.Roster.{is_part_name, is_symbol_name, part_text, symbol_text};
ghost use Rattle.nms_lines.specs.Laws.{ReadsLeastFault};
ghost use Rattle.nms_lines.specs.PlaceExamples.{PlacesHold};
ghost use Rattle.nms_lines.specs.PlanLaws.{ReadsAsWritten};
ghost use Rattle.nms_lines.specs.TextLaws.{HasOneList, NeedsNoQuote};

use nms_quote::{Part, Roster, Sym};
use nms_units::{Money, Price, digits_read_as_printed};

/// A record is read as a fault if and only if that fault is the least that holds, and as a line if none does. The place of the
/// fault is the one in the table of faults. `specs/FaultTable` says when each fault holds.
pub fn the_least_fault_is_read()
    ensures { ReadsLeastFault }
{}

/// The worked examples of the places of faults hold.
pub fn the_worked_places_hold()
    ensures { PlacesHold }
{}

/// If a plan's numbers are in range, `read_plan` reads what `write_plan` writes as the same plan and certificate. The version
/// has at most 8 digits, at most 999,999,999 shares are filled, and each amount is strictly between -10^20 and 10^20 dollars.
pub fn a_plan_reads_as_written(roster: &Roster)
    ensures { ReadsAsWritten roster.now }
{
    no_field_of_a_plan_needs_a_quote(roster);
    part_names_are_formed(roster);
    digits_read_as_printed();
    Price::reads_what_it_prints();
    Money::reads_what_it_prints();
    roster.finds_each_name();
}

/// A text has exactly one list of records. So `read_plan` answers for a text as it answers for the text's records.
pub fn a_text_has_one_list_of_records()
    ensures { (bytes : List ℕ) → HasOneList bytes }
{}

/// The text of a plan is what `csv` writes for its records, because none of their fields needs a quote.
pub fn no_field_of_a_plan_needs_a_quote(roster: &Roster)
    ensures { NeedsNoQuote roster.now }
{
    part_names_are_formed(roster);
    symbol_names_are_formed(roster);
}

/// A law: each participant's name on a roster is 1 to 4 of A to Z and 0 to 9.
pub fn part_names_are_formed(roster: &Roster)
    ensures { (part : ℕ) → part < length roster.now.parts → is_part_name (part_text roster.now part) ≡ true }
{
    for place in 0..roster.parts() {
        part_name_is_formed(roster, place);
    }
}

/// A law: the name of the participant at a place on a roster is 1 to 4 of A to Z and 0 to 9.
fn part_name_is_formed(roster: &Roster, place: usize)
    requires { place < length roster.now.parts }
    ensures { is_part_name (part_text roster.now place) ≡ true }
{
    roster.parts();
    let part = Part::new(place as u8).unwrap();
    roster.part_name(part);
}

/// A law: each symbol's name on a roster is 1 to 8 of A to Z, 0 to 9 and the point.
pub fn symbol_names_are_formed(roster: &Roster)
    ensures { (sym : ℕ) → sym < length roster.now.syms → is_symbol_name (symbol_text roster.now sym) ≡ true }
{
    for place in 0..roster.syms() {
        symbol_name_is_formed(roster, place);
    }
}

/// A law: each symbol's name, at any place on a roster, is 1 to 8 of A to Z, 0 to 9 and the point.
fn symbol_name_is_formed(roster: &Roster, place: usize)
    requires { place < length roster.now.syms }
    ensures { is_symbol_name (symbol_text roster.now place) ≡ true }
{
    roster.syms();
    let sym = Sym::new(place as u16).unwrap();
    roster.sym_name(sym);
}
