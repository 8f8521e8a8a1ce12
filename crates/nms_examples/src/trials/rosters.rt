//! How many participants and symbols a roster takes, and which changes are of it.
use super::same;
use nms_board::Boards;
use nms_quote::{Change, Feed, Part, QState, Roster, RosterFault, Sym};
use nms_units::Lot;
use std::alloc::Global;
use std::test::Fail;

pub(super) fn try_all(alloc: Global) -> Result<(), Fail> {
    a_roster_holds_what_is_of_it_alone(alloc, &mut Roster::new(alloc)?)?;
    a_roster_takes_32_participants_and_tells_each_refusal(alloc, &mut Roster::new(alloc)?)?;
    a_roster_takes_1000_symbols_and_tells_each_refusal(alloc, &mut Roster::new(alloc)?)
}

fn participant_added(roster: &mut Roster, name: &str) -> Result<u16, RosterFault> {
    let part = roster.add_participant(name.as_bytes(), Feed::A)?;
    Ok(u16::from(part.get()))
}

fn symbol_added(roster: &mut Roster, name: &str) -> Result<u16, RosterFault> {
    let sym = roster.add_symbol(name.as_bytes(), Lot::new(100).unwrap())?;
    Ok(sym.get())
}

/// A name that is the decimal number of a place.
fn named(alloc: Global, place: u16) -> Result<String, Fail> {
    Ok(format!(in alloc; "{place}")?)
}

/// Adds participant N and 31 more, each named by its place. It compares the refusals before and after. A board of this roster is
/// empty.
fn a_roster_takes_32_participants_and_tells_each_refusal(
    alloc: Global,
    roster: &mut Roster,
) -> Result<(), Fail> {
    for (name, told) in [
        ("ABCDE", Err(RosterFault::BadName)),
        ("N", Ok(0)),
        ("N", Err(RosterFault::Duplicate)),
    ] {
        same(participant_added(roster, name), told)?;
    }
    for place in 1..32u16 {
        let name = named(alloc, place)?;
        same(participant_added(roster, name.as_str()), Ok(place))?;
    }
    for (name, fault) in [
        ("32", RosterFault::TooMany),
        ("31", RosterFault::Duplicate),
        ("N", RosterFault::Duplicate),
        ("n", RosterFault::BadName),
        ("ABCDE", RosterFault::BadName),
    ] {
        same(participant_added(roster, name), Err(fault))?;
    }
    same(Boards::new(alloc, roster)?.applied(), 0)
}

/// Adds 1,000 symbols, each named by its place. One more symbol, a name given twice and a wrong name are refused.
fn a_roster_takes_1000_symbols_and_tells_each_refusal(
    alloc: Global,
    roster: &mut Roster,
) -> Result<(), Fail> {
    for place in 0..1000u16 {
        let name = named(alloc, place)?;
        same(symbol_added(roster, name.as_str()), Ok(place))?;
    }
    for (name, fault) in [
        ("AAPL", RosterFault::TooMany),
        ("999", RosterFault::Duplicate),
        ("aapl", RosterFault::BadName),
    ] {
        same(symbol_added(roster, name), Err(fault))?;
    }
    Ok(())
}

/// A halt of the participant at a place in the symbol at a place.
fn state_at(part: u8, sym: u16) -> Option<Change> {
    Some(Change::State {
        part: Part::new(part)?,
        sym: Sym::new(sym)?,
        state: QState::Halted,
    })
}

/// Compares what a roster of one participant and one symbol holds, and what its board takes.
fn try_holding(roster: &Roster, boards: &Boards) -> Result<(), Fail> {
    for (part, sym, told) in [(0, 0, true), (1, 0, false), (0, 1, false), (1, 1, false)] {
        let Some(change) = state_at(part, sym) else {
            return Err(Fail::new("a change"));
        };
        same((roster.holds(&change), boards.takes(&change)), (told, told))?;
    }
    Ok(())
}

fn a_roster_holds_what_is_of_it_alone(alloc: Global, roster: &mut Roster) -> Result<(), Fail> {
    same(participant_added(roster, "N"), Ok(0))?;
    same(symbol_added(roster, "ABC"), Ok(0))?;
    try_holding(roster, &Boards::new(alloc, roster)?)
}
