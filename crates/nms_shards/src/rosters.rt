//! Rosters with the participants of a setup, and one symbol or none.
ghost use Rattle.std.specs.Prelude.{◌≡◌};

use nms_import::ImportFault;
use nms_quote::{Part, Roster, RosterFault};
use nms_units::Lot;
use std::alloc::Global;

/// The round lot of a symbol that the setup does not list, in shares.
const USUAL_LOT: u16 = 100;

/// A roster with the participants of another one, and no symbol.
pub(crate) fn bare_roster(alloc: Global, lent: &Roster) -> Result<Roster, ImportFault> {
    let Ok(mut roster) = Roster::new(alloc) else {
        return Err(ImportFault::NoMemory);
    };
    match add_participants(&mut roster, lent) {
        Ok(()) => Ok(roster),
        Err(_) => Err(ImportFault::NoMemory),
    }
}

/// A roster with the participants of another one, and only the given symbol.
pub(crate) fn own_roster(alloc: Global, lent: &Roster, name: &[u8]) -> Result<Roster, ImportFault> {
    let Ok(mut roster) = Roster::new(alloc) else {
        return Err(ImportFault::NoMemory);
    };
    match add_all(&mut roster, lent, name) {
        Ok(()) => Ok(roster),
        Err(_) => Err(ImportFault::NoMemory),
    }
}

/// Adds the participants of another roster, and a symbol. The symbol's round lot is that of the other roster, or 100 shares.
fn add_all(roster: &mut Roster, lent: &Roster, name: &[u8]) -> Result<(), RosterFault> {
    add_participants(roster, lent)?;
    let _ = roster.add_symbol(name, lot_lent(lent, name))?;
    Ok(())
}

/// Adds the participants of another roster, in its order.
pub(crate) fn add_participants(roster: &mut Roster, lent: &Roster) -> Result<(), RosterFault> {
    for place in 0..lent.parts() as u8 {
        let part = Part::new(place).unwrap();
        let _ = roster.add_participant(lent.part_name(part).as_bytes(), lent.feed_of(part))?;
    }
    Ok(())
}

/// The round lot that a roster lists for a symbol; 100 shares if it lists none.
pub(crate) fn lot_lent(lent: &Roster, name: &[u8]) -> Lot {
    match lent.find_sym(name) {
        Some(sym) => lent.lot_of(sym),
        None => usual_lot(),
    }
}

/// The round lot of a symbol that the setup does not list.
pub(crate) fn usual_lot() -> Lot
    ensures { result ≡ 100 }
{
    Lot::new(USUAL_LOT).unwrap()
}
