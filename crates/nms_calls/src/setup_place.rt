//! Why a text is no setup, and the place of the fault: `specs/SetupPlaces`.
ghost use Rattle.std.specs.Prelude.{◌≡◌, IfErr, OnErr, OnOk};
ghost use Rattle.nms_calls.specs.SetupPlaces.{IsPlaceOf, element_of, key_number, least, lesser, no_document, no_place, place_of, placed, spot_number, table_number, twin_of};

use crate::call_fault::{CallFault, setup_code};
use nms_fees::SetupFault;
use nms_setup_places::{Examined, Finding, KnownKey, SetupTable, Spot, examine};
use std::alloc::Global;
use std::str;

/// Why a text is no setup, and where. All numbers are 0 if the text is a setup.
#[repr(C)]
#[derive(Clone, Copy)]
pub struct NmsPlace {
    /// The kind of the fault, 1 to 8 for C1 to C8.
    pub code: u32,
    /// The part of the text with the fault: 1 the document itself, 2 an element of `participant`, 3 an element of `symbol`. 0 if
    /// the text is no document.
    pub table: u32,
    /// 1 to 12 for a key that is missing or has a wrong value; 13 for a key that is not allowed there; 14 for a name that an
    /// earlier element has; 15 for an element that is no table. 0 if the text is no document.
    pub spot: u32,
    /// Always 0.
    pub spare: u32,
    /// The place, counted from 0, of the element with the fault in its array. 0 if the fault is in no element.
    pub element: u64,
    /// If an earlier element has the same name, the place of that element in its array; else 0.
    pub twin: u64,
    /// If the text is no document, how many bytes come before the place at which reading stopped, else 0.
    pub start: u64,
    /// If the text is no document, how many bytes come before the end of what was not expected, else 0.
    pub end: u64,
}

/// Writes why a text is no setup, and where: the first of the faults with the least code. A text that is not UTF-8 is refused
/// from its first byte to its last. Takes memory and gives it back; `NoMemory` if out of memory.
pub fn put_setup_place(alloc: Global, text: &[u8], out: &mut NmsPlace) -> Result<(), CallFault>
    ensures placed { OnOk result (IsPlaceOf text.now out.new) }
    ensures refused { IfErr result (λ fault. fault ≡ CallFault.Setup SetupFault.NoMemory) }
    ensures unwritten { OnErr result (out.new ≡ out.old) }
{
    let Ok(text) = str::from_utf8(text) else {
        *out = NmsPlace::no_document(0, text.len());
        return Ok(());
    };
    match examine(alloc, text) {
        Ok(Examined::NoToml(place)) => {
            *out = NmsPlace::no_document(place.start, place.end);
            Ok(())
        }
        Ok(Examined::Document(_, found)) => {
            *out = placed(least(found.as_slice()));
            Ok(())
        }
        Err(_) => Err(CallFault::Setup(SetupFault::NoMemory)),
    }
}

/// The first of a setup's faults with the least code.
fn least(found: &[Finding]) -> Option<Finding>
    ensures { result ≡ least found.now }
{
    let mut first = None;
    for later in 0..found.len() {
        let place = found.len() - 1 - later;
        first = Some(lesser(found[place], first));
    }
    first
}

/// The one of two faults that has the smaller code. If their codes are equal, it is the earlier one.
fn lesser(found: Finding, later: Option<Finding>) -> Finding
    ensures { result ≡ lesser found later }
{
    match later {
        Some(later) if setup_code(later.fault) < setup_code(found.fault) => later,
        Some(_) | None => found,
    }
}

/// The numbers of a fault's place, all 0 if there is none.
fn placed(found: Option<Finding>) -> NmsPlace
    ensures { result ≡ placed found }
{
    match found {
        Some(found) => NmsPlace::of(found),
        None => NmsPlace::none(),
    }
}

impl NmsPlace {
    /// The numbers if a text has no fault: all are 0.
    fn none() -> Self
        ensures { result ≡ no_place }
    {
        NmsPlace {
            code: 0,
            table: 0,
            spot: 0,
            spare: 0,
            element: 0,
            twin: 0,
            start: 0,
            end: 0,
        }
    }

    /// The place in a text that is no document. The two numbers are the bytes before what was not expected, and before its end.
    fn no_document(start: usize, end: usize) -> Self
        ensures { result ≡ no_document start end }
    {
        NmsPlace {
            code: 1,
            table: 0,
            spot: 0,
            spare: 0,
            element: 0,
            twin: 0,
            start: start as u64,
            end: end as u64,
        }
    }

    /// The numbers of a fault's place.
    fn of(found: Finding) -> Self
        ensures { result ≡ place_of found }
    {
        NmsPlace {
            code: setup_code(found.fault),
            table: table_number(found.table),
            spot: spot_number(found.spot),
            spare: 0,
            element: element_of(found.table),
            twin: twin_of(found.spot),
            start: 0,
            end: 0,
        }
    }
}

/// The number of the part of a setup that has a fault: 1 the document itself, 2 a participant, 3 a symbol.
fn table_number(table: SetupTable) -> u32
    ensures { result ≡ table_number table }
{
    match table {
        SetupTable::Top => 1,
        SetupTable::Participant(_) => 2,
        SetupTable::Symbol(_) => 3,
    }
}

/// The place, counted from 0, of a participant or a symbol among the setup's. It is 0 for the document itself.
fn element_of(table: SetupTable) -> u64
    ensures { result ≡ element_of table }
{
    match table {
        SetupTable::Top => 0,
        SetupTable::Participant(place) | SetupTable::Symbol(place) => place as u64,
    }
}

/// The number of what is wrong at a place: 1 to 12 a key, 13 an unknown key, 14 a repeated name, 15 no table.
fn spot_number(spot: Spot) -> u32
    ensures { result ≡ spot_number spot }
{
    match spot {
        Spot::Key(key) => key_number(key),
        Spot::OtherKeys => 13,
        Spot::NameOf(_) => 14,
        Spot::Element => 15,
    }
}

/// The place of the earlier element that has the same name. It is 0 if the fault is not a repeated name.
fn twin_of(spot: Spot) -> u64
    ensures { result ≡ twin_of spot }
{
    match spot {
        Spot::NameOf(first) => first as u64,
        Spot::Key(_) | Spot::OtherKeys | Spot::Element => 0,
    }
}

/// The number of a key that a setup may have, 1 to 12.
fn key_number(key: KnownKey) -> u32
    ensures { result ≡ key_number key }
{
    match key {
        KnownKey::TapeLimit => 1,
        KnownKey::Queue => 2,
        KnownKey::Desks => 3,
        KnownKey::Caps => 4,
        KnownKey::Feeds => 5,
        KnownKey::Participant => 6,
        KnownKey::Symbol => 7,
        KnownKey::Name => 8,
        KnownKey::Feed => 9,
        KnownKey::Fee => 10,
        KnownKey::Rate => 11,
        KnownKey::Lot => 12,
    }
}
