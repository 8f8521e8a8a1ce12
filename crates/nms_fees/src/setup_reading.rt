//! Reading a setup from the text of its document: `specs/Setup`.
ghost use Rattle.std.specs.Prelude.{◌≡◌, ◌≢◌, [], ◌∷◌, ◌++◌, map, None, Ok, Err, OnOk, IfOk, IfErr};
ghost use Rattle.toml.specs.View.{view, table_view};
ghost use Rattle.nms_quote.specs.Roster.{part_refusal, sym_refusal};
ghost use Rattle.nms_fees.specs.declared.section.Section.TheVariants as section;
ghost use Rattle.nms_fee_book.specs.Fees.{AreCapped};
ghost use Rattle.nms_fees.specs.Places.{rows_fault, document_fault, IsSound, AreSound};
ghost use Rattle.nms_fees.specs.Setup.{IsRefused, IsSetupOf, text_at, number_at, table_of, participant_of, schedule_of, symbol_of, settings_of, reading};

use crate::check::document_fault;
use crate::choices::{Choices, choices_in};
use crate::feed_name::feed_named;
use crate::setup::Setup;
use crate::setup_fault::SetupFault;
use crate::toml_table::{count_at, number_at, rows_at, text_at};
use nms_fee_book::{FeeBook, FeeSchedule};
use nms_quote::{Feed, Roster};
use nms_units::Lot;
use std::alloc::Global;
use std::str;
use toml::{Table, Value};

/// Reads a setup from a TOML document.
///
/// The error is the fault of least number anywhere in the text. If memory was short, `NoMemory` may come instead of any later
/// answer.
pub fn read_setup(alloc: Global, text: &str) -> Result<Setup, SetupFault>
    ensures read { IfOk result (λ setup. reading text.now ≡ Ok setup) }
    ensures refused { IfErr result (λ fault. fault ≢ SetupFault.NoMemory → reading text.now ≡ Err fault) }
    ensures capped { IfOk result (λ setup. AreCapped setup.fees.caps setup.fees.schedules) }
{
    let document = match toml::table_from_str(alloc, text) {
        Ok(document) => document,
        Err(fault) => {
            return Err(if fault.is_memory() {
                SetupFault::NoMemory
            } else {
                SetupFault::NotToml
            });
        }
    };
    if let Some(fault) = document_fault(alloc, &document)? {
        return Err(fault);
    }
    settings_of(alloc, &document)
}

/// Reads a setup from the bytes of a file. Bytes that are not UTF-8 are not a TOML document.
///
/// The error is the fault of least number anywhere in the text. If memory was short, `NoMemory` may come instead of any later
/// answer.
pub fn read_setup_bytes(alloc: Global, bytes: &[u8]) -> Result<Setup, SetupFault>
    ensures read { IfOk result (λ setup. IsSetupOf bytes.now setup) }
    ensures refused { IfErr result (λ fault. fault ≢ SetupFault.NoMemory → IsRefused bytes.now fault) }
{
    match str::from_utf8(bytes) {
        Ok(text) => read_setup(alloc, text),
        Err(_) => Err(SetupFault::NotToml),
    }
}

/// The setup that a document without a fault gives.
fn settings_of(alloc: Global, document: &Table) -> Result<Setup, SetupFault>
    requires { document_fault (table_view document.now) ≡ None }
    ensures value { IfOk result (λ setup. setup ≡ settings_of (table_view document.now)) }
    ensures memory { IfErr result (λ fault. fault ≡ SetupFault.NoMemory) }
{
    let participants = rows_at(document, "participant");
    let symbols = rows_at(document, "symbol");
    let chosen = choices_in(document);
    // The roster is made last, so that no early return has to drop one.
    Ok(Setup {
        fees: fees_of(alloc, chosen, participants)?,
        roster: roster_of(alloc, participants, symbols)?,
        tape_limit: count_at(document, "tape_limit"),
        queue: count_at(document, "queue") as usize,
        desks: count_at(document, "desks") as u8,
        feeds: chosen.feeds,
    })
}

/// The roster that the arrays of participants and symbols give.
fn roster_of(alloc: Global, participants: &[Value], symbols: &[Value]) -> Result<Roster, SetupFault>
    requires participants { AreSound section.Participant (map view participants.now) }
    requires symbols { AreSound section.Symbol (map view symbols.now) }
    ensures parts { IfOk result (λ roster. roster.parts ≡ map participant_of (map view participants.now)) }
    ensures syms { IfOk result (λ roster. roster.syms ≡ map symbol_of (map view symbols.now)) }
    ensures memory { IfErr result (λ fault. fault ≡ SetupFault.NoMemory) }
{
    let Ok(mut roster) = Roster::new(alloc) else {
        return Err(SetupFault::NoMemory);
    };
    match fill_roster(&mut roster, participants, symbols) {
        Ok(()) => Ok(roster),
        Err(fault) => Err(fault),
    }
}

/// Adds the participants and the symbols of two arrays to an empty roster.
fn fill_roster(
    roster: &mut Roster,
    participants: &[Value],
    symbols: &[Value],
) -> Result<(), SetupFault>
    requires empty { (roster.old.parts ≡ []) × (roster.old.syms ≡ []) }
    requires participants { AreSound section.Participant (map view participants.now) }
    requires symbols { AreSound section.Symbol (map view symbols.now) }
    ensures parts { OnOk result (roster.new.parts ≡ map participant_of (map view participants.now)) }
    ensures syms { OnOk result (roster.new.syms ≡ map symbol_of (map view symbols.now)) }
    ensures memory { IfErr result (λ fault. fault ≡ SetupFault.NoMemory) }
{
    add_participants(roster, participants)?;
    add_symbols(roster, symbols)
}

fn add_participants(roster: &mut Roster, rows: &[Value]) -> Result<(), SetupFault>
    requires empty { roster.old.parts ≡ [] }
    requires sound { AreSound section.Participant (map view rows.now) }
    ensures parts { OnOk result (roster.new.parts ≡ map participant_of (map view rows.now)) }
    ensures syms { OnOk result (roster.new.syms ≡ roster.old.syms) }
    ensures memory { IfErr result (λ fault. fault ≡ SetupFault.NoMemory) }
{
    for row in rows {
        add_participant(roster, row)?;
    }
    Ok(())
}

fn add_symbols(roster: &mut Roster, rows: &[Value]) -> Result<(), SetupFault>
    requires empty { roster.old.syms ≡ [] }
    requires sound { AreSound section.Symbol (map view rows.now) }
    ensures syms { OnOk result (roster.new.syms ≡ map symbol_of (map view rows.now)) }
    ensures parts { OnOk result (roster.new.parts ≡ roster.old.parts) }
    ensures memory { IfErr result (λ fault. fault ≡ SetupFault.NoMemory) }
{
    for row in rows {
        add_symbol(roster, row)?;
    }
    Ok(())
}

fn add_participant(roster: &mut Roster, row: &Value) -> Result<(), SetupFault>
    requires { part_refusal roster.old (participant_of (view row.now)).0 ≡ None }
    ensures parts { OnOk result (roster.new.parts ≡ roster.old.parts ++ participant_of (view row.now) ∷ []) }
    ensures syms { OnOk result (roster.new.syms ≡ roster.old.syms) }
    ensures memory { IfErr result (λ fault. fault ≡ SetupFault.NoMemory) }
{
    let feed = feed_named(text_in(row, "feed")).unwrap_or(Feed::A);
    match roster.add_participant(text_in(row, "name").as_bytes(), feed) {
        Ok(_) => Ok(()),
        Err(_) => Err(SetupFault::NoMemory),
    }
}

fn add_symbol(roster: &mut Roster, row: &Value) -> Result<(), SetupFault>
    requires unrefused { sym_refusal roster.old (symbol_of (view row.now)).0 ≡ None }
    requires sound { IsSound section.Symbol (view row.now) }
    ensures syms { OnOk result (roster.new.syms ≡ roster.old.syms ++ symbol_of (view row.now) ∷ []) }
    ensures parts { OnOk result (roster.new.parts ≡ roster.old.parts) }
    ensures memory { IfErr result (λ fault. fault ≡ SetupFault.NoMemory) }
{
    match roster.add_symbol(text_in(row, "name").as_bytes(), lot_of(row)) {
        Ok(_) => Ok(()),
        Err(_) => Err(SetupFault::NoMemory),
    }
}

/// The round lot that the table of a symbol gives.
fn lot_of(row: &Value) -> Lot
    requires { IsSound section.Symbol (view row.now) }
    ensures { result ≡ (symbol_of (view row.now)).1 }
{
    Lot::new(number_in(row, "lot") as u16).unwrap()
}

/// The access fees that the tables of the participants give, under the caps that the document chooses.
fn fees_of(alloc: Global, chosen: Choices, rows: &[Value]) -> Result<FeeBook, SetupFault>
    requires { rows_fault chosen section.Participant (map view rows.now) ≡ None }
    ensures value { IfOk result (λ fees. fees ≡ record { caps = chosen.caps; schedules = map schedule_of (map view rows.now) }) }
    ensures memory { IfErr result (λ fault. fault ≡ SetupFault.NoMemory) }
{
    let mut schedules = Vec::new(alloc);
    for row in rows {
        let Ok(_) = schedules.push(schedule_of(row)) else {
            return Err(SetupFault::NoMemory);
        };
    }
    Ok(FeeBook::new(chosen.caps, schedules))
}

/// The access fees that the table of a participant gives.
fn schedule_of(row: &Value) -> FeeSchedule
    ensures { result ≡ schedule_of (view row.now) }
{
    FeeSchedule {
        fee: number_in(row, "fee"),
        rate: number_in(row, "rate"),
    }
}

/// The text at a key of an element; an empty one if there is no text.
fn text_in<'a>(row: &'a Value, key: &str) -> &'a str
    ensures { result.now ≡ text_at key.now (table_of (view row.now)) }
{
    match row.as_table() {
        Some(table) => text_at(table, key),
        None => "",
    }
}

/// The number at a key of an element; 0 if there is no number.
fn number_in(row: &Value, key: &str) -> i64
    ensures { result ≡ number_at key.now (table_of (view row.now)) }
{
    match row.as_table() {
        Some(table) => number_at(table, key),
        None => 0,
    }
}
