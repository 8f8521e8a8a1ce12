//! Finding all faults of a document: `specs/Findings`.
ghost use Rattle.std.specs.Prelude.{◌≡◌, ◌++◌, ◌∷◌, map, IfOk, OnOk, []};
ghost use Rattle.nms_fees.specs.Setup.{rows_at};
ghost use Rattle.toml.specs.View.{view, table_view};
ghost use Rattle.nms_setup_places.specs.Tables.{array_key, keys_of, text_of};
ghost use Rattle.nms_setup_places.specs.Findings.{finding_at, others_fault, own_fault, key_findings, findings_in, element_findings, again_findings, row_findings, array_findings, findings_of};
ghost use Rattle.nms_setup_places.specs.Known.{KnowsNames};

use crate::finding::{Finding, Spot};
use crate::form::form_of;
use crate::known_key::KnownKey;
use crate::naming::earlier_named;
use crate::setup_table::{SetupArray, SetupTable};
use indexmap::IndexMap;
use nms_fees::{Choices, SetupFault, choices_in, rows_at, value_at};
use std::alloc::{AllocError, Global};
use toml::{Table, Value};

/// Every fault of a document, in this order: of the keys at its top, of each participant, of each symbol.
pub fn find_faults(alloc: Global, document: &Table) -> Result<Vec<Finding>, AllocError>
    ensures { IfOk result (λ found. found.items ≡ findings_of (table_view document.now)) }
{
    let choices = choices_in(document);
    let mut found = Vec::new(alloc);
    note_table(&mut found, choices, SetupTable::Top, document)?;
    note_array(
        alloc,
        &mut found,
        choices,
        SetupArray::Participant,
        document,
    )?;
    note_array(alloc, &mut found, choices, SetupArray::Symbol, document)?;
    Ok(found)
}

/// Adds a fault and its place to the findings, if there is a fault.
fn note(
    found: &mut Vec<Finding>,
    table: SetupTable,
    spot: Spot,
    fault: Option<SetupFault>,
) -> Result<(), AllocError>
    ensures { OnOk result (found.new.items ≡ found.old.items ++ finding_at table spot fault) }
{
    let Some(fault) = fault else {
        return Ok(());
    };
    found.push(Finding { table, spot, fault })?;
    Ok(())
}

/// Adds the faults of a table's keys to the findings: first of the allowed keys, then of any others.
fn note_table(
    found: &mut Vec<Finding>,
    choices: Choices,
    table: SetupTable,
    members: &Table,
) -> Result<(), AllocError>
    ensures { OnOk result (found.new.items ≡ found.old.items ++ findings_in choices table (table_view members.now)) }
{
    note_keys(found, choices, table, members)?;
    note(found, table, Spot::OtherKeys, others_fault(table, members))
}

/// Adds the faults of the keys that are allowed in a table to the findings.
fn note_keys(
    found: &mut Vec<Finding>,
    choices: Choices,
    table: SetupTable,
    members: &Table,
) -> Result<(), AllocError>
    ensures { OnOk result (found.new.items ≡ found.old.items ++ key_findings choices table (table_view members.now) (keys_of table)) }
{
    for key in table.keys() {
        let fault = key_fault(choices, table, *key, members);
        note(found, table, Spot::Key(*key), fault)?;
    }
    Ok(())
}

/// The fault of a key that is allowed in a table: it is absent, or its value has a fault.
fn key_fault(
    choices: Choices,
    table: SetupTable,
    key: KnownKey,
    members: &Table,
) -> Option<SetupFault>
    ensures { result ≡ own_fault choices table (table_view members.now) key }
{
    match value_at(members, key.text()) {
        Some(value) => form_of(choices, table, key).fault_of(value),
        None if key.is_optional() => None,
        None => Some(SetupFault::Missing),
    }
}

/// The fault of the keys that are not allowed in a table.
fn others_fault(table: SetupTable, members: &Table) -> Option<SetupFault>
    ensures { result ≡ others_fault table (table_view members.now) }
{
    for key in members.keys() {
        if !table.has_key(key.as_str()) {
            return Some(SetupFault::UnknownKey);
        }
    }
    None
}

/// Adds the faults of all participants or all symbols to the findings.
fn note_array(
    alloc: Global,
    found: &mut Vec<Finding>,
    choices: Choices,
    array: SetupArray,
    document: &Table,
) -> Result<(), AllocError>
    ensures { OnOk result (found.new.items ≡ found.old.items ++ array_findings choices array [] (rows_at (text_of (array_key array)) (table_view document.now))) }
{
    note_rows(
        alloc,
        found,
        choices,
        array,
        rows_at(document, array.key().text()),
    )
}

fn note_rows(
    alloc: Global,
    found: &mut Vec<Finding>,
    choices: Choices,
    array: SetupArray,
    rows: &[Value],
) -> Result<(), AllocError>
    ensures { OnOk result (found.new.items ≡ found.old.items ++ array_findings choices array [] (map view rows.now)) }
{
    let mut known = IndexMap::new(alloc);
    for place in 0..rows.len() {
        note_row(
            found,
            choices,
            array,
            &mut known,
            &rows[..place],
            &rows[place],
        )?;
    }
    Ok(())
}

/// Adds the faults of one element of an array to the findings. The call receives the elements before it, and their names.
fn note_row<'a>(
    found: &mut Vec<Finding>,
    choices: Choices,
    array: SetupArray,
    known: &mut IndexMap<&'a str, usize>,
    before: &[Value],
    row: &'a Value,
) -> Result<(), AllocError>
    requires known { KnowsNames known.old (map view before.now) }
    ensures known { OnOk result (KnowsNames known.new (map view before.now ++ view row.now ∷ [])) }
    ensures found { OnOk result (found.new.items ≡ found.old.items ++ row_findings choices array (map view before.now) (view row.now)) }
{
    let table = array.element(before.len());
    note_element(found, choices, table, row)?;
    note_again(found, table, known, before, row)
}

/// Adds the faults that an element has by itself to the findings. A repeated name is none of these.
fn note_element(
    found: &mut Vec<Finding>,
    choices: Choices,
    table: SetupTable,
    row: &Value,
) -> Result<(), AllocError>
    ensures { OnOk result (found.new.items ≡ found.old.items ++ element_findings choices table (view row.now)) }
{
    match row.as_table() {
        Some(members) => note_table(found, choices, table, members),
        None => note(found, table, Spot::Element, Some(SetupFault::WrongType)),
    }
}

/// Adds a fault to the findings if an earlier element has the same name.
fn note_again<'a>(
    found: &mut Vec<Finding>,
    table: SetupTable,
    known: &mut IndexMap<&'a str, usize>,
    before: &[Value],
    row: &'a Value,
) -> Result<(), AllocError>
    requires known { KnowsNames known.old (map view before.now) }
    ensures known { OnOk result (KnowsNames known.new (map view before.now ++ view row.now ∷ [])) }
    ensures found { OnOk result (found.new.items ≡ found.old.items ++ again_findings table (map view before.now) (view row.now)) }
{
    match earlier_named(known, before, row)? {
        Some(first) => note(found, table, Spot::NameOf(first), Some(SetupFault::BadName)),
        None => Ok(()),
    }
}
