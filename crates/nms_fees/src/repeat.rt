//! Repeated names in one of the two arrays: `specs/Places`.
ghost use Rattle.std.specs.Prelude.{◌≡◌, [], map, option_copied, IfOk, IfErr};
ghost use Rattle.std.specs.List.{filter_map};
ghost use Rattle.toml.specs.View.{view};
ghost use Rattle.nms_fees.specs.Places.{name_in, has_repeat};

use crate::setup_fault::SetupFault;
use crate::toml_table::value_at;
use indexmap::IndexSet;
use std::alloc::Global;
use toml::Value;

/// Whether a name is repeated among the elements of an array. Elements without a name are skipped.
pub(crate) fn has_repeat(alloc: Global, rows: &[Value]) -> Result<bool, SetupFault>
    ensures found { IfOk result (λ found. found ≡ has_repeat (filter_map name_in (map view rows.now))) }
    ensures memory { IfErr result (λ fault. fault ≡ SetupFault.NoMemory) }
{
    let mut seen = IndexSet::new(alloc);
    repeats(&mut seen, rows)
}

/// Whether a name is repeated among the elements of an array. The caller gives an empty set, in which the names seen are kept.
fn repeats<'a>(seen: &mut IndexSet<&'a str>, rows: &'a [Value]) -> Result<bool, SetupFault>
    requires empty { seen.old.keys ≡ [] }
    ensures found { IfOk result (λ found. found ≡ has_repeat (filter_map name_in (map view rows.now))) }
    ensures memory { IfErr result (λ fault. fault ≡ SetupFault.NoMemory) }
{
    for row in rows {
        if let Some(name) = name_in(row) {
            let Ok((_, is_new)) = seen.insert_full(name) else {
                return Err(SetupFault::NoMemory);
            };
            if !is_new {
                return Ok(true);
            }
        }
    }
    Ok(false)
}

/// The name in an element of an array, if it is a text.
fn name_in(row: &Value) -> Option<&str>
    ensures { option_copied result ≡ name_in (view row.now) }
{
    value_at(row.as_table()?, "name")?.as_str()
}
