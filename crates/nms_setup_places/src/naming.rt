//! Repeated names: `specs/Findings`.
ghost use Rattle.std.specs.Prelude.{◌≡◌, ◌++◌, ◌∷◌, [], map, option_copied, IfOk, OnOk};
ghost use Rattle.toml.specs.View.{view};
ghost use Rattle.nms_fees.specs.Places.{name_in};
ghost use Rattle.nms_setup_places.specs.Findings.{named_before};
ghost use Rattle.nms_setup_places.specs.Known.{KnowsNames};

use indexmap::IndexMap;
use nms_fees::value_at;
use std::alloc::AllocError;
use toml::Value;

/// The name in an element of an array, if it is a text.
pub fn name_in(row: &Value) -> Option<&str>
    ensures { option_copied result ≡ name_in (view row.now) }
{
    value_at(row.as_table()?, "name")?.as_str()
}

/// The first earlier element with the name of the given element, by its place. Elements without a name are skipped. The caller
/// keeps the names of all earlier elements, and the call adds the new one. So each name is looked up once.
pub(crate) fn earlier_named<'a>(
    known: &mut IndexMap<&'a str, usize>,
    before: &[Value],
    row: &'a Value,
) -> Result<Option<usize>, AllocError>
    requires known { KnowsNames known.old (map view before.now) }
    ensures first { IfOk result (λ first. first ≡ named_before (map view before.now) (view row.now)) }
    ensures known { OnOk result (KnowsNames known.new (map view before.now ++ view row.now ∷ [])) }
{
    let Some(name) = name_in(row) else {
        return Ok(None);
    };
    if let Some(first) = known.get(name) {
        return Ok(Some(*first));
    }
    match known.insert(name, before.len()) {
        Ok(_) => Ok(None),
        Err(_) => Err(AllocError),
    }
}
