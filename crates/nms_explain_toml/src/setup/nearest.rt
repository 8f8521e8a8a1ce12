//! The known key that is nearest to another key.
use crate::near::{MOST_EDITS, edits_between};
use nms_setup_places::{KnownKey, SetupTable};
use std::alloc::{AllocError, Global};
use toml::Table;

/// The greatest number of keys of a table that are compared with an absent key.
const MOST_COMPARED: usize = 100;
/// The distance of a key that is not near.
const TOO_FAR: usize = 6;

/// The known key that is nearest to an unknown key, if one is near. Absent keys are preferred.
pub(crate) fn nearest_known(
    alloc: Global,
    table: SetupTable,
    members: &Table,
    key: &str,
) -> Result<Option<KnownKey>, AllocError> {
    let mut nearest = None;
    let mut least = TOO_FAR;
    for known in table.keys() {
        let edits = edits_between(alloc, known.text(), key)?;
        let far = distance(edits, members.get(known.text()).is_some());
        if far < least {
            least = far;
            nearest = Some(*known);
        }
    }
    Ok(nearest)
}

/// The distance of a known key, by the edits that lead to it. If two keys have the same number of edits, one that is in the
/// table is farther.
fn distance(edits: usize, stands: bool) -> usize {
    if edits > MOST_EDITS {
        return TOO_FAR;
    }
    if stands { 2 * edits + 1 } else { 2 * edits }
}

/// The unknown key of a table that is nearest to an absent one, if one is near.
pub(crate) fn nearest_other<'a>(
    alloc: Global,
    table: SetupTable,
    members: &'a Table,
    absent: KnownKey,
) -> Result<Option<&'a str>, AllocError> {
    for key in members.keys().take(MOST_COMPARED) {
        let key = key.as_str();
        if !table.has_key(key) && nearest_known(alloc, table, members, key)? == Some(absent) {
            return Ok(Some(key));
        }
    }
    Ok(None)
}
