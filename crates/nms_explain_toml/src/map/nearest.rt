//! The keys that unknown ones probably mean.
use crate::near::{MOST_EDITS, edits_between};
use nms_import::{Draft, Meant, is_key, is_of};
use std::alloc::{AllocError, Global};

/// The tables that unknown names at the top of a document probably mean.
pub(crate) fn meant_at_top<'a>(
    alloc: Global,
    draft: Draft<'a>,
) -> Result<Vec<Meant<'a>>, AllocError> {
    let mut meant = Vec::new(alloc);
    add_meant(alloc, draft, "", &mut meant)?;
    Ok(meant)
}

/// The tables that were found before, and the keys that unknown names in each table probably mean.
pub(crate) fn meant_in_all<'a>(
    alloc: Global,
    draft: Draft<'a>,
) -> Result<Vec<Meant<'a>>, AllocError> {
    let mut meant = Vec::new(alloc);
    meant.extend_from_slice(draft.meant)?;
    for row in draft.keys {
        if is_of(row, draft.kind, "") {
            add_meant(alloc, draft, row.1, &mut meant)?;
        }
    }
    Ok(meant)
}

/// Adds the keys that unknown names in a table probably mean.
fn add_meant<'a>(
    alloc: Global,
    draft: Draft<'a>,
    table: &'static str,
    meant: &mut Vec<Meant<'a>>,
) -> Result<(), AllocError> {
    let Some(members) = draft.members(table) else {
        return Ok(());
    };
    for name in members.keys() {
        let written = name.as_str();
        if !is_key(draft.keys, draft.kind, table, written) {
            if let Some(key) = nearest_known(alloc, draft, meant, table, written)? {
                meant.push(Meant {
                    table,
                    key,
                    written,
                })?;
            }
        }
    }
    Ok(())
}

/// The key of a table that is nearest to a name, if one is near that the document does not have.
fn nearest_known(
    alloc: Global,
    draft: Draft<'_>,
    meant: &[Meant<'_>],
    table: &str,
    name: &str,
) -> Result<Option<&'static str>, AllocError> {
    let mut nearest = None;
    let mut least = MOST_EDITS + 1;
    for row in draft.keys {
        if is_of(row, draft.kind, table) && is_absent(draft, meant, table, row.1) {
            let edits = edits_between(alloc, row.1, name)?;
            if edits < least {
                least = edits;
                nearest = Some(row.1);
            }
        }
    }
    Ok(nearest)
}

/// Whether a document has no key with this name, and no name that is taken for it.
fn is_absent(draft: Draft<'_>, meant: &[Meant<'_>], table: &str, key: &str) -> bool {
    draft.value(table, key).is_none() && !meant.iter().any(|it| it.table == table && it.key == key)
}

/// The key that is meant by a name, if one is.
pub(crate) fn meant_by(meant: &[Meant<'_>], table: &str, name: &str) -> Option<&'static str> {
    for it in meant {
        if it.table == table && it.written == name {
            return Some(it.key);
        }
    }
    None
}
