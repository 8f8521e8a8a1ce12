//! How near a key is to a known one, by the edits between them.
use std::alloc::{AllocError, Global};
use strsim::osa_distance;

/// The longest key that is compared, in bytes.
const LONGEST: usize = 32;
/// The most edits by which a near key may differ.
pub(crate) const MOST_EDITS: usize = 2;

/// How many edits lead from one key to another. For a key that is too long to compare, the answer is more than a near key has.
pub(crate) fn edits_between(alloc: Global, known: &str, key: &str) -> Result<usize, AllocError> {
    if key.len() > LONGEST {
        return Ok(LONGEST);
    }
    osa_distance(alloc, known, key)
}
