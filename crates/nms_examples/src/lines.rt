//! Reading the lines of the input, and adding to an answer. Any failure on the way is `Failed`.

use crate::Failed;
use std::str;

/// The value that a call returned. Any fault of the call becomes `Failed`.
pub(crate) fn or_failed<V, E: Drop>(came_to: Result<V, E>) -> Result<V, Failed> {
    match came_to {
        Ok(value) => Ok(value),
        Err(_) => Err(Failed),
    }
}

/// A value that the run needs. If it is missing, the run fails.
pub(crate) fn some_or_failed<V>(found: Option<V>) -> Result<V, Failed> {
    match found {
        Some(value) => Ok(value),
        None => Err(Failed),
    }
}

/// Bytes as a text.
pub(crate) fn text_of(bytes: &[u8]) -> Result<&str, Failed> {
    or_failed(str::from_utf8(bytes))
}

/// The parts of a text before and after the first occurrence of a mark. It fails if the mark is missing.
pub(crate) fn around<'a>(text: &'a str, mark: &str) -> Result<(&'a str, &'a str), Failed> {
    some_or_failed(text.split_once(mark))
}

/// The text before the next answer of a run: empty before the first one.
pub(crate) fn gap_after(given: &[u8]) -> &'static str {
    if given.is_empty() { "" } else { "; " }
}
