//! The things that the report of each fault of a document needs.
use super::locating::Lines;

/// The things that the report of each fault of a document needs.
#[derive(Clone, Copy)]
pub(crate) struct Report<'a> {
    /// The file, as the call named it.
    pub(crate) file: &'a str,
    /// The file's text.
    pub(crate) text: &'a [u8],
    /// The lines of the text that have a header or a key.
    pub(crate) lines: &'a Lines,
}
