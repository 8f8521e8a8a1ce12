//! Examining a setup's text for all its faults.
ghost use Rattle.std.specs.Prelude.{◌≡◌, ◌≤◌, length, Some, None, IfOk};
ghost use Rattle.toml.specs.Parse.{parse_document};
ghost use Rattle.nms_setup_places.specs.Examined.{IsExamined};

use crate::finding::Finding;
use crate::noting::find_faults;
use std::alloc::{AllocError, Global};
use toml::Table;

/// The place at which a text is not TOML, and why.
#[derive(Clone, Copy)]
pub struct NoToml {
    /// The number of bytes before the place at which the parser stopped.
    pub start: usize,
    /// The number of bytes before the end of what it did not expect.
    pub end: usize,
    /// The parser's own error.
    pub error: toml::de::Error,
}

/// The result of examining a text.
#[derive(Drop)]
pub enum Examined {
    /// C1: the text is not TOML.
    NoToml(NoToml),
    /// A TOML document with all its faults. The list is empty if the document is a setup.
    Document(Table, Vec<Finding>),
}

/// Finds all faults of a setup's text.
pub fn examine(alloc: Global, text: &str) -> Result<Examined, AllocError>
    ensures { IfOk result (IsExamined text.now) }
{
    match toml::table_from_str(alloc, text) {
        Ok(document) => {
            let found = find_faults(alloc, &document)?;
            Ok(Examined::Document(document, found))
        }
        Err(error) => match error.span() {
            Some(span) => Ok(Examined::NoToml(NoToml {
                start: span.start,
                end: span.end,
                error,
            })),
            None => Err(AllocError),
        },
    }
}
