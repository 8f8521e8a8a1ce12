//! Finding a key in a TOML text by the names of the key and of its table. A key in a table in braces, or a key with points, is
//! found at its table.
ghost use Rattle.std.specs.Prelude.{IfSome};
ghost use Rattle.nms_explain_toml.specs.Marking.{IsOf};

use crate::line_start::LineStart;
use crate::marked::{Marked, line_from};
use crate::toml_line::header_in;

/// The place of a key in a table; the empty name is the top of the text. If the key is a table at the top, its place is its
/// header.
pub fn locate_named<'a>(text: &'a [u8], table: &[u8], key: &[u8]) -> Option<Marked<'a>>
    ensures { IfSome result (IsOf text.now) }
{
    let mut start = LineStart::first();
    // The first line is in no table, so only the top has it.
    let mut is_in = table.is_empty();
    'lines: loop {
        let line = line_from(text, start.bytes);
        if start.nest.is_outer() {
            if let Some(marked) = start.key_of(text, line, is_in, table.is_empty(), key) {
                return Some(marked);
            }
            is_in = is_in_after(line, is_in, table);
        }
        if text.len() - start.bytes == line.len() {
            return None;
        }
        start = start.after(line);
    }
}

/// Whether the text after a line is in the named table, given whether the line is in it.
fn is_in_after(line: &[u8], is_in: bool, table: &[u8]) -> bool {
    match header_in(line) {
        Some((name, _)) => !table.is_empty() && name == table,
        None => is_in,
    }
}
