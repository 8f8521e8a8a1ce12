//! The beginning of a line of a text, and what is open there (`specs/Nesting`).
ghost use Rattle.std.specs.Prelude.{◌≡◌, ◌+◌, ◌<◌, ◌≤◌, ◌^◌, IfSome, length};
ghost use Rattle.nms_explain_toml.specs.Marking.{IsOf};
ghost use Rattle.nms_explain_toml.specs.Nesting.{after_line, outer_nest};

use crate::marked::{Marked, mark_at};
use crate::nest::Nest;
use crate::toml_line::{header_in, names_key, pair_in};

/// The beginning of a line of a text.
#[derive(Clone, Copy)]
pub(crate) struct LineStart {
    /// How many bytes of the text come before the line.
    pub(crate) bytes: usize,
    /// How deep the beginning of the line is in brackets and braces, and whether it is in quotes. The depth is at most the
    /// number of bytes before it.
    pub(crate) nest: Nest,
}

impl LineStart {
    /// The beginning of the first line.
    pub(crate) fn first() -> LineStart
        ensures bytes { result.bytes ≡ 0 }
        ensures nest { result.nest ≡ outer_nest }
    {
        LineStart {
            bytes: 0,
            nest: Nest::outer(),
        }
    }

    /// The line, marked at its start.
    pub(crate) fn mark(self, text: &[u8]) -> Marked<'_>
        ensures before { result.before ≤ self.bytes }
        ensures within { result.before + length result.line.now ≤ length text.now }
        ensures of_text { IsOf text.now result }
    {
        mark_at(text, self.bytes, self.bytes)
    }

    /// The place of a key of a table, if the line has that key. The caller says whether the line is in the table, and whether
    /// the table is the top of the text.
    pub(crate) fn key_of<'a>(
        self,
        text: &'a [u8],
        line: &[u8],
        is_in: bool,
        is_top: bool,
        key: &[u8],
    ) -> Option<Marked<'a>>
        requires within { self.bytes + length line.now ≤ length text.now }
        ensures within { IfSome result (λ marked. marked.before + marked.pair.start ≤ length text.now) }
        ensures of_text { IfSome result (IsOf text.now) }
    {
        if let Some((name, _)) = header_in(line) {
            if is_top && names_key(name, key) {
                return Some(self.mark(text).whole());
            }
            return None;
        }
        if !is_in {
            return None;
        }
        let pair = pair_in(line, key)?;
        Some(self.mark(text).with(pair))
    }

    /// The beginning of the next line, which comes after this line and its line feed.
    pub(crate) fn after(self, line: &[u8]) -> LineStart
        requires within { self.bytes + length line.now + 1 < 2 ^ 64 }
        requires depth { self.nest.depth ≤ self.bytes }
        ensures bytes { result.bytes ≡ self.bytes + length line.now + 1 }
        ensures nest { result.nest ≡ after_line self.nest line.now }
        ensures depth { result.nest.depth ≤ result.bytes }
    {
        LineStart {
            bytes: self.bytes + line.len() + 1,
            nest: self.nest.after_line(line),
        }
    }
}
