//! The lines of a report about a TOML text: what is marked there, and what was found.
ghost use Rattle.std.specs.Prelude.{◌≡◌, true};
ghost use Rattle.std.specs.List.{list_all};
ghost use Rattle.nms_show.specs.Plain.{is_own_plain, is_plain};
ghost use Rattle.nms_show.specs.Safe.{IsSafe};
ghost use Rattle.nms_show.specs.Written.{Writes};

use crate::marked::Marked;
use nms_show::{
    Form, Item, Location, ShowFault, WrongPart, words_round, write_advice, write_found,
    write_refused,
};
use std::io::Write;

/// Writes the line of a refusal's place, and the text's line with carets under what is marked. It is not flushed.
///
/// What is added is safe to show on a terminal. After `WriteFault` a prefix of the lines was written.
pub fn write_marked<'a, W: Write>(
    answers: &mut W,
    form: Form,
    file: &'a str,
    marked: Marked<'a>,
    code: &'static str,
    items: &[Item<'_>],
) -> Result<(), ShowFault>
    requires code { is_plain code.now ≡ true }
    requires items { list_all is_own_plain items.now ≡ true }
    ensures safe { Writes IsSafe (W.contents answers.old) (W.contents answers.new) result }
{
    let (at, wrong) = place_in(file, marked);
    write_refused(answers, form, at, code, items, wrong)
}

/// The place in a file of the marked part, and its line.
pub(crate) fn place_in<'a>(file: &'a str, marked: Marked<'a>) -> (Location<'a>, WrongPart<'a>) {
    let at = Location {
        file,
        line: marked.number,
        column: marked.column(),
    };
    let wrong = WrongPart {
        text: marked.line,
        start: marked.pair.start,
        end: marked.pair.end,
    };
    (at, wrong)
}

/// Writes what was found at a key of a document, and what is expected there. If the text is no document, it writes the parser's
/// message. It is not flushed.
///
/// What is added is safe to show on a terminal. After `WriteFault` a prefix of the lines was written.
pub fn write_finding<'a, W: Write>(
    answers: &mut W,
    form: Form,
    is_document: bool,
    found: Item<'a>,
    expected: &'a str,
) -> Result<(), ShowFault>
    requires found { is_own_plain found ≡ true }
    ensures safe { Writes IsSafe (W.contents answers.old) (W.contents answers.new) result }
{
    if is_document {
        write_found(answers, form, words_round(found), found, expected)
    } else {
        write_advice(answers, form, expected)
    }
}
