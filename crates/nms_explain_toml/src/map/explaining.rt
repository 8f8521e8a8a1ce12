//! Why the text of a mapping is refused (`specs/Ended`).
ghost use Rattle.std.specs.Prelude.{◌≡◌, IfOk, IsUtf8, length};
ghost use Rattle.toml.specs.Parse.{parse_document};
ghost use Rattle.toml.specs.View.{table_view};
ghost use Rattle.nms_show.specs.Safe.{IsSafe};
ghost use Rattle.nms_show.specs.Written.{Writes};
ghost use Rattle.nms_explain_toml.specs.Ended.{ending_by, ending_by_map, ending_of};

use super::kind::kind_of;
use super::nearest::{meant_at_top, meant_in_all};
use super::telling::{tell_finding, tell_no_toml, tell_summary};
use crate::told::Told;
use nms_import::{Draft, Finding, find_faults};
use nms_show::{Ending, Form, ShowFault};
use std::alloc::Global;
use std::io::Write;
use std::str;
use toml::Table;

/// The most faults that are reported.
const MOST_TOLD: usize = 100;

/// Prints why a mapping is refused, or that it has no fault. The first 100 faults are printed, each with its line, table, key,
/// value and what is expected. It ends with `SetupRefused` if there is a fault.
///
/// Each unknown or absent key is a fault. So is each value that is not allowed, and each such word of a list. The value of an
/// unknown key counts as that of the key that was meant. A text that is not a TOML document has one fault, M1, at the place at
/// which the parser stopped.
///
/// Errors: `WriteFault` if `answers` refuses, `NoMemory` if out of memory. A prefix of the text may have been written. What is
/// written is safe to show on a terminal.
pub fn explain_map<W: Write>(
    alloc: Global,
    file: &str,
    text: &[u8],
    form: Form,
    answers: &mut W,
) -> Result<Ending, ShowFault>
    ensures read { IfOk result (λ ending. IsUtf8 text.now → ending ≡ ending_by_map (parse_document text.now)) }
    ensures no_text { IfOk result (λ ending. ¬ (IsUtf8 text.now) → ending ≡ Ending.SetupRefused) }
    ensures safe { Writes IsSafe (W.contents answers.old) (W.contents answers.new) result }
{
    let told = Told {
        alloc,
        form,
        file,
        text,
    };
    match str::from_utf8(text) {
        Ok(utf8) => tell_text(told, utf8, answers),
        Err(error) => {
            let place = error.valid_up_to();
            tell_no_toml(told, place, place, "the bytes are not UTF-8", answers)
        }
    }
}

/// Prints the faults of a text that is UTF-8.
#[tactic(auto, using(nms_show::proofs::Offered::no_part_added))]
fn tell_text<W: Write>(told: Told<'_>, text: &str, answers: &mut W) -> Result<Ending, ShowFault>
    ensures ending { IfOk result (λ ending. ending ≡ ending_by_map (parse_document text.now)) }
    ensures safe { Writes IsSafe (W.contents answers.old) (W.contents answers.new) result }
{
    match toml::table_from_str(told.alloc, text) {
        Ok(document) => tell_document(told, &document, answers),
        Err(error) if error.is_memory() => Err(ShowFault::NoMemory),
        Err(error) => {
            let (start, end) = match error.span() {
                Some(span) => (span.start, span.end),
                None => (0, 0),
            };
            tell_no_toml(told, start, end, error.message(), answers)
        }
    }
}

/// Prints the faults of a document.
#[tactic(auto, using(nms_show::proofs::Offered::no_part_added))]
fn tell_document<W: Write>(
    told: Told<'_>,
    document: &Table,
    answers: &mut W,
) -> Result<Ending, ShowFault>
    ensures ending { IfOk result (λ ending. ending ≡ ending_by (table_view document.now)) }
    ensures safe { Writes IsSafe (W.contents answers.old) (W.contents answers.new) result }
{
    let draft = Draft::new(kind_of(document), document);
    match find_faults(told.alloc, draft) {
        Ok(found) => tell_found(told, draft, &found, answers),
        Err(_) => Err(ShowFault::NoMemory),
    }
}

/// Prints the faults that were found in a document, without guessing which keys were meant.
fn tell_found<W: Write>(
    told: Told<'_>,
    draft: Draft<'_>,
    found: &[Finding<'_>],
    answers: &mut W,
) -> Result<Ending, ShowFault>
    ensures ending { IfOk result (λ ending. ending ≡ ending_of (length found.now)) }
    ensures safe { Writes IsSafe (W.contents answers.old) (W.contents answers.new) result }
{
    if found.is_empty() {
        tell_none(told, answers)
    } else {
        tell_meant(told, draft, answers)
    }
}

/// Prints that a document has no fault.
fn tell_none<W: Write>(told: Told<'_>, answers: &mut W) -> Result<Ending, ShowFault>
    ensures ending { IfOk result (λ ending. ending ≡ Ending.Done) }
    ensures safe { Writes IsSafe (W.contents answers.old) (W.contents answers.new) result }
{
    tell_summary(told, 0, false, answers)?;
    Ok(Ending::Done)
}

/// Prints the faults of a document that has some. Unknown keys are taken for those that were meant.
#[tactic(auto, using(nms_show::proofs::Offered::no_part_added))]
fn tell_meant<W: Write>(
    told: Told<'_>,
    draft: Draft<'_>,
    answers: &mut W,
) -> Result<Ending, ShowFault>
    ensures ending { IfOk result (λ ending. ending ≡ Ending.SetupRefused) }
    ensures safe { Writes IsSafe (W.contents answers.old) (W.contents answers.new) result }
{
    let Ok(tables) = meant_at_top(told.alloc, draft) else {
        return Err(ShowFault::NoMemory);
    };
    let named = Draft {
        meant: &tables,
        keys: draft.keys,
        kind: draft.kind,
        document: draft.document,
    };
    let Ok(all) = meant_in_all(told.alloc, named) else {
        return Err(ShowFault::NoMemory);
    };
    let named = Draft {
        meant: &all,
        keys: draft.keys,
        kind: draft.kind,
        document: draft.document,
    };
    match find_faults(told.alloc, named) {
        Ok(found) => tell_faults(told, named, &found, answers),
        Err(_) => Err(ShowFault::NoMemory),
    }
}

/// Prints the first of the faults that were found, how many were printed, and whether there are more.
fn tell_faults<W: Write>(
    told: Told<'_>,
    draft: Draft<'_>,
    found: &[Finding<'_>],
    answers: &mut W,
) -> Result<Ending, ShowFault>
    ensures ending { IfOk result (λ ending. ending ≡ Ending.SetupRefused) }
    ensures safe { Writes IsSafe (W.contents answers.old) (W.contents answers.new) result }
{
    let most = found.len().min(MOST_TOLD);
    tell_each(told, draft, &found[..most], answers)?;
    tell_summary(told, most as u64, most < found.len(), answers)?;
    Ok(Ending::SetupRefused)
}

/// Prints each of the given faults of a mapping.
fn tell_each<W: Write>(
    told: Told<'_>,
    draft: Draft<'_>,
    found: &[Finding<'_>],
    answers: &mut W,
) -> Result<(), ShowFault>
    ensures { Writes IsSafe (W.contents answers.old) (W.contents answers.new) result }
{
    for finding in found {
        tell_finding(told, draft, finding, answers)?;
    }
    Ok(())
}
