//! Why the text of a setup is refused (`specs/Ended`).
ghost use Rattle.std.specs.Prelude.{◌≡◌, IfOk, IsUtf8, length};
ghost use Rattle.toml.specs.Parse.{parse_document};
ghost use Rattle.nms_show.specs.Safe.{IsSafe};
ghost use Rattle.nms_show.specs.Written.{Writes};
ghost use Rattle.nms_explain_toml.specs.Ended.{ending_at, ending_of};

use super::findings::{faults_at, tell_finding};
use super::hints::text_hint;
use super::locating::lines_of;
use super::report::Report;
use super::sentences::sentence_of;
use super::telling::{Refusal, Summary, tell_refusal, tell_summary};
use crate::marked::mark_at;
use nms_codes::Code;
use nms_fees::SetupFault;
use nms_setup_places::{Examined, Finding, NoToml, choices_in, examine};
use nms_show::{Ending, Form, Item, SafeText, ShowFault};
use std::alloc::{AllocError, Global};
use std::io::Write;
use std::str;
use toml::Table;

/// How many faults are reported one by one. Further ones are only counted.
const MOST_TOLD: usize = 100;

/// Reports why a setup is refused: each of its faults with its line, table, key, value and bound; or that it has none. It ends
/// with `SetupRefused` if there is a fault.
///
/// If the text is not a TOML document, its only fault is C1, at the place at which the parser stopped.
///
/// What is written is safe to show on a terminal. At an error it is a prefix of such a text.
#[tactic(auto, using(nms_show::proofs::Offered::no_part_added))]
pub fn explain_setup<W: Write>(
    alloc: Global,
    file: &str,
    text: &[u8],
    form: Form,
    answers: &mut W,
) -> Result<Ending, ShowFault>
    ensures read { IfOk result (λ ending. IsUtf8 text.now → ending ≡ ending_at (parse_document text.now)) }
    ensures no_text { IfOk result (λ ending. ¬ (IsUtf8 text.now) → ending ≡ Ending.SetupRefused) }
    ensures safe { Writes IsSafe (W.contents answers.old) (W.contents answers.new) result }
{
    let mut out = SafeText::new(alloc, form);
    let ending = tell_setup(file, text, &mut out)?;
    out.pass_on(answers)?;
    Ok(ending)
}

/// Adds to a text that is printed later why a setup is refused.
fn tell_setup(file: &str, text: &[u8], out: &mut SafeText) -> Result<Ending, AllocError>
    ensures read { IfOk result (λ ending. IsUtf8 text.now → ending ≡ ending_at (parse_document text.now)) }
    ensures no_text { IfOk result (λ ending. ¬ (IsUtf8 text.now) → ending ≡ Ending.SetupRefused) }
{
    match str::from_utf8(text) {
        Ok(utf8) => tell_text(file, utf8, out),
        Err(error) => {
            let place = error.valid_up_to();
            tell_no_toml(file, text, place, place, "the bytes are not UTF-8", out)
        }
    }
}

/// Reports why a setup is refused, if its text is UTF-8.
fn tell_text(file: &str, text: &str, out: &mut SafeText) -> Result<Ending, AllocError>
    ensures ending { IfOk result (λ ending. ending ≡ ending_at (parse_document text.now)) }
{
    match examine(out.alloc(), text) {
        Ok(Examined::NoToml(NoToml { start, end, error })) => {
            tell_no_toml(file, text.as_bytes(), start, end, error.message(), out)
        }
        Ok(Examined::Document(document, found)) => {
            tell_document(file, text.as_bytes(), &document, &found, out)
        }
        Err(_) => Err(AllocError),
    }
}

/// Reports where and why a text is not a TOML document.
fn tell_no_toml<'a>(
    file: &'a str,
    text: &'a [u8],
    start: usize,
    end: usize,
    expected: &'a str,
    out: &mut SafeText,
) -> Result<Ending, AllocError>
    ensures ending { IfOk result (λ ending. ending ≡ Ending.SetupRefused) }
{
    let marked = mark_at(text, start, end);
    let fault = SetupFault::NotToml;
    let refusal = Refusal {
        file,
        marked,
        fault,
        sentence: sentence_of(fault),
        table: None,
        name: None,
        key: None,
        found: Item::Absent,
        expected,
        hint: text_hint(text, marked.line, marked.pair.start),
    };
    tell_refusal(&refusal, out)?;
    let summary = Summary {
        faults: 1,
        told: 1,
        least: Some(fault),
    };
    tell_summary(file, summary, out)?;
    Ok(Ending::SetupRefused)
}

/// Reports all faults of a document.
fn tell_document(
    file: &str,
    text: &[u8],
    document: &Table,
    found: &[Finding],
    out: &mut SafeText,
) -> Result<Ending, AllocError>
    ensures ending { IfOk result (λ ending. ending ≡ ending_of (length found.now)) }
{
    let lines = lines_of(out.alloc(), text)?;
    let told = Report {
        file,
        text,
        lines: &lines,
    };
    let summary = tell_findings(told, document, found, out)?;
    tell_summary(file, summary, out)?;
    if found.is_empty() {
        Ok(Ending::Done)
    } else {
        Ok(Ending::SetupRefused)
    }
}

/// Reports the faults that were found in a setup, and returns how many there are.
fn tell_findings(
    told: Report<'_>,
    document: &Table,
    found: &[Finding],
    out: &mut SafeText,
) -> Result<Summary, AllocError> {
    let choices = choices_in(document);
    let mut summary = Summary {
        faults: 0,
        told: 0,
        least: None,
    };
    for finding in found {
        let room = MOST_TOLD - summary.told;
        let faults = faults_at(document, finding);
        tell_finding(told, choices, document, finding, room, out)?;
        // The sum is never too great, because only a text too long for any memory has more faults than a count.
        let Some(sum) = summary.faults.checked_add(faults) else {
            return Err(AllocError);
        };
        summary = Summary {
            faults: sum,
            told: summary.told + faults.min(room),
            least: Some(lesser(summary.least, finding.fault)),
        };
    }
    Ok(summary)
}

/// The one of two faults that has the lower code; the second if there is no first.
fn lesser(least: Option<SetupFault>, fault: SetupFault) -> SetupFault {
    match least {
        Some(least) if Code::of_setup(least) <= Code::of_setup(fault) => least,
        _ => fault,
    }
}
