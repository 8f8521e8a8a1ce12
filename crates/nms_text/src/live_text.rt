//! The result of a live run, as text (specs/LiveText).
ghost use Rattle.std.specs.Prelude.{◌≡◌, ◌≢◌, ◌++◌, ◌∷◌, [], IfErr, OnOk};
ghost use Rattle.std.specs.List.{flat_map};
ghost use Rattle.std.specs.Io.KnownBytes.{Appends};
ghost use Rattle.nms_lines.specs.Text.{text_of};
ghost use Rattle.nms_lines.specs.Written.{AppendsPart};
ghost use Rattle.nms_text.specs.LiveText.{answer_head, answer_records, live_records, tape_record};

use crate::text_fault::TextFault;
use crate::writing::tell;
use nms_lines::{append_plan, end_record, push_number};
use nms_quote::{Answer, Roster};
use std::alloc::{AllocError, Global};
use std::io::Write;

/// Writes how many changes a live run took, and then the answer to each order on all of these changes, in order. An answer has
/// the desk, the order's number, and the plan with its certificate. All of the text is one write, flushed.
///
/// After `WriteFault` a prefix of that text was written; after any other fault nothing was.
pub fn write_live<W: Write>(
    alloc: Global,
    roster: &Roster,
    taken: u64,
    closing: &[Answer],
    answers: &mut W,
) -> Result<(), TextFault>
    ensures written { OnOk result (Appends (W.contents answers.old) (W.contents answers.new) (text_of (live_records roster.now taken closing.now))) }
    ensures cut { IfErr result (λ fault. fault ≡ TextFault.WriteFault → AppendsPart (W.contents answers.old) (W.contents answers.new) (text_of (live_records roster.now taken closing.now))) }
    ensures unwritten { IfErr result (λ fault. fault ≢ TextFault.WriteFault → W.contents answers.new ≡ W.contents answers.old) }
{
    let mut text = Vec::new(alloc);
    if tell_live(&mut text, roster, taken, closing).is_err() {
        return Err(TextFault::NoMemory);
    }
    match tell(answers, &text) {
        Ok(()) => Ok(()),
        Err(_) => Err(TextFault::WriteFault),
    }
}

/// Appends the result of a live run.
fn tell_live(
    out: &mut Vec<u8>,
    roster: &Roster,
    taken: u64,
    closing: &[Answer],
) -> Result<(), AllocError>
    ensures { OnOk result (out.new.items ≡ out.old.items ++ text_of (live_records roster.now taken closing.now)) }
{
    tell_tape(out, taken)?;
    tell_answers(out, roster, closing)
}

/// Appends how many changes a live run took.
fn tell_tape(out: &mut Vec<u8>, taken: u64) -> Result<(), AllocError>
    ensures { OnOk result (out.new.items ≡ out.old.items ++ text_of (tape_record taken ∷ [])) }
{
    out.extend_from_slice(b"TAPE")?;
    push_number(out, taken)?;
    end_record(out)
}

/// Appends the answers to orders, one after another.
fn tell_answers(out: &mut Vec<u8>, roster: &Roster, answers: &[Answer]) -> Result<(), AllocError>
    ensures { OnOk result (out.new.items ≡ out.old.items ++ text_of (flat_map (answer_records roster.now) answers.now)) }
{
    for answer in answers {
        tell_answer(out, roster, answer)?;
    }
    Ok(())
}

/// Appends the answer to an order: the desk, the order's number, and the plan.
fn tell_answer(out: &mut Vec<u8>, roster: &Roster, answer: &Answer) -> Result<(), AllocError>
    ensures { OnOk result (out.new.items ≡ out.old.items ++ text_of (answer_records roster.now answer.now)) }
{
    tell_number(out, answer)?;
    append_plan(out, roster, &answer.plan, &answer.certificate)
}

/// Appends the desk of an answer and the number of its order.
fn tell_number(out: &mut Vec<u8>, answer: &Answer) -> Result<(), AllocError>
    ensures { OnOk result (out.new.items ≡ out.old.items ++ text_of (answer_head answer.now ∷ [])) }
{
    out.extend_from_slice(b"ANSWER")?;
    push_number(out, u64::from(answer.desk))?;
    push_number(out, answer.number as u64)?;
    end_record(out)
}
