//! Writing the answers to all records of a file, each in the order in which they were given: `specs/Answers`.
ghost use Rattle.std.specs.Prelude.{◌≡◌, ◌++◌, ◌∷◌, [], drop, true, IfErr, IfOk, OnErr, OnOk};
ghost use Rattle.std.specs.Io.KnownBytes.{Appends};
ghost use Rattle.nms_lines.specs.Text.{text_of};
ghost use Rattle.nms_lines.specs.Written.{AppendsPart};
ghost use Rattle.nms_trades.specs.Answers.{IsShowFault, answer_records, answers_in, answers_text, columns_text, found_at, found_in, found_records};
ghost use Rattle.nms_trades.specs.Answers.{is_before, is_text, refusal_in, refused_left, refused_text};
ghost use Rattle.nms_trades.specs.Answers.Answer.{Judged};
ghost use Rattle.nms_trades.specs.Columns.{names_text};
ghost use Rattle.nms_trades.specs.Files.{is_lines};

use crate::columns::{append_finding_row, append_names, append_refusal_row};
use crate::execution::Execution;
use crate::execution_file::{Records, Refusal};
use crate::finding::Finding;
use crate::line::{append_other, append_quiet, append_refusal, append_through};
use crate::money_through::sums_of;
use crate::object::{write_other, write_quiet, write_refusal, write_through};
use crate::shape::Shape;
use crate::standing::Standing;
use crate::trades_fault::TradesFault;
use nms_lines::write_text;
use nms_quote::Roster;
use nms_show::{Form, ShowFault};
use std::alloc::{AllocError, Global};
use std::io::Write;

/// Writes an answer to each record, in the order of their numbers: what was found about an execution, or that the record is
/// refused. The finding about an execution has the same place in its list as the execution. An execution without a finding has
/// no answer.
///
/// The only fault is `Show`. After it only a prefix of the answers was written. The writer is not flushed.
pub fn write_answers<W: Write>(
    alloc: Global,
    roster: &Roster,
    records: &Records,
    findings: &[Option<Finding>],
    form: Form,
    answers: &mut W,
) -> Result<(), TradesFault>
    ensures written { is_lines form ≡ true → OnOk result (Appends (W.contents answers.old) (W.contents answers.new)
        (answers_text roster.now records.now.executions.items records.now.refused.items findings.now)) }
    ensures cut { is_lines form ≡ true → OnErr result (AppendsPart (W.contents answers.old) (W.contents answers.new)
        (answers_text roster.now records.now.executions.items records.now.refused.items findings.now)) }
    ensures refused { IfErr result IsShowFault }
{
    match form {
        Form::Text { .. } => write_all(alloc, roster, records, findings, Shape::Lines, answers),
        Form::Json => write_all(alloc, roster, records, findings, Shape::Objects, answers),
    }
}

/// Writes the answers as columns, under a line of their names: one line for each record.
pub fn write_columns<W: Write>(
    alloc: Global,
    roster: &Roster,
    records: &Records,
    findings: &[Option<Finding>],
    answers: &mut W,
) -> Result<(), TradesFault>
    ensures written { OnOk result (Appends (W.contents answers.old) (W.contents answers.new)
        (columns_text roster.now records.now.executions.items records.now.refused.items findings.now)) }
    ensures cut { OnErr result (AppendsPart (W.contents answers.old) (W.contents answers.new)
        (columns_text roster.now records.now.executions.items records.now.refused.items findings.now)) }
    ensures refused { IfErr result IsShowFault }
{
    match write_names(alloc, answers) {
        Ok(()) => write_all(alloc, roster, records, findings, Shape::Columns, answers),
        Err(fault) => Err(TradesFault::Show(fault)),
    }
}

/// Writes the names of the columns.
fn write_names<W: Write>(alloc: Global, answers: &mut W) -> Result<(), ShowFault>
    ensures written { OnOk result (Appends (W.contents answers.old) (W.contents answers.new) names_text) }
    ensures cut { OnErr result (AppendsPart (W.contents answers.old) (W.contents answers.new) names_text) }
{
    let mut text = Vec::new(alloc);
    match append_names(&mut text) {
        Ok(()) => give(answers, &text),
        Err(_) => Err(ShowFault::NoMemory),
    }
}

/// Writes the answers to all records as lines, as columns or as JSON objects.
fn write_all<W: Write>(
    alloc: Global,
    roster: &Roster,
    records: &Records,
    findings: &[Option<Finding>],
    shape: Shape,
    answers: &mut W,
) -> Result<(), TradesFault>
    ensures written { is_text shape ≡ true → OnOk result (Appends (W.contents answers.old) (W.contents answers.new)
        (answers_in shape roster.now records.now.executions.items records.now.refused.items findings.now)) }
    ensures cut { is_text shape ≡ true → OnErr result (AppendsPart (W.contents answers.old) (W.contents answers.new)
        (answers_in shape roster.now records.now.executions.items records.now.refused.items findings.now)) }
    ensures refused { IfErr result IsShowFault }
{
    let mut text = Vec::new(alloc);
    match write_each(alloc, roster, records, findings, shape, &mut text, answers) {
        Ok(()) => Ok(()),
        Err(fault) => Err(TradesFault::Show(fault)),
    }
}

/// Writes the answers to all records, in the order of their numbers. The buffer for the text of one answer is used again for
/// each.
fn write_each<W: Write>(
    alloc: Global,
    roster: &Roster,
    records: &Records,
    findings: &[Option<Finding>],
    shape: Shape,
    text: &mut Vec<u8>,
    answers: &mut W,
) -> Result<(), ShowFault>
    ensures written { is_text shape ≡ true → OnOk result (Appends (W.contents answers.old) (W.contents answers.new)
        (answers_in shape roster.now records.now.executions.items records.now.refused.items findings.now)) }
    ensures cut { is_text shape ≡ true → OnErr result (AppendsPart (W.contents answers.old) (W.contents answers.new)
        (answers_in shape roster.now records.now.executions.items records.now.refused.items findings.now)) }
{
    let mut refused: usize = 0;
    for place in 0..records.executions.len() {
        let execution = &records.executions[place];
        let number = Some(execution.number);
        refused = write_refused(alloc, records, refused, number, shape, text, answers)?;
        write_judged(
            alloc, roster, execution, findings, place, shape, text, answers,
        )?;
    }
    write_refused(alloc, records, refused, None, shape, text, answers)?;
    Ok(())
}

/// Writes the refused records, from a place on, whose numbers are below the given number. Without a number, it writes all that
/// are left. Returns the place of the first refused record that was not written.
fn write_refused<W: Write>(
    alloc: Global,
    records: &Records,
    first: usize,
    number: Option<u64>,
    shape: Shape,
    text: &mut Vec<u8>,
    answers: &mut W,
) -> Result<usize, ShowFault>
    ensures written { is_text shape ≡ true → OnOk result (Appends (W.contents answers.old) (W.contents answers.new)
        (refused_text shape number (drop first records.now.refused.items))) }
    ensures cut { is_text shape ≡ true → OnErr result (AppendsPart (W.contents answers.old) (W.contents answers.new)
        (refused_text shape number (drop first records.now.refused.items))) }
    ensures next { IfOk result (λ next. drop next records.now.refused.items ≡ refused_left number (drop first records.now.refused.items)) }
{
    for place in first..records.refused.len() {
        let refusal = &records.refused[place];
        if !stands_before(refusal, number) {
            return Ok(place);
        }
        write_one(alloc, refusal, shape, text, answers)?;
    }
    Ok(records.refused.len())
}

/// Whether a refused record comes before the record with this number. It does if no number is given.
fn stands_before(refusal: &Refusal, number: Option<u64>) -> bool
    ensures { result ≡ is_before number refusal.now }
{
    match number {
        Some(number) => refusal.number < number,
        None => true,
    }
}

/// Writes the answer to a refused record.
fn write_one<W: Write>(
    alloc: Global,
    refusal: &Refusal,
    shape: Shape,
    text: &mut Vec<u8>,
    answers: &mut W,
) -> Result<(), ShowFault>
    ensures written { is_text shape ≡ true → OnOk result (Appends (W.contents answers.old) (W.contents answers.new)
        (text_of (refusal_in shape refusal.now ∷ []))) }
    ensures cut { is_text shape ≡ true → OnErr result (AppendsPart (W.contents answers.old) (W.contents answers.new)
        (text_of (refusal_in shape refusal.now ∷ []))) }
{
    if !shape.is_text() {
        return write_refusal(alloc, answers, refusal);
    }
    text.clear();
    match append_refused(text, refusal, shape) {
        Ok(()) => give(answers, text),
        Err(_) => Err(ShowFault::NoMemory),
    }
}

/// Writes what was found about the execution at a place, if there is a finding.
fn write_judged<W: Write>(
    alloc: Global,
    roster: &Roster,
    execution: &Execution,
    findings: &[Option<Finding>],
    place: usize,
    shape: Shape,
    text: &mut Vec<u8>,
    answers: &mut W,
) -> Result<(), ShowFault>
    ensures written { is_text shape ≡ true → OnOk result (Appends (W.contents answers.old) (W.contents answers.new)
        (text_of (answer_records shape roster.now (Judged execution.now (found_at findings.now place))))) }
    ensures cut { is_text shape ≡ true → OnErr result (AppendsPart (W.contents answers.old) (W.contents answers.new)
        (text_of (answer_records shape roster.now (Judged execution.now (found_at findings.now place))))) }
{
    if place >= findings.len() {
        return Ok(());
    }
    match &findings[place] {
        Some(finding) => write_found(alloc, roster, execution, finding, shape, text, answers),
        None => Ok(()),
    }
}

/// Writes what was found about an execution.
fn write_found<W: Write>(
    alloc: Global,
    roster: &Roster,
    execution: &Execution,
    finding: &Finding,
    shape: Shape,
    text: &mut Vec<u8>,
    answers: &mut W,
) -> Result<(), ShowFault>
    ensures written { is_text shape ≡ true → OnOk result (Appends (W.contents answers.old) (W.contents answers.new)
        (text_of (found_in shape roster.now execution.now finding.now))) }
    ensures cut { is_text shape ≡ true → OnErr result (AppendsPart (W.contents answers.old) (W.contents answers.new)
        (text_of (found_in shape roster.now execution.now finding.now))) }
{
    if !shape.is_text() {
        return write_object_of(alloc, roster, execution, finding, text, answers);
    }
    text.clear();
    match append_found(text, roster, execution, finding, shape) {
        Ok(()) => give(answers, text),
        Err(_) => Err(ShowFault::NoMemory),
    }
}

/// Writes what was found about an execution as objects.
fn write_object_of<W: Write>(
    alloc: Global,
    roster: &Roster,
    execution: &Execution,
    finding: &Finding,
    text: &mut Vec<u8>,
    answers: &mut W,
) -> Result<(), ShowFault> {
    match finding.standing {
        Standing::Clean | Standing::Unquoted => {
            write_quiet(alloc, answers, text, roster, execution, finding)
        }
        Standing::Perhaps | Standing::Through => {
            let sums = sums_of(execution, finding);
            write_through(alloc, answers, text, roster, execution, finding, &sums)
        }
        Standing::Other => write_other(alloc, answers, execution),
    }
}

/// Appends the answer to a refused record.
fn append_refused(text: &mut Vec<u8>, refusal: &Refusal, shape: Shape) -> Result<(), AllocError>
    ensures { is_text shape ≡ true → OnOk result (text.new.items ≡ text.old.items ++ text_of (refusal_in shape refusal.now ∷ [])) }
{
    match shape {
        Shape::Lines => append_refusal(text, refusal),
        Shape::Columns => append_refusal_row(text, refusal),
        Shape::Objects => Ok(()),
    }
}

/// Appends what was found about an execution.
fn append_found(
    text: &mut Vec<u8>,
    roster: &Roster,
    execution: &Execution,
    finding: &Finding,
    shape: Shape,
) -> Result<(), AllocError>
    ensures { is_text shape ≡ true → OnOk result (text.new.items
        ≡ text.old.items ++ text_of (found_in shape roster.now execution.now finding.now)) }
{
    match shape {
        Shape::Lines => append_finding(text, roster, execution, finding),
        Shape::Columns => append_finding_row(text, roster, execution, finding),
        Shape::Objects => Ok(()),
    }
}

/// Appends the lines of an execution.
fn append_finding(
    text: &mut Vec<u8>,
    roster: &Roster,
    execution: &Execution,
    finding: &Finding,
) -> Result<(), AllocError>
    ensures { OnOk result (text.new.items ≡ text.old.items ++ text_of (found_records roster.now execution.now finding.now)) }
{
    match finding.standing {
        Standing::Clean | Standing::Unquoted => append_quiet(text, execution, finding.standing),
        Standing::Other => append_other(text, execution),
        Standing::Perhaps | Standing::Through => {
            let sums = sums_of(execution, finding);
            append_through(text, roster, execution, finding, &sums)
        }
    }
}

/// Writes a text to the output.
fn give<W: Write>(answers: &mut W, text: &[u8]) -> Result<(), ShowFault>
    ensures written { OnOk result (Appends (W.contents answers.old) (W.contents answers.new) text.now) }
    ensures cut { OnErr result (AppendsPart (W.contents answers.old) (W.contents answers.new) text.now) }
{
    match write_text(answers, text) {
        Ok(()) => Ok(()),
        Err(_) => Err(ShowFault::WriteFault),
    }
}
