//! The subcommand `check`, which finds whether a plan is confirmed on the changes of a file (specs/Check).
ghost use Rattle.std.specs.Prelude.{◌≡◌, ◌<◌, ◌≤◌, ◌++◌, ◌∷◌, [], All, IfErr, IfOk, length, true};
ghost use Rattle.std.specs.Io.KnownBytes.{Appends};
ghost use Rattle.nms_quote.specs.Roster.{holds, sizes_of};
ghost use Rattle.nms_quote.specs.declared.TheConstants.{MOST_CHANGES};
ghost use Rattle.nms_lines.specs.Text.{record_text};
ghost use Rattle.nms_command.specs.Check.{Judges, JudgesFiles, JudgesOnFile, JudgesText, Tells, doubt_record};
ghost use Rattle.nms_command.specs.Failed.{CutsShort};

use crate::command_fault::CommandFault;
use crate::ending::Ending;
use crate::files::{open_file, read_file};
use crate::line::write_line;
use nms_cert::Doubt;
use nms_fees::Setup;
use nms_file_answers::{AuditFault, audit};
use nms_files::read_changes;
use nms_lines::read_plan;
use nms_quote::{Certificate, Change, Plan};
use nms_text::ScriptFault;
use std::alloc::Global;
use std::io::{Read, Write};
use std::rt::Files;

/// Writes whether the plan in one file is confirmed on the changes in another file, up to the plan's version.
pub(crate) fn serve_check<T: Files + AllocGlobal, W: Write>(
    rt: &T,
    setup: &Setup,
    words: &[String],
    answers: &mut W,
) -> Result<Ending, CommandFault>
    ensures served { IfOk result (JudgesFiles setup.now (W.contents answers.old) (W.contents answers.new)) }
    ensures cut { IfErr result (CutsShort (JudgesFiles setup.now (W.contents answers.old)) (W.contents answers.old) (W.contents answers.new)) }
{
    let [changes, plan] = words else {
        return Err(CommandFault::Usage);
    };
    // Both files are read before any of their lines is judged.
    let text = read_file(rt, plan.as_str())?;
    let source = open_file(rt, changes.as_str())?;
    check_text(rt.alloc(), setup, source, &text, answers)
}

/// Writes whether the plan in a text is confirmed on the changes in a file, up to the plan's version.
fn check_text<R: Read + Drop, W: Write>(
    alloc: Global,
    setup: &Setup,
    source: R,
    text: &[u8],
    answers: &mut W,
) -> Result<Ending, CommandFault>
    ensures served { IfOk result (JudgesOnFile setup.now (R.remaining source) text.now (W.contents answers.old) (W.contents answers.new)) }
    ensures cut { IfErr result (CutsShort (JudgesOnFile setup.now (R.remaining source) text.now (W.contents answers.old)) (W.contents answers.old) (W.contents answers.new)) }
{
    match read_changes(alloc, setup, source) {
        Ok(changes) => judge(alloc, setup, &changes, text, answers),
        Err(fault) => Err(CommandFault::Changes(fault)),
    }
}

/// Writes whether the plan in a text is confirmed on a list of changes, up to the plan's version.
fn judge<W: Write>(
    alloc: Global,
    setup: &Setup,
    changes: &[Change],
    text: &[u8],
    answers: &mut W,
) -> Result<Ending, CommandFault>
    requires held { All (λ change. holds (sizes_of setup.now.roster) change ≡ true) changes.now }
    requires few { length changes.now ≤ MOST_CHANGES }
    ensures judged { IfOk result (JudgesText setup.now changes.now text.now (W.contents answers.old) (W.contents answers.new)) }
    ensures cut { IfErr result (CutsShort (JudgesText setup.now changes.now text.now (W.contents answers.old)) (W.contents answers.old) (W.contents answers.new)) }
{
    match read_plan(alloc, text, setup.roster()) {
        Ok((plan, certificate)) => {
            judge_plan(alloc, setup, changes, &plan, &certificate, answers)
        }
        Err(fault) => Err(CommandFault::PlanText(fault)),
    }
}

/// Writes whether a plan is confirmed by its certificate on a list of changes, up to the plan's version.
fn judge_plan<W: Write>(
    alloc: Global,
    setup: &Setup,
    changes: &[Change],
    plan: &Plan,
    certificate: &Certificate,
    answers: &mut W,
) -> Result<Ending, CommandFault>
    requires sym { plan.now.order.sym < length setup.now.roster.syms }
    requires held { All (λ change. holds (sizes_of setup.now.roster) change ≡ true) changes.now }
    requires few { length changes.now ≤ MOST_CHANGES }
    ensures judged { IfOk result (Judges setup.now changes.now plan.now certificate.now.items (W.contents answers.old) (W.contents answers.new)) }
    ensures cut { IfErr result (CutsShort (Judges setup.now changes.now plan.now certificate.now.items (W.contents answers.old)) (W.contents answers.old) (W.contents answers.new)) }
{
    let finding = audit(alloc, setup, changes, plan, certificate);
    tell_finding(answers, finding)
}

/// Writes one line with the finding of an audit: the plan is confirmed, or the code of the doubt.
fn tell_finding<W: Write>(
    answers: &mut W,
    finding: Result<(), AuditFault>,
) -> Result<Ending, CommandFault>
    ensures told { IfOk result (Tells finding (W.contents answers.old) (W.contents answers.new)) }
    ensures cut { IfErr result (CutsShort (Tells finding (W.contents answers.old)) (W.contents answers.old) (W.contents answers.new)) }
{
    match finding {
        Ok(()) => tell_line(answers, "CONFIRMED", "", Ending::Done),
        Err(AuditFault::VersionBeyondTape) => {
            tell_line(answers, "DOUBT,", "A1", Ending::NotConfirmed)
        }
        Err(AuditFault::Doubt(doubt)) => tell_doubt(answers, doubt),
        Err(AuditFault::NoMemory) => Err(CommandFault::NoAudit),
    }
}

/// Writes one line with the code of a doubt. If the plan breaches a rule, the code of the breach follows.
fn tell_doubt<W: Write>(answers: &mut W, doubt: Doubt) -> Result<Ending, CommandFault>
    ensures told { IfOk result (λ ends. (ends ≡ Ending.NotConfirmed) × Appends (W.contents answers.old) (W.contents answers.new) (record_text (doubt_record doubt))) }
    ensures cut { IfErr result (CutsShort (λ whole ends. (ends ≡ Ending.NotConfirmed) × Appends (W.contents answers.old) whole (record_text (doubt_record doubt))) (W.contents answers.old) (W.contents answers.new)) }
{
    match doubt {
        Doubt::Breach(breach) => {
            tell_line(answers, "DOUBT,K1,", breach.code(), Ending::NotConfirmed)
        }
        other => tell_line(answers, "DOUBT,", other.code(), Ending::NotConfirmed),
    }
}

/// Writes one line of two parts, and gives the ending of the request that belongs to it.
fn tell_line<W: Write>(
    answers: &mut W,
    head: &str,
    code: &str,
    ending: Ending,
) -> Result<Ending, CommandFault>
    ensures told { IfOk result (λ ends. (ends ≡ ending) × Appends (W.contents answers.old) (W.contents answers.new) (head.now ++ (code.now ++ 10 ∷ []))) }
    ensures cut { IfErr result (CutsShort (λ whole ends. (ends ≡ ending) × Appends (W.contents answers.old) whole (head.now ++ (code.now ++ 10 ∷ []))) (W.contents answers.old) (W.contents answers.new)) }
{
    match write_line(answers, head, code) {
        Ok(()) => Ok(ending),
        Err(_) => Err(CommandFault::Script(ScriptFault::WriteFault)),
    }
}
