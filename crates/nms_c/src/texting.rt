//! Texts of the library's version, of codes, of records, and of plans.
ghost use Rattle.std.specs.Prelude.{◌≡◌, ◌≢◌, ◌⊎◌, ◌+◌, ◌<◌, codes, drop, IfOk, IfSome, length, Option, take};
ghost use Rattle.nms_lines.specs.PlanText.{plan_text};
ghost use Rattle.nms_calls.specs.CodeTexts.{code_fault, code_text};
ghost use Rattle.nms_calls.specs.Codes.{answer_of};
ghost use Rattle.nms_calls.specs.Findings.{made_said};
ghost use Rattle.nms_calls.specs.Opened.{version};
ghost use Rattle.nms_calls.specs.RecordSaid.{HasAppliedRecord, PlanRead, plan_text_fault, record_fault};
ghost use Rattle.nms_calls.specs.TextLines.{AreAppliedRecords, all_records, line_start, records_in};
ghost use Rattle.nms_calls.specs.Written.{IsWritten, text_fault};
ghost use Rattle.nms_calls.specs.declared.call_fault.CallFault.{CallFault};
ghost use Rattle.nms_c.specs.Behind.{Behind};
ghost use Rattle.nms_c.specs.Held.{open_mark};

use crate::handle::NmsBoard;
use crate::taking::{CLOSED, give, take};
use nms_calls::{NmsOrder, NmsPlan, answer, put_code, put_version};
use std::alloc::Global;

/// Writes the version of the library.
#[unsafe(no_mangle)]
pub extern "C" fn nms_raw_version(out: &mut [u8], bytes: &mut usize) -> u32
    ensures answer { result ≡ answer_of (text_fault (codes "0.3.0") out.old) }
    ensures written { result ≡ 0 → IsWritten (codes "0.3.0") out.old out.new bytes.new }
    ensures unwritten { result ≢ 0 → (out.new ≡ out.old) × (bytes.new ≡ bytes.old) }
{
    answer(put_version(out, bytes))
}

/// Writes what a code means.
#[unsafe(no_mangle)]
pub extern "C" fn nms_raw_code_text(code: u32, out: &mut [u8], bytes: &mut usize) -> u32
    ensures answer { result ≡ answer_of (code_fault (code_text code) out.old) }
    ensures written { result ≡ 0 → IfSome (code_text code) (λ text. IsWritten text out.old out.new bytes.new) }
    ensures unwritten { result ≢ 0 → (out.new ≡ out.old) × (bytes.new ≡ bytes.old) }
{
    answer(put_code(code, out, bytes))
}

/// Applies the change that a record says.
#[unsafe(no_mangle)]
pub extern "C" fn nms_raw_apply_text(alloc: Global, board: &mut NmsBoard, text: &[u8]) -> u32
    ensures closed { board.old.mark ≢ open_mark → (result ≡ 15) × (board.new ≡ board.old) }
    ensures open { board.old.mark ≡ open_mark → board.new.mark ≡ open_mark }
    ensures answer { board.old.mark ≡ open_mark → result ≢ 9 → Behind board.old.value (λ opened. result ≡ answer_of (record_fault opened text.now)) }
    ensures applied { result ≡ 0 → Behind board.old.value (λ old. Behind board.new.value (λ new. HasAppliedRecord text.now old new)) }
    ensures unchanged { result ≢ 0 → board.new.value ≡ board.old.value }
{
    let Some(mut kept) = take(alloc, board) else {
        return CLOSED;
    };
    let code = answer(kept.apply_record(text));
    give(board, kept);
    code
}

/// Applies the changes that the lines of a text say, in order up to the first that is refused. Writes how many were applied,
/// and the byte at which the next line begins.
#[unsafe(no_mangle)]
pub extern "C" fn nms_raw_apply_lines(
    alloc: Global,
    board: &mut NmsBoard,
    text: &[u8],
    applied: &mut usize,
    at: &mut usize,
) -> u32
    ensures closed { board.old.mark ≢ open_mark → (result ≡ 15) × (board.new ≡ board.old) × (applied.new ≡ applied.old) × (at.new ≡ at.old) }
    ensures open { board.old.mark ≡ open_mark → board.new.mark ≡ open_mark }
    ensures answer { board.old.mark ≡ open_mark → result ≢ 9 → Behind board.old.value (λ opened. result ≡ answer_of ((all_records opened (records_in text.now)).fault)) }
    ensures applied { board.old.mark ≡ open_mark → result ≢ 9 → Behind board.old.value (λ opened. applied.new ≡ (all_records opened (records_in text.now)).applied) }
    ensures refused { board.old.mark ≡ open_mark → result ≢ 0 → applied.new < length (records_in text.now) }
    ensures at { board.old.mark ≡ open_mark → at.new ≡ line_start text.now applied.new }
    ensures rest { board.old.mark ≡ open_mark → records_in (drop at.new text.now) ≡ drop applied.new (records_in text.now) }
    ensures left { board.old.mark ≡ open_mark → Behind board.old.value (λ old. Behind board.new.value (λ new. AreAppliedRecords old (take applied.new (records_in text.now)) new)) }
    ensures version { board.old.mark ≡ open_mark → Behind board.old.value (λ old. Behind board.new.value (λ new. version new ≡ version old + applied.new)) }
{
    let Some(mut kept) = take(alloc, board) else {
        return CLOSED;
    };
    let code = answer(kept.apply_lines(text, applied, at));
    give(board, kept);
    code
}

/// Writes a plan for an order as text.
#[unsafe(no_mangle)]
pub extern "C" fn nms_raw_plan_text(
    alloc: Global,
    board: &mut NmsBoard,
    order: &NmsOrder,
    plan: &NmsPlan,
    out: &mut [u8],
    bytes: &mut usize,
) -> u32
    ensures closed { board.old.mark ≢ open_mark → (result ≡ 15) × (board.new ≡ board.old) }
    ensures open { board.old.mark ≡ open_mark → board.new.mark ≡ open_mark }
    ensures answer { board.old.mark ≡ open_mark → result ≢ 9 → Behind board.old.value (λ opened. result ≡ answer_of (plan_text_fault opened order.now plan.now out.old)) }
    ensures written { result ≡ 0 → Behind board.old.value (λ opened. IfOk (made_said opened.settings order.now plan.now)
        (λ made. IsWritten (plan_text opened.settings.roster made.1.plan made.1.cuts) out.old out.new bytes.new)) }
    ensures same { board.new.value ≡ board.old.value }
    ensures unwritten { result ≢ 0 → (out.new ≡ out.old) × (bytes.new ≡ bytes.old) }
{
    let Some(mut kept) = take(alloc, board) else {
        return CLOSED;
    };
    let code = answer(kept.plan_text(order, plan, out, bytes));
    give(board, kept);
    code
}

/// Reads a plan with its order and its certificate from text.
#[unsafe(no_mangle)]
pub extern "C" fn nms_raw_read_plan(
    alloc: Global,
    board: &mut NmsBoard,
    text: &[u8],
    order: &mut NmsOrder,
    out: &mut NmsPlan,
) -> u32
    ensures closed { board.old.mark ≢ open_mark → (result ≡ 15) × (board.new ≡ board.old) × (order.new ≡ order.old) × (out.new ≡ out.old) }
    ensures open { board.old.mark ≡ open_mark → board.new.mark ≡ open_mark }
    ensures read { board.old.mark ≡ open_mark → Behind board.old.value (λ opened. (told : Option CallFault) × (result ≡ answer_of told)
        × PlanRead opened.settings.roster text.now told order.old order.new out.old out.new) }
    ensures same { board.new.value ≡ board.old.value }
{
    let Some(mut kept) = take(alloc, board) else {
        return CLOSED;
    };
    let code = answer(kept.read_plan(alloc, text, order, out));
    give(board, kept);
    code
}
