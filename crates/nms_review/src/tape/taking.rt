//! The changes that a script takes: `specs/Taken`. Its records are served as usual, but the answers are dropped.
ghost use Rattle.std.specs.Prelude.{◌≡◌, ◌≢◌, ℕ, ◌+◌, ◌≤◌, ◌++◌, List, [], Option, length, option_to_list, slice_get, true, false, Ok, Err, IfOk, OnOk};
ghost use Rattle.nms_quote.specs.Tape.{Tape};
ghost use Rattle.nms_lines.specs.Records.{ReadsFrom};
ghost use Rattle.nms_flow.specs.Flow.{IsAfter, StandsAt, room_of, room_under};
ghost use Rattle.nms_flow.specs.Run.{Standing, changes_in, tape_at};
ghost use Rattle.nms_scripts.specs.declared.TheConstants.{MOST_RECORDS};
ghost use Rattle.nms_review.specs.Progress.{HasRead, HasReadAll};
ghost use Rattle.nms_review.specs.Taken.{IsTapeOf};

use nms_fees::Setup;
use nms_flow::Flow;
use nms_lines::{ByteRecord, Reader, open_records, open_row};
use nms_quote::{Change, SideQuote};
use nms_scripts::{MOST_RECORDS, ScriptFault, read_record, serve};
use nms_sweep::Planner;
use std::alloc::{AllocError, Global};
use std::io::Read;

/// A script at work. It has its machine, the changes sent to it, its planner, the present record and the text of its answer.
#[derive(Drop)]
struct Taking {
    flow: Flow,
    sent: Vec<Change>,
    planner: Planner,
    row: ByteRecord,
    answer: Vec<u8>,
}

/// The changes that a script takes, in order: its tape at its end, published or not. Refused records are skipped, as in the script.
///
/// `ReadFault`, `TooLong` (more than 10,000,000 records) and `NoMemory` give no tape. There is no other fault.
pub fn taken_by_script<R: Read + Drop>(
    alloc: Global,
    setup: &Setup,
    source: R,
) -> Result<Vec<Change>, ScriptFault>
    ensures taken { IfOk result (λ tape. IsTapeOf setup.now (R.remaining source) tape.items) }
    ensures unwritten { result ≢ Err ScriptFault.WriteFault }
{
    let mut reader = open_records(alloc, source);
    match open(alloc, setup) {
        Ok(mut taking) => match read_all(&mut taking, setup, &mut reader) {
            Ok(()) => Ok(tape_of(taking)),
            Err(fault) => Err(fault),
        },
        Err(fault) => Err(fault),
    }
}

/// A script of which nothing has been read.
fn open(alloc: Global, setup: &Setup) -> Result<Taking, ScriptFault>
    ensures room { IfOk result (λ taking. room_of taking.flow ≡ room_under setup.now) }
    ensures stands { IfOk result (λ taking. IsAfter taking.flow []) }
    ensures sent { IfOk result (λ taking. taking.sent.items ≡ []) }
    ensures unwritten { result ≢ Err ScriptFault.WriteFault }
{
    let Ok(flow) = Flow::new(alloc, setup) else {
        return Err(ScriptFault::NoMemory);
    };
    Ok(Taking {
        flow,
        sent: Vec::new(alloc),
        planner: Planner::new(),
        row: open_row(alloc),
        answer: Vec::new(alloc),
    })
}

/// Serves the records that a reader gives, from the first one.
fn read_all<R: Read>(
    taking: &mut Taking,
    setup: &Setup,
    reader: &mut Reader<R>,
) -> Result<(), ScriptFault>
    requires room { room_of taking.old.flow ≡ room_under setup.now }
    requires stands { IsAfter taking.old.flow [] }
    requires sent { taking.old.sent.items ≡ [] }
    ensures read { (bytes : Option (List ℕ)) → ReadsFrom R.remaining reader.old bytes [] → OnOk result ((done : ℕ) × (done ≤ MOST_RECORDS) × HasReadAll setup.now bytes taking.new.flow taking.new.sent.items done) }
    ensures unwritten { result ≢ Err ScriptFault.WriteFault }
{
    for done in 0..MOST_RECORDS + 1 {
        match advance(taking, setup, reader, done) {
            Ok(true) => {}
            Ok(false) => return Ok(()),
            Err(fault) => return Err(fault),
        }
    }
    unreachable!()
}

/// Reads and serves the next record of the script, after the given number of records. Returns whether there was one.
fn advance<R: Read>(
    taking: &mut Taking,
    setup: &Setup,
    reader: &mut Reader<R>,
    done: u64,
) -> Result<bool, ScriptFault>
    requires done { done ≤ MOST_RECORDS }
    requires room { room_of taking.old.flow ≡ room_under setup.now }
    ensures room { OnOk result (room_of taking.new.flow ≡ room_under setup.now) }
    ensures most { done ≡ MOST_RECORDS → result ≢ Ok true }
    ensures more { (bytes : Option (List ℕ)) → HasRead R.remaining setup.now bytes reader.old taking.old.flow taking.old.sent.items done →
        result ≡ Ok true → HasRead R.remaining setup.now bytes reader.new taking.new.flow taking.new.sent.items (done + 1) }
    ensures end { (bytes : Option (List ℕ)) → HasRead R.remaining setup.now bytes reader.old taking.old.flow taking.old.sent.items done →
        result ≡ Ok false → HasReadAll setup.now bytes taking.new.flow taking.new.sent.items done }
    ensures unwritten { result ≢ Err ScriptFault.WriteFault }
{
    if !read_record(reader, &mut taking.row)? {
        return Ok(false);
    }
    if done == MOST_RECORDS {
        return Err(ScriptFault::TooLong);
    }
    taking.answer.clear();
    let Ok(_) = serve(
        &mut taking.flow,
        setup,
        &taking.row,
        done + 1,
        &mut taking.planner,
        &mut taking.answer,
    ) else {
        return Err(ScriptFault::NoMemory);
    };
    let Ok(()) = note_sent(&taking.flow, &mut taking.sent) else {
        return Err(ScriptFault::NoMemory);
    };
    Ok(true)
}

/// Appends the newest change that the script has sent, if it is not yet in the list.
fn note_sent(flow: &Flow, sent: &mut Vec<Change>) -> Result<(), AllocError>
    ensures { (at : Standing) → StandsAt flow.now at → at.published ≤ length sent.old.items →
        OnOk result (sent.new.items ≡ sent.old.items ++ option_to_list (slice_get (changes_in at.sent) (length sent.old.items))) }
{
    // The prover has to see the types of a change before the change moves, so the code mentions them.
    let _seen: Option<SideQuote> = None;
    if let Some(change) = flow.sent_at(sent.len() as u64) {
        sent.push(change)?;
    }
    Ok(())
}

/// The changes that the script's machine took from its queue. They are the first ones of those that were sent.
fn tape_of(taking: Taking) -> Vec<Change>
    ensures { (at : Standing) → StandsAt taking.flow at → taking.sent.items ≡ changes_in at.sent → result.items ≡ tape_at at }
{
    let Taking { flow, mut sent, .. } = taking;
    sent.truncate(flow.taken() as usize);
    sent
}
