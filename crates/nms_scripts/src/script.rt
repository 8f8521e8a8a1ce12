//! Answering the records of a script, one after another (specs/Script).
ghost use Rattle.std.specs.Prelude.{◌≡◌, ◌≢◌, ℕ, ◌+◌, ◌<◌, ◌≤◌, ◌++◌, ◌∷◌, List, [], Option, length, true, false, Ok, Err, IfOk, IfErr, OnOk, OnErr};
ghost use Rattle.std.specs.Io.KnownBytes.{Appends};
ghost use Rattle.csv.specs.Records.{fields_of};
ghost use Rattle.nms_lines.specs.Layout.{Record};
ghost use Rattle.nms_lines.specs.Records.{AreAllRecords, HasStopped, ReadsFrom};
ghost use Rattle.nms_lines.specs.Written.{AppendsPart};
ghost use Rattle.nms_flow.specs.Flow.{IsAfter, room_of, room_under};
ghost use Rattle.nms_flow.specs.Run.{Event, published_by, taken_by};
ghost use Rattle.nms_scripts.specs.Script.{Answers, AnswersBeginning, AnswersInPart};
ghost use Rattle.nms_scripts.specs.Progress.{AdvancesTo, HasCome};

use crate::MOST_RECORDS;
use crate::counts::Counts;
use crate::script_record::serve;
use nms_fees::Setup;
use nms_flow::Flow;
use nms_lines::{ByteRecord, Reader, RecordFault, open_records, open_row, read_next};
use nms_sweep::Planner;
use nms_text::{ScriptFault, tell};
use std::alloc::Global;
use std::io::{Read, Write};

/// The outcome of one more record.
#[derive(Clone, Copy)]
pub enum Progress {
    /// The record was answered. If `refused` is true, the answer is an `ERR` record.
    Answered { refused: bool },
    /// There was no further record.
    Ended,
}

/// The parts of a script at work: the machine, the planner, the present record, and the text of its answer.
#[derive(Drop)]
struct Script {
    flow: Flow,
    planner: Planner,
    row: ByteRecord,
    answer: Vec<u8>,
}

/// Answers the records of a script, one after another. Each answer is one write, flushed before the next record is read.
///
/// A refused record is answered by `ERR`, its number and the code. It changes nothing, except that `F` keeps what it took
/// before a full tape. After `ReadFault`, `TooLong` (more than 10,000,000 records) or `NoMemory` the answers to the records
/// before were written. After `WriteFault` a prefix of the answers to the records that were read was. Nothing else is written.
pub fn run_script<R: Read + Drop, W: Write>(
    alloc: Global,
    setup: &Setup,
    reader: R,
    writer: &mut W,
) -> Result<Counts, ScriptFault>
    ensures answered { IfOk result (Answers setup.now (R.remaining reader) (W.contents writer.old) (W.contents writer.new)) }
    ensures stopped { IfErr result (λ fault. fault ≢ ScriptFault.WriteFault → AnswersBeginning setup.now (R.remaining reader) (W.contents writer.old) (W.contents writer.new) fault) }
    ensures cut { IfErr result (λ fault. fault ≡ ScriptFault.WriteFault → AnswersInPart setup.now (R.remaining reader) (W.contents writer.old) (W.contents writer.new)) }
{
    let mut reader = open_records(alloc, reader);
    match open(alloc, setup) {
        Ok(mut script) => answer_records(&mut script, setup, &mut reader, writer),
        Err(fault) => Err(fault),
    }
}

/// Answers the records that a reader gives, from the first one.
fn answer_records<R: Read, W: Write>(
    script: &mut Script,
    setup: &Setup,
    reader: &mut Reader<R>,
    writer: &mut W,
) -> Result<Counts, ScriptFault>
    requires room { room_of script.old.flow ≡ room_under setup.now }
    requires stands { IsAfter script.old.flow [] }
    ensures answered { (bytes : Option (List ℕ)) → ReadsFrom R.remaining reader.old bytes [] → IfOk result (Answers setup.now bytes (W.contents writer.old) (W.contents writer.new)) }
    ensures stopped { (bytes : Option (List ℕ)) → ReadsFrom R.remaining reader.old bytes [] → IfErr result (λ fault. fault ≢ ScriptFault.WriteFault → AnswersBeginning setup.now bytes (W.contents writer.old) (W.contents writer.new) fault) }
    ensures cut { (bytes : Option (List ℕ)) → ReadsFrom R.remaining reader.old bytes [] → IfErr result (λ fault. fault ≡ ScriptFault.WriteFault → AnswersInPart setup.now bytes (W.contents writer.old) (W.contents writer.new)) }
    ensures failed { (bytes : Option (List ℕ)) → ReadsFrom R.remaining reader.old bytes [] → IfErr result (λ fault. fault ≡ ScriptFault.ReadFault → HasStopped reader.new) }
{
    let mut refused = 0;
    for done in 0..MOST_RECORDS + 1 {
        match advance(script, setup, reader, done, writer) {
            Ok(Progress::Answered { refused: more }) => refused += u64::from(more),
            Ok(Progress::Ended) => return Ok(counts(&script.flow, done, refused)),
            Err(fault) => return Err(fault),
        }
    }
    unreachable!()
}

/// Makes the parts of a script: the machine of a setup, a planner, and buffers for a record and its answer. `NoMemory` if out
/// of memory.
fn open(alloc: Global, setup: &Setup) -> Result<Script, ScriptFault>
    ensures room { IfOk result (λ script. room_of script.flow ≡ room_under setup.now) }
    ensures stands { IfOk result (λ script. IsAfter script.flow []) }
    ensures memory { IfErr result (λ fault. fault ≡ ScriptFault.NoMemory) }
{
    let Ok(flow) = Flow::new(alloc, setup) else {
        return Err(ScriptFault::NoMemory);
    };
    Ok(Script {
        flow,
        planner: Planner::new(),
        row: open_row(alloc),
        answer: Vec::new(alloc),
    })
}

/// Reads the next record and answers it, if there is one. The caller gives how many records were read before it.
fn advance<R: Read, W: Write>(
    script: &mut Script,
    setup: &Setup,
    reader: &mut Reader<R>,
    done: u64,
    writer: &mut W,
) -> Result<Progress, ScriptFault>
    requires done { done ≤ MOST_RECORDS }
    requires room { room_of script.old.flow ≡ room_under setup.now }
    ensures room { OnOk result (room_of script.new.flow ≡ room_under setup.now) }
    ensures most { done ≡ MOST_RECORDS → IfOk result (λ progress. progress ≡ Progress.Ended) }
    ensures came { (bytes old : Option (List ℕ)) (refused : ℕ) →
        HasCome R.remaining setup.now bytes reader.old script.old.flow old (W.contents writer.old) done refused →
        AdvancesTo R.remaining setup.now bytes reader.new script.new.flow old (W.contents writer.new) done refused result }
    ensures failed { (bytes : Option (List ℕ)) (seen : List Record) → ReadsFrom R.remaining reader.old bytes seen →
        IfErr result (λ fault. fault ≡ ScriptFault.ReadFault → HasStopped reader.new) }
{
    if !read(reader, &mut script.row)? {
        return Ok(Progress::Ended);
    }
    if done == MOST_RECORDS {
        return Err(ScriptFault::TooLong);
    }
    script.answer.clear();
    let Ok(refused) = serve(
        &mut script.flow,
        setup,
        &script.row,
        done + 1,
        &mut script.planner,
        &mut script.answer,
    ) else {
        return Err(ScriptFault::NoMemory);
    };
    tell_answer(writer, &script.answer)?;
    Ok(Progress::Answered { refused })
}

/// Writes the answer to a record, if there is one. Most records have no answer, and use no writer.
fn tell_answer<W: Write>(writer: &mut W, answer: &[u8]) -> Result<(), ScriptFault>
    ensures written { OnOk result (Appends (W.contents writer.old) (W.contents writer.new) answer.now) }
    ensures part { OnErr result (AppendsPart (W.contents writer.old) (W.contents writer.new) answer.now) }
    ensures refused { IfErr result (λ fault. fault ≡ ScriptFault.WriteFault) }
{
    if answer.is_empty() {
        return Ok(());
    }
    tell(writer, answer)
}

/// Reads the next record of a script. Returns whether there is one.
pub fn read<R: Read>(reader: &mut Reader<R>, row: &mut ByteRecord) -> Result<bool, ScriptFault>
    ensures found { (bytes : Option (List ℕ)) (seen : List Record) → ReadsFrom R.remaining reader.old bytes seen → result ≡ Ok true → ReadsFrom R.remaining reader.new bytes (seen ++ fields_of row.new ∷ []) }
    ensures end { (bytes : Option (List ℕ)) (seen : List Record) → ReadsFrom R.remaining reader.old bytes seen → result ≡ Ok false → AreAllRecords bytes seen }
    ensures stopped { (bytes : Option (List ℕ)) (seen : List Record) → ReadsFrom R.remaining reader.old bytes seen → OnErr result (HasStopped reader.new) }
    ensures short { IfErr result (λ fault. fault ≢ ScriptFault.TooLong) }
    ensures unwritten { IfErr result (λ fault. fault ≢ ScriptFault.WriteFault) }
{
    match read_next(reader, row) {
        Ok(found) => Ok(found),
        Err(RecordFault::Failed) => Err(ScriptFault::ReadFault),
        Err(RecordFault::NoMemory) => Err(ScriptFault::NoMemory),
    }
}

/// The result of the script.
fn counts(flow: &Flow, records: u64, refused: u64) -> Counts
    ensures { (events : List Event) → IsAfter flow.now events → result ≡ record { records = records; refused = refused; tape = taken_by events; published = published_by events } }
{
    Counts {
        records,
        refused,
        tape: flow.taken(),
        published: flow.published(),
    }
}
