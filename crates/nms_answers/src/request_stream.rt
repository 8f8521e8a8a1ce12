//! Answering all requests of a client's stream in order (specs/Streams).
ghost use Rattle.std.specs.Prelude.{◌≡◌, ◌≢◌, ◌≤◌, ℕ, ◌+◌, List, [], Option, option_map, IfErr, IfOk};
ghost use Rattle.nms_quote.specs.Roster.{sizes_of};
ghost use Rattle.nms_lines.specs.Records.{ReadsFrom};
ghost use Rattle.nms_whole.specs.Lines.{whole_lines};
ghost use Rattle.nms_answers.specs.Epochs.{KeepsEpochs};
ghost use Rattle.nms_answers.specs.Streams.{AnswersAll, AnswersFirst, AnswersInPart};
ghost use Rattle.nms_answers.specs.Progress.{AdvancesTo, HasCome};
ghost use Rattle.nms_answers.specs.declared.TheConstants.{MOST_REQUESTS};
ghost use Rattle.nms_answers.specs.declared.epoch_desk.EpochDesk.{EpochDesk};

use crate::MOST_REQUESTS;
use crate::answer_fault::AnswerFault;
use crate::epoch_desk::{EpochDesk, LaterDesks};
use crate::epoch_request::answer_latest;
use crate::request_counts::RequestCounts;
use nms_fees::Setup;
use nms_lines::{ByteRecord, Reader, RecordFault, open_records, open_row, read_next};
use nms_text::tell;
use nms_whole::WholeLines;
use std::alloc::Global;
use std::io::{Read, Write};

/// The outcome of one more request.
#[derive(Clone, Copy)]
pub enum Progress {
    /// The request was answered. `refused` holds if the answer is an `ERR` record.
    Answered { refused: bool },
    /// There was no further request.
    Ended,
}

/// Answers the requests of a client's stream, one after another, each on what the desk sees then, in the latest epoch. If the
/// client goes over to epoch k, `EPOCH,k` comes before the answer. Only complete lines are read (`WholeLines`). Each answer is
/// one write, flushed before the next request is read. A refused request is answered by `ERR`, its number and the code. `Ok` is
/// the end of the stream.
///
/// After `ReadFault`, `TooLong`, `NoMemory` or `NoReading` the answers to the requests before were written completely. After
/// `WriteFault` a prefix of the next answer was written too.
pub fn answer_stream<R: Read + Drop, W: Write, L: LaterDesks>(
    alloc: Global,
    setup: &Setup,
    desk: &mut EpochDesk,
    later: &L,
    requests: R,
    answers: &mut W,
) -> Result<RequestCounts, AnswerFault>
    requires house { L.sizes ≡ sizes_of setup.now.roster }
    requires sizes { desk.old.desk.sizes ≡ sizes_of setup.now.roster }
    // All requests were answered in order, and nothing else was written.
    ensures answered { IfOk result (AnswersAll setup.now (option_map whole_lines (R.remaining requests)) desk.old desk.new (W.contents answers.old) (W.contents answers.new)) }
    // After a fault other than `WriteFault`, the first requests were answered in order, and nothing else was written.
    ensures stopped { IfErr result (λ fault. fault ≢ AnswerFault.WriteFault → AnswersFirst setup.now (option_map whole_lines (R.remaining requests)) desk.old desk.new (W.contents answers.old) (W.contents answers.new)) }
    ensures cut { IfErr result (λ fault. fault ≡ AnswerFault.WriteFault → AnswersInPart setup.now (option_map whole_lines (R.remaining requests)) desk.old desk.new (W.contents answers.old) (W.contents answers.new)) }
    ensures knows { KeepsEpochs desk.old desk.new }
    ensures sizes { desk.new.desk.sizes ≡ sizes_of setup.now.roster }
{
    let mut reader = open_records(alloc, WholeLines::new(requests));
    answer_records(alloc, setup, desk, later, &mut reader, answers)
}

/// Answers the requests that a reader gives, from the first one.
fn answer_records<R: Read, W: Write, L: LaterDesks>(
    alloc: Global,
    setup: &Setup,
    desk: &mut EpochDesk,
    later: &L,
    reader: &mut Reader<R>,
    answers: &mut W,
) -> Result<RequestCounts, AnswerFault>
    requires house { L.sizes ≡ sizes_of setup.now.roster }
    requires sizes { desk.old.desk.sizes ≡ sizes_of setup.now.roster }
    ensures answered { (bytes : Option (List ℕ)) → ReadsFrom R.remaining reader.old bytes [] → IfOk result (AnswersAll setup.now bytes desk.old desk.new (W.contents answers.old) (W.contents answers.new)) }
    ensures stopped { (bytes : Option (List ℕ)) → ReadsFrom R.remaining reader.old bytes [] → IfErr result (λ fault. fault ≢ AnswerFault.WriteFault → AnswersFirst setup.now bytes desk.old desk.new (W.contents answers.old) (W.contents answers.new)) }
    ensures cut { (bytes : Option (List ℕ)) → ReadsFrom R.remaining reader.old bytes [] → IfErr result (λ fault. fault ≡ AnswerFault.WriteFault → AnswersInPart setup.now bytes desk.old desk.new (W.contents answers.old) (W.contents answers.new)) }
    ensures knows { KeepsEpochs desk.old desk.new }
    ensures sizes { desk.new.desk.sizes ≡ sizes_of setup.now.roster }
{
    let mut row = open_row(alloc);
    let mut text = Vec::new(alloc);
    let mut refused = 0;
    for done in 0..MOST_REQUESTS + 1 {
        match advance(
            setup, desk, later, reader, &mut row, done, &mut text, answers,
        ) {
            Ok(Progress::Answered { refused: more }) => refused += u64::from(more),
            Ok(Progress::Ended) => {
                return Ok(RequestCounts {
                    requests: done,
                    refused,
                });
            }
            Err(fault) => return Err(fault),
        }
    }
    unreachable!()
}

/// Reads and answers the next request, if there is one. `done` says how many requests came before.
fn advance<R: Read, W: Write, L: LaterDesks>(
    setup: &Setup,
    desk: &mut EpochDesk,
    later: &L,
    reader: &mut Reader<R>,
    row: &mut ByteRecord,
    done: u64,
    text: &mut Vec<u8>,
    answers: &mut W,
) -> Result<Progress, AnswerFault>
    requires done { done ≤ MOST_REQUESTS }
    requires house { L.sizes ≡ sizes_of setup.now.roster }
    requires sizes { desk.old.desk.sizes ≡ sizes_of setup.now.roster }
    ensures most { done ≡ MOST_REQUESTS → IfOk result (λ progress. progress ≡ Progress.Ended) }
    ensures came { (bytes before : Option (List ℕ)) (first : EpochDesk) (refused : ℕ) →
        HasCome R.remaining setup.now bytes reader.old first desk.old before (W.contents answers.old) done refused →
        AdvancesTo R.remaining setup.now bytes reader.new first desk.new before (W.contents answers.new) done refused result }
    ensures sizes { desk.new.desk.sizes ≡ sizes_of setup.now.roster }
    ensures knows { KeepsEpochs desk.old desk.new }
{
    match read_next(reader, row) {
        Ok(true) => {}
        Ok(false) => return Ok(Progress::Ended),
        Err(RecordFault::Failed) => return Err(AnswerFault::ReadFault),
        Err(RecordFault::NoMemory) => return Err(AnswerFault::NoMemory),
    }
    if done == MOST_REQUESTS {
        return Err(AnswerFault::TooLong);
    }
    let refused = match answer_latest(desk, later, setup, row, done + 1, text) {
        Ok(refused) => refused,
        Err(fault) => return Err(fault),
    };
    later.take_down(desk.epoch, row, text);
    match tell(answers, text) {
        Ok(()) => {
            later.note_answer(refused);
            Ok(Progress::Answered { refused })
        }
        Err(_) => Err(AnswerFault::WriteFault),
    }
}
