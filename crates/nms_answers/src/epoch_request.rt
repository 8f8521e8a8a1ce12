//! Answering one request in the latest epoch (specs/Epochs).
ghost use Rattle.std.specs.Prelude.{◌≡◌, ◌<◌, ◌++◌, ◌∷◌, [], true, false, IfOk, OnOk};
ghost use Rattle.csv.specs.Records.{fields_of};
ghost use Rattle.nms_quote.specs.Roster.{sizes_of};
ghost use Rattle.nms_lines.specs.Text.{text_of};
ghost use Rattle.nms_answers.specs.Epochs.{AnsweredFrom, AnsweredIn, GoesOver, KeepsEpochs, epoch_line};
ghost use Rattle.nms_answers.specs.Told.{KeepsKnown};

use crate::answer_fault::AnswerFault;
use crate::epoch_desk::{EpochDesk, LaterDesks};
use crate::request::answer_request;
use nms_fees::Setup;
use nms_lines::{ByteRecord, end_record, push_number};
use std::alloc::AllocError;

/// Answers the request with this number, counted from 1, in the latest epoch. The text is only the answer, or `EPOCH,k` and the
/// answer if the client went over to epoch k for it. A desk whose epoch ends meanwhile goes over as well.
///
/// `NoReading` if the desk had no reading and there was no later epoch. `NoMemory` may leave a part of the answer in the text.
pub fn answer_latest<L: LaterDesks>(
    desk: &mut EpochDesk,
    later: &L,
    setup: &Setup,
    row: &ByteRecord,
    number: u64,
    text: &mut Vec<u8>,
) -> Result<bool, AnswerFault>
    requires house { L.sizes ≡ sizes_of setup.now.roster }
    requires sizes { desk.old.desk.sizes ≡ sizes_of setup.now.roster }
    ensures answered { IfOk result (AnsweredFrom setup.now number (fields_of row.now) desk.old desk.new text.new.items) }
    ensures sizes { desk.new.desk.sizes ≡ sizes_of setup.now.roster }
    ensures knows { KeepsEpochs desk.old desk.new }
{
    let first = desk.epoch;
    let _went_over = go_over(desk, later);
    for _ in 0..u64::MAX {
        match answer_here(desk, setup, first, row, number, text) {
            Ok(refused) => return Ok(refused),
            Err(AnswerFault::NoReading) => {}
            Err(fault) => return Err(fault),
        }
        if !go_over(desk, later) {
            break;
        }
    }
    Err(AnswerFault::NoReading)
}

/// Goes over to a later epoch, if there is one, and returns whether there was.
fn go_over<L: LaterDesks>(desk: &mut EpochDesk, later: &L) -> bool
    requires sizes { desk.old.desk.sizes ≡ L.sizes }
    ensures over { GoesOver desk.old desk.new }
    ensures later { result ≡ true → desk.old.epoch < desk.new.epoch }
    ensures stays { result ≡ false → desk.new ≡ desk.old }
    ensures sizes { desk.new.desk.sizes ≡ L.sizes }
{
    match later.later(desk.epoch) {
        Some(next) => {
            *desk = next;
            true
        }
        None => false,
    }
}

/// Answers the request in the desk's epoch k. If the client was in another epoch before, the line `EPOCH,k` comes first.
fn answer_here(
    desk: &mut EpochDesk,
    setup: &Setup,
    first: u64,
    row: &ByteRecord,
    number: u64,
    text: &mut Vec<u8>,
) -> Result<bool, AnswerFault>
    requires sizes { desk.old.desk.sizes ≡ sizes_of setup.now.roster }
    ensures answered { IfOk result (AnsweredIn setup.now number (fields_of row.now) first desk.old desk.new text.new.items) }
    ensures epoch { desk.new.epoch ≡ desk.old.epoch }
    ensures knows { KeepsKnown desk.old.desk desk.new.desk }
{
    text.clear();
    if tell_epoch(text, first, desk.epoch).is_err() {
        return Err(AnswerFault::NoMemory);
    }
    answer_request(&mut desk.desk, setup, row, number, text)
}

/// Appends the line `EPOCH,k` of an epoch k, unless the client was in that epoch already.
fn tell_epoch(text: &mut Vec<u8>, first: u64, epoch: u64) -> Result<(), AllocError>
    ensures { OnOk result (text.new.items ≡ text.old.items ++ text_of (epoch_line first epoch)) }
{
    if epoch == first {
        return Ok(());
    }
    text.extend_from_slice(b"EPOCH")?;
    push_number(text, epoch)?;
    end_record(text)
}
