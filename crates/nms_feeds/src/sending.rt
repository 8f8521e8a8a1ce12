//! The sending of a feed's stream (specs/Streams).
ghost use Rattle.std.specs.Prelude.{◌≡◌, ℕ, ◌+◌, ◌<◌, ◌∷◌, List, [], Option, option_map, Ok, Err, IfErr, IfOk, OnErr, OnOk, true};
ghost use Rattle.csv.specs.Records.{fields_of};
ghost use Rattle.nms_lines.specs.Records.{ReadsFrom};
ghost use Rattle.nms_feed.specs.declared.TheConstants.{MOST_SENT};
ghost use Rattle.nms_whole.specs.Lines.{whole_lines};
ghost use Rattle.nms_lines.specs.ChangeReading.{feed_reading};
ghost use Rattle.nms_feeds.specs.Streams.{HasBegun, HasRead, IsCounted, IsRefusal, IsRefusedAt, IsSentOf};

use crate::feed_counts::FeedCounts;
use crate::feed_fault::FeedFault;
use crate::feed_watch::FeedWatch;
use nms_feed::{MOST_SENT, Sender};
use nms_fees::Setup;
use nms_lines::{
    ByteRecord, Reader, RecordFault, open_records, open_row, read_feed_change, read_next,
};
use nms_quote::SideQuote;
use nms_units::Lot;
use nms_whole::WholeLines;
use std::alloc::Global;
use std::io::Read;
use std::sync::Wait;

/// Reads the records of a feed's stream as they come, and sends the change that each of them gives, in order.
///
/// Only complete lines are read (`WholeLines`). A record that is refused is reported to the watch, skipped and counted; if
/// `strict` is set, it ends the reading. A feed may be read from several streams, one after another; the counts go on from one
/// to the next. `Ok` is the end of the stream.
///
/// It ends early if the stream fails, if out of memory, or at more than 2^40 records. The changes of the records before stay
/// sent. It waits if the lane is full.
pub fn send_stream<W: Wait, R: Read + Drop, O: FeedWatch>(
    rt: &W,
    alloc: Global,
    setup: &Setup,
    strict: bool,
    source: R,
    watch: &O,
    counts: &mut FeedCounts,
    sender: &mut Sender,
) -> Result<(), FeedFault>
    requires counted { IsCounted sender.old.sent counts.old }
    ensures same { (sender.new.lane ≡ sender.old.lane) × (sender.new.feed ≡ sender.old.feed) }
    ensures counted { IsCounted sender.new.sent counts.new }
    // All records of the complete lines were read. Only the changes that they give were sent, in order.
    ensures read { OnOk result (HasRead setup.now.roster sender.old.feed (option_map whole_lines (R.remaining source)) sender.old.sent sender.new.sent counts.old counts.new) }
    // After a fault, only some first records of the complete lines may have been read. Only the changes that they give were
    // sent, in order.
    ensures begun { OnErr result (HasBegun setup.now.roster sender.old.feed (option_map whole_lines (R.remaining source)) sender.old.sent sender.new.sent counts.old counts.new) }
    // A refused record ends the reading only if the caller asked for that. Then no refused record is skipped.
    ensures strict { strict ≡ true → counts.new.refused ≡ counts.old.refused }
    ensures refused { IfErr result (IsRefusedAt setup.now.roster sender.old.feed (option_map whole_lines (R.remaining source)) counts.old strict) }
{
    let mut reader = open_records(alloc, WholeLines::new(source));
    let mut row = open_row(alloc);
    send_rows(
        rt,
        setup,
        strict,
        &mut reader,
        &mut row,
        watch,
        counts,
        sender,
    )
}

/// Sends the changes that a reader's records give. Each record is read into the given row.
fn send_rows<W: Wait, S: Read, O: FeedWatch>(
    rt: &W,
    setup: &Setup,
    strict: bool,
    reader: &mut Reader<S>,
    row: &mut ByteRecord,
    watch: &O,
    counts: &mut FeedCounts,
    sender: &mut Sender,
) -> Result<(), FeedFault>
    requires counted { IsCounted sender.old.sent counts.old }
    ensures same { (sender.new.lane ≡ sender.old.lane) × (sender.new.feed ≡ sender.old.feed) }
    ensures counted { IsCounted sender.new.sent counts.new }
    ensures read { (bytes : Option (List ℕ)) → ReadsFrom S.remaining reader.old bytes [] → OnOk result (HasRead setup.now.roster sender.old.feed bytes sender.old.sent sender.new.sent counts.old counts.new) }
    ensures begun { (bytes : Option (List ℕ)) → ReadsFrom S.remaining reader.old bytes [] → OnErr result (HasBegun setup.now.roster sender.old.feed bytes sender.old.sent sender.new.sent counts.old counts.new) }
    ensures strict { strict ≡ true → counts.new.refused ≡ counts.old.refused }
    ensures refused { (bytes : Option (List ℕ)) → ReadsFrom S.remaining reader.old bytes [] → IfErr result (IsRefusedAt setup.now.roster sender.old.feed bytes counts.old strict) }
{
    for _ in 0..u64::MAX {
        match read_next(reader, row) {
            Ok(true) => {}
            Ok(false) => return Ok(()),
            Err(RecordFault::Failed) => return Err(FeedFault::Failed),
            Err(RecordFault::NoMemory) => return Err(FeedFault::NoMemory),
        }
        if counts.records == MOST_SENT {
            return Err(FeedFault::TooLong);
        }
        match send_record(rt, setup, strict, row, watch, counts, sender) {
            Ok(()) => {}
            Err(fault) => return Err(fault),
        }
    }
    Err(FeedFault::TooLong)
}

/// Sends the change that a record gives, or skips the record.
fn send_record<W: Wait, O: FeedWatch>(
    rt: &W,
    setup: &Setup,
    strict: bool,
    row: &ByteRecord,
    watch: &O,
    counts: &mut FeedCounts,
    sender: &mut Sender,
) -> Result<(), FeedFault>
    requires counted { IsCounted sender.old.sent counts.old }
    requires room { counts.old.records < MOST_SENT }
    ensures same { (sender.new.lane ≡ sender.old.lane) × (sender.new.feed ≡ sender.old.feed) }
    ensures counted { IsCounted sender.new.sent counts.new }
    ensures sent { OnOk result (IsSentOf setup.now.roster sender.old.feed (fields_of row.now ∷ []) sender.old.sent sender.new.sent counts.old counts.new) }
    ensures unsent { OnErr result ((sender.new ≡ sender.old) × (counts.new ≡ counts.old)) }
    ensures strict { strict ≡ true → counts.new.refused ≡ counts.old.refused }
    ensures refused { IfErr result (IsRefusal strict (counts.old.records + 1) (feed_reading setup.now.roster sender.old.feed (fields_of row.now))) }
{
    let feed = sender.feed();
    let number = counts.records + 1;
    match read_feed_change(row, setup.roster(), feed) {
        Ok(change) => {
            // The prover has to see the types in a change before the change moves, so the code mentions them.
            let _seen: (Option<SideQuote>, Option<Lot>) = (None, None);
            sender.send(rt, change);
            counts.records = number;
            watch.sent(feed);
            Ok(())
        }
        Err(fault) => {
            watch.refused(feed, number, fault, row);
            if strict {
                return Err(FeedFault::Refused { number, fault });
            }
            counts.records = number;
            counts.refused += 1;
            Ok(())
        }
    }
}
