//! A feed's worker. It reads its text and sends the changes (specs/Reading).
ghost use Rattle.std.specs.Prelude.{◌≡◌, ◌<◌, ◌+◌, ◌++◌, ◌∷◌, ℕ, List, [], length, map, Ok, Err, Some, IfErr, IfOk, OnOk};
ghost use Rattle.nms_lines.specs.Records.{ReadsFrom};
ghost use Rattle.nms_lines.specs.Rows.{fields_of};
ghost use Rattle.nms_quote.specs.declared.change.Change.{Change};
ghost use Rattle.nms_lines.specs.declared.line.Line.TheVariants as line;
ghost use Rattle.nms_feed.specs.declared.TheConstants.{MOST_SENT};
ghost use Rattle.nms_live.specs.Crew.{IsFedBy};
ghost use Rattle.nms_lines.specs.ChangeReading.{IsOwn, feed_reading};
ghost use Rattle.nms_live.specs.Reading.{IsFeedFault, IsRead, IsRefusal};

use crate::ended::Ended;
use crate::gate::{Gate, GatePoint, passes};
use crate::given::{Means, text_of};
use crate::live_fault::LiveFault;
use nms_feed::{MOST_SENT, Sender};
use nms_fees::Setup;
use nms_lines::{ByteRecord, Reader, open_records, open_row, read_feed_change, read_next};
use nms_quote::{Change, Feed, Roster, SideQuote};
use nms_units::Lot;
use std::snapshot::Snapshot;
use std::sync::Wait;
use std::thread::Promise;

/// What a feed's worker returns: its end of the lane, and why it stopped early, if it did.
#[derive(Drop)]
pub struct Fed {
    pub(crate) sender: Sender,
    pub(crate) stop: Option<LiveFault>,
}

/// What went into a feed's worker. It exists only in proofs.
#[derive(Drop)]
pub struct FeedJob {
    pub(crate) setup: Snapshot<Setup>,
    pub(crate) feeds: Snapshot<Vec<Vec<u8>>>,
    pub(crate) sender: Snapshot<Sender>,
}

impl Promise<Fed> for FeedJob {
    ghost use Rattle.nms_live.specs.Crew.{KeepsFeedJob};

    ghost kept_by = { KeepsFeedJob };
}

/// Reads the text of a sender's feed, sends its changes in order, and notes that it has ended.
pub(crate) fn feed_all<R: Wait, G: Gate>(
    means: &Means<'_, R, G>,
    setup: &Setup,
    feeds: &[Vec<u8>],
    ended: &Ended,
    mut sender: Sender,
) -> Fed
    requires fresh { sender.sent ≡ [] }
    ensures fed { IsFedBy setup.now.roster (map (λ text. text.items) feeds.now) sender result }
{
    let feed = sender.feed();
    let text = text_of(feeds, feed);
    let stop = match send_all(means, setup, feed, text, &mut sender) {
        Ok(()) => None,
        Err(fault) => Some(fault),
    };
    ended.add(feed);
    Fed { sender, stop }
}

/// Sends the changes of a text in order, up to the first record that is refused.
fn send_all<R: Wait, G: Gate>(
    means: &Means<'_, R, G>,
    setup: &Setup,
    feed: Feed,
    text: &[u8],
    sender: &mut Sender,
) -> Result<(), LiveFault>
    requires fresh { sender.old.sent ≡ [] }
    requires feed { sender.old.feed ≡ feed }
    ensures same { (sender.new.lane ≡ sender.old.lane) × (sender.new.feed ≡ sender.old.feed) }
    ensures read { OnOk result (IsRead setup.now.roster feed text.now sender.new.sent) }
    ensures refused { IfErr result (IsFeedFault setup.now.roster feed text.now) }
{
    let mut reader = open_records(means.alloc, text);
    let mut row = open_row(means.alloc);
    send_rows(means, setup, feed, &mut reader, &mut row, sender)
}

/// Sends the changes that a reader's records give, up to the first record that is refused. Each record is read into the given
/// row.
fn send_rows<R: Wait, G: Gate>(
    means: &Means<'_, R, G>,
    setup: &Setup,
    feed: Feed,
    reader: &mut Reader<&[u8]>,
    row: &mut ByteRecord,
    sender: &mut Sender,
) -> Result<(), LiveFault>
    requires fresh { sender.old.sent ≡ [] }
    requires feed { sender.old.feed ≡ feed }
    ensures same { (sender.new.lane ≡ sender.old.lane) × (sender.new.feed ≡ sender.old.feed) }
    ensures read { (text : List ℕ) → ReadsFrom (λ source. Some source.now) reader.old (Some text) [] → OnOk result (IsRead setup.now.roster feed text sender.new.sent) }
    ensures refused { (text : List ℕ) → ReadsFrom (λ source. Some source.now) reader.old (Some text) [] → IfErr result (IsFeedFault setup.now.roster feed text) }
{
    for index in 0..MOST_SENT {
        match read_next(reader, row) {
            Ok(true) => match send_record(means, setup, feed, index, row, sender) {
                Ok(()) => {}
                Err(fault) => return Err(fault),
            },
            Ok(false) => return Ok(()),
            Err(_) => return Err(LiveFault::NoMemory),
        }
    }
    // This never happens, because no text has that number of records.
    Err(LiveFault::NoMemory)
}

/// Sends the change that a record gives. The feed sent `index` changes before it.
fn send_record<R: Wait, G: Gate>(
    means: &Means<'_, R, G>,
    setup: &Setup,
    feed: Feed,
    index: u64,
    row: &ByteRecord,
    sender: &mut Sender,
) -> Result<(), LiveFault>
    requires room { length sender.old.sent < MOST_SENT }
    requires few { index < MOST_SENT }
    ensures same { (sender.new.lane ≡ sender.old.lane) × (sender.new.feed ≡ sender.old.feed) }
    ensures sent { OnOk result ((change : Change) × (feed_reading setup.now.roster feed (fields_of row.now) ≡ Ok (line.Change change))
        × IsOwn setup.now.roster feed change × (sender.new.sent ≡ sender.old.sent ++ change ∷ [])) }
    ensures refused { IfErr result (IsRefusal feed (index + 1) (feed_reading setup.now.roster feed (fields_of row.now))) }
{
    let change = match read_feed_change(row, setup.roster(), feed) {
        Ok(change) => change,
        Err(fault) => {
            return Err(LiveFault::Line {
                feed,
                number: index + 1,
                fault,
            });
        }
    };
    let at = GatePoint::Send { feed, k: index };
    if !passes(means.rt, means.gate, at) {
        return Err(LiveFault::GateLimit);
    }
    // The prover has to see the types in a change before the change moves, so the code mentions them.
    let _seen: (Option<SideQuote>, Option<Lot>) = (None, None);
    sender.send(means.rt, change);
    means.gate.done(at);
    Ok(())
}
