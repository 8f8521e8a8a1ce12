//! A feed's thread: it opens the feed's path, reads it as it comes, and sends its changes.
ghost use Rattle.std.specs.Prelude.{◌≡◌, []};
ghost use Rattle.nms_feeds.specs.Streams.{IsCounted};

use crate::door::{Door, is_open_fifo};
use crate::ending::Ending;
use crate::guarded::Guarded;
use crate::report::FeedNotice;
use crate::run::Run;
use crate::serve_fault::ServeFault;
use crate::serving::Means;
use crate::stream::Stream;
use crate::text::Text;
use crate::watcher::Watcher;
use nms_feed::Sender;
use nms_feeds::{FeedCounts, send_stream};
use nms_quote::Feed;
use std::fs::File;
use std::sync::Wait;
use std::thread;
use std::time::Duration;

/// How many milliseconds a feed rests before it looks for the next writer of its FIFO. This product's own rule.
const REST: u64 = 10;

/// The result of a feed's thread.
#[derive(Clone, Copy, Drop)]
pub struct FeedEnd {
    /// The feed.
    pub feed: Feed,
    /// How many records were read, and how many of them were refused.
    pub counts: FeedCounts,
}

/// Reads the feed of a sender from its path to the end of the stream, and sends its changes. The feed's end is reported. A
/// fault ends the run.
pub(crate) fn feed_all<R: Wait + Sync>(
    means: &Means<'_, R>,
    door: &Door<'_>,
    mut sender: Sender,
) -> FeedEnd
    requires fresh { sender.sent ≡ [] }
{
    let feed = sender.feed();
    let mut counts = FeedCounts::new();
    match read_feed(means, door, feed, &mut counts, &mut sender) {
        Ok(()) => {}
        Err(fault) => means.run.fail(fault),
    }
    let end = FeedEnd { feed, counts };
    means
        .run
        .teller
        .keep(means.rt, Text::of(FeedNotice::Ended(end)));
    means.run.end_feed(feed);
    end
}

/// Opens a feed's path, and sends the changes of its stream. If the run keeps FIFOs open, it reads on after the writer of a
/// FIFO left. The run's end stays open, so that no writer finds it closed. A last record without its line feed is refused
/// first. If a FIFO was removed and made again, the new one is opened.
fn read_feed<R: Wait + Sync>(
    means: &Means<'_, R>,
    door: &Door<'_>,
    feed: Feed,
    counts: &mut FeedCounts,
    sender: &mut Sender,
) -> Result<(), ServeFault>
    requires counted { IsCounted sender.old.sent counts.old }
{
    let run = means.run;
    let mut file = match door.open_to_read(means.host, run) {
        Ok(file) => file,
        Err(error) => return Err(door.refuse(run, Stream::Feed(feed), &error)),
    };
    let voice = run.voices.of(feed);
    voice.open();
    let is_kept = run.ways.keep && is_open_fifo(&file);
    let watcher = Watcher::new(means.rt, means.host, run);
    for _ in 0..u64::MAX {
        // The run's clients are checked before the feed is read. So changes that were written before the clients ended are
        // still read.
        let is_last = !is_kept || run.is_closing();
        voice.begin_to_read();
        read_writer(means, door, &mut file, &watcher, counts, sender)?;
        voice.end_of_writers();
        if is_last {
            return Ok(());
        }
        watcher.note_left(FeedEnd {
            feed,
            counts: *counts,
        });
        if door.is_renewed(means.host, &file) {
            match door.open_anew(means.host, means.alloc, run) {
                Ok(Some(again)) => {
                    file = again;
                    continue;
                }
                // The FIFO was removed once more.
                Ok(None) => {}
                Err(error) => return Err(door.refuse(run, Stream::Feed(feed), &error)),
            }
        }
        thread::sleep(means.host, Duration::from_millis(REST));
    }
    Ok(())
}

/// Sends the changes of a stream until its writers have left.
fn read_writer<R: Wait + Sync>(
    means: &Means<'_, R>,
    door: &Door<'_>,
    file: &mut File,
    watcher: &Watcher<'_, R>,
    counts: &mut FeedCounts,
    sender: &mut Sender,
) -> Result<(), ServeFault>
    requires counted { IsCounted sender.old.sent counts.old }
    ensures counted { IsCounted sender.new.sent counts.new }
{
    let (run, feed) = (means.run, sender.feed());
    match send_stream(
        means.rt,
        means.alloc,
        run.setup,
        run.ways.strict,
        Ending::new(Guarded::new(file, run, door.named(Stream::Feed(feed))), run),
        watcher,
        counts,
        sender,
    ) {
        Ok(()) => Ok(()),
        Err(fault) => Err(ServeFault::of_feed(feed, fault)),
    }
}
