//! The reports about a run while it goes on, each a line on standard error.
use crate::client::ClientEnd;
use crate::feeding::FeedEnd;
use crate::serve_fault::ServeFault;
use crate::silence::Notice;
use crate::stream::letter_of;
use crate::text::Text;
use arrayvec::ArrayVec;
use nms_answers::RequestCounts;
use nms_lines::{ByteRecord, LineFault};
use nms_quote::Feed;
use std::io::Write;
use std::{fmt, io};

/// The most bytes of a refused record that are shown. This product's own rule.
const MOST_SHOWN: usize = 200;

/// The line of a refused record: `A:17: L6: ` and the record, with escapes for what is not safe to show.
pub(crate) fn refused_line(feed: Feed, number: u64, fault: LineFault, record: &ByteRecord) -> Text {
    let mut shown = ArrayVec::<u8, MOST_SHOWN>::new();
    let is_cut = write_record(&mut shown, record).is_err();
    let line = Text::of(Refused {
        feed,
        number,
        fault,
    })
    .and_shown(shown.as_slice());
    if is_cut { line.with("..") } else { line }
}

/// Writes the fields of a record with commas between them.
fn write_record<W: Write>(to: &mut W, record: &ByteRecord) -> io::Result<()> {
    for place in 0..record.len() {
        if place > 0 {
            to.write_all(b",")?;
        }
        if let Some(field) = record.get(place) {
            to.write_all(field)?;
        }
    }
    Ok(())
}

/// A report of a refused record: `A:17: L6`.
#[derive(Clone, Copy)]
struct Refused {
    /// The feed.
    feed: Feed,
    /// The record's number in its feed, from 1.
    number: u64,
    /// Why the record was refused.
    fault: LineFault,
}

impl fmt::Display for Refused {
    fn fmt<W: fmt::Write>(&self, f: &mut fmt::Formatter<W>) -> fmt::Result {
        let (feed, number, fault) = (letter_of(self.feed), self.number, self.fault.code());
        write!(f, "{feed}:{number}: {fault}")
    }
}

/// A report about a silent feed: `feed A: silent for 5 s`.
#[derive(Clone, Copy)]
pub(crate) struct Heard {
    /// The feed.
    pub(crate) feed: Feed,
    /// After how many seconds a feed is reported as silent.
    pub(crate) seconds: u32,
    /// Whether the feed fell silent or sends again.
    pub(crate) notice: Notice,
}

impl fmt::Display for Heard {
    fn fmt<W: fmt::Write>(&self, f: &mut fmt::Formatter<W>) -> fmt::Result {
        let (feed, seconds) = (letter_of(self.feed), self.seconds);
        match self.notice {
            Notice::Silent => write!(f, "feed {feed}: silent for {seconds} s"),
            Notice::SpeaksAgain => write!(f, "feed {feed}: speaks again"),
        }
    }
}

/// What has happened to a feed.
#[derive(Clone, Copy)]
pub(crate) enum FeedNotice {
    /// The feed has ended.
    Ended(FeedEnd),
    /// The feed's writer has left, and its FIFO is read on.
    Left(FeedEnd),
}

impl fmt::Display for FeedNotice {
    fn fmt<W: fmt::Write>(&self, f: &mut fmt::Formatter<W>) -> fmt::Result {
        let (end, what) = match self {
            FeedNotice::Ended(end) => (end, "ended"),
            FeedNotice::Left(end) => (end, "its writer has left"),
        };
        let (records, refused) = (end.counts.records, end.counts.refused);
        let feed = letter_of(end.feed);
        write!(
            f,
            "feed {feed}: {what}: {records} records, {refused} refused"
        )
    }
}

/// A report that a client has ended.
#[derive(Clone, Copy)]
pub(crate) struct ClientNotice(pub(crate) ClientEnd);

impl fmt::Display for ClientNotice {
    fn fmt<W: fmt::Write>(&self, f: &mut fmt::Formatter<W>) -> fmt::Result {
        let number = self.0.number;
        match self.0.counts {
            Some(counts) => {
                let (requests, refused) = (counts.requests, counts.refused);
                write!(
                    f,
                    "client {number}: ended: {requests} requests, {refused} refused"
                )
            }
            None => write!(f, "client {number}: not served to its end"),
        }
    }
}

/// A report that a router of a client has left.
#[derive(Clone, Copy)]
pub(crate) struct RouterNotice {
    /// The client's number, from 1.
    pub(crate) number: u8,
    /// How many requests of the router were answered, and how many of them were refused.
    pub(crate) counts: RequestCounts,
}

impl fmt::Display for RouterNotice {
    fn fmt<W: fmt::Write>(&self, f: &mut fmt::Formatter<W>) -> fmt::Result {
        let (number, requests, refused) = (self.number, self.counts.requests, self.counts.refused);
        write!(
            f,
            "client {number}: its router has left: {requests} requests, {refused} refused"
        )
    }
}

/// A fault of a client's router, which ends no run.
#[derive(Clone, Copy)]
pub(crate) struct RouterFault {
    /// The client's number, from 1.
    pub(crate) number: u8,
    /// The fault.
    pub(crate) fault: ServeFault,
}

impl fmt::Display for RouterFault {
    fn fmt<W: fmt::Write>(&self, f: &mut fmt::Formatter<W>) -> fmt::Result {
        write!(f, "client {}: {}", self.number, self.fault)
    }
}

/// A report of how many reports were dropped.
#[derive(Clone, Copy)]
pub(crate) struct Dropped(pub(crate) u64);

impl fmt::Display for Dropped {
    fn fmt<W: fmt::Write>(&self, f: &mut fmt::Formatter<W>) -> fmt::Result {
        let count = self.0;
        write!(f, "{count} reports were dropped")
    }
}
