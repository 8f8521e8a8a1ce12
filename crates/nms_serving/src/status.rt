//! The text of a run's state: a record for the run, one for its board, and one for each feed and each client.
use crate::handover::{House, Slot};
use crate::run::Run;
use crate::serving::Means;
use crate::signs::Sign;
use crate::stream::letter_of;
use crate::tally::Tally;
use crate::voice::Voice;
use nms_quote::{Feed, MOST_FEEDS};
use std::io::Write;
use std::sync::Wait;
use std::{fmt, io};

/// Milliseconds in a second.
const SECOND: u64 = 1_000;

/// What earlier looks found about a feed.
#[derive(Clone, Copy)]
struct Known {
    /// How many records the feed had.
    records: u64,
    /// When the feed's last record came, in milliseconds of the clock.
    last: u64,
    /// How often the feed's writers had left.
    ends: u64,
}

/// The state of a run, written once a second.
#[derive(Drop)]
pub(crate) struct Status {
    feeds: [Known; MOST_FEEDS as usize],
    /// When the run was opened, and when its state was last written, in milliseconds of the clock.
    begun: u64,
    written: u64,
    /// The text of the run's state, which is made again at each writing.
    text: Vec<u8>,
    /// Whether the last writing failed, which was reported.
    has_failed: bool,
}

impl Status {
    /// The state of a run that serves from the given time on, in milliseconds of the clock.
    pub(crate) fn new<R>(means: &Means<'_, R>, now: u64) -> Self {
        let none = Known {
            records: 0,
            last: now,
            ends: 0,
        };
        Status {
            feeds: [none; MOST_FEEDS as usize],
            begun: now,
            written: 0,
            text: Vec::new(means.alloc),
            has_failed: false,
        }
    }

    /// Looks at the run. The caller does so several times a second. Once a second, and at the end, the run's state is written.
    pub(crate) fn look<R: Wait, H: House>(
        &mut self,
        means: &Means<'_, R>,
        sign: Sign<'_>,
        slots: &[Slot<H>],
        now: u64,
        is_last: bool,
    ) {
        if is_last || now.wrapping_sub(self.written) >= SECOND {
            self.written = now;
            self.show(means, sign, slots, now, is_last);
        }
        self.learn(means.run, now);
    }

    /// Notes what the feeds have sent by now.
    fn learn(&mut self, run: &Run<'_>, now: u64) {
        for place in 0..run.setup.feeds() {
            if let (Some(feed), Some(known)) = (
                Feed::at(place),
                self.feeds.get_mut(usize::from(place)),
            ) {
                let voice = run.voices.of(feed);
                let (records, _) = voice.counts();
                if known.records != records {
                    known.last = now;
                }
                known.records = records;
                known.ends = voice.reading().0;
            }
        }
    }

    /// Writes the state. If that fails, it is reported once, until a writing succeeds again.
    fn show<R: Wait, H: House>(
        &mut self,
        means: &Means<'_, R>,
        sign: Sign<'_>,
        slots: &[Slot<H>],
        now: u64,
        is_last: bool,
    ) {
        let written = match self.tell(means, slots, now, is_last) {
            Ok(()) => sign.write(means.host, &self.text),
            Err(error) => Err(error),
        };
        if let Err(error) = &written
            && !self.has_failed
        {
            sign.report(means, error);
        }
        self.has_failed = written.is_err();
    }

    /// Makes the text of the run's state in memory.
    fn tell<R, H: House>(
        &mut self,
        means: &Means<'_, R>,
        slots: &[Slot<H>],
        now: u64,
        is_last: bool,
    ) -> io::Result<()> {
        let run = means.run;
        let since = now.wrapping_sub(self.begun) / SECOND;
        self.text.clear();
        let state = RunState {
            is_over: is_last || run.is_stopped(),
            since,
        };
        self.text.write_fmt(state)?;
        self.text.write_fmt(BoardState::of(run))?;
        for place in 0..run.setup.feeds() {
            if let (Some(feed), Some(known)) = (
                Feed::at(place),
                self.feeds.get(usize::from(place)),
            ) {
                self.text
                    .write_fmt(FeedState::of(feed, run.voices.of(feed), known, now))?;
            }
        }
        let mut number = 0u32;
        for slot in slots {
            number = number.wrapping_add(1);
            self.text.write_fmt(ClientState::of(number, &slot.tally))?;
        }
        Ok(())
    }
}

/// The state of the run: `RUN,SERVING,3600`, with the seconds for which it has served, or `RUN,ENDED,3600`.
#[derive(Clone, Copy)]
pub(crate) struct RunState {
    pub(crate) is_over: bool,
    pub(crate) since: u64,
}

impl fmt::Display for RunState {
    fn fmt<W: fmt::Write>(&self, f: &mut fmt::Formatter<W>) -> fmt::Result {
        let (state, since) = (if self.is_over { "ENDED" } else { "SERVING" }, self.since);
        write!(f, "RUN,{state},{since}\n")
    }
}

/// The state of the board: `BOARD,0,17,3`, with its epoch, its version, and how many changes wait.
#[derive(Clone, Copy)]
struct BoardState {
    epoch: u64,
    version: u64,
    waiting: u64,
}

impl BoardState {
    /// The state of a run's board. The changes sent are counted feed by feed, after those taken, because a change may be taken
    /// before it is counted.
    fn of(run: &Run<'_>) -> Self {
        let (epoch, version) = run.progress.at();
        let taken = run.progress.taken();
        let mut sent = 0u64;
        for place in 0..run.setup.feeds() {
            if let Some(feed) = Feed::at(place) {
                sent = sent.wrapping_add(run.voices.of(feed).sent());
            }
        }
        BoardState {
            epoch,
            version,
            waiting: sent.checked_sub(taken).unwrap_or(0),
        }
    }
}

impl fmt::Display for BoardState {
    fn fmt<W: fmt::Write>(&self, f: &mut fmt::Formatter<W>) -> fmt::Result {
        let (epoch, version, waiting) = (self.epoch, self.version, self.waiting);
        write!(f, "BOARD,{epoch},{version},{waiting}\n")
    }
}

/// The state of a feed: `FEED,A,17,1,0,WRITER`. It has the records, how many of them were refused, the seconds since the last
/// one, and the writer.
#[derive(Clone, Copy)]
struct FeedState {
    feed: Feed,
    records: u64,
    refused: u64,
    /// The seconds since the last record; none before the first.
    silent: Option<u64>,
    writer: &'static str,
}

impl FeedState {
    /// The state of a feed. A record that came since the last look counts as coming now.
    fn of(feed: Feed, voice: &Voice, known: &Known, now: u64) -> Self {
        let (records, refused) = voice.counts();
        let last = if records == known.records {
            known.last
        } else {
            now
        };
        FeedState {
            feed,
            records,
            refused,
            silent: if records == 0 {
                None
            } else {
                Some(now.wrapping_sub(last) / SECOND)
            },
            writer: writer_of(voice, known.ends),
        }
    }
}

/// Whether a feed has a writer. A FIFO without a writer is at its end again and again. So the feed has a writer if no end was
/// found since the last look.
fn writer_of(voice: &Voice, ends_before: u64) -> &'static str {
    let (ends, is_read) = voice.reading();
    if voice.has_ended() {
        "ENDED"
    } else if !voice.has_opened() {
        "NONE"
    } else if is_read && ends == ends_before {
        "WRITER"
    } else {
        "LEFT"
    }
}

impl fmt::Display for FeedState {
    fn fmt<W: fmt::Write>(&self, f: &mut fmt::Formatter<W>) -> fmt::Result {
        let (feed, records, refused) = (letter_of(self.feed), self.records, self.refused);
        write!(f, "FEED,{feed},{records},{refused},")?;
        if let Some(silent) = self.silent {
            write!(f, "{silent}")?;
        }
        write!(f, ",{}\n", self.writer)
    }
}

/// The state of a client: `CLIENT,1,ROUTER,17,1`. It says whether a router is there, and has the requests of all its routers,
/// and how many of them were refused.
#[derive(Clone, Copy)]
struct ClientState {
    number: u32,
    router: &'static str,
    requests: u64,
    refused: u64,
}

impl ClientState {
    /// The state of a client by its counts.
    fn of(number: u32, tally: &Tally) -> Self {
        let counts = tally.of_all();
        let router = if tally.has_ended() {
            "ENDED"
        } else if tally.is_there() {
            "ROUTER"
        } else {
            "NONE"
        };
        ClientState {
            number,
            router,
            requests: counts.requests,
            refused: counts.refused,
        }
    }
}

impl fmt::Display for ClientState {
    fn fmt<W: fmt::Write>(&self, f: &mut fmt::Formatter<W>) -> fmt::Result {
        let (number, router) = (self.number, self.router);
        let (requests, refused) = (self.requests, self.refused);
        write!(f, "CLIENT,{number},{router},{requests},{refused}\n")
    }
}
