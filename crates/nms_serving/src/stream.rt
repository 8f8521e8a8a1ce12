//! The streams of a run, as faults name them.
ghost use Rattle.std.specs.Prelude.{◌≡◌};
ghost use Rattle.nms_fees.specs.Places.{letter_of};

use nms_quote::Feed;
use std::fmt;

/// A stream of a run.
#[derive(Clone, Copy, Debug, PartialEq, Eq)]
pub enum Stream {
    /// The stream of a feed.
    Feed(Feed),
    /// The requests of a client. Clients are counted from 1.
    Requests(u8),
    /// The answers to a client.
    Answers(u8),
    /// The file of the tape.
    Tape,
    /// The file of the lengths that were published.
    Lengths,
    /// The file of the times of the changes.
    Times,
    /// The file of the requests and answers.
    Record,
}

impl Stream {
    /// Whether another program has the stream's other end. It has if the stream is one of a feed or a client, and no file of
    /// the tape.
    pub(crate) fn has_other_end(self) -> bool {
        match self {
            Stream::Feed(_) | Stream::Requests(_) | Stream::Answers(_) => true,
            Stream::Tape | Stream::Lengths | Stream::Times | Stream::Record => false,
        }
    }
}

impl fmt::Display for Stream {
    fn fmt<W: fmt::Write>(&self, f: &mut fmt::Formatter<W>) -> fmt::Result {
        match self {
            Stream::Feed(feed) => write!(f, "feed {}", letter_of(*feed)),
            Stream::Requests(client) => write!(f, "the requests of client {client}"),
            Stream::Answers(client) => write!(f, "the answers to client {client}"),
            Stream::Tape => f.write_str("the tape"),
            Stream::Lengths => f.write_str("the file of published lengths"),
            Stream::Times => f.write_str("the file of times"),
            Stream::Record => f.write_str("the record of answers"),
        }
    }
}

/// The letter of a feed.
pub fn letter_of(feed: Feed) -> &'static str
    ensures { result.now ≡ letter_of feed }
{
    match feed {
        Feed::A => "A",
        Feed::B => "B",
        Feed::C => "C",
        Feed::D => "D",
        Feed::E => "E",
        Feed::F => "F",
        Feed::G => "G",
        Feed::H => "H",
    }
}
