//! Why a run ended early (specs/Faults).
ghost use Rattle.std.specs.Prelude.{◌≡◌};
ghost use Rattle.nms_serving.specs.Faults.{code_of, of_client, of_feed, status_of};

use crate::stream::{Stream, letter_of};
use nms_answers::AnswerFault;
use nms_feeds::FeedFault;
use nms_lines::LineFault;
use nms_quote::Feed;
use std::fmt;
use thiserror::Error;

/// Why a run ended early. The tape's file has complete batches, in order. Only the last write to a stream that fails may have
/// left a prefix.
#[derive(Clone, Copy, Debug, PartialEq, Eq, Error)]
pub enum ServeFault {
    /// E1: a stream could not be opened.
    NotOpened(Stream),
    /// E1: a stream could not be read.
    NotRead(Stream),
    /// E2: a stream could not be written: its disk was full, or its reader had left.
    NotWritten(Stream),
    /// E3: a stream has more than 2^40 records.
    TooLong(Stream),
    /// E4: out of memory.
    NoMemory,
    /// E5: a record of a feed was refused, and the run was to end then.
    Refused {
        /// The feed.
        feed: Feed,
        /// The record's number in its feed, from 1.
        number: u64,
        /// Why the record was refused.
        fault: LineFault,
    },
    /// E6: no board was opened, or a thread could not be started.
    NotBegun,
    /// E7: a change came when the tape was full, and no epoch could begin.
    TapeFull,
    /// E7: there were as many epochs as allowed (`MOST_EPOCHS`).
    TooManyEpochs,
    /// E2: the file of the next epoch's tape, or of its lengths, is not empty.
    NotEmpty(Stream),
    /// E8: a client's look gave no reading. Clients are counted from 1.
    NoReading(u8),
}

impl ServeFault {
    /// The code of the fault, `E1` to `E8`.
    pub fn code(self) -> &'static str
        ensures { result.now ≡ code_of self }
    {
        match self {
            ServeFault::NotOpened(_) | ServeFault::NotRead(_) => "E1",
            ServeFault::NotWritten(_) | ServeFault::NotEmpty(_) => "E2",
            ServeFault::TooLong(_) => "E3",
            ServeFault::NoMemory => "E4",
            ServeFault::Refused { .. } => "E5",
            ServeFault::NotBegun => "E6",
            ServeFault::TapeFull | ServeFault::TooManyEpochs => "E7",
            ServeFault::NoReading(_) => "E8",
        }
    }

    /// The exit status of a program that ends with this fault: 1 for a stream, 5 for memory, 6 for records, 7 for the board.
    pub fn status(self) -> u8
        ensures { result ≡ status_of self }
    {
        match self {
            ServeFault::NotOpened(_)
            | ServeFault::NotRead(_)
            | ServeFault::NotWritten(_)
            | ServeFault::NotEmpty(_) => 1,
            ServeFault::NoMemory => 5,
            ServeFault::TooLong(_) | ServeFault::Refused { .. } => 6,
            ServeFault::NotBegun
            | ServeFault::TapeFull
            | ServeFault::TooManyEpochs
            | ServeFault::NoReading(_) => 7,
        }
    }

    /// Whether the fault is one of a feed's or a client's stream, at whose other end is another program.
    pub(crate) fn is_of_other_end(self) -> bool {
        match self {
            ServeFault::NotOpened(stream)
            | ServeFault::NotRead(stream)
            | ServeFault::NotWritten(stream)
            | ServeFault::TooLong(stream) => stream.has_other_end(),
            ServeFault::NoMemory
            | ServeFault::Refused { .. }
            | ServeFault::NotBegun
            | ServeFault::TapeFull
            | ServeFault::TooManyEpochs
            | ServeFault::NotEmpty(_)
            | ServeFault::NoReading(_) => false,
        }
    }

    /// The fault of a feed that was not read to its end.
    pub(crate) fn of_feed(feed: Feed, fault: FeedFault) -> Self
        ensures { result ≡ of_feed feed fault }
    {
        match fault {
            FeedFault::Failed => ServeFault::NotRead(Stream::Feed(feed)),
            FeedFault::TooLong => ServeFault::TooLong(Stream::Feed(feed)),
            FeedFault::NoMemory => ServeFault::NoMemory,
            FeedFault::Refused { number, fault } => ServeFault::Refused {
                feed,
                number,
                fault,
            },
        }
    }

    /// The fault of a client that was not served to its end.
    pub(crate) fn of_client(client: u8, fault: AnswerFault) -> Self
        ensures { result ≡ of_client client fault }
    {
        match fault {
            AnswerFault::ReadFault => ServeFault::NotRead(Stream::Requests(client)),
            AnswerFault::WriteFault => ServeFault::NotWritten(Stream::Answers(client)),
            AnswerFault::TooLong => ServeFault::TooLong(Stream::Requests(client)),
            AnswerFault::NoMemory => ServeFault::NoMemory,
            AnswerFault::NoReading => ServeFault::NoReading(client),
        }
    }
}

impl fmt::Display for ServeFault {
    fn fmt<W: fmt::Write>(&self, f: &mut fmt::Formatter<W>) -> fmt::Result {
        f.write_str(self.code())?;
        match self {
            ServeFault::NotOpened(stream) => write!(f, ": {stream} could not be opened"),
            ServeFault::NotRead(stream) => write!(f, ": {stream} could not be read"),
            ServeFault::NotWritten(stream) => write!(f, ": {stream} could not be written"),
            ServeFault::TooLong(stream) => write!(f, ": {stream} has too many records"),
            ServeFault::NoMemory => f.write_str(": out of memory"),
            ServeFault::Refused {
                feed,
                number,
                fault,
            } => write!(f, ": {}:{number}: {}", letter_of(*feed), fault.code()),
            ServeFault::NotBegun => f.write_str(": the board could not begin"),
            ServeFault::TapeFull => f.write_str(": the tape is full"),
            ServeFault::TooManyEpochs => f.write_str(": there are too many epochs"),
            ServeFault::NotEmpty(stream) => {
                write!(
                    f,
                    ": there is something in {stream} of the next epoch already"
                )
            }
            ServeFault::NoReading(client) => write!(f, ": client {client} had no reading"),
        }
    }
}
