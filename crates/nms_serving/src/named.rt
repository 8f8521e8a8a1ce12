//! A stream of a run with its path, as faults name it.
use crate::stream::Stream;
use crate::text::Text;

/// A stream of a run with the path that it was opened by.
#[derive(Clone, Copy)]
pub struct Named<'a> {
    /// The stream.
    pub stream: Stream,
    /// The path of the stream. For every file of a tape, it is the path of the first epoch's tape.
    pub path: &'a str,
    /// The epoch, if the stream is a file of the tape; else 0.
    pub epoch: u64,
}

impl Named<'_> {
    /// The text with a colon and the path of the stream.
    pub(crate) fn after(self, text: Text) -> Text {
        let named = text.and_shown(self.path.as_bytes());
        match self.stream {
            Stream::Tape => self.with_epoch(named),
            Stream::Lengths => self.with_epoch(named).with(".published"),
            Stream::Times => self.with_epoch(named).with(".times"),
            Stream::Feed(_) | Stream::Requests(_) | Stream::Answers(_) | Stream::Record => named,
        }
    }

    /// The text of a line, with a full stop and the epoch's number added if the epoch is not the first.
    fn with_epoch(self, text: Text) -> Text {
        if self.epoch == 0 {
            return text;
        }
        text.with(".").with(self.epoch)
    }
}
