//! The two streams of one router. If one of them fails, that is the router's fault: it is reported, and the run goes on.
ghost use Rattle.std.specs.Io.{ReadsAtMost, WritesAtMost};

use crate::door::Door;
use crate::named::Named;
use crate::report::RouterFault;
use crate::serve_fault::ServeFault;
use crate::serving::Means;
use crate::stream::Stream;
use crate::text::Text;
use std::fs::File;
use std::io::{ErrorKind, Read, Write};
use std::sync::Wait;
use std::time::Duration;
use std::{io, thread};

/// How often the first answer is tried again while no one reads the answers, and how many milliseconds pass between two tries.
/// Together they are 100 milliseconds. This product's own rule.
const TRIES: u32 = 5;

const REST: u64 = 20;

/// The requests of a router. Once the run ends, a read fails, so that the beginning of a request is dropped.
#[derive(Drop)]
pub(crate) struct RouterRequests<'a, 'f, R> {
    means: &'a Means<'a, R>,
    number: u8,
    door: &'a Door<'a>,
    file: &'f File,
    /// The first byte of the requests, until it is passed on. It was read while the run waited for the router.
    first: Option<u8>,
}

impl<'a, 'f, R> RouterRequests<'a, 'f, R> {
    /// The requests of the client with this number, after their first byte was read.
    pub(crate) fn new(
        means: &'a Means<'a, R>,
        number: u8,
        door: &'a Door<'a>,
        file: &'f File,
        first: u8,
    ) -> Self {
        RouterRequests {
            means,
            number,
            door,
            file,
            first: Some(first),
        }
    }

    /// Passes on the first byte of the requests, which was read before. After that, it reads the file of the requests.
    fn read_on(&mut self, buf: &mut [u8]) -> io::Result<usize>
        ensures bound { ReadsAtMost result buf.new }
    {
        if let Some(first) = self.first
            && !buf.is_empty()
        {
            buf[0] = first;
            self.first = None;
            return Ok(1);
        }
        let mut file = self.file;
        file.read(buf)
    }
}

impl<R: Wait> Read for RouterRequests<'_, '_, R> {
    fn read(&mut self, buf: &mut [u8]) -> io::Result<usize> {
        let read = self.read_on(buf);
        if self.means.run.is_stopped() {
            return Err(io::Error::from(ErrorKind::BrokenPipe));
        }
        if let Err(error) = &read {
            let stream = Stream::Requests(self.number);
            let line = line_of(self.number, ServeFault::NotRead(stream));
            report(self.means, self.door.named(stream), line, error);
        }
        read
    }
}

/// The answers to a router. The first one waits until someone reads them.
#[derive(Drop)]
pub(crate) struct RouterAnswers<'a, R> {
    means: &'a Means<'a, R>,
    number: u8,
    door: &'a Door<'a>,
    /// The file of the answers; none if it could not be opened.
    file: Option<File>,
    /// Whether a part of an answer was written to this router.
    has_begun: bool,
}

impl<'a, R> RouterAnswers<'a, R> {
    /// The answers to the client with this number.
    pub(crate) fn new(
        means: &'a Means<'a, R>,
        number: u8,
        door: &'a Door<'a>,
        file: Option<File>,
    ) -> Self {
        RouterAnswers {
            means,
            number,
            door,
            file,
            has_begun: false,
        }
    }

    /// Writes bytes of an answer in one call. If the path of the answers could not be opened before, it is opened first.
    fn write_once(&mut self, buf: &[u8]) -> io::Result<usize>
        ensures bound { WritesAtMost result buf.now }
    {
        let means = self.means;
        if self.file.is_none() {
            self.file = self.door.answer_anew(means.host, means.alloc, means.run)?;
        }
        match &self.file {
            Some(file) => {
                let mut file = file;
                file.write(buf)
            }
            None => Err(io::Error::from(ErrorKind::NotFound)),
        }
    }

    /// Whether a reader may still come: no answer was written, and the FIFO is the one that the path names.
    fn may_be_read(&self) -> bool {
        let is_renewed = match &self.file {
            Some(file) => self.door.is_renewed(self.means.host, file),
            None => false,
        };
        !self.has_begun && !is_renewed && !self.means.run.is_stopped()
    }

    /// Writes bytes of an answer. If there is no reader, it tries again for a short time, as long as a reader may come.
    fn write_in_time(&mut self, buf: &[u8]) -> io::Result<usize>
        ensures bound { WritesAtMost result buf.now }
    {
        for _ in 0..TRIES {
            let written = self.write_once(buf);
            if written.is_ok() || !self.may_be_read() {
                return written;
            }
            thread::sleep(self.means.host, Duration::from_millis(REST));
        }
        self.write_once(buf)
    }
}

impl<R: Wait> Write for RouterAnswers<'_, R> {
    fn write(&mut self, buf: &[u8]) -> io::Result<usize> {
        // This is checked because the disk may have failed to keep what this answer shows.
        if self.means.run.is_failed() {
            return Err(io::Error::from(ErrorKind::BrokenPipe));
        }
        let written = self.write_in_time(buf);
        match &written {
            Ok(_) => self.has_begun = true,
            Err(error) => {
                let stream = Stream::Answers(self.number);
                let line = line_of(self.number, ServeFault::NotWritten(stream));
                report(self.means, self.door.named(stream), line, error);
            }
        }
        written
    }

    fn flush(&mut self) -> io::Result<()> {
        Ok(())
    }
}

/// The line of a fault of a client's router.
fn line_of(number: u8, fault: ServeFault) -> Text {
    Text::of(RouterFault { number, fault })
}

/// Reports a fault of a stream with its path and the reason, unless the run ends. An interrupted call is repeated, so it is no
/// fault.
fn report<R: Wait>(means: &Means<'_, R>, named: Named<'_>, line: Text, error: &io::Error) {
    if !means.run.is_stopped() && error.kind() != ErrorKind::Interrupted {
        means
            .run
            .teller
            .tell(means.rt, named.after(line).and(error));
    }
}
