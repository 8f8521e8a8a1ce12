//! Streams of a run: when the run ends, a thread at one of them ends too.
ghost use Rattle.std.specs.Prelude.{◌≡◌, None};
ghost use Rattle.std.specs.Io.{ReadsAtMost};
ghost use Rattle.std.specs.Io.KnownBytes.{ReadConsumes};
ghost use Rattle.nms_serving.specs.Streams.{GivesOrEnds, stream_of};

use crate::named::Named;
use crate::run::Run;
use crate::serve_fault::ServeFault;
use std::io;
use std::io::{ErrorKind, Read, Write};

/// A stream of a run. A read or a write that fails ends the run. When the run ends, a reader is at its end. If a fault ends the
/// run, a writer fails.
#[derive(Drop)]
pub struct Guarded<'a, F> {
    stream: F,
    run: &'a Run<'a>,
    named: Named<'a>,
}

impl<'a, F> Guarded<'a, F> {
    /// A wrapper for a stream of the run, with the name by which a fault reports it.
    pub fn new(stream: F, run: &'a Run<'a>, named: Named<'a>) -> Self
        ensures { stream_of result ≡ stream }
    {
        Guarded { stream, run, named }
    }

    /// Ends the run if a read or a write has failed. An interrupted one is repeated.
    fn note(&self, fault: ServeFault, outcome: &io::Result<usize>) {
        if let Err(error) = outcome
            && error.kind() != ErrorKind::Interrupted
        {
            self.run.fail_at(fault, self.named, error);
        }
    }
}

impl<F: Read> Read for Guarded<'_, F> {
    fn read(&mut self, buf: &mut [u8]) -> io::Result<usize>
        ensures bound { ReadsAtMost result buf.new }
        ensures bytes { ReadConsumes None None result buf.new }
        ensures given { GivesOrEnds (F.remaining (stream_of self.old)) (F.remaining (stream_of self.new)) result buf.new }
    {
        if self.run.is_stopped() {
            return Ok(0);
        }
        let read = self.stream.read(buf);
        // The run itself wrote a line feed to wake this thread. It is no part of the stream.
        if self.run.is_stopped() {
            return Ok(0);
        }
        self.note(ServeFault::NotRead(self.named.stream), &read);
        read
    }
}

impl<F: Write> Write for Guarded<'_, F> {
    ghost use Rattle.nms_serving.specs.Streams.{stream_of};

    ghost contents = { λ guarded. F.contents (stream_of guarded) };

    fn write(&mut self, buf: &[u8]) -> io::Result<usize> {
        if self.run.is_failed() {
            return Err(io::Error::from(ErrorKind::BrokenPipe));
        }
        let written = self.stream.write(buf);
        self.note(ServeFault::NotWritten(self.named.stream), &written);
        written
    }

    fn flush(&mut self) -> io::Result<()> {
        self.stream.flush()
    }
}
