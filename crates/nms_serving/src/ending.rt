//! A stream that fails once the run was asked to end, so that its reader does not take this for the stream's own end.
use crate::run::Run;
use std::io;
use std::io::{ErrorKind, Read};

/// A stream of a run. After the run was asked to end, it fails instead of being at its end. So the reader drops an incomplete
/// last line, and does not refuse it as a record.
#[derive(Drop)]
pub(crate) struct Ending<'a, F> {
    stream: F,
    run: &'a Run<'a>,
}

impl<'a, F> Ending<'a, F> {
    /// A wrapper for a stream of the run.
    pub(crate) fn new(stream: F, run: &'a Run<'a>) -> Self {
        Ending { stream, run }
    }
}

impl<F: Read> Read for Ending<'_, F> {
    fn read(&mut self, buf: &mut [u8]) -> io::Result<usize> {
        match self.stream.read(buf) {
            Ok(0) if self.run.is_asked() => Err(io::Error::from(ErrorKind::BrokenPipe)),
            read => read,
        }
    }
}
