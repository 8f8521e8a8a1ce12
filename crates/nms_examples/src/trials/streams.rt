//! Streams that fail after a number of calls, or count the bytes written.
use std::cell::Cell;
use std::io;
use std::io::{ErrorKind, Read, Write};

/// A source that gives a text, then fails once if asked to, and then gives another text.
#[derive(Drop)]
pub(super) struct Source<'a> {
    pub(super) text: &'a [u8],
    pub(super) fails: bool,
    pub(super) after: &'a [u8],
}

impl<'a> Read for Source<'a> {
    fn read(&mut self, buf: &mut [u8]) -> io::Result<usize> {
        if self.text.is_empty() && self.fails {
            self.fails = false;
            return Err(io::Error::from(ErrorKind::BrokenPipe));
        }
        if self.text.is_empty() {
            self.text = self.after;
            self.after = b"";
        }
        self.text.read(buf)
    }
}

/// A stream that takes n writes and n flushes, and fails from then on. It counts the bytes written, and those flushed.
#[derive(Drop)]
pub(super) struct Pipe<'a> {
    pub(super) bytes: usize,
    pub(super) writes: usize,
    pub(super) flushes: usize,
    pub(super) out: &'a Cell<usize>,
}

impl<'a> Pipe<'a> {
    pub(super) fn taking(writes: usize, flushes: usize, out: &'a Cell<usize>) -> Self {
        Pipe {
            bytes: 0,
            writes,
            flushes,
            out,
        }
    }
}

impl<'a> Write for Pipe<'a> {
    fn write(&mut self, buf: &[u8]) -> io::Result<usize> {
        self.writes = one_less(self.writes)?;
        self.bytes = checked_sum(self.bytes, buf.len())?;
        Ok(buf.len())
    }

    fn flush(&mut self) -> io::Result<()> {
        self.flushes = one_less(self.flushes)?;
        self.out.set(self.bytes);
        Ok(())
    }
}

/// A count of what is left, less one. It is a failure if nothing is left.
fn one_less(left: usize) -> io::Result<usize> {
    left.checked_sub(1)
        .ok_or(io::Error::from(ErrorKind::BrokenPipe))
}

/// The sum of two counts of bytes; a failure if no count can hold it.
pub(super) fn checked_sum(before: usize, more: usize) -> io::Result<usize> {
    before
        .checked_add(more)
        .ok_or(io::Error::from(ErrorKind::OutOfMemory))
}
