//! The output for answers, which are written in a few large pieces.
use std::alloc::{AllocError, Global};
use std::io;
use std::io::Write;

/// The most bytes that are kept before they are written.
const ROOM: usize = 65_536;
/// Complete lines are written out once they have at least this number of bytes.
const ENOUGH: usize = 49_152;
/// Removes the line of progress on the terminal.
pub(crate) const ERASE: &str = "\r\x1b[K";

/// Keeps what is written, and writes it out in pieces that end with a line, unless a line is very long.
#[derive(Drop)]
pub(crate) struct Answers<W> {
    writer: W,
    text: Vec<u8>,
    erases: bool,
}

impl<W: Write> Answers<W> {
    /// Answers over a writer. If it `erases`, a piece replaces the line of progress on the same terminal.
    pub(crate) fn new(alloc: Global, writer: W, erases: bool) -> Result<Self, AllocError>
    where
        W: Drop,
    {
        Ok(Answers {
            writer,
            text: Vec::with_capacity(alloc, ROOM)?,
            erases,
        })
    }

    /// Writes out the bytes that are kept in memory.
    fn write_out(&mut self) -> io::Result<()> {
        if self.erases {
            self.writer.write_all(ERASE.as_bytes())?;
        }
        self.writer.write_all(&self.text)?;
        self.text.clear();
        Ok(())
    }

    /// Whether the kept bytes end at the end of a line and are enough to be written out as a piece.
    fn is_piece(&self) -> bool {
        self.text.len() > ENOUGH && self.text.last() == Some(&b'\n')
    }
}

impl<W: Write> Write for Answers<W> {
    fn write(&mut self, bytes: &[u8]) -> io::Result<usize> {
        if bytes.len() > ROOM {
            self.write_out()?;
            return self.writer.write(bytes);
        }
        if self.text.len() > ROOM - bytes.len() {
            self.write_out()?;
        }
        self.text.extend_from_slice(bytes)?;
        if self.is_piece() {
            self.write_out()?;
        }
        Ok(bytes.len())
    }

    fn flush(&mut self) -> io::Result<()> {
        if !self.text.is_empty() {
            self.write_out()?;
        }
        self.writer.flush()
    }
}
