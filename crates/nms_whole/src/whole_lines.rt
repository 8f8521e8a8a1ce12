//! A reader that passes on complete lines (specs/Lines).
ghost use Rattle.std.specs.Prelude.{◌≡◌, ◌<◌, [], length, option_map, IfOk, OnErr, OnOk};
ghost use Rattle.std.specs.Io.{ReadsAtMost};
ghost use Rattle.std.specs.Io.KnownBytes.{IsAtEnd, Keeps, ReadConsumes};
ghost use Rattle.nms_whole.specs.Lines.{whole_lines};

use crate::MOST_READ;
use crate::held::Held;
use std::io;
use std::io::{ErrorKind, Read};

/// Passes on the complete lines of a stream, one after another.
///
/// A line of at most 4,096 bytes is passed on with its line feed. It may have no double quote, and a carriage return only right
/// before its line feed. Instead of any other line the reader passes on the line `?`, which is a refused record in every
/// layout. The same holds for the rest of the stream after its last line feed, if there is any, because it was torn. So a stray
/// quote, a glued or a torn line costs one record, and what follows is read as it is.
///
/// It takes no memory. A line is passed on as soon as its line feed was read. A read that a signal interrupts is made again.
/// Any other failure of the source is returned, and loses nothing that was read before.
#[derive(Drop)]
pub struct WholeLines<R: Read> {
    source: R,
    held: Held,
}

impl<R: Read> WholeLines<R> {
    ghost use Rattle.nms_whole.specs.Held.{lines_left, ready_of, still};

    /// A reader at the beginning of a stream.
    pub fn new(source: R) -> Self
        ensures { lines_left R.remaining result ≡ option_map whole_lines (R.remaining source) }
    {
        WholeLines {
            source,
            held: Held::new(),
        }
    }

    /// Reads on until something is ready or the stream has ended.
    fn fill(&mut self) -> io::Result<()>
        ensures same { Keeps (lines_left R.remaining self.old) (lines_left R.remaining self.new) }
        ensures end { OnOk result (ready_of self.new.held ≡ [] → IsAtEnd (lines_left R.remaining self.new)) }
    {
        for _ in 0..u64::MAX {
            if !self.held.is_empty() || self.read_more()? == 0 {
                return Ok(());
            }
        }
        Err(io::Error::from(ErrorKind::Interrupted))
    }

    /// Reads once, and takes what was read, if nothing was ready. Returns how many bytes that were. There are none at the end
    /// of the stream, and then a line that was begun is refused as torn.
    fn read_more(&mut self) -> io::Result<usize>
        requires empty { ready_of self.old.held ≡ [] }
        ensures same { Keeps (lines_left R.remaining self.old) (lines_left R.remaining self.new) }
        ensures end { IfOk result (λ count. count ≡ 0 → ready_of self.new.held ≡ [] → IsAtEnd (lines_left R.remaining self.new)) }
    {
        let mut bytes = [0; MOST_READ];
        let count = read_once(&mut self.source, &mut bytes)?;
        if count == 0 {
            self.held.end();
        } else {
            self.held.take_all(&bytes[..count]);
        }
        Ok(count)
    }
}

/// Reads once. A read that a signal interrupts is made again.
fn read_once<R: Read>(source: &mut R, bytes: &mut [u8]) -> io::Result<usize>
    ensures bound { ReadsAtMost result bytes.new }
    ensures bytes { ReadConsumes (R.remaining source.old) (R.remaining source.new) result bytes.new }
{
    for _ in 0..u64::MAX {
        match source.read(bytes) {
            Err(error) if error.kind() == ErrorKind::Interrupted => {}
            read => return read,
        }
    }
    Err(io::Error::from(ErrorKind::Interrupted))
}

impl<R: Read> Read for WholeLines<R> {
    ghost use Rattle.nms_whole.specs.Held.{lines_left};

    ghost remaining = { lines_left R.remaining };

    fn read(&mut self, buf: &mut [u8]) -> io::Result<usize>
        ensures bound { ReadsAtMost result buf.new }
        ensures bytes { ReadConsumes (lines_left R.remaining self.old) (lines_left R.remaining self.new) result buf.new }
    {
        if buf.is_empty() {
            return Ok(0);
        }
        self.fill()?;
        Ok(self.held.give(buf))
    }
}
