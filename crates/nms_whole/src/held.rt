//! The state of a reader of complete lines (specs/Held).
ghost use Rattle.std.specs.Prelude.{◌≡◌, ◌+◌, ◌<◌, ◌≤◌, ◌∷◌, ◌++◌, List, ℕ, [], length, min, take, true, false};
ghost use Rattle.nms_whole.specs.Going.{ends_in_return, given_after, spoils};
ghost use Rattle.nms_whole.specs.Lines.{refused_line};
ghost use Rattle.nms_whole.specs.declared.TheConstants.{MOST_READ, ROOM};

use crate::{MOST_LINE, MOST_READ, ROOM};
use arrayvec::ArrayVec;

/// The lines that are ready to be passed on, and the line that was begun.
#[derive(Drop)]
pub(crate) struct Held {
    /// The text that is passed on. Its first `given` bytes were passed on already.
    ready: ArrayVec<u8, ROOM>,
    given: usize,
    /// The bytes of the line that was begun; none if it can't be passed on.
    line: ArrayVec<u8, MOST_LINE>,
    /// Whether the line that was begun can't be passed on.
    is_bad: bool,
    ghost within: { given ≤ length ready.items },
    ghost short: { length line.items ≤ 4096 },
    ghost forgotten: { is_bad ≡ true → line.items ≡ [] },
}

impl Held {
    ghost use Rattle.nms_whole.specs.Held.{ready_of, still, weight};

    /// The state before any byte was read.
    pub(crate) fn new() -> Self
        ensures { (bytes : List ℕ) → still result bytes ≡ given_after [] false bytes }
    {
        Held {
            ready: ArrayVec::new_in(()),
            given: 0,
            line: ArrayVec::new_in(()),
            is_bad: false,
        }
    }

    /// Whether no byte is ready to be passed on.
    pub(crate) fn is_empty(&self) -> bool
        ensures empty { result ≡ true → ready_of self.now ≡ [] }
        ensures some { result ≡ false → 0 < length (ready_of self.now) }
    {
        self.given == self.ready.len()
    }

    /// Passes on the bytes that are ready, as far as the caller's buffer has room, and returns how many these are.
    pub(crate) fn give(&mut self, buf: &mut [u8]) -> usize
        ensures count { result ≡ min (length buf.new) (length (ready_of self.old)) }
        ensures bytes { ready_of self.old ≡ take result buf.new ++ ready_of self.new }
        ensures same { (self.new.line ≡ self.old.line) × (self.new.is_bad ≡ self.old.is_bad) }
    {
        let ready = &self.ready.as_slice()[self.given..];
        let count = buf.len().min(ready.len());
        buf[..count].copy_from_slice(&ready[..count]);
        self.given += count;
        count
    }

    /// Takes the bytes that were read from the stream. Before that, no byte may be ready to be passed on.
    pub(crate) fn take_all(&mut self, bytes: &[u8])
        requires empty { ready_of self.old ≡ [] }
        requires few { length bytes.now ≤ MOST_READ }
        ensures { (rest : List ℕ) → still self.new rest ≡ still self.old (bytes.now ++ rest) }
    {
        self.ready.clear();
        self.given = 0;
        for byte in bytes {
            self.take(*byte);
        }
    }

    /// Takes the next byte of the stream.
    fn take(&mut self, byte: u8)
        requires room { weight self.old + 2 ≤ ROOM }
        ensures taken { (rest : List ℕ) → still self.new rest ≡ still self.old (byte ∷ rest) }
        ensures weight { weight self.new ≤ weight self.old + 1 }
    {
        if byte == b'\n' {
            self.end_line();
        } else if self.is_bad || self.is_spoilt_by(byte) {
            self.is_bad = true;
            self.line.clear();
        } else {
            self.line.push(byte);
        }
    }

    /// Whether a byte makes the line that was begun one that can't be passed on.
    fn is_spoilt_by(&self, byte: u8) -> bool
        ensures { result ≡ spoils self.now.line.items byte }
    {
        byte == b'"' || self.line.is_full() || ends_in_return(self.line.as_slice())
    }

    /// Ends the line that was begun, by its line feed.
    fn end_line(&mut self)
        requires room { weight self.old + 2 ≤ ROOM }
        ensures taken { (rest : List ℕ) → still self.new rest ≡ still self.old (10 ∷ rest) }
        ensures weight { weight self.new ≤ weight self.old + 1 }
    {
        if self.is_bad {
            self.is_bad = false;
            refuse(&mut self.ready);
        } else {
            push_line(&mut self.ready, self.line.as_slice());
            self.line.clear();
        }
    }

    /// Ends the stream. A line that was begun lacks its line feed, and is refused as torn.
    pub(crate) fn end(&mut self)
        requires empty { ready_of self.old ≡ [] }
        ensures same { still self.new [] ≡ still self.old [] }
        ensures ended { still self.new [] ≡ ready_of self.new }
    {
        if self.is_bad || !self.line.is_empty() {
            self.ready.clear();
            self.given = 0;
            self.is_bad = false;
            self.line.clear();
            refuse(&mut self.ready);
        }
    }
}

/// Whether the last byte of a line is a carriage return.
fn ends_in_return(line: &[u8]) -> bool
    ensures { result ≡ ends_in_return line.now }
{
    match line.last() {
        Some(byte) => *byte == b'\r',
        None => false,
    }
}

/// Adds a line with its line feed.
fn push_line(ready: &mut ArrayVec<u8, ROOM>, line: &[u8])
    requires room { length ready.old.items + length line.now + 1 ≤ ROOM }
    ensures { ready.new.items ≡ ready.old.items ++ (line.now ++ 10 ∷ []) }
{
    let Ok(()) = ready.try_extend_from_slice(line) else {
        unreachable!()
    };
    ready.push(b'\n');
}

/// Adds the line that replaces a refused line.
fn refuse(ready: &mut ArrayVec<u8, ROOM>)
    requires room { length ready.old.items + 2 ≤ ROOM }
    ensures { ready.new.items ≡ ready.old.items ++ refused_line }
{
    ready.push(b'?');
    ready.push(b'\n');
}
