//! Passing on lines of a stream: a writer that takes the stream, and passes each line on as an object, or with its time.
use crate::json_lines::{field_of, write_fields};
use nms_show::{Form, ShowFault};
use nms_times::{TimeOfDay, Times};
use std::alloc::Global;
use std::io::{Error, ErrorKind, Result, Write};
use std::{mem, str};

/// The end of the header, with the name of the column of times.
const HEAD: &[u8] = b",time\n";

/// A writer that takes a stream, and passes each line on: as text with the line's time, or as a JSON object.
#[derive(Drop)]
pub(crate) struct PassedLines<'a, W> {
    alloc: Global,
    /// The times of the versions; `None` if each line becomes a JSON object without a time.
    times: Option<&'a Times>,
    form: Form,
    answers: &'a mut W,
    /// The beginning of a line whose end was not yet written.
    begun: Vec<u8>,
    is_after_header: bool,
    wants_memory: bool,
}

impl<'a, W: Write> PassedLines<'a, W> {
    /// A writer that has taken nothing.
    pub(crate) fn new(
        alloc: Global,
        times: Option<&'a Times>,
        form: Form,
        answers: &'a mut W,
    ) -> Self {
        PassedLines {
            alloc,
            times,
            form,
            answers,
            begun: Vec::new(alloc),
            is_after_header: false,
            wants_memory: false,
        }
    }

    /// Whether a write failed because it was out of memory.
    pub(crate) fn wants_memory(&self) -> bool {
        self.wants_memory
    }

    /// Takes a piece of the stream, which is the rest of a line with its end, or the beginning of a line.
    fn take(&mut self, piece: &[u8]) -> std::result::Result<(), ShowFault> {
        let Some((b'\n', rest)) = piece.split_last() else {
            return self.keep(piece);
        };
        if self.begun.is_empty() {
            return self.tell(rest);
        }
        self.keep(rest)?;
        let line = mem::replace(&mut self.begun, Vec::new(self.alloc));
        self.tell(&line)
    }

    /// Keeps the beginning of a line.
    fn keep(&mut self, piece: &[u8]) -> std::result::Result<(), ShowFault> {
        match self.begun.extend_from_slice(piece) {
            Ok(()) => Ok(()),
            Err(_) => Err(ShowFault::NoMemory),
        }
    }

    /// Passes on a complete line: the header if it is the first line, else a line of the stream.
    fn tell(&mut self, line: &[u8]) -> std::result::Result<(), ShowFault> {
        if !self.is_after_header {
            self.is_after_header = true;
            return self.tell_header(line);
        }
        let Some(times) = self.times else {
            return write_fields(self.alloc, self.answers, line, None);
        };
        match time_of(times, line) {
            Some(time) => self.tell_timed(line, &time.text()),
            None => self.tell_timed(line, &[]),
        }
    }

    /// Passes a line on with its time, which may be empty.
    fn tell_timed(&mut self, line: &[u8], time: &[u8]) -> std::result::Result<(), ShowFault> {
        if self.form.is_json() {
            return write_fields(self.alloc, self.answers, line, Some(time));
        }
        self.put(line)?;
        self.put(b",")?;
        self.put(time)?;
        self.put(b"\n")
    }

    /// Passes the header of the stream on, with a column for times. A stream of JSON objects has no header.
    fn tell_header(&mut self, line: &[u8]) -> std::result::Result<(), ShowFault> {
        if self.form.is_json() {
            return Ok(());
        }
        self.put(line)?;
        self.put(HEAD)
    }

    /// Writes bytes.
    fn put(&mut self, bytes: &[u8]) -> std::result::Result<(), ShowFault> {
        match self.answers.write_all(bytes) {
            Ok(()) => Ok(()),
            Err(_) => Err(ShowFault::WriteFault),
        }
    }
}

impl<W: Write> Write for PassedLines<'_, W> {
    fn write(&mut self, bytes: &[u8]) -> Result<usize> {
        for piece in bytes.split_inclusive(|byte| *byte == b'\n') {
            match self.take(piece) {
                Ok(()) => {}
                Err(fault) => {
                    self.wants_memory = fault == ShowFault::NoMemory;
                    return Err(Error::from(ErrorKind::WriteZero));
                }
            }
        }
        Ok(bytes.len())
    }

    fn flush(&mut self) -> Result<()> {
        self.answers.flush()
    }
}

/// The time of a line's version, if there is one.
fn time_of(times: &Times, line: &[u8]) -> Option<TimeOfDay> {
    times.time_of(version_of(line)?)
}

/// The version of a line, which is its first field.
fn version_of(line: &[u8]) -> Option<u64> {
    str::from_utf8(field_of(line).0).ok()?.parse::<u64>().ok()
}
