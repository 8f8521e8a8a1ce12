//! The record of a run's requests and answers.
use crate::moment::Moment;
use crate::named::Named;
use crate::run::Run;
use crate::serve_fault::ServeFault;
use nms_lines::ByteRecord;
use std::alloc::Global;
use std::fs::File;
use std::io;
use std::io::{ErrorKind, Write};

/// The file to which all clients' requests and answers are written. It was opened to append, so that each thread's write stays
/// in one piece.
#[derive(Clone, Copy)]
pub struct Record<'a> {
    pub file: &'a File,
    /// The stream and the path of this file, by which a fault reports it.
    pub named: Named<'a>,
}

/// A request with its answer.
#[derive(Clone, Copy)]
pub(crate) struct Answered<'a> {
    /// The client's number, from 1.
    pub(crate) client: u8,
    pub(crate) epoch: u64,
    pub(crate) request: &'a ByteRecord,
    pub(crate) answer: &'a [u8],
}

impl Record<'_> {
    /// Writes a request and its answer: `ASKED`, the client's number, the epoch, the time, and the request; then the lines of the answer.
    /// If they can't be written, the run ends.
    pub(crate) fn write(
        &self,
        host: &HostRuntime,
        alloc: Global,
        run: &Run<'_>,
        answered: Answered<'_>,
    ) {
        let mut text = Vec::new(alloc);
        let written = match tell(&mut text, host, answered) {
            Ok(()) => {
                let mut file = self.file;
                file.write_all(&text)
            }
            Err(error) => Err(error),
        };
        match written {
            Ok(()) => {}
            Err(error) if error.kind() == ErrorKind::OutOfMemory => run.fail(ServeFault::NoMemory),
            Err(error) => {
                let fault = ServeFault::NotWritten(self.named.stream);
                run.fail_at(fault, self.named, &error);
            }
        }
    }
}

/// Writes the lines of a request and its answer.
fn tell<W: Write>(to: &mut W, host: &HostRuntime, answered: Answered<'_>) -> io::Result<()> {
    to.write_all(b"ASKED,")?;
    to.write_fmt(answered.client)?;
    to.write_all(b",")?;
    to.write_fmt(answered.epoch)?;
    to.write_all(b",")?;
    if let Some(now) = Moment::now(host) {
        to.write_fmt(now)?;
    }
    for place in 0..answered.request.len() {
        to.write_all(b",")?;
        if let Some(field) = answered.request.get(place) {
            to.write_all(field)?;
        }
    }
    to.write_all(b"\n")?;
    to.write_all(answered.answer)
}
