//! Scripts and their records on streams that fail or count.
use super::same;
use super::streams::{Pipe, Source, checked_sum};
use nms_engine::{ScriptFault, run_script};
use nms_fees::Setup;
use nms_lines::{
    ByteRecord, Reader, RecordFault, open_records, read_next, the_least_fault_is_read,
};
use std::alloc::Global;
use std::cell::Cell;
use std::io;
use std::io::{ErrorKind, Read};
use std::test::Fail;

pub(super) fn try_all(alloc: Global, setup: &Setup) -> Result<(), Fail> {
    each_answer_is_one_write_and_out_before_the_next_read(alloc, setup)?;
    a_failed_read_leaves_the_answers_so_far(alloc, setup)?;
    a_failed_write_or_flush_ends_the_script(alloc, setup)?;
    no_record_follows_a_failed_read(alloc)?;
    // A law is a function that does nothing, so a program may call it like any other.
    the_least_fault_is_read();
    Ok(())
}

/// The records of a script, each with how many bytes its answer has.
const RECORDS: [(&str, usize); 9] = [
    ("Q,N,ABC,A,9.99,100,10.00,300\n", 0),
    ("F\n", "PUB,1\n".len()),
    ("N,0,PNY\n", "BEST,0,PNY,1,EMPTY,,,,,,,,\n".len()),
    ("K\n", "ERR,4,L1\n".len()),
    ("Q,P,ABC,A,,,10.00,400\n", 0),
    ("T\n", "TAKEN,2\n".len()),
    ("Q,P,ABC,A,,,10.00,500\n", 0),
    ("N,2,ABC\n", "ERR,8,L10\n".len()),
    ("L,1\n", "TOLD,1,1\n".len()),
];

fn records() -> &'static [(&'static str, usize)] {
    &RECORDS
}

/// A source of records that checks the answers. It gives the next record only if the answers to all earlier ones were written, no
/// more and no less. Else the read fails.
#[derive(Drop)]
struct Asker<'a> {
    rest: &'static [u8],
    next: usize,
    due: usize,
    out: &'a Cell<usize>,
}

impl<'a> Read for Asker<'a> {
    fn read(&mut self, buf: &mut [u8]) -> io::Result<usize> {
        if self.rest.is_empty() {
            if self.out.get() != self.due {
                return Err(io::Error::from(ErrorKind::TimedOut));
            }
            let Some((record, answer)) = records().get(self.next) else {
                return Ok(0);
            };
            self.next += 1;
            self.due = checked_sum(self.due, *answer)?;
            self.rest = record.as_bytes();
        }
        self.rest.read(buf)
    }
}

/// Runs a script of nine records on a stream that takes nine writes and flushes. Six of the records are answered.
fn each_answer_is_one_write_and_out_before_the_next_read(
    alloc: Global,
    setup: &Setup,
) -> Result<(), Fail> {
    let out = &Cell::new(0);
    let asker = Asker {
        rest: b"",
        next: 0,
        due: 0,
        out,
    };
    let mut pipe = Pipe::taking(9, 9, out);
    let counts = run_script(alloc, setup, asker, &mut pipe)?;
    same((counts.records, counts.refused), (9, 2))?;
    same((counts.tape, counts.published), (2, 1))?;
    same((pipe.writes, pipe.flushes, out.get()), (3, 3, 69))
}

/// Runs a script on a stream that takes n writes and flushes. Returns the fault that ends the script, and how many bytes were
/// written.
fn ended(
    alloc: Global,
    setup: &Setup,
    script: Source<'_>,
    writes: usize,
    flushes: usize,
) -> (Option<ScriptFault>, usize) {
    let out = &Cell::new(0);
    let mut pipe = Pipe::taking(writes, flushes, out);
    let came_to = run_script(alloc, setup, script, &mut pipe);
    (came_to.err(), pipe.bytes)
}

fn a_failed_read_leaves_the_answers_so_far(alloc: Global, setup: &Setup) -> Result<(), Fail> {
    // The source is two texts with a failure between them, because the last record of the third script does not end.
    for (text, answers) in [
        (b"".as_slice(), 0),
        (b"Q,N,ABC,A,,,10.00,100\nF\nP\n", 12),
        (b"Q,N,ABC,A,,,10.00,100\nF\nP\nN,0,ABC", 12),
    ] {
        let script = Source {
            text,
            fails: true,
            after: b"\nF\n",
        };
        let ended = ended(alloc, setup, script, 9, 9);
        same(ended, (Some(ScriptFault::ReadFault), answers))?;
    }
    Ok(())
}

fn a_failed_write_or_flush_ends_the_script(alloc: Global, setup: &Setup) -> Result<(), Fail> {
    let broken = Some(ScriptFault::WriteFault);
    // The first record has no answer, so nothing is written for it. The answer to each other one has 6 bytes.
    for (writes, flushes, fault, written) in [
        (0, 9, broken, 0),
        (1, 9, broken, 6),
        (2, 9, broken, 12),
        (9, 0, broken, 6),
        (9, 1, broken, 12),
        (9, 2, broken, 18),
        (3, 3, None, 18),
    ] {
        let script = Source {
            text: b"Q,N,ABC,A,,,10.00,100\nF\nP\nF\n",
            fails: false,
            after: b"",
        };
        let ended = ended(alloc, setup, script, writes, flushes);
        same(ended, (fault, written))?;
    }
    Ok(())
}

fn no_record_follows_a_failed_read(alloc: Global) -> Result<(), Fail> {
    let source = Source {
        text: b"T\nF",
        fails: true,
        after: b"\nP\n",
    };
    let (mut reader, mut row) = (open_records(alloc, source), ByteRecord::new(alloc));
    try_reads(&mut reader, &mut row)
}

/// A read succeeds, the next one fails, and then there is nothing more to read.
fn try_reads(reader: &mut Reader<Source<'_>>, row: &mut ByteRecord) -> Result<(), Fail> {
    for found in [Ok(true), Err(RecordFault::Failed), Ok(false)] {
        same(read_next(reader, row), found)?;
    }
    Ok(())
}
