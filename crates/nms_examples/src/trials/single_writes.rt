//! Reports, plans and the text of a live run are each written in one write. They are tried on streams that fail or count.
use super::same;
use super::streams::{Pipe, Source};
use nms_engine::{ChangesFault, LiveFault, order_of, plan_changes, report_changes, write_live};
use nms_fees::Setup;
use nms_lines::{LineFault, PlanTextFault, read_plan, write_plan};
use std::alloc::Global;
use std::cell::Cell;
use std::io::Write;
use std::test::Fail;

pub(super) fn try_all(alloc: Global, setup: &Setup) -> Result<(), Fail> {
    a_report_is_one_write_of_a_file_that_was_read_to_its_end(alloc, setup)?;
    a_plan_is_one_write_and_flushed(alloc, setup)?;
    the_text_of_a_live_run_is_one_write_and_flushed(alloc, setup)?;
    a_plan_is_written_as_it_was_read(alloc, setup)?;
    a_failed_write_of_a_plan_is_told(alloc, setup)?;
    the_faults_that_end_no_run_have_their_statuses()
}

/// What ends a call on a stream: how many writes and flushes succeed, the code of the fault, and how many bytes are written. The
/// code is `""` if the call succeeds.
type Ended = (usize, usize, &'static str, usize);

fn a_report_is_one_write_of_a_file_that_was_read_to_its_end(
    alloc: Global,
    setup: &Setup,
) -> Result<(), Fail> {
    let Some(sym) = setup.roster().find_sym(b"ABC") else {
        return Err(Fail::new("a symbol"));
    };
    for (text, fails, ended) in [
        (b"X,N\n".as_slice(), false, (1, 1, "", 24)),
        (b"X,N\n", false, (0, 1, "E2", 0)),
        (b"X,N\n", false, (1, 0, "E2", 24)),
        (b"X,N\nK\n", false, (9, 9, "L1", 0)),
        (b"", true, (9, 9, "E1", 0)),
        (b"X,N\n", true, (9, 9, "E1", 0)),
        (b"X,N\nK\n", true, (9, 9, "E1", 0)),
        (b"X,N\nX,", true, (9, 9, "E1", 0)),
    ] {
        let (writes, flushes, code, bytes): Ended = ended;
        let out = &Cell::new(0);
        let mut pipe = Pipe::taking(writes, flushes, out);
        let file = Source {
            text,
            fails,
            after: b"\nX,N\n",
        };
        let told = match report_changes(alloc, setup, file, sym, &mut pipe) {
            Ok(()) => "",
            Err(fault) => fault.code(),
        };
        same((told, pipe.bytes), (code, bytes))?;
    }
    Ok(())
}

/// A plan on a board without changes is written in one write and flushed. A failed write or flush ends the call.
fn a_plan_is_one_write_and_flushed(alloc: Global, setup: &Setup) -> Result<(), Fail> {
    let Some(order) = order_of(setup.roster(), "B", "ABC", "100", "10", false, None) else {
        return Err(Fail::new("an order"));
    };
    let due: [Ended; 3] = [(1, 1, "", 44), (0, 1, "L13", 0), (1, 0, "L13", 44)];
    for (writes, flushes, code, bytes) in due {
        let out = &Cell::new(0);
        let mut pipe = Pipe::taking(writes, flushes, out);
        let told = match plan_changes(alloc, setup, b"".as_slice(), &order, &mut pipe) {
            Ok(()) => "",
            Err(fault) => fault.code(),
        };
        same((told, pipe.bytes), (code, bytes))?;
    }
    Ok(())
}

/// The text of a live run of 4 changes and no order is written in one write and flushed.
fn the_text_of_a_live_run_is_one_write_and_flushed(
    alloc: Global,
    setup: &Setup,
) -> Result<(), Fail> {
    let due: [Ended; 3] = [(1, 1, "", 7), (0, 1, "L13", 0), (1, 0, "L13", 7)];
    for (writes, flushes, code, bytes) in due {
        let out = &Cell::new(0);
        let mut pipe = Pipe::taking(writes, flushes, out);
        let told = match write_live(alloc, setup.roster(), 4, &[], &mut pipe) {
            Ok(()) => "",
            Err(fault) => fault.code(),
        };
        same((told, pipe.bytes), (code, bytes))?;
    }
    Ok(())
}

/// The longest plan is written as it was read. Its amounts of money lie on both sides of 64 bits, which no planner writes.
fn a_plan_is_written_as_it_was_read(alloc: Global, setup: &Setup) -> Result<(), Fail> {
    let mut text = Vec::new(alloc);
    let most = "99999999999999999999.999999999";
    writeln!(
        text,
        "PLAN,99999999,S,PNY,999999999,9999999.9999,M,999999999,-{most},N+P+Y+Z"
    )?;
    for _ in 0..32 {
        text.extend_from_slice(b"LEG,Z,9999999.9999,999999999\n")?;
    }
    for money in [
        "18446744073.709551615",
        "18446744073.709551616",
        "18446744074.000000007",
        "18446744073709551615.999999999",
        "18446744073709551616.000000000",
        most,
    ] {
        writeln!(text, "CUT,9999999.9999,MARGINAL,{money}")?;
        writeln!(text, "CUT,9999999.9999,MARGINAL,-{money}")?;
    }
    for _ in 12..32 {
        writeln!(text, "CUT,9999999.9999,MARGINAL,-{most}")?;
    }
    text.extend_from_slice(b"END\n")?;
    let (plan, certificate) = read_plan(alloc, text.as_slice(), setup.roster())?;
    let mut told = Vec::new(alloc);
    write_plan(alloc, &plan, &certificate, setup.roster(), &mut told)?;
    same(told.as_slice(), text.as_slice())
}

fn a_failed_write_of_a_plan_is_told(alloc: Global, setup: &Setup) -> Result<(), Fail> {
    let text = b"PLAN,7,S,PNY,1,0.0001,M,0,-0.000000001\nEND\n".as_slice();
    let (plan, certificate) = read_plan(alloc, text, setup.roster())?;
    let out = &Cell::new(0);
    let mut pipe = Pipe::taking(0, 0, out);
    let told = write_plan(alloc, &plan, &certificate, setup.roster(), &mut pipe);
    same(told, Err(PlanTextFault::WriteFault))
}

/// Three faults have their codes and statuses: a wrong feed in a file without feeds, a desk without a reading, a gate that stays
/// closed.
fn the_faults_that_end_no_run_have_their_statuses() -> Result<(), Fail> {
    let wrong_feed = ChangesFault::Line(LineFault::WrongFeed);
    same((wrong_feed.code(), wrong_feed.status()), ("L9", 6))?;
    for (fault, code) in [(LiveFault::Desk, "E8"), (LiveFault::GateLimit, "E9")] {
        same((fault.code(), fault.status()), (code, 7))?;
    }
    Ok(())
}
