//! A client whose routers come and go, one after another. Each router gets its own answers.
ghost use Rattle.std.specs.Prelude.{◌≡◌};
ghost use Rattle.nms_quote.specs.Roster.{sizes_of};

use crate::client::Client;
use crate::door::Door;
use crate::report::RouterNotice;
use crate::router::{RouterAnswers, RouterRequests};
use crate::serve_fault::ServeFault;
use crate::serving::Means;
use crate::stream::Stream;
use crate::text::Text;
use nms_answers::{EpochDesk, LaterDesks, RequestCounts, answer_stream};
use std::fs::File;
use std::io::Read;
use std::sync::Wait;
use std::thread;
use std::time::Duration;

/// How many milliseconds a client's thread rests between two looks for the next router. This product's own rule.
const REST: u64 = 20;
/// How many milliseconds the answers stay closed after a router left, so that the router finds their end. This product's own rule.
const PAUSE: u64 = 100;

/// The two paths of a client.
#[derive(Clone, Copy)]
pub(crate) struct Paths<'a> {
    /// The path from which the client's requests are read.
    pub(crate) input: &'a Door<'a>,
    /// The path to which the answers to the client are written.
    pub(crate) output: &'a Door<'a>,
}

/// This run's ends of a client's FIFOs.
#[derive(Drop)]
struct Ends {
    /// The file of the requests. This end stays open, so that no router finds it closed.
    requests: File,
    /// The file of the answers. There is none between two routers, and while the path names nothing.
    answers: Option<File>,
}

/// Answers one router after another, each from its first request to the end of its stream or to its fault, until the run ends.
/// The requests of each router are counted from 1. The desk stays, so no router sees an earlier version than the one before it.
/// Returns how many requests all routers sent.
///
/// Both paths have to name a file at first, and neither opening waits for the other end. If a path's file is removed later,
/// this waits until there is a file again.
pub(crate) fn answer_routers<R: Wait, L: LaterDesks>(
    means: &Means<'_, R>,
    client: &Client<'_, L>,
    paths: Paths<'_>,
    desk: &mut EpochDesk,
) -> Result<RequestCounts, ServeFault>
    requires house { L.sizes ≡ sizes_of means.now.run.now.setup.now.roster }
    requires sizes { desk.old.desk.sizes ≡ sizes_of means.now.run.now.setup.now.roster }
{
    let mut ends = open_ends(means, client.number, paths)?;
    means.run.pass_gate(means.rt);
    for _ in 0..u64::MAX {
        let Some(first) = wait_for_router(means, paths, &mut ends) else {
            break;
        };
        client.tally.begin();
        let outcome = answer_router(means, client, paths, first, &mut ends, desk);
        client.tally.end();
        if means.run.is_stopped() {
            break;
        }
        let notice = RouterNotice {
            number: client.number,
            counts: outcome?,
        };
        means.run.teller.tell(means.rt, Text::of(notice));
        thread::sleep(means.host, Duration::from_millis(PAUSE));
    }
    Ok(client.tally.of_all())
}

/// Opens both paths.
fn open_ends<R>(means: &Means<'_, R>, number: u8, paths: Paths<'_>) -> Result<Ends, ServeFault> {
    let (host, run) = (means.host, means.run);
    let requests = match paths.input.open_anew(host, means.alloc, run) {
        Ok(found) => found,
        Err(error) => {
            return Err(paths.input.refuse(run, Stream::Requests(number), &error));
        }
    };
    let answers = match paths.output.answer_anew(host, means.alloc, run) {
        Ok(found) => found,
        Err(error) => {
            return Err(paths.output.refuse(run, Stream::Answers(number), &error));
        }
    };
    match requests {
        Some(requests) => Ok(Ends { requests, answers }),
        None => Err(ServeFault::NotOpened(Stream::Requests(number))),
    }
}

/// Waits until a router sends the first byte of its requests, and returns it; `None` if the run ends. While no router is there,
/// this looks again and again, and so finds FIFOs that were made again.
fn wait_for_router<R: Wait>(means: &Means<'_, R>, paths: Paths<'_>, ends: &mut Ends) -> Option<u8> {
    let mut first = [0; 1];
    for _ in means.rt.forever() {
        if means.run.is_stopped() {
            return None;
        }
        renew_both(means, paths, ends);
        let mut requests = &ends.requests;
        if let Ok(1) = requests.read(&mut first) {
            // The run itself wrote a line feed to wake this thread. It is no request.
            if means.run.is_stopped() {
                return None;
            }
            renew_answers(means, paths, ends);
            return Some(first[0]);
        }
        thread::sleep(means.host, Duration::from_millis(REST));
    }
    unreachable!()
}

/// Opens a client's FIFOs again if they were closed or made again: first that of the answers, then that of the requests. A
/// router makes them in the other order, so new answers never go with old requests.
fn renew_both<R>(means: &Means<'_, R>, paths: Paths<'_>, ends: &mut Ends) {
    let (host, run) = (means.host, means.run);
    let is_old = match &ends.answers {
        Some(answers) => paths.output.is_renewed(host, answers),
        None => true,
    };
    if is_old && let Ok(Some(answers)) = paths.output.answer_anew(host, means.alloc, run) {
        ends.answers = Some(answers);
    }
    if paths.input.is_renewed(host, &ends.requests)
        && let Ok(Some(requests)) = paths.input.open_anew(host, means.alloc, run)
    {
        ends.requests = requests;
    }
}

/// Opens the answers again if their FIFO was made again, unless the path of the requests names another FIFO than the one that is
/// read. A router may still write to a FIFO of requests that was removed. Then its answers go to the old FIFO of answers.
fn renew_answers<R>(means: &Means<'_, R>, paths: Paths<'_>, ends: &mut Ends) {
    let host = means.host;
    let is_old = match &ends.answers {
        Some(answers) => paths.output.is_renewed(host, answers),
        None => true,
    };
    if is_old
        && !paths.input.is_renewed(host, &ends.requests)
        && let Ok(Some(answers)) = paths.output.answer_anew(host, means.alloc, means.run)
    {
        ends.answers = Some(answers);
    }
}

/// Answers a router, from the first byte of its requests to their end, and returns how many there were. A fault of the router
/// is reported, and what it still sends is dropped. Its answers are closed when this returns. A fault of the run itself is
/// returned.
fn answer_router<'a, R: Wait, L: LaterDesks>(
    means: &'a Means<'a, R>,
    client: &Client<'_, L>,
    paths: Paths<'a>,
    first: u8,
    ends: &mut Ends,
    desk: &mut EpochDesk,
) -> Result<RequestCounts, ServeFault>
    requires house { L.sizes ≡ sizes_of means.now.run.now.setup.now.roster }
    requires sizes { desk.old.desk.sizes ≡ sizes_of means.now.run.now.setup.now.roster }
    ensures sizes { desk.new.desk.sizes ≡ sizes_of means.now.run.now.setup.now.roster }
{
    let number = client.number;
    let requests = RouterRequests::new(means, number, paths.input, &ends.requests, first);
    let mut answers = RouterAnswers::new(means, number, paths.output, ends.answers.take());
    let told = answer_stream(
        means.alloc,
        means.run.setup,
        desk,
        &client.later,
        requests,
        &mut answers,
    );
    let fault = match told {
        Ok(counts) => return Ok(counts),
        Err(fault) => ServeFault::of_client(number, fault),
    };
    if !fault.is_of_other_end() {
        return Err(fault);
    }
    drop(answers);
    drop_requests(means, &ends.requests);
    Ok(client.tally.of_router())
}

/// Reads requests to the end of their stream, and drops them.
fn drop_requests<R>(means: &Means<'_, R>, requests: &File) {
    let mut bytes = [0; 4096];
    let mut requests = requests;
    for _ in 0..u64::MAX {
        // Requests may come after the run ended, because the line feed that wakes this thread may have been read already.
        if means.run.is_stopped() {
            return;
        }
        match requests.read(&mut bytes) {
            Ok(count) if count > 0 => {}
            Ok(_) | Err(_) => return,
        }
    }
}
