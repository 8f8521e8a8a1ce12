//! A client's thread: it reads the client's requests as they come, and answers each on what is published then.
ghost use Rattle.std.specs.Prelude.{◌≡◌};
ghost use Rattle.nms_quote.specs.Roster.{sizes_of};

use crate::door::Door;
use crate::ending::Ending;
use crate::guarded::Guarded;
use crate::named::Named;
use crate::report::ClientNotice;
use crate::routers::{Paths, answer_routers};
use crate::run::Run;
use crate::serve_fault::ServeFault;
use crate::serving::Means;
use crate::stream::Stream;
use crate::tally::Tally;
use crate::text::Text;
use nms_answers::{EpochDesk, LaterDesks, RequestCounts, answer_stream};
use nms_versions::Desk;
use std::fs::File;
use std::io::{Read, Write};
use std::sync::Wait;
use std::thread::Threads;
use std::{io, thread};

/// The source of a client's requests, and the target of the answers to that client.
#[derive(Drop)]
pub enum ClientStreams<'a> {
    /// The client uses standard input and standard output.
    Standard,
    /// The client uses two paths.
    Paths {
        /// The path from which the client's requests are read.
        input: Door<'a>,
        /// The path to which the answers to the client are written.
        output: Door<'a>,
    },
}

/// The result of a client's thread.
#[derive(Clone, Copy, Drop)]
pub struct ClientEnd {
    /// The client's number, from 1.
    pub number: u8,
    /// How many requests were answered, and how many of them were refused; `None` if a fault ended the run.
    pub counts: Option<RequestCounts>,
}

/// A client of a run.
#[derive(Drop)]
pub(crate) struct Client<'a, L> {
    /// The client's number, from 1.
    pub(crate) number: u8,
    pub(crate) streams: &'a ClientStreams<'a>,
    /// The place in which the client finds its desks of later epochs.
    pub(crate) later: L,
    /// The counts of the client's requests that were answered.
    pub(crate) tally: &'a Tally,
}

/// Answers the requests of a client to the end of their stream. If the run keeps FIFOs open, it answers one router after
/// another, to the end of the run. The client's end is reported. A fault ends the run.
pub(crate) fn serve_client<R: Threads + Wait + Sync, L: LaterDesks>(
    means: &Means<'_, R>,
    client: &Client<'_, L>,
    desk: Desk,
) -> ClientEnd
    requires house { L.sizes ≡ sizes_of means.now.run.now.setup.now.roster }
    requires sizes { desk.sizes ≡ sizes_of means.now.run.now.setup.now.roster }
{
    let (run, number) = (means.run, client.number);
    let mut desk = EpochDesk { epoch: 0, desk };
    let counts = match answer_client(means, client, &mut desk) {
        Ok(counts) => Some(counts),
        Err(fault) => {
            run.fail(fault);
            // No fault is reported here, because a run that was asked to end may break off any stream.
            if run.is_failed() {
                None
            } else {
                Some(client.tally.of_all())
            }
        }
    };
    client.tally.end_client();
    let end = ClientEnd { number, counts };
    means.run.teller.keep(means.rt, Text::of(ClientNotice(end)));
    means.run.end_client();
    end
}

/// Opens a client's streams, and answers its requests.
fn answer_client<R: Threads + Wait + Sync, L: LaterDesks>(
    means: &Means<'_, R>,
    client: &Client<'_, L>,
    desk: &mut EpochDesk,
) -> Result<RequestCounts, ServeFault>
    requires house { L.sizes ≡ sizes_of means.now.run.now.setup.now.roster }
    requires sizes { desk.old.desk.sizes ≡ sizes_of means.now.run.now.setup.now.roster }
{
    let (host, run) = (means.host, means.run);
    let (asks, told) = names_of(client.streams, client.number);
    match client.streams {
        ClientStreams::Standard => answer_from(
            means,
            client,
            desk,
            Guarded::new(host.stdin(), run, asks),
            Guarded::new(host.stdout(), run, told),
        ),
        ClientStreams::Paths { input, output } => {
            if run.ways.keep && input.is_fifo(host) {
                return answer_routers(means, client, Paths { input, output }, desk);
            }
            let (requests, answers) = open_both(means, client.number, input, output);
            answer_from(
                means,
                client,
                desk,
                Guarded::new(requests?, run, asks),
                Guarded::new(answers?, run, told),
            )
        }
    }
}

/// The names of a client's streams: that of its requests, and that of its answers.
fn names_of<'a>(streams: &ClientStreams<'a>, number: u8) -> (Named<'a>, Named<'a>) {
    match streams {
        ClientStreams::Standard => (
            Door::new("standard input").named(Stream::Requests(number)),
            Door::new("standard output").named(Stream::Answers(number)),
        ),
        ClientStreams::Paths { input, output } => (
            input.named(Stream::Requests(number)),
            output.named(Stream::Answers(number)),
        ),
    }
}

/// Opens a client's paths at the same time, so that the client may open them in any order. If one can't be opened, the run ends
/// at once, so that the wait for the other ends too.
fn open_both<R: Threads + Wait + Sync>(
    means: &Means<'_, R>,
    number: u8,
    input: &Door<'_>,
    output: &Door<'_>,
) -> (Result<File, ServeFault>, Result<File, ServeFault>) {
    let (host, run) = (means.host, means.run);
    thread::join(
        means.rt,
        || opened(
            run,
            input,
            Stream::Requests(number),
            input.open_to_read(host, run),
        ),
        || opened(
            run,
            output,
            Stream::Answers(number),
            output.open_to_write(host, run),
        ),
    )
}

/// The file of a client's path, if it could be opened; else the fault that ends the run.
fn opened(
    run: &Run<'_>,
    door: &Door<'_>,
    stream: Stream,
    outcome: io::Result<File>,
) -> Result<File, ServeFault> {
    match outcome {
        Ok(file) => Ok(file),
        Err(error) => Err(door.refuse(run, stream, &error)),
    }
}

/// Answers the requests of a stream. If requests are held until each feed has sent a change or ended, it waits for that first.
fn answer_from<R: Wait, S: Read + Drop, W: Write + Drop, L: LaterDesks>(
    means: &Means<'_, R>,
    client: &Client<'_, L>,
    desk: &mut EpochDesk,
    requests: S,
    answers: W,
) -> Result<RequestCounts, ServeFault>
    requires house { L.sizes ≡ sizes_of means.now.run.now.setup.now.roster }
    requires sizes { desk.old.desk.sizes ≡ sizes_of means.now.run.now.setup.now.roster }
{
    let run = means.run;
    run.pass_gate(means.rt);
    client.tally.begin();
    let mut answers = answers;
    let told = answer_stream(
        means.alloc,
        run.setup,
        desk,
        &client.later,
        Ending::new(requests, run),
        &mut answers,
    );
    client.tally.end();
    match told {
        Ok(counts) => Ok(counts),
        Err(fault) => Err(ServeFault::of_client(client.number, fault)),
    }
}
