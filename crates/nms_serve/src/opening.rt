//! Serving a request: its files and the board are opened, and the run is made.
ghost use Rattle.std.specs.Prelude.{◌≡◌, IfOk, IfSome};
ghost use Rattle.nms_quote.specs.Roster.{sizes_of};
ghost use Rattle.nms_serve.specs.LeftRuns.{HasNext, IsOfRoster};

use crate::checking::Check;
use crate::choices::{Choices, SyncAt};
use crate::held_tape::{FoundTape, HeldTape, find_tape, hold_setup};
use crate::own_files::{NewPaths, OwnFiles};
use crate::program_fault::ProgramFault;
use crate::refusal::Refusal;
use crate::setting_up::{setup_in, setup_text_of};
use crate::tape_paths::TapePaths;
use crate::telling::TapeNotice;
use crate::words::{ClientPaths, FeedPath, Request};
use nms_fees::Setup;
use nms_serving::{
    Beside, ClientStreams, Door, Doors, GoingOn, Means, Named, REFUSED_STATUS, Record, Run,
    ServeFault, Served, Signs, Stream, TapeDisk, Teller, Text, Ways, has_room_for_epochs,
    least_tape_limit, resume, serve,
};
use std::alloc::{AllocError, Global};
use std::fs::{File, OpenOptions};
use std::io::{Read, Seek, SeekFrom, Write};
use std::sync::Wait;
use std::thread::Threads;
use std::{fs, io};

/// Serves a request. Its exit status and the line of its fault, if any, go to the teller.
pub(crate) fn serve_request<R: Threads + Wait + Sync>(
    rt: &R,
    host: &HostRuntime,
    teller: &Teller,
    request: &Request,
) {
    match answer_request(rt, host, teller, request) {
        Ok(status) => teller.end(status),
        Err(Refusal { status, line }) => {
            teller.fail(status, line);
            teller.end(status);
        }
    }
}

/// Serves a request under its setup, and gives the exit status. That is the status of the fault that ended the run, 6 if a
/// record of a feed was refused, or 0. It fails if no run begins. If `--check` is given, no run begins.
fn answer_request<R: Threads + Wait + Sync>(
    rt: &R,
    host: &HostRuntime,
    teller: &Teller,
    request: &Request,
) -> Result<u8, Refusal> {
    let text = setup_text_of(host, request)?;
    let setup = setup_in(host.alloc(), &text)?;
    check_request(&setup, request)?;
    let choices = Choices::of(request)?;
    let Ok(news) = NewPaths::of(host.alloc(), request) else {
        return Err(Refusal::no_memory());
    };
    answer_call(
        rt,
        host,
        teller,
        &call_of(request, &text, &setup, &news, choices),
    )
}

/// A request with the setup, the files and the choices that it names.
#[derive(Clone, Copy)]
struct Call<'a> {
    request: &'a Request,
    /// The text of the request's setup, and the setup that was read from it.
    text: &'a [u8],
    setup: &'a Setup,
    signs: Signs<'a>,
    choices: Choices,
}

/// Puts a request and what it names together. The prover joins the lifetimes of several loans only at a call that asks for one.
fn call_of<'a>(
    request: &'a Request,
    text: &'a [u8],
    setup: &'a Setup,
    news: &'a NewPaths,
    choices: Choices,
) -> Call<'a>
    ensures setup { result.setup.now ≡ setup.now }
{
    Call {
        request,
        text,
        setup,
        signs: news.signs(request),
        choices,
    }
}

/// Serves a request whose setup was read, and gives the exit status: 0 if `--check` is given. Else it fails if no run begins.
fn answer_call<R: Threads + Wait + Sync>(
    rt: &R,
    host: &HostRuntime,
    teller: &Teller,
    call: &Call<'_>,
) -> Result<u8, Refusal> {
    let (alloc, request) = (host.alloc(), call.request);
    let (Ok(feeds), Ok(clients)) = (
        doors_of(alloc, call.setup.feeds(), &request.feeds),
        streams_of(alloc, &request.clients),
    ) else {
        return Err(Refusal::no_memory());
    };
    let Some(tape) = take_tape(rt, host, teller, call)? else {
        return Ok(0);
    };
    let record = open_record(host, request)?;
    let run = Run::new(call.setup, ways_of(request), teller);
    let means = Means {
        rt,
        host,
        alloc,
        run: &run,
    };
    let own = Own {
        signs: call.signs,
        disk: disk_of(call),
        recording: record_of(request, record.as_ref()),
    };
    let doors = Doors {
        feeds: &feeds,
        clients: &clients,
        beside: &own,
    };
    serve_streams(&means, &doors, call, &tape)
}

/// Takes the tape of a call. If `--check` is given, it only looks at the tape and reports what was found, and returns none.
fn take_tape<R: Wait>(
    rt: &R,
    host: &HostRuntime,
    teller: &Teller,
    call: &Call<'_>,
) -> Result<Option<HeldTape>, Refusal>
    ensures sizes { IfOk result (λ tape. IfSome tape (λ held. IsOfRoster (sizes_of call.now.setup.now.roster) held.left)) }
    ensures next { IfOk result (λ tape. IfSome tape (λ held. HasNext held.left)) }
{
    let own = own_files(host, call.request, &call.signs)?;
    let found = find_tape(host, call.text, call.setup, call.request, &own)?;
    if call.request.check {
        let check = Check::new(rt, host, teller)?;
        check.report(call.setup, call.request, &own, found.left.as_ref())?;
        return Ok(None);
    }
    let FoundTape { setup, left } = found;
    let setup = hold_setup(host, call.text, call.request, setup, left.is_some())?;
    // A file that an earlier run has left would claim that this run serves already.
    if let Some(ready) = &call.signs.ready {
        ready.remove(host);
    }
    Ok(Some(HeldTape { setup, left }))
}

/// The files that a request makes next to its tape.
fn own_files<'a>(
    host: &'a HostRuntime,
    request: &'a Request,
    signs: &Signs<'a>,
) -> Result<OwnFiles<'a>, Refusal> {
    let mut own = OwnFiles::of(host, host.alloc(), request.tape.as_str())?;
    own.add_sign(signs.status)?;
    own.add_sign(signs.ready)?;
    if let Some(record) = &request.recorded {
        own.add_record(record.as_str(), request.resume)?;
    }
    Ok(own)
}

/// Opens the file of the record, if a record is asked for. A new file is made exclusively.
fn open_record(host: &HostRuntime, request: &Request) -> Result<Option<File>, Refusal> {
    let Some(path) = &request.recorded else {
        return Ok(None);
    };
    let is_there = fs::metadata(host, path.as_str()).is_ok();
    match OpenOptions::new()
        .append(true)
        .create_new(!is_there)
        .open(host, path.as_str())
    {
        Ok(file) => match end_cut_line(host, path.as_str(), &file) {
            Ok(()) => Ok(Some(file)),
            Err(error) => Err(Refusal::of_stream(Stream::Record, path.as_str(), &error)),
        },
        Err(error) => Err(Refusal::of_stream(Stream::Record, path.as_str(), &error)),
    }
}

/// Ends the last line of a record whose writing was cut off, so that the next request begins a line.
fn end_cut_line(host: &HostRuntime, path: &str, mut file: &File) -> io::Result<()> {
    let found = file.metadata()?;
    let Some(last) = found.len().checked_sub(1) else {
        return Ok(());
    };
    if !found.is_file() {
        return Ok(());
    }
    let mut kept = File::open(host, path)?;
    kept.seek(SeekFrom::Start(last))?;
    let mut end = [0; 1];
    kept.read_exact(&mut end)?;
    if end[0] == b'\n' {
        Ok(())
    } else {
        file.write_all(b"\n")
    }
}

/// The file of the record with its path, if a record is asked for.
fn record_of<'a>(request: &'a Request, file: Option<&'a File>) -> Option<Record<'a>> {
    let (Some(path), Some(file)) = (&request.recorded, file) else {
        return None;
    };
    let named = Named {
        stream: Stream::Record,
        path: path.as_str(),
        epoch: 0,
    };
    Some(Record { file, named })
}

/// Refuses a request that its setup does not allow.
fn check_request(setup: &Setup, request: &Request) -> Result<(), Refusal> {
    if !are_all_feeds(setup, &request.feeds) {
        return Err(Refusal::of(ProgramFault::WrongFeeds));
    }
    if request.clients.len() > usize::from(setup.desks()) {
        return Err(Refusal::of(ProgramFault::MoreClients));
    }
    if !has_room_for_epochs(setup) {
        return Err(Refusal::of(ProgramFault::ShortTape(least_tape_limit(setup))));
    }
    Ok(())
}

/// The files that a call asks for in addition to its streams.
#[derive(Clone, Copy)]
struct Own<'a> {
    signs: Signs<'a>,
    disk: Option<TapeDisk<'a>>,
    recording: Option<Record<'a>>,
}

impl Beside for Own<'_> {
    fn signs(&self) -> Signs<'_> {
        self.signs
    }

    fn disk(&self) -> Option<TapeDisk<'_>> {
        self.disk
    }

    fn recording(&self) -> Option<Record<'_>> {
        self.recording
    }
}

/// The disk of a call's tape, if it is waited for once a second.
fn disk_of<'a>(call: &Call<'a>) -> Option<TapeDisk<'a>> {
    let path = call.request.tape.as_str();
    match call.choices.sync {
        SyncAt::Second => Some(TapeDisk { path }),
        SyncAt::Publish | SyncAt::None => None,
    }
}

/// The choices by which a request's run goes on, such as whether a refused record ends it.
fn ways_of(request: &Request) -> Ways {
    Ways {
        strict: request.strict,
        keep: request.keep,
        wait: request.wait,
        stale: request.stale,
    }
}

/// Opens the files, serves the streams, and reports the end of the tape.
fn serve_streams<R: Threads + Wait + Sync>(
    means: &Means<'_, R>,
    doors: &Doors<'_, Own<'_>>,
    call: &Call<'_>,
    tape: &HeldTape,
) -> Result<u8, Refusal>
    requires sizes { IsOfRoster (sizes_of means.now.run.now.setup.now.roster) tape.now.left }
    requires next { HasNext tape.now.left }
{
    let paths = TapePaths {
        host: means.host,
        alloc: means.alloc,
        run: means.run,
        path: call.request.tape.as_str(),
        choices: call.choices,
    };
    let served = serve_tape(means, doors, &paths, tape)?;
    means
        .run
        .teller()
        .keep(means.rt, Text::of(TapeNotice::of(&served)));
    Ok(match means.run.fault() {
        Some(fault) => fault.status(),
        None => status_of(&served),
    })
}

/// Serves the streams on a new tape, or goes on with what an earlier run has left of it.
fn serve_tape<R: Threads + Wait + Sync>(
    means: &Means<'_, R>,
    doors: &Doors<'_, Own<'_>>,
    paths: &TapePaths<'_>,
    tape: &HeldTape,
) -> Result<Served, Refusal>
    requires sizes { IsOfRoster (sizes_of means.now.run.now.setup.now.roster) tape.now.left }
    requires next { HasNext tape.now.left }
{
    if let Some(left) = &tape.left {
        left.clear(means.host)?;
        if let Some(from) = &left.from {
            let going = GoingOn {
                board: &from.left.board,
                epoch: left.epoch,
                report: left.report(),
            };
            return or_refused(resume(means, doors, going, paths));
        }
        means.run.teller().keep(means.rt, left.report());
    }
    let (tape, lengths) = paths.open_first()?;
    or_refused(serve(means, doors, tape, lengths, paths))
}

/// The result of a run that began, or the refusal with the fault because of which no run began.
fn or_refused(served: Result<Served, ServeFault>) -> Result<Served, Refusal> {
    match served {
        Ok(served) => Ok(served),
        Err(fault) => Err(Refusal::of(ProgramFault::Serving(fault))),
    }
}

/// The exit status of a run that ended without a fault.
fn status_of(served: &Served) -> u8 {
    if served.feeds.iter().any(|end| end.counts.refused > 0) {
        REFUSED_STATUS
    } else {
        0
    }
}

/// Whether the feeds are exactly those of the setup. Two of them are never the same.
fn are_all_feeds(setup: &Setup, feeds: &[FeedPath]) -> bool {
    feeds.len() == usize::from(setup.feeds()) && feeds.iter().all(|feed| feed.place < setup.feeds())
}

/// A door for each feed of the setup, in order.
fn doors_of<'a>(
    alloc: Global,
    count: u8,
    feeds: &'a [FeedPath],
) -> Result<Vec<Door<'a>>, AllocError> {
    let mut doors = Vec::new(alloc);
    for place in 0..count {
        if let Some(feed) = feeds.iter().find(|feed| feed.place == place) {
            doors.push(Door::new(feed.path.as_str()))?;
        }
    }
    Ok(doors)
}

/// The streams of the clients; standard input and output if there are none.
fn streams_of<'a>(
    alloc: Global,
    clients: &'a [ClientPaths],
) -> Result<Vec<ClientStreams<'a>>, AllocError> {
    let mut streams = Vec::new(alloc);
    for client in clients {
        streams.push(ClientStreams::Paths {
            input: Door::new(client.input.as_str()),
            output: Door::new(client.output.as_str()),
        })?;
    }
    if clients.is_empty() {
        streams.push(ClientStreams::Standard)?;
    }
    Ok(streams)
}
