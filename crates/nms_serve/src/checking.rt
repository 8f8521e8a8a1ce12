//! The report of `--check`: the setup, the paths and the tape of a call, as a run would find them. Nothing is made or altered,
//! and no FIFO is opened, because its other end would notice.
use crate::left_epoch::{LeftEpoch, unwritten};
use crate::left_run::LeftRun;
use crate::own_files::OwnFiles;
use crate::program_fault::ProgramFault;
use crate::refusal::Refusal;
use crate::rights::{FOLDER, READ, Rights, WRITE};
use crate::tape_folder::parts_of;
use crate::words::{ClientPaths, Request};
use nms_fees::Setup;
use nms_quote::Feed;
use nms_serving::{ServeFault, Stream, Teller, Text, letter_of};
use std::fs::Metadata;
use std::os::unix::fs::FileTypeExt;
use std::sync::Wait;
use std::{fs, io};

/// The number of the system's error if a right is missing.
const NO_RIGHT: i32 = 13;
/// The number of the system's error if there is a folder instead of a file.
const IS_FOLDER: i32 = 21;
/// The number of the system's error for a socket, which is not opened by its path.
const NO_DEVICE: i32 = 6;

/// The means to look at the files of a call, and to report what is found.
#[derive(Drop)]
pub(crate) struct Check<'a, R> {
    rt: &'a R,
    host: &'a HostRuntime,
    teller: &'a Teller,
    rights: Rights,
}

impl<'a, R: Wait> Check<'a, R> {
    /// A check with the rights of this process.
    pub(crate) fn new(
        rt: &'a R,
        host: &'a HostRuntime,
        teller: &'a Teller,
    ) -> Result<Self, Refusal> {
        match Rights::of_process(host) {
            Ok(rights) => Ok(Check {
                rt,
                host,
                teller,
                rights,
            }),
            Err(_) => Err(Refusal::no_memory()),
        }
    }

    /// Reports what a run would find, or refuses it by the first fault by which a run would refuse. The arguments, the setup
    /// and the tape were not refused.
    pub(crate) fn report(
        &self,
        setup: &Setup,
        request: &Request,
        own: &OwnFiles<'_>,
        left: Option<&LeftRun>,
    ) -> Result<(), Refusal> {
        self.report_setup(setup);
        for feed in &request.feeds {
            if let Some(letter) = Feed::at(feed.place) {
                let name = Text::of("feed ").with(letter_of(letter));
                self.report_input(Stream::Feed(letter), feed.path.as_str(), false, name)?;
            }
        }
        self.report_clients(request)?;
        for spot in &own.found {
            self.allow_folder(spot.path)?;
        }
        self.report_tape(request.tape.as_str(), left)?;
        self.tell(Text::of("checked: a run would serve"));
        Ok(())
    }

    /// Prints one line of the check's report.
    fn tell(&self, line: Text) {
        self.teller.keep(self.rt, line);
    }

    /// Reports the size of the setup.
    fn report_setup(&self, setup: &Setup) {
        let roster = setup.roster();
        self.tell(
            Text::of("setup: ")
                .with(setup.feeds())
                .with(" feeds, ")
                .with(setup.desks())
                .with(" desks, ")
                .with(roster.parts() as u64)
                .with(" participants, ")
                .with(roster.syms() as u64)
                .with(" symbols, tape_limit ")
                .with(setup.tape_limit()),
        );
    }

    /// Reports the paths of the clients.
    fn report_clients(&self, request: &Request) -> Result<(), Refusal> {
        let mut number = 0u8;
        for client in &request.clients {
            let Some(next) = number.checked_add(1) else {
                return Err(Refusal::of(ProgramFault::MoreClients));
            };
            number = next;
            self.report_client(number, client, request.keep)?;
        }
        if request.clients.is_empty() {
            self.tell(Text::of("client 1: standard input and output"));
        }
        Ok(())
    }

    /// Reports the paths of a client. If `keep` is set, both ends of each FIFO are opened.
    fn report_client(&self, number: u8, client: &ClientPaths, keep: bool) -> Result<(), Refusal> {
        let (input, output) = (client.input.as_str(), client.output.as_str());
        let asks = Stream::Requests(number);
        let keep = keep && self.found(asks, input)?.file_type().is_fifo();
        let name = Text::of("client ").with(number).with(", requests");
        self.report_input(asks, input, keep, name)?;
        let answers = Stream::Answers(number);
        let found = self.found(answers, output)?;
        if found.is_dir() {
            return Err(unopened(answers, output, IS_FOLDER));
        }
        let both = keep && found.file_type().is_fifo();
        self.allow(
            answers,
            output,
            &found,
            if both { READ | WRITE } else { WRITE },
        )?;
        let name = Text::of("client ").with(number).with(", answers");
        self.tell(name.and_shown(output.as_bytes()).and(kind_of(&found)));
        Ok(())
    }

    /// Reports a path that is read. If `both` is set, its FIFO is also written, so that it is never without a writer.
    fn report_input(
        &self,
        stream: Stream,
        path: &str,
        both: bool,
        name: Text,
    ) -> Result<(), Refusal> {
        let found = self.found(stream, path)?;
        self.allow(stream, path, &found, if both { READ | WRITE } else { READ })?;
        if found.is_dir() {
            let fault = ProgramFault::Serving(ServeFault::NotRead(stream));
            return Err(Refusal::at(fault, path).and(&io::Error::from_raw_os_error(IS_FOLDER)));
        }
        self.tell(name.and_shown(path.as_bytes()).and(kind_of(&found)));
        Ok(())
    }

    /// Reports the tape, or what an earlier run has left of it. A run makes files in its folder, and cuts those that are left.
    fn report_tape(&self, path: &str, left: Option<&LeftRun>) -> Result<(), Refusal> {
        let (folder, _) = parts_of(path);
        let folder = if folder.is_empty() { "." } else { folder };
        let found = self.found(Stream::Tape, folder)?;
        self.allow(Stream::Tape, folder, &found, FOLDER)?;
        let Some(left) = left else {
            self.tell(Text::of("tape").and_shown(path.as_bytes()).and("new"));
            return Ok(());
        };
        if let Some(from) = &left.from {
            self.allow_epoch(from)?;
        }
        if let Some(begun) = &left.begun {
            self.allow_epoch(begun)?;
        }
        self.tell(left.finding());
        Ok(())
    }

    /// Refuses a file if the process may not make files in the file's folder.
    fn allow_folder(&self, path: &str) -> Result<(), Refusal> {
        let (folder, _) = parts_of(path);
        let allowed = match fs::metadata(self.host, if folder.is_empty() { "." } else { folder }) {
            Ok(found) if self.rights.allow(&found, FOLDER) => Ok(()),
            Ok(_) => Err(io::Error::from_raw_os_error(NO_RIGHT)),
            Err(error) => Err(error),
        };
        match allowed {
            Ok(()) => Ok(()),
            Err(error) => Err(Refusal::of_file(path, &error)),
        }
    }

    /// Refuses an epoch whose files can't be cut.
    fn allow_epoch(&self, epoch: &LeftEpoch) -> Result<(), Refusal> {
        let tape = epoch.tape.as_str();
        self.allow_file(Stream::Tape, tape)?;
        self.allow_file(Stream::Lengths, epoch.lengths.as_str())
    }

    /// Refuses a file that is there and can't be cut.
    fn allow_file(&self, stream: Stream, path: &str) -> Result<(), Refusal> {
        match fs::metadata(self.host, path) {
            Ok(found) if !self.rights.allow(&found, WRITE) => {
                Err(unwritten(stream, path, &io::Error::from_raw_os_error(NO_RIGHT)))
            }
            Ok(_) | Err(_) => Ok(()),
        }
    }

    /// The file at a path. One that is missing, or a socket, is refused.
    fn found(&self, stream: Stream, path: &str) -> Result<Metadata, Refusal> {
        match fs::metadata(self.host, path) {
            Ok(found) if found.file_type().is_socket() => Err(unopened(stream, path, NO_DEVICE)),
            Ok(found) => Ok(found),
            Err(error) => Err(Refusal::of_stream(stream, path, &error)),
        }
    }

    /// Refuses a file that the process may not use in the given way.
    fn allow(
        &self,
        stream: Stream,
        path: &str,
        found: &Metadata,
        asked: u32,
    ) -> Result<(), Refusal> {
        if self.rights.allow(found, asked) {
            Ok(())
        } else {
            Err(unopened(stream, path, NO_RIGHT))
        }
    }
}

/// The refusal of a path that can't be opened, for an error of the system.
fn unopened(stream: Stream, path: &str, error: i32) -> Refusal {
    Refusal::of_stream(stream, path, &io::Error::from_raw_os_error(error))
}

/// The kind of a file, in words.
fn kind_of(found: &Metadata) -> &'static str {
    let kind = found.file_type();
    if kind.is_fifo() {
        "FIFO"
    } else if kind.is_char_device() {
        "device"
    } else {
        "file"
    }
}
