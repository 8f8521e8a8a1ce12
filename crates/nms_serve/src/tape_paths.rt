//! The files of a run's tape, one epoch after another.
use crate::choices::{Choices, SyncAt};
use crate::program_fault::ProgramFault;
use crate::refusal::Refusal;
use crate::tape_folder::{TIMES, is_device, parts_of};
use nms_serving::{
    EpochFiles, Guarded, Named, OnDisk, PUBLISHED, Run, ServeFault, Stream, Timed, Times,
    epoch_paths,
};
use std::alloc::{AllocError, Global};
use std::fs::{File, OpenOptions};
use std::io::ErrorKind;
use std::{fs, io};

/// A file of the tape as a stream of the run.
type Kept<'a> = Guarded<'a, OnDisk<'a, File>>;

/// The files of an epoch: its tape, with the file of its times, and its published lengths.
pub(crate) type TwoFiles<'a> = (Timed<'a, Kept<'a>>, Kept<'a>);

/// Opens the files of the tape: PATH and PATH.published, then PATH.1 and PATH.1.published, and so on.
#[derive(Drop)]
pub(crate) struct TapePaths<'a> {
    pub(crate) host: &'a HostRuntime,
    pub(crate) alloc: Global,
    pub(crate) run: &'a Run<'a>,
    pub(crate) path: &'a str,
    pub(crate) choices: Choices,
}

/// Why a file of the tape was not opened.
enum Unopened {
    /// There is something at the file's path.
    There,
    /// The file could not be opened.
    Failed(io::Error),
}

impl<'a> TapePaths<'a> {
    /// Opens the files of the first epoch, which have to be new.
    pub(crate) fn open_first(&self) -> Result<TwoFiles<'a>, Refusal> {
        let Ok(lengths) = format!(in self.alloc; "{}{PUBLISHED}", self.path) else {
            return Err(Refusal::no_memory());
        };
        let tape = match open_new(self.host, self.path) {
            Ok(file) => file,
            Err(why) => return Err(refused(why, Stream::Tape, self.path)),
        };
        let lengths = match open_new(self.host, lengths.as_str()) {
            Ok(file) => file,
            Err(why) => return Err(refused(why, Stream::Lengths, lengths.as_str())),
        };
        match self.with_times(tape, lengths, 0) {
            Ok(files) => Ok(files),
            Err(fault) => Err(Refusal::of(ProgramFault::Serving(fault))),
        }
    }

    /// The files of an epoch as streams of the run, together with the file of its times. If the run waits for the disk, the
    /// disk has the files' names when this returns.
    fn with_times(
        &self,
        tape: File,
        lengths: File,
        epoch: u64,
    ) -> Result<TwoFiles<'a>, ServeFault> {
        let times = match self.choices.zone {
            Some(zone) => Some(self.open_times(zone, epoch)?),
            None => None,
        };
        if self.choices.sync != SyncAt::None {
            self.sync_folder(epoch)?;
        }
        Ok((
            Timed::new(self.kept(tape, Stream::Tape, epoch), times),
            self.kept(lengths, Stream::Lengths, epoch),
        ))
    }

    /// A file of an epoch as a stream of the run.
    fn kept(&self, file: File, stream: Stream, epoch: u64) -> Kept<'a> {
        let named = self.named(stream, epoch);
        let waits = self.choices.sync == SyncAt::Publish;
        Guarded::new(OnDisk::new(file, self.run, named, waits), self.run, named)
    }

    /// Opens the file of an epoch's times, which has to be new. A fault ends the run.
    fn open_times(&self, zone: u64, epoch: u64) -> Result<Times<'a>, ServeFault> {
        let Ok((tape, _)) = self.paths_of(epoch) else {
            return Err(ServeFault::NoMemory);
        };
        let Ok(path) = format!(in self.alloc; "{tape}{TIMES}") else {
            return Err(ServeFault::NoMemory);
        };
        let file = self.open_later(path.as_str(), Stream::Times, epoch)?;
        let file = Guarded::new(file, self.run, self.named(Stream::Times, epoch));
        Ok(Times::new(file, self.host, zone))
    }

    /// The paths of an epoch's tape and of its lengths.
    fn paths_of(&self, epoch: u64) -> Result<(String, String), AllocError> {
        epoch_paths(self.alloc, self.path, epoch)
    }

    /// Waits until the disk has the names of the tape's files.
    fn sync_folder(&self, epoch: u64) -> Result<(), ServeFault> {
        let (folder, _) = parts_of(self.path);
        let synced = match File::open(self.host, if folder.is_empty() { "." } else { folder }) {
            Ok(folder) => folder.sync_all(),
            Err(error) => Err(error),
        };
        self.or_unwritten(Stream::Tape, epoch, synced)
    }

    /// Ends the run if the disk did not take a file, and returns the fault.
    fn or_unwritten(
        &self,
        stream: Stream,
        epoch: u64,
        synced: io::Result<()>,
    ) -> Result<(), ServeFault> {
        match synced {
            Ok(()) => Ok(()),
            Err(error) => {
                let fault = ServeFault::NotWritten(stream);
                self.run.fail_at(fault, self.named(stream, epoch), &error);
                Err(fault)
            }
        }
    }

    /// The name of a file of an epoch.
    fn named(&self, stream: Stream, epoch: u64) -> Named<'a> {
        Named {
            stream,
            path: self.path,
            epoch,
        }
    }

    /// Opens a file of a later epoch, which has to be new. A fault ends the run.
    fn open_later(&self, path: &str, stream: Stream, epoch: u64) -> Result<File, ServeFault> {
        match open_new(self.host, path) {
            Ok(file) => Ok(file),
            Err(Unopened::There) => {
                let fault = ServeFault::NotEmpty(stream);
                self.run.fail_at_path(fault, path);
                Err(fault)
            }
            Err(Unopened::Failed(error)) => {
                let fault = ServeFault::NotOpened(stream);
                self.run.fail_at(fault, self.named(stream, epoch), &error);
                Err(fault)
            }
        }
    }
}

impl<'a> EpochFiles<Timed<'a, Kept<'a>>, Kept<'a>> for TapePaths<'a> {
    fn open(&self, epoch: u64) -> Result<(Timed<'a, Kept<'a>>, Kept<'a>), ServeFault> {
        let Ok((tape, lengths)) = self.paths_of(epoch) else {
            return Err(ServeFault::NoMemory);
        };
        let tape = self.open_later(tape.as_str(), Stream::Tape, epoch)?;
        let lengths = self.open_later(lengths.as_str(), Stream::Lengths, epoch)?;
        self.with_times(tape, lengths, epoch)
    }
}

/// The refusal of a file of the first epoch.
fn refused(why: Unopened, stream: Stream, path: &str) -> Refusal {
    match why {
        Unopened::There => Refusal::at(ProgramFault::TapeThere, path),
        Unopened::Failed(error) => Refusal::of_stream(stream, path, &error),
    }
}

/// Opens a file to write it, which has to be new, so that no two runs have one file. A FIFO or a device that is there is opened
/// as it is, because it holds nothing that could be overwritten.
fn open_new(host: &HostRuntime, path: &str) -> Result<File, Unopened> {
    match OpenOptions::new()
        .write(true)
        .create_new(true)
        .open(host, path)
    {
        Ok(file) => Ok(file),
        Err(error) if error.kind() == ErrorKind::AlreadyExists => open_device(host, path),
        Err(error) => Err(Unopened::Failed(error)),
    }
}

/// Opens a FIFO or a device to write to it. The path is looked up once more after the opening.
fn open_device(host: &HostRuntime, path: &str) -> Result<File, Unopened> {
    if !is_device(fs::metadata(host, path)) {
        return Err(Unopened::There);
    }
    match OpenOptions::new().write(true).open(host, path) {
        Ok(file) if is_device(file.metadata()) => Ok(file),
        Ok(_) => Err(Unopened::There),
        Err(error) => Err(Unopened::Failed(error)),
    }
}
