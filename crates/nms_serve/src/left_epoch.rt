//! The two files that an earlier run has left of one epoch, and how they are read and cut.
ghost use Rattle.std.specs.Prelude.{◌≡◌, IfOk};
ghost use Rattle.nms_quote.specs.Roster.{sizes_of};

use crate::program_fault::ProgramFault;
use crate::refusal::Refusal;
use crate::tape_fault::TapeFault;
use crate::tape_folder::TIMES;
use nms_fees::Setup;
use nms_serving::{LeftBoard, ResumeFault, ServeFault, Stream, epoch_paths, left_board};
use std::alloc::{AllocError, Global};
use std::fs::OpenOptions;
use std::io::ErrorKind;
use std::{fs, io};

/// How many bytes a line of times has.
const TIME_LINE: u64 = 16;

/// A tape of an earlier run, and the setup under which it is read.
#[derive(Clone, Copy)]
pub(crate) struct LeftTape<'a> {
    pub(crate) host: &'a HostRuntime,
    pub(crate) alloc: Global,
    pub(crate) setup: &'a Setup,
    pub(crate) path: &'a str,
}

/// What is left of an epoch.
#[derive(Drop)]
pub(crate) struct LeftEpoch {
    /// The path of the epoch's tape, and the path of the tape's published lengths.
    pub(crate) tape: String,
    pub(crate) lengths: String,
    /// The path of the times of the epoch's changes. There may be no such file.
    pub(crate) times: String,
    pub(crate) left: LeftBoard,
}

impl LeftTape<'_> {
    /// Reads an epoch's files. The lengths may be missing if `may_lack` holds and the tape is empty.
    pub(crate) fn read_epoch(&self, epoch: u64, may_lack: bool) -> Result<LeftEpoch, Refusal>
        ensures sizes { IfOk result (λ epoch. epoch.left.board.sizes ≡ sizes_of self.now.setup.now.roster) }
    {
        let Ok((tape, lengths)) = self.paths_of(epoch) else {
            return Err(Refusal::no_memory());
        };
        let Ok(times) = format!(in self.alloc; "{tape}{TIMES}") else {
            return Err(Refusal::no_memory());
        };
        let text = self.read(Stream::Tape, tape.as_str(), false)?;
        let may_lack = may_lack && text.is_empty();
        let listed = self.read(Stream::Lengths, lengths.as_str(), may_lack)?;
        match left_board(self.alloc, self.setup, &text, &listed) {
            Ok(left) => Ok(LeftEpoch {
                tape,
                lengths,
                times,
                left,
            }),
            Err(fault) => Err(refused_left(fault, tape.as_str(), lengths.as_str())),
        }
    }

    /// The paths of an epoch's tape and of its lengths.
    fn paths_of(&self, epoch: u64) -> Result<(String, String), AllocError> {
        epoch_paths(self.alloc, self.path, epoch)
    }

    /// Refuses an epoch one of whose files is missing or no file.
    pub(crate) fn check_files(&self, epoch: u64) -> Result<(), Refusal> {
        let Ok((tape, lengths)) = self.paths_of(epoch) else {
            return Err(Refusal::no_memory());
        };
        self.check_file(tape.as_str())?;
        self.check_file(lengths.as_str())
    }

    /// Refuses a file that is missing or can't be cut.
    fn check_file(&self, path: &str) -> Result<(), Refusal> {
        match fs::metadata(self.host, path) {
            Ok(found) if found.is_file() => Ok(()),
            Ok(_) => Err(refused(TapeFault::NoEpoch, path)),
            Err(_) => Err(refused(TapeFault::Missing, path)),
        }
    }

    /// The bytes of a file. If the file is missing, it gives no bytes if `may_lack` holds, and is refused otherwise.
    fn read(&self, stream: Stream, path: &str, may_lack: bool) -> Result<Vec<u8>, Refusal> {
        match fs::metadata(self.host, path) {
            Ok(found) if found.is_file() => {}
            Ok(_) => return Err(refused(TapeFault::NoEpoch, path)),
            Err(_) if may_lack => return Ok(Vec::new(self.alloc)),
            Err(_) => return Err(refused(TapeFault::Missing, path)),
        }
        match fs::read(self.host, path) {
            Ok(bytes) => Ok(bytes),
            Err(error) if error.kind() == ErrorKind::OutOfMemory => Err(Refusal::no_memory()),
            Err(error) => {
                let fault = ProgramFault::Serving(ServeFault::NotRead(stream));
                Err(Refusal::at(fault, path).and(&error))
            }
        }
    }
}

impl LeftEpoch {
    /// Cuts an epoch's files after the changes that were published. No client saw what is cut. The file of times may be missing
    /// or shorter.
    pub(crate) fn cut(&self, host: &HostRuntime) -> Result<(), Refusal> {
        if fs::metadata(host, self.times.as_str()).is_ok() {
            let end = (self.left.published as u64).checked_mul(TIME_LINE);
            cut_file(
                host,
                Stream::Times,
                self.times.as_str(),
                end.unwrap_or(u64::MAX),
            )?;
        }
        cut_file(
            host,
            Stream::Tape,
            self.tape.as_str(),
            self.left.tape_end as u64,
        )?;
        cut_file(
            host,
            Stream::Lengths,
            self.lengths.as_str(),
            self.left.lengths_end as u64,
        )
    }

    /// Removes the files of an epoch of which nothing was published. If it ends early, the next run does the same again,
    /// because a tape without its lengths counts as empty.
    pub(crate) fn remove(&self, host: &HostRuntime) -> Result<(), Refusal> {
        cut_file(host, Stream::Tape, self.tape.as_str(), 0)?;
        remove_file(host, Stream::Times, self.times.as_str())?;
        remove_file(host, Stream::Lengths, self.lengths.as_str())?;
        remove_file(host, Stream::Tape, self.tape.as_str())
    }
}

/// The refusal of a file of a tape.
pub(crate) fn refused(fault: TapeFault, path: &str) -> Refusal {
    Refusal::at(ProgramFault::Tape(fault), path)
}

/// The refusal of what is left of an epoch, at the file that has the fault.
fn refused_left(fault: ResumeFault, tape: &str, lengths: &str) -> Refusal {
    match fault {
        ResumeFault::NoMemory => Refusal::no_memory(),
        ResumeFault::BadLengths => refused(TapeFault::Left(fault), lengths),
        ResumeFault::ShortTape
        | ResumeFault::TooMuch
        | ResumeFault::NotLines
        | ResumeFault::Refused(_) => refused(TapeFault::Left(fault), tape),
    }
}

/// Cuts a file to the given length in bytes, if it is longer. A failure is a refusal that names the file.
fn cut_file(host: &HostRuntime, stream: Stream, path: &str, end: u64) -> Result<(), Refusal> {
    match try_cut(host, path, end) {
        Ok(()) => Ok(()),
        Err(error) => Err(unwritten(stream, path, &error)),
    }
}

/// Cuts a file to the given length in bytes, if it is longer. A failure is the system's error.
fn try_cut(host: &HostRuntime, path: &str, end: u64) -> io::Result<()> {
    let file = OpenOptions::new().write(true).open(host, path)?;
    if file.metadata()?.len() > end {
        return file.set_len(end);
    }
    Ok(())
}

/// Removes a file, if it is there.
fn remove_file(host: &HostRuntime, stream: Stream, path: &str) -> Result<(), Refusal> {
    match fs::remove_file(host, path) {
        Ok(()) => Ok(()),
        Err(error) if error.kind() == ErrorKind::NotFound => Ok(()),
        Err(error) => Err(unwritten(stream, path, &error)),
    }
}

/// The refusal of a file that can't be changed.
pub(crate) fn unwritten(stream: Stream, path: &str, error: &io::Error) -> Refusal {
    let fault = ProgramFault::Serving(ServeFault::NotWritten(stream));
    Refusal::at(fault, path).and(error)
}
