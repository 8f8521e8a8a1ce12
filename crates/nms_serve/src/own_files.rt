//! The files that a run makes next to its tape: their paths, and which files may be there already.
use crate::program_fault::ProgramFault;
use crate::refusal::Refusal;
use crate::tape_folder::{part_of, parts_of};
use crate::words::Request;
use nms_serving::{Sign, Signs, Stream};
use std::alloc::{AllocError, Global};
use std::fs::File;
use std::io::{ErrorKind, Read};
use std::os::unix::fs::MetadataExt;
use std::{fs, io};

/// The first bytes of each file of a run's state.
const BEGIN: &[u8; 4] = b"RUN,";

/// The paths by which the files of a run's state are written, before each gets its own name.
#[derive(Drop)]
pub(crate) struct NewPaths {
    status: Option<String>,
    ready: Option<String>,
}

impl NewPaths {
    /// The paths under which a request's files of the run's state are written first.
    pub(crate) fn of(alloc: Global, request: &Request) -> Result<Self, AllocError> {
        Ok(NewPaths {
            status: new_of(alloc, request.status.as_ref())?,
            ready: new_of(alloc, request.ready.as_ref())?,
        })
    }

    /// The files of the run's state.
    pub(crate) fn signs<'a>(&'a self, request: &'a Request) -> Signs<'a> {
        Signs {
            status: sign_of(request.status.as_ref(), self.status.as_ref()),
            ready: sign_of(request.ready.as_ref(), self.ready.as_ref()),
        }
    }
}

/// The path by which a file is written first.
fn new_of(alloc: Global, path: Option<&String>) -> Result<Option<String>, AllocError> {
    match path {
        Some(path) => Ok(Some(format!(in alloc; "{path}.new")?)),
        None => Ok(None),
    }
}

/// A file of the run's state, with its path and the path under which it is written first.
fn sign_of<'a>(path: Option<&'a String>, new: Option<&'a String>) -> Option<Sign<'a>> {
    match (path, new) {
        (Some(path), Some(new)) => Some(Sign {
            path: path.as_str(),
            new: new.as_str(),
        }),
        _ => None,
    }
}

/// A place for a file that a run makes: a folder, and a name in it.
#[derive(Clone, Copy)]
pub(crate) struct Spot<'a> {
    pub(crate) path: &'a str,
    device: u64,
    inode: u64,
    name: &'a str,
}

impl<'a> Spot<'a> {
    /// The folder and the name of a path. The folder has to be there.
    fn of(host: &HostRuntime, path: &'a str) -> io::Result<Self> {
        let (folder, name) = parts_of(path);
        let found = fs::metadata(host, if folder.is_empty() { "." } else { folder })?;
        Ok(Spot {
            path,
            device: found.dev(),
            inode: found.ino(),
            name,
        })
    }

    /// Whether two files are in one folder.
    fn is_beside(&self, other: &Spot<'_>) -> bool {
        self.device == other.device && self.inode == other.inode
    }
}

/// The files that a run makes. No two of them have the same folder and name, and none has those of a file of the tape.
#[derive(Drop)]
pub(crate) struct OwnFiles<'a> {
    host: &'a HostRuntime,
    tape: Spot<'a>,
    pub(crate) found: Vec<Spot<'a>>,
}

impl<'a> OwnFiles<'a> {
    /// The files next to a tape, whose folder was found before.
    pub(crate) fn of(host: &'a HostRuntime, alloc: Global, tape: &'a str) -> Result<Self, Refusal> {
        match Spot::of(host, tape) {
            Ok(spot) => Ok(OwnFiles {
                host,
                tape: spot,
                found: Vec::new(alloc),
            }),
            Err(error) => Err(Refusal::of_stream(Stream::Tape, tape, &error)),
        }
    }

    /// Adds the two paths of a file of the run's state. If a file is there already, it has to be one of a run's state.
    pub(crate) fn add_sign(&mut self, sign: Option<Sign<'a>>) -> Result<(), Refusal> {
        let Some(sign) = sign else {
            return Ok(());
        };
        self.add(sign.path)?;
        check_state(self.host, sign.path)?;
        self.add(sign.new)?;
        refuse_link(self.host, sign.new)?;
        check_state(self.host, sign.new)
    }

    /// Adds the path of the record, which has to be new. Only a run that goes on with an earlier one may use a record again.
    pub(crate) fn add_record(&mut self, path: &'a str, is_on: bool) -> Result<(), Refusal> {
        self.add(path)?;
        match fs::metadata(self.host, path) {
            Ok(found) if found.is_dir() || found.is_file() && !is_on => {
                Err(Refusal::at(ProgramFault::RecordThere, path))
            }
            Ok(_) => Ok(()),
            Err(error) if error.kind() == ErrorKind::NotFound => Ok(()),
            Err(error) => Err(Refusal::of_file(path, &error)),
        }
    }

    /// Adds the path of a file that the run makes. It is refused if another such file, or a file of the tape, has the same folder
    /// and name.
    pub(crate) fn add(&mut self, path: &'a str) -> Result<(), Refusal> {
        let spot = match Spot::of(self.host, path) {
            Ok(spot) => spot,
            Err(error) => return Err(Refusal::of_file(path, &error)),
        };
        if spot.is_beside(&self.tape) && part_of(self.tape.name, spot.name).is_some() {
            return Err(Refusal::at(ProgramFault::OneFile, self.tape.path).with_path(path));
        }
        for other in &self.found {
            if spot.is_beside(other) && spot.name == other.name {
                return Err(Refusal::at(ProgramFault::OneFile, other.path).with_path(path));
            }
        }
        self.found.push(spot).map_err(|_| Refusal::no_memory())
    }
}

/// Refuses a link where the state is written first. It may lead to a file that is not there yet, such as the tape.
fn refuse_link(host: &HostRuntime, path: &str) -> Result<(), Refusal> {
    match fs::symlink_metadata(host, path) {
        Ok(found) if found.file_type().is_symlink() => Err(Refusal::at(
            ProgramFault::NoState,
            path,
        )),
        Ok(_) | Err(_) => Ok(()),
    }
}

/// Refuses a path where there is something other than a file of a run's state.
fn check_state(host: &HostRuntime, path: &str) -> Result<(), Refusal> {
    match fs::metadata(host, path) {
        Ok(found) if found.is_file() => {}
        Ok(_) => return Err(Refusal::at(ProgramFault::NoState, path)),
        Err(error) if error.kind() == ErrorKind::NotFound => return Ok(()),
        Err(error) => return Err(Refusal::of_file(path, &error)),
    }
    match begins_right(host, path) {
        Ok(true) => Ok(()),
        Ok(false) => Err(Refusal::at(ProgramFault::NoState, path)),
        Err(error) => Err(Refusal::of_file(path, &error)),
    }
}

/// Whether a file begins as a file of a run's state does. It may be shorter or empty, since its writing may have been
/// interrupted.
fn begins_right(host: &HostRuntime, path: &str) -> io::Result<bool> {
    let mut file = File::open(host, path)?;
    let mut begin = [0; 4];
    let count = file.read(&mut begin)?;
    let most = count.min(4);
    Ok(begin[..most] == BEGIN[..most])
}
