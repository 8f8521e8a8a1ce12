//! The files that the arguments of a call name. Each is there, and no two arguments name one file.
use crate::own_files::OwnFiles;
use crate::program_fault::ProgramFault;
use crate::refusal::Refusal;
use crate::tape_folder::TapeFile;
use crate::words::{ClientPaths, Request};
use nms_quote::Feed;
use nms_serving::Stream;
use std::alloc::Global;
use std::fs;
use std::fs::Metadata;
use std::os::unix::fs::{FileTypeExt, MetadataExt};

/// A path of the call, and the file that it names.
#[derive(Clone, Copy)]
struct Place<'a> {
    path: &'a str,
    device: u64,
    inode: u64,
}

/// The paths of a call whose files were looked up.
#[derive(Drop)]
struct Places<'a> {
    found: Vec<Place<'a>>,
}

impl<'a> Places<'a> {
    /// Adds a path with its file. A device or a socket, such as a terminal, may be named twice; any other file may not.
    fn add(&mut self, path: &'a str, found: &Metadata) -> Result<(), Refusal> {
        let kind = found.file_type();
        if kind.is_char_device() || kind.is_socket() {
            return Ok(());
        }
        let (device, inode) = (found.dev(), found.ino());
        let place = Place {
            path,
            device,
            inode,
        };
        for other in &self.found {
            if other.device == device && other.inode == inode {
                return Err(Refusal::at(ProgramFault::OneFile, other.path).with_path(path));
            }
        }
        self.found.push(place).map_err(|_| Refusal::no_memory())
    }

    /// Adds the path of a stream, whose file has to be there.
    fn add_stream(
        &mut self,
        host: &HostRuntime,
        stream: Stream,
        path: &'a str,
    ) -> Result<(), Refusal> {
        match fs::metadata(host, path) {
            Ok(found) => self.add(path, &found),
            Err(error) => Err(Refusal::of_stream(stream, path, &error)),
        }
    }

    /// Adds a path with its file, if the file is there.
    fn add_if_there(&mut self, host: &HostRuntime, path: &'a str) -> Result<(), Refusal> {
        match fs::metadata(host, path) {
            Ok(found) => self.add(path, &found),
            Err(_) => Ok(()),
        }
    }
}

/// Looks up the files that a call names. Each feed's and each client's has to be there, and no two arguments may name one file.
/// Also no argument may name one of the tape's files, or a file that the run makes, if it is there.
pub(crate) fn check_streams(
    host: &HostRuntime,
    alloc: Global,
    request: &Request,
    own: &OwnFiles<'_>,
    tape: &[TapeFile],
) -> Result<(), Refusal> {
    let mut places = Places {
        found: Vec::new(alloc),
    };
    for feed in &request.feeds {
        if let Some(letter) = Feed::at(feed.place) {
            places.add_stream(host, Stream::Feed(letter), feed.path.as_str())?;
        }
    }
    add_clients(host, &mut places, &request.clients)?;
    for file in tape {
        places.add_if_there(host, file.path.as_str())?;
    }
    for spot in &own.found {
        places.add_if_there(host, spot.path)?;
    }
    Ok(())
}

/// Adds the paths of the clients; those of standard input and output if there are none.
fn add_clients<'a>(
    host: &HostRuntime,
    places: &mut Places<'a>,
    clients: &'a [ClientPaths],
) -> Result<(), Refusal> {
    if clients.is_empty() {
        places.add_if_there(host, "/proc/self/fd/0")?;
        return places.add_if_there(host, "/proc/self/fd/1");
    }
    let mut number = 0u8;
    for client in clients {
        let Some(next) = number.checked_add(1) else {
            return Err(Refusal::of(ProgramFault::MoreClients));
        };
        number = next;
        places.add_stream(host, Stream::Requests(number), client.input.as_str())?;
        places.add_stream(host, Stream::Answers(number), client.output.as_str())?;
    }
    Ok(())
}
