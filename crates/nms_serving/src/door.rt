//! Paths that threads open, read and write, and how a thread that waits at a FIFO ends.
ghost use Rattle.std.specs.Prelude.{◌≡◌};
ghost use Rattle.nms_serving.specs.Streams.{path_of};

use crate::named::Named;
use crate::run::Run;
use crate::serve_fault::ServeFault;
use crate::stream::Stream;
use std::alloc::Global;
use std::fs::{File, OpenOptions};
use std::io::{ErrorKind, Read, Write};
use std::os::fd::AsRawFd;
use std::os::unix::fs::{FileTypeExt, MetadataExt};
use std::thread::Threads;
use std::time::Duration;
use std::{fs, io, thread};

/// How many seconds a thread keeps a FIFO open to wake another thread: a day. The process ends long before.
const KEPT: u64 = 86_400;

/// How many milliseconds a router has to read the last answers from a FIFO before they are dropped. This product's own rule.
const LEFT: u64 = 600;

/// Whether a thread of the run reads from a FIFO or writes to it.
#[derive(Clone, Copy)]
pub(crate) enum Side {
    /// The thread reads from the FIFO.
    Reads,
    /// The thread writes to the FIFO.
    Writes,
}

/// A path that a thread opens. Opening a FIFO waits for its other end.
#[derive(Drop)]
pub struct Door<'a> {
    path: &'a str,
}

impl<'a> Door<'a> {
    /// A path that a thread of the run may open.
    pub fn new(path: &'a str) -> Self
        ensures { path_of result ≡ path.now }
    {
        Door { path }
    }

    /// Opens the path to read it.
    pub(crate) fn open_to_read(&self, files: &HostRuntime, run: &Run<'_>) -> io::Result<File> {
        self.open(files, run, OpenOptions::new().read(true))
    }

    /// Opens the path to append to its file, which has to be there.
    pub(crate) fn open_to_write(&self, files: &HostRuntime, run: &Run<'_>) -> io::Result<File> {
        self.open(files, run, OpenOptions::new().append(true))
    }

    /// The stream that is opened at this path, together with the path, as a fault reports it.
    pub(crate) fn named(&self, stream: Stream) -> Named<'a> {
        Named {
            stream,
            path: self.path,
            epoch: 0,
        }
    }

    /// Ends the run because the stream at this path could not be opened, and returns the fault.
    pub(crate) fn refuse(&self, run: &Run<'_>, stream: Stream, error: &io::Error) -> ServeFault {
        let fault = ServeFault::NotOpened(stream);
        run.fail_at(fault, self.named(stream), error);
        fault
    }

    /// Opens the path, unless the run ends.
    fn open(&self, files: &HostRuntime, run: &Run<'_>, how: &OpenOptions) -> io::Result<File> {
        if run.is_stopped() {
            return Err(io::Error::from(ErrorKind::BrokenPipe));
        }
        how.open(files, self.path)
    }

    /// Opens the FIFO to read it, without a wait for a writer. It is opened twice: first to read and write, so that the second
    /// opening finds a writer. Afterwards the run has no writer there. The second opening uses the path of the first one's
    /// file. So both are of one FIFO, even if the path names another by then. `None` if the path names nothing by now.
    pub(crate) fn open_anew(
        &self,
        files: &HostRuntime,
        alloc: Global,
        run: &Run<'_>,
    ) -> io::Result<Option<File>> {
        match self.open_if_there(files, run, OpenOptions::new().read(true).write(true))? {
            Some(both) => {
                let path = path_of_opened(alloc, &both)?;
                Ok(Some(Door::new(path.as_str()).open_to_read(files, run)?))
            }
            None => Ok(None),
        }
    }

    /// Opens the path to append to its file. It does not wait for a reader, even if the file is a FIFO. `None` if the path
    /// names nothing by now.
    pub(crate) fn answer_anew(
        &self,
        files: &HostRuntime,
        alloc: Global,
        run: &Run<'_>,
    ) -> io::Result<Option<File>> {
        if !self.is_fifo(files) {
            return self.open_if_there(files, run, OpenOptions::new().append(true));
        }
        match self.open_if_there(files, run, OpenOptions::new().read(true).write(true))? {
            Some(both) => {
                let path = path_of_opened(alloc, &both)?;
                Ok(Some(Door::new(path.as_str()).open_to_write(files, run)?))
            }
            None => Ok(None),
        }
    }

    /// Opens the path; `None` if it names nothing.
    fn open_if_there(
        &self,
        files: &HostRuntime,
        run: &Run<'_>,
        how: &OpenOptions,
    ) -> io::Result<Option<File>> {
        match self.open(files, run, how) {
            Ok(file) => Ok(Some(file)),
            Err(error) if error.kind() == ErrorKind::NotFound => Ok(None),
            Err(error) => Err(error),
        }
    }

    /// Whether there is a FIFO at the path, or a pipe without a name.
    pub(crate) fn is_fifo(&self, host: &HostRuntime) -> bool {
        is_fifo(host, self.path)
    }

    /// Whether the path now names another FIFO than the one that was opened, because the old one was removed and a new one made.
    pub(crate) fn is_renewed(&self, host: &HostRuntime, opened: &File) -> bool {
        let (Ok(now), Ok(then)) = (fs::metadata(host, self.path), opened.metadata()) else {
            return false;
        };
        now.file_type().is_fifo() && (now.ino() != then.ino() || now.dev() != then.dev())
    }

    /// Wakes the thread of the run that waits at this path's FIFO, if there is one. A separate thread does that, so that the
    /// process can end without waiting for it. It opens both ends of the FIFO, and writes a line feed or reads what is in it.
    pub(crate) fn wake<R: Threads>(&self, rt: &R, host: &HostRuntime, alloc: Global, side: Side) {
        if !self.is_fifo(host) {
            return;
        }
        let Ok(path) = String::from_str(alloc, self.path) else {
            return;
        };
        let host = *host;
        let _left = thread::spawn(rt, move || keep_open(&host, path.as_str(), side));
    }
}

/// A path by which an open file can be opened once more.
fn path_of_opened(alloc: Global, opened: &File) -> io::Result<String> {
    match format!(in alloc; "/proc/self/fd/{}", opened.as_raw_fd()) {
        Ok(path) => Ok(path),
        Err(_) => Err(io::Error::from(ErrorKind::OutOfMemory)),
    }
}

/// Whether there is a FIFO at a path, or a pipe without a name.
fn is_fifo(host: &HostRuntime, path: &str) -> bool {
    match fs::metadata(host, path) {
        Ok(found) => found.file_type().is_fifo(),
        Err(_) => false,
    }
}

/// Whether an open file is a FIFO, or a pipe without a name. Its path may name another file by now, or none.
pub(crate) fn is_open_fifo(opened: &File) -> bool {
    match opened.metadata() {
        Ok(found) => found.file_type().is_fifo(),
        Err(_) => false,
    }
}

/// Opens both ends of a FIFO and keeps them open, so that no thread waits for the other end, for bytes or for room.
fn keep_open(host: &HostRuntime, path: &str, side: Side) {
    let Ok(mut file) = OpenOptions::new().read(true).write(true).open(host, path) else {
        return;
    };
    match side {
        Side::Reads => {
            let _woken = file.write(b"\n");
            thread::sleep(host, Duration::from_secs(KEPT));
        }
        Side::Writes => {
            // A thread that waited for a reader goes on now. Meanwhile a router can still read the answers that are in the FIFO.
            thread::sleep(host, Duration::from_millis(LEFT));
            take_all_bytes(&mut file);
        }
    }
}

/// Takes the bytes of a FIFO for as long as it can be read.
fn take_all_bytes(file: &mut File) {
    let mut bytes = [0; 4096];
    for _ in 0..u64::MAX {
        match file.read(&mut bytes) {
            Ok(count) if count > 0 => {}
            _ => return,
        }
    }
}
