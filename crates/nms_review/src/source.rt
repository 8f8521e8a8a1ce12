//! A file that is being read: how far the reading is, and why the file could not be read.
use crate::answers::ERASE;
use crate::fault::Fault;
use crate::progress::Progress;
use crate::screen::Screen;
use nms_show::Ending;
use std::fs::OpenFile;
use std::io;
use std::io::Read;
use std::time::Clock;

/// A file being read.
#[derive(Drop)]
pub(crate) struct Source<'a, T, R> {
    rt: &'a T,
    file: R,
    progress: Option<Progress>,
    is_shown: bool,
    failed: Option<io::Error>,
}

impl<'a, T: Clock + Eprint, R: Read + OpenFile> Source<'a, T, R> {
    /// Begins the reading of an open file. Its progress is shown only if the standard error of the process shows progress.
    pub(crate) fn new(rt: &'a T, screen: Screen, file: R) -> Self {
        let progress = if screen.errors {
            progress_of(rt, &file)
        } else {
            None
        };
        Source {
            rt,
            file,
            progress,
            is_shown: false,
            failed: None,
        }
    }
}

impl<T: Clock + Eprint, R> Source<'_, T, R> {
    /// Why the file could not be read to its end, if it could not.
    pub(crate) fn failed(&self) -> Option<io::Error> {
        self.failed
    }

    /// Ends a request that has read the file, and removes the line of progress. A fault gets the system's reason.
    pub(crate) fn ended(&mut self, served: Result<Ending, Fault>) -> Result<Ending, Fault> {
        self.clear();
        match served {
            Ok(ending) => Ok(ending),
            Err(fault) => Err(fault.with_reason(self.failed)),
        }
    }

    /// Removes the line of progress.
    pub(crate) fn clear(&mut self) {
        if self.is_shown {
            let _ = self.rt.eprint(ERASE);
            self.is_shown = false;
        }
    }

    /// Counts the bytes read, and shows the progress if it is time.
    fn show(&mut self, bytes: &[u8]) {
        let Some(progress) = &mut self.progress else {
            return;
        };
        if progress.count(self.rt, bytes) {
            let _ = self.rt.eprint(*progress);
            self.is_shown = true;
        }
    }
}

/// The progress of a file that is about to be read.
fn progress_of<T: Clock, R: OpenFile>(rt: &T, file: &R) -> Option<Progress> {
    let began = rt.monotonic().ok()?;
    let total = file.metadata().ok()?.len();
    Some(Progress::new(total, began))
}

impl<T: Clock + Eprint, R: Read> Read for Source<'_, T, R> {
    fn read(&mut self, buf: &mut [u8]) -> io::Result<usize> {
        match self.file.read(buf) {
            Ok(count) => {
                self.show(buf.get(..count).unwrap_or(&[]));
                Ok(count)
            }
            Err(error) => {
                self.failed = Some(error);
                Err(error)
            }
        }
    }
}
