//! A file of the tape that waits for the disk.
ghost use Rattle.std.specs.Prelude.{◌≡◌};
ghost use Rattle.nms_serving.specs.Streams.{file_of};

use crate::named::Named;
use crate::run::Run;
use crate::serve_fault::ServeFault;
use std::fs::OpenFile;
use std::io;
use std::io::{ErrorKind, Write};

/// A file of the tape. If the run waits for the disk at each write, a write ends only when the disk has the bytes. If the disk
/// fails, the run is ended first, so that no later answer is written.
#[derive(Drop)]
pub struct OnDisk<'a, F> {
    file: F,
    run: &'a Run<'a>,
    named: Named<'a>,
    waits: bool,
}

impl<'a, F> OnDisk<'a, F> {
    /// A wrapper for a file of the run, with the name by which a fault reports it.
    pub fn new(file: F, run: &'a Run<'a>, named: Named<'a>, waits: bool) -> Self
        ensures { file_of result ≡ file }
    {
        OnDisk {
            file,
            run,
            named,
            waits,
        }
    }
}

impl<F: Write + OpenFile> Write for OnDisk<'_, F> {
    ghost use Rattle.nms_serving.specs.Streams.{file_of};

    ghost contents = { λ disk. F.contents (file_of disk) };

    fn write(&mut self, buf: &[u8]) -> io::Result<usize> {
        let written = self.file.write(buf);
        if self.waits
            && written.is_ok()
            && let Err(error) = self.file.sync_data()
            // A FIFO or a device keeps nothing, so there is nothing to wait for.
            && error.kind() != ErrorKind::InvalidInput
        {
            let fault = ServeFault::NotWritten(self.named.stream);
            self.run.fail_at(fault, self.named, &error);
        }
        written
    }

    fn flush(&mut self) -> io::Result<()> {
        self.file.flush()
    }
}
