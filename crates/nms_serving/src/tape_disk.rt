//! The paths of a tape's files, and the disk on which they are.
use crate::named::Named;
use crate::serve_fault::ServeFault;
use crate::serving::Means;
use crate::stream::Stream;
use std::alloc::{AllocError, Global};
use std::fs;
use std::fs::File;

/// The end of the name of a file of lengths.
pub const PUBLISHED: &str = ".published";

/// The disk on which the files of a tape are, if it is waited for once a second.
#[derive(Clone, Copy)]
pub struct TapeDisk<'a> {
    /// The path of the first epoch's tape.
    pub path: &'a str,
}

impl TapeDisk<'_> {
    /// Waits until the disk has what was written to an epoch's tape and its lengths. Another thread may write meanwhile. A fault ends
    /// the run.
    pub(crate) fn sync<R>(&self, means: &Means<'_, R>, epoch: u64) {
        match epoch_paths(means.alloc, self.path, epoch) {
            Ok((tape, lengths)) => {
                self.sync_file(means, Stream::Tape, epoch, tape.as_str());
                self.sync_file(means, Stream::Lengths, epoch, lengths.as_str());
            }
            Err(_) => means.run.fail(ServeFault::NoMemory),
        }
    }

    /// Waits until the disk has the bytes of a file. A FIFO or a device keeps nothing, so this does not wait for it.
    fn sync_file<R>(&self, means: &Means<'_, R>, stream: Stream, epoch: u64, path: &str) {
        let synced = match fs::metadata(means.host, path) {
            Ok(found) if !found.is_file() => Ok(()),
            Ok(_) => match File::open(means.host, path) {
                Ok(file) => file.sync_data(),
                Err(error) => Err(error),
            },
            Err(error) => Err(error),
        };
        if let Err(error) = synced {
            let named = Named {
                stream,
                path: self.path,
                epoch,
            };
            means
                .run
                .fail_at(ServeFault::NotWritten(stream), named, &error);
        }
    }
}

/// The paths of an epoch's tape and of its lengths.
pub fn epoch_paths(alloc: Global, path: &str, epoch: u64) -> Result<(String, String), AllocError> {
    if epoch == 0 {
        return Ok((
            String::from_str(alloc, path)?,
            format!(in alloc; "{path}{PUBLISHED}")?,
        ));
    }
    Ok((
        format!(in alloc; "{path}.{epoch}")?,
        format!(in alloc; "{path}.{epoch}{PUBLISHED}")?,
    ))
}
