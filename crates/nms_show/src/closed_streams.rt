//! The standard streams of a process that was started with some of them closed.
use std::fs::OpenOptions;
use std::io;
use std::os::fd::{AsRawFd, IntoRawFd};

/// How many standard streams there are: 0 is input, 1 output, 2 errors.
const STANDARD: i32 = 3;

/// Opens `/dev/null` for each standard stream that is closed, and leaves it open to the end of the process. A program has to call
/// this before it opens a file. A file that is opened takes the first free number, so it would be taken for the closed stream.
/// Messages or answers would then be written into that file.
///
/// `/dev/null` is opened only to read. So a closed input is empty, and writing to a closed output still fails.
///
/// The only error is that `/dev/null` cannot be opened. Streams that were opened before it remain open.
pub fn open_closed_streams(host: &HostRuntime) -> io::Result<()> {
    for _ in 0..STANDARD {
        let file = OpenOptions::new().read(true).open(host, "/dev/null")?;
        if file.as_raw_fd() >= STANDARD {
            return Ok(());
        }
        let _left_open = file.into_raw_fd();
    }
    Ok(())
}
