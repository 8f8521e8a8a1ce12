//! Reading the complete file of a feed.
ghost use Rattle.std.specs.Prelude.{◌≡◌, ◌≢◌, ◌<◌, ◌≤◌, ◌-◌, ◌^◌, length, IfErr, IfOk, IfSome};

use crate::feed_fault::FeedFault;
use nms_lines::RecordFault;
use std::alloc::Global;
use std::io;
use std::io::{ErrorKind, Read};

/// All bytes that a source still has, if there are at most `most` of them. At most one byte more is read.
pub fn read_within<R: Read + Drop>(
    alloc: Global,
    source: R,
    most: u64,
) -> Result<Vec<u8>, FeedFault>
    requires room { most < 2 ^ 64 - 1 }
    ensures all { IfOk result (λ bytes. IfSome (R.remaining source) (λ left. bytes.items ≡ left)) }
    ensures within { IfOk result (λ bytes. length bytes.items ≤ most) }
    ensures refused { IfErr result (λ fault. fault ≡ FeedFault.TooLong → IfSome (R.remaining source) (λ left. most < length left)) }
{
    let mut bytes = Vec::new(alloc);
    let mut begin = source.take(most + 1);
    match begin.read_to_end(&mut bytes) {
        Ok(_) if bytes.len() as u64 <= most => Ok(bytes),
        Ok(_) => Err(FeedFault::TooLong),
        Err(error) => Err(unread(&error)),
    }
}

/// Why a source could not be read.
fn unread(error: &io::Error) -> FeedFault
    ensures { result ≢ FeedFault.TooLong }
{
    if error.kind() == ErrorKind::OutOfMemory {
        FeedFault::Record(RecordFault::NoMemory)
    } else {
        FeedFault::Record(RecordFault::Failed)
    }
}
