//! The meanings of the values of `--times` and `--sync`.
use crate::program_fault::ProgramFault;
use crate::refusal::Refusal;
use crate::words::Request;

/// Seconds in a day, in an hour and in a minute.
const DAY: u64 = 86_400;

const HOUR: u64 = 3_600;

const MINUTE: u64 = 60;

/// When the run waits for the disk to have what was written to the tape.
#[derive(Clone, Copy, Debug, PartialEq, Eq)]
pub(crate) enum SyncAt {
    /// The run waits before each publishing.
    Publish,
    /// The run waits once a second.
    Second,
    /// The run never waits.
    None,
}

/// The choices that a request makes about the file of times and about waits for the disk.
#[derive(Clone, Copy)]
pub(crate) struct Choices {
    /// By how many seconds the clock of the times is ahead of UTC, across midnight; none if there are no times.
    pub(crate) zone: Option<u64>,
    pub(crate) sync: SyncAt,
}

impl Choices {
    /// The choices that a request makes, or the refusal of a value that has no meaning.
    pub(crate) fn of(request: &Request) -> Result<Self, Refusal> {
        let zone = match &request.times {
            None => None,
            Some(text) => match zone_of(text.as_bytes()) {
                Some(zone) => Some(zone),
                None => return Err(Refusal::of(ProgramFault::ZoneForm)),
            },
        };
        let sync = match &request.sync {
            None => SyncAt::None,
            Some(text) => match sync_of(text.as_bytes()) {
                Some(sync) => sync,
                None => return Err(Refusal::of(ProgramFault::SyncForm)),
            },
        };
        Ok(Choices { zone, sync })
    }
}

/// By how many seconds a zone is ahead of UTC, across midnight. The zone is a sign and HHMM: `-0500` gives 68,400. `None` for
/// another text.
fn zone_of(text: &[u8]) -> Option<u64> {
    let [
        sign,
        h @ b'0'..=b'2',
        hours @ b'0'..=b'9',
        m @ b'0'..=b'5',
        minutes @ b'0'..=b'9',
    ] = text
    else {
        return None;
    };
    let hours = u64::from(*h - b'0') * 10 + u64::from(*hours - b'0');
    let minutes = u64::from(*m - b'0') * 10 + u64::from(*minutes - b'0');
    if hours > 23 {
        return None;
    }
    let seconds = hours * HOUR + minutes * MINUTE;
    match *sign {
        b'+' => Some(seconds),
        b'-' => Some((DAY - seconds) % DAY),
        _ => None,
    }
}

/// When the run waits for the disk, by a value of `--sync`.
fn sync_of(text: &[u8]) -> Option<SyncAt> {
    if text == b"publish".as_slice() {
        Some(SyncAt::Publish)
    } else if text == b"second".as_slice() {
        Some(SyncAt::Second)
    } else if text == b"none".as_slice() {
        Some(SyncAt::None)
    } else {
        None
    }
}
