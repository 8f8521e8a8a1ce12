//! The signals that ask the program to end, as the system shows them to a process that blocks them.
use std::fs;

/// The bits of the signals INT and TERM in a mask. The place of a signal's bit is the signal's number less one.
const ENDING: u64 = 0x4002;

/// The signals that ask the program to end. The program was started with them blocked, so they wait until it looks for them.
#[derive(Clone, Copy)]
pub(crate) struct Signals {
    /// The bits of the signals that were blocked and not ignored when the program began.
    awaited: u64,
}

impl Signals {
    /// The signals that ask this process to end, if the process blocks them. If it blocks none, the system itself ends the
    /// process.
    pub(crate) fn of_process(host: &HostRuntime) -> Self {
        Signals {
            awaited: ENDING & mask_in(host, b"SigBlk:") & !mask_in(host, b"SigIgn:"),
        }
    }

    /// Whether any signal can come.
    pub(crate) fn can_come(self) -> bool {
        self.awaited != 0
    }

    /// Whether a signal has come.
    pub(crate) fn has_come(self, host: &HostRuntime) -> bool {
        self.can_come() && self.awaited & mask_in(host, b"ShdPnd:") != 0
    }
}

/// A mask of signals in the process's status. The blocked ones follow `SigBlk:`, the ignored ones `SigIgn:`, and those that
/// were sent and wait `ShdPnd:`. No signals if it can't be read.
fn mask_in(host: &HostRuntime, name: &[u8]) -> u64 {
    let Ok(text) = fs::read(host, "/proc/self/status") else {
        return 0;
    };
    for line in text.split(|byte| *byte == b'\n') {
        if let Some(digits) = line.strip_prefix(name) {
            return mask_of(digits);
        }
    }
    0
}

/// The last 64 bits of a number in hexadecimal digits. Other bytes are skipped.
fn mask_of(digits: &[u8]) -> u64 {
    let mut mask = 0u64;
    for byte in digits {
        let digit = match *byte {
            digit @ b'0'..=b'9' => digit - b'0',
            digit @ b'a'..=b'f' => digit - b'a' + 10,
            _ => continue,
        };
        mask = (mask << 4) | u64::from(digit);
    }
    mask
}
