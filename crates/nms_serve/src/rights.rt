//! Finding out what the process may do with a file without opening it, because a FIFO's other end would notice.
use std::alloc::{AllocError, Global};
use std::fs;
use std::fs::Metadata;
use std::os::unix::fs::MetadataExt;

/// The bit of a mode, or of a wanted right, that allows reading a file.
pub(crate) const READ: u32 = 4;
/// The bit that allows writing a file.
pub(crate) const WRITE: u32 = 2;
/// The bits that allow making and finding files in a folder.
pub(crate) const FOLDER: u32 = 3;
/// The bit of the capability to read and write any file (CAP_DAC_OVERRIDE) in the last digit of the mask.
const ANY_FILE: u8 = 2;

/// The users and groups whose rights the process has, as the system shows them. A file's mode decides; access lists are ignored.
#[derive(Drop)]
pub(crate) struct Rights {
    /// Whether the process may do everything.
    is_free: bool,
    user: u64,
    groups: Vec<u64>,
}

impl Rights {
    /// The rights of this process. If they can't be read, the check assumes that the process may do everything, and only a run
    /// finds out more.
    pub(crate) fn of_process(host: &HostRuntime) -> Result<Self, AllocError> {
        let mut rights = Rights {
            is_free: false,
            user: 0,
            groups: Vec::new(host.alloc()),
        };
        let Ok(text) = fs::read(host, "/proc/self/status") else {
            rights.is_free = true;
            return Ok(rights);
        };
        for line in text.split(|byte| *byte == b'\n') {
            rights.learn(line)?;
        }
        Ok(rights)
    }

    /// Takes what a line of the process's status says. The second number of users and groups is the effective one.
    fn learn(&mut self, line: &[u8]) -> Result<(), AllocError> {
        if let Some(words) = line.strip_prefix(b"Uid:") {
            self.user = second_of(words);
        } else if let Some(words) = line.strip_prefix(b"Gid:") {
            self.groups.push(second_of(words))?;
        } else if let Some(words) = line.strip_prefix(b"Groups:") {
            for word in words.split(is_space) {
                if let Some(group) = number_of(word) {
                    self.groups.push(group)?;
                }
            }
        } else if let Some(words) = line.strip_prefix(b"CapEff:") {
            self.is_free = has_any_file(words);
        }
        Ok(())
    }

    /// Whether the process has a right to a file.
    pub(crate) fn allow(&self, found: &Metadata, asked: u32) -> bool {
        let group = u64::from(found.gid());
        let mode = if u64::from(found.uid()) == self.user {
            found.mode() >> 6
        } else if self.groups.iter().any(|mine| *mine == group) {
            found.mode() >> 3
        } else {
            found.mode()
        };
        self.is_free || mode & asked == asked
    }
}

/// Whether a byte is a space or a tab, which separate the words of a line.
fn is_space(byte: &u8) -> bool {
    *byte == b'\t' || *byte == b' '
}

/// The second number of a line; 0 if there is none.
fn second_of(words: &[u8]) -> u64 {
    let mut has_first = false;
    for word in words.split(is_space) {
        if let Some(number) = number_of(word) {
            if has_first {
                return number;
            }
            has_first = true;
        }
    }
    0
}

/// The number that digits give; `None` for another text.
fn number_of(word: &[u8]) -> Option<u64> {
    if word.is_empty() {
        return None;
    }
    let mut number = 0u64;
    for byte in word {
        if !byte.is_ascii_digit() {
            return None;
        }
        number = number
            .checked_mul(10)?
            .checked_add(u64::from(*byte - b'0'))?;
    }
    Some(number)
}

/// Whether the last digit of a mask in hexadecimal has the capability.
fn has_any_file(mask: &[u8]) -> bool {
    match mask.last() {
        Some(digit @ b'0'..=b'9') => (*digit - b'0') & ANY_FILE != 0,
        Some(digit @ b'a'..=b'f') => (*digit - b'a' + 10) & ANY_FILE != 0,
        Some(_) | None => false,
    }
}
