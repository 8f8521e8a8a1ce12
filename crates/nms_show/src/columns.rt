//! The number of columns that a text takes on a terminal.
use crate::item::{Item, write_plain};
use crate::shown::write_shown;
use std::io;
use std::io::Write;

/// Counts the characters of what is written.
#[derive(Drop)]
struct Columns(usize);

impl Write for Columns {
    /// Counts each character once: in UTF-8, the bytes after its first one are not counted.
    fn write(&mut self, text: &[u8]) -> io::Result<usize> {
        match self.0.checked_add(characters_in(text)) {
            Some(count) => {
                self.0 = count;
                Ok(text.len())
            }
            None => Err(io::Error::from(io::ErrorKind::OutOfMemory)),
        }
    }

    fn flush(&mut self) -> io::Result<()> {
        Ok(())
    }
}

/// The number of characters of an item.
pub(crate) fn columns_of_item(item: &Item<'_>) -> usize {
    let mut count = Columns(0);
    // The result is dropped, because writing can fail only if the count of characters overflows. No text in memory is so long.
    let _ = write_plain(&mut count, item);
    count.0
}

/// The number of characters of bytes as they are shown.
pub(crate) fn columns_of_bytes(bytes: &[u8]) -> usize {
    let mut count = Columns(0);
    let _ = write_shown(&mut count, bytes);
    count.0
}

/// How many characters begin in a text.
fn characters_in(text: &[u8]) -> usize {
    let mut count = 0;
    for byte in text {
        if *byte < 128 || *byte >= 192 {
            count += 1;
        }
    }
    count
}
