//! The files of a tape in its folder: FILE.setup, FILE, FILE.published and FILE.times, then FILE.1, FILE.1.published and FILE.1.times,
//! and so on.
use crate::program_fault::ProgramFault;
use crate::refusal::Refusal;
use nms_serving::{MOST_EPOCHS, PUBLISHED, Stream};
use std::alloc::Global;
use std::io::ErrorKind;
use std::os::unix::fs::FileTypeExt;
use std::{fs, io};

/// The end of the name of a file of times.
pub(crate) const TIMES: &str = ".times";
/// The end of the name of the file with the setup's text.
pub(crate) const SETUP: &str = ".setup";

/// Which kind of a tape's file has a given name.
#[derive(Clone, Copy, Debug, PartialEq, Eq)]
pub(crate) enum Part {
    /// The file with the text of the tape's setup.
    Setup,
    /// One of an epoch's three files.
    Epoch(u64),
    /// A file with a number that no epoch has.
    NoEpoch,
}

/// A file of a tape.
#[derive(Drop)]
pub(crate) struct TapeFile {
    pub(crate) path: String,
    pub(crate) part: Part,
}

/// The files of a tape that are there, of any epoch. It reads all names in the folder.
pub(crate) fn files_of_tape(
    host: &HostRuntime,
    alloc: Global,
    path: &str,
) -> Result<Vec<TapeFile>, Refusal> {
    let (folder, base) = parts_of(path);
    let listing = match fs::read_dir(host, if folder.is_empty() { "." } else { folder }) {
        Ok(listing) => listing,
        Err(error) => return Err(Refusal::of_stream(Stream::Tape, path, &error)),
    };
    let mut files = Vec::new(alloc);
    for entry in listing {
        let entry = match entry {
            Ok(entry) => entry,
            // A name that is not UTF-8 is not one of the tape's.
            Err(error) if error.kind() == ErrorKind::InvalidFilename => continue,
            Err(error) => return Err(Refusal::of_stream(Stream::Tape, path, &error)),
        };
        let name = entry.file_name();
        if let Some(part) = part_of(base, name) {
            let Ok(path) = format!(in alloc; "{folder}{name}") else {
                return Err(Refusal::no_memory());
            };
            if files.push(TapeFile { path, part }).is_err() {
                return Err(Refusal::no_memory());
            }
        }
    }
    Ok(files)
}

/// Refuses a tape of which there is a file. A FIFO or a device may be there, because it holds nothing.
pub(crate) fn refuse_files(host: &HostRuntime, files: &[TapeFile]) -> Result<(), Refusal> {
    for file in files {
        if !is_device(fs::metadata(host, file.path.as_str())) {
            return Err(Refusal::at(ProgramFault::TapeThere, file.path.as_str()));
        }
    }
    Ok(())
}

/// Whether the file that was found at a path is a FIFO or a character device.
pub(crate) fn is_device(found: io::Result<fs::Metadata>) -> bool {
    match found {
        Ok(found) => found.file_type().is_fifo() || found.file_type().is_char_device(),
        Err(_) => false,
    }
}

/// The folder of a path with its last slash, and the name in it.
pub(crate) fn parts_of(path: &str) -> (&str, &str) {
    let Some((_, base)) = path.rsplit_once('/') else {
        return ("", path);
    };
    match path.strip_suffix(base) {
        Some(folder) => (folder, base),
        None => ("", path),
    }
}

/// Which file of a tape a name is, if it is one.
pub(crate) fn part_of(base: &str, name: &str) -> Option<Part> {
    let rest = name.strip_prefix(base)?;
    if rest == SETUP {
        return Some(Part::Setup);
    }
    let number = match rest.strip_suffix(PUBLISHED) {
        Some(number) => number,
        None => rest.strip_suffix(TIMES).unwrap_or(rest),
    };
    if number.is_empty() {
        return Some(Part::Epoch(0));
    }
    let digits = number.strip_prefix('.')?;
    if digits.is_empty() || !digits.bytes().all(|byte| byte.is_ascii_digit()) {
        return None;
    }
    Some(epoch_of(digits))
}

/// The later epoch whose number is written in digits.
fn epoch_of(digits: &str) -> Part {
    if digits.starts_with('0') {
        return Part::NoEpoch;
    }
    match digits.parse::<u64>() {
        Ok(epoch) if epoch <= MOST_EPOCHS => Part::Epoch(epoch),
        Ok(_) | Err(_) => Part::NoEpoch,
    }
}
