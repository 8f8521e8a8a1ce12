//! The setup of a call, and the files that the call writes. A file that is read is never overwritten.
use crate::call::{Call, Host};
use crate::fault::{About, Fault};
use crate::words::Words;
use nms_codes::Code;
use nms_fees::{SETUP_K, Setup, read_setup_bytes};
use std::alloc::Global;
use std::fs;
use std::os::unix::fs::MetadataExt;
use std::rt::Files;

/// The options that name files that a call reads. A file that one of these options names is never overwritten.
const READ: [&'static str; 5] = ["setup", "times", "symbols", "map", "trades"];
/// Where the system shows standard output and standard error.
const STREAMS: [&'static str; 2] = ["/dev/stdout", "/dev/stderr"];

/// Creates a file at a path that the call does not use. If it cannot be created, E2 names the given argument.
pub(crate) fn create_file<T: Host>(
    call: &Call<'_, T>,
    path: &str,
    about: About,
) -> Result<T::File, Fault> {
    refuse_used(call, path, about)?;
    fs::create(call.rt, path).map_err(|_| Fault::unwritten(about))
}

/// Refuses an output that would overwrite a file that the call reads, or the file of a standard stream. Links to such a file are
/// refused too.
pub(crate) fn refuse_used<T: Host>(
    call: &Call<'_, T>,
    path: &str,
    about: About,
) -> Result<(), Fault> {
    let Some(own) = identity_of(call.rt, path) else {
        return Ok(());
    };
    if let Some(input) = input_at(call.rt, call.words, own) {
        return Err(Fault::usage(input, "it is read here, and would be overwritten"));
    }
    if is_stream(call.rt, own) {
        let expected = "another file than that of standard output or standard error";
        return Err(Fault::usage(about, expected));
    }
    Ok(())
}

/// Whether standard output or standard error is written to the file that has this device and file number.
fn is_stream<T: Files>(rt: &T, own: (u64, u64)) -> bool {
    for stream in STREAMS {
        if is_at(rt, Some(stream), own) {
            return true;
        }
    }
    false
}

/// Whether two paths are the same, or lead to the same plain file.
pub(crate) fn is_same<T: Files>(rt: &T, path: &str, other: &str) -> bool {
    path == other || is_file(rt, path) && identity_of(rt, path) == identity_of(rt, other)
}

/// Whether there is a plain file at a path.
pub(crate) fn is_file<T: Files>(rt: &T, path: &str) -> bool {
    identity_of(rt, path).is_some()
}

/// Whether a path leads to what is no plain file, as a pipe or a device.
pub(crate) fn is_special<T: Files>(rt: &T, path: &str) -> bool {
    fs::metadata(rt, path).is_ok() && !is_file(rt, path)
}

/// The argument that names the file with this device and file number, if the call reads that file.
fn input_at<T: Files>(rt: &T, words: &Words<'_>, own: (u64, u64)) -> Option<About> {
    for place in 0..words.own.len() {
        if is_at(rt, words.word(place), own) {
            return Some(About::Word(place));
        }
    }
    for option in READ {
        if is_at(rt, words.option(option), own) {
            return Some(About::Value(option));
        }
    }
    None
}

/// Whether an argument leads to the file with this device and file number.
fn is_at<T: Files>(rt: &T, word: Option<&str>, own: (u64, u64)) -> bool {
    match word {
        Some(word) => identity_of(rt, word) == Some(own),
        None => false,
    }
}

/// The device and the number of a plain file at a path, if there is one. A terminal or a pipe is no plain file.
fn identity_of<T: Files>(rt: &T, path: &str) -> Option<(u64, u64)> {
    match fs::metadata(rt, path) {
        Ok(found) if found.is_file() => Some((found.dev(), found.ino())),
        _ => None,
    }
}

/// The setup of the file that the arguments name, or the built-in one.
pub(crate) fn setup_of<T: Host>(rt: &T, words: &Words<'_>) -> Result<Setup, Fault> {
    let about = About::Value("setup");
    match words.option("setup") {
        Some(file) => match fs::read(rt, file) {
            Ok(bytes) => setup_in(rt.alloc(), &bytes, about),
            Err(error) => Err(Fault::unread(error, about)),
        },
        None => setup_in(rt.alloc(), SETUP_K.as_bytes(), about),
    }
}

/// The setup that the bytes of a file give.
pub(crate) fn setup_in(alloc: Global, bytes: &[u8], about: About) -> Result<Setup, Fault> {
    match read_setup_bytes(alloc, bytes) {
        Ok(setup) => Ok(setup),
        Err(fault) => Err(Fault::of(Code::of_setup(fault), about)),
    }
}
