//! The setup that a request names.
use crate::program_fault::ProgramFault;
use crate::refusal::Refusal;
use crate::words::Request;
use nms_fees::{SETUP_K, Setup, read_setup_bytes};
use std::alloc::Global;
use std::fs;
use std::io::ErrorKind;

/// The text of the setup that a request names, or of the built-in one if it names none.
pub(crate) fn setup_text_of(host: &HostRuntime, request: &Request) -> Result<Vec<u8>, Refusal> {
    let Some(file) = &request.setup else {
        let mut text = Vec::new(host.alloc());
        return match text.extend_from_slice(SETUP_K.as_bytes()) {
            Ok(()) => Ok(text),
            Err(_) => Err(Refusal::no_memory()),
        };
    };
    match fs::read(host, file.as_str()) {
        Ok(bytes) => Ok(bytes),
        Err(error) if error.kind() == ErrorKind::OutOfMemory => Err(Refusal::no_memory()),
        Err(error) => Err(Refusal::at(ProgramFault::NoSetup, file.as_str()).and(&error)),
    }
}

/// The setup that a text gives.
pub(crate) fn setup_in(alloc: Global, bytes: &[u8]) -> Result<Setup, Refusal> {
    match read_setup_bytes(alloc, bytes) {
        Ok(setup) => Ok(setup),
        Err(fault) => Err(Refusal::of(ProgramFault::Setup(fault))),
    }
}
